//! Why a text is no records.

use thiserror::Error;

/// Why a line is no record.
#[derive(Clone, Copy, Debug, PartialEq, Eq, Error)]
pub enum TextLineFault {
    /// It has more characters than a record has bytes.
    #[error("is longer than a record")]
    TooLong,
    /// It is not UTF-8, or has a character that code page 037 lacks, or one that controls a terminal or a file.
    #[error("has a character that is no text of EBCDIC")]
    NoCharacter,
}

/// Why a text is not records of a length.
#[derive(Clone, Copy, Debug, PartialEq, Eq, Error)]
pub enum TextRecordsFault {
    /// The line of this number, from 1 on, is no record.
    #[error("line {0} {1}")]
    Line(usize, TextLineFault),
    /// Memory was refused.
    #[error("out of memory")]
    OutOfMemory,
}

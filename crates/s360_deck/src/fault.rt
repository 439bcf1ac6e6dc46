//! Why a text is no deck, or was not read.

use thiserror::Error;

/// Why a text is no deck. Lines are counted from 1, and the first faulty line is reported.
#[derive(Clone, Copy, Debug, PartialEq, Eq, Error)]
pub enum DeckFault {
    /// There is no memory for the events.
    #[error("out of memory")]
    OutOfMemory,
    /// The first word of this line names no event.
    #[error("line {0}: unknown event")]
    Unknown(usize),
    /// An operand of this line is wrong, or there are too few or too many.
    #[error("line {0}: bad operand")]
    Operand(usize),
    /// This line has more than 512 bytes.
    #[error("line {0}: line too long")]
    LineTooLong(usize),
}

/// Why the text of a deck was not read whole.
#[derive(Clone, Copy, Debug, PartialEq, Eq, Error)]
pub enum ReadFault {
    /// There is no memory for its bytes.
    #[error("out of memory")]
    OutOfMemory,
    /// A read failed.
    #[error("read fault")]
    Failed,
    /// There are more bytes than a deck may have.
    #[error("read fault")]
    TooLong,
}

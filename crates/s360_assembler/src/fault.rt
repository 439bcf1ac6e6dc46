//! Why a text is not assembled.

use thiserror::Error;

/// What is wrong with a line.
#[derive(Clone, Copy, Debug, PartialEq, Eq, Error)]
pub enum Cause {
    /// There is no memory for a symbol or for the deck.
    #[error("out of memory")]
    OutOfMemory,
    /// It has more than 512 bytes.
    #[error("a line has at most 512 bytes")]
    LongLine,
    /// Its label is no symbol.
    #[error("a label has one to eight letters and digits, the first a letter")]
    Label,
    /// Its label is that of a line before.
    #[error("a line before has this label")]
    Twice,
    /// Its operation is none.
    #[error("no such operation: it is a mnemonic, such as SEEK, SIDEQ or TIC, or CCW, DC, DS, LOAD, ORG, or an event, such as SIO")]
    Operation,
    /// An address is none.
    #[error("an address is a number, or a label or *, as BUFFER, BUFFER+8 or *-8")]
    Address,
    /// The code of a CCW is none.
    #[error("a code is a number to 255, as X'07'")]
    Code,
    /// The flags are none.
    #[error("flags are CD, CC, SLI, SKIP and PCI, with + between, or a number to 255")]
    Flags,
    /// The count is none.
    #[error("a count is a number to 65535")]
    Count,
    /// A constant is none.
    #[error("a constant is X'..', C'..' with an apostrophe written twice, F'..' or H'..', a number in front of it or not, of 1 to 128 bytes, or A(..)")]
    Constant,
    /// An area is none.
    #[error("an area is a number and X, C, H, F or D, as 80X, or a length, as CL80")]
    Area,
    /// The name of a file is none.
    #[error("the name of a file is C'..', a byte or more, no apostrophe among them")]
    FileName,
    /// A file was not read.
    #[error("no file of this name could be read")]
    Unread,
    /// An address names a label that is nowhere, or for an origin nowhere before.
    #[error("no line has this label, or for ORG none before")]
    Undefined,
    /// A place is outside storage.
    #[error("storage goes from 0 to X'FFFFFF'")]
    Outside,
    /// An event is none of a deck.
    #[error("the operands are not those of this event in a deck")]
    Event,
    /// The deck would have more bytes than a deck may have.
    #[error("the deck has more than 1,048,576 bytes")]
    TooLong,
}

/// What is wrong with a line.
#[derive(Clone, Copy, Debug, PartialEq, Eq)]
pub struct Mistake {
    /// The column, counted from 1.
    pub column: usize,
    /// What is wrong.
    pub cause: Cause,
}

/// Why a text is not assembled.
#[derive(Clone, Copy, Debug, PartialEq, Eq, Error)]
pub enum AssemblyFault {
    /// There is no memory for the symbols or for the deck.
    #[error("out of memory")]
    OutOfMemory,
    /// A line and a column, counted from 1, and what is wrong there.
    #[error("line {0}, column {1}: {2}")]
    At(usize, usize, Cause),
    /// The deck would have more bytes than a deck may have.
    #[error("the deck has more than 1,048,576 bytes")]
    TooLong,
}

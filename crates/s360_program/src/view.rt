//! What is seen of a running program between two units.

use s360_words::Ccw;

/// What the next unit of a program does.
#[derive(Clone, Copy, Debug, PartialEq, Eq)]
pub enum AtWork {
    /// It fetches the word that begins a command.
    Fetching,
    /// It looks for the area of the command of this word.
    Looking(Ccw),
    /// It moves bytes under this word, from or to this address on.
    Moving(Ccw, u32),
}

/// A running program, as it is seen between two units.
#[derive(Clone, Copy, Debug, PartialEq, Eq)]
pub struct ProgramView {
    /// The protection key of its stores.
    pub key: u8,
    /// Where the last word was whose fetch was tried.
    pub last: u32,
    /// Where the next word is.
    pub next: u32,
    /// The count left in the last good word: the residual count.
    pub residual: u16,
    /// Whether an interruption is asked for and not yet taken.
    pub interruption: bool,
    /// What the next unit does.
    pub at_work: AtWork,
}

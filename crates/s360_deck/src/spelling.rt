//! What one line spells.

/// The name of an event.
#[derive(Clone, Copy)]
pub enum EventName {
    /// Start I/O.
    Sio,
    /// Test I/O.
    Tio,
    /// Halt I/O.
    Hio,
    /// Test Channel.
    Tch,
    /// Units of the running program.
    Step,
    /// The running program, until it ends.
    Run,
    /// An arm arrives.
    Arrive,
    /// An interruption.
    Int,
    /// A reset.
    Reset,
    /// The processor stores bytes.
    Store,
    /// The processor sets a key.
    Key,
    /// A look at storage.
    Show,
}

/// What is wrong with a line.
#[derive(Clone, Copy)]
pub enum LineFault {
    /// It has more than 512 bytes.
    TooLong,
    /// Its first word names no event.
    Unknown,
    /// An operand is wrong, or there are too few or too many.
    Operand,
}

//! Condition codes.

/// The condition code of an input/output instruction (Principles of Operation, Input/Output Operations:
/// 'Input/Output Instructions').
#[derive(Clone, Copy)]
pub enum ConditionCode {
    /// Start I/O started a program; Test I/O found the device available; Test Channel found the channel available;
    /// Halt I/O found an interruption that pends.
    Zero,
    /// The channel status word, or its status bytes, was stored; Test Channel found an interruption that pends.
    One,
    /// The channel is busy; Halt I/O ended a program.
    Two,
    /// There is no such device.
    Three,
}

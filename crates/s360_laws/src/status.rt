//! What an input/output instruction answers.

use s360_words::{ChannelStatus, UnitStatus};

/// Unit status and channel status, as Start I/O and Halt I/O store them into bytes 68 and 69 of storage (Principles of
/// Operation, 'Channel Status Word').
#[derive(Clone, Copy, Debug, PartialEq, Eq)]
pub struct Status {
    /// The unit status byte.
    pub unit: UnitStatus,
    /// The channel status byte.
    pub channel: ChannelStatus,
}

/// What an input/output instruction answers: its condition code, and what it stored under code 1 (Principles of Operation,
/// 'Start I/O', 'Test I/O', 'Halt I/O').
#[derive(Clone, Copy, Debug, PartialEq, Eq)]
pub enum Condition<T> {
    /// Code 0: a program was started, or the device is available, or an interruption is pending in the channel.
    Zero,
    /// Code 1: this was stored into the channel status word.
    Stored(T),
    /// Code 2: the channel is busy, or its program was halted.
    Two,
    /// Code 3: there is no such device on this channel.
    Three,
}

//! What the subchannel does.

use s360_program::program::Running;
use s360_words::Csw;

/// The subchannel: the part of the channel that a program occupies from its start until its channel status word is
/// stored (Principles of Operation, 'Input/Output Operations').
#[derive(Drop)]
pub enum Subchannel {
    /// Available.
    Idle,
    /// A program runs at the drive with this place in the order of attachment.
    Working(usize, Running),
    /// The program of a device has ended, and its channel status word is not yet stored.
    Pending(u8, Csw),
}

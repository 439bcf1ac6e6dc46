//! What a channel shows of itself.

use s360_laws::arm::Arm;
use s360_program::view::ProgramView;
use s360_words::Csw;

/// The subchannel, as it is shown.
#[derive(Clone, Copy, Debug, PartialEq, Eq)]
pub enum SubchannelView {
    /// Available.
    Idle,
    /// The program of the device with this address runs; and whether one of its words asked for an interruption that is not
    /// yet taken.
    Working(u8, bool),
    /// The program of this device has ended, and this channel status word is not yet stored.
    Pending(u8, Csw),
}

/// A channel, as it is shown.
#[derive(Clone, Copy, Debug, PartialEq, Eq)]
pub struct View {
    /// The subchannel.
    pub subchannel: SubchannelView,
    /// The drives in the order in which they were attached: the low byte of each one's address, and its arm.
    pub drives: [Option<(u8, Arm)>; 8],
}

/// What units of a program until its end, or up to a number, came to.
#[derive(Clone, Copy, Debug, PartialEq, Eq)]
pub struct RunOn {
    /// How many were done.
    pub units: u32,
    /// The subchannel behind them: `Working` where the program goes on, `Pending` where it has ended, `Idle` where none ran.
    pub subchannel: SubchannelView,
}

/// The program that runs, as it is seen between two units.
#[derive(Clone, Copy, Debug, PartialEq, Eq)]
pub struct Watched {
    /// The low byte of its drive's address.
    pub device: u8,
    /// What is seen of it.
    pub program: ProgramView,
}

//! What several channels refuse.

use std::alloc::AllocError;
use thiserror::Error;

/// Why a channel is not added. The faults are looked for in this order.
#[derive(Clone, Copy, Debug, PartialEq, Eq, Error)]
pub enum AddFault {
    /// The channels of a System/360 have the numbers 0 to 6 (Principles of Operation, 'Input/Output Device Addressing').
    #[error("a channel's number is 0 to 6")]
    BadNumber,
    /// There is a channel with this number.
    #[error("there is a channel with this number")]
    NumberTaken,
}

/// Why a drive is not attached. `NoChannel` is looked for first.
#[derive(Clone, Copy, Debug, PartialEq, Eq, Error)]
pub enum AttachFault {
    /// There is no channel with the number in the high byte.
    #[error("there is no channel with this number")]
    NoChannel,
    /// The channel refuses it.
    #[error("{0}")]
    Refused(s360_channel::AttachFault),
}

/// Why a drive is not taken off its channel. `NoChannel` is looked for first.
#[derive(Clone, Copy, Debug, PartialEq, Eq, Error)]
pub enum DetachFault {
    /// There is no channel with the number in the high byte.
    #[error("there is no channel with this number")]
    NoChannel,
    /// The channel refuses it.
    #[error("{0}")]
    Refused(s360_channel::DetachFault),
}

/// Why a drive does not change its pack. `NoChannel` is looked for first.
#[derive(Clone, Copy, Debug, PartialEq, Eq, Error)]
pub enum ExchangeFault {
    /// There is no channel with the number in the high byte.
    #[error("there is no channel with this number")]
    NoChannel,
    /// The channel refuses it.
    #[error("{0}")]
    Refused(s360_channel::ExchangeFault),
}

/// Why a drive is not put where it was. `NoChannel` is looked for first.
#[derive(Clone, Copy, Debug, PartialEq, Eq, Error)]
pub enum RestoreFault {
    /// There is no channel with the number in the high byte.
    #[error("there is no channel with this number")]
    NoChannel,
    /// The channel refuses it.
    #[error("{0}")]
    Refused(s360_channel::RestoreFault),
}

/// Why a channel status word does not pend. `NoChannel` is looked for first.
#[derive(Clone, Copy, Debug, PartialEq, Eq, Error)]
pub enum PendingFault {
    /// There is no channel with the number in the high byte.
    #[error("there is no channel with this number")]
    NoChannel,
    /// The channel refuses it.
    #[error("{0}")]
    Refused(s360_channel::PendingFault),
}

/// Why channels are not put back as they were saved. The channels are looked at in the order of their numbers.
#[derive(Clone, Copy, Debug, PartialEq, Eq, Error)]
pub enum SavedFault {
    /// A channel was saved that is not there, or is there and was not saved.
    #[error("other channels were saved")]
    OtherChannels,
    /// A channel refuses it.
    #[error("{0}")]
    Refused(s360_channel::SavedFault),
}

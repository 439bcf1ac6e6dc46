//! What a channel refuses.

use std::alloc::AllocError;
use thiserror::Error;

/// Why there is no such channel.
#[derive(Clone, Copy, Debug, PartialEq, Eq, Error)]
pub enum NewFault {
    /// The channels of a System/360 have the numbers 0 to 6 (Principles of Operation, 'Input/Output Device Addressing').
    #[error("a channel's number is 0 to 6")]
    BadNumber,
}

/// Why a drive is not attached.
#[derive(Clone, Copy, Debug, PartialEq, Eq, Error)]
pub enum AttachFault {
    /// There is a drive with this address.
    #[error("a drive with this address is attached")]
    UnitTaken,
    /// Eight drives are attached.
    #[error("eight drives are attached")]
    Full,
    /// There is no memory for the drive, its slot and the table of its records.
    #[error("out of memory")]
    OutOfMemory(AllocError),
}

/// The bytes, or the address, are not within storage.
#[derive(Clone, Copy, Debug, PartialEq, Eq, Error)]
#[error("outside storage")]
pub struct OutsideStorage;

/// Why a drive is not taken off its channel. The faults are looked for in this order.
#[derive(Clone, Copy, Debug, PartialEq, Eq, Error)]
pub enum DetachFault {
    /// There is no drive with this address.
    #[error("no drive with this address is attached")]
    NoDrive,
    /// The program that runs is this drive's.
    #[error("a program runs at this drive")]
    ProgramRuns,
    /// The channel status word that pends is this drive's.
    #[error("an ending of this drive is pending")]
    EndingPends,
    /// The arm moves, or has arrived and its device end is not yet stored.
    #[error("this drive owes a device end")]
    DeviceEndOwed,
}

/// Why a drive does not change its pack. `Held` is looked for first.
#[derive(Clone, Copy, Debug, PartialEq, Eq, Error)]
pub enum ExchangeFault {
    /// There is no such drive, or something is owed of it.
    #[error("{0}")]
    Held(DetachFault),
    /// The image is a pack of another model, or its tracks have slots of another size.
    #[error("a pack of another drive")]
    OtherPack,
}

/// The storage is not as large as the channel's.
#[derive(Clone, Copy, Debug, PartialEq, Eq, Error)]
#[error("a storage of another size")]
pub struct OtherSize;

/// Why a drive is not put where it was. `Held` is looked for first.
#[derive(Clone, Copy, Debug, PartialEq, Eq, Error)]
pub enum RestoreFault {
    /// There is no such drive, or something is owed of it.
    #[error("{0}")]
    Held(DetachFault),
    /// Its volume has no such cylinder or head.
    #[error("the volume has no such track")]
    NoSuchTrack,
}

/// Why a channel status word does not pend. `NotIdle` is looked for first.
#[derive(Clone, Copy, Debug, PartialEq, Eq, Error)]
pub enum PendingFault {
    /// A program runs, or a channel status word pends.
    #[error("the subchannel is not available")]
    NotIdle,
    /// No channel stores it for this device: it lacks the channel end; or it has the device end, and the arm owes another; or neither.
    #[error("no ending that a channel owes")]
    NotOwed,
}

/// Why a channel is not put back as it was saved. They are looked for in this order.
#[derive(Clone, Copy, Debug, PartialEq, Eq, Error)]
pub enum SavedFault {
    /// A channel program runs.
    #[error("a channel program runs")]
    ProgramRuns,
    /// The drives that are attached are not those that were saved.
    #[error("other drives were saved")]
    OtherDrives,
    /// A volume has no such cylinder or head.
    #[error("a volume has no such track")]
    NoSuchTrack,
    /// No channel owes the channel status word that is to pend.
    #[error("no ending that a channel owes")]
    NotOwed,
}

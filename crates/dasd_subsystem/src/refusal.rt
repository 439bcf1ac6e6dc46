//! What a subsystem refuses.

ghost use Rattle.std.specs.Prelude.{◌≡◌};
ghost use Rattle.dasd_subsystem.specs.Attaching.{refusal_of};

use ckd_image::MountFault;
use s360_channel::AttachFault as WhyNot;
use s360_channels::AttachFault;
use thiserror::Error;

/// Why a subsystem was not made, a drive not attached, or files are no image.
#[derive(Clone, Copy, Debug, PartialEq, Eq, Error)]
pub enum Refusal {
    /// The set has none of the channels 0 to 6, or more than these.
    #[error("the set is not one of the channels 0 to 6")]
    BadChannels,
    /// There is no storage of this size.
    #[error("a storage has a multiple of 2,048 bytes, from 4,096 to 16,777,216")]
    BadSize,
    /// There is no channel with the number in the high byte of the address.
    #[error("no channel of this number")]
    NoChannel,
    /// A new volume has at least one cylinder.
    #[error("a volume has at least one cylinder")]
    NoCylinders,
    /// An image has at least one file.
    #[error("an image has at least one file")]
    NoFiles,
    /// An image has at most eight files.
    #[error("an image has at most eight files")]
    TooManyFiles,
    /// The files hold no image.
    #[error("no image")]
    Mount(MountFault),
    /// There is a drive with this address.
    #[error("a drive with this address is attached")]
    AddressTaken,
    /// Eight drives are attached.
    #[error("eight drives are attached")]
    Full,
    /// There is no memory.
    #[error("out of memory")]
    OutOfMemory,
}

/// Why no drive was attached.
pub(crate) fn of_attach(fault: AttachFault) -> Refusal
    ensures { result ≡ refusal_of fault }
{
    match fault {
        AttachFault::NoChannel => Refusal::NoChannel,
        AttachFault::Refused(WhyNot::UnitTaken) => Refusal::AddressTaken,
        AttachFault::Refused(WhyNot::Full) => Refusal::Full,
        AttachFault::Refused(WhyNot::OutOfMemory(_)) => Refusal::OutOfMemory,
    }
}

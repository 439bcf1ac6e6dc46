//! Why records were not put onto a volume.

ghost use Rattle.std.specs.Prelude.{◌≡◌};
ghost use Rattle.changed_volumes.specs.Changes.{IsHinderedBy as IsChangeHindered};
ghost use Rattle.loaded_sets.specs.PlacedParts.{IsHinderedBy};

use changed_volumes::ChangeFault;
use dasd_jobs::JobFault;
use thiserror::Error;
use volume_changes::ChangeRefusal;

/// Why a volume does not get a data set. It stays as it was.
#[derive(Clone, Copy, Debug, Error)]
pub enum PlaceRefusal {
    /// The volume has no label or no table of contents.
    #[error(transparent)]
    Volume(ChangeRefusal),
    /// Something is wrong with the volume.
    #[error("the volume has findings")]
    Findings,
    /// The volume has not so many free tracks one behind another.
    #[error("no run of free tracks is long enough")]
    NoRoom,
    /// The table of contents has no free control block.
    #[error("no free control block in the volume table of contents")]
    NoFreeBlock,
    /// With the data set on it the volume would not say of itself what it should.
    #[error("the volume would not be whole with the data set")]
    Unconfirmed,
}

/// Why records were not put onto the volume of an image.
#[derive(Clone, Copy, Debug, Error)]
pub enum PlaceFault {
    /// The volume does not get them.
    #[error(transparent)]
    Refused(PlaceRefusal),
    /// There is no memory, or a slot in memory is not read or written.
    #[error(transparent)]
    Job(JobFault),
}

/// No memory.
pub(crate) const NO_MEMORY: PlaceFault = PlaceFault::Job(JobFault::OutOfMemory);

/// A slot of the image in memory that can't be read or written.
pub(crate) const NO_SLOT: PlaceFault = PlaceFault::Job(JobFault::Store);

/// A refusal.
pub(crate) fn refused(refusal: PlaceRefusal) -> PlaceFault
    ensures { result ≡ PlaceFault.Refused refusal }
{
    PlaceFault::Refused(refusal)
}

/// What a fault of a volume that is read of memory is.
pub(crate) fn of_reading(fault: ChangeFault) -> PlaceFault
    requires { IsChangeHindered fault }
    ensures { IsHinderedBy result }
{
    match fault {
        ChangeFault::Job(fault) => PlaceFault::Job(fault),
        ChangeFault::Refused(_) | ChangeFault::Save(_) => NO_MEMORY,
    }
}

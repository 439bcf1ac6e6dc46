//! Why a data set was not put onto a volume.

ghost use Rattle.std.specs.Prelude.{◌≡◌};
ghost use Rattle.loaded_sets.specs.Faults.{placing_fault, file_fault};
ghost use Rattle.loaded_sets.specs.Parts.{unmade_fault};

use crate::{PlaceFault, PlaceRefusal};
use changed_volumes::ChangeFault;
use dasd_jobs::{FileFault, JobFault};
use record_tracks::{BlockFault, LibraryFault, TextLineFault};
use thiserror::Error;
use volume_labels::AttributeFault;

/// Why a file has no blocks for a data set or a member.
#[derive(Clone, Copy, Debug, Error)]
pub enum ContentFault {
    /// The record format and the lengths are those of no data set.
    #[error(transparent)]
    Attributes(AttributeFault),
    /// Lines of text are asked for in records that are not of one length.
    #[error("lines of text are records of one length, F or FB")]
    NotText,
    /// A line of the file is no record; its number, from 1 on, and why.
    #[error("line {0} {1}")]
    Line(usize, TextLineFault),
    /// The bytes of the file are no blocks of such a data set.
    #[error(transparent)]
    Blocks(BlockFault),
}

/// Why a file is not made into blocks.
#[derive(Clone, Copy)]
pub enum Unmade {
    /// It has none.
    Content(ContentFault),
    /// Memory was refused.
    OutOfMemory,
}

/// Why a volume does not get a data set as it was asked. It stays as it was.
#[derive(Clone, Copy, Debug, Error)]
pub enum LoadRefusal {
    /// The name is none.
    #[error("not a name of a data set")]
    NoName,
    /// The volume gets no data set, or has no place for it.
    #[error(transparent)]
    Placed(PlaceRefusal),
    /// A data set of the volume has the name.
    #[error("a data set has this name")]
    NameTaken,
    /// The file has no blocks for it.
    #[error(transparent)]
    Content(ContentFault),
    /// The file of a member has none; the member's number, from 1 on, and why.
    #[error("member {0}: {1}")]
    Member(usize, ContentFault),
    /// The library has no directory.
    #[error(transparent)]
    Library(LibraryFault),
}

/// Why a data set was not put onto a volume in files, or not told to be.
pub type LoadFault = ChangeFault<LoadRefusal>;

/// No memory.
pub const NO_MEMORY: LoadFault = LoadFault::Job(JobFault::OutOfMemory);

/// A refusal.
pub fn refused(refusal: LoadRefusal) -> LoadFault
    ensures { result ≡ ChangeFault.Refused refusal }
{
    LoadFault::Refused(refusal)
}

/// What the fault of a volume that gets no records is.
pub fn of_placing(fault: PlaceFault) -> LoadFault
    ensures { result ≡ placing_fault fault }
{
    match fault {
        PlaceFault::Refused(refusal) => LoadFault::Refused(LoadRefusal::Placed(refusal)),
        PlaceFault::Job(fault) => LoadFault::Job(fault),
    }
}

/// What a file that is not made into blocks is for its data set.
pub(crate) fn of_unmade(fault: Unmade) -> LoadFault
    ensures { result ≡ unmade_fault fault }
{
    match fault {
        Unmade::Content(fault) => LoadFault::Refused(LoadRefusal::Content(fault)),
        Unmade::OutOfMemory => NO_MEMORY,
    }
}

/// What a fault of the file with the blocks of a data set or a member is.
pub fn of_file<R: Drop>(fault: FileFault) -> ChangeFault<R>
    ensures { result ≡ file_fault fault }
{
    match fault {
        FileFault::OutOfMemory => ChangeFault::Job(JobFault::OutOfMemory),
        _ => ChangeFault::Job(JobFault::Read),
    }
}

//! Why a member was not put into a library.

ghost use Rattle.std.specs.Prelude.{◌≡◌};
ghost use Rattle.loaded_folders.specs.Faults.{placing_fault, reading_fault, unmade_fault, deletion_fault, loading_fault};

use changed_volumes::ChangeFault;
use dasd_jobs::JobFault;
use dasd_volumes::VolumeFault;
use library_contents::LibraryReadFault;
use loaded_sets::{ContentFault, LoadFault, LoadRefusal, PlaceFault, PlaceRefusal, Unmade};
use thiserror::Error;
use volume_changes::ChangeRefusal;

/// Why a library does not get a member as it was asked. The volume stays as it was.
#[derive(Clone, Copy, Debug, Error)]
pub enum NewMemberRefusal {
    /// The name of the library is none.
    #[error("not a name of a data set")]
    NoName,
    /// The name of the member is none.
    #[error("not a name of a member")]
    NoMemberName,
    /// No data set is put onto the volume.
    #[error(transparent)]
    Volume(PlaceRefusal),
    /// No data set of the volume has the name.
    #[error("no such data set")]
    NoDataSet,
    /// The data set of the name has no directory.
    #[error("not a partitioned data set")]
    NotPartitioned,
    /// The library is not read whole.
    #[error(transparent)]
    Read(LibraryReadFault),
    /// A member of the library has the name.
    #[error("a member has this name")]
    NameTaken,
    /// The entry of this number, from 1 on, leads to a note list: a block that has addresses of others itself, which would be wrong in a library
    /// that is written anew.
    #[error("entry {0} has a note list, whose addresses would be wrong in the library with the member")]
    NoteList(usize),
    /// The file has no blocks for the library.
    #[error(transparent)]
    Content(ContentFault),
    /// The data set of the library is not deleted.
    #[error(transparent)]
    Deletion(ChangeRefusal),
    /// The library with the member is not put onto the volume.
    #[error(transparent)]
    Load(LoadRefusal),
}

/// Why a member was not put into a library of a volume in files, or not told to be.
pub type NewMemberFault = ChangeFault<NewMemberRefusal>;

/// No memory.
pub(crate) const NO_MEMORY: NewMemberFault = NewMemberFault::Job(JobFault::OutOfMemory);

/// A refusal.
pub(crate) fn refused(refusal: NewMemberRefusal) -> NewMemberFault
    ensures { result ≡ ChangeFault.Refused refusal }
{
    NewMemberFault::Refused(refusal)
}

/// What the fault of a volume that gets no data set is.
pub(crate) fn of_placing(fault: PlaceFault) -> NewMemberFault
    ensures { result ≡ placing_fault fault }
{
    match fault {
        PlaceFault::Refused(refusal) => NewMemberFault::Refused(NewMemberRefusal::Volume(refusal)),
        PlaceFault::Job(fault) => NewMemberFault::Job(fault),
    }
}

/// What the fault of a library that is not read is.
pub(crate) fn of_reading(fault: LibraryReadFault) -> NewMemberFault
    ensures { result ≡ reading_fault fault }
{
    match fault {
        LibraryReadFault::Volume(VolumeFault::OutOfMemory) => NO_MEMORY,
        LibraryReadFault::Volume(_) => NewMemberFault::Job(JobFault::Store),
        fault => NewMemberFault::Refused(NewMemberRefusal::Read(fault)),
    }
}

/// What a file that is not made into blocks is.
pub(crate) fn of_unmade(fault: Unmade) -> NewMemberFault
    ensures { result ≡ unmade_fault fault }
{
    match fault {
        Unmade::Content(fault) => NewMemberFault::Refused(NewMemberRefusal::Content(fault)),
        Unmade::OutOfMemory => NO_MEMORY,
    }
}

/// What the fault of a data set that is not deleted is.
pub(crate) fn of_deletion(fault: ChangeFault) -> NewMemberFault
    ensures { result ≡ deletion_fault fault }
{
    match fault {
        ChangeFault::Refused(refusal) => NewMemberFault::Refused(NewMemberRefusal::Deletion(
            refusal,
        )),
        ChangeFault::Job(fault) => NewMemberFault::Job(fault),
        ChangeFault::Save(fault) => NewMemberFault::Save(fault),
    }
}

/// What the fault of a library that is not put onto a volume is.
pub(crate) fn of_loading(fault: LoadFault) -> NewMemberFault
    ensures { result ≡ loading_fault fault }
{
    match fault {
        LoadFault::Refused(refusal) => NewMemberFault::Refused(NewMemberRefusal::Load(refusal)),
        LoadFault::Job(fault) => NewMemberFault::Job(fault),
        LoadFault::Save(fault) => NewMemberFault::Save(fault),
    }
}

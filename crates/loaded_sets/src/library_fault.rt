//! Why a library was not put onto a volume.

ghost use Rattle.std.specs.Prelude.{◌≡◌};
ghost use Rattle.loaded_sets.specs.LibraryParts.{member_fault, library_failure};

use crate::{LoadFault, LoadRefusal, NO_MEMORY, Unmade};
use record_tracks::LibraryFault;

/// What the file of a member that is not made into blocks is for its library. Its number is from 1 on.
pub(crate) fn of_member(number: usize, fault: Unmade) -> LoadFault
    ensures { result ≡ member_fault number fault }
{
    match fault {
        Unmade::Content(fault) => LoadFault::Refused(LoadRefusal::Member(number, fault)),
        Unmade::OutOfMemory => NO_MEMORY,
    }
}

/// What the fault of a library without a directory is.
pub(crate) fn of_library(fault: LibraryFault) -> LoadFault
    ensures { result ≡ library_failure fault }
{
    match fault {
        LibraryFault::OutOfMemory => NO_MEMORY,
        fault => LoadFault::Refused(LoadRefusal::Library(fault)),
    }
}

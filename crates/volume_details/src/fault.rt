//! Why the members of a library are not listed.

ghost use Rattle.std.specs.Prelude.{◌≡◌};
ghost use Rattle.volume_details.specs.Libraries.{library_fault};

use dasd_volumes::VolumeFault;
use thiserror::Error;

/// Why the members of a library are not listed.
#[derive(Clone, Copy, Debug, PartialEq, Eq, Error)]
pub enum MemberListFault {
    /// The volume has no data set of this name.
    #[error("no such data set")]
    NoDataSet,
    /// The data set of this name has no members.
    #[error("not a partitioned data set")]
    NotPartitioned,
    /// There is no memory.
    #[error("out of memory")]
    OutOfMemory,
    /// The volume can't be read.
    #[error("read fault")]
    Read,
    /// A write failed.
    #[error("write fault")]
    Write,
}

/// What a fault of a volume is.
pub(crate) fn of_volume(fault: VolumeFault) -> MemberListFault
    ensures { result ≡ library_fault fault }
{
    match fault {
        VolumeFault::OutOfMemory => MemberListFault::OutOfMemory,
        VolumeFault::Store => MemberListFault::Read,
        VolumeFault::Write => MemberListFault::Write,
    }
}

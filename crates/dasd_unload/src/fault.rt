//! Why data sets were not unloaded.

ghost use Rattle.std.specs.Prelude.{◌≡◌};
ghost use Rattle.dasd_unload.specs.Unloads.{unload_fault, reading_fault};

use crate::parts::End;
use dasd_jobs::JobFault;
use dasd_volumes::VolumeFault;
use thiserror::Error;
use volume_labels::AttributeFault;

/// Why a data set was not unloaded, or not as a whole.
#[derive(Clone, Copy, Debug, Error)]
pub enum UnloadFault {
    /// The volume has no data set of this name.
    #[error("no such data set")]
    NoDataSet,
    /// The data set has no member of this name.
    #[error("no such member")]
    NoMember,
    /// The data set is partitioned, and none of its members is named.
    #[error("no member named")]
    NoMemberNamed,
    /// The format of the data set is of no records, which could be lines, and none is given; or what is given contradicts the label, or
    /// lacks a length.
    #[error("{0}")]
    Attributes(AttributeFault),
    /// What was unloaded ends so, before its end of file; or it is a part of a data set on several volumes.
    #[error("{0}")]
    NotWhole(End),
    /// A fault of the files or of the volume stopped it.
    #[error(transparent)]
    Job(JobFault),
}

/// No memory.
pub(crate) const NO_MEMORY: UnloadFault = UnloadFault::Job(JobFault::OutOfMemory);

/// What a fault over the files of a volume is: a slot that can't be read is a file that can't be.
pub(crate) fn of_volume(fault: VolumeFault) -> UnloadFault
    ensures { result ≡ unload_fault fault }
{
    UnloadFault::Job(match fault {
        VolumeFault::OutOfMemory => JobFault::OutOfMemory,
        VolumeFault::Store => JobFault::Read,
        VolumeFault::Write => JobFault::Write,
    })
}

/// What a fault of a call is that reads a volume, and writes nothing.
pub(crate) fn of_reading(fault: VolumeFault) -> UnloadFault
    ensures { result ≡ reading_fault fault }
{
    match fault {
        VolumeFault::Store => UnloadFault::Job(JobFault::Read),
        _ => NO_MEMORY,
    }
}

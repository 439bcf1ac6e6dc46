//! Why a volume in files was not changed.

ghost use Rattle.std.specs.Prelude.{◌≡◌};
ghost use Rattle.changed_volumes.specs.Changes.{reading_fault, written_line, IsHinderedBy};

use counted_io::WriteFault;
use dasd_jobs::JobFault;
use dasd_volumes::VolumeFault;
use std::fmt;
use thiserror::Error;
use volume_changes::ChangeRefusal;

/// Why a volume in files was not changed, or not told to be: it is refused for a reason of the change, or something hinders it.
#[derive(Debug, Drop, Error)]
#[error_bound(R: fmt::Display)]
pub enum ChangeFault<R = ChangeRefusal> {
    /// The volume is not changed so.
    #[error(transparent)]
    Refused(R),
    /// Files are not read, there is no memory, or the line can't be written.
    #[error(transparent)]
    Job(JobFault),
    /// A file that was changed can't be saved: none is written.
    #[error(transparent)]
    Save(JobFault),
}

/// No memory.
pub(crate) const NO_MEMORY: ChangeFault = ChangeFault::Job(JobFault::OutOfMemory);

/// A slot of the image in memory that can't be read or written.
pub(crate) const NO_SLOT: ChangeFault = ChangeFault::Job(JobFault::Store);

/// What the fault of a volume that is read of memory is.
pub fn of_reading<R: Drop>(fault: VolumeFault) -> ChangeFault<R>
    ensures value { result ≡ reading_fault fault }
    ensures hinders { IsHinderedBy result }
{
    match fault {
        VolumeFault::OutOfMemory => ChangeFault::Job(JobFault::OutOfMemory),
        VolumeFault::Store | VolumeFault::Write => ChangeFault::Job(JobFault::Store),
    }
}

/// What the fault of a line that is written is.
pub fn of_line<R: Drop>(written: Result<(), WriteFault>) -> Result<(), ChangeFault<R>>
    ensures { result ≡ written_line written }
{
    match written {
        Ok(()) => Ok(()),
        Err(WriteFault) => Err(ChangeFault::Job(JobFault::Write)),
    }
}

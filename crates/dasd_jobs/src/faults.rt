//! Why a job was not done.

ghost use Rattle.std.specs.Prelude.{◌≡◌};
ghost use Rattle.dasd_jobs.specs.Causes.{reading_fault, writing_fault, mounting_fault};

use crate::files::FileFault;
use ckd_image::MountFault;
use dasd_volumes::VolumeFault;
use thiserror::Error;

/// Why a job was not done, or not to its end.
#[derive(Clone, Copy, Debug, Error)]
pub enum JobFault {
    /// There is no memory for it.
    #[error("out of memory")]
    OutOfMemory,
    /// The files hold no image.
    #[error(transparent)]
    Mount(MountFault),
    /// A file could not be read.
    #[error("read fault")]
    Read,
    /// A file or a line could not be written.
    #[error("write fault")]
    Write,
    /// A slot could not be read.
    #[error("store fault")]
    Store,
    /// A file that may be written is locked by another program, or was named before.
    #[error("image in use")]
    InUse,
    /// A file is there that was not to be replaced.
    #[error("file exists")]
    Exists,
}

/// What a fault of a file that is read is to a job.
pub(crate) fn of_read(fault: FileFault) -> JobFault
    ensures { result ≡ reading_fault fault }
{
    match fault {
        FileFault::OutOfMemory => JobFault::OutOfMemory,
        FileFault::Refused => JobFault::Read,
        FileFault::InUse | FileFault::Twice => JobFault::InUse,
        FileFault::Exists => JobFault::Exists,
    }
}

/// What a fault of a file that is replaced is to a job.
pub fn of_write(fault: FileFault) -> JobFault
    ensures { result ≡ writing_fault fault }
{
    match fault {
        FileFault::OutOfMemory => JobFault::OutOfMemory,
        FileFault::Refused => JobFault::Write,
        FileFault::InUse | FileFault::Twice => JobFault::InUse,
        FileFault::Exists => JobFault::Exists,
    }
}

/// What a fault of a mount is to a job: where a header can't be read, its file can't be.
pub(crate) fn of_mount(fault: MountFault) -> JobFault
    ensures { result ≡ mounting_fault fault }
{
    match fault {
        MountFault::StoreFault => JobFault::Read,
        broken => JobFault::Mount(broken),
    }
}

impl From<VolumeFault> for JobFault {
    fn from(fault: VolumeFault) -> JobFault {
        match fault {
            VolumeFault::OutOfMemory => JobFault::OutOfMemory,
            VolumeFault::Store => JobFault::Store,
            VolumeFault::Write => JobFault::Write,
        }
    }
}

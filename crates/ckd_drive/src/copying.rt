//! A drive is copied in memory, also in the middle of a command.

ghost use Rattle.std.specs.Prelude.{◌≡◌, IfOk};
ghost use Rattle.ckd_drive.specs.Jobs.{half_done};

use crate::drive::Drive;
use crate::job::Job;
use ckd_image::CopyStore;
use std::alloc::{AllocError, Global};

impl<S: CopyStore> Drive<S> {
    /// A second drive that is as this one is, over a copy of its image: the registers, the command that is open and how far its
    /// bytes are, and a track that was written and is not saved. It may be called at any time. It takes as much memory as the
    /// drive and its image have, and makes no call of a store but to copy it.
    ///
    /// # Errors
    ///
    /// There is no such memory. This drive stays in any case.
    pub fn copy(&self, alloc: Global) -> Result<Drive<S>, AllocError>
        ensures { IfOk result (λ copy. copy ≡ self.now) }
    {
        Ok(Drive {
            job: self.job.copy(alloc)?,
            mark: self.mark,
            stage: self.stage,
        })
    }
}

impl<S: CopyStore> Job<S> {
    // A second job that is half done as this one is.
    fn copy(&self, alloc: Global) -> Result<Job<S>, AllocError>
        ensures { IfOk result (λ copy. half_done copy ≡ half_done self.now) }
    {
        Ok(Job {
            cache: self.cache.copy(alloc)?,
            registers: self.registers,
            opened: self.opened,
            progress: self.progress,
            before: self.before.again(),
            passed: self.passed.again(),
        })
    }
}

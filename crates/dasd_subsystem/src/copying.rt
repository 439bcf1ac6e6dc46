//! A subsystem is copied in memory.

ghost use Rattle.std.specs.Prelude.{◌≡◌, IfOk, IfErr};

use crate::refusal::Refusal;
use crate::subsystem::Subsystem;
use s360_words::Storage;
use std::alloc::{AllocError, Global};

impl Subsystem {
    /// A second subsystem that is as this one is, also in the middle of its programs: the channels, copies of their drives with
    /// the volumes, and a copy of main storage, where it is theirs. No call of one changes the other.
    ///
    /// # Errors
    ///
    /// `OutOfMemory`. This subsystem stays, and what was copied is let go.
    pub fn copy(&self, alloc: Global) -> Result<Subsystem, Refusal>
        ensures copy { IfOk result (λ copy. copy ≡ self.now) }
        ensures refused { IfErr result (λ e. e ≡ Refusal.OutOfMemory) }
    {
        match copied(alloc, self) {
            Ok(copy) => Ok(copy),
            Err(_) => Err(Refusal::OutOfMemory),
        }
    }
}

// A copy, for which memory is all that can be wanting.
fn copied(alloc: Global, subsystem: &Subsystem) -> Result<Subsystem, AllocError>
    ensures { IfOk result (λ copy. copy ≡ subsystem.now) }
{
    Ok(Subsystem {
        channels: subsystem.channels.copy(alloc)?,
        storage: copy_storage(alloc, &subsystem.storage)?,
    })
}

// A copy of a storage, if there is one.
fn copy_storage(alloc: Global, storage: &Option<Storage>) -> Result<Option<Storage>, AllocError>
    ensures { IfOk result (λ copy. copy ≡ storage.now) }
{
    match storage {
        Some(storage) => Ok(Some(storage.copy(alloc)?)),
        None => Ok(None),
    }
}

//! Attached drives are copied in memory.

ghost use Rattle.std.specs.Prelude.{◌≡◌, IfOk};

use crate::attached_drive::AttachedDrive;
use crate::drives::Drives;
use ckd_drive::Drive;
use ckd_image::CopyStore;
use std::alloc::{AllocError, Global};

impl<S: CopyStore> Drives<S> {
    /// A copy of each, in their order.
    ///
    /// # Errors
    ///
    /// There is no memory for them; what was copied is let go.
    pub fn copy(&self, alloc: Global) -> Result<Drives<S>, AllocError>
        ensures { IfOk result (λ copy. copy ≡ self.now) }
    {
        let mut copies = Drives::new();
        for place in 0..self.len() {
            copies.push(self.at(place).copy(alloc)?);
        }
        Ok(copies)
    }
}

impl<S: CopyStore> AttachedDrive<S> {
    // A copy of the drive, under the same address, whose arm does the same.
    fn copy(&self, alloc: Global) -> Result<AttachedDrive<S>, AllocError>
        ensures { IfOk result (λ copy. copy ≡ self.now) }
    {
        Ok(AttachedDrive {
            device: self.device,
            arm: self.arm,
            drive: on_the_heap(alloc, self.drive.copy(alloc)?)?,
        })
    }
}

// A drive, on the heap.
fn on_the_heap<S: CopyStore>(alloc: Global, drive: Drive<S>) -> Result<Box<Drive<S>>, AllocError>
    ensures { IfOk result (λ held. held.value ≡ drive) }
{
    match Box::new(alloc, drive) {
        Ok(held) => Ok(held),
        Err(_) => Err(AllocError),
    }
}

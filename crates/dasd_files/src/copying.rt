//! A file is copied in memory.

ghost use Rattle.std.specs.Prelude.{◌≡◌, IfOk};

use crate::parts::Parts;
use crate::volume_file::VolumeFile;
use ckd_image::CopyStore;
use std::alloc::{AllocError, Global};

impl CopyStore for VolumeFile {
    fn copy(&self, alloc: Global) -> Result<VolumeFile, AllocError> {
        Ok(VolumeFile {
            held: Vec::from_slice(alloc, &self.held)?,
            origin: self.origin.again(),
            refused: self.refused.again(),
            changes: self.changes,
            counted: self.counted,
            past: self.past.again(),
            parts: copy_parts(alloc, &self.parts)?,
        })
    }
}

// The same parts once more, where they are kept.
fn copy_parts(alloc: Global, parts: &Option<Parts>) -> Result<Option<Parts>, AllocError>
    ensures { IfOk result (λ copy. copy ≡ parts.now) }
{
    match parts {
        Some(parts) => Ok(Some(parts.copy(alloc)?)),
        None => Ok(None),
    }
}

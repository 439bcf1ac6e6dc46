//! The slot of a track at hand, and an image with it, are copied in memory.

ghost use Rattle.std.specs.Prelude.{◌≡◌, IfOk};

use crate::buffer::TrackBuffer;
use crate::cache::TrackCache;
use ckd_image::CopyStore;
use std::alloc::{AllocError, Global};

impl TrackBuffer {
    /// A second buffer with the same slot. It takes as much memory again.
    ///
    /// # Errors
    ///
    /// There is no such memory. This buffer stays in any case.
    pub fn copy(&self, alloc: Global) -> Result<TrackBuffer, AllocError>
        ensures { IfOk result (λ copy. copy ≡ self.now) }
    {
        Ok(TrackBuffer {
            slot: Vec::from_slice(alloc, &self.slot)?,
            offsets: Vec::from_slice(alloc, &self.offsets)?,
            records: self.records,
            zeros_from: self.zeros_from,
            exact: self.exact,
            charged: self.charged,
        })
    }
}

impl<S: CopyStore> TrackCache<S> {
    /// A second cache over a copy of the image, with the same slot at hand, also where that was written and is not saved. It
    /// takes as much memory again, and makes no call of a store but to copy it.
    ///
    /// # Errors
    ///
    /// There is no such memory. This cache stays in any case.
    pub fn copy(&self, alloc: Global) -> Result<TrackCache<S>, AllocError>
        ensures { IfOk result (λ copy. copy ≡ self.now) }
    {
        Ok(TrackCache {
            image: self.image.copy(alloc)?,
            buffer: self.buffer.copy(alloc)?,
            held: self.held,
            changed: self.changed,
        })
    }
}

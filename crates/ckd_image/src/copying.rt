//! Stores and images are copied in memory.

ghost use Rattle.std.specs.Prelude.{◌≡◌, IfOk};

use crate::failing::FailingStore;
use crate::images::Image;
use crate::memory::MemoryStore;
use crate::store::ImageStore;
use crate::stores::copy_stores;
use std::alloc::{AllocError, Global};

/// A store that can be copied in memory.
pub trait CopyStore: ImageStore {
    /// A second store that is as this one is: what it holds, what it held when it was made, how many of its calls failed, and
    /// whatever else its type is seen as. From then on each changes by its own calls alone.
    ///
    /// # Errors
    ///
    /// There is no memory for it. This store stays in any case.
    fn copy(&self, alloc: Global) -> Result<Self, AllocError>
        ensures { IfOk result (λ copy. copy ≡ self.now) };
}

impl CopyStore for MemoryStore {
    fn copy(&self, alloc: Global) -> Result<MemoryStore, AllocError> {
        Ok(MemoryStore {
            held: Vec::from_slice(alloc, &self.held)?,
            origin: self.origin.again(),
            refused: self.refused.again(),
        })
    }
}

impl CopyStore for FailingStore {
    fn copy(&self, alloc: Global) -> Result<FailingStore, AllocError> {
        Ok(FailingStore {
            store: self.store.copy(alloc)?,
            calls: self.calls,
            fails_at: self.fails_at,
            for_good: self.for_good,
            made_to_fail: self.made_to_fail.again(),
        })
    }
}

impl<S: CopyStore> Image<S> {
    /// A second image of the same volume, in copies of the stores, with as many loads, saves and failures behind it. It takes as
    /// much memory as the stores' copies do, and makes no read and no write of a store.
    ///
    /// # Errors
    ///
    /// There is no memory for it. This image stays in any case.
    pub fn copy(&self, alloc: Global) -> Result<Image<S>, AllocError>
        ensures { IfOk result (λ copy. copy ≡ self.now) }
    {
        Ok(Image {
            stores: copy_stores(alloc, &self.stores)?,
            geometry: self.geometry,
            tracks: self.tracks,
            loads: self.loads.again(),
            saves: self.saves.again(),
        })
    }
}

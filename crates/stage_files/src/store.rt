//! The stores of files.

use crate::watch::{Watch, count, count_failed};
use ckd_image::{FailingStore, ImageStore, StoreFault};
use std::rc::Rc;

/// A store that is watched, and knows whose file it is.
#[derive(Drop)]
pub struct Watched<S: ImageStore> {
    pub(crate) store: S,
    pub(crate) name: String,
    pub(crate) watch: Rc<Watch>,
}

/// The store of a file: in memory, and it fails at the calls asked for.
pub type FileStore = Watched<FailingStore>;

impl<S: ImageStore> ImageStore for Watched<S> {
    ghost content = { λ w. S.content w.store };

    ghost origin = { λ w. S.origin w.store };

    ghost failures = { λ w. S.failures w.store };

    fn len(&self) -> u64 {
        self.store.len()
    }

    fn read_at(&mut self, at: u64, into: &mut [u8]) -> Result<(), StoreFault> {
        let len = into.len();
        let came = self.store.read_at(at, into);
        count(&self.watch.reads, at, len);
        count_failed(&self.watch.failed_reads, at, len, &came);
        came
    }

    fn write_at(&mut self, at: u64, bytes: &[u8]) -> Result<(), StoreFault> {
        let came = self.store.write_at(at, bytes);
        count(&self.watch.writes, at, bytes.len());
        count_failed(&self.watch.failed_writes, at, bytes.len(), &came);
        came
    }
}

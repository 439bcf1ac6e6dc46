//! A store that fails at the calls asked for, for tests.

ghost use Rattle.std.specs.Prelude.{◌≡◌, ℕ, ◌+◌, ◌-◌, ◌≤◌, ◌<◌, ◌^◌, not, ◌&&◌, is_ok, List, length, slice_range, OnOk};
ghost use Rattle.ckd_image.specs.Store.{has_room};
ghost use Rattle.ckd_image.specs.Failing.{fails_next, after_call, after_counted_write};

use crate::memory::MemoryStore;
use crate::store::{ImageStore, StoreFault};
use ghost_data::Count;
use std::marker::Model;

/// How many bytes of a write are written where the write is made to fail.
const WRITTEN: usize = 60;

/// A store in memory whose reads and writes are counted from 1 on, and of which one fails, or that
/// one and each later one. A read that is made to fail leaves any bytes in the buffer; a write that
/// is made to fail leaves its first 60 bytes written, or all of fewer, as far as they lie within
/// the content. Each other call answers as the store within.
#[derive(Drop)]
pub struct FailingStore {
    pub(crate) store: MemoryStore,
    pub(crate) calls: u64,
    pub(crate) fails_at: u64,
    pub(crate) for_good: bool,
    pub(crate) made_to_fail: Count,
}

impl Model for FailingStore {
    ghost use Rattle.ckd_image.specs.Failing.{Failing};

    ghost Value = { Failing };

    ghost view = { λ f. record {
      store = f.store;
      calls = f.calls;
      fails_at = f.fails_at;
      for_good = f.for_good;
      made_to_fail = f.made_to_fail;
    } };
}

impl FailingStore {
    /// This store, of whose reads and writes number `at` fails, and with `for_good` each later one
    /// too. With 0 none is made to fail.
    pub fn new(store: MemoryStore, at: u64, for_good: bool) -> FailingStore
        requires { at < 2 ^ 64 - 1 }
        ensures { result ≡ record {
          store = store;
          calls = 0;
          fails_at = at;
          for_good = for_good;
          made_to_fail = 0;
        } }
    {
        FailingStore {
            store,
            calls: 0,
            fails_at: at,
            for_good,
            made_to_fail: Count::new(),
        }
    }

    /// How many reads and writes were called so far. The count stays at the greatest `u64`.
    pub fn calls(&self) -> u64
        ensures { result ≡ self.now.calls }
    {
        self.calls
    }

    /// The store within.
    pub fn into_inner(self) -> MemoryStore
        ensures { result ≡ self.store }
    {
        let FailingStore {
            store,
            calls: _,
            fails_at: _,
            for_good: _,
            made_to_fail: _,
        } = self;
        store
    }

    /// Counts a call, and says whether it is made to fail.
    fn fails(&mut self) -> bool
        ensures answer { result ≡ fails_next self.old }
        ensures counted { self.new ≡ after_call self.old }
    {
        self.calls = self.calls.saturating_add(1);
        let fails = self.fails_at != 0
            && (self.calls == self.fails_at || (self.for_good && self.calls > self.fails_at));
        if fails {
            self.made_to_fail = self.made_to_fail.next();
        }
        fails
    }
}

impl ImageStore for FailingStore {
    ghost content = { λ f. f.store.content };

    ghost origin = { λ f. f.store.origin };

    ghost failures = { λ f. f.store.failures + f.made_to_fail };

    fn len(&self) -> u64 {
        self.store.len()
    }

    fn read_at(&mut self, at: u64, into: &mut [u8]) -> Result<(), StoreFault>
        requires { at + length into.old ≤ length self.old.store.content }
        ensures succeeds { is_ok result ≡ not (fails_next self.old) }
        ensures read { OnOk result
            (into.new ≡ slice_range self.old.store.content at (at + length into.old)) }
        ensures after { self.new ≡ after_call self.old }
    {
        if self.fails() {
            return Err(StoreFault);
        }
        self.store.read_at(at, into)
    }

    fn write_at(&mut self, at: u64, bytes: &[u8]) -> Result<(), StoreFault>
        requires { at ≤ length self.old.store.content }
        ensures succeeds { is_ok result ≡ (not (fails_next self.old) && has_room self.old.store at bytes.now) }
        ensures after { self.new ≡ after_counted_write self.old at bytes.now }
    {
        if !self.fails() {
            return self.store.write_at(at, bytes);
        }
        let room = (self.store.len() - at) as usize;
        let torn = bytes.len().min(WRITTEN).min(room);
        let _ = self.store.write_at(at, &bytes[..torn]);
        Err(StoreFault)
    }
}

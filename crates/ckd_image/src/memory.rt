//! A store in memory.

ghost use Rattle.std.specs.Prelude.{◌≡◌, ℕ, ◌+◌, ◌≤◌, List, length, replicate, slice_range, is_ok, IsOk, IfOk};
ghost use Rattle.ckd_image.specs.Store.{store_of, has_room, after_write};

use crate::store::{ImageStore, StoreFault};
use ghost_data::{Count, Trace};
use std::alloc::{AllocError, Global};
use std::marker::Model;

/// Bytes in memory, of a length that stays. A write that would pass their end fails and changes
/// nothing; every other call succeeds.
#[derive(Drop)]
pub struct MemoryStore {
    pub(crate) held: Vec<u8>,
    pub(crate) origin: Trace,
    pub(crate) refused: Count,
}

impl Model for MemoryStore {
    ghost use Rattle.ckd_image.specs.Store.{Stored};

    ghost Value = { Stored };

    ghost view = { λ m. record { content = m.held.items; origin = m.origin.bytes; failures = m.refused } };
}

impl MemoryStore {
    /// A store of a copy of these bytes. The only error is that memory was refused.
    pub fn new(alloc: Global, bytes: &[u8]) -> Result<MemoryStore, AllocError>
        ensures { IfOk result (λ m. m ≡ store_of bytes.now) }
    {
        let held = Vec::from_slice(alloc, bytes)?;
        Ok(MemoryStore {
            origin: Trace::of(bytes),
            held,
            refused: Count::new(),
        })
    }

    /// A store of this many zero bytes. The only error is that memory was refused.
    pub fn zeros(alloc: Global, len: u64) -> Result<MemoryStore, AllocError>
        ensures { IfOk result (λ m. m ≡ store_of (replicate len 0)) }
    {
        let held = vec![in alloc; 0u8; len as usize]?;
        Ok(MemoryStore {
            origin: Trace::of(held.as_slice()),
            held,
            refused: Count::new(),
        })
    }

    /// The bytes held.
    pub fn bytes(&self) -> &[u8]
        ensures { result.now ≡ self.now.content }
    {
        self.held.as_slice()
    }
}

impl ImageStore for MemoryStore {
    ghost content = { λ m. m.content };

    ghost origin = { λ m. m.origin };

    ghost failures = { λ m. m.failures };

    fn len(&self) -> u64 {
        self.held.len() as u64
    }

    fn read_at(&mut self, at: u64, into: &mut [u8]) -> Result<(), StoreFault>
        requires { at + length into.old ≤ length self.old.content }
        ensures succeeds { IsOk result }
        ensures read { into.new ≡ slice_range self.old.content at (at + length into.old) }
        ensures kept { self.new ≡ self.old }
    {
        let rest = &self.held[at as usize..];
        into.copy_from_slice(&rest[..into.len()]);
        Ok(())
    }

    fn write_at(&mut self, at: u64, bytes: &[u8]) -> Result<(), StoreFault>
        requires { at ≤ length self.old.content }
        ensures succeeds { is_ok result ≡ has_room self.old at bytes.now }
        ensures after { self.new ≡ after_write self.old at bytes.now }
    {
        let from = at as usize;
        if bytes.len() > self.held.len() - from {
            self.refused = self.refused.next();
            return Err(StoreFault);
        }
        let to = from + bytes.len();
        self.held[from..to].copy_from_slice(bytes);
        Ok(())
    }
}

//! A volume's file in memory.

ghost use Rattle.std.specs.Prelude.{◌≡◌, ◌≢◌, ◌+◌, ◌++◌, ◌^◌, ◌<◌, ◌≤◌, Some, true, false, nat_lt, length, option_map, replicate, slice_range, is_ok, IsOk, IfOk, OnOk, OnErr};
ghost use Rattle.ckd_image.specs.Store.{overwritten};
ghost use Rattle.dasd_files.specs.Parts.{parts_of};
ghost use Rattle.dasd_files.specs.Files.{AreAsThen, IsFile, Writes, file_of, has_room_in, last_number, may_differ_in, may_have_changed, next_number, parts_behind, past_behind};

use crate::parts::Parts;
use ckd_image::{ImageStore, StoreFault};
use ghost_data::{Count, Trace};
use std::alloc::{AllocError, Global};
use std::marker::Model;

/// Which writes move the number of changes on.
#[derive(Clone, Copy)]
pub(crate) enum CountedWrites {
    /// All of them, also those of bytes that are there already. Nothing is compared.
    All,
    /// Those from the first on that changes a byte: up to it bytes are compared.
    FromFirstChange,
}

/// The bytes of a file in memory, and a number that is another after each write that changes one of them; after the first such write
/// it moves on with each write, also of bytes that are there already. Their length stays:
/// a write that would pass their end fails and changes nothing; every other call succeeds.
#[derive(Drop)]
pub struct VolumeFile {
    pub(crate) held: Vec<u8>,
    pub(crate) origin: Trace,
    pub(crate) refused: Count,
    pub(crate) changes: u64,
    pub(crate) counted: CountedWrites,
    pub(crate) past: Trace,
    pub(crate) parts: Option<Parts>,
}

impl Model for VolumeFile {
    ghost use Rattle.dasd_files.specs.Files.{FileState, IsFile};

    ghost Value = { FileState };

    ghost view = { λ f. record {
      content = f.held.items;
      origin = f.origin.bytes;
      failures = f.refused;
      changes = f.changes;
      past = f.past.bytes;
      parts = f.parts;
    } };

    ghost invariant = { λ f. IsFile (record {
      content = f.held.items;
      origin = f.origin.bytes;
      failures = f.refused;
      changes = f.changes;
      past = f.past.bytes;
      parts = f.parts;
    }) };
}

impl VolumeFile {
    /// A file of these bytes. It takes no memory.
    pub fn new(held: Vec<u8>) -> VolumeFile
        ensures { result ≡ file_of held.items }
    {
        let origin = Trace::of(held.as_slice());
        let past = origin.again();
        VolumeFile {
            held,
            origin,
            refused: Count::new(),
            changes: 0,
            counted: CountedWrites::FromFirstChange,
            past,
            parts: None,
        }
    }

    /// The same file, whose number moves on with each write from now on: nothing is compared, and a write of bytes that are
    /// there already counts too.
    pub fn counting_all_writes(mut self) -> VolumeFile
        ensures { result ≡ self }
    {
        self.counted = CountedWrites::All;
        self
    }

    /// Keeps from now on when each part of the file was written last: parts of so many bytes, the first one of as many fewer as `lead`
    /// says. It takes the memory for that, eight bytes a part, here and at once. The only error is that it was refused, and the file
    /// is as it was.
    pub fn watch(&mut self, alloc: Global, lead: u32, size: u32) -> Result<(), AllocError>
        requires { 0 < size }
        ensures watched { OnOk result (self.new ≡ record self.old { parts = Some (parts_of lead size (length self.old.content) self.old.changes) }) }
        ensures stays { OnErr result (self.new ≡ self.old) }
    {
        let parts = Parts::new(alloc, lead, size, self.held.len(), self.changes)?;
        self.parts = Some(parts);
        Ok(())
    }

    /// Begins anew: the file is as one that was made of the bytes that it holds now, without a change, a failure or a part that is
    /// watched. Which writes move its number on stays, and it takes no memory.
    pub fn begin_anew(&mut self)
        ensures { self.new ≡ file_of self.old.content }
    {
        self.origin = Trace::of(self.held.as_slice());
        self.past = self.origin.again();
        self.refused = Count::new();
        self.changes = 0;
        self.parts = None;
    }

    /// A file of a copy of these bytes. The only error is that memory was refused.
    pub fn copy_of(alloc: Global, bytes: &[u8]) -> Result<VolumeFile, AllocError>
        ensures { IfOk result (λ f. f ≡ file_of bytes.now) }
    {
        Ok(VolumeFile::new(Vec::from_slice(alloc, bytes)?))
    }

    /// A file of this many zero bytes. The only error is that memory was refused.
    pub fn zeros(alloc: Global, len: u64) -> Result<VolumeFile, AllocError>
        ensures { IfOk result (λ f. f ≡ file_of (replicate len 0)) }
    {
        Ok(VolumeFile::new(vec![in alloc; 0u8; len as usize]?))
    }

    /// The bytes held. What was held before, by the number of changes, is there for contracts alone.
    pub fn bytes(&self) -> &[u8]
        ensures bytes { result.now ≡ self.now.content }
        ensures file { IsFile self.now }
    {
        self.held.as_slice()
    }

    /// Where the bytes lie. They stay there as long as the file is held.
    pub fn as_ptr(&self) -> *const u8 {
        self.held.as_ptr()
    }

    /// A number: 0 before the first write that changes a byte, and the next one after it and each write from then on, so none that was
    /// seen comes back. Where all writes are counted it moves on with each of them.
    pub fn changes(&self) -> u64
        ensures { result ≡ self.now.changes }
    {
        self.changes
    }

    /// Whether a write was counted; if none was, the bytes are those that the file was made of.
    pub fn is_changed(&self) -> bool
        ensures changes { result ≡ nat_lt 0 self.now.changes }
        ensures kept { result ≡ false → self.now.content ≡ self.now.origin }
    {
        self.changes > 0
    }

    /// Whether so many bytes from a place on may have been written since the number of changes was this one. If not, each of them is
    /// what it was then. Of a file that is watched it is exact where they are one of its parts.
    pub fn may_have_changed(&self, number: u64, at: usize, len: usize) -> bool
        requires within { at + len ≤ length self.now.content }
        ensures answer { result ≡ may_have_changed self.now number at len }
        ensures kept { result ≡ false → AreAsThen self.now number at len }
    {
        may_differ(&self.parts, self.changes, number, at, len)
    }
}

impl ImageStore for VolumeFile {
    ghost content = { λ f. f.content };

    ghost origin = { λ f. f.origin };

    ghost failures = { λ f. f.failures };

    fn len(&self) -> u64
        ensures { result ≡ length self.now.content }
    {
        self.held.len() as u64
    }

    fn read_at(&mut self, at: u64, into: &mut [u8]) -> Result<(), StoreFault>
        requires { at + length into.old ≤ length self.old.content }
        ensures succeeds { IsOk result }
        ensures read { into.new ≡ slice_range self.old.content at (at + length into.old) }
        ensures kept { self.new ≡ self.old }
    {
        let rest = &self.held[at as usize..];
        into.copy_from_slice(&rest[..into.len()]);
        Ok(())
    }

    fn write_at(&mut self, at: u64, bytes: &[u8]) -> Result<(), StoreFault>
        requires { at ≤ length self.old.content }
        ensures succeeds { is_ok result ≡ has_room_in self.old at bytes.now }
        ensures writes { Writes at bytes.now self.old self.new }
    {
        let from = at as usize;
        if bytes.len() > self.held.len() - from {
            self.refused = self.refused.next();
            return Err(StoreFault);
        }
        let counts = write_over(self.held.as_mut_slice(), from, bytes, self.counted);
        if counts {
            let was = self.changes;
            mark(&mut self.parts, from, bytes.len(), was);
            self.past = longer(&self.origin, &self.past, was, self.held.as_slice());
            self.changes = another(was);
            // A file that was changed is saved in any case, so nothing is compared from now on.
            self.counted = CountedWrites::All;
        }
        Ok(())
    }
}

// Whether so many bytes from a place on may have been written since the number of changes was this one.
fn may_differ(parts: &Option<Parts>, changes: u64, number: u64, at: usize, len: usize) -> bool
    requires few { at < 2 ^ 63 }
    ensures { result ≡ may_differ_in parts.now changes number at len }
{
    match parts {
        Some(parts) => number > changes || parts.may_differ(number, at, len),
        None => number != changes,
    }
}

// So many bytes from a place on were written, as this number moved on.
fn mark(parts: &mut Option<Parts>, at: usize, len: usize, was: u64)
    requires few { at + len < 2 ^ 63 }
    ensures { parts.new ≡ option_map (parts_behind was at len) parts.old }
{
    if let Some(parts) = parts {
        if was == u64::MAX {
            parts.mark_all(1);
        } else {
            parts.mark(at, len, was + 1);
        }
    }
}

// What was held at each number, with what is held as this one has moved on.
fn longer(origin: &Trace, past: &Trace, was: u64, held: &[u8]) -> Trace
    ensures { result.bytes ≡ past_behind origin.now.bytes past.now.bytes was held.now }
{
    if was == u64::MAX {
        origin.and(held)
    } else {
        past.and(held)
    }
}

// Another number, and not 0: the next one, and 1 behind the last.
fn another(number: u64) -> u64
    ensures other { result ≢ number }
    ensures not_zero { 0 < result }
    ensures next { result ≡ next_number number }
{
    if number == u64::MAX { 1 } else { number + 1 }
}

// Puts bytes over those from a place on, and says whether the write counts.
fn write_over(held: &mut [u8], at: usize, bytes: &[u8], counted: CountedWrites) -> bool
    requires { at + length bytes.now ≤ length held.old }
    ensures put { held.new ≡ overwritten held.old at bytes.now }
    ensures same { result ≡ false → held.new ≡ held.old }
{
    match counted {
        CountedWrites::All => {
            put(held, at, bytes);
            true
        }
        CountedWrites::FromFirstChange => overwrite(held, at, bytes),
    }
}

// Puts bytes over those from a place on, and says whether one of them is another.
fn overwrite(held: &mut [u8], at: usize, bytes: &[u8]) -> bool
    requires { at + length bytes.now ≤ length held.old }
    ensures put { held.new ≡ overwritten held.old at bytes.now }
    ensures same { result ≡ false → held.new ≡ held.old }
{
    if &held[at..at + bytes.len()] == bytes {
        return false;
    }
    put(held, at, bytes);
    true
}

// Puts bytes over those from a place on.
fn put(held: &mut [u8], at: usize, bytes: &[u8])
    requires { at + length bytes.now ≤ length held.old }
    ensures { held.new ≡ overwritten held.old at bytes.now }
{
    held[at..at + bytes.len()].copy_from_slice(bytes);
}

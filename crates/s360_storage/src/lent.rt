//! Main storage that another program keeps, as an emulator does, and lends for a call.

ghost use Rattle.std.specs.Prelude.{ℕ, ◌≡◌, ◌↔◌, ◌+◌, ◌-◌, min, ◌/◌, ◌<◌, ◌≤◌, true, false, length, take, slice_range, Err, OnOk, IfSome, Some, None, []};
ghost use Rattle.std.specs.Prelude.{if◌then◌else◌, option_map, IsTrue};
ghost use Rattle.s360_words.specs.Storage.{is_size, admits, may_store, overwritten, changed, Bytes, is_inside};
ghost use Rattle.s360_storage.specs.Lent.{lent, IsStorage};

use crate::main_storage::MainStorage;
use bitflags::Flags;
use byteorder::{BigEndian, ByteOrder};
use s360_words::{
    BLOCK_SIZE, CAW_ADDRESS, CSW_ADDRESS, Ccw, ChannelStatus, Csw, MAX_SIZE, MIN_SIZE, UnitStatus,
};
use thiserror::Error;

/// Why bytes and keys are no main storage.
#[derive(Clone, Copy, Debug, PartialEq, Eq, Error)]
pub enum LentFault {
    /// The bytes are not a multiple of 2,048 from 4,096 to 16,777,216.
    #[error("a storage has a multiple of 2,048 bytes, from 4,096 to 16,777,216")]
    BadSize,
    /// There is not one key for each block of 2,048 bytes.
    #[error("a storage has one key for each block of 2,048 bytes")]
    BadKeys,
}

/// Main storage whose bytes and keys are lent. No byte of it is copied: what is stored stands in the bytes of who lent them.
///
/// While it lasts nobody else reads or writes the bytes, or writes the keys: an emulator whose processors store meanwhile takes
/// a lock about each call. A key above 15, which no storage of the machine has, is not refused: its block admits the key 0 alone.
#[derive(Drop)]
pub struct Lent<'a, 'k> {
    bytes: &'a mut [u8],
    keys: &'k [u8],
    ghost good: { IsStorage (lent bytes.now keys.now) },
}

impl<'a, 'k> Lent<'a, 'k> {
    /// Whether bytes and keys can be lent as main storage.
    ///
    /// # Errors
    ///
    /// No storage has so many bytes; or, where one has, there is not one key for each block of them.
    pub fn check(bytes: &[u8], keys: &[u8]) -> Result<(), LentFault>
        ensures good { OnOk result (IsStorage (lent bytes.now keys.now)) }
        ensures bad_size { (result ≡ Err LentFault.BadSize) ↔ (is_size (length bytes.now) ≡ false) }
        ensures bad_keys { (result ≡ Err LentFault.BadKeys)
            ↔ ((is_size (length bytes.now) ≡ true) × (length keys.now ≡ length bytes.now / 2048 → ⊥)) }
    {
        let size = bytes.len();
        if size < MIN_SIZE as usize || size > MAX_SIZE as usize || size % BLOCK_SIZE as usize != 0 {
            return Err(LentFault::BadSize);
        }
        if keys.len() != size / BLOCK_SIZE as usize {
            return Err(LentFault::BadKeys);
        }
        Ok(())
    }

    /// Takes bytes and keys that are a main storage, as `check` tells, for as long as they are lent. Nothing is copied.
    pub fn new(bytes: &'a mut [u8], keys: &'k [u8]) -> Lent<'a, 'k>
        requires { IsStorage (lent bytes.old keys.now) }
        ensures holds { ⟦<Lent<'a, 'k> as MainStorage>⟧.holds result ≡ lent bytes.old keys.now }
        ensures place { ⟦<Lent<'a, 'k> as MainStorage>⟧.place result ≡ bytes.entry.ghost_name }
    {
        Lent { bytes, keys }
    }
}

impl<'a, 'k> MainStorage for Lent<'a, 'k> {
    ghost holds = { λ s. lent s.bytes.now s.keys.now };

    ghost place = { λ s. s.bytes.ghost_name };

    fn size(&self) -> u32 {
        self.bytes.len() as u32
    }

    fn slice(&self, at: u32, len: u32) -> Option<&[u8]> {
        slice(self.bytes, at, len)
    }

    #[inline(always)]
    fn bytes_from(&self, at: u32, most: usize) -> &[u8] {
        let start = (at as usize).min(self.bytes.len());
        let len = most.min(self.bytes.len() - start);
        &self.bytes[start..start + len]
    }

    fn key(&self, at: u32) -> Option<u8> {
        self.keys.get((at / BLOCK_SIZE) as usize).copied()
    }

    fn caw_word(&self) -> u32 {
        let at = CAW_ADDRESS as usize;
        BigEndian::read_u32(&self.bytes[at..at + 4])
    }

    fn ccw_at(&self, at: u32) -> Option<Ccw> {
        let bytes = slice(self.bytes, at, 8)?;
        Some(Ccw::from_bytes(bytes.try_into().ok()?))
    }

    fn storable(&self, at: u32, len: u32, key: u8) -> u32 {
        reach(self.bytes, self.keys, at as usize, len as usize, key) as u32
    }

    #[inline(always)]
    fn store(&mut self, at: u32, bytes: &[u8], key: u8) -> usize {
        let own = &mut *self.bytes;
        let n = reach(own, self.keys, at as usize, bytes.len(), key);
        if n > 0 {
            overwrite(own, at as usize, &bytes[..n]);
        }
        n
    }

    fn put(&mut self, at: u32, bytes: &[u8]) -> bool {
        if bytes.is_empty() {
            return true;
        }
        let own = &mut *self.bytes;
        let size = own.len();
        if bytes.len() > size || at as usize > size - bytes.len() {
            return false;
        }
        overwrite(own, at as usize, bytes);
        true
    }

    fn put_csw(&mut self, csw: Csw) {
        let own = &mut *self.bytes;
        overwrite(own, CSW_ADDRESS as usize, &csw.to_bytes());
    }

    fn put_status(&mut self, unit: UnitStatus, channel: ChannelStatus) {
        let own = &mut *self.bytes;
        overwrite(
            own,
            CSW_ADDRESS as usize + 4,
            &[unit.bits(), channel.bits()],
        );
    }
}

// These bytes of storage, or none where one of them is outside.
fn slice(bytes: &[u8], at: u32, len: u32) -> Option<&[u8]>
    ensures bytes { option_map (λ part. part.now) result
        ≡ (if is_inside (lent bytes.now []) at len then Some (slice_range bytes.now at (at + len)) else None) }
    ensures len { IfSome result (λ part. length part.now ≡ len) }
{
    if len == 0 {
        return Some(&[]);
    }
    bytes.get(at as usize..at as usize + len as usize)
}

// How many of so many bytes may be stored with this key, one after another.
#[inline(always)]
fn reach(bytes: &[u8], keys: &[u8], start: usize, len: usize, key: u8) -> usize
    requires { IsStorage (lent bytes.now keys.now) }
    ensures bound { result ≤ len }
    ensures each { (i : ℕ) → i < result → IsTrue (may_store (lent bytes.now keys.now) key (start + i)) }
    ensures next { result < len → may_store (lent bytes.now keys.now) key (start + result) ≡ false }
{
    let end = start + len.min(bytes.len().saturating_sub(start));
    // key 0 may store into every block
    if key == 0 {
        return end - start;
    }
    let mut reach = start;
    while reach < end && admits(keys[reach / BLOCK_SIZE as usize], key) {
        reach = (reach / BLOCK_SIZE as usize + 1) * BLOCK_SIZE as usize;
    }
    reach.min(end) - start
}

// Whether a block with this storage key may be stored into with this key.
fn admits(storage_key: u8, key: u8) -> bool
    ensures { result ≡ admits storage_key key }
{
    key == 0 || key == storage_key
}

// Puts new bytes in the place of those from `at` on.
fn overwrite(bytes: &mut [u8], at: usize, new: &[u8])
    requires { at + length new.now ≤ length bytes.old }
    ensures { bytes.new ≡ overwritten bytes.old at new.now }
{
    bytes[at..at + new.len()].copy_from_slice(new);
}

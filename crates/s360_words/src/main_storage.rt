//! Main storage: bytes, and a storage key for each block of 2,048 bytes (Principles of Operation, 'Main
//! Storage' and 'Storage Protection').

ghost use Rattle.std.specs.Prelude.{ℕ, ◌≡◌, ◌↔◌, ◌+◌, ◌-◌, min, ◌/◌, ◌^◌, ◌<◌, ◌≤◌, false, length, take, nat_lt, slice_get, slice_range, Some, None};
ghost use Rattle.std.specs.Prelude.{if◌then◌else◌, option_map, IsTrue, IfOk, IfSome};
ghost use Rattle.s360_words.specs.Storage.{is_size, cleared, is_inside, key_at, admits, may_store, overwritten, Bytes, KeyOf, changed, is_within, caw_word};
ghost use Rattle.s360_words.specs.Storage.{ccw_at, csw_stored, status_stored};

use crate::flags::{ChannelStatus, UnitStatus};
use crate::words::{CAW_ADDRESS, CSW_ADDRESS, Ccw, Csw};
use bitflags::Flags;
use byteorder::{BigEndian, ByteOrder};
use std::alloc::{AllocError, Global};
use std::marker::Model;
use thiserror::Error;

/// The bytes of a block, which has one storage key.
pub const BLOCK_SIZE: u32 = 2048;

/// The least size of a storage, in bytes.
pub const MIN_SIZE: u32 = 4096;

/// The greatest size of a storage, in bytes.
pub const MAX_SIZE: u32 = 16_777_216;

/// Why no storage was made.
#[derive(Clone, Copy, Debug, PartialEq, Eq, Error)]
pub enum StorageFault {
    /// The size is not a multiple of 2,048 from 4,096 to 16,777,216.
    #[error("a storage has a multiple of 2,048 bytes, from 4,096 to 16,777,216")]
    BadSize,
    /// There is no memory for so many bytes.
    #[error("out of memory")]
    OutOfMemory,
}

/// Main storage. In contracts it is a list of bytes and a list of storage keys, one for each block.
#[derive(Debug, Drop)]
pub struct Storage {
    bytes: Vec<u8>,
    keys: Vec<u8>,
}

impl Model for Storage {
    ghost use Rattle.std.specs.Prelude.{◌≡◌, ◌/◌, ◌<◌, length, true, All};
    ghost use Rattle.s360_words.specs.Storage.{Storage, is_size};

    ghost Value = { Storage };

    ghost view = { λ s. record { bytes = s.bytes.items; keys = s.keys.items } };

    ghost invariant = { λ s. (is_size (length s.bytes.items) ≡ true) × (length s.keys.items ≡ length s.bytes.items / 2048)
        × All (λ k. k < 16) s.keys.items };
}

impl Storage {
    /// Makes a storage of this many bytes, each of them zero, with all storage keys zero. A size that no storage
    /// can have is refused before any memory is asked for.
    pub fn new(alloc: Global, size: u32) -> Result<Storage, StorageFault>
        ensures made { IfOk result (λ storage. storage ≡ cleared size) }
        ensures bad_size { (result ≡ Err StorageFault.BadSize) ↔ (is_size size ≡ false) }
    {
        if size < MIN_SIZE || size > MAX_SIZE || size % BLOCK_SIZE != 0 {
            return Err(StorageFault::BadSize);
        }
        let Ok(bytes) = vec![in alloc; 0; size as usize] else {
            return Err(StorageFault::OutOfMemory);
        };
        let Ok(keys) = vec![in alloc; 0; (size / BLOCK_SIZE) as usize] else {
            return Err(StorageFault::OutOfMemory);
        };
        Ok(Storage { bytes, keys })
    }

    /// A second storage with the same bytes and the same keys. It takes as much memory again.
    ///
    /// # Errors
    ///
    /// There is no such memory. This storage stays in any case.
    pub fn copy(&self, alloc: Global) -> Result<Storage, AllocError>
        ensures { IfOk result (λ copy. copy ≡ self.now) }
    {
        Ok(Storage {
            bytes: Vec::from_slice(alloc, &self.bytes)?,
            keys: Vec::from_slice(alloc, &self.keys)?,
        })
    }

    /// How many bytes there are. Their addresses begin at 0.
    pub fn size(&self) -> u32
        ensures size { result ≡ length self.now.bytes }
        ensures allowed { IsTrue (is_size result) }
        ensures keys { length self.now.keys ≡ result / 2048 }
    {
        self.bytes.len() as u32
    }

    /// The byte at an address, or none outside storage.
    pub fn byte(&self, at: u32) -> Option<u8>
        ensures { result ≡ slice_get self.now.bytes at }
    {
        self.bytes.get(at as usize).copied()
    }

    /// The allocator of its bytes.
    pub fn allocator(&self) -> Global {
        *self.bytes.allocator()
    }

    /// Where the bytes of storage lie, for a processor that shares them. They stay there as long as the storage does.
    pub fn as_mut_ptr(&mut self) -> *mut u8
        ensures { self.new ≡ self.old }
    {
        self.bytes.as_mut_ptr()
    }

    /// These bytes of storage, or none where one of them is outside.
    pub fn slice(&self, at: u32, len: u32) -> Option<&[u8]>
        ensures bytes { option_map (λ bytes. bytes.now) result
            ≡ (if is_inside self.now at len then Some (slice_range self.now.bytes at (at + len)) else None) }
        ensures len { IfSome result (λ bytes. length bytes.now ≡ len) }
    {
        if len == 0 {
            return Some(&[]);
        }
        self.bytes.get(at as usize..at as usize + len as usize)
    }

    /// The bytes of storage from an address on, so many at most: fewer where storage ends before, and none outside of it.
    #[inline(always)]
    pub fn bytes_from(&self, at: u32, most: usize) -> &[u8]
        ensures bytes { result.now ≡ slice_range self.now.bytes at (at + length result.now) }
        ensures len { length result.now ≡ min most (length self.now.bytes - at) }
    {
        let start = (at as usize).min(self.bytes.len());
        let len = most.min(self.bytes.len() - start);
        &self.bytes[start..start + len]
    }

    /// Puts these bytes into storage and answers true; or, where one of them would be outside, changes nothing
    /// and answers false. No storage key is asked.
    pub fn put(&mut self, at: u32, bytes: &[u8]) -> bool
        ensures answer { result ≡ is_within (Bytes at bytes.now) self.old }
        ensures change { self.new ≡ (if result then changed (Bytes at bytes.now) self.old else self.old) }
    {
        if bytes.is_empty() {
            return true;
        }
        let size = self.bytes.len();
        if bytes.len() > size || at as usize > size - bytes.len() {
            return false;
        }
        overwrite(&mut self.bytes, at as usize, bytes);
        true
    }

    /// The storage key of the block that has this address, or none outside storage. Keys are below 16.
    pub fn key(&self, at: u32) -> Option<u8>
        ensures key { result ≡ (if nat_lt at (length self.now.bytes) then Some (key_at self.now at) else None) }
        ensures small { IfSome result (λ key. key < 16) }
    {
        self.keys.get((at / BLOCK_SIZE) as usize).copied()
    }

    /// Sets the storage key of the block that has this address and answers true; or, outside storage, changes
    /// nothing and answers false.
    pub fn set_key(&mut self, at: u32, key: u8) -> bool
        requires { key < 16 }
        ensures answer { result ≡ is_within (KeyOf at key) self.old }
        ensures change { self.new ≡ (if result then changed (KeyOf at key) self.old else self.old) }
    {
        let block = (at / BLOCK_SIZE) as usize;
        if block >= self.keys.len() {
            return false;
        }
        self.keys[block] = key;
        true
    }

    /// The channel address word, as a number.
    pub fn caw_word(&self) -> u32
        ensures { result ≡ caw_word self.now }
    {
        let at = CAW_ADDRESS as usize;
        BigEndian::read_u32(&self.bytes[at..at + 4])
    }

    /// The channel command word at an address, or none where one of its eight bytes is outside storage. The address
    /// need not be a multiple of 8.
    pub fn ccw_at(&self, at: u32) -> Option<Ccw>
        ensures word { result ≡ (if is_inside self.now at 8 then Some (ccw_at self.now at) else None) }
        ensures address { IfSome result (λ ccw. ccw.address < 2 ^ 24) }
    {
        let bytes = self.slice(at, 8)?;
        Some(Ccw::from_bytes(bytes.try_into().ok()?))
    }

    /// Stores a channel status word.
    pub fn put_csw(&mut self, csw: Csw)
        ensures { self.new ≡ changed (csw_stored csw) self.old }
    {
        let at = CSW_ADDRESS as usize;
        overwrite(&mut self.bytes, at, &csw.to_bytes());
    }

    /// Stores unit status and channel status, and leaves the other bytes of the channel status word.
    pub fn put_status(&mut self, unit: UnitStatus, channel: ChannelStatus)
        ensures { self.new ≡ changed (status_stored unit.0 channel.0) self.old }
    {
        let at = CSW_ADDRESS as usize + 4;
        overwrite(&mut self.bytes, at, &[unit.bits(), channel.bits()]);
    }

    /// How many of these bytes may be stored with this key, one after another from `at` on: the greatest number up
    /// to `len` such that each of them is in storage, and the key is 0 or that of the byte's block.
    pub fn storable(&self, at: u32, len: u32, key: u8) -> u32
        requires { key < 16 }
        ensures bound { result ≤ len }
        ensures each { (i : ℕ) → i < result → IsTrue (may_store self.now key (at + i)) }
        ensures next { result < len → may_store self.now key (at + result) ≡ false }
    {
        self.reach(at as usize, len as usize, key) as u32
    }

    /// Stores as many of these bytes as may be stored with this key one after another, from the first on, and answers how
    /// many: each of them is in storage, and the key is 0 or that of the byte's block.
    #[inline(always)]
    pub fn store(&mut self, at: u32, bytes: &[u8], key: u8) -> usize
        requires { key < 16 }
        ensures bound { result ≤ length bytes.now }
        ensures each { (i : ℕ) → i < result → IsTrue (may_store self.old key (at + i)) }
        ensures next { result < length bytes.now → may_store self.old key (at + result) ≡ false }
        ensures change { self.new ≡ changed (Bytes at (take result bytes.now)) self.old }
    {
        let n = self.reach(at as usize, bytes.len(), key);
        if n > 0 {
            overwrite(&mut self.bytes, at as usize, &bytes[..n]);
        }
        n
    }

    // How many of so many bytes may be stored with this key, one after another.
    // In line, which each read of a channel program gains by.
    #[inline(always)]
    fn reach(&self, start: usize, len: usize, key: u8) -> usize
        ensures bound { result ≤ len }
        ensures each { (i : ℕ) → i < result → IsTrue (may_store self.now key (start + i)) }
        ensures next { result < len → may_store self.now key (start + result) ≡ false }
    {
        let end = start + len.min(self.bytes.len().saturating_sub(start));
        // key 0 may store into every block
        if key == 0 {
            return end - start;
        }
        let mut reach = start;
        while reach < end && admits(self.keys[reach / BLOCK_SIZE as usize], key) {
            reach = (reach / BLOCK_SIZE as usize + 1) * BLOCK_SIZE as usize;
        }
        reach.min(end) - start
    }
}

// Whether a block with this storage key may be stored into with this key.
fn admits(storage_key: u8, key: u8) -> bool
    ensures { result ≡ admits storage_key key }
{
    key == 0 || key == storage_key
}

// Puts new bytes in the place of those from `at` on.
fn overwrite(bytes: &mut [u8], at: usize, new: &[u8])
    requires { at + length new.now ≤ length bytes.old }
    ensures { bytes.new ≡ overwritten bytes.old at new.now }
{
    bytes[at..at + new.len()].copy_from_slice(new);
}

//! Main storage as a channel program uses it, whoever keeps its bytes.

ghost use Rattle.std.specs.Prelude.{ℕ, ◌≡◌, ◌+◌, ◌-◌, min, ◌/◌, ◌^◌, ◌<◌, ◌≤◌, false, length, take, nat_lt, slice_range, Some, None, if◌then◌else◌, option_map};
ghost use Rattle.std.specs.Prelude.{IsTrue, IfSome};
ghost use Rattle.s360_words.specs.Storage.{Storage as StorageState, is_size, is_inside, key_at, may_store, Bytes, changed, is_within, caw_word, ccw_at};
ghost use Rattle.s360_words.specs.Storage.{csw_stored, status_stored};
ghost use Rattle.s360_storage.specs.Kept.{KeepsStorage};

use s360_words::{Ccw, ChannelStatus, Csw, Storage, UnitStatus};

/// Main storage: owned, as a `Storage`, or lent for a call, as a `Lent`. In contracts it is a list of bytes and a list of storage
/// keys, one for each block of 2,048 bytes. No call changes its size or a key.
pub trait MainStorage {
    /// Its bytes and its keys.
    ghost holds: { Self → StorageState };

    /// Which memory it is, for who lent it: no call changes that.
    ghost place: { Self → ℕ };

    /// How many bytes there are. Their addresses begin at 0.
    fn size(&self) -> u32
        ensures size { result ≡ length (holds self.now).bytes }
        ensures allowed { IsTrue (is_size result) }
        ensures keys { length (holds self.now).keys ≡ result / 2048 };

    /// These bytes of storage, or none where one of them is outside.
    fn slice(&self, at: u32, len: u32) -> Option<&[u8]>
        ensures bytes { option_map (λ bytes. bytes.now) result
            ≡ (if is_inside (holds self.now) at len then Some (slice_range (holds self.now).bytes at (at + len)) else None) }
        ensures len { IfSome result (λ bytes. length bytes.now ≡ len) };

    /// The bytes of storage from an address on, so many at most: fewer where storage ends before, and none outside of it.
    fn bytes_from(&self, at: u32, most: usize) -> &[u8]
        ensures bytes { result.now ≡ slice_range (holds self.now).bytes at (at + length result.now) }
        ensures len { length result.now ≡ min most (length (holds self.now).bytes - at) };

    /// The storage key of the block that has this address, or none outside storage.
    fn key(&self, at: u32) -> Option<u8>
        ensures { result ≡ (if nat_lt at (length (holds self.now).bytes) then Some (key_at (holds self.now) at) else None) };

    /// The channel address word, as a number.
    fn caw_word(&self) -> u32
        ensures { result ≡ caw_word (holds self.now) };

    /// The channel command word at an address, or none where one of its eight bytes is outside storage. The address
    /// need not be a multiple of 8.
    fn ccw_at(&self, at: u32) -> Option<Ccw>
        ensures word { result ≡ (if is_inside (holds self.now) at 8 then Some (ccw_at (holds self.now) at) else None) }
        ensures address { IfSome result (λ ccw. ccw.address < 2 ^ 24) };

    /// How many of these bytes may be stored with this key, one after another from `at` on: the greatest number up
    /// to `len` such that each of them is in storage, and the key is 0 or that of the byte's block.
    fn storable(&self, at: u32, len: u32, key: u8) -> u32
        requires { key < 16 }
        ensures bound { result ≤ len }
        ensures each { (i : ℕ) → i < result → IsTrue (may_store (holds self.now) key (at + i)) }
        ensures next { result < len → may_store (holds self.now) key (at + result) ≡ false };

    /// Stores as many of these bytes as may be stored with this key one after another, from the first on, and answers how
    /// many: each of them is in storage, and the key is 0 or that of the byte's block.
    fn store(&mut self, at: u32, bytes: &[u8], key: u8) -> usize
        requires { key < 16 }
        ensures bound { result ≤ length bytes.now }
        ensures each { (i : ℕ) → i < result → IsTrue (may_store (holds self.old) key (at + i)) }
        ensures next { result < length bytes.now → may_store (holds self.old) key (at + result) ≡ false }
        ensures change { holds self.new ≡ changed (Bytes at (take result bytes.now)) (holds self.old) }
        ensures keeps { KeepsStorage (holds self.old) (holds self.new) }
        ensures place { place self.new ≡ place self.old };

    /// Puts these bytes into storage and answers true; or, where one of them would be outside, changes nothing
    /// and answers false. No storage key is asked.
    fn put(&mut self, at: u32, bytes: &[u8]) -> bool
        ensures answer { result ≡ is_within (Bytes at bytes.now) (holds self.old) }
        ensures change { holds self.new
            ≡ (if result then changed (Bytes at bytes.now) (holds self.old) else holds self.old) }
        ensures keeps { KeepsStorage (holds self.old) (holds self.new) }
        ensures place { place self.new ≡ place self.old };

    /// Stores a channel status word.
    fn put_csw(&mut self, csw: Csw)
        ensures change { holds self.new ≡ changed (csw_stored csw) (holds self.old) }
        ensures keeps { KeepsStorage (holds self.old) (holds self.new) }
        ensures place { place self.new ≡ place self.old };

    /// Stores unit status and channel status, and leaves the other bytes of the channel status word.
    fn put_status(&mut self, unit: UnitStatus, channel: ChannelStatus)
        ensures change { holds self.new ≡ changed (status_stored unit.0 channel.0) (holds self.old) }
        ensures keeps { KeepsStorage (holds self.old) (holds self.new) }
        ensures place { place self.new ≡ place self.old };
}

impl MainStorage for Storage {
    ghost holds = { λ s. s };

    ghost place = { λ _. 0 };

    #[inline(always)]
    fn size(&self) -> u32 {
        self.size()
    }

    #[inline(always)]
    fn slice(&self, at: u32, len: u32) -> Option<&[u8]> {
        self.slice(at, len)
    }

    #[inline(always)]
    fn bytes_from(&self, at: u32, most: usize) -> &[u8] {
        self.bytes_from(at, most)
    }

    #[inline(always)]
    fn key(&self, at: u32) -> Option<u8> {
        self.key(at)
    }

    #[inline(always)]
    fn caw_word(&self) -> u32 {
        self.caw_word()
    }

    #[inline(always)]
    fn ccw_at(&self, at: u32) -> Option<Ccw> {
        self.ccw_at(at)
    }

    #[inline(always)]
    fn storable(&self, at: u32, len: u32, key: u8) -> u32 {
        self.storable(at, len, key)
    }

    #[inline(always)]
    fn store(&mut self, at: u32, bytes: &[u8], key: u8) -> usize {
        self.store(at, bytes, key)
    }

    #[inline(always)]
    fn put(&mut self, at: u32, bytes: &[u8]) -> bool {
        self.put(at, bytes)
    }

    #[inline(always)]
    fn put_csw(&mut self, csw: Csw) {
        self.put_csw(csw);
    }

    #[inline(always)]
    fn put_status(&mut self, unit: UnitStatus, channel: ChannelStatus) {
        self.put_status(unit, channel);
    }
}

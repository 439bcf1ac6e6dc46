//! The blocks of a directory.

ghost use Rattle.std.specs.Prelude.{◌≡◌, ◌≤◌, ◌+◌, ◌/◌, ◌%◌, ◌++◌, ◌∷◌, [], length, take, drop, slice_index_or, All, ℕ};
ghost use Rattle.std.specs.List.{concat};
ghost use Rattle.record_tracks.specs.Entries.{all_contents, all_entries, IsEntry};
ghost use Rattle.record_tracks.specs.DirectoryFaults.{AreEntries};
ghost use Rattle.record_tracks.specs.Directory.{going_in, used_by, block_of, blocks_of, left_behind, Takes};
ghost use Rattle.record_tracks.specs.Filled.{filled, PutBehind};
ghost use Rattle.record_tracks.specs.DirectoryReadBack.{IsReadBack};

use crate::appending::{append, clear};
use crate::entries::{EntryBytes, NewEntry, bytes_at};

/// The length of a directory block, in bytes: 8 of its key and 256 of its data.
pub const DIRECTORY_BLOCK: usize = 264;

/// How many entries go into a block, and how many of its bytes of data are used then.
#[derive(Clone, Copy)]
struct Part {
    count: usize,
    used: usize,
}

// How many entries go into a block from one of them on.
fn going_in(entries: &[NewEntry], from: usize) -> Part
    requires each { All IsEntry (all_contents entries.now) }
    requires number { from ≤ length entries.now + 1 }
    ensures count { result.count ≡ going_in 2 (drop from (all_entries (all_contents entries.now))) }
    ensures used { result.used ≡ used_by (take result.count (drop from (all_entries (all_contents entries.now)))) }
    ensures most { result.used ≤ 256 }
    ensures within { from + result.count ≤ length entries.now + 1 }
{
    let left = entries.len() + 1 - from;
    let mut used = 2;
    for count in 0..left {
        let more = used + 12 + bytes_at(entries, from + count).user_data.len();
        if more > 256 {
            return Part { count, used };
        }
        used = more;
    }
    Part { count: left, used }
}

/// How many blocks a directory with these entries takes, with the last one behind them.
pub fn blocks_needed(entries: &[NewEntry]) -> usize
    requires { AreEntries (all_contents entries.now) }
    ensures blocks { Takes (all_entries (all_contents entries.now)) result }
    ensures room { (blocks : ℕ) → result ≤ blocks → left_behind (all_entries (all_contents entries.now)) blocks ≡ [] }
{
    let mut next = 0;
    let mut blocks = 0;
    while next <= entries.len() {
        next += going_in(entries, next).count;
        blocks += 1;
    }
    blocks
}

// Writes an entry behind the bytes with which a block begins, and answers where the next one goes.
fn append_entry(block: &mut [u8], at: usize, entry: EntryBytes) -> usize
    requires { at + (12 + length entry.user_data.now) ≤ length block.old }
    ensures next { result ≡ at + (12 + length entry.entry.user_data.now) }
    ensures same { length block.new ≡ length block.old }
    ensures written { PutBehind at (entry.entry.front ++ entry.entry.user_data.now) block.old block.new }
{
    let at = append(block, at, &entry.front);
    append(block, at, entry.user_data)
}

// The key of a block whose last entry has this number: the name of that entry.
fn key_at(entries: &[NewEntry], number: usize) -> [u8; 8]
    requires each { All IsEntry (all_contents entries.now) }
    requires number { number ≤ length entries.now }
    ensures { result ≡ take 8 (slice_index_or (all_entries (all_contents entries.now)) number []) }
{
    let [n0, n1, n2, n3, n4, n5, n6, n7, ..] = bytes_at(entries, number).front;
    [n0, n1, n2, n3, n4, n5, n6, n7]
}

// Writes what a block begins with: its key, and the number of its used bytes. Behind it there are zeros.
fn begin(block: &mut [u8], key: [u8; 8], used: usize)
    requires room { 10 ≤ length block.old }
    requires used { used ≤ 256 }
    ensures same { length block.new ≡ length block.old }
    ensures written { block.new ≡ filled (length block.old) (key ++ (used / 256 ∷ used % 256 ∷ [])) }
{
    clear(block);
    append(block, 0, &key);
    append(block, 8, &(used as u16).to_be_bytes());
}

// Writes as many entries as that from one of them on, behind the first ten bytes of a block.
fn append_entries(block: &mut [u8], entries: &[NewEntry], from: usize, count: usize)
    requires each { All IsEntry (all_contents entries.now) }
    requires number { from + count ≤ length entries.now + 1 }
    requires room { 10 + length (concat (take count (drop from (all_entries (all_contents entries.now))))) ≤ length block.old }
    ensures same { length block.new ≡ length block.old }
    ensures written { PutBehind 10 (concat (take count (drop from (all_entries (all_contents entries.now))))) block.old block.new }
{
    let mut at = 10;
    for k in 0..count {
        at = append_entry(block, at, bytes_at(entries, from + k));
    }
}

// Writes the block that begins with an entry, with as many as it has room for, and answers with which entry the next one begins. One
// for which none is left is all zeros.
fn write_block(block: &mut [u8], entries: &[NewEntry], from: usize) -> usize
    requires room { length block.old ≡ 264 }
    requires each { All IsEntry (all_contents entries.now) }
    requires number { from ≤ length entries.now + 1 }
    ensures block { block.new ≡ block_of (drop from (all_entries (all_contents entries.now))) }
    ensures next { result ≡ from + going_in 2 (drop from (all_entries (all_contents entries.now))) }
    ensures within { result ≤ length entries.now + 1 }
{
    let Part { count, used } = going_in(entries, from);
    if count == 0 {
        clear(block);
        return from;
    }
    begin(block, key_at(entries, from + count - 1), used);
    append_entries(block, entries, from, count);
    from + count
}

/// Writes the blocks of a directory with these entries, one behind another: each has a key of 8 bytes, the name of its last entry, and
/// 256 bytes of data, the number of its used bytes, its entries and zeros. Behind the entries stands one with a name of bytes FF, and
/// blocks that are left are all zeros.
pub fn write_directory(directory: &mut [u8], entries: &[NewEntry])
    requires entries { AreEntries (all_contents entries.now) }
    requires blocks { length directory.old % 264 ≡ 0 }
    requires room { left_behind (all_entries (all_contents entries.now)) (length directory.old / 264) ≡ [] }
    ensures blocks { directory.new ≡ concat (blocks_of (all_entries (all_contents entries.now)) (length directory.old / 264)) }
    ensures read { IsReadBack (all_contents entries.now) (length directory.old / 264) }
{
    let mut from = 0;
    for k in 0..directory.len() / DIRECTORY_BLOCK {
        let start = k * DIRECTORY_BLOCK;
        let end = start + DIRECTORY_BLOCK;
        from = write_block(&mut directory[start..end], entries, from);
    }
}

//! Directories of partitioned data sets.

ghost use Rattle.std.specs.Prelude.{◌≡◌, ◌≤◌, ◌<◌, ◌+◌, length, slice_range, ◌++◌, ◌∷◌, [], IfOk};
ghost use Rattle.volume_labels.specs.Directories.{number_at, entry_of, is_last, entry_step, step_at, DirectoryOf};

use crate::RelativeAddress;
use std::alloc::{AllocError, Global};

/// The length of a directory block's data, in bytes.
pub const DIRECTORY_BLOCK: usize = 256;

/// The shortest entry, in bytes: name, address and the byte of lengths.
const ENTRY: usize = 12;

/// A member of a partitioned data set, or another name of one.
#[derive(Clone, Copy)]
pub struct DirectoryEntry {
    /// Its name, in EBCDIC, with blanks behind it.
    pub name: [u8; 8],
    /// Its first block.
    pub address: RelativeAddress,
    /// Whether it is another name of a member that has an entry of its own.
    pub is_alias: bool,
    /// How many addresses of blocks within the member its user data begins with.
    pub notes: u8,
    /// How many bytes of user data it has.
    pub user_bytes: u8,
}

/// Why the entries of a directory block can't be told apart.
#[derive(Clone, Copy)]
pub enum DirectoryFault {
    /// The number of its used bytes is less than two, or more than it has.
    UsedBytes,
    /// An entry ends behind the used bytes.
    EntryPastUsed,
}

/// What stands at an offset of the directory blocks of a data set.
#[derive(Clone, Copy)]
pub enum DirectoryStep {
    /// An entry, and the offset behind it.
    Entry(DirectoryEntry, usize),
    /// No entry: the next one is sought at this offset.
    Skip(usize),
    /// The end: the last entry, or no block more.
    End,
    /// Bytes that are no directory.
    Fault(DirectoryFault),
}

/// The entries of a directory, and why there are no more of them, if not since it ends.
#[derive(Drop)]
pub struct Directory {
    /// The entries, in order.
    pub entries: Vec<DirectoryEntry>,
    /// What is wrong behind them.
    pub fault: Option<DirectoryFault>,
}

// The number in the two bytes from an offset on.
fn number_at(bytes: &[u8], at: usize) -> u16
    requires { at + 2 ≤ length bytes.now }
    ensures { result ≡ number_at bytes.now at }
{
    bytes[at] as u16 * 256 + bytes[at + 1] as u16
}

// The eight bytes from an offset on.
fn name_at(bytes: &[u8], at: usize) -> [u8; 8]
    requires { at + 8 ≤ length bytes.now }
    ensures { result ≡ slice_range bytes.now at (at + 8) }
{
    let mut name = [0u8; 8];
    name.copy_from_slice(&bytes[at..at + 8]);
    name
}

// The entry at an offset.
fn entry_at(bytes: &[u8], at: usize) -> DirectoryEntry
    requires { at + 12 ≤ length bytes.now }
    ensures { result ≡ entry_of bytes.now at }
{
    let lengths = bytes[at + 11];
    DirectoryEntry {
        name: name_at(bytes, at),
        address: RelativeAddress {
            track: number_at(bytes, at + 8),
            number: bytes[at + 10],
        },
        is_alias: lengths >= 128,
        notes: lengths / 32 % 4,
        user_bytes: lengths % 32 * 2,
    }
}

// Whether a name is that of the last entry.
fn is_last(name: [u8; 8]) -> bool
    ensures { result ≡ is_last name }
{
    name == [0xFF; 8]
}

// What stands at an offset before the end of a block's used bytes.
fn entry_step(bytes: &[u8], at: usize, end: usize) -> DirectoryStep
    requires { end ≤ length bytes.now }
    ensures { result ≡ entry_step bytes.now at end }
{
    if end < ENTRY || end - ENTRY < at {
        return DirectoryStep::Fault(DirectoryFault::EntryPastUsed);
    }
    let entry = entry_at(bytes, at);
    if is_last(entry.name) {
        return DirectoryStep::End;
    }
    let next = at + ENTRY + entry.user_bytes as usize;
    if next > end {
        return DirectoryStep::Fault(DirectoryFault::EntryPastUsed);
    }
    DirectoryStep::Entry(entry, next)
}

/// What stands at an offset of the directory blocks of a data set, one behind another, 256 bytes each: the number of used bytes,
/// that number among them, and entries (IBM System/360 Operating System, System Control Blocks, 'Partitioned Data Set
/// Directory').
pub fn directory_step(bytes: &[u8], at: usize) -> DirectoryStep
    ensures { result ≡ step_at bytes.now at }
{
    let start = at - at % DIRECTORY_BLOCK;
    if bytes.len() < DIRECTORY_BLOCK || bytes.len() - DIRECTORY_BLOCK < start {
        return DirectoryStep::End;
    }
    let used = number_at(bytes, start) as usize;
    if used < 2 || used > DIRECTORY_BLOCK {
        return DirectoryStep::Fault(DirectoryFault::UsedBytes);
    }
    if at == start {
        return DirectoryStep::Skip(start + 2);
    }
    if at >= start + used {
        return DirectoryStep::Skip(start + DIRECTORY_BLOCK);
    }
    entry_step(bytes, at, start + used)
}

/// The entries of a directory, from its blocks one behind another: those up to the last entry, which has a name of bytes FF, or
/// up to what is no directory.
///
/// # Errors
///
/// There is no memory for them.
pub fn read_directory(alloc: Global, bytes: &[u8]) -> Result<Directory, AllocError>
    ensures { IfOk result (DirectoryOf bytes.now) }
{
    let mut entries = Vec::new(alloc);
    let mut at = 0;
    for _ in 0..bytes.len() {
        match directory_step(bytes, at) {
            DirectoryStep::Entry(entry, next) => {
                push(&mut entries, entry)?;
                at = next;
            }
            DirectoryStep::Skip(next) => at = next,
            DirectoryStep::End => return Ok(Directory {
                entries,
                fault: None,
            }),
            DirectoryStep::Fault(fault) => {
                return Ok(Directory {
                    entries,
                    fault: Some(fault),
                });
            }
        }
    }
    Ok(Directory {
        entries,
        fault: None,
    })
}

// One entry more.
fn push(entries: &mut Vec<DirectoryEntry>, entry: DirectoryEntry) -> Result<(), AllocError>
    ensures { IfOk result (λ _. entries.new.items ≡ entries.old.items ++ entry ∷ []) }
{
    match entries.push(entry) {
        Ok(()) => Ok(()),
        Err(_) => Err(AllocError),
    }
}

//! Why a directory can't have entries.

ghost use Rattle.std.specs.Prelude.{◌≡◌, ◌<◌, length, IfSome, IfNone, All, Option, Some, None};
ghost use Rattle.record_tracks.specs.Entries.{contents_of, all_contents, IsEntry};
ghost use Rattle.record_tracks.specs.DirectoryFaults.{own_fault, fault_behind, entry_fault, refused_entry, AreEntries};

use crate::entries::NewEntry;
use std::cmp::Ordering;
use thiserror::Error;

/// Why a directory can't have an entry.
#[derive(Clone, Copy, Debug, PartialEq, Eq, Error)]
pub enum EntryFault {
    /// Its name begins with a blank, or is that of the last entry, eight bytes FF.
    #[error("no name")]
    NoName,
    /// The entry before it has the same name.
    #[error("two entries have one name")]
    SameName,
    /// Its name comes before that of the entry before it.
    #[error("names are not in ascending order")]
    NotAscending,
    /// It has more than 62 bytes of user data.
    #[error("more than 62 bytes of user data")]
    LongUserData,
    /// Its user data is no whole number of halfwords.
    #[error("user data of an odd length")]
    OddUserData,
    /// It has more than three addresses in its user data, or more than that has room for.
    #[error("more addresses than the user data has room for")]
    TooManyNotes,
}

/// The first entry that a directory can't have.
#[derive(Clone, Copy)]
pub struct RefusedEntry {
    /// Its number among the entries, from 0 on.
    pub number: usize,
    /// What is wrong with it.
    pub fault: EntryFault,
}

// What is wrong with an entry, wherever it stands.
fn own_fault(entry: NewEntry) -> Option<EntryFault>
    ensures fault { result ≡ own_fault (contents_of entry.entry) }
    ensures fits { IfNone result (IsEntry (contents_of entry.entry)) }
{
    if entry.name[0] == 0x40 || entry.name == [0xFF; 8] {
        return Some(EntryFault::NoName);
    }
    if entry.user_data.len() > 62 {
        return Some(EntryFault::LongUserData);
    }
    if entry.user_data.len() % 2 != 0 {
        return Some(EntryFault::OddUserData);
    }
    if entry.notes > 3 || entry.user_data.len() < 4 * usize::from(entry.notes) {
        return Some(EntryFault::TooManyNotes);
    }
    None
}

// What is wrong with the place of a name behind another.
fn fault_behind(before: Option<[u8; 8]>, name: [u8; 8]) -> Option<EntryFault>
    ensures { result ≡ fault_behind before name }
{
    match before?.cmp(&name) {
        Ordering::Less => None,
        Ordering::Equal => Some(EntryFault::SameName),
        Ordering::Greater => Some(EntryFault::NotAscending),
    }
}

// What is wrong with an entry, and then with its place behind that of another name.
fn entry_fault(before: Option<[u8; 8]>, entry: NewEntry) -> Option<EntryFault>
    ensures fault { result ≡ entry_fault before (contents_of entry.entry) }
    ensures fits { IfNone result (IsEntry (contents_of entry.entry)) }
{
    match own_fault(entry) {
        Some(fault) => Some(fault),
        None => fault_behind(before, entry.name),
    }
}

/// The first entry that a directory can't have, and why; none where it can have these, in this order.
pub fn refused_entry(entries: &[NewEntry]) -> Option<RefusedEntry>
    ensures fault { result ≡ refused_entry (all_contents entries.now) }
    ensures fits { IfNone result (AreEntries (all_contents entries.now)) }
    ensures within { IfSome result (λ r. r.number < length entries.now) }
{
    let mut before = None;
    for (number, entry) in entries.iter().enumerate() {
        if let Some(fault) = entry_fault(before, *entry) {
            return Some(RefusedEntry { number, fault });
        }
        before = Some(entry.name);
    }
    None
}

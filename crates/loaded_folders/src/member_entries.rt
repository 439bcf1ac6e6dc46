//! The entries and the members of a library with one more.

ghost use Rattle.std.specs.Prelude.{◌≡◌, ◌<◌, ◌≤◌, ◌==◌, ◌∷◌, ◌++◌, [], not, map, IfOk, IfSome, OnOk, length};
ghost use Rattle.std.specs.List.{position, list_any};
ghost use Rattle.loaded_folders.specs.MemberEntries.{note_anew, kept_entry, said_by, has_name, names_member, has_note_list, note_list, comes_behind, place_for, new_entry, with_entry};
ghost use Rattle.loaded_folders.specs.MemberParts.{kept};

use library_contents::{ReadEntry, ReadNote};
use record_tracks::{MemberEntry, MemberNote};
use std::alloc::{AllocError, Global};
use std::cmp::Ordering;

/// An entry that a library is to have.
#[derive(Drop)]
pub(crate) struct KeptEntry<'a> {
    pub(crate) name: [u8; 8],
    pub(crate) member: usize,
    pub(crate) is_alias: bool,
    pub(crate) notes: Vec<MemberNote>,
    pub(crate) user_data: &'a [u8],
}

// Whether an entry has a name.
fn has_name(entry: &ReadEntry, name: &[u8; 8]) -> bool
    ensures { result ≡ has_name name.now entry.now }
{
    entry.entry.name == *name
}

/// Whether one of these entries has a name.
pub(crate) fn names_member(entries: &[ReadEntry], name: &[u8; 8]) -> bool
    ensures { result ≡ list_any (has_name name.now) entries.now }
{
    entries.iter().any(
        |entry: &ReadEntry| -> bool
            ensures { result ≡ has_name name.entry.now entry.now }
        { has_name(entry, name) },
    )
}

// Whether an address in the user data of an entry leads to a note list.
fn has_note_list(entry: &ReadEntry) -> bool
    ensures { result ≡ has_note_list entry.now }
{
    entry.notes.iter().any(
        |note: &ReadNote| -> bool
            ensures { result ≡ not (note.now.count == 0) }
        { note.count != 0 },
    )
}

// The first entry of which one does.
fn first_list(entries: &[ReadEntry]) -> Option<usize>
    ensures place { result ≡ position has_note_list entries.now }
    ensures within { IfSome result (λ place. place < length entries.now) }
{
    entries.iter().position(
        |entry: &ReadEntry| -> bool
            ensures { result ≡ has_note_list entry.now }
        { has_note_list(entry) },
    )
}

/// The number of that entry, from 1 on.
pub(crate) fn note_list(entries: &[ReadEntry]) -> Option<usize>
    ensures { result ≡ note_list entries.now }
{
    match first_list(entries) {
        Some(place) => Some(place + 1),
        None => None,
    }
}

// Whether an entry comes behind a name in the order of names.
fn comes_behind(entry: &ReadEntry, name: &[u8; 8]) -> bool
    ensures { result ≡ comes_behind name.now entry.now }
{
    match name.cmp(&entry.entry.name) {
        Ordering::Less => true,
        Ordering::Equal | Ordering::Greater => false,
    }
}

// The first entry that comes behind a name.
fn first_behind(entries: &[ReadEntry], name: &[u8; 8]) -> Option<usize>
    ensures place { result ≡ position (comes_behind name.now) entries.now }
    ensures within { IfSome result (λ place. place < length entries.now) }
{
    entries.iter().position(
        |entry: &ReadEntry| -> bool
            ensures { result ≡ comes_behind name.entry.now entry.now }
        { comes_behind(entry, name) },
    )
}

// How many entries stand before an entry of a name.
fn place_for(entries: &[ReadEntry], name: &[u8; 8]) -> usize
    ensures place { result ≡ place_for name.now entries.now }
    ensures within { result ≤ length entries.now }
{
    match first_behind(entries, name) {
        Some(place) => place,
        None => entries.len(),
    }
}

// Addresses as those of a library that is made.
fn new_notes(alloc: Global, notes: &[ReadNote]) -> Result<Vec<MemberNote>, AllocError>
    ensures { IfOk result (λ all. all.items ≡ map note_anew notes.now) }
{
    let mut all = Vec::new(alloc);
    for note in notes {
        let ReadNote { block, count } = *note;
        push_note(&mut all, MemberNote { block, count })?;
    }
    Ok(all)
}

// One note more.
fn push_note(notes: &mut Vec<MemberNote>, note: MemberNote) -> Result<(), AllocError>
    ensures { IfOk result (λ _. notes.new.items ≡ notes.old.items ++ note ∷ []) }
{
    match notes.push(note) {
        Ok(()) => Ok(()),
        Err(_) => Err(AllocError),
    }
}

// One entry more.
fn push_kept<'a>(entries: &mut Vec<KeptEntry<'a>>, entry: KeptEntry<'a>) -> Result<(), AllocError>
    ensures { IfOk result (λ _. map kept entries.new.items ≡ map kept entries.old.items ++ kept entry.entry ∷ []) }
{
    match entries.push(entry) {
        Ok(()) => Ok(()),
        Err(_) => Err(AllocError),
    }
}

// An entry that a library had.
fn kept_entry<'a>(alloc: Global, old: &'a ReadEntry) -> Result<KeptEntry<'a>, AllocError>
    ensures { IfOk result (λ entry. kept entry ≡ kept_entry old.entry.now) }
{
    let notes = new_notes(alloc, old.notes.as_slice())?;
    Ok(KeptEntry {
        name: old.entry.name,
        member: old.member,
        is_alias: old.entry.is_alias,
        notes,
        user_data: old.user_data.as_slice(),
    })
}

// Several entries that a library had, behind others.
fn push_old<'a>(
    alloc: Global,
    entries: &mut Vec<KeptEntry<'a>>,
    old: &'a [ReadEntry],
) -> Result<(), AllocError>
    ensures { IfOk result (λ _. map kept entries.new.items ≡ map kept entries.old.items ++ map kept_entry old.entry.now) }
{
    for entry in old {
        push_kept(entries, kept_entry(alloc, entry)?)?;
    }
    Ok(())
}

/// The entries that a library had, with one for a member of this number where its name belongs.
pub(crate) fn with_entry<'a>(
    alloc: Global,
    old: &'a [ReadEntry],
    name: [u8; 8],
    member: usize,
) -> Result<Vec<KeptEntry<'a>>, AllocError>
    ensures { IfOk result (λ entries. map kept entries.items ≡ with_entry (new_entry name member) old.entry.now) }
{
    let place = place_for(old, &name);
    let mut entries = Vec::new(alloc);
    push_old(alloc, &mut entries, &old[..place])?;
    let notes = Vec::new(alloc);
    let entry = KeptEntry {
        name,
        member,
        is_alias: false,
        notes,
        user_data: &[],
    };
    push_kept(&mut entries, entry)?;
    push_old(alloc, &mut entries, &old[place..])?;
    Ok(entries)
}

// One entry more.
fn push_entry<'a>(
    entries: &mut Vec<MemberEntry<'a>>,
    entry: &'a KeptEntry<'a>,
) -> Result<(), AllocError>
    ensures { IfOk result (λ _. map said_by entries.new.items ≡ map said_by entries.old.items ++ kept entry.entry.now ∷ []) }
{
    let member = MemberEntry {
        name: entry.name,
        member: entry.member,
        is_alias: entry.is_alias,
        notes: entry.notes.as_slice(),
        user_data: entry.user_data,
    };
    match entries.push(member) {
        Ok(()) => Ok(()),
        Err(_) => Err(AllocError),
    }
}

/// Entries as those of a library that is made.
pub(crate) fn member_entries<'a>(
    alloc: Global,
    all: &'a [KeptEntry<'a>],
) -> Result<Vec<MemberEntry<'a>>, AllocError>
    ensures { IfOk result (λ entries. map said_by entries.items ≡ map kept all.entry.now) }
{
    let mut entries = Vec::new(alloc);
    for entry in all {
        push_entry(&mut entries, entry)?;
    }
    Ok(entries)
}

// The blocks of one member more.
fn push_member<'a>(members: &mut Vec<&'a [u8]>, blocks: &'a [u8]) -> Result<(), AllocError>
    ensures { OnOk result (map (λ m. m.now) members.new.items ≡ map (λ m. m.now) members.old.items ++ blocks.entry.now ∷ []) }
{
    match members.push(blocks) {
        Ok(()) => Ok(()),
        Err(_) => Err(AllocError),
    }
}

/// The blocks of the members that a library had, and those of a new one behind them.
pub(crate) fn with_member<'a>(
    alloc: Global,
    old: &'a [Vec<u8>],
    new: &'a [u8],
) -> Result<Vec<&'a [u8]>, AllocError>
    ensures { IfOk result (λ members. map (λ m. m.now) members.items ≡ map (λ m. m.items) old.entry.now ++ new.entry.now ∷ []) }
{
    let mut members = Vec::new(alloc);
    for blocks in old {
        push_member(&mut members, blocks.as_slice())?;
    }
    push_member(&mut members, new)?;
    Ok(members)
}

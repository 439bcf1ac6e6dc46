//! The entries of a directory, and what a change of one makes of them.

ghost use Rattle.std.specs.Prelude.{◌≡◌, ◌<◌, ◌≤◌, ◌++◌, ◌∷◌, [], length, map, option_map, Ok, IfOk, IfErr, IfSome};
ghost use Rattle.std.specs.List.{position};
ghost use Rattle.record_tracks.specs.Entries.{contents_of, all_contents};
ghost use Rattle.member_changes.specs.Entries.{contents_in, entries_in, has_name, precedes, place_for, without, with_entry, deleted, renamed, changed};
ghost use Rattle.member_changes.specs.Plans.{IsRefused};

use crate::refusal::{MemberRefusal, PlanFault};
use library_contents::{PlacedEntry, placed_entries, user_data};
use record_tracks::NewEntry;
use std::alloc::{AllocError, Global};
use std::cmp::Ordering;

/// What is changed of the entries of a directory. Names are in EBCDIC, with blanks after them.
#[derive(Clone, Copy)]
pub enum EntryChange {
    /// The entry of the name is left out.
    Delete([u8; 8]),
    /// The entry of the first name gets the second.
    Rename([u8; 8], [u8; 8]),
}

// One entry more.
fn push<'a>(entries: &mut Vec<NewEntry<'a>>, entry: NewEntry<'a>) -> Result<(), AllocError>
    ensures { IfOk result (λ _. all_contents entries.new.items ≡ all_contents entries.old.items ++ contents_of entry.entry ∷ []) }
{
    match entries.push(entry) {
        Ok(()) => Ok(()),
        Err(_) => Err(AllocError),
    }
}

// Several entries more.
fn push_all<'a>(entries: &mut Vec<NewEntry<'a>>, more: &[NewEntry<'a>]) -> Result<(), AllocError>
    ensures { IfOk result (λ _. all_contents entries.new.items ≡ all_contents entries.old.items ++ all_contents more.now) }
{
    for entry in more {
        push(entries, *entry)?;
    }
    Ok(())
}

// An entry with its user data.
fn entry_in<'a>(bytes: &'a [u8], placed: PlacedEntry) -> NewEntry<'a>
    ensures { contents_of result ≡ contents_in bytes.entry.now placed }
{
    let entry = placed.entry;
    let name = entry.name;
    NewEntry {
        name,
        address: entry.address,
        is_alias: entry.is_alias,
        notes: entry.notes,
        user_data: user_data(bytes, placed),
    }
}

// Entries with their user data.
fn with_user_data<'a>(
    alloc: Global,
    bytes: &'a [u8],
    placed: &[PlacedEntry],
) -> Result<Vec<NewEntry<'a>>, AllocError>
    ensures { IfOk result (λ entries. all_contents entries.items ≡ map (contents_in bytes.entry.now) placed.now) }
{
    let mut entries = Vec::new(alloc);
    for entry in placed {
        push(&mut entries, entry_in(bytes, *entry))?;
    }
    Ok(entries)
}

/// The entries in the blocks of a directory, one block after another without keys, if nothing is wrong after them.
pub(crate) fn read_entries<'a>(
    alloc: Global,
    bytes: &'a [u8],
) -> Result<Option<Vec<NewEntry<'a>>>, AllocError>
    ensures { IfOk result (λ entries. option_map (λ es. all_contents es.items) entries ≡ entries_in bytes.entry.now) }
{
    match placed_entries(alloc, bytes)? {
        Some(placed) => Ok(Some(with_user_data(alloc, bytes, placed.as_slice())?)),
        None => Ok(None),
    }
}

// The first of the entries that has a name.
fn first_named(entries: &[NewEntry], name: [u8; 8]) -> Option<usize>
    ensures place { result ≡ position (λ e. has_name name (contents_of e)) entries.now }
    ensures within { IfSome result (λ i. i < length entries.now) }
{
    entries.iter().position(
        |entry: &NewEntry| -> bool
            ensures { result ≡ has_name name (contents_of entry.now) }
        { entry.name == name },
    )
}

// The same, by what the entries say.
fn find_entry(entries: &[NewEntry], name: [u8; 8]) -> Option<usize>
    ensures place { result ≡ position (has_name name) (all_contents entries.now) }
    ensures within { IfSome result (λ i. i < length entries.now) }
{
    first_named(entries, name)
}

// Whether a name comes before that of an entry.
fn precedes(name: [u8; 8], entry: &NewEntry) -> bool
    ensures { result ≡ precedes name (contents_of entry.now) }
{
    match name.cmp(&entry.name) {
        Ordering::Less => true,
        Ordering::Equal | Ordering::Greater => false,
    }
}

// The first entry before whose name a name comes.
fn first_after(entries: &[NewEntry], name: [u8; 8]) -> Option<usize>
    ensures place { result ≡ position (λ e. precedes name (contents_of e)) entries.now }
    ensures within { IfSome result (λ i. i < length entries.now) }
{
    entries.iter().position(
        |entry: &NewEntry| -> bool
            ensures { result ≡ precedes name (contents_of entry.now) }
        { precedes(name, entry) },
    )
}

// How many entries come before one of a name.
fn place_for(entries: &[NewEntry], name: [u8; 8]) -> usize
    ensures place { result ≡ place_for name (all_contents entries.now) }
    ensures within { result ≤ length entries.now }
{
    match first_after(entries, name) {
        Some(i) => i,
        None => entries.len(),
    }
}

// The entries without one of them.
fn without<'a>(
    alloc: Global,
    entries: &[NewEntry<'a>],
    i: usize,
) -> Result<Vec<NewEntry<'a>>, AllocError>
    requires { i < length entries.now }
    ensures { IfOk result (λ others. all_contents others.items ≡ without i (all_contents entries.now)) }
{
    let mut others = Vec::new(alloc);
    push_all(&mut others, &entries[..i])?;
    push_all(&mut others, &entries[i + 1..])?;
    Ok(others)
}

// The entries with one more, where its name belongs.
fn with_entry<'a>(
    alloc: Global,
    entries: &[NewEntry<'a>],
    entry: NewEntry<'a>,
) -> Result<Vec<NewEntry<'a>>, AllocError>
    ensures { IfOk result (λ all. all_contents all.items ≡ with_entry (contents_of entry.entry) (all_contents entries.now)) }
{
    let place = place_for(entries, entry.name);
    let mut all = Vec::new(alloc);
    push_all(&mut all, &entries[..place])?;
    push(&mut all, entry)?;
    push_all(&mut all, &entries[place..])?;
    Ok(all)
}

// The entries without the one of a name.
fn delete<'a>(
    alloc: Global,
    entries: &[NewEntry<'a>],
    name: [u8; 8],
) -> Result<Vec<NewEntry<'a>>, PlanFault>
    ensures changed { IfOk result (λ others. deleted (all_contents entries.now) (position (has_name name) (all_contents entries.now))
        ≡ Ok (all_contents others.items)) }
    ensures refused { IfErr result (λ e. IsRefused e (deleted (all_contents entries.now) (position (has_name name) (all_contents entries.now)))) }
{
    match find_entry(entries, name) {
        Some(i) => Ok(without(alloc, entries, i)?),
        None => Err(PlanFault::Refused(MemberRefusal::NoMember)),
    }
}

// The entries of which the one of a name has another, and comes where that belongs.
fn rename<'a>(
    alloc: Global,
    entries: &[NewEntry<'a>],
    old: [u8; 8],
    new: [u8; 8],
) -> Result<Vec<NewEntry<'a>>, PlanFault>
    ensures changed { IfOk result (λ all. renamed new (all_contents entries.now) (position (has_name old) (all_contents entries.now))
        ≡ Ok (all_contents all.items)) }
    ensures refused { IfErr result (λ e. IsRefused e (renamed new (all_contents entries.now) (position (has_name old) (all_contents entries.now)))) }
{
    let Some(i) = find_entry(entries, old) else {
        return Err(PlanFault::Refused(MemberRefusal::NoMember));
    };
    if find_entry(entries, new).is_some() {
        return Err(PlanFault::Refused(MemberRefusal::NameTaken));
    }
    let entry = NewEntry {
        name: new,
        ..entries[i]
    };
    let others = without(alloc, entries, i)?;
    Ok(with_entry(alloc, others.as_slice(), entry)?)
}

/// What becomes of the entries of a directory.
pub(crate) fn change_entries<'a>(
    alloc: Global,
    entries: &[NewEntry<'a>],
    change: &EntryChange,
) -> Result<Vec<NewEntry<'a>>, PlanFault>
    ensures changed { IfOk result (λ all. changed change.now (all_contents entries.now) ≡ Ok (all_contents all.items)) }
    ensures refused { IfErr result (λ e. IsRefused e (changed change.now (all_contents entries.now))) }
{
    match change {
        EntryChange::Delete(name) => delete(alloc, entries, *name),
        EntryChange::Rename(old, new) => rename(alloc, entries, *old, *new),
    }
}

//! The entries of a library's directory, as the lines of a text say them.

ghost use Rattle.std.specs.Prelude.{◌≡◌, ◌++◌, ◌∷◌, [], map, bytes_eq, Ok, IfOk, IfErr, OnOk};
ghost use Rattle.std.specs.List.{position};
ghost use Rattle.loaded_folders.specs.Sets.{members_of};
ghost use Rattle.loaded_folders.specs.Entries.{member_name, note_to, notes_to, entry_parts, entries_of, member_parts};
ghost use Rattle.loaded_folders.specs.Parts.{folder_entry, IsUnled, IsNoMemory, TellsUnled, TellsEntry};

use crate::fault::{FolderEntryFault, FolderFault, FolderRefusal, NO_MEMORY};
use crate::names::name_of_entry;
use changed_volumes::ChangeFault;
use record_tracks::{MemberEntry, MemberNote};
use set_forms::{EntryForm, Note};
use std::alloc::{AllocError, Global};

/// An entry of a library's directory, with the number of its member.
#[derive(Drop)]
pub(crate) struct FolderEntry<'a> {
    pub(crate) name: [u8; 8],
    pub(crate) member: usize,
    pub(crate) is_alias: bool,
    pub(crate) notes: Vec<MemberNote>,
    pub(crate) user: &'a [u8],
}

/// Why an entry is not made.
#[derive(Clone, Copy)]
pub(crate) enum Unled {
    /// It leads nowhere.
    Fault(FolderEntryFault),
    /// Memory was refused.
    OutOfMemory,
}

// The note of a library for one of a text, if it leads to a block that is no note list.
fn note_to(note: Note) -> Result<MemberNote, FolderEntryFault>
    ensures { result ≡ note_to note }
{
    match note {
        Note::Block(0, _) | Note::Address(_, _) => Err(FolderEntryFault::NoBlock),
        Note::Block(number, 0) => Ok(MemberNote {
            block: number as usize - 1,
            count: 0,
        }),
        Note::Block(_, _) => Err(FolderEntryFault::NoteList),
    }
}

// The notes of a library for those of a text.
fn notes_to(alloc: Global, notes: &[Note]) -> Result<Vec<MemberNote>, Unled>
    ensures made { IfOk result (λ made. notes_to notes.now ≡ Ok made.items) }
    ensures fault { IfErr result (λ e. IsUnled e (notes_to notes.now)) }
{
    let mut made = Vec::new(alloc);
    for note in notes {
        let note = match note_to(*note) {
            Ok(note) => note,
            Err(fault) => return Err(Unled::Fault(fault)),
        };
        if made.push(note).is_err() {
            return Err(Unled::OutOfMemory);
        }
    }
    Ok(made)
}

// The names of the members among entries.
fn members_of(alloc: Global, entries: &[&EntryForm]) -> Result<Vec<[u8; 8]>, AllocError>
    ensures { IfOk result (λ members. members.items ≡ members_of (map (λ e. e.now) entries.now)) }
{
    let mut members = Vec::new(alloc);
    for entry in entries {
        if entry.member.is_none() {
            members.push(entry.name)?;
        }
    }
    Ok(members)
}

// The name of the member whose blocks an entry has.
fn member_name(entry: &EntryForm) -> [u8; 8]
    ensures { result ≡ member_name entry.now }
{
    entry.member.unwrap_or(entry.name)
}

// The number of the member of a name.
fn number_of(members: &[[u8; 8]], name: [u8; 8]) -> Option<usize>
    ensures { result ≡ position (λ m. bytes_eq m name) members.now }
{
    members.iter().position(
        |member: &[u8; 8]| -> bool
            ensures { result ≡ bytes_eq member.now name }
        { *member == name },
    )
}

// An entry of a library with members of these names.
fn entry_of<'a>(
    alloc: Global,
    members: &[[u8; 8]],
    entry: &'a EntryForm,
) -> Result<FolderEntry<'a>, Unled>
    ensures made { IfOk result (λ e. entry_parts members.now entry.entry.now ≡ Ok (folder_entry e)) }
    ensures fault { IfErr result (λ e. IsUnled e (entry_parts members.now entry.entry.now)) }
{
    let Some(member) = number_of(members, member_name(entry)) else {
        return Err(Unled::Fault(FolderEntryFault::NoMember));
    };
    let notes = match notes_to(alloc, entry.notes.as_slice()) {
        Ok(notes) => notes,
        Err(fault) => return Err(fault),
    };
    Ok(FolderEntry {
        name: entry.name,
        member,
        is_alias: entry.member.is_some(),
        notes,
        user: entry.user.as_slice(),
    })
}

// What the fault of an entry is.
fn of_entry(alloc: Global, data_set: &[u8; 44], entry: &[u8; 8], fault: Unled) -> FolderFault
    ensures { TellsUnled result data_set.now entry.now fault }
{
    match fault {
        Unled::Fault(fault) => match name_of_entry(alloc, data_set, entry) {
            Ok(name) => ChangeFault::Refused(FolderRefusal::Entry(name, fault)),
            Err(_) => NO_MEMORY,
        },
        Unled::OutOfMemory => NO_MEMORY,
    }
}

/// The entries of a library of this name.
///
/// # Errors
///
/// The first that leads nowhere is told; or there is no memory.
pub(crate) fn entries_of<'a>(
    alloc: Global,
    data_set: &[u8; 44],
    entries: &[&'a EntryForm],
) -> Result<Vec<FolderEntry<'a>>, FolderFault>
    ensures made { IfOk result (λ made. entries_of (map (λ e. e.now) entries.now) ≡ Ok (map folder_entry made.items)) }
    ensures fault { IfErr result (λ e. TellsEntry e data_set.now (entries_of (map (λ e. e.now) entries.now))) }
{
    let Ok(members) = members_of(alloc, entries) else {
        return Err(NO_MEMORY);
    };
    let mut made = Vec::new(alloc);
    for entry in entries {
        match entry_of(alloc, members.as_slice(), entry) {
            Ok(entry) => push(&mut made, entry)?,
            Err(fault) => return Err(of_entry(alloc, data_set, &entry.name, fault)),
        }
    }
    Ok(made)
}

// Adds an entry.
fn push<'a>(entries: &mut Vec<FolderEntry<'a>>, entry: FolderEntry<'a>) -> Result<(), FolderFault>
    ensures entries { OnOk result (map folder_entry entries.new.items ≡ map folder_entry entries.old.items ++ folder_entry entry.entry ∷ []) }
    ensures fault { IfErr result IsNoMemory }
{
    match entries.push(entry) {
        Ok(()) => Ok(()),
        Err(_) => Err(NO_MEMORY),
    }
}

/// The same as `library_records` takes them.
pub(crate) fn member_entries<'a>(
    alloc: Global,
    entries: &'a [FolderEntry<'a>],
) -> Result<Vec<MemberEntry<'a>>, AllocError>
    ensures { IfOk result (λ made. map member_parts made.items ≡ map folder_entry entries.entry.now) }
{
    let mut made = Vec::new(alloc);
    for entry in entries {
        made.push(MemberEntry {
            name: entry.name,
            member: entry.member,
            is_alias: entry.is_alias,
            notes: entry.notes.as_slice(),
            user_data: entry.user,
        })?;
    }
    Ok(made)
}

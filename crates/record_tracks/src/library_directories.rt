//! The directory of a library.

ghost use Rattle.std.specs.Prelude.{◌≡◌, ◌*◌, ◌++◌, ◌∷◌, [], replicate, IfOk, IfErr, IfNone, All, None, map, flat_map};
ghost use Rattle.record_tracks.specs.Entries.{contents_of, all_contents, all_entries};
ghost use Rattle.record_tracks.specs.Directory.{left_behind};
ghost use Rattle.record_tracks.specs.DirectoryFaults.{AreEntries};
ghost use Rattle.record_tracks.specs.Library.{MemberGoesOn};
ghost use Rattle.record_tracks.specs.MemberEntries.{entry_user_data, entry_contents, directory_entries, directory_bytes};
ghost use Rattle.record_tracks.specs.LibraryFaults.{directory_fault, library_fault, IsFault};
ghost use Rattle.record_tracks.specs.Placed.{ArePlaced, Leads};
ghost use Rattle.record_tracks.specs.LibraryRead.{IsLibraryRead};

use crate::addresses::{Placed, block_address, length_fault};
use crate::libraries::{MemberEntry, NewLibrary};
use crate::library_faults::{LibraryFault, leading_fault};
use crate::member_records::library_records;
use crate::user_data::user_data;
use crate::{DIRECTORY_BLOCK, NewEntry, blocks_needed, refused_entry, write_directory};
use ckd_track::DriveModel;
use std::alloc::{AllocError, Global};

// So many blocks of zeros.
fn blank(alloc: Global, blocks: usize) -> Result<Vec<u8>, AllocError>
    ensures { IfOk result (λ directory. directory.items ≡ replicate (blocks * 264) 0) }
{
    match blocks.checked_mul(DIRECTORY_BLOCK) {
        Some(size) => vec![in alloc; 0; size],
        None => Err(AllocError),
    }
}

// An entry with its user data, as a directory is to have it.
fn new_entry<'a>(placed: Placed, entry: &MemberEntry, user_data: &'a [u8]) -> NewEntry<'a>
    requires placed { ArePlaced placed }
    requires leads { Leads placed.library.now entry.now }
    requires user_data { user_data.now ≡ entry_user_data placed.model placed.library.now entry.now }
    ensures { contents_of result ≡ entry_contents placed.entry.model placed.entry.library.now entry.now }
{
    NewEntry {
        name: entry.name,
        address: block_address(placed, entry.member, 0),
        is_alias: entry.is_alias,
        notes: entry.notes.len().min(255) as u8,
        user_data,
    }
}

// One entry more.
fn push<'a>(entries: &mut Vec<NewEntry<'a>>, entry: NewEntry<'a>) -> Result<(), AllocError>
    ensures { IfOk result (λ _. all_contents entries.new.items ≡ all_contents entries.old.items ++ contents_of entry.entry ∷ []) }
{
    match entries.push(entry) {
        Ok(()) => Ok(()),
        Err(_) => Err(AllocError),
    }
}

// The entries as a directory is to have them, with their user data, which stand one behind another.
fn new_entries<'a>(
    alloc: Global,
    placed: Placed,
    entries: &[MemberEntry],
    user_data: &'a [u8],
) -> Result<Vec<NewEntry<'a>>, AllocError>
    requires placed { ArePlaced placed }
    requires lead { All (Leads placed.library.now) entries.now }
    requires user_data { user_data.now ≡ flat_map (entry_user_data placed.model placed.library.now) entries.now }
    ensures { IfOk result (λ all. all_contents all.items ≡ map (entry_contents placed.entry.model placed.entry.library.now) entries.now) }
{
    let mut all = Vec::new(alloc);
    let mut rest = user_data;
    for entry in entries {
        let (own, others) = rest.split_at(4 * entry.notes.len() + entry.user_data.len());
        push(&mut all, new_entry(placed, entry, own))?;
        rest = others;
    }
    Ok(all)
}

/// Why a directory of so many blocks can't have these entries: the first entry that no directory can have, or else too few blocks.
pub fn directory_fault(entries: &[NewEntry], blocks: usize) -> Option<LibraryFault>
    ensures fault { result ≡ directory_fault blocks (all_contents entries.now) }
    ensures entries { IfNone result (AreEntries (all_contents entries.now)) }
    ensures room { IfNone result (left_behind (all_entries (all_contents entries.now)) blocks ≡ []) }
{
    if let Some(refused) = refused_entry(entries) {
        return Some(LibraryFault::Entry(refused.number + 1, refused.fault));
    }
    let needed = blocks_needed(entries);
    if blocks < needed {
        return Some(LibraryFault::FewBlocks(needed));
    }
    None
}

/// The directory of a library: its blocks one behind another, each with its key of 8 bytes before its 256 bytes of data. Its entries have the
/// addresses of their members and of the blocks of these that notes lead to, as they stand where all records of the library
/// ([`library_records`]) are put on tracks of drives of this model.
///
/// # Errors
///
/// The first of these, in this order: an entry without a member; a note that leads to no block of its member; more tracks than addresses can
/// say; an entry that a directory can't have; fewer blocks than the entries take. Or there is no memory.
pub fn library_directory(
    alloc: Global,
    model: DriveModel,
    library: &NewLibrary,
) -> Result<Vec<u8>, LibraryFault>
    requires { All (MemberGoesOn model) library.now.members.now }
    ensures directory { IfOk result (λ directory. directory.items ≡ directory_bytes model library.now) }
    ensures none { IfOk result (λ _. library_fault model library.now ≡ None) }
    ensures fault { IfErr result (IsFault model library.now) }
    ensures read { IfOk result (λ _. IsLibraryRead model library.now) }
{
    if let Some(fault) = leading_fault(library) {
        return Err(fault);
    }
    let zeros = blank(alloc, library.directory_blocks)?;
    let records = library_records(alloc, &zeros, library.members)?;
    let placed = Placed {
        model,
        records: &records,
        library,
    };
    if let Some(fault) = length_fault(placed) {
        return Err(fault);
    }
    let bytes = user_data(alloc, placed, library.entries)?;
    let entries = new_entries(alloc, placed, library.entries, &bytes)?;
    if let Some(fault) = directory_fault(&entries, library.directory_blocks) {
        return Err(fault);
    }
    let mut directory = blank(alloc, library.directory_blocks)?;
    write_directory(&mut directory, &entries);
    Ok(directory)
}

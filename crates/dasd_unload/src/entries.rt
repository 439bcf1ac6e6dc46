//! What the text of a folder says of the entries of a directory, with the blocks of the members to which their notes lead.

ghost use Rattle.std.specs.Prelude.{◌≡◌, ◌≤◌, ◌*◌, ◌++◌, length, IfOk, IfErr, OnOk, true};
ghost use Rattle.dasd_extract.specs.Walk.{wanted};
ghost use Rattle.set_forms.specs.Forms.{form_line};
ghost use Rattle.dasd_unload.specs.Unloads.{is_of_job};
ghost use Rattle.dasd_unload.specs.Described.{SourceBytes, address_of, KeyedBytes, NoteIs, NotesAre, EntryIs, directory_lines, library_forms, AddsText};

use crate::fault::{NO_MEMORY, UnloadFault, of_reading};
use crate::forms::{
    NOTE, block_led_to, directory_blocks, entry_form, member_named, note_count, set_form, user_data,
};
use arrayvec::ArrayVec;
use counted_io::Counted;
use dasd_extract::{ExtractedForm, Source, extract};
use dasd_jobs::SlotReader;
use set_forms::{EntryForm, FormLine, Note, write_form};
use std::alloc::Global;
use volume_contents::DataSet;
use volume_labels::{
    DirectoryEntry, DirectoryStep, Extent, RelativeAddress, directory_step, read_directory,
};

/// A directory whose entries are described.
#[derive(Clone, Copy)]
struct Library<'a> {
    alloc: Global,
    extents: &'a [Extent],
    entries: &'a [DirectoryEntry],
    bytes: &'a [u8],
}

/// The bytes of a source's blocks, one behind another.
///
/// # Errors
///
/// There is no memory for them, or a read fails.
pub(crate) fn read_blocks<V: SlotReader>(
    alloc: Global,
    volume: &mut V,
    source: Source,
) -> Result<Vec<u8>, UnloadFault>
    ensures bytes { IfOk result (λ bytes. SourceBytes (wanted source.entry.form source.entry.extents.now source.entry.start source.entry.tracks)
        (V.volume volume.old) bytes.items) }
    ensures fault { IfErr result (λ e. is_of_job e ≡ true) }
    ensures kept { V.volume volume.new ≡ V.volume volume.old }
{
    let mut blocks = Counted::new(Vec::new(alloc));
    match extract(alloc, volume, &mut blocks, source) {
        Ok(_) => Ok(blocks.into_inner()),
        Err(fault) => Err(of_reading(fault)),
    }
}

// The blocks from an address on, up to an end of file, with their lengths and keys.
fn read_keyed<V: SlotReader>(
    library: Library,
    volume: &mut V,
    start: RelativeAddress,
) -> Result<Vec<u8>, UnloadFault>
    ensures bytes { IfOk result (λ bytes. KeyedBytes library.entry.extents.now start (V.volume volume.old) bytes.items) }
    ensures fault { IfErr result (λ e. is_of_job e ≡ true) }
    ensures kept { V.volume volume.new ≡ V.volume volume.old }
{
    let source = Source {
        extents: library.extents,
        start,
        tracks: u16::MAX,
        form: ExtractedForm::Keyed,
    };
    read_blocks(library.alloc, volume, source)
}

// The address that a note begins with.
fn address_of(note: &[u8]) -> RelativeAddress
    requires { 3 ≤ length note.now }
    ensures { result ≡ address_of note.now }
{
    RelativeAddress {
        track: u16::from(note[0]) * 256 + u16::from(note[1]),
        number: note[2],
    }
}

// The form of a note of a member with these blocks.
fn read_note<V: SlotReader>(
    library: Library,
    volume: &mut V,
    member: &[u8],
    note: &[u8],
) -> Result<Note, UnloadFault>
    requires { length note.now ≡ 4 }
    ensures note { IfOk result (NoteIs library.entry.extents.now member.now note.now (V.volume volume.old)) }
    ensures fault { IfErr result (λ e. is_of_job e ≡ true) }
    ensures kept { V.volume volume.new ≡ V.volume volume.old }
{
    let behind = read_keyed(library, volume, address_of(note))?;
    let byte = note[3];
    if let Some(number) = block_led_to(member, behind.as_slice()) {
        return Ok(Note::Block(number, byte));
    }
    let mut address = [0u8; 3];
    address.copy_from_slice(&note[..3]);
    Ok(Note::Address(address, byte))
}

// The forms of the first notes of user data.
fn read_notes<V: SlotReader>(
    library: Library,
    volume: &mut V,
    member: &[u8],
    notes: &[u8],
    count: usize,
) -> Result<ArrayVec<Note, 3>, UnloadFault>
    requires few { count ≤ 3 }
    requires within { count * 4 ≤ length notes.now }
    ensures notes { IfOk result (λ found. NotesAre library.entry.extents.now member.now notes.now count (V.volume volume.old) found.items) }
    ensures fault { IfErr result (λ e. is_of_job e ≡ true) }
    ensures kept { V.volume volume.new ≡ V.volume volume.old }
{
    let mut found = ArrayVec::new();
    for i in 0..count {
        let at = i * NOTE;
        let note = read_note(library, volume, member, &notes[at..at + NOTE])?;
        found.push(note);
    }
    Ok(found)
}

// The form of an entry with this user data.
fn read_entry<V: SlotReader>(
    library: Library,
    volume: &mut V,
    entry: DirectoryEntry,
    user: &[u8],
) -> Result<EntryForm, UnloadFault>
    requires notes { entry.notes ≤ 3 }
    requires user { length user.now ≤ 62 }
    ensures form { IfOk result (EntryIs library.entry.extents.now library.entry.entries.now entry user.now (V.volume volume.old)) }
    ensures fault { IfErr result (λ e. is_of_job e ≡ true) }
    ensures kept { V.volume volume.new ≡ V.volume volume.old }
{
    let member = member_named(library.entries, entry);
    let count = note_count(entry, user);
    if count == 0 {
        return Ok(entry_form(entry, member, ArrayVec::new(), user));
    }
    let blocks = read_keyed(library, volume, entry.address)?;
    let notes = read_notes(library, volume, blocks.as_slice(), user, count)?;
    Ok(entry_form(entry, member, notes, &user[count * NOTE..]))
}

// The lines of the entries in the blocks of a directory go to the end of a text.
fn write_entries<V: SlotReader>(
    library: Library,
    volume: &mut V,
    text: &mut Vec<u8>,
) -> Result<(), UnloadFault>
    ensures text { OnOk result (AddsText (V.volume volume.old)
        (directory_lines library.entry.extents.now library.entry.entries.now library.entry.bytes.now) text.old.items text.new.items) }
    ensures fault { IfErr result (λ e. is_of_job e ≡ true) }
    ensures kept { V.volume volume.new ≡ V.volume volume.old }
{
    let bytes = library.bytes;
    let mut at = 0;
    for _ in 0..bytes.len() {
        match directory_step(bytes, at) {
            DirectoryStep::Entry(entry, next) => {
                let user = user_data(bytes, entry, next);
                let form = read_entry(library, volume, entry, user)?;
                push(library.alloc, text, FormLine::Entry(form))?;
                at = next;
            }
            DirectoryStep::Skip(next) => at = next,
            DirectoryStep::End | DirectoryStep::Fault(_) => return Ok(()),
        }
    }
    Ok(())
}

// A line goes to the end of a text.
fn push(alloc: Global, text: &mut Vec<u8>, form: FormLine) -> Result<(), UnloadFault>
    ensures text { OnOk result (text.new.items ≡ text.old.items ++ form_line form) }
    ensures fault { IfErr result (λ e. is_of_job e ≡ true) }
{
    match write_form(alloc, text, &form) {
        Ok(()) => Ok(()),
        Err(_) => Err(NO_MEMORY),
    }
}

/// The lines of a partitioned data set with these blocks of its directory go to the end of a text.
pub(crate) fn write_library<V: SlotReader>(
    alloc: Global,
    volume: &mut V,
    text: &mut Vec<u8>,
    set: &DataSet,
    bytes: &[u8],
) -> Result<(), UnloadFault>
    ensures text { OnOk result (AddsText (V.volume volume.old) (library_forms set.now.block set.now.extents.items bytes.now) text.old.items
        text.new.items) }
    ensures fault { IfErr result (λ e. is_of_job e ≡ true) }
    ensures kept { V.volume volume.new ≡ V.volume volume.old }
{
    let Ok(directory) = read_directory(alloc, bytes) else {
        return Err(NO_MEMORY);
    };
    let extents = set.extents.as_slice();
    let form = set_form(&set.block, extents, Some(directory_blocks(bytes)));
    push(alloc, text, FormLine::Set(form))?;
    let library = Library {
        alloc,
        extents,
        entries: directory.entries.as_slice(),
        bytes,
    };
    write_entries(library, volume, text)
}

//! What the text of a folder says of a data set and of the entries of its directory, by its label and by blocks that were read.

ghost use Rattle.std.specs.List.{list_any};
ghost use Rattle.volume_labels.specs.Addresses.{is_split};
ghost use Rattle.std.specs.Prelude.{◌≡◌, ◌≤◌, ◌*◌, ◌++◌, ◌∷◌, [], None, Some, length, OnOk};
ghost use Rattle.set_forms.specs.Forms.{text_of};
ghost use Rattle.dasd_unload.specs.Described.{has_labels, types_of, extent_types, set_details, set_form, directory_blocks, is_same_place, member_named, note_count, entry_form, user_data, block_size};
ghost use Rattle.dasd_unload.specs.Described.{block_count, ends_with, block_led_to};

use arrayvec::ArrayVec;
use set_forms::{EntryForm, FormLine, Note, SetDetails, SetForm, write_form};
use std::alloc::{AllocError, Global};
use volume_labels::{
    DIRECTORY_BLOCK, DataSetBlock, DirectoryEntry, Extent, RelativeAddress, is_split,
};

/// The types of an extent for user labels, and of one that shares its cylinders.
const USER_LABELS: u8 = 0x40;

const SHARED: u8 = 0x80;

/// The length of a note in user data, in bytes.
pub(crate) const NOTE: usize = 4;

/// How many bytes stand before the key of a block that is written with its lengths.
const LENGTHS: usize = 4;

// Whether one of some extents shares its cylinders.
fn is_one_shared(extents: &[Extent]) -> bool
    ensures { result ≡ list_any is_split extents.now }
{
    extents.iter().any(
        |extent: &Extent| -> bool
            ensures { result ≡ is_split extent.now }
        { is_split(*extent) },
    )
}

// Whether one of them is for user labels.
fn is_one_labelled(extents: &[Extent]) -> bool
    ensures { result ≡ list_any has_labels extents.now }
{
    extents.iter().any(
        |extent: &Extent| -> bool
            ensures { result ≡ has_labels extent.now }
        { extent.kind == USER_LABELS },
    )
}

// The types of extents of which one shares its cylinders, or is for user labels.
fn types_of(shared: bool, labelled: bool) -> u8
    ensures { result ≡ types_of shared labelled }
{
    match (shared, labelled) {
        (false, false) => 0,
        (false, true) => USER_LABELS,
        (true, false) => SHARED,
        (true, true) => SHARED + USER_LABELS,
    }
}

// The types of extents that are no plain ones.
fn extent_types(extents: &[Extent]) -> u8
    ensures { result ≡ extent_types extents.now }
{
    types_of(is_one_shared(extents), is_one_labelled(extents))
}

// What is told of the volume and the extents of a data set; nothing of one that is on one volume, in plain extents.
fn set_details(block: &DataSetBlock, extents: &[Extent]) -> Option<SetDetails>
    ensures { result ≡ set_details block.now extents.now }
{
    let volume = block.volume;
    let extents = extent_types(extents);
    if volume <= 1 && extents == 0 {
        return None;
    }
    Some(SetDetails { volume, extents })
}

/// What the label of a data set with these extents says.
pub(crate) fn set_form(block: &DataSetBlock, extents: &[Extent], directory: Option<u16>) -> SetForm
    ensures { result ≡ set_form block.now extents.now directory }
{
    SetForm {
        name: block.name,
        organisation: block.organisation,
        format: block.format,
        record_length: block.record_length,
        block_length: block.block_length,
        key_length: block.key_length,
        created: block.created,
        expires: block.expires,
        directory,
        details: set_details(block, extents),
    }
}

/// How many blocks a directory of these bytes has.
pub(crate) fn directory_blocks(bytes: &[u8]) -> u16
    ensures { result ≡ directory_blocks bytes.now }
{
    let blocks = bytes.len() / DIRECTORY_BLOCK;
    if blocks > 65535 {
        return 65535;
    }
    blocks as u16
}

// Whether two addresses are the same.
fn is_same_place(one: RelativeAddress, other: RelativeAddress) -> bool
    ensures { result ≡ is_same_place one other }
{
    one.track == other.track && one.number == other.number
}

/// The member of which an entry is another name: the first that begins where it does.
pub(crate) fn member_named(entries: &[DirectoryEntry], entry: DirectoryEntry) -> Option<[u8; 8]>
    ensures { result ≡ member_named entries.now entry }
{
    if !entry.is_alias {
        return None;
    }
    for other in entries {
        if !other.is_alias && is_same_place(other.address, entry.address) {
            return Some(other.name);
        }
    }
    None
}

/// How many of the notes that an entry says its user data have room for.
pub(crate) fn note_count(entry: DirectoryEntry, user: &[u8]) -> usize
    ensures value { result ≡ note_count entry user.now }
    ensures said { result ≤ entry.notes }
    ensures within { result * 4 ≤ length user.now }
{
    let said = usize::from(entry.notes);
    let room = user.len() / NOTE;
    if said < room { said } else { room }
}

/// The user data of an entry, which end where the next one begins.
pub(crate) fn user_data(bytes: &[u8], entry: DirectoryEntry, next: usize) -> &[u8]
    ensures value { result.now ≡ user_data bytes.now entry next }
    ensures size { length result.now ≤ entry.user_bytes }
{
    let length = usize::from(entry.user_bytes);
    if next < length || bytes.len() < next {
        return &[];
    }
    &bytes[next - length..next]
}

/// The form of an entry with these notes, and this user data behind them.
pub(crate) fn entry_form(
    entry: DirectoryEntry,
    member: Option<[u8; 8]>,
    notes: ArrayVec<Note, 3>,
    rest: &[u8],
) -> EntryForm
    requires { length rest.now ≤ 62 }
    ensures { result ≡ entry_form entry member notes.items rest.now }
{
    let name = entry.name;
    let mut user = ArrayVec::new();
    user.try_extend_from_slice(rest).unwrap();
    EntryForm {
        name,
        member,
        notes,
        user,
    }
}

// How many bytes the first of some blocks has that are written with their lengths.
fn block_size(bytes: &[u8]) -> usize
    requires { 4 ≤ length bytes.now }
    ensures { result ≡ block_size bytes.now }
{
    LENGTHS + usize::from(bytes[1]) + 256 * usize::from(bytes[2]) + usize::from(bytes[3])
}

// How many blocks there are that are written with their lengths.
fn block_count(bytes: &[u8]) -> usize
    ensures { result ≡ block_count bytes.now }
{
    let mut rest = bytes;
    let mut count = 0;
    for _ in 0..bytes.len() {
        if rest.len() < LENGTHS {
            return count;
        }
        let size = block_size(rest);
        if rest.len() < size {
            return count;
        }
        rest = &rest[size..];
        count += 1;
    }
    count
}

// Whether some bytes end with others.
fn ends_with(bytes: &[u8], last: &[u8]) -> bool
    ensures { result ≡ ends_with bytes.now last.now }
{
    let len = bytes.len();
    if last.is_empty() || len < last.len() {
        return false;
    }
    &bytes[len - last.len()..] == last
}

/// The number of the block of a member from which on it has the same blocks as stand somewhere, all of them written with their lengths;
/// the first is 1.
pub(crate) fn block_led_to(member: &[u8], behind: &[u8]) -> Option<u32>
    ensures { result ≡ block_led_to member.now behind.now }
{
    if !ends_with(member, behind) {
        return None;
    }
    let count = block_count(&member[..member.len() - behind.len()]);
    if count >= 4_294_967_295 {
        return None;
    }
    Some(count as u32 + 1)
}

/// The line of a data set without a directory goes to the end of a text.
pub(crate) fn write_set(
    alloc: Global,
    text: &mut Vec<u8>,
    block: &DataSetBlock,
    extents: &[Extent],
) -> Result<(), AllocError>
    ensures { OnOk result (text.new.items ≡ text.old.items ++ text_of (FormLine.Set (set_form block.now extents.now None) ∷ [])) }
{
    write_form(alloc, text, &FormLine::Set(set_form(block, extents, None)))
}

//! The user data of the entries of a library.

ghost use Rattle.std.specs.Prelude.{◌≡◌, ◌++◌, flat_map, IfOk, All};
ghost use Rattle.record_tracks.specs.MemberEntries.{note_bytes, entry_notes, entry_user_data};
ghost use Rattle.record_tracks.specs.Placed.{ArePlaced, Leads};

use crate::addresses::{Placed, block_address};
use crate::libraries::MemberEntry;
use std::alloc::{AllocError, Global};
use volume_labels::RelativeAddress;

// Puts an address and the byte behind it behind other bytes.
fn push_note(bytes: &mut Vec<u8>, address: RelativeAddress, count: u8) -> Result<(), AllocError>
    ensures { IfOk result (λ _. bytes.new.items ≡ bytes.old.items ++ note_bytes address count) }
{
    let [t0, t1] = address.track.to_be_bytes();
    bytes.extend_from_slice(&[t0, t1, address.number, count])
}

// Puts the notes of an entry behind other bytes.
fn push_notes(bytes: &mut Vec<u8>, placed: Placed, entry: &MemberEntry) -> Result<(), AllocError>
    requires placed { ArePlaced placed }
    requires leads { Leads placed.library.now entry.now }
    ensures { IfOk result (λ _. bytes.new.items ≡ bytes.old.items ++ entry_notes placed.entry.model placed.entry.library.now entry.now) }
{
    for note in entry.notes {
        let address = block_address(placed, entry.member, note.block);
        push_note(bytes, address, note.count)?;
    }
    Ok(())
}

/// The user data of entries, one behind another.
///
/// # Errors
///
/// There is no memory for them.
pub(crate) fn user_data(
    alloc: Global,
    placed: Placed,
    entries: &[MemberEntry],
) -> Result<Vec<u8>, AllocError>
    requires placed { ArePlaced placed }
    requires lead { All (Leads placed.library.now) entries.now }
    ensures { IfOk result (λ bytes. bytes.items ≡ flat_map (entry_user_data placed.entry.model placed.entry.library.now) entries.now) }
{
    let mut bytes = Vec::new(alloc);
    for entry in entries {
        push_notes(&mut bytes, placed, entry)?;
        bytes.extend_from_slice(entry.user_data)?;
    }
    Ok(bytes)
}

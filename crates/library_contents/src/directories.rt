//! The entries of a directory, each with where it ends.

ghost use Rattle.std.specs.Prelude.{◌≡◌, ◌++◌, ◌∷◌, [], IfOk, option_map, Some};
ghost use Rattle.library_contents.specs.Directories.{AreEntriesOf, user_data};

use std::alloc::{AllocError, Global};
use volume_labels::{DirectoryEntry, DirectoryStep, directory_step};

/// An entry of a directory, and where it ends in the directory's blocks.
#[derive(Clone, Copy)]
pub struct PlacedEntry {
    /// The entry.
    pub entry: DirectoryEntry,
    /// The offset of the byte after it.
    pub end: usize,
}

/// The entries in the blocks of a directory, one block after another without keys, if nothing is wrong after them.
///
/// # Errors
///
/// There is no memory for them.
pub fn placed_entries(alloc: Global, bytes: &[u8]) -> Result<Option<Vec<PlacedEntry>>, AllocError>
    ensures { IfOk result (AreEntriesOf bytes.now) }
{
    let mut entries = Vec::new(alloc);
    let mut at = 0;
    for _ in 0..bytes.len() {
        match directory_step(bytes, at) {
            DirectoryStep::Entry(entry, end) => {
                push(&mut entries, PlacedEntry { entry, end })?;
                at = end;
            }
            DirectoryStep::Skip(next) => at = next,
            DirectoryStep::End => return Ok(Some(entries)),
            DirectoryStep::Fault(_) => return Ok(None),
        }
    }
    Ok(Some(entries))
}

// One entry more.
fn push(entries: &mut Vec<PlacedEntry>, entry: PlacedEntry) -> Result<(), AllocError>
    ensures { IfOk result (λ _. entries.new.items ≡ entries.old.items ++ entry ∷ []) }
{
    match entries.push(entry) {
        Ok(()) => Ok(()),
        Err(_) => Err(AllocError),
    }
}

/// The user data of an entry, with which it ends.
pub fn user_data<'a>(bytes: &'a [u8], placed: PlacedEntry) -> &'a [u8]
    ensures { result.now ≡ user_data bytes.now placed }
{
    let PlacedEntry { entry, end } = placed;
    if bytes.len() < end {
        return &[];
    }
    &bytes[end.saturating_sub(usize::from(entry.user_bytes))..end]
}

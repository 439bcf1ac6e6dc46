//! Whether a directory says after a change what it should.

ghost use Rattle.std.specs.Prelude.{◌≡◌, length, drop, IfOk};
ghost use Rattle.record_tracks.specs.Entries.{contents_of, all_contents};
ghost use Rattle.member_changes.specs.Confirms.{is_same, are_same, has_entries};

use crate::entries::read_entries;
use record_tracks::NewEntry;
use std::alloc::{AllocError, Global};

// Whether an entry is another one.
fn is_same(one: &NewEntry, other: &NewEntry) -> bool
    ensures { result ≡ is_same (contents_of one.now) (contents_of other.now) }
{
    one.name == other.name
        && one.address.track == other.address.track
        && one.address.number == other.address.number
        && one.is_alias == other.is_alias
        && one.notes == other.notes
        && one.user_data == other.user_data
}

// Whether entries are others.
fn are_same(some: &[NewEntry], others: &[NewEntry]) -> bool
    ensures { result ≡ are_same (all_contents some.now) (all_contents others.now) }
{
    if some.len() != others.len() {
        return false;
    }
    for i in 0..some.len() {
        if !is_same(&some[i], &others[i]) {
            return false;
        }
    }
    true
}

/// Whether the directory with these blocks, one after another without keys, has these entries and no others, each with its address, its notes
/// and its user data, and nothing is wrong after them.
///
/// # Errors
///
/// There is no memory to tell.
pub fn is_confirmed(alloc: Global, bytes: &[u8], entries: &[NewEntry]) -> Result<bool, AllocError>
    ensures { IfOk result (λ confirmed. confirmed ≡ has_entries (all_contents entries.now) bytes.now) }
{
    match read_entries(alloc, bytes)? {
        Some(found) => Ok(are_same(found.as_slice(), entries)),
        None => Ok(false),
    }
}

//! The free control blocks of a table of contents.

ghost use Rattle.std.specs.Prelude.{◌≡◌, ◌<◌, ◌++◌, true, length, Ok, IfSome};
ghost use Rattle.std.specs.List.{position_from};
ghost use Rattle.ckd_track.specs.Changes.{with_key_data};
ghost use Rattle.ckd_track.specs.Track.{track_of, track_in, record_in, slot_of};
ghost use Rattle.new_labels.specs.Tables.{is_free_block, free_place, IsFreePlace};

use ckd_track::{TrackView, overwrite, put_key_data, read_slot};
use volume_labels::{BlockKind, block_kind};

// Whether record `i` of a track is a free control block.
fn is_free_block(view: &TrackView, i: usize) -> bool
    requires { i < length view.now.records }
    ensures exact { result ≡ is_free_block (record_in view.now i) }
    ensures key { result ≡ true → length (record_in view.now i).key_area ≡ 44 }
    ensures bytes { result ≡ true → length (record_in view.now i).data_area ≡ 96 }
{
    matches!(
        block_kind(view.key_of(i), view.data_of(i)),
        Some(BlockKind::Free)
    )
}

// The first free control block of a track that can be read.
#[tactic(auto, using(crate::proofs::Places::passed, crate::proofs::Places::found, crate::proofs::Places::none))]
fn free_on(view: &TrackView) -> Option<usize>
    ensures place { result ≡ free_place (Ok view.now) }
    ensures there { IfSome result (IsFreePlace view.now) }
{
    for i in 1..view.len() {
        if is_free_block(view, i) {
            return Some(i);
        }
    }
    None
}

/// Which record of the track in a slot is the first free control block behind record 0. None where the track has none, or can't be read.
pub fn free_block(slot: &[u8]) -> Option<usize>
    ensures place { result ≡ free_place (track_of slot.now) }
    ensures there { IfSome result (IsFreePlace (track_in slot.now)) }
{
    match read_slot(slot) {
        Ok(view) => free_on(&view),
        Err(_) => None,
    }
}

// Key and data of a control block, one behind the other.
fn body_of(key: &[u8; 44], bytes: &[u8; 96]) -> [u8; 140]
    ensures { result ≡ key.now ++ bytes.now }
{
    let mut body = [0; 140];
    overwrite(&mut body, 44, bytes);
    overwrite(&mut body, 0, key);
    body
}

/// Writes a control block into the record of a free one, which keeps its count area. All other records of the track stay; what stood behind
/// the track's end mark are zeros then.
pub fn fill_block(slot: &mut [u8], place: usize, key: &[u8; 44], bytes: &[u8; 96])
    requires { IsFreePlace (track_in slot.old) place }
    ensures slot { slot.new ≡ slot_of (length slot.old) (with_key_data place (key.now ++ bytes.now) (track_in slot.old)) }
    ensures read { track_of slot.new ≡ Ok (with_key_data place (key.now ++ bytes.now) (track_in slot.old)) }
{
    put_key_data(slot, place, &body_of(key, bytes));
}

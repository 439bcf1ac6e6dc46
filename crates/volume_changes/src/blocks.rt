//! A control block in whose place something else stands later.

ghost use Rattle.std.specs.Prelude.{◌≡◌, ◌<◌, ◌≤◌, ◌++◌, length, true, IfSome, IfOk};
ghost use Rattle.std.specs.List.{position_from};
ghost use Rattle.ckd_track.specs.Track.{track_of, track_in, record_in};
ghost use Rattle.volume_changes.specs.Blocks.{is_record_of, place_on, changed_slot};

use ckd_track::{TrackView, overwrite, put_key_data, read_slot};
use volume_contents::Block;

/// A control block, and what stands in its place later.
#[derive(Clone, Copy)]
pub struct BlockChange {
    /// The block, as a table of contents has it.
    pub block: Block,
    /// The key of its record later.
    pub key: [u8; 44],
    /// The data of its record later.
    pub bytes: [u8; 96],
}

/// Writes the key and the data that a change says into the record of its control block: the first one of the track behind record 0 that has
/// the block's number, key and data. What stood behind the track's end mark are zeros then. Where the track has no such record, or can't be
/// read, the slot stays as it was.
pub fn write_block(slot: &mut [u8], change: &BlockChange)
    ensures slot { slot.new ≡ changed_slot change.now slot.old }
    ensures size { length slot.new ≡ length slot.old }
{
    if let Some(place) = place_of(slot, &change.block) {
        put_key_data(slot, place, &body_of(change));
    }
}

// Key and data of a change, one behind the other.
fn body_of(change: &BlockChange) -> [u8; 140]
    ensures { result ≡ change.now.key ++ change.now.bytes }
{
    let mut body = [0; 140];
    overwrite(&mut body, 44, &change.bytes);
    overwrite(&mut body, 0, &change.key);
    body
}

// Where the record of a control block stands on the track of a slot.
fn place_of(slot: &[u8], block: &Block) -> Option<usize>
    ensures place { result ≡ place_on block.now (track_of slot.now) }
    ensures there { IfSome result (λ i. i < length (track_in slot.now).records) }
    ensures key { IfSome result (λ i. length (record_in (track_in slot.now) i).key_area ≡ 44) }
    ensures bytes { IfSome result (λ i. length (record_in (track_in slot.now) i).data_area ≡ 96) }
{
    match read_slot(slot) {
        Ok(view) => place_in(&view, block),
        Err(_) => None,
    }
}

// Where it stands among the records of a track.
#[tactic(auto, using(crate::proofs::Places::passed, crate::proofs::Places::found, crate::proofs::Places::none))]
fn place_in(view: &TrackView, block: &Block) -> Option<usize>
    ensures place { result ≡ place_on block.now (Ok view.now) }
    ensures there { IfSome result (λ i. i < length view.now.records) }
    ensures key { IfSome result (λ i. length (record_in view.now i).key_area ≡ 44) }
    ensures bytes { IfSome result (λ i. length (record_in view.now i).data_area ≡ 96) }
{
    for i in 1..view.len() {
        if is_record_of(view, i, block) {
            return Some(i);
        }
    }
    None
}

// Whether record `i` is that of a control block.
fn is_record_of(view: &TrackView, i: usize, block: &Block) -> bool
    requires { i < length view.now.records }
    ensures exact { result ≡ is_record_of block.now (record_in view.now i) }
    ensures key { result ≡ true → length (record_in view.now i).key_area ≡ 44 }
    ensures bytes { result ≡ true → length (record_in view.now i).data_area ≡ 96 }
{
    view.count_of(i)[4] == block.address.number
        && view.key_of(i) == &block.key[..]
        && view.data_of(i) == &block.bytes[..]
}

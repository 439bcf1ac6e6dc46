//! Where the blocks of a directory are, and how one is written.

ghost use Rattle.std.specs.Prelude.{◌≡◌, ◌<◌, ◌++◌, ◌∷◌, [], true, length, IfOk};
ghost use Rattle.ckd_track.specs.Track.{track_of, track_in, record_in};
ghost use Rattle.member_changes.specs.Places.{is_block, place_of, places_in, places_on, slot_with};

use ckd_track::{TrackView, put_key_data, read_slot};
use std::alloc::AllocError;

/// Where a block of a directory is.
#[derive(Clone, Copy)]
pub struct BlockPlace {
    /// The number of its track on the volume, the first being 0.
    pub track: u32,
    /// Which of the track's records it is, record 0 being number 0.
    pub number: usize,
}

// Whether a record of a track is a block of a directory.
fn is_block(view: &TrackView, i: usize) -> bool
    requires { i < length view.now.records }
    ensures { result ≡ is_block (record_in view.now i) }
{
    view.key_of(i).len() == 8 && view.data_of(i).len() == 256
}

// One place more.
fn push(places: &mut Vec<BlockPlace>, place: BlockPlace) -> Result<(), AllocError>
    ensures { IfOk result (λ _. places.new.items ≡ places.old.items ++ place ∷ []) }
{
    match places.push(place) {
        Ok(()) => Ok(()),
        Err(_) => Err(AllocError),
    }
}

// The places of the blocks on a track that can be read.
fn push_each(places: &mut Vec<BlockPlace>, track: u32, view: &TrackView) -> Result<(), AllocError>
    ensures { IfOk result (λ _. places.new.items ≡ places.old.items ++ places_in track view.now) }
{
    for number in 1..view.len() {
        if !is_block(view, number) {
            return Ok(());
        }
        push(places, BlockPlace { track, number })?;
    }
    Ok(())
}

/// Adds the places of the blocks of a directory that are on a track: the records after its record 0, up to the first one that is no such block.
/// The slot is that of the track of this number on the volume. A track that can't be read has none.
///
/// # Errors
///
/// There is no memory for them: some may be added.
pub fn push_places(places: &mut Vec<BlockPlace>, track: u32, slot: &[u8]) -> Result<(), AllocError>
    ensures { IfOk result (λ _. places.new.items ≡ places.old.items ++ places_on track (track_of slot.now)) }
{
    match read_slot(slot) {
        Ok(view) => push_each(places, track, &view),
        Err(_) => Ok(()),
    }
}

// Whether a record of the track in a slot is a block of a directory.
fn has_block(slot: &[u8], number: usize) -> bool
    ensures exact { result ≡ is_block (record_in (track_in slot.now) number) }
    ensures there { result ≡ true → number < length (track_in slot.now).records }
{
    match read_slot(slot) {
        Ok(view) => number < view.len() && is_block(&view, number),
        Err(_) => false,
    }
}

/// Writes the key and the data of a directory's block into a record of the track in a slot. What stood after the track's end mark are zeros
/// then. Where the record is no such block, the slot stays as it was.
pub fn write_block(slot: &mut [u8], number: usize, block: &[u8])
    requires { length block.now ≡ 264 }
    ensures slot { slot.new ≡ slot_with block.now number slot.old }
    ensures size { length slot.new ≡ length slot.old }
{
    if has_block(slot, number) {
        put_key_data(slot, number, block);
    }
}

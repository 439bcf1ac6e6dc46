//! The writing of a new volume.

ghost use Rattle.std.specs.Prelude.{◌≡◌, ◌+◌, ◌*◌, ◌<◌, ◌≤◌, max, length, OnOk, OnErr};
ghost use Rattle.ckd_track.specs.Model.{slot_size_of};
ghost use Rattle.ckd_track.specs.Track.{spelling, slot_of};
ghost use Rattle.ckd_track.specs.Geometry.{tracks_of};
ghost use Rattle.ckd_image.specs.Layout.{image_length};
ghost use Rattle.ckd_image.specs.Slots.{new_track, new_slot};
ghost use Rattle.ckd_image.specs.Store.{overwritten, Torn, Counts};
ghost use Rattle.ckd_image.specs.Image.{new_file};

use crate::header::new_header_of;
use crate::layout::slot_start;
use crate::store::{ImageStore, StoreFault};
use ckd_track::Geometry;

/// The greatest track size of a new image, in bytes.
const LARGEST_SLOT: usize = 7680;

/// The bytes that spell a track of a new volume: its home address, R0, and the end mark.
const SPELLED: usize = 5 + 16 + 8;

/// Writes a new volume from the beginning of the store on: its header, and each slot in order.
#[tactic(auto, using(crate::proofs::NewVolumeLemmas::not_longer))]
pub fn write_new_volume<S: ImageStore>(store: &mut S, geometry: Geometry) -> Result<(), StoreFault>
    requires { geometry.track_size ≡ slot_size_of geometry.model }
    ensures written { OnOk result
        (S.content store.new ≡ overwritten (S.content store.old) 0 (new_file geometry)) }
    ensures not_shorter { length (S.content store.old) ≤ length (S.content store.new) }
    ensures not_longer { length (S.content store.new) ≤ max (length (S.content store.old)) (image_length geometry) }
    ensures same { S.origin store.new ≡ S.origin store.old }
    ensures counted { Counts (S.failures store.old) (S.failures store.new) result }
{
    store.write_at(0, &new_header_of(geometry.model))?;
    let mut buffer = [0; LARGEST_SLOT];
    let slot = &mut buffer[..geometry.track_size as usize];
    for track in 0..geometry.tracks() {
        write_new_slot(store, geometry, track, slot)?;
    }
    Ok(())
}

/// Writes the slot of a track of a new volume. `slot` is room for it.
fn write_new_slot<S: ImageStore>(
    store: &mut S,
    geometry: Geometry,
    track: u32,
    slot: &mut [u8],
) -> Result<(), StoreFault>
    requires begins { 512 + track * geometry.track_size ≤ length (S.content store.old) }
    requires exists { track < tracks_of geometry }
    requires room { length slot.old ≡ geometry.track_size }
    requires size { SPELLED ≤ geometry.track_size }
    ensures written { let at = 512 + track * geometry.track_size in OnOk result
        (S.content store.new ≡ overwritten (S.content store.old) at (new_slot geometry track)) }
    ensures torn { let at = 512 + track * geometry.track_size in OnErr result
        (Torn (S.content store.old) (S.content store.new) at geometry.track_size) }
    ensures same { S.origin store.new ≡ S.origin store.old }
    ensures counted { Counts (S.failures store.old) (S.failures store.new) result }
{
    let heads = geometry.model.heads() as u32;
    spell_new_track(slot, (track / heads) as u16, (track % heads) as u16);
    store.write_at(slot_start(geometry.track_size, track), slot)
}

/// Spells a track of a new volume.
#[tactic(auto, unfolding(ckd_track::specs::Track::slot_of))]
fn spell_new_track(slot: &mut [u8], cylinder: u16, head: u16)
    requires { SPELLED ≤ length slot.old }
    ensures { slot.new ≡ slot_of (length slot.old) (new_track cylinder head) }
{
    slot[..SPELLED].copy_from_slice(&new_spelling(cylinder, head));
    slot[SPELLED..].fill(0);
}

/// How a track of a new volume is spelled: the home address, the count area and the data area of
/// R0, the end mark.
fn new_spelling(cylinder: u16, head: u16) -> [u8; SPELLED]
    ensures { result ≡ spelling (new_track cylinder head) }
{
    let [c0, c1] = cylinder.to_be_bytes();
    let [h0, h1] = head.to_be_bytes();
    [
        // home address, with flag 0
        0, c0, c1, h0, h1,
        // R0's count area: its id, no key, eight bytes of data
        c0, c1, h0, h1, 0, 0, 0, 8,
        // its data area
        0, 0, 0, 0, 0, 0, 0, 0,
        // end mark
        0xFF, 0xFF, 0xFF, 0xFF, 0xFF, 0xFF, 0xFF, 0xFF,
    ]
}

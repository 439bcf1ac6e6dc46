//! Defective tracks, and the alternates that hold their blocks.

ghost use Rattle.std.specs.Prelude.{◌≡◌, ◌≤◌, ◌<◌, length};
ghost use Rattle.ckd_track.specs.Track.{track_of};
ghost use Rattle.volume_labels.specs.Fields.{track_address_at};
ghost use Rattle.dasd_extract.specs.Alternates.{is_defective, is_alternate, has_record_0, named_by, holder_named, holder_on, holder_of, IsOnVolume, is_other};

use crate::blocks::number_of;
use ckd_track::{Geometry, TrackView, read_slot};
use volume_labels::TrackAddress;

/// Where the blocks of a track are.
#[derive(Clone, Copy)]
pub(crate) enum Holder {
    /// On the track itself.
    Itself,
    /// On the track of this number, which the volume has.
    Alternate(u32),
    /// The track is defective, and names no track of the volume.
    Nowhere,
}

// Whether a track is flagged as defective.
fn is_defective(view: &TrackView) -> bool
    ensures { result ≡ is_defective view.now }
{
    view.ha()[0] / 2 % 2 == 1
}

// Whether a track is flagged as an alternate, and not as defective too.
fn is_alternate(view: &TrackView) -> bool
    ensures { result ≡ is_alternate view.now }
{
    view.ha()[0] % 4 == 1
}

// Whether a track has a record 0.
fn has_record_0(view: &TrackView) -> bool
    ensures { result ≡ has_record_0 view.now }
{
    !view.is_empty() && number_of(view, 0) == 0
}

// The track that record 0 names.
fn named_by(view: &TrackView) -> TrackAddress
    requires { 0 < length view.now.records }
    ensures { result ≡ named_by view.now }
{
    let count = view.count_of(0);
    TrackAddress {
        cylinder: count[0] as u16 * 256 + count[1] as u16,
        head: count[2] as u16 * 256 + count[3] as u16,
    }
}

// The alternate at an address, if the volume has this track.
fn holder_named(geometry: Geometry, address: TrackAddress) -> Holder
    ensures holder { result ≡ holder_named geometry address }
    ensures exists { IsOnVolume geometry result }
{
    let TrackAddress { cylinder, head } = address;
    if cylinder < geometry.cylinders && head < geometry.model.heads() {
        return Holder::Alternate(geometry.track_at(cylinder, head));
    }
    Holder::Nowhere
}

// Where the blocks of a track are that can be read.
fn holder_on(geometry: Geometry, view: &TrackView) -> Holder
    ensures holder { result ≡ holder_on geometry view.now }
    ensures exists { IsOnVolume geometry result }
{
    if !is_defective(view) {
        return Holder::Itself;
    }
    if !has_record_0(view) {
        return Holder::Nowhere;
    }
    holder_named(geometry, named_by(view))
}

/// Where the blocks of the track in a slot are.
pub(crate) fn holder_of(geometry: Geometry, slot: &[u8]) -> Holder
    ensures holder { result ≡ holder_of geometry (track_of slot.now) }
    ensures exists { IsOnVolume geometry result }
{
    match read_slot(slot) {
        Ok(view) => holder_on(geometry, &view),
        Err(_) => Holder::Itself,
    }
}

/// Whether the track in a slot can be read, and is no alternate.
pub(crate) fn is_other(slot: &[u8]) -> bool
    ensures { result ≡ is_other (track_of slot.now) }
{
    match read_slot(slot) {
        Ok(view) => !is_alternate(&view),
        Err(_) => false,
    }
}

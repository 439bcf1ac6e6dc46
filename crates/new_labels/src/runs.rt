//! Runs of free tracks.

ghost use Rattle.std.specs.Prelude.{◌≡◌, ◌≤◌, ◌<◌, length, IfSome};
ghost use Rattle.ckd_track.specs.Geometry.{tracks_of};
ghost use Rattle.ckd_track.specs.Model.{heads_of};
ghost use Rattle.volume_labels.specs.Addresses.{number_of_track};
ghost use Rattle.new_labels.specs.Runs.{shares_track, has_track, is_taken, Space, is_free, IsFirstRun, IsApart};

use ckd_track::{DriveModel, Geometry};
use volume_labels::{Extent, TrackAddress, is_split};

// The number of a track on a drive of this model.
fn number_of(model: DriveModel, track: TrackAddress) -> u32
    ensures { result ≡ number_of_track (heads_of model) track }
{
    u32::from(track.cylinder) * u32::from(model.heads()) + u32::from(track.head)
}

// Whether a split extent has a track of the volume.
fn shares_track(model: DriveModel, track: u32, extent: Extent) -> bool
    ensures { result ≡ shares_track (heads_of model) track extent }
{
    let Extent { first, last, .. } = extent;
    let cylinder = track / u32::from(model.heads());
    let head = track % u32::from(model.heads());
    u32::from(first.cylinder) <= cylinder
        && cylinder <= u32::from(last.cylinder)
        && u32::from(first.head) <= head
        && head <= u32::from(last.head)
}

// Whether an extent has a track of the volume.
fn has_track(model: DriveModel, track: u32, extent: Extent) -> bool
    ensures { result ≡ has_track (heads_of model) track extent }
{
    if is_split(extent) {
        return shares_track(model, track, extent);
    }
    number_of(model, extent.first) <= track && track <= number_of(model, extent.last)
}

/// Whether one of the extents has a track of the volume.
pub fn is_taken(geometry: Geometry, extents: &[Extent], track: u32) -> bool
    ensures { result ≡ is_taken geometry extents.now track }
{
    let model = geometry.model;
    extents.iter().any(
        |extent: &Extent| -> bool
            ensures { result ≡ has_track (heads_of model) track extent.now }
        { has_track(model, track, *extent) },
    )
}

/// The first of so many tracks, one behind another, that can be given: no extent has one of them, the mark of each is not 0, and none is that of
/// the volume's label. Of several such runs the first one; none where the volume has no such run. There is a mark for each track of the volume.
pub fn free_run(geometry: Geometry, extents: &[Extent], marks: &[u8], tracks: u32) -> Option<u32>
    requires some { 1 ≤ tracks }
    requires marks { length marks.now ≡ tracks_of geometry }
    ensures first { IsFirstRun geometry (record { extents = extents.now; marks = marks.now }) tracks result }
    ensures apart { IfSome result (IsApart geometry extents.now tracks) }
{
    let mut free = 0;
    for track in 1..geometry.tracks() {
        if !is_free(geometry, extents, marks, track) {
            free = 0;
            continue;
        }
        free += 1;
        if free == tracks {
            return Some(track + 1 - tracks);
        }
    }
    None
}

// Whether a track behind that of the label can be given.
fn is_free(geometry: Geometry, extents: &[Extent], marks: &[u8], track: u32) -> bool
    requires some { 1 ≤ track }
    requires there { track < tracks_of geometry }
    requires marks { length marks.now ≡ tracks_of geometry }
    ensures { result ≡ is_free geometry (record { extents = extents.now; marks = marks.now }) track }
{
    marks[track as usize] != 0 && !is_taken(geometry, extents, track)
}

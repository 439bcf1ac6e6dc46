//! The extent of a run of tracks.

ghost use Rattle.std.specs.Prelude.{◌≡◌, ◌≤◌, ◌<◌, ◌+◌};
ghost use Rattle.ckd_track.specs.Geometry.{tracks_of};
ghost use Rattle.new_labels.specs.Extents.{extent_of_run, address_of, HasRun};

use ckd_track::Geometry;
use volume_labels::{Extent, TrackAddress};

// Cylinder and head of a track of the volume.
fn address_of(geometry: Geometry, track: u32) -> TrackAddress
    requires { track < tracks_of geometry }
    ensures { result ≡ address_of geometry track }
{
    let heads = u32::from(geometry.model.heads());
    TrackAddress {
        cylinder: (track / heads) as u16,
        head: (track % heads) as u16,
    }
}

/// The first extent of a data set, of type 01, which has so many tracks from one on.
pub fn extent_of_run(geometry: Geometry, first: u32, tracks: u32) -> Extent
    requires some { 1 ≤ tracks }
    requires within { first + tracks ≤ tracks_of geometry }
    ensures extent { result ≡ extent_of_run geometry first tracks }
    ensures tracks { HasRun geometry first tracks result }
{
    Extent {
        kind: 1,
        number: 0,
        first: address_of(geometry, first),
        last: address_of(geometry, first + tracks - 1),
    }
}

//! Tracks of a volume by their numbers, and runs of them.

ghost use Rattle.std.specs.Prelude.{◌≡◌, ◌<◌, ◌+◌, ◌^◌, ◌≤◌, true};
ghost use Rattle.ckd_track.specs.Geometry.{tracks_of, track_at};
ghost use Rattle.ckd_track.specs.Model.{heads_of};
ghost use Rattle.volume_labels.specs.Addresses.{number_of_track, is_run};
ghost use Rattle.volume_contents.specs.Runs.{exists_on, is_on, is_table_extent, walked_of, address_of_number};

use ckd_track::Geometry;
use volume_labels::{Extent, TrackAddress, is_run as is_run_of};

/// Tracks that stand one behind another.
#[derive(Clone, Copy)]
pub(crate) struct Run {
    /// The number of the first on the volume.
    pub(crate) first: u32,
    /// How many they are.
    pub(crate) tracks: u32,
}

/// Whether the volume has this track.
pub(crate) fn exists_on(geometry: Geometry, track: TrackAddress) -> bool
    ensures { result ≡ exists_on geometry track }
{
    track.cylinder < geometry.cylinders && track.head < geometry.model.heads() as u16
}

/// The number of a track on its volume, whether or not the volume has it.
pub(crate) fn number_of(geometry: Geometry, track: TrackAddress) -> u32
    ensures value { result ≡ number_of_track (heads_of geometry.model) track }
    ensures limit { result < 16777216 + 65536 }
{
    track.cylinder as u32 * geometry.model.heads() as u32 + track.head as u32
}

/// Whether an extent names heads that the drive has, and does not end before it begins: a split one in its cylinders or in its heads.
pub(crate) fn is_run(geometry: Geometry, extent: Extent) -> bool
    ensures { result ≡ is_run (heads_of geometry.model) extent }
{
    is_run_of(geometry.model.heads() as u8, extent)
}

/// Whether the tracks of an extent are all on the volume.
pub(crate) fn is_on(geometry: Geometry, extent: Extent) -> bool
    ensures { result ≡ is_on geometry extent }
{
    is_run(geometry, extent)
        && exists_on(geometry, extent.first)
        && exists_on(geometry, extent.last)
}

/// Whether an extent can be that of a volume table of contents whose format 4 block stands on this track.
pub(crate) fn is_table_extent(geometry: Geometry, block: TrackAddress, extent: Extent) -> bool
    ensures { result ≡ is_table_extent geometry block extent }
{
    extent.kind != 0
        && is_on(geometry, extent)
        && number_of(geometry, extent.first) <= number_of(geometry, block)
        && number_of(geometry, block) <= number_of(geometry, extent.last)
}

/// The tracks of a volume table of contents that are read: those of its extent that are on the volume, or the track of its
/// format 4 block.
#[tactic(auto, using(volume_labels::proofs::Orders::numbers_in_order))]
pub(crate) fn walked(geometry: Geometry, block: TrackAddress, extent: Extent) -> Run
    requires { exists_on geometry block ≡ true }
    ensures value { result ≡ walked_of geometry block extent }
    ensures exist { result.first + result.tracks ≤ tracks_of geometry }
    ensures few { result.first + result.tracks < 2 ^ 32 }
{
    let first = number_of(geometry, extent.first);
    if !is_run(geometry, extent) || !exists_on(geometry, extent.first) {
        return Run {
            first: number_of(geometry, block),
            tracks: 1,
        };
    }
    let behind = (number_of(geometry, extent.last) + 1).min(geometry.tracks());
    Run {
        first,
        tracks: behind - first,
    }
}

/// The cylinder and head of the track of this number.
pub(crate) fn address_of_track(geometry: Geometry, track: u32) -> TrackAddress
    requires { track < tracks_of geometry }
    ensures { result ≡ address_of_number geometry track }
{
    let heads = geometry.model.heads() as u32;
    TrackAddress {
        cylinder: (track / heads) as u16,
        head: (track % heads) as u16,
    }
}

//! How many tracks of a volume are a data set's, how many of them are used, and how many are free.

ghost use Rattle.std.specs.Prelude.{◌≡◌, ◌<◌, ◌-◌, ◌^◌, min, sum_by, IfOk};
ghost use Rattle.volume_contents.specs.Sets.{number_of_free};
ghost use Rattle.volume_contents.specs.Tracks.{tracks_in, tracks_owned, tracks_used, tracks_free};

use crate::blocks::Block;
use crate::runs::is_on;
use crate::sets::free_tracks;
use ckd_track::Geometry;
use std::alloc::{AllocError, Global};
use volume_labels::{Extent, FreeTracks, RelativeAddress, tracks_of_extent};

/// The type of an extent for user labels, whose tracks are none of the data set's.
const USER_LABELS: u8 = 0x40;

/// How many tracks these extents of a data set have that are on the volume, without those for user labels.
pub fn tracks_owned(geometry: Geometry, extents: &[Extent]) -> u64
    ensures { result ≡ tracks_owned geometry extents.now }
{
    let mut tracks: u64 = 0;
    for extent in extents {
        tracks = tracks.saturating_add(tracks_in(geometry, *extent));
    }
    tracks
}

// How many tracks of an extent are its data set's.
fn tracks_in(geometry: Geometry, extent: Extent) -> u64
    ensures { result ≡ tracks_in geometry extent }
{
    if extent.kind == USER_LABELS || !is_on(geometry, extent) {
        return 0;
    }
    u64::from(tracks_of_extent(geometry.model.heads() as u8, extent))
}

/// How many tracks of a data set are used, by the address of its last block.
pub fn tracks_used(last: RelativeAddress) -> u32
    ensures { result ≡ tracks_used last }
{
    if last.track == 0 && last.number == 0 {
        return 0;
    }
    u32::from(last.track) + 1
}

/// How many tracks the control blocks say are free.
///
/// # Errors
///
/// There is no memory for them.
pub fn tracks_free(alloc: Global, geometry: Geometry, blocks: &[Block]) -> Result<u64, AllocError>
    ensures { IfOk result (λ tracks. tracks ≡ tracks_free geometry blocks.now) }
{
    let free = free_tracks(alloc, blocks)?;
    Ok(tracks_of_pieces(geometry, free.pieces.as_slice()))
}

// How many tracks some pieces of free tracks have.
fn tracks_of_pieces(geometry: Geometry, pieces: &[FreeTracks]) -> u64
    ensures { result ≡ min (sum_by (number_of_free geometry) pieces.now) (2 ^ 64 - 1) }
{
    let mut tracks: u64 = 0;
    for piece in pieces {
        tracks = tracks.saturating_add(u64::from(number_of_free(geometry, *piece)));
    }
    tracks
}

/// How many tracks a piece of free tracks has.
pub(crate) fn number_of_free(geometry: Geometry, piece: FreeTracks) -> u32
    ensures value { result ≡ number_of_free geometry piece }
    ensures few { result < 16777216 }
{
    piece.cylinders as u32 * geometry.model.heads() as u32 + piece.tracks as u32
}

//! Runs of free tracks in a block of format 5.

ghost use Rattle.std.specs.Prelude.{◌≡◌, ◌≤◌, ◌+◌};
ghost use Rattle.ckd_track.specs.Geometry.{tracks_of};
ghost use Rattle.new_labels.specs.FreeSpace.{run_of, run_bytes};

use ckd_track::Geometry;
use volume_labels::FreeTracks;

/// So many tracks from one on as a run, on a volume whose tracks have numbers of two bytes; zeros where there are none.
pub fn run_of(geometry: Geometry, first: u32, tracks: u32) -> FreeTracks
    requires within { first + tracks ≤ tracks_of geometry }
    requires near { tracks_of geometry ≤ 65536 }
    ensures { result ≡ run_of geometry first tracks }
{
    if tracks == 0 {
        return FreeTracks {
            first: 0,
            cylinders: 0,
            tracks: 0,
        };
    }
    let heads = u32::from(geometry.model.heads());
    FreeTracks {
        first: first as u16,
        cylinders: (tracks / heads) as u16,
        tracks: (tracks % heads) as u8,
    }
}

/// A run in its five bytes.
pub fn run_bytes(run: FreeTracks) -> [u8; 5]
    ensures { result ≡ run_bytes run }
{
    let [f0, f1] = run.first.to_be_bytes();
    let [c0, c1] = run.cylinders.to_be_bytes();
    [f0, f1, c0, c1, run.tracks]
}

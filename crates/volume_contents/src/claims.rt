//! Which tracks of a volume are some extent's.

ghost use Rattle.std.specs.Prelude.{◌≡◌, ◌≤◌, ◌<◌, ◌+◌, ◌-◌, ◌^◌, ◌++◌, true, length, take, drop, replicate, IfSome};
ghost use Rattle.std.specs.List.{position};
ghost use Rattle.ckd_track.specs.Geometry.{tracks_of};
ghost use Rattle.ckd_track.specs.Model.{heads_of};
ghost use Rattle.volume_labels.specs.Addresses.{number_of_track, is_split};
ghost use Rattle.volume_contents.specs.Runs.{is_on};
ghost use Rattle.volume_contents.specs.Claims.{is_taken, first_taken, claimed, claim_of, claimed_by, run_of, run_on, split_claimed, tracks_claimed};

use crate::findings::Problem;
use crate::runs::{Run, exists_on, is_run, number_of};
use ckd_track::Geometry;
use volume_labels::{Extent, TrackAddress, is_split};

// Whether a track is some extent's.
fn is_taken(mark: u8) -> bool
    ensures { result ≡ is_taken mark }
{
    mark != 0
}

// The first of these marks that says a track is taken.
fn first_taken(marks: &[u8]) -> Option<usize>
    ensures first { result ≡ position is_taken marks.now }
    ensures within { IfSome result (λ i. i < length marks.now) }
{
    marks.iter().position(
        |mark: &u8| -> bool
            ensures { result ≡ is_taken mark.now }
        { is_taken(*mark) },
    )
}

// Marks so many tracks from one on.
fn mark(marks: &mut [u8], first: usize, behind: usize)
    requires order { first ≤ behind }
    requires within { behind ≤ length marks.old }
    ensures { marks.new ≡ take first marks.old ++ (replicate (behind - first) 1 ++ drop behind marks.old) }
{
    marks[first..behind].fill(1);
}

/// Marks the tracks of a run up to the first one that is some extent's already, whose number it answers.
pub(crate) fn claim(marks: &mut [u8], run: Run) -> Option<u32>
    requires within { run.first + run.tracks ≤ length marks.old }
    requires few { length marks.old < 2 ^ 32 }
    ensures taken { result ≡ first_taken marks.old run }
    ensures marks { marks.new ≡ claimed marks.old run }
    ensures size { length marks.new ≡ length marks.old }
{
    let first = run.first as usize;
    let tracks = run.tracks as usize;
    match first_taken(&marks[first..first + tracks]) {
        None => {
            mark(marks, first, first + tracks);
            None
        }
        Some(i) => {
            mark(marks, first, first + i);
            Some(run.first + i as u32)
        }
    }
}

// The tracks of an extent that is no split one, which are all on the volume.
fn run_of(geometry: Geometry, extent: Extent) -> Run
    requires { number_of_track (heads_of geometry.model) extent.first ≤ number_of_track (heads_of geometry.model) extent.last }
    ensures { result ≡ run_of geometry extent }
{
    let first = number_of(geometry, extent.first);
    Run {
        first,
        tracks: number_of(geometry, extent.last) + 1 - first,
    }
}

// The tracks of a split extent on the cylinder that is so many behind its first, which are all on the volume.
fn run_on(geometry: Geometry, extent: Extent, k: u16) -> Run
    requires cylinder { extent.first.cylinder + k < geometry.cylinders }
    requires heads { extent.first.head ≤ extent.last.head }
    requires last { extent.last.head < heads_of geometry.model }
    ensures value { result ≡ run_on geometry extent k }
    ensures exist { result.first + result.tracks ≤ tracks_of geometry }
{
    let track = TrackAddress {
        cylinder: extent.first.cylinder + k,
        head: extent.first.head,
    };
    Run {
        first: number_of(geometry, track),
        tracks: extent.last.head as u32 + 1 - extent.first.head as u32,
    }
}

// Marks the tracks of a split extent, cylinder by cylinder, up to the first one that is some extent's already, whose number it
// answers.
fn claim_split(marks: &mut [u8], geometry: Geometry, extent: Extent) -> Option<u32>
    requires size { length marks.old ≡ tracks_of geometry }
    requires shares { is_split extent ≡ true }
    requires is_on { is_on geometry extent ≡ true }
    ensures taken { result ≡ (split_claimed geometry extent marks.old).taken }
    ensures marks { marks.new ≡ (split_claimed geometry extent marks.old).marks }
    ensures size { length marks.new ≡ length marks.old }
{
    for k in 0..extent.last.cylinder + 1 - extent.first.cylinder {
        match claim(marks, run_on(geometry, extent, k)) {
            Some(track) => return Some(track),
            None => {}
        }
    }
    None
}

// Marks the tracks of an extent up to the first one that is some extent's already, whose number it answers.
#[tactic(auto, using(volume_labels::proofs::Orders::numbers_in_order))]
fn claim_tracks(marks: &mut [u8], geometry: Geometry, extent: Extent) -> Option<u32>
    requires size { length marks.old ≡ tracks_of geometry }
    requires is_on { is_on geometry extent ≡ true }
    ensures taken { result ≡ (tracks_claimed geometry extent marks.old).taken }
    ensures marks { marks.new ≡ (tracks_claimed geometry extent marks.old).marks }
    ensures size { length marks.new ≡ length marks.old }
{
    if is_split(extent) {
        return claim_split(marks, geometry, extent);
    }
    claim(marks, run_of(geometry, extent))
}

/// Marks the tracks of an extent as its own, and says what is wrong with it. Extents that share cylinders have on each of them their
/// own heads.
pub(crate) fn claim_extent(marks: &mut [u8], geometry: Geometry, extent: Extent) -> Option<Problem>
    requires { length marks.old ≡ tracks_of geometry }
    ensures problem { result ≡ claim_of geometry marks.old extent }
    ensures marks { marks.new ≡ claimed_by geometry marks.old extent }
    ensures size { length marks.new ≡ length marks.old }
{
    if !is_run(geometry, extent) {
        return Some(Problem::BadExtent(extent));
    }
    if !exists_on(geometry, extent.first) || !exists_on(geometry, extent.last) {
        return Some(Problem::ExtentOutside(extent));
    }
    match claim_tracks(marks, geometry, extent) {
        None => None,
        Some(track) => Some(Problem::Overlap(extent, track)),
    }
}

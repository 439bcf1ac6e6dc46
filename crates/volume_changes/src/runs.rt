//! The tracks that are free behind a deletion, and the runs of them.

ghost use Rattle.std.specs.Prelude.{◌≡◌, ◌≤◌, ◌<◌, ◌+◌, ◌++◌, ◌∷◌, [], true, length, drop, IfOk};
ghost use Rattle.std.specs.List.{position, list_any};
ghost use Rattle.ckd_track.specs.Geometry.{tracks_of};
ghost use Rattle.volume_contents.specs.Sets.{number_of_free};
ghost use Rattle.volume_changes.specs.Runs.{has_free, is_said_free, mark_of, marks_of, is_unmarked, begins_run, marked_first, run_from, runs_of};

use ckd_track::Geometry;
use new_labels::{is_taken, run_of};
use std::alloc::{AllocError, Global};
use volume_labels::{Extent, FreeTracks};

// How many tracks a piece has.
fn number_of_free(geometry: Geometry, piece: FreeTracks) -> u32
    ensures { result ≡ number_of_free geometry piece }
{
    u32::from(piece.cylinders) * u32::from(geometry.model.heads()) + u32::from(piece.tracks)
}

// Whether a piece of free tracks has a track of the volume.
fn has_free(geometry: Geometry, track: u32, piece: FreeTracks) -> bool
    ensures { result ≡ has_free geometry track piece }
{
    let first = u32::from(piece.first);
    first <= track && track < first + number_of_free(geometry, piece)
}

/// Whether one of the pieces has it.
pub(crate) fn is_said_free(geometry: Geometry, pieces: &[FreeTracks], track: u32) -> bool
    ensures { result ≡ is_said_free geometry pieces.now track }
{
    pieces.iter().any(
        |piece: &FreeTracks| -> bool
            ensures { result ≡ has_free geometry track piece.now }
        { has_free(geometry, track, *piece) },
    )
}

// The mark of a track: 1 where it was said to be free or is one of the extents, else 0.
fn mark_of(geometry: Geometry, pieces: &[FreeTracks], extents: &[Extent], track: u32) -> u8
    ensures { result ≡ mark_of geometry pieces.now extents.now track }
{
    if is_said_free(geometry, pieces, track) || is_taken(geometry, extents, track) {
        1
    } else {
        0
    }
}

/// A mark for each track of the volume: 1 where one of the pieces or of the extents has it, else 0.
///
/// # Errors
///
/// There is no memory for them.
#[tactic(auto, using(dasd_volumes::proofs::Appended::of_none, dasd_volumes::proofs::Appended::of_one_more))]
pub(crate) fn marks_of(
    alloc: Global,
    geometry: Geometry,
    pieces: &[FreeTracks],
    extents: &[Extent],
) -> Result<Vec<u8>, AllocError>
    ensures marks { IfOk result (λ marks. marks.items ≡ marks_of geometry pieces.now extents.now) }
    ensures all { IfOk result (λ marks. length marks.items ≡ tracks_of geometry) }
{
    let mut marks = Vec::new(alloc);
    for track in 0..geometry.tracks() {
        push(&mut marks, mark_of(geometry, pieces, extents, track))?;
    }
    Ok(marks)
}

/// One mark more.
pub(crate) fn push(marks: &mut Vec<u8>, mark: u8) -> Result<(), AllocError>
    ensures { IfOk result (λ _. marks.new.items ≡ marks.old.items ++ mark ∷ []) }
{
    match marks.push(mark) {
        Ok(()) => Ok(()),
        Err(_) => Err(AllocError),
    }
}

// Whether a run of marked tracks begins with one.
fn begins_run(marks: &[u8], track: usize) -> bool
    requires { track < length marks.now }
    ensures { result ≡ begins_run marks.now track }
{
    if marks[track] == 0 {
        return false;
    }
    track == 0 || marks[track - 1] == 0
}

// The first mark that is 0.
fn first_unmarked(marks: &[u8]) -> Option<usize>
    ensures { result ≡ position is_unmarked marks.now }
{
    marks.iter().position(
        |mark: &u8| -> bool
            ensures { result ≡ is_unmarked mark.now }
        { *mark == 0 },
    )
}

// How many marks stand before the first 0.
fn marked_first(marks: &[u8]) -> usize
    ensures length { result ≡ marked_first marks.now }
    ensures within { result ≤ length marks.now }
{
    match first_unmarked(marks) {
        Some(i) => i,
        None => marks.len(),
    }
}

/// The runs of marked tracks, each as long as it can be, in the order of their tracks, of a volume whose tracks have numbers of two bytes.
///
/// # Errors
///
/// There is no memory for them.
#[tactic(auto, using(dasd_volumes::proofs::Appended::of_none, dasd_volumes::proofs::Appended::of_one_more))]
pub(crate) fn runs_of(
    alloc: Global,
    geometry: Geometry,
    marks: &[u8],
) -> Result<Vec<FreeTracks>, AllocError>
    requires all { length marks.now ≡ tracks_of geometry }
    requires near { tracks_of geometry ≤ 65536 }
    ensures { IfOk result (λ runs. runs.items ≡ runs_of geometry marks.now) }
{
    let mut runs = Vec::new(alloc);
    for track in 0..marks.len() {
        push_run(&mut runs, geometry, marks, track)?;
    }
    Ok(runs)
}

// The run that begins with a track, if one does.
fn push_run(
    runs: &mut Vec<FreeTracks>,
    geometry: Geometry,
    marks: &[u8],
    track: usize,
) -> Result<(), AllocError>
    requires all { length marks.now ≡ tracks_of geometry }
    requires near { tracks_of geometry ≤ 65536 }
    requires there { track < length marks.now }
    ensures { IfOk result (λ _. runs.new.items ≡ runs.old.items ++ run_from geometry marks.now track) }
{
    if !begins_run(marks, track) {
        return Ok(());
    }
    let run = run_of(geometry, track as u32, marked_first(&marks[track..]) as u32);
    match runs.push(run) {
        Ok(()) => Ok(()),
        Err(_) => Err(AllocError),
    }
}

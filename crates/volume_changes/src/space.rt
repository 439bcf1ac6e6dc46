//! Tracks that can be given to a data set, as far as the control blocks of a volume say it, and those that are left when some are given.

ghost use Rattle.std.specs.Prelude.{◌≡◌, ◌≤◌, ◌<◌, ◌+◌, ◌^◌, ◌∷◌, [], length, true, IfOk};
ghost use Rattle.ckd_track.specs.Geometry.{tracks_of};
ghost use Rattle.volume_changes.specs.Space.{keeps, next_alternate, alternates_left, is_among, is_open_by, mark_by, marks_by, open_marks, mark_left, marks_left, saying, taking};
ghost use Rattle.volume_contents.specs.Sets.{pieces_behind};
ghost use Rattle.volume_changes.specs.Runs.{runs_of};
ghost use Rattle.volume_changes.specs.Space.{taken_of, IsTaken};

use crate::free_blocks::{RUNS, changes_of};
use crate::plans::{NEAR_TRACKS, free_blocks, keeps_free};
use crate::runs::{is_said_free, push, runs_of};
use crate::{BlockChange, ChangeRefusal, PlanFault};
use ckd_track::Geometry;
use std::alloc::{AllocError, Global};
use volume_contents::{Block, find_block, free_tracks};
use volume_labels::{FreeTracks, RecordAddress};

// Whether free tracks are kept on a volume whose format 4 block stands there.
fn keeps(alloc: Global, contents: RecordAddress, blocks: &[Block]) -> Result<bool, AllocError>
    ensures { IfOk result (λ kept. kept ≡ keeps contents blocks.now) }
{
    match find_block(blocks, contents) {
        Some(i) => keeps_free(alloc, &blocks[i], blocks),
        None => Ok(false),
    }
}

// The first of the alternate tracks that are left, and how many they are.
fn alternates(geometry: Geometry, contents: RecordAddress, blocks: &[Block]) -> (u32, u32)
    ensures first { result.0 ≡ next_alternate geometry contents blocks.now }
    ensures left { result.1 ≡ alternates_left contents blocks.now }
    ensures few { result.0 + result.1 < 2 ^ 32 }
{
    let Some(i) = find_block(blocks, contents) else {
        return (0, 0);
    };
    let bytes = blocks[i].bytes;
    let cylinder = u16::from_be_bytes([bytes[8], bytes[9]]);
    let head = u16::from_be_bytes([bytes[10], bytes[11]]);
    let left = u16::from_be_bytes([bytes[12], bytes[13]]);
    let first = u32::from(cylinder) * u32::from(geometry.model.heads()) + u32::from(head);
    (first, u32::from(left))
}

// Whether a track is one of so many from one on.
fn is_among(tracks: (u32, u32), track: u32) -> bool
    requires { tracks.0 + tracks.1 < 2 ^ 32 }
    ensures { result ≡ is_among tracks.0 tracks.1 track }
{
    let (first, count) = tracks;
    first <= track && track < first + count
}

// The mark of a track: 1 where it is open, else 0.
fn mark_by(
    geometry: Geometry,
    kept: bool,
    pieces: &[FreeTracks],
    alternates: (u32, u32),
    track: u32,
) -> u8
    requires { alternates.0 + alternates.1 < 2 ^ 32 }
    ensures { result ≡ mark_by geometry kept pieces.now alternates.0 alternates.1 track }
{
    if (!kept || is_said_free(geometry, pieces, track)) && !is_among(alternates, track) {
        1
    } else {
        0
    }
}

// The marks of all tracks.
#[tactic(auto, using(dasd_volumes::proofs::Appended::of_none, dasd_volumes::proofs::Appended::of_one_more))]
fn marks_by(
    alloc: Global,
    geometry: Geometry,
    kept: bool,
    pieces: &[FreeTracks],
    alternates: (u32, u32),
) -> Result<Vec<u8>, AllocError>
    requires { alternates.0 + alternates.1 < 2 ^ 32 }
    ensures marks { IfOk result (λ marks. marks.items ≡ marks_by geometry kept pieces.now alternates.0 alternates.1) }
    ensures all { IfOk result (λ marks. length marks.items ≡ tracks_of geometry) }
{
    let mut marks = Vec::new(alloc);
    for track in 0..geometry.tracks() {
        let mark = mark_by(geometry, kept, pieces, alternates, track);
        push(&mut marks, mark)?;
    }
    Ok(marks)
}

/// A mark for each track of a volume whose format 4 block stands at this address: 1 where its control blocks leave the track open, else 0. Where
/// free tracks are kept in format 5, these are open; elsewhere all are. None of the alternate tracks that are left is open.
///
/// # Errors
///
/// There is no memory for them.
pub fn open_marks(
    alloc: Global,
    geometry: Geometry,
    contents: RecordAddress,
    blocks: &[Block],
) -> Result<Vec<u8>, AllocError>
    ensures marks { IfOk result (λ marks. marks.items ≡ open_marks geometry contents blocks.now) }
    ensures all { IfOk result (λ marks. length marks.items ≡ tracks_of geometry) }
{
    let kept = keeps(alloc, contents, blocks)?;
    let free = free_tracks(alloc, blocks)?;
    let left = alternates(geometry, contents, blocks);
    marks_by(alloc, geometry, kept, free.pieces.as_slice(), left)
}

// The mark of a track that is said to be free and is none of so many: 1, else 0.
fn mark_left(geometry: Geometry, pieces: &[FreeTracks], run: (u32, u32), track: u32) -> u8
    requires { run.0 + run.1 < 2 ^ 32 }
    ensures { result ≡ mark_left geometry pieces.now run.0 run.1 track }
{
    if is_said_free(geometry, pieces, track) && !is_among(run, track) {
        1
    } else {
        0
    }
}

// The marks of the tracks that are left when so many from one on are given.
#[tactic(auto, using(dasd_volumes::proofs::Appended::of_none, dasd_volumes::proofs::Appended::of_one_more))]
fn marks_left(
    alloc: Global,
    geometry: Geometry,
    pieces: &[FreeTracks],
    run: (u32, u32),
) -> Result<Vec<u8>, AllocError>
    requires { run.0 + run.1 < 2 ^ 32 }
    ensures marks { IfOk result (λ marks. marks.items ≡ marks_left geometry pieces.now run.0 run.1) }
    ensures all { IfOk result (λ marks. length marks.items ≡ tracks_of geometry) }
{
    let mut marks = Vec::new(alloc);
    for track in 0..geometry.tracks() {
        push(&mut marks, mark_left(geometry, pieces, run, track))?;
    }
    Ok(marks)
}

// The runs of them.
fn runs_left(
    alloc: Global,
    geometry: Geometry,
    blocks: &[Block],
    run: (u32, u32),
) -> Result<Vec<FreeTracks>, AllocError>
    requires few { run.0 + run.1 < 2 ^ 32 }
    requires near { tracks_of geometry ≤ 65536 }
    ensures { IfOk result (λ runs. runs.items ≡ runs_of geometry (marks_left geometry (pieces_behind blocks.now) run.0 run.1)) }
{
    let free = free_tracks(alloc, blocks)?;
    let marks = marks_left(alloc, geometry, free.pieces.as_slice(), run)?;
    runs_of(alloc, geometry, marks.as_slice())
}

// What becomes of the blocks of format 5 that are to say these runs.
fn saying(
    alloc: Global,
    links: &[Block],
    runs: &[FreeTracks],
) -> Result<Vec<BlockChange>, PlanFault>
    ensures { IsTaken result (saying links.now runs.now) }
{
    if RUNS.saturating_mul(links.len()) < runs.len() {
        return Err(PlanFault::Refused(ChangeRefusal::NoRoom));
    }
    match changes_of(alloc, links, runs, links.len()) {
        Ok(changes) => Ok(changes),
        Err(_) => Err(PlanFault::OutOfMemory),
    }
}

// The same where free tracks are kept.
fn taking(
    alloc: Global,
    geometry: Geometry,
    blocks: &[Block],
    run: (u32, u32),
) -> Result<Vec<BlockChange>, PlanFault>
    requires { run.0 + run.1 < 2 ^ 32 }
    ensures { IsTaken result (taking geometry true blocks.now run.0 run.1) }
{
    if geometry.tracks() > NEAR_TRACKS {
        return Err(PlanFault::Refused(ChangeRefusal::NoRoom));
    }
    let Ok(runs) = runs_left(alloc, geometry, blocks, run) else {
        return Err(PlanFault::OutOfMemory);
    };
    match free_blocks(alloc, true, blocks) {
        Ok(links) => saying(alloc, links.as_slice(), runs.as_slice()),
        Err(_) => Err(PlanFault::OutOfMemory),
    }
}

/// What becomes of the control blocks of a volume, whose format 4 block stands at this address, where so many tracks from one on are given: the
/// first of them and their number. The blocks of format 5 say the free tracks without these; where free tracks are not kept, none changes.
///
/// # Errors
///
/// The blocks have no room for the runs of free tracks that are left; or there is no memory.
pub fn plan_taking(
    alloc: Global,
    geometry: Geometry,
    contents: RecordAddress,
    blocks: &[Block],
    run: (u32, u32),
) -> Result<Vec<BlockChange>, PlanFault>
    requires { run.0 + run.1 ≤ tracks_of geometry }
    ensures { IsTaken result (taken_of geometry contents blocks.now run.0 run.1) }
{
    let _tracks = geometry.tracks();
    match keeps(alloc, contents, blocks) {
        Ok(true) => taking(alloc, geometry, blocks, run),
        Ok(false) => Ok(Vec::new(alloc)),
        Err(_) => Err(PlanFault::OutOfMemory),
    }
}

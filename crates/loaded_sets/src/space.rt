//! The tracks of a volume that can be given to a data set.

ghost use Rattle.std.specs.Prelude.{◌≡◌, ◌≤◌, ◌<◌, ◌+◌, ◌++◌, ◌∷◌, [], length, Ok, IfOk, OnOk, IfErr};
ghost use Rattle.ckd_track.specs.Geometry.{tracks_of};
ghost use Rattle.ckd_track.specs.Track.{track_of};
ghost use Rattle.volume_changes.specs.Space.{open_marks, taken_of};
ghost use Rattle.changed_volumes.specs.Changes.{IsSameImage};
ghost use Rattle.loaded_sets.specs.Volumes.{labelled};
ghost use Rattle.loaded_sets.specs.Space.{plain_mark, mark_in, marks_in};
ghost use Rattle.loaded_sets.specs.PlacedParts.{IsHinderedBy, IsUntaken};

use crate::place_fault::{NO_MEMORY, NO_SLOT, PlaceFault, PlaceRefusal, refused};
use crate::plans::Run;
use crate::volumes::SoundVolume;
use ckd_image::{Image, StoreFault};
use ckd_track::read_slot;
use dasd_files::VolumeFile;
use std::alloc::Global;
use volume_changes::{BlockChange, PlanFault, open_marks, plan_taking};

// The mark of the track in a slot: 1 where it can be read and its home address has no flag, else 0.
fn plain_mark(slot: &[u8]) -> u8
    ensures { result ≡ plain_mark (track_of slot.now) }
{
    match read_slot(slot) {
        Ok(view) => u8::from(view.ha()[0] % 4 == 0),
        Err(_) => 0,
    }
}

// The same of a track that has a mark already; 0 where that is 0. The slot is one of the image.
fn mark_in(
    image: &mut Image<VolumeFile>,
    slot: &mut [u8],
    marks: &[u8],
    track: u32,
) -> Result<u8, PlaceFault>
    requires size { length slot.old ≡ image.old.geometry.track_size }
    requires there { track < tracks_of image.old.geometry }
    requires marks { length marks.now ≡ tracks_of image.old.geometry }
    ensures same { IsSameImage image.old image.new }
    ensures kept { image.new.slots ≡ image.old.slots }
    ensures mark { IfOk result (λ mark. mark ≡ mark_in marks.now image.old.slots track) }
    ensures fault { IfErr result IsHinderedBy }
    ensures size { length slot.new ≡ length slot.old }
{
    let _geometry = image.geometry();
    if marks[track as usize] == 0 {
        return Ok(0);
    }
    if image.load(track, slot).is_err() {
        return Err(NO_SLOT);
    }
    Ok(plain_mark(slot))
}

// One mark more.
fn push(marks: &mut Vec<u8>, mark: u8) -> Result<(), PlaceFault>
    ensures marks { OnOk result (marks.new.items ≡ marks.old.items ++ mark ∷ []) }
    ensures fault { IfErr result IsHinderedBy }
{
    match marks.push(mark) {
        Ok(()) => Ok(()),
        Err(_) => Err(NO_MEMORY),
    }
}

// Those of all tracks.
#[tactic(auto, using(dasd_volumes::proofs::Appended::of_none, dasd_volumes::proofs::Appended::of_one_more))]
fn marks_in(
    alloc: Global,
    image: &mut Image<VolumeFile>,
    slot: &mut [u8],
    marks: &[u8],
) -> Result<Vec<u8>, PlaceFault>
    requires size { length slot.old ≡ image.old.geometry.track_size }
    requires marks { length marks.now ≡ tracks_of image.old.geometry }
    ensures same { IsSameImage image.old image.new }
    ensures kept { image.new.slots ≡ image.old.slots }
    ensures marks { IfOk result (λ all. all.items ≡ marks_in marks.now image.old.slots (tracks_of image.old.geometry)) }
    ensures all { IfOk result (λ all. length all.items ≡ tracks_of image.old.geometry) }
    ensures fault { IfErr result IsHinderedBy }
    ensures size { length slot.new ≡ length slot.old }
{
    let mut all = Vec::new(alloc);
    for track in 0..image.geometry().tracks() {
        let mark = mark_in(image, slot, marks, track)?;
        push(&mut all, mark)?;
    }
    Ok(all)
}

/// A mark for each track of a volume: 1 where it can be given to a data set if no extent has it, else 0. The slot is one of the image.
///
/// # Errors
///
/// There is no memory, or a slot in memory is not read.
pub(crate) fn track_marks(
    alloc: Global,
    image: &mut Image<VolumeFile>,
    slot: &mut [u8],
    volume: &SoundVolume,
) -> Result<Vec<u8>, PlaceFault>
    requires geometry { volume.now.geometry ≡ image.old.geometry }
    requires size { length slot.old ≡ image.old.geometry.track_size }
    ensures same { IsSameImage image.old image.new }
    ensures kept { image.new.slots ≡ image.old.slots }
    ensures marks { IfOk result (λ all. all.items
        ≡ marks_in (open_marks volume.now.geometry volume.now.label.contents volume.now.blocks.now) image.old.slots (tracks_of volume.now.geometry)) }
    ensures all { IfOk result (λ all. length all.items ≡ tracks_of volume.now.geometry) }
    ensures fault { IfErr result IsHinderedBy }
    ensures size { length slot.new ≡ length slot.old }
{
    let contents = volume.label.contents;
    let Ok(marks) = open_marks(alloc, volume.geometry, contents, volume.blocks) else {
        return Err(NO_MEMORY);
    };
    marks_in(alloc, image, slot, marks.as_slice())
}

/// What becomes of the blocks of format 5 of a volume where these tracks are given.
///
/// # Errors
///
/// They have no room for the runs of free tracks that are left; or there is no memory.
pub(crate) fn take(
    alloc: Global,
    volume: &SoundVolume,
    run: Run,
) -> Result<Vec<BlockChange>, PlaceFault>
    requires { run.first + run.tracks ≤ tracks_of volume.now.geometry }
    ensures taken { IfOk result (λ changes. taken_of volume.now.geometry volume.now.label.contents volume.now.blocks.now run.first run.tracks
        ≡ Ok changes.items) }
    ensures fault { IfErr result (λ e. IsUntaken e (labelled volume.now) run.first run.tracks) }
{
    let tracks = (run.first, run.tracks);
    match plan_taking(
        alloc,
        volume.geometry,
        volume.label.contents,
        volume.blocks,
        tracks,
    ) {
        Ok(changes) => Ok(changes),
        Err(PlanFault::Refused(refusal)) => Err(refused(PlaceRefusal::Volume(refusal))),
        Err(PlanFault::OutOfMemory) => Err(NO_MEMORY),
    }
}

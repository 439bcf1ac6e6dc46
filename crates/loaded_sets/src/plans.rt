//! Where a data set goes on a volume, and what its control block says.

ghost use Rattle.std.specs.Prelude.{◌≡◌, ◌≤◌, ◌+◌, length, IfOk, IfErr};
ghost use Rattle.ckd_track.specs.Geometry.{tracks_of};
ghost use Rattle.changed_volumes.specs.Changes.{IsSameImage};
ghost use Rattle.loaded_sets.specs.Volumes.{labelled};
ghost use Rattle.loaded_sets.specs.Sets.{CanBePlaced, HasRoom, GetsTracks, IsNewSet};
ghost use Rattle.new_labels.specs.Extents.{HasRun};
ghost use Rattle.loaded_sets.specs.PlacedParts.{IsPlaced, IsUnplaced};

use crate::place_fault::{PlaceFault, PlaceRefusal, refused};
use crate::space::{take, track_marks};
use crate::volumes::{SoundVolume, taken_extents};
use ckd_image::Image;
use ckd_track::DriveModel;
use dasd_files::VolumeFile;
use new_labels::{KeptFields, NewDataSet, extent_of_run, free_run};
use record_tracks::{LastPlace, NewRecord, last_place, tracks_needed};
use std::alloc::Global;
use volume_changes::BlockChange;
use volume_labels::{Date, RelativeAddress};

/// The most tracks of a data set: their numbers have two bytes.
const MOST_TRACKS: u64 = 65_536;

/// What the label of a new data set says of its records, and its days.
#[derive(Clone, Copy)]
pub struct SetLabel {
    /// Its organisation, as bits.
    pub organisation: u16,
    /// Its record format, as bits.
    pub format: u8,
    /// The length of its blocks, in bytes.
    pub block_length: u16,
    /// The length of its records, in bytes; 0 where that is undefined.
    pub record_length: u16,
    /// The length of its keys, in bytes.
    pub key_length: u8,
    /// When it was made.
    pub created: Date,
    /// When it may be scratched.
    pub expires: Date,
    /// How many tracks it gets at least; it gets more where its records take more.
    pub tracks: u64,
    /// What else its label says.
    pub kept: KeptFields,
}

/// A data set that is put onto a volume.
#[derive(Clone, Copy)]
pub struct PlacedSet<'a> {
    /// Its name, in EBCDIC, with blanks behind it.
    pub name: [u8; 44],
    /// What its label says.
    pub label: SetLabel,
    /// Its records, in their order, with their ends of file.
    pub records: &'a [NewRecord<'a>],
    /// How many of them there are up to that which its label calls the last one.
    pub last: usize,
}

/// Tracks that stand one behind another.
#[derive(Clone, Copy)]
pub(crate) struct Run {
    /// The number of the first on the volume.
    pub(crate) first: u32,
    /// How many they are.
    pub(crate) tracks: u32,
}

/// Where a data set goes on a volume, and what its control block says.
#[derive(Drop)]
pub(crate) struct Placed {
    /// Its tracks.
    pub(crate) run: Run,
    /// What becomes of the blocks of format 5.
    pub(crate) changes: Vec<BlockChange>,
    /// What its format 1 block says.
    pub(crate) block: NewDataSet,
}

/// Where a data set goes on a volume with nothing wrong, and what its control block says. The slot is one of the image.
///
/// # Errors
///
/// The volume has no room for it, or there is no memory.
pub(crate) fn place_set(
    alloc: Global,
    image: &mut Image<VolumeFile>,
    slot: &mut [u8],
    volume: &SoundVolume,
    set: &PlacedSet,
) -> Result<Placed, PlaceFault>
    requires geometry { volume.now.geometry ≡ image.old.geometry }
    requires size { length slot.old ≡ image.old.geometry.track_size }
    requires set { CanBePlaced volume.now.geometry.model set.now }
    ensures same { IsSameImage image.old image.new }
    ensures kept { image.new.slots ≡ image.old.slots }
    ensures placed { IfOk result (IsPlaced (labelled volume.now) image.old.slots set.now) }
    ensures fault { IfErr result (λ e. IsUnplaced e (labelled volume.now) image.old.slots set.now) }
    ensures size { length slot.new ≡ length slot.old }
{
    let run = run_for(alloc, image, slot, volume, set)?;
    let changes = take(alloc, volume, run)?;
    let block = new_set(volume, set, run);
    Ok(Placed {
        run,
        changes,
        block,
    })
}

// How many tracks a data set gets.
fn tracks_for(model: DriveModel, set: &PlacedSet) -> u64
    requires { CanBePlaced model set.now }
    ensures { HasRoom model set.now result }
{
    let needed = tracks_needed(model, set.records);
    set.label.tracks.max(needed as u64)
}

// The first free tracks that have room for the records of a data set, and are as many as it gets at least.
fn run_for(
    alloc: Global,
    image: &mut Image<VolumeFile>,
    slot: &mut [u8],
    volume: &SoundVolume,
    set: &PlacedSet,
) -> Result<Run, PlaceFault>
    requires geometry { volume.now.geometry ≡ image.old.geometry }
    requires size { length slot.old ≡ image.old.geometry.track_size }
    requires set { CanBePlaced volume.now.geometry.model set.now }
    ensures same { IsSameImage image.old image.new }
    ensures kept { image.new.slots ≡ image.old.slots }
    ensures tracks { IfOk result (λ run. GetsTracks (labelled volume.now) image.old.slots set.now run.first run.tracks) }
    ensures some { IfOk result (λ run. 1 ≤ run.tracks) }
    ensures within { IfOk result (λ run. run.first + run.tracks ≤ tracks_of volume.now.geometry) }
    ensures fault { IfErr result (λ e. IsUnplaced e (labelled volume.now) image.old.slots set.now) }
    ensures size { length slot.new ≡ length slot.old }
{
    let geometry = volume.geometry;
    let asked = tracks_for(geometry.model, set);
    if asked > MOST_TRACKS {
        return Err(refused(PlaceRefusal::NoRoom));
    }
    let tracks = asked as u32;
    let extents = taken_extents(alloc, volume)?;
    let marks = track_marks(alloc, image, slot, volume)?;
    match free_run(geometry, extents.as_slice(), marks.as_slice(), tracks) {
        Some(first) => Ok(Run { first, tracks }),
        None => Err(refused(PlaceRefusal::NoRoom)),
    }
}

// What the format 1 block of a data set says whose records are on these tracks.
fn new_set(volume: &SoundVolume, set: &PlacedSet, run: Run) -> NewDataSet
    requires set { CanBePlaced volume.now.geometry.model set.now }
    requires takes { HasRoom volume.now.geometry.model set.now run.tracks }
    requires few { run.tracks ≤ 65536 }
    requires some { 1 ≤ run.tracks }
    requires within { run.first + run.tracks ≤ tracks_of volume.now.geometry }
    ensures says { IsNewSet (labelled volume.now) set.now run.first run.tracks result }
    ensures run { HasRun volume.now.geometry run.first run.tracks result.extent }
{
    let geometry = volume.geometry;
    let LastPlace {
        track,
        number,
        balance,
    } = last_place(geometry.model, set.records, set.last);
    NewDataSet {
        name: set.name,
        serial: volume.label.serial,
        created: set.label.created,
        expires: set.label.expires,
        organisation: set.label.organisation,
        format: set.label.format,
        block_length: set.label.block_length,
        record_length: set.label.record_length,
        key_length: set.label.key_length,
        last: RelativeAddress {
            track: track as u16,
            number,
        },
        balance,
        extent: extent_of_run(geometry, run.first, run.tracks),
        kept: set.label.kept,
    }
}

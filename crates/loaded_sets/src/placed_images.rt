//! An image in memory whose volume gets a data set.

ghost use Rattle.std.specs.Prelude.{◌≡◌, ◌≤◌, ◌<◌, ◌+◌, length, drop, slice_set, All, IfOk, OnOk, IfErr};
ghost use Rattle.ckd_track.specs.Geometry.{tracks_of};
ghost use Rattle.record_tracks.specs.Records.{all_areas, RecordGoesOn};
ghost use Rattle.record_tracks.specs.Tracks.{fitting_on, loaded_slot};
ghost use Rattle.changed_volumes.specs.Changes.{IsSameImage};
ghost use Rattle.loaded_sets.specs.Volumes.{labelled};
ghost use Rattle.loaded_sets.specs.Sets.{CanBePlaced};
ghost use Rattle.loaded_sets.specs.Placed.{HasAreas, GetsSet, IsNotPlaced};
ghost use Rattle.loaded_sets.specs.PlacedParts.{IsPlaced, IsWritten, IsUnlisted};

use crate::confirms::confirm;
use crate::place_fault::{NO_MEMORY, NO_SLOT, PlaceFault};
use crate::plans::{Placed, PlacedSet, Run, place_set};
use crate::tables::write_table;
use crate::volumes::SoundVolume;
use ckd_image::{Image, StoreFault};
use dasd_files::VolumeFile;
use dasd_jobs::JobFault;
use new_labels::data_set_data;
use record_tracks::{NewRecord, load_track};
use std::alloc::Global;
use volume_labels::RecordAddress;

/// Puts a data set onto the volume of an image in memory, which says this of itself, and answers how many tracks it has. Its tracks are the first
/// ones free that have room for it, one behind another.
///
/// # Errors
///
/// The volume does not get it, or there is no memory: the image then holds any bytes in the slots of those tracks and of the table of
/// contents.
pub fn place_records(
    alloc: Global,
    image: &mut Image<VolumeFile>,
    volume: &SoundVolume,
    set: &PlacedSet,
) -> Result<u32, PlaceFault>
    requires geometry { volume.now.geometry ≡ image.old.geometry }
    requires set { CanBePlaced volume.now.geometry.model set.now }
    ensures same { IsSameImage image.old image.new }
    ensures placed { IfOk result (λ tracks. GetsSet (labelled volume.now) set.now image.old.slots tracks image.new.slots) }
    ensures fault { IfErr result (λ e. IsNotPlaced e (labelled volume.now) set.now image.old.slots) }
{
    let Ok(mut slot) = vec![in alloc; 0u8; image.geometry().track_size as usize] else {
        return Err(NO_MEMORY);
    };
    place_with(alloc, image, slot.as_mut_slice(), volume, set)
}

// The same by this slot, which is that of a track of the image.
fn place_with(
    alloc: Global,
    image: &mut Image<VolumeFile>,
    slot: &mut [u8],
    volume: &SoundVolume,
    set: &PlacedSet,
) -> Result<u32, PlaceFault>
    requires geometry { volume.now.geometry ≡ image.old.geometry }
    requires size { length slot.old ≡ image.old.geometry.track_size }
    requires set { CanBePlaced volume.now.geometry.model set.now }
    ensures same { IsSameImage image.old image.new }
    ensures placed { IfOk result (λ tracks. GetsSet (labelled volume.now) set.now image.old.slots tracks image.new.slots) }
    ensures fault { IfErr result (λ e. IsNotPlaced e (labelled volume.now) set.now image.old.slots) }
{
    let placed = place_set(alloc, image, slot, volume, set)?;
    let address = write_set(image, slot, volume, set, &placed)?;
    match confirm(alloc, image, volume, &placed.block, address) {
        Ok(()) => Ok(placed.run.tracks),
        Err(fault) => Err(fault),
    }
}

// Writes its control block and its records, and answers where the control block stands.
fn write_set(
    image: &mut Image<VolumeFile>,
    slot: &mut [u8],
    volume: &SoundVolume,
    set: &PlacedSet,
    placed: &Placed,
) -> Result<RecordAddress, PlaceFault>
    requires geometry { volume.now.geometry ≡ image.old.geometry }
    requires size { length slot.old ≡ image.old.geometry.track_size }
    requires set { CanBePlaced volume.now.geometry.model set.now }
    requires placed { IsPlaced (labelled volume.now) image.old.slots set.now placed.now }
    ensures same { IsSameImage image.old image.new }
    ensures written { IfOk result (λ address. IsWritten (labelled volume.now) set.now placed.now image.old.slots address image.new.slots) }
    ensures fault { IfErr result (λ e. IsUnlisted e (labelled volume.now) placed.now.changes.items image.old.slots) }
{
    let bytes = data_set_data(&placed.block);
    let changes = placed.changes.as_slice();
    let address = write_table(image, slot, volume, changes, (&set.name, &bytes))?;
    write_tracks(image, slot, placed.run, set.records)?;
    Ok(address)
}

// Writes records onto tracks that have room for them.
fn write_tracks(
    image: &mut Image<VolumeFile>,
    slot: &mut [u8],
    run: Run,
    records: &[NewRecord],
) -> Result<(), PlaceFault>
    requires size { length slot.old ≡ image.old.geometry.track_size }
    requires each { All (RecordGoesOn image.old.geometry.model) records.now }
    requires there { run.first + run.tracks ≤ tracks_of image.old.geometry }
    ensures same { IsSameImage image.old image.new }
    ensures areas { OnOk result (HasAreas image.old.geometry (all_areas records.now) run.first run.tracks image.old.slots image.new.slots) }
    ensures fault { IfErr result (λ e. e ≡ PlaceFault.Job JobFault.Store) }
{
    let _geometry = image.geometry();
    let mut next = 0;
    for i in 0..run.tracks {
        next = write_track(image, slot, run.first + i, records, next)?;
    }
    Ok(())
}

// Writes those of them that go on one of the tracks, from a record on, and answers which the next one begins with.
fn write_track(
    image: &mut Image<VolumeFile>,
    slot: &mut [u8],
    track: u32,
    records: &[NewRecord],
    from: usize,
) -> Result<usize, PlaceFault>
    requires size { length slot.old ≡ image.old.geometry.track_size }
    requires each { All (RecordGoesOn image.old.geometry.model) records.now }
    requires there { track < tracks_of image.old.geometry }
    requires number { from ≤ length records.now }
    ensures same { IsSameImage image.old image.new }
    ensures slots { OnOk result (image.new.slots
        ≡ slice_set image.old.slots track (loaded_slot image.old.geometry track (drop from (all_areas records.now)))) }
    ensures next { IfOk result (λ next. next ≡ from + fitting_on image.old.geometry.model (drop from (all_areas records.now))) }
    ensures within { IfOk result (λ next. next ≤ length records.now) }
    ensures fault { IfErr result (λ e. e ≡ PlaceFault.Job JobFault.Store) }
    ensures size { length slot.new ≡ length slot.old }
{
    let next = load_track(slot, image.geometry(), track, records, from);
    match image.save(track, slot) {
        Ok(()) => Ok(next),
        Err(_) => Err(NO_SLOT),
    }
}

//! The table of contents of a volume that gets a data set.

ghost use Rattle.std.specs.Prelude.{◌≡◌, ◌≤◌, ◌<◌, ◌+◌, ◌++◌, min, length, slice_index, Some, IfOk, OnOk, IfErr};
ghost use Rattle.ckd_track.specs.Geometry.{tracks_of};
ghost use Rattle.ckd_track.specs.Track.{track_in, record_in};
ghost use Rattle.volume_contents.specs.Contents.{slot_at};
ghost use Rattle.volume_contents.specs.Runs.{number, address_of_number};
ghost use Rattle.volume_changes.specs.Blocks.{changed};
ghost use Rattle.volume_changes.specs.Volumes.{changed_maybe};
ghost use Rattle.volume_changes.specs.Deletions.{all_changed};
ghost use Rattle.new_labels.specs.Tables.{IsFreePlace};
ghost use Rattle.changed_volumes.specs.Changes.{IsSameImage};
ghost use Rattle.loaded_sets.specs.Tables.{StaysOutside, IsFirstFree, WritesBlock, is_behind, last_of, count_change};
ghost use Rattle.loaded_sets.specs.Volumes.{labelled};
ghost use Rattle.loaded_sets.specs.PlacedParts.{Fills, IsLeftOut, IsOneLeftOut, IsUnlisted, IsUnfound};

use crate::place_fault::{NO_SLOT, PlaceFault, PlaceRefusal, refused};
use crate::volumes::SoundVolume;
use changed_volumes::write_change;
use ckd_image::{Image, StoreFault};
use ckd_track::{Geometry, read_slot};
use dasd_files::VolumeFile;
use new_labels::{fill_block, free_block, updated_contents};
use volume_changes::BlockChange;
use volume_contents::find_block;
use volume_labels::{Extent, RecordAddress, TrackAddress};

/// Writes the format 1 block of a data set into the first free block of a table of contents, counts it in the block of format 4, and writes
/// these changes of the blocks of format 5. It answers where the block stands.
///
/// # Errors
///
/// There is no free block; a block that would change stands on no track of the table; or a slot in memory can't be read or written.
pub(crate) fn write_table(
    image: &mut Image<VolumeFile>,
    slot: &mut [u8],
    volume: &SoundVolume,
    changes: &[BlockChange],
    block: (&[u8; 44], &[u8; 96]),
) -> Result<RecordAddress, PlaceFault>
    requires geometry { volume.now.geometry ≡ image.old.geometry }
    requires size { length slot.old ≡ image.old.geometry.track_size }
    ensures same { IsSameImage image.old image.new }
    ensures writes { IfOk result (λ address. WritesBlock (labelled volume.now) changes.now
        (block.entry.0.now ++ block.entry.1.now) image.old.slots address image.new.slots) }
    ensures fault { IfErr result (λ e. IsUnlisted e (labelled volume.now) changes.now image.old.slots) }
    ensures size { length slot.new ≡ length slot.old }
{
    let extent = volume.table.extent;
    let address = fill_free_block(image, slot, extent, block)?;
    write_block(image, slot, extent, count_change(volume, address))?;
    write_blocks(image, slot, extent, changes)?;
    Ok(address)
}

// Writes a control block into the first free one of a table of contents, and answers where that stands.
fn fill_free_block(
    image: &mut Image<VolumeFile>,
    slot: &mut [u8],
    extent: Extent,
    block: (&[u8; 44], &[u8; 96]),
) -> Result<RecordAddress, PlaceFault>
    requires size { length slot.old ≡ image.old.geometry.track_size }
    ensures same { IsSameImage image.old image.new }
    ensures fills { IfOk result (λ address. Fills image.old.geometry extent (block.entry.0.now ++ block.entry.1.now)
        image.old.slots address image.new.slots) }
    ensures fault { IfErr result (λ e. IsUnfound e image.old.geometry extent image.old.slots) }
    ensures size { length slot.new ≡ length slot.old }
{
    let geometry = image.geometry();
    let (track, place) = find_free(image, slot, extent)?;
    let number = number_of(slot, place);
    let (key, bytes) = block;
    fill_block(slot, place, key, bytes);
    if image.save(track, slot).is_err() {
        return Err(NO_SLOT);
    }
    let track = address_of(geometry, track);
    Ok(RecordAddress { track, number })
}

// On which track of a table of contents the first free block stands, and as which record. The slot is that of the track.
fn find_free(
    image: &mut Image<VolumeFile>,
    slot: &mut [u8],
    extent: Extent,
) -> Result<(u32, usize), PlaceFault>
    requires size { length slot.old ≡ image.old.geometry.track_size }
    ensures same { IsSameImage image.old image.new }
    ensures kept { image.new.slots ≡ image.old.slots }
    ensures free { IfOk result (λ found. IsFirstFree image.old.geometry extent image.old.slots found.0 found.1) }
    ensures slot { IfOk result (λ found. slot.new ≡ slot_at image.old.slots found.0) }
    ensures there { IfOk result (λ found. IsFreePlace (track_in slot.new) found.1) }
    ensures fault { IfErr result (λ e. IsUnfound e image.old.geometry extent image.old.slots) }
    ensures size { length slot.new ≡ length slot.old }
{
    let (first, behind) = table_tracks(image.geometry(), extent);
    for track in first..behind {
        if image.load(track, slot).is_err() {
            return Err(NO_SLOT);
        }
        if let Some(place) = free_block(slot) {
            return Ok((track, place));
        }
    }
    Err(refused(PlaceRefusal::NoFreeBlock))
}

// The number of a track on its volume, whatever its head.
fn number_in(geometry: Geometry, track: TrackAddress) -> u32
    ensures { result ≡ number geometry track }
{
    u32::from(track.cylinder) * u32::from(geometry.model.heads()) + u32::from(track.head)
}

// The first track of an extent, and that behind the last one of it which the volume has.
fn table_tracks(geometry: Geometry, extent: Extent) -> (u32, u32)
    ensures first { result.0 ≡ number geometry extent.first }
    ensures behind { result.1 ≡ min (number geometry extent.last + 1) (tracks_of geometry) }
{
    let behind = number_in(geometry, extent.last) + 1;
    (
        number_in(geometry, extent.first),
        behind.min(geometry.tracks()),
    )
}

// Cylinder and head of a track.
fn address_of(geometry: Geometry, track: u32) -> TrackAddress
    requires { track < tracks_of geometry }
    ensures { result ≡ address_of_number geometry track }
{
    let heads = u32::from(geometry.model.heads());
    TrackAddress {
        cylinder: (track / heads) as u16,
        head: (track % heads) as u16,
    }
}

// The number of a record of the track in a slot.
fn number_of(slot: &[u8], place: usize) -> u8
    requires { place < length (track_in slot.now).records }
    ensures { result ≡ slice_index (record_in (track_in slot.now) place).id 4 }
{
    match read_slot(slot) {
        Ok(view) => view.count_of(place)[4],
        Err(_) => 0,
    }
}

/// The one of two control blocks that stands behind the other in a table of contents.
pub(crate) fn last_of(address: RecordAddress, before: RecordAddress) -> RecordAddress
    ensures { result ≡ last_of address before }
{
    if is_behind(address, before) {
        address
    } else {
        before
    }
}

// Whether a control block stands behind another one in a table of contents.
fn is_behind(address: RecordAddress, other: RecordAddress) -> bool
    ensures { result ≡ is_behind address other }
{
    let (track, before) = (address.track, other.track);
    if track.cylinder != before.cylinder {
        return track.cylinder > before.cylinder;
    }
    if track.head != before.head {
        return track.head > before.head;
    }
    address.number > other.number
}

// What becomes of the block of format 4 where a block of format 1 stands at this address.
fn count_change(volume: &SoundVolume, address: RecordAddress) -> Option<BlockChange>
    ensures { result ≡ count_change (labelled volume.now) address }
{
    let i = find_block(volume.blocks, volume.label.contents)?;
    let block = volume.blocks[i];
    let last = last_of(address, volume.table.last_data_set);
    let free = volume.table.free_blocks.saturating_sub(1);
    let key = block.key;
    let bytes = updated_contents(&block.bytes, last, free);
    Some(BlockChange { block, key, bytes })
}

// Writes control blocks in the place of others, one after another.
fn write_blocks(
    image: &mut Image<VolumeFile>,
    slot: &mut [u8],
    extent: Extent,
    changes: &[BlockChange],
) -> Result<(), PlaceFault>
    requires size { length slot.old ≡ image.old.geometry.track_size }
    ensures same { IsSameImage image.old image.new }
    ensures slots { OnOk result (image.new.slots ≡ all_changed image.old.geometry changes.now image.old.slots) }
    ensures others { OnOk result (StaysOutside image.old.geometry extent image.old.slots image.new.slots) }
    ensures fault { IfErr result (λ e. IsOneLeftOut e image.old.geometry extent changes.now) }
    ensures size { length slot.new ≡ length slot.old }
{
    for change in changes {
        write_on_table(image, slot, extent, change)?;
    }
    Ok(())
}

// Writes a control block in the place of another one, if there is one that changes.
fn write_block(
    image: &mut Image<VolumeFile>,
    slot: &mut [u8],
    extent: Extent,
    change: Option<BlockChange>,
) -> Result<(), PlaceFault>
    requires size { length slot.old ≡ image.old.geometry.track_size }
    ensures same { IsSameImage image.old image.new }
    ensures slots { OnOk result (image.new.slots ≡ changed_maybe image.old.geometry change image.old.slots) }
    ensures others { OnOk result (StaysOutside image.old.geometry extent image.old.slots image.new.slots) }
    ensures fault { IfErr result (λ e. IsLeftOut e image.old.geometry extent change) }
    ensures size { length slot.new ≡ length slot.old }
{
    match change {
        Some(change) => write_on_table(image, slot, extent, &change),
        None => Ok(()),
    }
}

// The same of one that does, and stands on a track of the table.
fn write_on_table(
    image: &mut Image<VolumeFile>,
    slot: &mut [u8],
    extent: Extent,
    change: &BlockChange,
) -> Result<(), PlaceFault>
    requires size { length slot.old ≡ image.old.geometry.track_size }
    ensures same { IsSameImage image.old image.new }
    ensures slots { OnOk result (image.new.slots ≡ changed image.old.geometry change.now image.old.slots) }
    ensures others { OnOk result (StaysOutside image.old.geometry extent image.old.slots image.new.slots) }
    ensures fault { IfErr result (λ e. IsLeftOut e image.old.geometry extent (Some change.now)) }
    ensures size { length slot.new ≡ length slot.old }
{
    let geometry = image.geometry();
    let (first, behind) = table_tracks(geometry, extent);
    let track = number_in(geometry, change.block.address.track);
    if track < first || track >= behind {
        return Err(refused(PlaceRefusal::Unconfirmed));
    }
    match write_change(image, slot, change) {
        Ok(()) => Ok(()),
        Err(_) => Err(NO_SLOT),
    }
}

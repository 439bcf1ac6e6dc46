//! The directory of a library of the volume of an image in memory: its blocks, where they are, and how they are written.

ghost use Rattle.std.specs.Prelude.{◌≡◌, ◌++◌, [], length, Ok, Err, IfOk, IfErr, OnOk};
ghost use Rattle.changed_volumes.specs.Changes.{IsSameImage, IsNotDone, IsHinderedBy};
ghost use Rattle.changed_volumes.specs.Reading.{image_of};
ghost use Rattle.member_changes.specs.Libraries.{directory_on};
ghost use Rattle.member_changes.specs.Places.{places_of_track, places_up_to, block_written, all_written};

use crate::fault::{MemberFault, NO_MEMORY, NO_SLOT};
use changed_volumes::{HeldVolume, of_reading};
use ckd_image::Image;
use counted_io::Counted;
use dasd_extract::{directory_of, extract};
use dasd_files::VolumeFile;
use member_changes::{BlockPlace, last_track, push_places, write_block};
use record_tracks::DIRECTORY_BLOCK;
use std::alloc::Global;
use volume_labels::{Extent, TrackPlace, track_of};

/// The blocks of a directory, as they are read.
#[derive(Drop)]
pub(crate) struct DirectoryBlocks {
    /// Their data, one after another, without their keys.
    pub(crate) bytes: Vec<u8>,
    /// The last of the tracks that they are on, counted from the library's first one, which is 0.
    pub(crate) last: u32,
}

/// The directory of the library with these extents on the volume of an image.
///
/// # Errors
///
/// No end of file ends its blocks, or some of them are on alternate tracks. Or there is no memory, or a slot in memory can't be read.
pub(crate) fn read_directory(
    alloc: Global,
    image: &Image<VolumeFile>,
    extents: &[Extent],
) -> Result<DirectoryBlocks, MemberFault>
    ensures read { IfOk result (λ d. directory_on extents.now image.now.geometry image.now.slots ≡ Ok (record { bytes = d.bytes.items; last = d.last })) }
    ensures refused { IfErr result (λ e. IsNotDone e (λ r. directory_on extents.now image.now.geometry image.now.slots ≡ Err r)) }
{
    match HeldVolume::of(alloc, image) {
        Ok(mut volume) => read_of(alloc, &mut volume, extents),
        Err(_) => Err(NO_MEMORY),
    }
}

// The same by a reader of the volume.
fn read_of(
    alloc: Global,
    volume: &mut HeldVolume,
    extents: &[Extent],
) -> Result<DirectoryBlocks, MemberFault>
    ensures read { IfOk result (λ d. directory_on extents.now (image_of volume.old).geometry (image_of volume.old).slots
        ≡ Ok (record { bytes = d.bytes.items; last = d.last })) }
    ensures refused { IfErr result (λ e. IsNotDone e (λ r. directory_on extents.now (image_of volume.old).geometry (image_of volume.old).slots
        ≡ Err r)) }
{
    let mut blocks = Counted::new(Vec::new(alloc));
    let stop = match extract(alloc, volume, &mut blocks, directory_of(extents)) {
        Ok(stop) => stop,
        Err(fault) => return Err(of_reading(fault)),
    };
    match last_track(stop) {
        Ok(last) => Ok(DirectoryBlocks {
            bytes: blocks.into_inner(),
            last,
        }),
        Err(refusal) => Err(MemberFault::Refused(refusal)),
    }
}

// The places of the blocks that are on a track of a library, which is loaded into the slot.
fn push_track(
    image: &mut Image<VolumeFile>,
    slot: &mut [u8],
    extents: &[Extent],
    i: u32,
    places: &mut Vec<BlockPlace>,
) -> Result<(), MemberFault>
    requires size { length slot.old ≡ image.old.geometry.track_size }
    ensures same { IsSameImage image.old image.new }
    ensures slots { image.new.slots ≡ image.old.slots }
    ensures places { OnOk result (places.new.items ≡ places.old.items ++ places_of_track extents.now image.old.geometry image.old.slots i) }
    ensures fault { IfErr result IsHinderedBy }
    ensures size { length slot.new ≡ length slot.old }
{
    let geometry = image.geometry();
    let track = match track_of(geometry.model.heads() as u8, extents, i) {
        TrackPlace::Track(track) if track < geometry.tracks() => track,
        _ => return Ok(()),
    };
    if image.load(track, slot).is_err() {
        return Err(NO_SLOT);
    }
    match push_places(places, track, slot) {
        Ok(()) => Ok(()),
        Err(_) => Err(NO_MEMORY),
    }
}

/// The places of the blocks that are on the tracks of a library up to one of them.
///
/// # Errors
///
/// There is no memory for them, or a slot in memory can't be read.
#[tactic(auto, using(dasd_volumes::proofs::Appended::of_none, dasd_volumes::proofs::Appended::of_one_more))]
pub(crate) fn find_places(
    alloc: Global,
    image: &mut Image<VolumeFile>,
    slot: &mut [u8],
    extents: &[Extent],
    last: u32,
) -> Result<Vec<BlockPlace>, MemberFault>
    requires size { length slot.old ≡ image.old.geometry.track_size }
    ensures same { IsSameImage image.old image.new }
    ensures slots { image.new.slots ≡ image.old.slots }
    ensures places { IfOk result (λ places. places.items ≡ places_up_to extents.now image.old.geometry image.old.slots last) }
    ensures fault { IfErr result IsHinderedBy }
    ensures size { length slot.new ≡ length slot.old }
{
    let mut places = Vec::new(alloc);
    for i in 0..last {
        push_track(image, slot, extents, i, &mut places)?;
    }
    push_track(image, slot, extents, last, &mut places)?;
    Ok(places)
}

// Writes a block at its place, by this slot.
fn put_block(
    image: &mut Image<VolumeFile>,
    slot: &mut [u8],
    place: BlockPlace,
    block: &[u8],
) -> Result<(), MemberFault>
    requires size { length slot.old ≡ image.old.geometry.track_size }
    requires block { length block.now ≡ 264 }
    ensures same { IsSameImage image.old image.new }
    ensures slots { OnOk result (image.new.slots ≡ block_written image.old.geometry place block.now image.old.slots) }
    ensures fault { IfErr result IsHinderedBy }
    ensures size { length slot.new ≡ length slot.old }
{
    let geometry = image.geometry();
    if place.track >= geometry.tracks() {
        return Ok(());
    }
    if image.load(place.track, slot).is_err() {
        return Err(NO_SLOT);
    }
    write_block(slot, place.number, block);
    match image.save(place.track, slot) {
        Ok(()) => Ok(()),
        Err(_) => Err(NO_SLOT),
    }
}

/// Writes blocks, one after another, at their places, as far as there are both.
///
/// # Errors
///
/// A slot in memory can't be read or written.
pub(crate) fn put_blocks(
    image: &mut Image<VolumeFile>,
    slot: &mut [u8],
    places: &[BlockPlace],
    blocks: &[u8],
) -> Result<(), MemberFault>
    requires size { length slot.old ≡ image.old.geometry.track_size }
    ensures same { IsSameImage image.old image.new }
    ensures slots { OnOk result (image.new.slots ≡ all_written image.old.geometry places.now blocks.now image.old.slots) }
    ensures fault { IfErr result IsHinderedBy }
{
    let mut left = blocks;
    for place in places {
        if left.len() < DIRECTORY_BLOCK {
            return Ok(());
        }
        let (block, more) = left.split_at(DIRECTORY_BLOCK);
        put_block(image, slot, *place, block)?;
        left = more;
    }
    Ok(())
}

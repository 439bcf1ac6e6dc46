//! A library of a volume in memory, read whole.

ghost use Rattle.std.specs.Prelude.{◌≡◌, ◌/◌, ◌≢◌, length, IfOk, IfErr, Ok};
ghost use Rattle.std.specs.List.{position};
ghost use Rattle.dasd_volumes.specs.Reading.{IsRead};
ghost use Rattle.volume_contents.specs.Sets.{has_name};
ghost use Rattle.changed_volumes.specs.Reading.{image_of};
ghost use Rattle.loaded_sets.specs.Volumes.{labelled};
ghost use Rattle.loaded_folders.specs.Libraries.{form_in, kept_in, IsReadOf, IsOld, IsNotRead};
ghost use Rattle.loaded_folders.specs.MemberParts.{IsLibrarySet, IsNoLibrary, CountsBlocks, IsNotReadIn};

use crate::added::OldLibrary;
use crate::member_fault::{
    NO_MEMORY, NewMemberFault, NewMemberRefusal, of_placing, of_reading, refused,
};
use changed_volumes::{HeldVolume, of_reading as of_volume, read_said};
use ckd_image::Image;
use ckd_track::Geometry;
use counted_io::Counted;
use dasd_extract::{directory_of, extract};
use dasd_files::VolumeFile;
use dasd_volumes::{SlotReader, VolumeFault};
use library_contents::read_library;
use loaded_sets::{KeptLabel, NewSetForm, SoundVolume, judge, position_of};
use new_labels::fields_of;
use set_forms::is_partitioned;
use std::alloc::Global;
use volume_contents::{Block, DataSet, data_set_of, tracks_owned};
use volume_labels::{DIRECTORY_BLOCK, DataSetBlock, Extent, RecordAttributes};

// What a label says that is written again.
fn form_in(block: &DataSetBlock) -> NewSetForm
    ensures { result ≡ form_in block.now }
{
    NewSetForm {
        organisation: block.organisation,
        attributes: RecordAttributes {
            format: block.format,
            record_length: block.record_length,
            block_length: block.block_length,
        },
        key_length: block.key_length,
        created: block.created,
        expires: block.expires,
    }
}

/// The library of a name on the volume of an image.
///
/// # Errors
///
/// The first of these, in this order: nothing is put onto the volume at all; it has no data set of the name; that has no directory; the
/// library is not whole. Or there is no memory.
pub(crate) fn read_old(
    alloc: Global,
    image: &Image<VolumeFile>,
    name: &[u8; 44],
) -> Result<OldLibrary, NewMemberFault>
    ensures old { IfOk result (IsOld name.now image.now.geometry image.now.slots) }
    ensures fault { IfErr result (λ e. IsNotRead e name.now image.now.geometry image.now.slots) }
{
    let geometry = image.geometry();
    let mut contents = match read_said(alloc, image) {
        Ok(contents) => contents,
        Err(fault) => return Err(fault),
    };
    let volume = match judge(alloc, geometry, &mut contents) {
        Ok(volume) => volume,
        Err(fault) => return Err(of_placing(fault)),
    };
    let set = match library_set(alloc, &volume, name) {
        Ok(set) => set,
        Err(fault) => return Err(fault),
    };
    read_held(alloc, image, &set)
}

/// The data set of a library.
#[derive(Drop)]
struct LibrarySet {
    set: DataSet,
    kept: KeptLabel,
}

// What a library keeps: how many tracks it has, and what its control block says.
fn kept_in(geometry: Geometry, block: &Block, extents: &[Extent]) -> KeptLabel
    ensures { result ≡ kept_in geometry block.now extents.now }
{
    KeptLabel {
        tracks: tracks_owned(geometry, extents),
        fields: fields_of(&block.bytes),
    }
}

// The library of a name on such a volume.
fn library_set(
    alloc: Global,
    volume: &SoundVolume,
    name: &[u8; 44],
) -> Result<LibrarySet, NewMemberFault>
    ensures set { IfOk result (IsLibrarySet volume.now.geometry volume.now.blocks.now name.now) }
    ensures fault { IfErr result (λ e. IsNoLibrary e volume.now.blocks.now name.now) }
{
    let Some(place) = position_of(volume.blocks, name) else {
        return Err(refused(NewMemberRefusal::NoDataSet));
    };
    let block = &volume.blocks[place];
    let Ok(set) = data_set_of(alloc, volume.blocks, block) else {
        return Err(NO_MEMORY);
    };
    if !is_partitioned(set.block.organisation) {
        return Err(refused(NewMemberRefusal::NotPartitioned));
    }
    let kept = kept_in(volume.geometry, block, set.extents.as_slice());
    Ok(LibrarySet { set, kept })
}

// A library on the volume of an image.
fn read_held(
    alloc: Global,
    image: &Image<VolumeFile>,
    library: &LibrarySet,
) -> Result<OldLibrary, NewMemberFault>
    ensures old { IfOk result (IsReadOf library.now.set.block library.now.kept library.now.set.extents.items image.now.geometry
        image.now.slots) }
    ensures fault { IfErr result (λ e. IsNotReadIn e library.now.set.extents.items image.now.geometry image.now.slots) }
{
    match HeldVolume::of(alloc, image) {
        Ok(mut volume) => read_set(alloc, &mut volume, library),
        Err(_) => Err(NO_MEMORY),
    }
}

// The same by a reader of the volume.
fn read_set(
    alloc: Global,
    volume: &mut HeldVolume,
    library: &LibrarySet,
) -> Result<OldLibrary, NewMemberFault>
    ensures old { IfOk result (IsReadOf library.now.set.block library.now.kept library.now.set.extents.items (image_of volume.old).geometry
        (image_of volume.old).slots) }
    ensures fault { IfErr result (λ e. IsNotReadIn e library.now.set.extents.items (image_of volume.old).geometry (image_of volume.old).slots) }
{
    let extents = library.set.extents.as_slice();
    let directory_blocks = match count_blocks(alloc, volume, extents) {
        Ok(count) => count,
        Err(fault) => return Err(of_volume(fault)),
    };
    match read_library(alloc, volume, extents) {
        Ok(contents) => Ok(OldLibrary {
            form: form_in(&library.set.block),
            kept: library.kept,
            directory_blocks,
            contents,
        }),
        Err(fault) => Err(of_reading(fault)),
    }
}

// How many blocks the directory of a library has.
fn count_blocks<V: SlotReader>(
    alloc: Global,
    volume: &mut V,
    extents: &[Extent],
) -> Result<usize, VolumeFault>
    ensures count { IfOk result (CountsBlocks extents.now (V.volume volume.old)) }
    ensures fault { IfErr result (λ e. e ≢ VolumeFault.Write) }
    ensures volume { IsRead result (V.volume volume.old) (V.volume volume.new) (V.failures volume.old) (V.failures volume.new) }
{
    let mut blocks = Counted::new(Vec::new(alloc));
    match extract(alloc, volume, &mut blocks, directory_of(extents)) {
        Ok(_) => Ok(blocks.into_inner().len() / DIRECTORY_BLOCK),
        Err(VolumeFault::Store) => Err(VolumeFault::Store),
        Err(_) => Err(VolumeFault::OutOfMemory),
    }
}

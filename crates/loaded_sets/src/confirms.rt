//! A volume with a new data set, as a reader has it.

ghost use Rattle.std.specs.Prelude.{◌≡◌, ℕ, true, false, OnOk, IfErr};
ghost use Rattle.volume_contents.specs.Contents.{contents_of};
ghost use Rattle.loaded_sets.specs.Volumes.{labelled};
ghost use Rattle.loaded_sets.specs.Placed.{HasSet};
ghost use Rattle.new_labels.specs.SetBlocks.{data_set_data};
ghost use Rattle.loaded_sets.specs.PlacedParts.{IsFound, IsListed, IsUnseen};

use crate::place_fault::{PlaceFault, PlaceRefusal, of_reading, refused};
use crate::tables::last_of;
use crate::volumes::{SoundVolume, judge, position_of};
use changed_volumes::read_said;
use ckd_image::Image;
use dasd_files::VolumeFile;
use new_labels::{NewDataSet, data_set_data};
use std::alloc::Global;
use volume_contents::Block;
use volume_labels::RecordAddress;

/// Looks whether a reader of the volume has a new data set, whose format 1 block stands at this address, and finds nothing wrong.
///
/// # Errors
///
/// It has not, or finds something; there is no memory, or a slot in memory is not read.
pub(crate) fn confirm(
    alloc: Global,
    image: &Image<VolumeFile>,
    volume: &SoundVolume,
    block: &NewDataSet,
    address: RecordAddress,
) -> Result<(), PlaceFault>
    requires geometry { volume.now.geometry ≡ image.now.geometry }
    ensures has { OnOk result ((i : ℕ) × HasSet (labelled volume.now) (contents_of image.now.geometry image.now.slots) block.now address i) }
    ensures fault { IfErr result (λ e. IsUnseen e (labelled volume.now) (contents_of image.now.geometry image.now.slots) block.now address) }
{
    let geometry = image.geometry();
    let mut contents = match read_said(alloc, image) {
        Ok(contents) => contents,
        Err(fault) => return Err(of_reading(fault)),
    };
    let now = match judge(alloc, geometry, &mut contents) {
        Ok(now) => now,
        Err(PlaceFault::Refused(_)) => return Err(refused(PlaceRefusal::Unconfirmed)),
        Err(fault) => return Err(fault),
    };
    if is_listed(volume, &now, block, address) {
        return Ok(());
    }
    Err(refused(PlaceRefusal::Unconfirmed))
}

// Whether the volume lists the data set, beside those that it had.
fn is_listed(
    volume: &SoundVolume,
    now: &SoundVolume,
    block: &NewDataSet,
    address: RecordAddress,
) -> bool
    ensures there { result ≡ true → (i : ℕ) × IsListed (labelled volume.now) (labelled now.now) block.now address i }
    ensures missing { result ≡ false → (i : ℕ) → IsListed (labelled volume.now) (labelled now.now) block.now address i → ⊥ }
{
    let last = last_of(address, volume.table.last_data_set);
    now.blocks.len() == volume.blocks.len() + 1
        && now.table.last_data_set == last
        && now.table.free_blocks == volume.table.free_blocks.saturating_sub(1)
        && is_found(now.blocks, block)
}

// Whether the first format 1 block of the data set's name is its block.
fn is_found(blocks: &[Block], block: &NewDataSet) -> bool
    ensures there { result ≡ true → (i : ℕ) × IsFound blocks.now block.now i }
    ensures missing { result ≡ false → (i : ℕ) → IsFound blocks.now block.now i → ⊥ }
{
    match position_of(blocks, &block.name) {
        Some(i) => is_block(&blocks[i], block),
        None => false,
    }
}

// Whether a control block is that of the data set.
fn is_block(found: &Block, block: &NewDataSet) -> bool
    ensures key { result ≡ true → found.now.key ≡ block.now.name }
    ensures bytes { result ≡ true → found.now.bytes ≡ data_set_data block.now }
    ensures other { result ≡ false → found.now.key ≡ block.now.name → found.now.bytes ≡ data_set_data block.now → ⊥ }
{
    let bytes = data_set_data(block);
    found.key[..] == block.name[..] && found.bytes[..] == bytes[..]
}

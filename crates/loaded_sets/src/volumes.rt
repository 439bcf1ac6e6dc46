//! Volumes that records can be put onto.

ghost use Rattle.std.specs.Prelude.{◌≡◌, ◌++◌, ◌∷◌, [], flat_map, IfOk, OnOk, IfErr};
ghost use Rattle.std.specs.List.{position};
ghost use Rattle.volume_changes.specs.Volumes.{said_in};
ghost use Rattle.volume_contents.specs.Checks.{extents_of};
ghost use Rattle.volume_contents.specs.Sets.{has_name};
ghost use Rattle.loaded_sets.specs.Volumes.{labelled, SaysOf, taken_extents, all_findings, IsUnfit};
ghost use Rattle.loaded_sets.specs.PlacedParts.{IsHinderedBy};

use crate::place_fault::{NO_MEMORY, PlaceFault, PlaceRefusal, refused};
use ckd_track::Geometry;
use std::alloc::Global;
use volume_changes::ChangeRefusal;
use volume_contents::{Block, Contents, check_contents, data_set_of, is_data_set};
use volume_labels::{ContentsBlock, Extent, VolumeLabel, without_blanks};

/// A volume with nothing wrong that has a label and a table of contents.
#[derive(Clone, Copy)]
pub struct SoundVolume<'a> {
    /// Its geometry.
    pub geometry: Geometry,
    /// Its label.
    pub label: VolumeLabel,
    /// Its format 4 block.
    pub table: ContentsBlock,
    /// Its control blocks in use.
    pub blocks: &'a [Block],
}

/// The volume that says this of itself.
///
/// # Errors
///
/// It has no label, no table of contents, or something is wrong with it; or there is no memory.
pub fn judge<'a>(
    alloc: Global,
    geometry: Geometry,
    contents: &'a mut Contents,
) -> Result<SoundVolume<'a>, PlaceFault>
    ensures says { IfOk result (λ volume. SaysOf geometry (said_in contents.old) (labelled volume)) }
    ensures nothing { OnOk result (all_findings geometry (said_in contents.old) ≡ []) }
    ensures fault { IfErr result (λ e. IsUnfit e geometry (said_in contents.old)) }
{
    let Some(label) = contents.label else {
        return Err(refused(PlaceRefusal::Volume(ChangeRefusal::NoLabel)));
    };
    let Some(table) = contents.table else {
        return Err(refused(PlaceRefusal::Volume(ChangeRefusal::NoContents)));
    };
    if check_contents(alloc, geometry, contents).is_err() {
        return Err(NO_MEMORY);
    }
    if !contents.found.findings.is_empty() {
        return Err(refused(PlaceRefusal::Findings));
    }
    Ok(SoundVolume {
        geometry,
        label,
        table,
        blocks: contents.found.blocks.as_slice(),
    })
}

/// The extents of the table of contents and of all data sets.
pub(crate) fn taken_extents(alloc: Global, volume: &SoundVolume) -> Result<Vec<Extent>, PlaceFault>
    ensures extents { IfOk result (λ extents. extents.items ≡ taken_extents (labelled volume.now)) }
    ensures fault { IfErr result IsHinderedBy }
{
    let mut extents = Vec::new(alloc);
    push(&mut extents, volume.table.extent)?;
    push_sets(alloc, &mut extents, volume.blocks)?;
    Ok(extents)
}

// Those of all data sets of these blocks.
fn push_sets(alloc: Global, extents: &mut Vec<Extent>, blocks: &[Block]) -> Result<(), PlaceFault>
    ensures extents { OnOk result (extents.new.items ≡ extents.old.items ++ flat_map (extents_of blocks.now) blocks.now) }
    ensures fault { IfErr result IsHinderedBy }
{
    for block in blocks {
        push_extents(alloc, extents, blocks, block)?;
    }
    Ok(())
}

// Those of the data set of a block, if it is one of format 1.
fn push_extents(
    alloc: Global,
    extents: &mut Vec<Extent>,
    blocks: &[Block],
    block: &Block,
) -> Result<(), PlaceFault>
    ensures extents { OnOk result (extents.new.items ≡ extents.old.items ++ extents_of blocks.now block.now) }
    ensures fault { IfErr result IsHinderedBy }
{
    if !is_data_set(block.kind) {
        return Ok(());
    }
    let Ok(set) = data_set_of(alloc, blocks, block) else {
        return Err(NO_MEMORY);
    };
    push_all(extents, set.extents.as_slice())
}

// Several extents more.
fn push_all(extents: &mut Vec<Extent>, more: &[Extent]) -> Result<(), PlaceFault>
    ensures extents { OnOk result (extents.new.items ≡ extents.old.items ++ more.now) }
    ensures fault { IfErr result IsHinderedBy }
{
    match extents.extend_from_slice(more) {
        Ok(()) => Ok(()),
        Err(_) => Err(NO_MEMORY),
    }
}

// One extent more.
fn push(extents: &mut Vec<Extent>, extent: Extent) -> Result<(), PlaceFault>
    ensures extents { OnOk result (extents.new.items ≡ extents.old.items ++ extent ∷ []) }
    ensures fault { IfErr result IsHinderedBy }
{
    match extents.push(extent) {
        Ok(()) => Ok(()),
        Err(_) => Err(NO_MEMORY),
    }
}

// Whether a block is that of a data set with this name.
fn has_name(block: &Block, name: &[u8]) -> bool
    ensures { result ≡ has_name name.now block.now }
{
    is_data_set(block.kind) && without_blanks(&block.key) == without_blanks(name)
}

/// The first format 1 block with a name.
pub fn position_of(blocks: &[Block], name: &[u8]) -> Option<usize>
    ensures { result ≡ position (has_name name.now) blocks.now }
{
    blocks.iter().position(
        |block: &Block| -> bool
            ensures { result ≡ has_name name.entry.now block.now }
        { has_name(block, name) },
    )
}

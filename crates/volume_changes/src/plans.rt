//! What becomes of the control blocks of a volume of which a data set is deleted.

ghost use Rattle.std.specs.Prelude.{◌≡◌, ◌≤◌, ◌+◌, ◌*◌, ◌++◌, ◌∷◌, [], true, length, fold, IfOk};
ghost use Rattle.std.specs.List.{position};
ghost use Rattle.ckd_track.specs.Geometry.{tracks_of};
ghost use Rattle.volume_contents.specs.Blocks.{is_address};
ghost use Rattle.volume_contents.specs.Sets.{is_free_space, has_name};
ghost use Rattle.volume_changes.specs.Volumes.{said_in};
ghost use Rattle.volume_changes.specs.FreeBlocks.{rewritten};
ghost use Rattle.volume_changes.specs.Plans.{keeps_free, given_back, marks_behind, runs_behind, free_blocks, anew, holding, last_but, last_behind, free_behind};
ghost use Rattle.volume_changes.specs.Plans.{table_change, changes_of, deletion_with, deletion_by, deletion_at, deletion_of, IsPlanned};

use crate::free_blocks::{NOWHERE, RUNS, changes_of, push};
use crate::runs::{marks_of, runs_of};
use crate::{BlockChange, ChangeRefusal, find_set};
use ckd_track::Geometry;
use new_labels::updated_contents;
use std::alloc::{AllocError, Global};
use volume_contents::{
    Block, Chain, Contents, DataSet, LONGEST_CHAIN, check_contents, data_set_of, find_block,
    follow_chain, free_tracks, is_data_set,
};
use volume_labels::{
    BlockKind, ContentsBlock, Extent, FreeTracks, RecordAddress, VolumeLabel, data_set_block,
};

/// The most tracks of a volume whose tracks have numbers of two bytes.
pub(crate) const NEAR_TRACKS: u32 = 65_536;

/// What is deleted with a data set.
#[derive(Drop)]
pub struct DeletionPlan {
    /// The control blocks that become others.
    pub changes: Vec<BlockChange>,
    /// A mark for each track of the volume: 1 where the volume says behind the changes that it is free, else 0.
    pub marks: Vec<u8>,
}

/// Why nothing is planned.
#[derive(Clone, Copy)]
pub enum PlanFault {
    /// The data set is not deleted.
    Refused(ChangeRefusal),
    /// There is no memory.
    OutOfMemory,
}

// A volume, and the block of a data set that is deleted.
#[derive(Clone, Copy)]
struct Doomed<'a> {
    geometry: Geometry,
    contents: ContentsBlock,
    table: Block,
    blocks: &'a [Block],
    block: Block,
}

// What is worked out of it: the blocks that are written anew, the marks, and the runs of free tracks.
#[derive(Drop)]
struct Parts {
    anew: Vec<Block>,
    marks: Vec<u8>,
    runs: Vec<FreeTracks>,
}

// Whether a block says free tracks.
fn is_free_space(kind: BlockKind) -> bool
    ensures { result ≡ is_free_space kind }
{
    matches!(kind, BlockKind::FreeSpace)
}

// The first block of format 5.
fn first_free(blocks: &[Block]) -> Option<usize>
    ensures { result ≡ position (λ b. is_free_space b.kind) blocks.now }
{
    blocks.iter().position(
        |block: &Block| -> bool
            ensures { result ≡ is_free_space block.now.kind }
        { is_free_space(block.kind) },
    )
}

/// Whether free tracks are kept on a volume with this format 4 block.
pub(crate) fn keeps_free(alloc: Global, table: &Block, blocks: &[Block]) -> Result<bool, AllocError>
    ensures { IfOk result (λ kept. kept ≡ keeps_free table.now blocks.now) }
{
    if first_free(blocks).is_none() {
        return Ok(false);
    }
    if table.bytes[14] < 0x80 {
        return Ok(true);
    }
    let free = free_tracks(alloc, blocks)?;
    Ok(free.pieces.len() > 0)
}

// The extents that are given back to the free tracks.
fn given_back(
    alloc: Global,
    kept: bool,
    blocks: &[Block],
    block: &Block,
) -> Result<Vec<Extent>, AllocError>
    ensures { IfOk result (λ extents. extents.items ≡ given_back kept blocks.now block.now) }
{
    if !kept {
        return Ok(Vec::new(alloc));
    }
    let DataSet {
        address: _,
        block: _,
        extents,
        fault: _,
    } = data_set_of(alloc, blocks, block)?;
    Ok(extents)
}

// The marks of the tracks that are said to be free then.
fn marks_behind(alloc: Global, doomed: &Doomed, kept: bool) -> Result<Vec<u8>, AllocError>
    ensures marks { IfOk result (λ marks. marks.items ≡ marks_behind doomed.now.geometry kept doomed.now.blocks.now doomed.now.block) }
    ensures all { IfOk result (λ marks. length marks.items ≡ tracks_of doomed.now.geometry) }
{
    let free = free_tracks(alloc, doomed.blocks)?;
    let extents = given_back(alloc, kept, doomed.blocks, &doomed.block)?;
    marks_of(
        alloc,
        doomed.geometry,
        free.pieces.as_slice(),
        extents.as_slice(),
    )
}

// The runs of free tracks that are written.
fn runs_behind(
    alloc: Global,
    geometry: Geometry,
    kept: bool,
    marks: &[u8],
) -> Result<Vec<FreeTracks>, AllocError>
    requires all { length marks.now ≡ tracks_of geometry }
    requires near { kept ≡ true → tracks_of geometry ≤ 65536 }
    ensures { IfOk result (λ runs. runs.items ≡ runs_behind geometry kept marks.now) }
{
    if !kept {
        return Ok(Vec::new(alloc));
    }
    runs_of(alloc, geometry, marks)
}

/// The blocks of free tracks, where these are kept.
pub(crate) fn free_blocks(
    alloc: Global,
    kept: bool,
    blocks: &[Block],
) -> Result<Vec<Block>, AllocError>
    ensures { IfOk result (λ some. some.items ≡ free_blocks kept blocks.now) }
{
    if !kept {
        return Ok(Vec::new(alloc));
    }
    let Some(i) = first_free(blocks) else {
        return Ok(Vec::new(alloc));
    };
    let Chain { links, fault: _ } = follow_chain(
        alloc,
        blocks,
        true,
        blocks[i].address,
        blocks.len(),
    )?;
    Ok(links)
}

// The blocks that are written anew.
fn anew(
    alloc: Global,
    kept: bool,
    blocks: &[Block],
    block: &Block,
) -> Result<Vec<Block>, AllocError>
    ensures { IfOk result (λ all. all.items ≡ anew kept blocks.now block.now) }
{
    let mut all = free_blocks(alloc, kept, blocks)?;
    push_block(&mut all, *block)?;
    let first = data_set_block(&block.key, &block.bytes);
    let chain = follow_chain(alloc, blocks, false, first.next, LONGEST_CHAIN)?;
    push_blocks(&mut all, chain.links.as_slice())?;
    Ok(all)
}

/// One block more.
pub(crate) fn push_block(all: &mut Vec<Block>, block: Block) -> Result<(), AllocError>
    ensures { IfOk result (λ _. all.new.items ≡ all.old.items ++ block ∷ []) }
{
    match all.push(block) {
        Ok(()) => Ok(()),
        Err(_) => Err(AllocError),
    }
}

// More blocks.
fn push_blocks(all: &mut Vec<Block>, more: &[Block]) -> Result<(), AllocError>
    ensures { IfOk result (λ _. all.new.items ≡ all.old.items ++ more.now) }
{
    for block in more {
        push_block(all, *block)?;
    }
    Ok(())
}

// How many of them say free tracks, of which there are so many runs.
fn holding(kept: bool, runs: usize) -> usize
    ensures { result ≡ holding kept runs }
{
    if !kept {
        return 0;
    }
    if runs == 0 {
        return 1;
    }
    (runs - 1) / RUNS + 1
}

// The last format 1 block that format 4 tells.
fn last_behind(contents: ContentsBlock, blocks: &[Block], block: &Block) -> RecordAddress
    ensures { result ≡ last_behind contents blocks.now block.now }
{
    if contents.last_data_set != block.address {
        return contents.last_data_set;
    }
    let mut last = NOWHERE;
    for other in blocks {
        last = last_but(block.address, last, other);
    }
    last
}

// The last format 1 block up to another one.
fn last_but(gone: RecordAddress, last: RecordAddress, other: &Block) -> RecordAddress
    ensures { result ≡ last_but gone last other.now }
{
    if is_data_set(other.kind) && other.address != gone {
        other.address
    } else {
        last
    }
}

// How many free blocks format 4 tells, where so many of all that are written anew stay in use.
fn free_behind(contents: ContentsBlock, all: usize, left: usize) -> u16
    requires { left ≤ all }
    ensures { result ≡ free_behind contents all left }
{
    let room = usize::from(u16::MAX - contents.free_blocks);
    contents.free_blocks + (all - left).min(room) as u16
}

// What becomes of the format 4 block.
fn table_change(table: &Block, last: RecordAddress, free: u16) -> BlockChange
    ensures { result ≡ table_change table.now last free }
{
    BlockChange {
        block: *table,
        key: table.key,
        bytes: updated_contents(&table.bytes, last, free),
    }
}

// All that becomes another block.
fn changes_with(
    alloc: Global,
    doomed: &Doomed,
    anew: &[Block],
    runs: &[FreeTracks],
    holding: usize,
) -> Result<Vec<BlockChange>, AllocError>
    requires room { holding ≤ length anew.now }
    ensures { IfOk result (λ changes. changes.items ≡ changes_of anew.now runs.now holding
        ++ table_change doomed.now.table (last_behind doomed.now.contents doomed.now.blocks.now doomed.now.block)
        (free_behind doomed.now.contents (length anew.now) holding) ∷ []) }
{
    let mut changes = changes_of(alloc, anew, runs, holding)?;
    let last = last_behind(doomed.contents, doomed.blocks, &doomed.block);
    let free = free_behind(doomed.contents, anew.len(), holding);
    push(&mut changes, table_change(&doomed.table, last, free))?;
    Ok(changes)
}

// What is worked out of a volume.
fn parts_of(alloc: Global, doomed: &Doomed, kept: bool) -> Result<Parts, AllocError>
    requires near { kept ≡ true → tracks_of doomed.now.geometry ≤ 65536 }
    ensures anew { IfOk result (λ parts. parts.anew.items ≡ anew kept doomed.now.blocks.now doomed.now.block) }
    ensures marks { IfOk result (λ parts. parts.marks.items
        ≡ marks_behind doomed.now.geometry kept doomed.now.blocks.now doomed.now.block) }
    ensures runs { IfOk result (λ parts. parts.runs.items ≡ runs_behind doomed.now.geometry kept parts.marks.items) }
{
    let anew = anew(alloc, kept, doomed.blocks, &doomed.block)?;
    let marks = marks_behind(alloc, doomed, kept)?;
    let runs = runs_behind(alloc, doomed.geometry, kept, marks.as_slice())?;
    Ok(Parts { anew, marks, runs })
}

// The plan of these parts.
fn plan_of(
    alloc: Global,
    doomed: &Doomed,
    parts: Parts,
    kept: bool,
) -> Result<DeletionPlan, PlanFault>
    ensures { IsPlanned result (deletion_with doomed.now.contents doomed.now.table doomed.now.blocks.now doomed.now.block
        parts.anew.items parts.marks.items parts.runs.items (holding kept (length parts.runs.items))) }
{
    let Parts { anew, marks, runs } = parts;
    let holding = holding(kept, runs.len());
    if holding > anew.len() {
        return Err(PlanFault::Refused(ChangeRefusal::NoRoom));
    }
    match changes_with(alloc, doomed, anew.as_slice(), runs.as_slice(), holding) {
        Ok(changes) => Ok(DeletionPlan { changes, marks }),
        Err(_) => Err(PlanFault::OutOfMemory),
    }
}

// What is deleted with a data set.
fn plan(alloc: Global, doomed: &Doomed, kept: bool) -> Result<DeletionPlan, PlanFault>
    ensures { IsPlanned result
        (deletion_by doomed.now.geometry doomed.now.contents doomed.now.table doomed.now.blocks.now doomed.now.block kept) }
{
    if kept && doomed.geometry.tracks() > NEAR_TRACKS {
        return Err(PlanFault::Refused(ChangeRefusal::NoRoom));
    }
    match parts_of(alloc, doomed, kept) {
        Ok(parts) => plan_of(alloc, doomed, parts, kept),
        Err(_) => Err(PlanFault::OutOfMemory),
    }
}

// What is deleted with the data set of a name, of a volume with this label and format 4 block.
fn plan_named(
    alloc: Global,
    geometry: Geometry,
    said: (VolumeLabel, ContentsBlock),
    blocks: &[Block],
    name: &[u8],
) -> Result<DeletionPlan, PlanFault>
    ensures { IsPlanned result (deletion_at geometry said.0 said.1 blocks.now (position (has_name name.now) blocks.now)) }
{
    let (label, contents) = said;
    let Some(i) = find_set(blocks, name) else {
        return Err(PlanFault::Refused(ChangeRefusal::NoDataSet));
    };
    let Some(k) = find_block(blocks, label.contents) else {
        return Err(PlanFault::Refused(ChangeRefusal::NoContents));
    };
    let table = blocks[k];
    let doomed = Doomed {
        geometry,
        contents,
        table,
        blocks,
        block: blocks[i],
    };
    match keeps_free(alloc, &table, blocks) {
        Ok(kept) => plan(alloc, &doomed, kept),
        Err(_) => Err(PlanFault::OutOfMemory),
    }
}

/// What is deleted with a data set of a volume of this geometry that says this. The name is in EBCDIC, with blanks behind it or without; of
/// several data sets of the name the first one in the order of the table of contents is deleted. What is wrong with the volume is added to
/// its findings; its blocks stay.
///
/// # Errors
///
/// The volume has no label or no table of contents; something is wrong with it; it has no data set of the name; or its control blocks have
/// no room for the runs of its free tracks. Or there is no memory.
pub fn plan_deletion(
    alloc: Global,
    geometry: Geometry,
    contents: &mut Contents,
    name: &[u8],
) -> Result<DeletionPlan, PlanFault>
    ensures planned { IsPlanned result (deletion_of geometry (said_in contents.old) name.now) }
    ensures blocks { contents.new.found.blocks ≡ contents.old.found.blocks }
{
    let Some(label) = contents.label else {
        return Err(PlanFault::Refused(ChangeRefusal::NoLabel));
    };
    let Some(table) = contents.table else {
        return Err(PlanFault::Refused(ChangeRefusal::NoContents));
    };
    if check_contents(alloc, geometry, contents).is_err() {
        return Err(PlanFault::OutOfMemory);
    }
    if !contents.found.findings.is_empty() {
        return Err(PlanFault::Refused(ChangeRefusal::Findings));
    }
    let blocks = contents.found.blocks.as_slice();
    plan_named(alloc, geometry, (label, table), blocks, name)
}

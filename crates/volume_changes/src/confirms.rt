//! Whether a volume says behind a deletion what it should.

ghost use Rattle.std.specs.Prelude.{◌≡◌, ◌++◌, [], bytes_eq, IfOk};
ghost use Rattle.std.specs.List.{position, flat_map};
ghost use Rattle.volume_contents.specs.Blocks.{BlockOf, those};
ghost use Rattle.volume_contents.specs.Sets.{pieces_behind};
ghost use Rattle.volume_changes.specs.Volumes.{said_in};
ghost use Rattle.volume_changes.specs.Runs.{marks_of};
ghost use Rattle.volume_changes.specs.Deletions.{is_of, block_behind, blocks_behind, block_bytes, are_same, is_confirmed};

use crate::BlockChange;
use crate::plans::{DeletionPlan, push_block};
use crate::runs::marks_of;
use ckd_track::Geometry;
use new_labels::record_bytes;
use std::alloc::{AllocError, Global};
use volume_contents::{Block, Contents, check_contents, free_tracks};
use volume_labels::{BlockKind, RecordAddress, block_kind};

// The first of the changes that is one of a block.
fn change_of(changes: &[BlockChange], block: &Block) -> Option<usize>
    ensures { result ≡ position (is_of block.now) changes.now }
{
    changes.iter().position(
        |change: &BlockChange| -> bool
            ensures { result ≡ is_of block.entry.now change.now }
        { change.block.address == block.address },
    )
}

// Appends what a change makes of the block at an address: nothing where it becomes free.
fn push_changed(
    all: &mut Vec<Block>,
    address: RecordAddress,
    change: &BlockChange,
) -> Result<(), AllocError>
    ensures { IfOk result (λ _. all.new.items ≡ all.old.items ++ those (BlockOf address change.now.key change.now.bytes)) }
{
    match block_kind(&change.key, &change.bytes) {
        None | Some(BlockKind::Free) => Ok(()),
        Some(kind) => push_block(
            all,
            Block {
                address,
                kind,
                key: change.key,
                bytes: change.bytes,
            },
        ),
    }
}

// Appends what becomes of a block.
fn push_behind(
    all: &mut Vec<Block>,
    changes: &[BlockChange],
    block: &Block,
) -> Result<(), AllocError>
    ensures { IfOk result (λ _. all.new.items ≡ all.old.items ++ block_behind changes.now block.now) }
{
    match change_of(changes, block) {
        Some(i) => push_changed(all, block.address, &changes[i]),
        None => push_block(all, *block),
    }
}

// What a table of contents says behind changes.
fn blocks_behind(
    alloc: Global,
    changes: &[BlockChange],
    blocks: &[Block],
) -> Result<Vec<Block>, AllocError>
    ensures { IfOk result (λ all. all.items ≡ blocks_behind changes.now blocks.now) }
{
    let mut all = Vec::new(alloc);
    for block in blocks {
        push_behind(&mut all, changes, block)?;
    }
    Ok(all)
}

// Appends a block in bytes.
fn push_bytes(bytes: &mut Vec<u8>, block: &Block) -> Result<(), AllocError>
    ensures { IfOk result (λ _. bytes.new.items ≡ bytes.old.items ++ block_bytes block.now) }
{
    bytes.extend_from_slice(&record_bytes(block.address))?;
    bytes.extend_from_slice(&block.key)?;
    bytes.extend_from_slice(&block.bytes)
}

// Blocks in bytes.
fn bytes_of(alloc: Global, blocks: &[Block]) -> Result<Vec<u8>, AllocError>
    ensures { IfOk result (λ bytes. bytes.items ≡ flat_map block_bytes blocks.now) }
{
    let mut bytes = Vec::new(alloc);
    for block in blocks {
        push_bytes(&mut bytes, block)?;
    }
    Ok(bytes)
}

// Whether blocks are these.
fn are_same(alloc: Global, some: &[Block], others: &[Block]) -> Result<bool, AllocError>
    ensures { IfOk result (λ same. same ≡ are_same some.now others.now) }
{
    let some = bytes_of(alloc, some)?;
    let others = bytes_of(alloc, others)?;
    Ok(some.as_slice() == others.as_slice())
}

// Whether a table of contents says these blocks behind changes of those.
fn says_blocks(
    alloc: Global,
    before: &[Block],
    changes: &[BlockChange],
    after: &[Block],
) -> Result<bool, AllocError>
    ensures { IfOk result (λ says. says ≡ are_same after.now (blocks_behind changes.now before.now)) }
{
    let wanted = blocks_behind(alloc, changes, before)?;
    are_same(alloc, after, wanted.as_slice())
}

// Whether it says that these tracks are free, and no others.
fn says_free(
    alloc: Global,
    geometry: Geometry,
    marks: &[u8],
    after: &[Block],
) -> Result<bool, AllocError>
    ensures { IfOk result (λ says. says ≡ bytes_eq (marks_of geometry (pieces_behind after.now) []) marks.now) }
{
    let free = free_tracks(alloc, after)?;
    let found = marks_of(alloc, geometry, free.pieces.as_slice(), &[])?;
    Ok(found.as_slice() == marks)
}

/// Whether a volume of this geometry, which had these blocks, says behind a deletion what it should: nothing is wrong with it; its blocks
/// are those that it had, but for the changes; and the tracks that it says are free are those of the marks. What is wrong with it is added
/// to its findings.
///
/// # Errors
///
/// There is no memory to tell.
pub fn is_confirmed(
    alloc: Global,
    geometry: Geometry,
    before: &[Block],
    plan: &DeletionPlan,
    after: &mut Contents,
) -> Result<bool, AllocError>
    ensures { IfOk result (λ confirmed. confirmed ≡ is_confirmed geometry before.now
        (record { changes = plan.now.changes.items; marks = plan.now.marks.items }) (said_in after.old)) }
{
    check_contents(alloc, geometry, after)?;
    if !after.found.findings.is_empty() {
        return Ok(false);
    }
    let blocks = after.found.blocks.as_slice();
    if !says_blocks(alloc, before, plan.changes.as_slice(), blocks)? {
        return Ok(false);
    }
    says_free(alloc, geometry, plan.marks.as_slice(), blocks)
}

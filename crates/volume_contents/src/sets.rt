//! Data sets and free tracks, by the control blocks that say them.

ghost use Rattle.std.specs.Prelude.{◌≡◌, ◌++◌, IfOk};
ghost use Rattle.std.specs.List.{position};
ghost use Rattle.volume_contents.specs.Sets.{is_data_set, has_name, extents_in, is_extent, is_piece, is_free_space, used_extents, used_pieces, DataSetOf, FreeSpaceOf};
ghost use Rattle.volume_contents.specs.Sets.{FoundOf};

use crate::blocks::Block;
use crate::chains::{ChainFault, LONGEST_CHAIN, follow_chain};
use std::alloc::{AllocError, Global};
use volume_labels::{
    BlockKind, DataSetBlock, Extent, FreeTracks, RecordAddress, data_set_block, extents_block,
    free_space_block, without_blanks,
};

/// A data set, and where it is on its volume.
#[derive(Drop)]
pub struct DataSet {
    /// Where its format 1 block stands.
    pub address: RecordAddress,
    /// What its format 1 block says.
    pub block: DataSetBlock,
    /// Its extents, in order, from its format 1 block and from all of format 3 behind it. Nothing is known of their tracks.
    pub extents: Vec<Extent>,
    /// Why there are no more extents, if not since the chain of its control blocks ends.
    pub fault: Option<ChainFault>,
}

/// The free tracks of a volume of OS/360.
#[derive(Drop)]
pub struct FreeSpace {
    /// Where the first block of format 5 stands, if there is one.
    pub address: Option<RecordAddress>,
    /// The pieces, in order, from all blocks of format 5.
    pub pieces: Vec<FreeTracks>,
    /// Why there are no more of them, if not since the chain of control blocks ends.
    pub fault: Option<ChainFault>,
}

/// The data set of a format 1 block among these blocks.
///
/// # Errors
///
/// There is no memory for its extents.
pub fn data_set_of(alloc: Global, blocks: &[Block], block: &Block) -> Result<DataSet, AllocError>
    ensures { IfOk result (DataSetOf blocks.now block.now) }
{
    let first = data_set_block(&block.key, &block.bytes);
    let behind = follow_chain(alloc, blocks, false, first.next, LONGEST_CHAIN)?;
    let mut extents = Vec::new(alloc);
    push_extents(
        &mut extents,
        &[first.first_extent, first.second_extent, first.third_extent],
    )?;
    for link in behind.links.iter() {
        push_link(&mut extents, link)?;
    }
    Ok(DataSet {
        address: block.address,
        block: first,
        extents,
        fault: behind.fault,
    })
}

// Appends the extents of a block of format 3; one of format 2 has none.
fn push_link(extents: &mut Vec<Extent>, link: &Block) -> Result<(), AllocError>
    ensures { IfOk result (λ _. extents.new.items ≡ extents.old.items ++ extents_in link.now) }
{
    match link.kind {
        BlockKind::MoreExtents => {
            push_extents(extents, &extents_block(&link.key, &link.bytes).extents)
        }
        _ => Ok(()),
    }
}

// Appends those that are extents.
fn push_extents(extents: &mut Vec<Extent>, more: &[Extent]) -> Result<(), AllocError>
    ensures { IfOk result (λ _. extents.new.items ≡ extents.old.items ++ used_extents more.now) }
{
    for extent in more {
        push_extent(extents, *extent)?;
    }
    Ok(())
}

// Appends an extent, if it is one.
fn push_extent(extents: &mut Vec<Extent>, extent: Extent) -> Result<(), AllocError>
    ensures { IfOk result (λ _. extents.new.items ≡ extents.old.items ++ is_extent extent) }
{
    if extent.kind == 0 {
        return Ok(());
    }
    match extents.push(extent) {
        Ok(()) => Ok(()),
        Err(_) => Err(AllocError),
    }
}

/// Whether a control block is one of format 1.
pub fn is_data_set(kind: BlockKind) -> bool
    ensures { result ≡ is_data_set kind }
{
    matches!(kind, BlockKind::DataSet)
}

// Whether a block is that of a data set with this name, which has blanks behind it or not.
fn has_name(block: &Block, name: &[u8]) -> bool
    ensures { result ≡ has_name name.now block.now }
{
    is_data_set(block.kind) && without_blanks(&block.key) == without_blanks(name)
}

// The first format 1 block with this name.
fn position_of(blocks: &[Block], name: &[u8]) -> Option<usize>
    ensures { result ≡ position (has_name name.now) blocks.now }
{
    blocks.iter().position(
        |block: &Block| -> bool
            ensures { result ≡ has_name name.entry.now block.now }
        { has_name(block, name) },
    )
}

/// The data set of a name in EBCDIC, with blanks behind it or without, and all of its extents; none where no format 1 block has the
/// name. Of several the first in the order of the volume table of contents.
///
/// # Errors
///
/// There is no memory for its extents.
pub fn find(alloc: Global, blocks: &[Block], name: &[u8]) -> Result<Option<DataSet>, AllocError>
    ensures { IfOk result (FoundOf blocks.now name.now) }
{
    match position_of(blocks, name) {
        Some(i) => Ok(Some(data_set_of(alloc, blocks, &blocks[i])?)),
        None => Ok(None),
    }
}

/// The free tracks that the chain from the first format 5 block on says.
///
/// # Errors
///
/// There is no memory for them.
pub fn free_tracks(alloc: Global, blocks: &[Block]) -> Result<FreeSpace, AllocError>
    ensures { IfOk result (FreeSpaceOf blocks.now) }
{
    let mut pieces = Vec::new(alloc);
    let Some(i) = first_free(blocks) else {
        return Ok(FreeSpace {
            address: None,
            pieces,
            fault: None,
        });
    };
    let behind = follow_chain(alloc, blocks, true, blocks[i].address, blocks.len())?;
    for link in behind.links.iter() {
        push_pieces(&mut pieces, &free_space_block(&link.key, &link.bytes).free)?;
    }
    Ok(FreeSpace {
        address: Some(blocks[i].address),
        pieces,
        fault: behind.fault,
    })
}

// The first format 5 block.
fn first_free(blocks: &[Block]) -> Option<usize>
    ensures { result ≡ position (λ b. is_free_space b.kind) blocks.now }
{
    blocks.iter().position(
        |block: &Block| -> bool
            ensures { result ≡ is_free_space block.now.kind }
        { is_free_space(block.kind) },
    )
}

// Whether a block says free tracks.
fn is_free_space(kind: BlockKind) -> bool
    ensures { result ≡ is_free_space kind }
{
    matches!(kind, BlockKind::FreeSpace)
}

// Appends those that are free tracks.
fn push_pieces(pieces: &mut Vec<FreeTracks>, more: &[FreeTracks]) -> Result<(), AllocError>
    ensures { IfOk result (λ _. pieces.new.items ≡ pieces.old.items ++ used_pieces more.now) }
{
    for piece in more {
        push_piece(pieces, *piece)?;
    }
    Ok(())
}

// Appends free tracks, if there are some.
fn push_piece(pieces: &mut Vec<FreeTracks>, piece: FreeTracks) -> Result<(), AllocError>
    ensures { IfOk result (λ _. pieces.new.items ≡ pieces.old.items ++ is_piece piece) }
{
    if piece.cylinders == 0 && piece.tracks == 0 {
        return Ok(());
    }
    match pieces.push(piece) {
        Ok(()) => Ok(()),
        Err(_) => Err(AllocError),
    }
}

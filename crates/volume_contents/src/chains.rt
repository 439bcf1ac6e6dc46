//! Chains of control blocks: each block has the address of the next one.

ghost use Rattle.std.specs.Prelude.{◌≡◌, ◌++◌, ◌∷◌, [], length, IfOk};
ghost use Rattle.volume_contents.specs.Chains.{is_nowhere, follows, step_to, end_of, next_of, ChainOf};

use crate::blocks::{Block, find_block};
use std::alloc::{AllocError, Global};
use volume_labels::{BlockKind, RecordAddress, indexes_block};

/// The most blocks behind a format 1 block: 255 extents take twenty of format 3, and one of format 2 may stand before them.
pub const LONGEST_CHAIN: usize = 21;

/// Why a chain is not followed further.
#[derive(Clone, Copy)]
pub enum ChainFault {
    /// No control block in use stands at the address.
    Missing(RecordAddress),
    /// The block at the address is of a format that does not belong there.
    OtherFormat(RecordAddress),
    /// It goes on at this address behind as many blocks as there may be: it is a loop, or too long.
    Endless(RecordAddress),
}

/// The control blocks behind one, in order, and why there are no more of them, if not since the chain ends.
#[derive(Drop)]
pub struct Chain {
    /// The blocks.
    pub links: Vec<Block>,
    /// What is wrong behind them.
    pub fault: Option<ChainFault>,
}

// What stands at the address of a next block.
#[derive(Clone, Copy)]
enum Step {
    End,
    Fault(ChainFault),
    Link(Block),
}

// Whether an address names no block.
fn is_nowhere(address: RecordAddress) -> bool
    ensures { result ≡ is_nowhere address }
{
    address.track.cylinder == 0 && address.track.head == 0 && address.number == 0
}

// Whether a block belongs into a chain of free tracks, or into one of extents.
fn follows(kind: BlockKind, is_free: bool) -> bool
    ensures { result ≡ follows is_free kind }
{
    match kind {
        BlockKind::FreeSpace => is_free,
        BlockKind::IndexedSequential | BlockKind::MoreExtents => !is_free,
        _ => false,
    }
}

// What stands at the address of a next block.
fn step_to(blocks: &[Block], is_free: bool, next: RecordAddress) -> Step
    ensures { result ≡ step_to is_free blocks.now next }
{
    if is_nowhere(next) {
        return Step::End;
    }
    let Some(i) = find_block(blocks, next) else {
        return Step::Fault(ChainFault::Missing(next));
    };
    let block = blocks[i];
    if follows(block.kind, is_free) {
        Step::Link(block)
    } else {
        Step::Fault(ChainFault::OtherFormat(next))
    }
}

// The address of the block behind one of format 2, 3 or 5, all of which have it at one place.
fn next_of(block: &Block) -> RecordAddress
    ensures { result ≡ next_of block.now }
{
    indexes_block(&block.bytes).next
}

// What is wrong with a chain that goes on at this address, behind as many blocks as there may be.
fn end_of(next: RecordAddress) -> Option<ChainFault>
    ensures { result ≡ end_of next }
{
    if is_nowhere(next) {
        None
    } else {
        Some(ChainFault::Endless(next))
    }
}

/// The control blocks of a chain that begins at an address: those of free tracks (format 5), or those of more extents (formats 2 and
/// 3). No more than so many are followed.
///
/// # Errors
///
/// There is no memory for them.
pub fn follow_chain(
    alloc: Global,
    blocks: &[Block],
    is_free: bool,
    first: RecordAddress,
    most: usize,
) -> Result<Chain, AllocError>
    ensures { IfOk result (ChainOf most is_free blocks.now first) }
{
    let mut links = Vec::new(alloc);
    let mut next = first;
    for _ in 0..most {
        match step_to(blocks, is_free, next) {
            Step::Link(block) => {
                push(&mut links, block)?;
                next = next_of(&block);
            }
            Step::End => return Ok(Chain { links, fault: None }),
            Step::Fault(fault) => {
                return Ok(Chain {
                    links,
                    fault: Some(fault),
                });
            }
        }
    }
    Ok(Chain {
        links,
        fault: end_of(next),
    })
}

// One block more.
fn push(links: &mut Vec<Block>, block: Block) -> Result<(), AllocError>
    ensures { IfOk result (λ _. links.new.items ≡ links.old.items ++ block ∷ []) }
{
    match links.push(block) {
        Ok(()) => Ok(()),
        Err(_) => Err(AllocError),
    }
}

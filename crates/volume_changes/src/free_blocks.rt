//! Control blocks that are written anew: those that become free, and those of free tracks.

ghost use Rattle.std.specs.Prelude.{◌≡◌, ◌≤◌, ◌<◌, ◌+◌, ◌*◌, ◌++◌, ◌∷◌, [], length, take, drop, IfOk};
ghost use Rattle.ckd_track.specs.Changes.{overwritten};
ghost use Rattle.new_labels.specs.FreeSpace.{run_bytes};
ghost use Rattle.volume_changes.specs.FreeBlocks.{run_in, runs_bytes, free_space_key, free_space_data, next_in, rewritten};
ghost use Rattle.volume_changes.specs.Plans.{changes_of};

use crate::BlockChange;
use ckd_track::overwrite;
use new_labels::{record_bytes, run_bytes};
use std::alloc::{AllocError, Global};
use volume_contents::Block;
use volume_labels::{FreeTracks, RecordAddress, TrackAddress};

/// How many runs of free tracks a block of format 5 has.
pub(crate) const RUNS: usize = 26;

/// How many bytes of them stand in its key.
const IN_KEY: usize = 40;

/// No block.
pub(crate) const NOWHERE: RecordAddress = RecordAddress {
    track: TrackAddress {
        cylinder: 0,
        head: 0,
    },
    number: 0,
};

// A run of a list; one of no tracks where there are no more.
fn run_in(runs: &[FreeTracks], i: usize) -> FreeTracks
    ensures { result ≡ run_in runs.now i }
{
    if i >= runs.len() {
        return FreeTracks {
            first: 0,
            cylinders: 0,
            tracks: 0,
        };
    }
    runs[i]
}

// The first 26 runs, which go into one block, in their bytes.
fn runs_bytes(runs: &[FreeTracks]) -> [u8; 130]
    ensures { result ≡ runs_bytes runs.now }
{
    let mut bytes = [0; 130];
    for i in 0..RUNS {
        put_run(&mut bytes, i, run_in(runs, i));
    }
    bytes
}

// Writes one of them.
fn put_run(bytes: &mut [u8; 130], i: usize, run: FreeTracks)
    requires { i < 26 }
    ensures { bytes.new ≡ overwritten bytes.old (i * 5) (run_bytes run) }
{
    overwrite(bytes, i * 5, &run_bytes(run));
}

// The key of a block of format 5 that has these bytes of runs.
fn free_space_key(runs: &[u8; 130]) -> [u8; 44]
    ensures { result ≡ 5 ∷ 5 ∷ 5 ∷ 5 ∷ take 40 runs.now }
{
    let mut key = [5; 44];
    overwrite(&mut key, 4, &runs[..IN_KEY]);
    key
}

// Its data, with the address of the next block.
fn free_space_data(runs: &[u8; 130], next: [u8; 5]) -> [u8; 96]
    ensures { result ≡ 0xF5 ∷ drop 40 runs.now ++ next }
{
    let mut bytes = [0xF5; 96];
    overwrite(&mut bytes, 91, &next);
    overwrite(&mut bytes, 1, &runs[IN_KEY..]);
    bytes
}

// The address of the next of so many blocks of free tracks.
fn next_in(blocks: &[Block], holding: usize, i: usize) -> RecordAddress
    requires there { i < length blocks.now }
    requires room { holding ≤ length blocks.now }
    ensures { result ≡ next_in blocks.now holding i }
{
    if i + 1 < holding {
        blocks[i + 1].address
    } else {
        NOWHERE
    }
}

// What becomes of one of the blocks that are written anew, of which so many say runs of free tracks.
fn rewritten(blocks: &[Block], runs: &[FreeTracks], holding: usize, i: usize) -> BlockChange
    requires there { i < length blocks.now }
    requires room { holding ≤ length blocks.now }
    ensures { result ≡ rewritten blocks.now runs.now holding i }
{
    let block = blocks[i];
    if i >= holding {
        return BlockChange {
            block,
            key: [0; 44],
            bytes: [0; 96],
        };
    }
    let runs = runs_bytes(&runs[(RUNS * i).min(runs.len())..]);
    BlockChange {
        block,
        key: free_space_key(&runs),
        bytes: free_space_data(&runs, record_bytes(next_in(blocks, holding, i))),
    }
}

/// What becomes of the blocks that are written anew, of which so many say runs of free tracks.
///
/// # Errors
///
/// There is no memory for that.
#[tactic(auto, using(dasd_volumes::proofs::Appended::of_none, dasd_volumes::proofs::Appended::of_one_more))]
pub(crate) fn changes_of(
    alloc: Global,
    blocks: &[Block],
    runs: &[FreeTracks],
    holding: usize,
) -> Result<Vec<BlockChange>, AllocError>
    requires room { holding ≤ length blocks.now }
    ensures { IfOk result (λ changes. changes.items ≡ changes_of blocks.now runs.now holding) }
{
    let mut changes = Vec::new(alloc);
    for i in 0..blocks.len() {
        push(&mut changes, rewritten(blocks, runs, holding, i))?;
    }
    Ok(changes)
}

/// One change more.
pub(crate) fn push(changes: &mut Vec<BlockChange>, change: BlockChange) -> Result<(), AllocError>
    ensures { IfOk result (λ _. changes.new.items ≡ changes.old.items ++ change ∷ []) }
{
    match changes.push(change) {
        Ok(()) => Ok(()),
        Err(_) => Err(AllocError),
    }
}

//! The control blocks of one track.

ghost use Rattle.std.specs.Prelude.{◌≡◌, ◌<◌, ◌++◌, ◌∷◌, [], ◌==◌, length, slice_index, IfOk, OnErr};
ghost use Rattle.std.specs.List.{position};
ghost use Rattle.ckd_track.specs.Track.{track_of, record_in};
ghost use Rattle.dasd_volumes.specs.Volumes.{of_each};
ghost use Rattle.volume_contents.specs.Blocks.{has_address, address_of_record, blocks_in, findings_in, blocks_at, findings_at, Adds, problem_of, BlockOf};

use crate::findings::{Finding, Problem};
use crate::reading::Found;
use ckd_track::{SlotFault, TrackView, read_slot};
use std::alloc::AllocError;
use volume_labels::{
    BlockKind, DATA_LENGTH, KEY_LENGTH, RecordAddress, TrackAddress, block_kind, has_key_of,
};

/// A control block in use, as it stands on its volume.
#[derive(Clone, Copy)]
pub struct Block {
    /// Where it stands: the cylinder and head of its track, and its number in its count area.
    pub address: RecordAddress,
    /// What it is for; never free.
    pub kind: BlockKind,
    /// Its key.
    pub key: [u8; 44],
    /// Its data.
    pub bytes: [u8; 96],
}

// Whether a block stands at an address.
fn has_address(block: &Block, address: RecordAddress) -> bool
    ensures { result ≡ has_address address block.now }
{
    block.address == address
}

/// The first of the blocks that stands at an address.
pub fn find_block(blocks: &[Block], address: RecordAddress) -> Option<usize>
    ensures { result ≡ position (has_address address) blocks.now }
{
    blocks.iter().position(
        |block: &Block| -> bool
            ensures { result ≡ has_address address block.now }
        { has_address(block, address) },
    )
}

/// Adds the control blocks of a track, and what is wrong with its records. The first record is record 0, and no block.
pub(crate) fn read_track(
    found: &mut Found,
    track: TrackAddress,
    slot: &[u8],
) -> Result<(), AllocError>
    ensures { IfOk result (λ _. Adds found.old found.new
        (blocks_at track (track_of slot.now)) (findings_at track (track_of slot.now))) }
{
    match read_slot(slot) {
        Ok(view) => read_records(found, track, &view),
        Err(fault) => add_unreadable(found, track, fault),
    }
}

// Adds that a track can't be read.
fn add_unreadable(
    found: &mut Found,
    track: TrackAddress,
    fault: SlotFault,
) -> Result<(), AllocError>
    ensures { IfOk result (λ _. Adds found.old found.new []
        (record { place = record { track = track; number = 0 }; problem = Problem.Unreadable fault } ∷ [])) }
{
    let place = RecordAddress { track, number: 0 };
    let problem = Problem::Unreadable(fault);
    add_finding(&mut found.findings, Finding { place, problem })
}

// Adds the blocks of a track that can be read.
fn read_records(found: &mut Found, track: TrackAddress, view: &TrackView) -> Result<(), AllocError>
    ensures { IfOk result (λ _. Adds found.old found.new
        (of_each (blocks_in track view.now) (length view.now.records)) (of_each (findings_in track view.now) (length view.now.records))) }
{
    for i in 0..view.len() {
        read_record(found, track, view, i)?;
    }
    Ok(())
}

// Adds record `i`, if it is a block in use, and what is wrong with it.
fn read_record(
    found: &mut Found,
    track: TrackAddress,
    view: &TrackView,
    i: usize,
) -> Result<(), AllocError>
    requires { i < length view.now.records }
    ensures { IfOk result (λ _. Adds found.old found.new (blocks_in track view.now i) (findings_in track view.now i)) }
{
    if i == 0 {
        return Ok(());
    }
    let address = address_of(track, view, i);
    let key = view.key_of(i);
    let bytes = view.data_of(i);
    if let Some(block) = block_of(address, key, bytes) {
        add_block(found, block)?;
    }
    match problem_of(key, bytes) {
        Some(problem) => add_finding(
            &mut found.findings,
            Finding {
                place: address,
                problem,
            },
        ),
        None => Ok(()),
    }
}

// Where record `i` stands.
fn address_of(track: TrackAddress, view: &TrackView, i: usize) -> RecordAddress
    requires { i < length view.now.records }
    ensures { result ≡ address_of_record track (record_in view.now i) }
{
    RecordAddress {
        track,
        number: view.count_of(i)[4],
    }
}

// The block that a record with this key and data is; none where it is free, or no block.
fn block_of(address: RecordAddress, key: &[u8], bytes: &[u8]) -> Option<Block>
    ensures { result ≡ BlockOf address key.now bytes.now }
{
    match block_kind(key, bytes) {
        None | Some(BlockKind::Free) => None,
        Some(kind) => Some(Block {
            address,
            kind,
            key: key_by_value(key),
            bytes: data_by_value(bytes),
        }),
    }
}

fn key_by_value(key: &[u8]) -> [u8; KEY_LENGTH]
    requires { length key.now ≡ 44 }
    ensures { result ≡ key.now }
{
    let mut copy = [0u8; KEY_LENGTH];
    copy.copy_from_slice(key);
    copy
}

fn data_by_value(bytes: &[u8]) -> [u8; DATA_LENGTH]
    requires { length bytes.now ≡ 96 }
    ensures { result ≡ bytes.now }
{
    let mut copy = [0u8; DATA_LENGTH];
    copy.copy_from_slice(bytes);
    copy
}

// What is wrong with a record of this key and data.
fn problem_of(key: &[u8], bytes: &[u8]) -> Option<Problem>
    ensures { result ≡ problem_of key.now bytes.now }
{
    match block_kind(key, bytes) {
        None => Some(Problem::NoBlock),
        Some(BlockKind::Unknown) => Some(Problem::UnknownFormat(bytes[0])),
        Some(kind) if !has_key_of(kind, key) => Some(Problem::OtherKey),
        Some(_) => None,
    }
}

// One block more.
fn add_block(found: &mut Found, block: Block) -> Result<(), AllocError>
    ensures { IfOk result (λ _. Adds found.old found.new (block ∷ []) []) }
{
    match found.blocks.push(block) {
        Ok(()) => Ok(()),
        Err(_) => Err(AllocError),
    }
}

/// One finding more.
pub(crate) fn add_finding(findings: &mut Vec<Finding>, finding: Finding) -> Result<(), AllocError>
    ensures added { IfOk result (λ _. findings.new.items ≡ findings.old.items ++ finding ∷ []) }
    ensures kept { OnErr result (findings.new.items ≡ findings.old.items) }
{
    match findings.push(finding) {
        Ok(()) => Ok(()),
        Err(_) => Err(AllocError),
    }
}

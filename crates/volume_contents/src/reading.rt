//! The volume table of contents, read track by track.

ghost use Rattle.std.specs.Prelude.{◌≡◌, ◌≢◌, ◌+◌, ◌^◌, ◌≤◌, ◌<◌, [], ◌∷◌, ◌++◌, true, None, length, take, IfOk, OnOk, IfErr, IfSome};
ghost use Rattle.ckd_track.specs.Geometry.{tracks_of};
ghost use Rattle.ckd_track.specs.Track.{track_of};
ghost use Rattle.ckd_image.specs.Store.{Counts};
ghost use Rattle.dasd_volumes.specs.Reading.{IsRead, IsSlotOf};
ghost use Rattle.volume_contents.specs.Runs.{exists_on};
ghost use Rattle.volume_contents.specs.Contents.{label_in, label_on, table_in, table_on, bad_extent, label_place, said_with, said_behind, IsContents, SaysOf, SaysOfSlots};
ghost use Rattle.volume_contents.specs.Contents.{IsOfSlots, AddsOfSlots, AddsOfTrack};

use crate::blocks::{Block, add_finding, find_block, read_track};
use crate::findings::{Finding, Problem};
use crate::runs::{Run, address_of_track, exists_on, is_table_extent, walked};
use ckd_image::StoreFault;
use ckd_track::{Geometry, read_slot};
use dasd_volumes::{SlotReader, VolumeFault};
use std::alloc::{AllocError, Global};
use volume_labels::{
    BlockKind, ContentsBlock, Extent, RecordAddress, TrackAddress, VolumeLabel, contents_block,
    volume_label,
};

/// Which record of the first track is the volume label, record 0 being the first.
const LABEL: usize = 3;

/// What a volume says of itself.
#[derive(Drop)]
pub struct Contents {
    /// The volume label.
    pub label: Option<VolumeLabel>,
    /// The format 4 block.
    pub table: Option<ContentsBlock>,
    /// The control blocks in use, in the order of the volume table of contents; and what is wrong.
    pub found: Found,
}

/// Control blocks, and what is wrong.
#[derive(Drop)]
pub struct Found {
    /// The control blocks in use, in the order of the volume table of contents.
    pub blocks: Vec<Block>,
    /// What is wrong, in the order in which it was found.
    pub findings: Vec<Finding>,
}

/// Reads the volume label, and the control blocks of the volume table of contents, track by track and one slot at a time. What is no
/// label, no control block or no track is a finding, and the rest is read. The tracks are those of the extent in the format 4
/// block that are on the volume, or, where it says none, the track of that block alone.
///
/// # Errors
///
/// There is no memory for a slot or for the blocks in use; or a read fails.
pub fn read_contents<V: SlotReader>(alloc: Global, volume: &mut V) -> Result<Contents, VolumeFault>
    ensures contents { IfOk result (IsContents (V.volume volume.old)) }
    ensures fault { IfErr result (λ e. e ≢ VolumeFault.Write) }
    ensures volume { IsRead result (V.volume volume.old) (V.volume volume.new) (V.failures volume.old) (V.failures volume.new) }
{
    let geometry = volume.geometry();
    let Ok(mut slot) = vec![in alloc; 0u8; geometry.track_size as usize] else {
        return Err(VolumeFault::OutOfMemory);
    };
    let slot = slot.as_mut_slice();
    match read_label(volume, slot) {
        Ok(Some(label)) => read_labelled(alloc, volume, slot, label),
        Ok(None) => without_table(alloc, None, Problem::NoLabel),
        Err(fault) => Err(fault),
    }
}

// What there is of a volume that has this label, by way of the slot.
fn read_labelled<V: SlotReader>(
    alloc: Global,
    volume: &mut V,
    slot: &mut [u8],
    label: VolumeLabel,
) -> Result<Contents, VolumeFault>
    requires size { length slot.old ≡ (V.volume volume.old).geometry.track_size }
    ensures contents { IfOk result (SaysOfSlots (V.volume volume.old) (said_behind label)) }
    ensures fault { IfErr result (λ e. e ≢ VolumeFault.Write) }
    ensures volume { IsRead result (V.volume volume.old) (V.volume volume.new) (V.failures volume.old) (V.failures volume.new) }
{
    match read_table(alloc, volume, slot, label.contents) {
        Ok(Some(table)) => read_blocks(alloc, volume, slot, label, table),
        Ok(None) => without_table(alloc, Some(label), Problem::NoContents(label.contents)),
        Err(fault) => Err(fault),
    }
}

// What there is of a volume without a label, or without a volume table of contents.
fn without_table(
    alloc: Global,
    label: Option<VolumeLabel>,
    problem: Problem,
) -> Result<Contents, VolumeFault>
    ensures contents { IfOk result (SaysOf (record {
      label = label;
      table = None;
      blocks = [];
      findings = record { place = label_place; problem = problem } ∷ [];
    })) }
    ensures memory { IfErr result (λ e. e ≡ VolumeFault.OutOfMemory) }
{
    let track = TrackAddress {
        cylinder: 0,
        head: 0,
    };
    let place = RecordAddress { track, number: 3 };
    let mut findings = Vec::new(alloc);
    if add_finding(&mut findings, Finding { place, problem }).is_err() {
        return Err(VolumeFault::OutOfMemory);
    }
    Ok(Contents {
        label,
        table: None,
        found: Found {
            blocks: Vec::new(alloc),
            findings,
        },
    })
}

// The volume label, by way of the slot.
fn read_label<V: SlotReader>(
    volume: &mut V,
    slot: &mut [u8],
) -> Result<Option<VolumeLabel>, VolumeFault>
    requires size { length slot.old ≡ (V.volume volume.old).geometry.track_size }
    requires exists { 0 < tracks_of (V.volume volume.old).geometry }
    ensures label { IfOk result (IsOfSlots (V.volume volume.old) label_on) }
    ensures memory { IfErr result (λ e. e ≢ VolumeFault.OutOfMemory) }
    ensures fault { IfErr result (λ e. e ≢ VolumeFault.Write) }
    ensures volume { IsRead result (V.volume volume.old) (V.volume volume.new) (V.failures volume.old) (V.failures volume.new) }
    ensures size { length slot.new ≡ length slot.old }
{
    let Ok(held) = load(volume, 0, slot) else {
        return Err(VolumeFault::Store);
    };
    Ok(label_of(&slot[..held]))
}

// The volume label of the first track.
fn label_of(slot: &[u8]) -> Option<VolumeLabel>
    ensures { result ≡ label_in (track_of slot.now) }
{
    let Ok(view) = read_slot(slot) else {
        return None;
    };
    if view.len() <= LABEL {
        return None;
    }
    volume_label(view.data_of(LABEL))
}

// The format 4 block at an address, by way of the slot.
fn read_table<V: SlotReader>(
    alloc: Global,
    volume: &mut V,
    slot: &mut [u8],
    address: RecordAddress,
) -> Result<Option<ContentsBlock>, VolumeFault>
    requires size { length slot.old ≡ (V.volume volume.old).geometry.track_size }
    ensures table { IfOk result (IsOfSlots (V.volume volume.old) (table_on address)) }
    ensures fault { IfErr result (λ e. e ≢ VolumeFault.Write) }
    ensures exists { IfOk result (λ table. IfSome table (λ _. exists_on (V.volume volume.old).geometry address.track ≡ true)) }
    ensures volume { IsRead result (V.volume volume.old) (V.volume volume.new) (V.failures volume.old) (V.failures volume.new) }
    ensures size { length slot.new ≡ length slot.old }
{
    let geometry = volume.geometry();
    if !exists_on(geometry, address.track) {
        return Ok(None);
    }
    let track = geometry.track_at(address.track.cylinder, address.track.head);
    let Ok(held) = load(volume, track, slot) else {
        return Err(VolumeFault::Store);
    };
    let mut found = Found {
        blocks: Vec::new(alloc),
        findings: Vec::new(alloc),
    };
    match read_track(&mut found, address.track, &slot[..held]) {
        Ok(()) => Ok(table_of(found.blocks.as_slice(), address)),
        Err(_) => Err(VolumeFault::OutOfMemory),
    }
}

// The format 4 block among these.
fn table_of(blocks: &[Block], address: RecordAddress) -> Option<ContentsBlock>
    ensures { result ≡ table_in address blocks.now }
{
    let block = blocks[find_block(blocks, address)?];
    match block.kind {
        BlockKind::Contents => Some(contents_block(&block.bytes)),
        _ => None,
    }
}

// The control blocks of the tracks that a format 4 block says.
fn read_blocks<V: SlotReader>(
    alloc: Global,
    volume: &mut V,
    slot: &mut [u8],
    label: VolumeLabel,
    table: ContentsBlock,
) -> Result<Contents, VolumeFault>
    requires size { length slot.old ≡ (V.volume volume.old).geometry.track_size }
    requires exists { exists_on (V.volume volume.old).geometry label.contents.track ≡ true }
    ensures contents { IfOk result (SaysOfSlots (V.volume volume.old) (said_with label table)) }
    ensures fault { IfErr result (λ e. e ≢ VolumeFault.Write) }
    ensures volume { IsRead result (V.volume volume.old) (V.volume volume.new) (V.failures volume.old) (V.failures volume.new) }
{
    let geometry = volume.geometry();
    let mut found = Found {
        blocks: Vec::new(alloc),
        findings: Vec::new(alloc),
    };
    if add_bad_extent(&mut found.findings, geometry, label.contents, table.extent).is_err() {
        return Err(VolumeFault::OutOfMemory);
    }
    let tracks = walked(geometry, label.contents.track, table.extent);
    match read_tracks(volume, slot, &mut found, tracks) {
        Ok(()) => Ok(Contents {
            label: Some(label),
            table: Some(table),
            found,
        }),
        Err(fault) => Err(fault),
    }
}

// Adds that the extent of the volume table of contents is not as it must be.
fn add_bad_extent(
    findings: &mut Vec<Finding>,
    geometry: Geometry,
    place: RecordAddress,
    extent: Extent,
) -> Result<(), AllocError>
    ensures { IfOk result (λ _. findings.new.items ≡ findings.old.items ++ bad_extent geometry place extent) }
{
    if is_table_extent(geometry, place.track, extent) {
        return Ok(());
    }
    add_finding(
        findings,
        Finding {
            place,
            problem: Problem::BadContents(extent),
        },
    )
}

// Adds the control blocks of these tracks, each of which is loaded into the slot, and what is wrong with them.
fn read_tracks<V: SlotReader>(
    volume: &mut V,
    slot: &mut [u8],
    found: &mut Found,
    tracks: Run,
) -> Result<(), VolumeFault>
    requires size { length slot.old ≡ (V.volume volume.old).geometry.track_size }
    requires exist { tracks.first + tracks.tracks ≤ tracks_of (V.volume volume.old).geometry }
    requires few { tracks.first + tracks.tracks < 2 ^ 32 }
    ensures blocks { OnOk result (AddsOfSlots (V.volume volume.old) tracks found.old found.new) }
    ensures fault { IfErr result (λ e. e ≢ VolumeFault.Write) }
    ensures volume { IsRead result (V.volume volume.old) (V.volume volume.new) (V.failures volume.old) (V.failures volume.new) }
{
    for i in 0..tracks.tracks {
        if let Err(fault) = read_one(volume, slot, found, tracks.first + i) {
            return Err(fault);
        }
    }
    Ok(())
}

// Adds the control blocks of one track, which is loaded into the slot.
fn read_one<V: SlotReader>(
    volume: &mut V,
    slot: &mut [u8],
    found: &mut Found,
    track: u32,
) -> Result<(), VolumeFault>
    requires size { length slot.old ≡ (V.volume volume.old).geometry.track_size }
    requires exists { track < tracks_of (V.volume volume.old).geometry }
    ensures blocks { OnOk result (AddsOfTrack (V.volume volume.old) track found.old found.new) }
    ensures fault { IfErr result (λ e. e ≢ VolumeFault.Write) }
    ensures volume { IsRead result (V.volume volume.old) (V.volume volume.new) (V.failures volume.old) (V.failures volume.new) }
    ensures size { length slot.new ≡ length slot.old }
{
    let address = address_of_track(volume.geometry(), track);
    let Ok(held) = load(volume, track, slot) else {
        return Err(VolumeFault::Store);
    };
    match read_track(found, address, &slot[..held]) {
        Ok(()) => Ok(()),
        Err(_) => Err(VolumeFault::OutOfMemory),
    }
}

// Loads a track into the slot, and says how many of its bytes there are.
fn load<V: SlotReader>(volume: &mut V, track: u32, slot: &mut [u8]) -> Result<usize, StoreFault>
    requires size { length slot.old ≡ (V.volume volume.old).geometry.track_size }
    requires exists { track < tracks_of (V.volume volume.old).geometry }
    ensures within { IfOk result (λ held. held ≤ length slot.new) }
    ensures slot { IfOk result (λ held. IsSlotOf (V.volume volume.old) track (take held slot.new)) }
    ensures kept { V.volume volume.new ≡ V.volume volume.old }
    ensures counted { Counts (V.failures volume.old) (V.failures volume.new) result }
    ensures size { length slot.new ≡ length slot.old }
{
    volume.load(track, slot)
}

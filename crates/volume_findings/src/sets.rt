//! What is wrong with the data of data sets, in the order of the volume table of contents.

ghost use Rattle.std.specs.Prelude.{◌≡◌, ◌≢◌, OnOk, IfOk, IfErr};
ghost use Rattle.dasd_volumes.specs.Reading.{IsRead};
ghost use Rattle.volume_findings.specs.Data.{is_partitioned, is_catalog, may_go_on, needs_end, set_findings, block_findings, data_findings, AddsOf};

use crate::ends::{Ended, add_end, end_from};
use crate::findings::DataFinding;
use crate::libraries::add_library;
use ckd_track::Geometry;
use dasd_volumes::{SlotReader, VolumeFault};
use std::alloc::Global;
use volume_contents::{Block, DataSet, data_set_of, is_data_set, tracks_owned, tracks_used};
use volume_labels::{DataSetBlock, RelativeAddress, without_blanks};

/// The bits of a data set's organisation that say that it is partitioned, and that it is sequential (IBM System/360 Operating System,
/// System Control Blocks, 'Data Set Control Block', format 1, DS1DSORG).
const PARTITIONED: u16 = 0x0200;

const SEQUENTIAL: u16 = 0x4000;

/// The bit of a data set's indicators that says that this is its last volume (the same, DS1DSIND).
const LAST_VOLUME: u8 = 0x80;

/// SYSCTLG in EBCDIC: the name of the catalog, all of whose tracks have blocks with keys (IBM System/360 Operating System, System Control
/// Blocks, 'Catalog').
const CATALOG: [u8; 7] = [0xE2, 0xE8, 0xE2, 0xC3, 0xE3, 0xD3, 0xC7];

/// Where the blocks of a data set begin.
const FIRST: RelativeAddress = RelativeAddress {
    track: 0,
    number: 0,
};

/// What is wrong with the data of the data sets of these control blocks.
pub(crate) fn add_blocks<V: SlotReader>(
    alloc: Global,
    volume: &mut V,
    found: &mut Vec<DataFinding>,
    blocks: &[Block],
) -> Result<(), VolumeFault>
    ensures found { OnOk result (AddsOf (data_findings blocks.now) (V.volume volume.old) found.old.items found.new.items) }
    ensures fault { IfErr result (λ e. e ≢ VolumeFault.Write) }
    ensures volume { IsRead result (V.volume volume.old) (V.volume volume.new) (V.failures volume.old) (V.failures volume.new) }
{
    for block in blocks {
        if let Err(fault) = add_block(alloc, volume, found, blocks, block) {
            return Err(fault);
        }
    }
    Ok(())
}

// What is wrong with the data of the data set whose control block this is, if it is one's.
fn add_block<V: SlotReader>(
    alloc: Global,
    volume: &mut V,
    found: &mut Vec<DataFinding>,
    blocks: &[Block],
    block: &Block,
) -> Result<(), VolumeFault>
    ensures found { OnOk result (AddsOf (block_findings blocks.now block.now) (V.volume volume.old) found.old.items found.new.items) }
    ensures fault { IfErr result (λ e. e ≢ VolumeFault.Write) }
    ensures volume { IsRead result (V.volume volume.old) (V.volume volume.new) (V.failures volume.old) (V.failures volume.new) }
{
    if !is_data_set(block.kind) {
        return Ok(());
    }
    let Ok(set) = data_set_of(alloc, blocks, block) else {
        return Err(VolumeFault::OutOfMemory);
    };
    add_set(alloc, volume, found, &set)
}

// What is wrong with the data of a data set.
fn add_set<V: SlotReader>(
    alloc: Global,
    volume: &mut V,
    found: &mut Vec<DataFinding>,
    set: &DataSet,
) -> Result<(), VolumeFault>
    ensures found { OnOk result (AddsOf (set_findings set.now.block set.now.extents.items) (V.volume volume.old) found.old.items found.new.items) }
    ensures fault { IfErr result (λ e. e ≢ VolumeFault.Write) }
    ensures volume { IsRead result (V.volume volume.old) (V.volume volume.new) (V.failures volume.old) (V.failures volume.new) }
{
    if is_partitioned(&set.block) {
        return add_library(alloc, volume, found, set);
    }
    let stop = match end_from(alloc, volume, set.extents.as_slice(), FIRST) {
        Ok(stop) => stop,
        Err(fault) => return Err(fault),
    };
    let ended = Ended {
        data_set: set.block.name,
        member: None,
        needs_end: needs_end(volume.geometry(), set),
    };
    add_end(found, ended, stop)
}

// Whether a data set has members.
fn is_partitioned(block: &DataSetBlock) -> bool
    ensures { result ≡ is_partitioned block.now }
{
    block.organisation & PARTITIONED != 0
}

// Whether the blocks of a data set without members end with an end of file on this volume.
fn needs_end(geometry: Geometry, set: &DataSet) -> bool
    ensures { result ≡ needs_end geometry set.now.block set.now.extents.items }
{
    set.block.organisation & SEQUENTIAL != 0
        && set.block.format != 0
        && tracks_used(set.block.last) != 0
        && !is_catalog(&set.block)
        && !may_go_on(geometry, set)
}

// Whether a data set is the catalog.
fn is_catalog(block: &DataSetBlock) -> bool
    ensures { result ≡ is_catalog block.now }
{
    without_blanks(&block.name) == CATALOG.as_slice()
}

// Whether a data set may go on on another volume.
fn may_go_on(geometry: Geometry, set: &DataSet) -> bool
    ensures { result ≡ may_go_on geometry set.now.block set.now.extents.items }
{
    let tracks = tracks_owned(geometry, set.extents.as_slice());
    set.block.indicators & LAST_VOLUME == 0 && tracks <= u64::from(tracks_used(set.block.last))
}

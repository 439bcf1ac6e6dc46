//! The hashes of data sets, in the order of the volume table of contents.

ghost use Rattle.std.specs.Prelude.{◌≡◌, ◌≢◌, ◌&&◌, ◌++◌, IfErr, OnOk};
ghost use Rattle.dasd_volumes.specs.Reading.{IsRead};
ghost use Rattle.volume_hash.specs.SetLines.{shown};
ghost use Rattle.volume_hash.specs.SetMessage.{is_partitioned, are_whole, beginning};
ghost use Rattle.volume_hash.specs.Prints.{Adds};
ghost use Rattle.volume_hash.specs.Sets.{none_found, findings_lines, blocks_line, set_lines, set_is_whole, block_lines, block_is_whole, blocks_lines};
ghost use Rattle.volume_hash.specs.Sets.{blocks_are_whole, contents_lines, contents_are_whole};

use crate::blocks::hash_blocks;
use crate::items::{HashesForm, Report, write_findings};
use crate::libraries::{Named, add_library, add_set};
use dasd_volumes::{SlotReader, VolumeFault};
use std::alloc::{AllocError, Global};
use volume_contents::{Block, DataSet, Finding, data_set_of, is_data_set, read_contents};
use volume_labels::{DataSetBlock, RelativeAddress, safe_name};

/// The bit of a data set's organisation that says that it is partitioned (IBM System/360 Operating System, System Control Blocks,
/// 'Data Set Control Block', format 1, DS1DSORG).
const PARTITIONED: u16 = 0x0200;

/// Where the blocks of a data set begin.
const FIRST: RelativeAddress = RelativeAddress {
    track: 0,
    number: 0,
};

/// The control blocks of a volume, and how the lines of its data sets are written.
#[derive(Clone, Copy)]
struct Table<'a> {
    form: HashesForm<'a>,
    blocks: &'a [Block],
}

/// The lines of the data sets of a volume, and of their members if they are asked for, go to the report; before them, if something is
/// wrong with the label or the table of contents, a line that says so.
///
/// # Errors
///
/// There is no memory, or a read of the volume failed.
pub(crate) fn add_contents<V: SlotReader>(
    alloc: Global,
    volume: &mut V,
    report: &mut Report,
    form: HashesForm,
) -> Result<(), VolumeFault>
    ensures lines { let f = shown form.entry.path.now form.entry.json form.entry.sets form.entry.members in
        OnOk result (Adds (contents_lines f) contents_are_whole (V.volume volume.old) report.old report.new) }
    ensures fault { IfErr result (λ e. e ≢ VolumeFault.Write) }
    ensures volume { IsRead result (V.volume volume.old) (V.volume volume.new) (V.failures volume.old) (V.failures volume.new) }
{
    let contents = match read_contents(alloc, volume) {
        Ok(contents) => contents,
        Err(fault) => return Err(fault),
    };
    let findings = contents.found.findings.as_slice();
    if let Err(_) = add_findings(report, form, findings) {
        return Err(VolumeFault::OutOfMemory);
    }
    let blocks = contents.found.blocks.as_slice();
    match add_blocks(alloc, volume, report, Table { form, blocks }) {
        Ok(()) => Ok(()),
        Err(fault) => Err(fault),
    }
}

// That something is wrong goes to the report, if it is.
fn add_findings(
    report: &mut Report,
    form: HashesForm,
    findings: &[Finding],
) -> Result<(), AllocError>
    ensures lines { let f = shown form.entry.path.now form.entry.json form.entry.sets form.entry.members in
        OnOk result (report.new.lines.items ≡ report.old.lines.items ++ findings_lines f findings.now) }
    ensures whole { report.new.is_whole ≡ (report.old.is_whole && none_found findings.now) }
{
    if findings.is_empty() {
        return Ok(());
    }
    report.is_whole = false;
    match write_findings(&mut report.lines, form) {
        Ok(()) => Ok(()),
        Err(_) => Err(AllocError),
    }
}

// The lines of the data sets of these control blocks.
fn add_blocks<V: SlotReader>(
    alloc: Global,
    volume: &mut V,
    report: &mut Report,
    table: Table,
) -> Result<(), VolumeFault>
    ensures lines { let f = shown table.entry.form.path.now table.entry.form.json table.entry.form.sets table.entry.form.members in
        OnOk result (Adds (blocks_lines f table.entry.blocks.now) (blocks_are_whole table.entry.blocks.now)
        (V.volume volume.old) report.old report.new) }
    ensures fault { IfErr result (λ e. e ≢ VolumeFault.Write) }
    ensures volume { IsRead result (V.volume volume.old) (V.volume volume.new) (V.failures volume.old) (V.failures volume.new) }
{
    let blocks = table.blocks;
    for block in blocks {
        if let Err(fault) = add_block(alloc, volume, report, table, block) {
            return Err(fault);
        }
    }
    Ok(())
}

// The lines of the data set whose control block this is, if it is one's.
fn add_block<V: SlotReader>(
    alloc: Global,
    volume: &mut V,
    report: &mut Report,
    table: Table,
    block: &Block,
) -> Result<(), VolumeFault>
    ensures lines { let f = shown table.entry.form.path.now table.entry.form.json table.entry.form.sets table.entry.form.members in
        OnOk result (Adds (block_lines f table.entry.blocks.now block.now) (block_is_whole table.entry.blocks.now block.now)
        (V.volume volume.old) report.old report.new) }
    ensures fault { IfErr result (λ e. e ≢ VolumeFault.Write) }
    ensures volume { IsRead result (V.volume volume.old) (V.volume volume.new) (V.failures volume.old) (V.failures volume.new) }
{
    if !is_data_set(block.kind) {
        return Ok(());
    }
    let Ok(set) = data_set_of(alloc, table.blocks, block) else {
        return Err(VolumeFault::OutOfMemory);
    };
    add_data_set(alloc, volume, report, table.form, &set)
}

// Whether a data set has members.
fn is_partitioned(block: &DataSetBlock) -> bool
    ensures { result ≡ is_partitioned block.now }
{
    block.organisation & PARTITIONED != 0
}

// The lines of a data set, and of its members.
fn add_data_set<V: SlotReader>(
    alloc: Global,
    volume: &mut V,
    report: &mut Report,
    form: HashesForm,
    set: &DataSet,
) -> Result<(), VolumeFault>
    ensures lines { let f = shown form.entry.path.now form.entry.json form.entry.sets form.entry.members in
        OnOk result (Adds (set_lines f set.now.block set.now.extents.items) (set_is_whole set.now.block set.now.extents.items)
        (V.volume volume.old) report.old report.new) }
    ensures fault { IfErr result (λ e. e ≢ VolumeFault.Write) }
    ensures volume { IsRead result (V.volume volume.old) (V.volume volume.new) (V.failures volume.old) (V.failures volume.new) }
{
    let Ok(name) = safe_name(alloc, &set.block.name) else {
        return Err(VolumeFault::OutOfMemory);
    };
    let named = Named {
        form,
        name: name.as_str(),
        extents: set.extents.as_slice(),
    };
    if is_partitioned(&set.block) {
        return add_library(alloc, volume, report, named);
    }
    add_sequential(alloc, volume, report, named)
}

// The line of a data set without members.
fn add_sequential<V: SlotReader>(
    alloc: Global,
    volume: &mut V,
    report: &mut Report,
    named: Named,
) -> Result<(), VolumeFault>
    ensures lines { let f = shown named.entry.form.path.now named.entry.form.json named.entry.form.sets named.entry.form.members in
        OnOk result (Adds (blocks_line f named.entry.name.now named.entry.extents.now) (are_whole named.entry.extents.now beginning)
        (V.volume volume.old) report.old report.new) }
    ensures fault { IfErr result (λ e. e ≢ VolumeFault.Write) }
    ensures volume { IsRead result (V.volume volume.old) (V.volume volume.new) (V.failures volume.old) (V.failures volume.new) }
{
    let hash = match hash_blocks(alloc, volume, named.extents, FIRST) {
        Ok(hash) => hash,
        Err(fault) => return Err(fault),
    };
    match add_set(alloc, report, named, hash) {
        Ok(()) => Ok(()),
        Err(_) => Err(VolumeFault::OutOfMemory),
    }
}

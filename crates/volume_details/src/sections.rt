//! Sections behind the table of a volume, one of a data set.

ghost use Rattle.std.specs.Prelude.{◌≡◌, ◌≢◌, ◌&&◌, ◌||◌, OnOk, IfOk, IfErr};
ghost use Rattle.std.specs.Option.{option_copied};
ghost use Rattle.std.specs.Io.KnownBytes.{Appends};
ghost use Rattle.counted_io.specs.Streams.{seen_by, IsFlushed};
ghost use Rattle.dasd_volumes.specs.Printing.{PrintsText, CountsWrites};
ghost use Rattle.dasd_volumes.specs.Reading.{IsRead};
ghost use Rattle.volume_contents.specs.Sets.{is_data_set};
ghost use Rattle.dasd_unload.specs.Parts.{is_partitioned};
ghost use Rattle.library_contents.specs.Report.{printed, Adds, AddsOf};
ghost use Rattle.volume_details.specs.Long.{described_by};
ghost use Rattle.volume_details.specs.Sections.{shown_by, name_line, name_lines, front_lines, described_lines, block_lines, sections, TellsWrong};

use crate::long::{Described, add_long};
use crate::printing::print_report;
use counted_io::Counted;
use dasd_volumes::{SlotReader, VolumeFault};
use library_contents::{Library, MembersForm, Report, list_members};
use std::alloc::Global;
use std::io;
use std::io::Write;
use volume_contents::{Block, Contents, DataSet, data_set_of};
use volume_labels::{BlockKind, DataSetBlock, safe_name};

/// The bit of a data set's organisation that says that it is partitioned (IBM System/360 Operating System, System Control Blocks,
/// 'Data Set Control Block', format 1, DS1DSORG).
const PARTITIONED: u16 = 0x0200;

/// What stands in front of each line of a section.
const MARGIN: &str = "  ";

/// What is shown of data sets.
#[derive(Clone, Copy)]
pub struct DetailForm<'a> {
    /// The paths of the volume, as a string of JSON with its quotes, where lines are objects of it.
    pub json: Option<&'a str>,
    /// Whether members of partitioned data sets are listed.
    pub members: bool,
    /// Whether it is told what the line of the table leaves out.
    pub is_long: bool,
}

/// Whether a data set has members.
pub(crate) fn is_partitioned(block: &DataSetBlock) -> bool
    ensures { result ≡ is_partitioned block.now }
{
    block.organisation & PARTITIONED != 0
}

/// Prints a section for each data set of a volume of which there is something to show: what the line of the table leaves out of it, and its
/// members. It says whether something is wrong with members or their directories. The lines are made in memory, and written from there.
///
/// # Errors
///
/// There is no memory, or a read fails, and nothing is printed; or a write failed, or the flush, and exactly then it is a write fault.
pub fn print_sections<V: SlotReader, W: Write>(
    alloc: Global,
    volume: &mut V,
    writer: &mut Counted<W>,
    view: DetailForm,
    contents: &Contents,
) -> Result<bool, VolumeFault>
    ensures lines { PrintsText result (λ g slots. printed (sections (shown_by view.entry) contents.now.found.blocks.items g slots)) (V.volume volume.old)
        (seen_by W.contents writer.old) (seen_by W.contents writer.new) }
    ensures wrong { IfOk result (TellsWrong (sections (shown_by view.entry) contents.now.found.blocks.items) (V.volume volume.old)) }
    ensures writes { CountsWrites result (seen_by W.contents writer.old) (seen_by W.contents writer.new) }
    ensures none { IfErr result (λ e. e ≢ VolumeFault.Write → writer.new ≡ writer.old) }
    ensures volume { IsRead result (V.volume volume.old) (V.volume volume.new) (V.failures volume.old) (V.failures volume.new) }
    ensures flushed { OnOk result (IsFlushed (seen_by W.contents writer.new)) }
{
    let mut report = Report::new(alloc);
    let blocks = contents.found.blocks.as_slice();
    if let Err(fault) = add_sections(alloc, volume, &mut report, view, blocks) {
        return Err(fault);
    }
    match print_report(writer, &report) {
        Ok(()) => Ok(report.is_wrong),
        Err(fault) => Err(fault),
    }
}

// The sections of the data sets among control blocks.
fn add_sections<V: SlotReader>(
    alloc: Global,
    volume: &mut V,
    report: &mut Report,
    view: DetailForm,
    blocks: &[Block],
) -> Result<(), VolumeFault>
    ensures lines { OnOk result (AddsOf (V.volume volume.old) report.old report.new (sections (shown_by view.entry) blocks.now)) }
    ensures fault { IfErr result (λ e. e ≢ VolumeFault.Write) }
    ensures volume { IsRead result (V.volume volume.old) (V.volume volume.new) (V.failures volume.old) (V.failures volume.new) }
{
    for block in blocks {
        let row = Row {
            view,
            blocks,
            block,
        };
        if let Err(fault) = add_block(alloc, volume, report, row) {
            return Err(fault);
        }
    }
    Ok(())
}

// A control block among those of its volume, and what is shown of it.
#[derive(Clone, Copy)]
struct Row<'a> {
    view: DetailForm<'a>,
    blocks: &'a [Block],
    block: &'a Block,
}

// The section of the data set whose block this is, if it is one's.
fn add_block<V: SlotReader>(
    alloc: Global,
    volume: &mut V,
    report: &mut Report,
    row: Row,
) -> Result<(), VolumeFault>
    ensures lines { OnOk result (AddsOf (V.volume volume.old) report.old report.new
        (block_lines (shown_by row.entry.view) row.entry.blocks.now row.entry.block.now)) }
    ensures fault { IfErr result (λ e. e ≢ VolumeFault.Write) }
    ensures volume { IsRead result (V.volume volume.old) (V.volume volume.new) (V.failures volume.old) (V.failures volume.new) }
{
    if !is_data_set(row.block.kind) {
        return Ok(());
    }
    let Ok(set) = data_set_of(alloc, row.blocks, row.block) else {
        return Err(VolumeFault::OutOfMemory);
    };
    let Ok(name) = safe_name(alloc, &set.block.name) else {
        return Err(VolumeFault::OutOfMemory);
    };
    let described = Described {
        name: name.as_str(),
        block: row.block,
        set: &set,
    };
    add_set(alloc, volume, report, row.view, described)
}

// Whether a control block is one of format 1.
fn is_data_set(kind: BlockKind) -> bool
    ensures { result ≡ is_data_set kind }
{
    kind == BlockKind::DataSet
}

// The section of a data set: its name, what the table leaves out, and its members.
fn add_set<V: SlotReader>(
    alloc: Global,
    volume: &mut V,
    report: &mut Report,
    view: DetailForm,
    described: Described,
) -> Result<(), VolumeFault>
    ensures lines { OnOk result (AddsOf (V.volume volume.old) report.old report.new
        (described_lines (view.entry.members && is_partitioned described.entry.set.now.block) (shown_by view.entry) (described_by described.entry))) }
    ensures fault { IfErr result (λ e. e ≢ VolumeFault.Write) }
    ensures volume { IsRead result (V.volume volume.old) (V.volume volume.new) (V.failures volume.old) (V.failures volume.new) }
{
    let has_members = lists_members(view, &described.set.block);
    if !is_shown(view, has_members) {
        return Ok(());
    }
    if let Err(fault) = add_front(report, view, described) {
        return Err(fault);
    }
    if !has_members {
        return Ok(());
    }
    let form = MembersForm {
        json: view.json,
        margin: MARGIN,
        name: described.name,
    };
    let extents = described.set.extents.as_slice();
    list_members(alloc, volume, report, Library { form, extents })
}

// Whether the members of a data set are listed.
fn lists_members(view: DetailForm, block: &DataSetBlock) -> bool
    ensures { result ≡ (view.entry.members && is_partitioned block.now) }
{
    view.members && is_partitioned(block)
}

// Whether there is something to show of a data set.
fn is_shown(view: DetailForm, has_members: bool) -> bool
    ensures { result ≡ (view.entry.is_long || has_members) }
{
    view.is_long || has_members
}

// What stands above the members of a data set: its name, and what the table leaves out.
fn add_front(report: &mut Report, view: DetailForm, described: Described) -> Result<(), VolumeFault>
    ensures lines { OnOk result (Adds report.old report.new (front_lines (shown_by view.entry) (described_by described.entry))) }
    ensures fault { IfErr result (λ e. e ≡ VolumeFault.OutOfMemory) }
{
    if let Err(fault) = add_name(report, view.json, described.name) {
        return Err(fault);
    }
    if !view.is_long {
        return Ok(());
    }
    add_long(report, view.json, described)
}

// The name of a data set above its section, where sections are lines of text.
fn add_name(report: &mut Report, json: Option<&str>, name: &str) -> Result<(), VolumeFault>
    ensures lines { OnOk result (Adds report.old report.new (name_lines (option_copied json.entry) name.now)) }
    ensures fault { IfErr result (λ e. e ≡ VolumeFault.OutOfMemory) }
{
    if json.is_some() {
        return Ok(());
    }
    match write_name(&mut report.text, name) {
        Ok(()) => Ok(()),
        Err(_) => Err(VolumeFault::OutOfMemory),
    }
}

// A name as a line.
fn write_name<W: Write>(writer: &mut W, name: &str) -> io::Result<()>
    ensures { OnOk result (Appends (W.contents writer.old) (W.contents writer.new) (name_line name.now)) }
{
    writeln!(writer, "{name}")
}

//! All data sets of a volume, each unloaded to a file.

ghost use Rattle.std.specs.Prelude.{◌≡◌, ◌∷◌, [], if◌then◌else◌, None, Some, codes, map, IfOk, IfErr, OnOk, true};
ghost use Rattle.std.specs.List.{flat_map};
ghost use Rattle.std.specs.Option.{option_copied};
ghost use Rattle.counted_io.specs.Streams.{seen_by, IsFlushed};
ghost use Rattle.volume_contents.specs.Sets.{is_data_set};
ghost use Rattle.dasd_extract.specs.Walk.{wanted};
ghost use Rattle.dasd_unload.specs.Unloads.{AddsIn, IsFileName, outcome, is_of_job};
ghost use Rattle.dasd_unload.specs.Described.{described};
ghost use Rattle.dasd_unload.specs.Volumes.{plan, plan_of, Unload, Describe, block_steps, table_steps, partitioned_steps, set_steps, volume_steps};
ghost use Rattle.dasd_unload.specs.Volumes.{DoesOfVolume, CountsReport, UnloadsVolume};

use crate::fault::{NO_MEMORY, UnloadFault, of_reading};
use crate::names::{name_of_member, name_of_set, path_in};
use crate::parts::{end_of, is_partitioned};
use crate::report::{Named, Report, Wrong};
use crate::sets::{BlockForm, form_of, unload_to, whole};
use crate::texts::{describe, put_text};
use counted_io::Counted;
use dasd_extract::{ExtractedForm, Source, member_of, read_members};
use dasd_jobs::{ImageFiles, JobFault, SlotReader, open_volume};
use set_forms::FILE_NAME;
use std::alloc::Global;
use std::io::Write;
use volume_contents::{Block, DataSet, data_set_of, read_contents};
use volume_labels::{BlockKind, DataSetBlock};

/// A volume all of whose data sets are to be unloaded.
#[derive(Clone, Copy)]
pub struct WantedVolume<'a> {
    /// The folder of the new files.
    pub folder: &'a str,
    /// How blocks are written.
    pub block_form: BlockForm,
    /// The paths of the volume, as a string of JSON with its quotes.
    pub path: &'a str,
    /// Whether each line that is printed is an object of JSON, with this path.
    pub json: bool,
    /// Whether its files are read as far as they go.
    pub as_far: bool,
}

/// Where data sets go, how, and how the lines of what is told are written.
#[derive(Clone, Copy)]
struct Target<'a> {
    alloc: Global,
    folder: &'a str,
    block_form: BlockForm,
    json: Option<&'a str>,
}

/// The control blocks of a volume, and where its data sets go.
#[derive(Clone, Copy)]
struct Table<'a> {
    target: Target<'a>,
    blocks: &'a [Block],
}

/// One of the control blocks.
#[derive(Clone, Copy)]
struct Row<'a> {
    table: Table<'a>,
    block: &'a Block,
}

/// A data set, and where it goes.
#[derive(Clone, Copy)]
struct Listed<'a> {
    target: Target<'a>,
    set: &'a DataSet,
}

/// A data set, where it goes, and how its blocks are written.
#[derive(Clone, Copy)]
struct Opened<'a> {
    target: Target<'a>,
    set: &'a DataSet,
    form: ExtractedForm,
}

/// What is unloaded, where it goes, the name of its file, and the label of its data set.
#[derive(Clone, Copy)]
struct Item<'a> {
    target: Target<'a>,
    name: &'a str,
    source: Source<'a>,
    block: &'a DataSetBlock,
}

/// Unloads all data sets and members from the volume of these files, each once to a new file of a folder, under a name that can't lead
/// out of it, in the order of the table of contents and of the directories. It prints a line for each of them, for each that is not
/// whole or not unloaded, with why, and for how many there are of both; and answers how many things were wrong. A file that is there
/// already stays, and is one of these. Behind all of them it puts what the labels and the directories say into the file `data_sets.txt`
/// of the folder, as a text of [`set_forms`], which has no line and is not counted.
///
/// # Errors
///
/// A fault stopped it: the files that were written until then stay, and no other is there. It is a write fault where a write of a line
/// failed, or the flush, or where a file can't be made.
pub fn unload_volume<F: ImageFiles, W: Write>(
    alloc: Global,
    files: &mut F,
    writer: &mut Counted<W>,
    paths: &[&str],
    volume: WantedVolume,
) -> Result<usize, UnloadFault>
    ensures volume { UnloadsVolume volume.entry.as_far result (map (λ path. path.now) paths.now)
        (plan_of volume.entry.folder.now volume.entry.block_form volume.entry.json volume.entry.path.now)
        (F.opened files.old) (F.opened files.new)
        (outcome (F.written files.old) (seen_by W.contents writer.old)) (outcome (F.written files.new) (seen_by W.contents writer.new)) }
    ensures writes { CountsReport result (seen_by W.contents writer.old) (seen_by W.contents writer.new) }
    ensures flushed { OnOk result (IsFlushed (seen_by W.contents writer.new)) }
    ensures files { AddsIn volume.entry.folder.now (F.written files.old) (F.written files.new) }
    ensures fault { IfErr result (λ e. is_of_job e ≡ true) }
{
    let mut opened = match open_volume(alloc, files, paths, volume.as_far) {
        Ok(opened) => opened,
        Err(fault) => return Err(UnloadFault::Job(fault)),
    };
    let target = Target {
        alloc,
        folder: volume.folder,
        block_form: volume.block_form,
        json: path_if(volume.json, volume.path),
    };
    let mut report = Report::new(alloc);
    let unloaded = unload_contents(files, &mut opened, writer, &mut report, target);
    files.settle();
    match unloaded {
        Ok(()) => report.end(writer, target.json),
        Err(fault) => Err(fault),
    }
}

// The paths of a volume, where they are asked for.
fn path_if<'a>(json: bool, path: &'a str) -> Option<&'a str>
    ensures { option_copied result ≡ (if json then Some path.now else None) }
{
    json.then_some(path)
}

// Unloads the data sets of a volume, behind what is wrong with its label and its control blocks.
fn unload_contents<F: ImageFiles, V: SlotReader, W: Write>(
    files: &mut F,
    volume: &mut V,
    writer: &mut Counted<W>,
    report: &mut Report,
    target: Target,
) -> Result<(), UnloadFault>
    ensures does { DoesOfVolume result (V.volume volume.old)
        (plan target.entry.folder.now target.entry.block_form (option_copied target.entry.json))
        (λ u. volume_steps u)
        (outcome (F.written files.old) (seen_by W.contents writer.old)) (outcome (F.written files.new) (seen_by W.contents writer.new))
        report.old.tally report.new.tally }
    ensures files { AddsIn target.entry.folder.now (F.written files.old) (F.written files.new) }
    ensures same { F.opened files.new ≡ F.opened files.old }
    ensures kept { V.volume volume.new ≡ V.volume volume.old }
    ensures fault { IfErr result (λ e. is_of_job e ≡ true) }
{
    let contents = match read_contents(target.alloc, volume) {
        Ok(contents) => contents,
        Err(fault) => return Err(of_reading(fault)),
    };
    let named = Named {
        name: "volume table of contents",
        json: target.json,
    };
    let findings = contents.found.findings.as_slice();
    if let Err(fault) = report.contents(writer, named, findings.len()) {
        return Err(fault);
    }
    let blocks = contents.found.blocks.as_slice();
    unload_table(files, volume, writer, report, Table { target, blocks })
}

// Unloads the data sets of control blocks, and describes them behind all.
fn unload_table<F: ImageFiles, V: SlotReader, W: Write>(
    files: &mut F,
    volume: &mut V,
    writer: &mut Counted<W>,
    report: &mut Report,
    table: Table,
) -> Result<(), UnloadFault>
    ensures does { DoesOfVolume result (V.volume volume.old)
        (plan table.entry.target.folder.now table.entry.target.block_form (option_copied table.entry.target.json))
        (λ u. table_steps u table.entry.blocks.now)
        (outcome (F.written files.old) (seen_by W.contents writer.old)) (outcome (F.written files.new) (seen_by W.contents writer.new))
        report.old.tally report.new.tally }
    ensures files { AddsIn table.entry.target.folder.now (F.written files.old) (F.written files.new) }
    ensures same { F.opened files.new ≡ F.opened files.old }
    ensures kept { V.volume volume.new ≡ V.volume volume.old }
    ensures fault { IfErr result (λ e. is_of_job e ≡ true) }
{
    if let Err(fault) = unload_sets(files, volume, writer, report, table) {
        return Err(fault);
    }
    unload_text(files, volume, writer, report, table)
}

// Describes the data sets of control blocks in a new file. A file that is there stays, and is a finding.
fn unload_text<F: ImageFiles, V: SlotReader, W: Write>(
    files: &mut F,
    volume: &mut V,
    writer: &mut Counted<W>,
    report: &mut Report,
    table: Table,
) -> Result<(), UnloadFault>
    ensures does { DoesOfVolume result (V.volume volume.old)
        (plan table.entry.target.folder.now table.entry.target.block_form (option_copied table.entry.target.json))
        (λ u. Describe (described table.entry.blocks.now u.volume.geometry u.slots) ∷ [])
        (outcome (F.written files.old) (seen_by W.contents writer.old)) (outcome (F.written files.new) (seen_by W.contents writer.new))
        report.old.tally report.new.tally }
    ensures files { AddsIn table.entry.target.folder.now (F.written files.old) (F.written files.new) }
    ensures same { F.opened files.new ≡ F.opened files.old }
    ensures kept { V.volume volume.new ≡ V.volume volume.old }
    ensures fault { IfErr result (λ e. is_of_job e ≡ true) }
{
    let target = table.target;
    let text = match describe(target.alloc, volume, table.blocks) {
        Ok(text) => text,
        Err(fault) => return Err(fault),
    };
    let path = match path_in(target.alloc, target.folder, FILE_NAME) {
        Ok(path) => path,
        Err(fault) => return Err(fault),
    };
    let described = Named {
        name: FILE_NAME,
        json: target.json,
    };
    match put_text(target.alloc, files, path.as_str(), text.as_slice()) {
        Ok(()) => Ok(()),
        Err(UnloadFault::Job(JobFault::Exists)) => report.finding(writer, described, Wrong::Exists),
        Err(fault) => Err(fault),
    }
}

// Unloads the data sets of control blocks.
fn unload_sets<F: ImageFiles, V: SlotReader, W: Write>(
    files: &mut F,
    volume: &mut V,
    writer: &mut Counted<W>,
    report: &mut Report,
    table: Table,
) -> Result<(), UnloadFault>
    ensures does { DoesOfVolume result (V.volume volume.old)
        (plan table.entry.target.folder.now table.entry.target.block_form (option_copied table.entry.target.json))
        (λ u. flat_map (block_steps u table.entry.blocks.now) table.entry.blocks.now)
        (outcome (F.written files.old) (seen_by W.contents writer.old)) (outcome (F.written files.new) (seen_by W.contents writer.new))
        report.old.tally report.new.tally }
    ensures files { AddsIn table.entry.target.folder.now (F.written files.old) (F.written files.new) }
    ensures same { F.opened files.new ≡ F.opened files.old }
    ensures kept { V.volume volume.new ≡ V.volume volume.old }
    ensures fault { IfErr result (λ e. is_of_job e ≡ true) }
{
    let blocks = table.blocks;
    for block in blocks {
        let row = Row { table, block };
        if let Err(fault) = unload_block(files, volume, writer, report, row) {
            return Err(fault);
        }
    }
    Ok(())
}

// Unloads the data set of a control block, if it is one's.
fn unload_block<F: ImageFiles, V: SlotReader, W: Write>(
    files: &mut F,
    volume: &mut V,
    writer: &mut Counted<W>,
    report: &mut Report,
    row: Row,
) -> Result<(), UnloadFault>
    ensures does { DoesOfVolume result (V.volume volume.old)
        (plan row.entry.table.target.folder.now row.entry.table.target.block_form (option_copied row.entry.table.target.json))
        (λ u. block_steps u row.entry.table.blocks.now row.entry.block.now)
        (outcome (F.written files.old) (seen_by W.contents writer.old)) (outcome (F.written files.new) (seen_by W.contents writer.new))
        report.old.tally report.new.tally }
    ensures files { AddsIn row.entry.table.target.folder.now (F.written files.old) (F.written files.new) }
    ensures same { F.opened files.new ≡ F.opened files.old }
    ensures kept { V.volume volume.new ≡ V.volume volume.old }
    ensures fault { IfErr result (λ e. is_of_job e ≡ true) }
{
    let Row { table, block } = row;
    if !is_data_set(block) {
        return Ok(());
    }
    let target = table.target;
    let Ok(set) = data_set_of(target.alloc, table.blocks, block) else {
        return Err(NO_MEMORY);
    };
    let listed = Listed { target, set: &set };
    unload_one(files, volume, writer, report, listed)
}

// Whether a control block is one of format 1.
fn is_data_set(block: &Block) -> bool
    ensures { result ≡ is_data_set block.now.kind }
{
    block.kind == BlockKind::DataSet
}

// Unloads a data set, or its members.
fn unload_one<F: ImageFiles, V: SlotReader, W: Write>(
    files: &mut F,
    volume: &mut V,
    writer: &mut Counted<W>,
    report: &mut Report,
    listed: Listed,
) -> Result<(), UnloadFault>
    ensures does { DoesOfVolume result (V.volume volume.old)
        (plan listed.entry.target.folder.now listed.entry.target.block_form (option_copied listed.entry.target.json))
        (λ u. set_steps u listed.entry.set.now.block listed.entry.set.now.extents.items listed.entry.set.now.fault)
        (outcome (F.written files.old) (seen_by W.contents writer.old)) (outcome (F.written files.new) (seen_by W.contents writer.new))
        report.old.tally report.new.tally }
    ensures files { AddsIn listed.entry.target.folder.now (F.written files.old) (F.written files.new) }
    ensures same { F.opened files.new ≡ F.opened files.old }
    ensures kept { V.volume volume.new ≡ V.volume volume.old }
    ensures fault { IfErr result (λ e. is_of_job e ≡ true) }
{
    let Listed { target, set } = listed;
    let name = match name_of_set(target.alloc, set) {
        Ok(name) => name,
        Err(fault) => return Err(fault),
    };
    let named = Named {
        name: name.as_str(),
        json: target.json,
    };
    if let Err(fault) = report.chain(writer, named, set.fault) {
        return Err(fault);
    }
    let Some(form) = form_of(&set.block, target.block_form) else {
        return report.finding(writer, named, Wrong::NoRecords);
    };
    if is_partitioned(&set.block) {
        let opened = Opened { target, set, form };
        return unload_members(files, volume, writer, report, opened);
    }
    let item = Item {
        target,
        name: named.name,
        source: whole(set.extents.as_slice(), form),
        block: &set.block,
    };
    unload_item(files, volume, writer, report, item)
}

// Unloads the members of a partitioned data set.
fn unload_members<F: ImageFiles, V: SlotReader, W: Write>(
    files: &mut F,
    volume: &mut V,
    writer: &mut Counted<W>,
    report: &mut Report,
    opened: Opened,
) -> Result<(), UnloadFault>
    ensures does { DoesOfVolume result (V.volume volume.old)
        (plan opened.entry.target.folder.now opened.entry.target.block_form (option_copied opened.entry.target.json))
        (λ u. partitioned_steps u opened.entry.set.now.block opened.entry.set.now.extents.items opened.entry.form)
        (outcome (F.written files.old) (seen_by W.contents writer.old)) (outcome (F.written files.new) (seen_by W.contents writer.new))
        report.old.tally report.new.tally }
    ensures files { AddsIn opened.entry.target.folder.now (F.written files.old) (F.written files.new) }
    ensures same { F.opened files.new ≡ F.opened files.old }
    ensures kept { V.volume volume.new ≡ V.volume volume.old }
    ensures fault { IfErr result (λ e. is_of_job e ≡ true) }
{
    let Opened { target, set, form } = opened;
    let extents = set.extents.as_slice();
    let members = match read_members(target.alloc, volume, extents) {
        Ok(members) => members,
        Err(fault) => return Err(of_reading(fault)),
    };
    let name = match name_of_set(target.alloc, set) {
        Ok(name) => name,
        Err(fault) => return Err(fault),
    };
    let named = Named {
        name: name.as_str(),
        json: target.json,
    };
    if let Err(fault) = report.directory(writer, named, &members) {
        return Err(fault);
    }
    let entries = members.entries.as_slice();
    for entry in entries {
        let name = match name_of_member(target.alloc, set, entry) {
            Ok(name) => name,
            Err(fault) => return Err(fault),
        };
        let item = Item {
            target,
            name: name.as_str(),
            source: member_of(extents, *entry, form),
            block: &set.block,
        };
        if let Err(fault) = unload_item(files, volume, writer, report, item) {
            return Err(fault);
        }
    }
    Ok(())
}

// Unloads one, to a new file. A file that is there stays, and is a finding.
fn unload_item<F: ImageFiles, V: SlotReader, W: Write>(
    files: &mut F,
    volume: &mut V,
    writer: &mut Counted<W>,
    report: &mut Report,
    item: Item,
) -> Result<(), UnloadFault>
    requires name { IsFileName item.name.now }
    ensures does { DoesOfVolume result (V.volume volume.old)
        (plan item.entry.target.folder.now item.entry.target.block_form (option_copied item.entry.target.json))
        (λ u. Unload item.entry.name.now
        (wanted item.entry.source.form item.entry.source.extents.now item.entry.source.start item.entry.source.tracks) item.entry.block.now ∷ [])
        (outcome (F.written files.old) (seen_by W.contents writer.old)) (outcome (F.written files.new) (seen_by W.contents writer.new))
        report.old.tally report.new.tally }
    ensures files { AddsIn item.entry.target.folder.now (F.written files.old) (F.written files.new) }
    ensures same { F.opened files.new ≡ F.opened files.old }
    ensures kept { V.volume volume.new ≡ V.volume volume.old }
    ensures fault { IfErr result (λ e. is_of_job e ≡ true) }
{
    let Item {
        target,
        name,
        source,
        block,
    } = item;
    let path = match path_in(target.alloc, target.folder, name) {
        Ok(path) => path,
        Err(fault) => return Err(fault),
    };
    let named = Named {
        name,
        json: target.json,
    };
    match unload_to(target.alloc, files, volume, path.as_str(), source) {
        Ok(unloaded) => {
            let end = end_of(block, unloaded.stop);
            report.unloaded(writer, named, unloaded.bytes, end)
        }
        Err(UnloadFault::Job(JobFault::Exists)) => report.finding(writer, named, Wrong::Exists),
        Err(fault) => Err(fault),
    }
}

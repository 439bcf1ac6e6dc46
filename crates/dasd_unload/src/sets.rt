//! A data set or a member of a partitioned one, unloaded from a volume.

ghost use Rattle.std.specs.Prelude.{◌≡◌, ◌≢◌, true, false, Ok, IfOk, IfErr, OnOk, OnErr};
ghost use Rattle.std.specs.Option.{option_copied};
ghost use Rattle.counted_io.specs.Streams.{seen_by, IsFlushed};
ghost use Rattle.dasd_extract.specs.Walk.{PrintsSource, wanted};
ghost use Rattle.dasd_unload.specs.Unloads.{UnloadsTo, CountsPrinted, outcome, is_of_job, leaves_a_file};
ghost use Rattle.dasd_unload.specs.Asked.{asked_by, attributes_of, beginning, form_of, form_asked, SetOf, MemberOf, StartsAt, Asks, PutsBlocks, PrintsFirst};
ghost use Rattle.dasd_unload.specs.Asked.{StopsPrinting, CountsSet, UnloadsSet};
ghost use Rattle.dasd_unload.specs.Causes.{WhyNoStart, WhyNot, UnloadsOrTells};

use crate::fault::{NO_MEMORY, UnloadFault, of_reading, of_volume};
use crate::parts::{End, end_of, is_partitioned, is_whole};
use counted_io::{Counted, WriteFault, flush_all};
use dasd_extract::{
    ExtractedForm, Source, Stop, data_set_name, extract, find_member, member_name, read_members,
};
use dasd_jobs::{ImageFiles, JobFault, SlotReader, begin_file, put_file};
use std::alloc::Global;
use std::io::Write;
use volume_contents::{DataSet, find, read_contents};
use volume_labels::{
    AttributeFault, DataSetBlock, DirectoryEntry, Extent, Layout, RecordAttributes,
    RelativeAddress, layout_given, record_form,
};

/// Where the blocks of a data set begin.
const FIRST: RelativeAddress = RelativeAddress {
    track: 0,
    number: 0,
};

/// How the blocks of data sets are written to files.
#[derive(Clone, Copy, Debug, PartialEq, Eq)]
pub enum BlockForm {
    /// Their data as it stands.
    Raw,
    /// Their records as lines of text.
    Text,
    /// Each with its lengths and its key, so that they can be told apart.
    WithLengths,
}

/// A data set that is to be unloaded.
#[derive(Clone, Copy)]
pub struct WantedSet<'a> {
    /// Its name.
    pub name: &'a str,
    /// The member of it, if it is partitioned.
    pub member: Option<&'a str>,
    /// The path of the new file for it; none is the writer.
    pub target: Option<&'a str>,
    /// How its blocks are written.
    pub block_form: BlockForm,
    /// The record format and lengths that are given for lines of text.
    pub given: Option<RecordAttributes>,
}

/// What is asked for on a volume: its data set, how its blocks are written, and where they begin.
#[derive(Drop)]
struct FoundBlocks {
    set: DataSet,
    form: ExtractedForm,
    start: RelativeAddress,
}

/// What was unloaded to a file: how many bytes, and where the blocks end and why.
#[derive(Clone, Copy)]
pub(crate) struct Unloaded {
    pub(crate) bytes: u64,
    pub(crate) stop: Stop,
}

/// Unloads a data set or a member of one from a volume: its blocks up to the end of file, to the writer or to a new file. What ends
/// before that is written as far as it goes, and of a data set on several volumes the part that this one has.
///
/// # Errors
///
/// There is no such data set or member, its format has no records to be lines, or what is given of them contradicts its label; a file is
/// at the path; or a fault stopped it: then no file is there that was not. Or it was unloaded, and is not whole.
pub fn unload_set<F: ImageFiles, V: SlotReader, W: Write>(
    alloc: Global,
    files: &mut F,
    volume: &mut V,
    writer: &mut Counted<W>,
    set: WantedSet,
) -> Result<(), UnloadFault>
    ensures unloaded { UnloadsOrTells result (asked_by set.entry)
        (V.volume volume.old) (outcome (F.written files.old) (seen_by W.contents writer.old)) (outcome (F.written files.new) (seen_by W.contents writer.new)) }
    ensures writes { CountsSet result (option_copied set.entry.target) (seen_by W.contents writer.old) (seen_by W.contents writer.new) }
    ensures same { F.opened files.new ≡ F.opened files.old }
    ensures kept { IfErr result (λ e. leaves_a_file e ≡ false → F.written files.new ≡ F.written files.old) }
{
    match unload_from(alloc, files, volume, writer, set) {
        Ok(end) if is_whole(end) => Ok(()),
        Ok(end) => Err(UnloadFault::NotWhole(end)),
        Err(fault) => Err(fault),
    }
}

// Unloads a data set or a member of one from a volume, and says where its blocks end, why, and which part of it they are.
fn unload_from<F: ImageFiles, V: SlotReader, W: Write>(
    alloc: Global,
    files: &mut F,
    volume: &mut V,
    writer: &mut Counted<W>,
    set: WantedSet,
) -> Result<End, UnloadFault>
    ensures done { IfOk result (UnloadsSet (asked_by set.entry)
        (V.volume volume.old) (outcome (F.written files.old) (seen_by W.contents writer.old)) (outcome (F.written files.new) (seen_by W.contents writer.new))) }
    ensures why { IfErr result (λ e. WhyNot e (asked_by set.entry)
        (V.volume volume.old)) }
    ensures front { IfErr result (λ e. StopsPrinting e (asked_by set.entry)
        (V.volume volume.old)
        (seen_by W.contents writer.old) (seen_by W.contents writer.new)) }
    ensures writes { CountsSet result (option_copied set.entry.target) (seen_by W.contents writer.old) (seen_by W.contents writer.new) }
    ensures same { F.opened files.new ≡ F.opened files.old }
    ensures kept { OnErr result (F.written files.new ≡ F.written files.old) }
{
    let found = match find_blocks(alloc, volume, set) {
        Ok(found) => found,
        Err(fault) => return Err(fault),
    };
    let source = Source {
        extents: found.set.extents.as_slice(),
        start: found.start,
        tracks: u16::MAX,
        form: found.form,
    };
    match set.target {
        Some(path) => match put(alloc, files, volume, path, source) {
            Ok(stop) => Ok(end_of(&found.set.block, stop)),
            Err(fault) => Err(fault),
        },
        None => match print(alloc, volume, writer, source) {
            Ok(stop) => Ok(end_of(&found.set.block, stop)),
            Err(fault) => Err(fault),
        },
    }
}

// What is asked for on a volume.
fn find_blocks<V: SlotReader>(
    alloc: Global,
    volume: &mut V,
    asked_for: WantedSet,
) -> Result<FoundBlocks, UnloadFault>
    ensures found { IfOk result (λ found. Asks (asked_by asked_for.entry)
        (V.volume volume.old) found.set
        (wanted found.form found.set.extents.items found.start 65535)) }
    ensures why { IfErr result (λ e. WhyNot e (asked_by asked_for.entry)
        (V.volume volume.old)) }
    ensures reads { IfErr result (λ e. e ≢ UnloadFault.Job JobFault.Write) }
    ensures kept { V.volume volume.new ≡ V.volume volume.old }
{
    let Some(set) = find_set(alloc, volume, asked_for.name)? else {
        return Err(UnloadFault::NoDataSet);
    };
    let form = match form_asked(&set.block, asked_for.block_form, asked_for.given) {
        Ok(form) => form,
        Err(fault) => return Err(UnloadFault::Attributes(fault)),
    };
    match find_start(alloc, volume, &set, asked_for.member) {
        Ok(start) => Ok(FoundBlocks { set, form, start }),
        Err(fault) => Err(fault),
    }
}

/// The data set of a name, if there is one.
pub(crate) fn find_set<V: SlotReader>(
    alloc: Global,
    volume: &mut V,
    name: &str,
) -> Result<Option<DataSet>, UnloadFault>
    ensures found { IfOk result (SetOf name.now (V.volume volume.old)) }
    ensures fault { IfErr result (λ e. is_of_job e ≡ true) }
    ensures reads { IfErr result (λ e. e ≢ UnloadFault.Job JobFault.Write) }
    ensures kept { V.volume volume.new ≡ V.volume volume.old }
{
    let Some(name) = data_set_name(name) else {
        return Ok(None);
    };
    let contents = match read_contents(alloc, volume) {
        Ok(contents) => contents,
        Err(fault) => return Err(of_reading(fault)),
    };
    match find(alloc, contents.found.blocks.as_slice(), &name) {
        Ok(found) => Ok(found),
        Err(_) => Err(NO_MEMORY),
    }
}

/// How the blocks of a data set are written; none where they are to be lines, and its format is of no records.
pub(crate) fn form_of(block: &DataSetBlock, block_form: BlockForm) -> Option<ExtractedForm>
    ensures { result ≡ form_of block.now block_form }
{
    match block_form {
        BlockForm::Raw => Some(ExtractedForm::Raw),
        BlockForm::WithLengths => Some(ExtractedForm::Keyed),
        BlockForm::Text => {
            let form = record_form(block.format, block.record_length)?;
            let layout = Layout { form, longest: 0 };
            Some(ExtractedForm::Text(layout))
        }
    }
}

// What a label says of its data set's records.
fn attributes_of(block: &DataSetBlock) -> RecordAttributes
    ensures { result ≡ attributes_of block.now }
{
    RecordAttributes {
        format: block.format,
        record_length: block.record_length,
        block_length: block.block_length,
    }
}

// How the blocks of a data set are written, where a format may be given for lines.
fn form_asked(
    block: &DataSetBlock,
    block_form: BlockForm,
    given: Option<RecordAttributes>,
) -> Result<ExtractedForm, AttributeFault>
    ensures { result ≡ form_asked block.now block_form given }
{
    let Some(given) = given else {
        return form_of(block, block_form).ok_or(AttributeFault::NoFormat);
    };
    match block_form {
        BlockForm::Raw => Ok(ExtractedForm::Raw),
        BlockForm::WithLengths => Ok(ExtractedForm::Keyed),
        BlockForm::Text => match layout_given(attributes_of(block), given) {
            Ok(layout) => Ok(ExtractedForm::Text(layout)),
            Err(fault) => Err(fault),
        },
    }
}

/// All blocks of a data set with these extents.
pub(crate) fn whole<'a>(extents: &'a [Extent], form: ExtractedForm) -> Source<'a>
    ensures extents { result.extents.now ≡ extents.now }
    ensures start { result.start ≡ beginning }
    ensures tracks { result.tracks ≡ 65535 }
    ensures form { result.form ≡ form }
{
    Source {
        extents,
        start: FIRST,
        tracks: u16::MAX,
        form,
    }
}

// Where the blocks of a data set begin, or those of its member.
fn find_start<V: SlotReader>(
    alloc: Global,
    volume: &mut V,
    set: &DataSet,
    member: Option<&str>,
) -> Result<RelativeAddress, UnloadFault>
    ensures start { IfOk result (StartsAt (V.volume volume.old) set.now (option_copied member.entry)) }
    ensures why { IfErr result (λ e. WhyNoStart e (V.volume volume.old) set.now (option_copied member.entry)) }
    ensures reads { IfErr result (λ e. e ≢ UnloadFault.Job JobFault.Write) }
    ensures kept { V.volume volume.new ≡ V.volume volume.old }
{
    match (is_partitioned(&set.block), member) {
        (false, None) => Ok(FIRST),
        (false, Some(_)) => Err(UnloadFault::NoMember),
        (true, None) => Err(UnloadFault::NoMemberNamed),
        (true, Some(member)) => match find_entry(alloc, volume, set, member) {
            Ok(Some(entry)) => Ok(entry.address),
            Ok(None) => Err(UnloadFault::NoMember),
            Err(fault) => Err(fault),
        },
    }
}

// The entry of a member, if there is one of this name.
fn find_entry<V: SlotReader>(
    alloc: Global,
    volume: &mut V,
    set: &DataSet,
    member: &str,
) -> Result<Option<DirectoryEntry>, UnloadFault>
    ensures found { IfOk result (MemberOf member.now (V.volume volume.old) set.now.extents.items) }
    ensures fault { IfErr result (λ e. is_of_job e ≡ true) }
    ensures reads { IfErr result (λ e. e ≢ UnloadFault.Job JobFault.Write) }
    ensures kept { V.volume volume.new ≡ V.volume volume.old }
{
    let Some(name) = member_name(member) else {
        return Ok(None);
    };
    let members = match read_members(alloc, volume, set.extents.as_slice()) {
        Ok(members) => members,
        Err(fault) => return Err(of_reading(fault)),
    };
    Ok(find_member(members.entries.as_slice(), name))
}

// Writes the blocks of a source to the writer, and leaves none of them held back.
fn print<V: SlotReader, W: Write>(
    alloc: Global,
    volume: &mut V,
    writer: &mut Counted<W>,
    source: Source,
) -> Result<Stop, UnloadFault>
    ensures blocks { IfOk result (λ stop. PrintsSource (wanted source.entry.form source.entry.extents.now source.entry.start source.entry.tracks)
        (V.volume volume.old) (Ok stop) (seen_by W.contents writer.old) (seen_by W.contents writer.new)) }
    ensures front { OnErr result (PrintsFirst (wanted source.entry.form source.entry.extents.now source.entry.start source.entry.tracks)
        (V.volume volume.old) (seen_by W.contents writer.old) (seen_by W.contents writer.new)) }
    ensures writes { CountsPrinted result (seen_by W.contents writer.old) (seen_by W.contents writer.new) }
    ensures flushed { OnOk result (IsFlushed (seen_by W.contents writer.new)) }
    ensures fault { IfErr result (λ e. is_of_job e ≡ true) }
{
    let stop = match extract(alloc, volume, writer, source) {
        Ok(stop) => stop,
        Err(fault) => return Err(of_volume(fault)),
    };
    match flush_all(writer) {
        Ok(()) => Ok(stop),
        Err(WriteFault) => Err(UnloadFault::Job(JobFault::Write)),
    }
}

// Puts the blocks of a source into a new file at a path, whose name is on the disk behind this.
fn put<F: ImageFiles, V: SlotReader>(
    alloc: Global,
    files: &mut F,
    volume: &mut V,
    path: &str,
    source: Source,
) -> Result<Stop, UnloadFault>
    ensures file { IfOk result (PutsBlocks path.now (wanted source.entry.form source.entry.extents.now source.entry.start source.entry.tracks)
        (V.volume volume.old) (F.written files.old) (F.written files.new)) }
    ensures kept { OnErr result (F.written files.new ≡ F.written files.old) }
    ensures same { F.opened files.new ≡ F.opened files.old }
    ensures fault { IfErr result (λ e. is_of_job e ≡ true) }
{
    match unload_to(alloc, files, volume, path, source) {
        Ok(unloaded) => {
            files.settle();
            Ok(unloaded.stop)
        }
        Err(fault) => Err(fault),
    }
}

/// Writes the blocks of a source to a new file.
///
/// # Errors
///
/// A file is at the path, or a fault stopped it: nothing is there that was not.
pub(crate) fn unload_to<F: ImageFiles, V: SlotReader>(
    alloc: Global,
    files: &mut F,
    volume: &mut V,
    path: &str,
    source: Source,
) -> Result<Unloaded, UnloadFault>
    ensures file { UnloadsTo result path.now (wanted source.entry.form source.entry.extents.now source.entry.start source.entry.tracks)
        (V.volume volume.old) (F.written files.old) (F.written files.new) }
    ensures same { F.opened files.new ≡ F.opened files.old }
    ensures kept { V.volume volume.new ≡ V.volume volume.old }
    ensures fault { IfErr result (λ e. is_of_job e ≡ true) }
{
    let new = match begin_file(alloc, files, path) {
        Ok(new) => new,
        Err(fault) => return Err(UnloadFault::Job(fault)),
    };
    let mut writer = Counted::new(new);
    let stop = match extract(alloc, volume, &mut writer, source) {
        Ok(stop) => stop,
        Err(fault) => return Err(of_volume(fault)),
    };
    let written = writer.into_inner();
    let bytes = written.len();
    match put_file(files, path, written) {
        Ok(()) => Ok(Unloaded { bytes, stop }),
        Err(fault) => Err(UnloadFault::Job(fault)),
    }
}

//! What a volume holds, as objects of JSON, one a line.

ghost use Rattle.std.specs.Prelude.{◌≡◌, ◌≢◌, ◌<◌, ◌++◌, Some, length, OnOk, OnErr, IfErr};
ghost use Rattle.std.specs.List.{flat_map};
ghost use Rattle.std.specs.Io.KnownBytes.{Appends};
ghost use Rattle.counted_io.specs.Streams.{seen_by, Takes, TakesFront, IsFlushed};
ghost use Rattle.dasd_volumes.specs.Printing.{CountsWrites};
ghost use Rattle.dasd_contents.specs.Objects.{quoted_text, four_text, day_or_null, path_text, label_members, alone_members, volume_object, name_members};
ghost use Rattle.dasd_contents.specs.Objects.{number_members, comma_before, listed_extent, extents_text, listed_type, types_text, set_object, block_object};
ghost use Rattle.dasd_contents.specs.Objects.{finding_members, finding_object, volume_objects, contents_objects};

use crate::words::{Day, Format, Organisation, Text, Wrong, is_date, kind_of};
use ckd_track::Geometry;
use counted_io::{Counted, WriteFault, write_flushed};
use dasd_volumes::VolumeFault;
use std::alloc::Global;
use std::io::Write;
use std::{fmt, io};
use volume_contents::{
    Block, Contents, DataSet, Finding, data_set_of, is_data_set, tracks_free, tracks_owned,
    tracks_used,
};
use volume_labels::{ContentsBlock, DataSetBlock, Date, Extent, VolumeLabel, without_blanks};

/// Prints the volume label, each data set, the free tracks, and what is wrong, each as an object of JSON with the volume's
/// path, which is a string of JSON with its quotes. The objects are made in memory, and written from there.
///
/// # Errors
///
/// There is no memory for the objects or for the extents of a data set, and nothing is printed; or a write failed, or the flush, and
/// exactly then it is a write fault. What was printed are the first bytes of the text.
pub fn write_objects<W: Write>(
    alloc: Global,
    writer: &mut Counted<W>,
    path: &str,
    geometry: Geometry,
    contents: &Contents,
) -> Result<(), VolumeFault>
    ensures lines { OnOk result (Takes (seen_by W.contents writer.old) (seen_by W.contents writer.new) (contents_objects path.now geometry contents.now)) }
    ensures front { OnErr result (TakesFront (seen_by W.contents writer.old) (seen_by W.contents writer.new)
        (contents_objects path.now geometry contents.now)) }
    ensures writes { CountsWrites result (seen_by W.contents writer.old) (seen_by W.contents writer.new) }
    ensures none { IfErr result (λ e. e ≡ VolumeFault.OutOfMemory → writer.new ≡ writer.old) }
    ensures fault { IfErr result (λ e. e ≢ VolumeFault.Store) }
    ensures flushed { OnOk result (IsFlushed (seen_by W.contents writer.new)) }
{
    let mut objects = Vec::new(alloc);
    if make_objects(alloc, &mut objects, Volume { path, geometry }, contents).is_err() {
        return Err(VolumeFault::OutOfMemory);
    }
    match write_flushed(writer, objects.as_slice()) {
        Ok(()) => Ok(()),
        Err(WriteFault) => Err(VolumeFault::Write),
    }
}

// The objects of a volume.
fn make_objects<W: Write>(
    alloc: Global,
    writer: &mut W,
    volume: Volume,
    contents: &Contents,
) -> io::Result<()>
    ensures { OnOk result (Appends (W.contents writer.old) (W.contents writer.new)
        (contents_objects volume.entry.path.now volume.entry.geometry contents.now)) }
{
    write_known(alloc, writer, volume, contents)?;
    write_findings(writer, volume.path, contents.found.findings.as_slice())
}

// The volume that objects are of: its path, which is a string of JSON with its quotes, and its geometry.
#[derive(Clone, Copy)]
struct Volume<'a> {
    path: &'a str,
    geometry: Geometry,
}

// Text within quotes, without the blanks at its end.
#[derive(Clone, Copy)]
struct Quoted<'a>(&'a [u8]);

impl fmt::Display for Quoted<'_> {
    ghost output = { λ q. Some (quoted_text q.0.now) };

    fn fmt<W: fmt::Write>(&self, f: &mut fmt::Formatter<W>) -> fmt::Result {
        let bytes = without_blanks(self.0);
        let quoted = true;
        write!(f, "{}", Text { bytes, quoted })
    }
}

// An extent as a list of four numbers.
#[derive(Clone, Copy)]
struct Four(Extent);

impl fmt::Display for Four {
    ghost output = { λ e. Some (four_text e.0) };

    fn fmt<W: fmt::Write>(&self, f: &mut fmt::Formatter<W>) -> fmt::Result {
        let Extent { first, last, .. } = self.0;
        write!(
            f,
            "[{},{},{},{}]",
            first.cylinder, first.head, last.cylinder, last.head
        )
    }
}

// A date as a string, or null.
#[derive(Clone, Copy)]
struct DayOrNull(Date);

impl fmt::Display for DayOrNull {
    ghost output = { λ d. Some (day_or_null d.0) };

    fn fmt<W: fmt::Write>(&self, f: &mut fmt::Formatter<W>) -> fmt::Result {
        if !is_date(self.0) {
            return f.write_str("null");
        }
        let day = Day {
            date: self.0,
            wide: false,
        };
        write!(f, "\"{day}\"")
    }
}

// The objects of a volume that has a label.
fn write_known<W: Write>(
    alloc: Global,
    writer: &mut W,
    volume: Volume,
    contents: &Contents,
) -> io::Result<()>
    ensures { OnOk result (Appends (W.contents writer.old) (W.contents writer.new)
        (volume_objects volume.entry.path.now volume.entry.geometry contents.now.found.blocks.items contents.now.label contents.now.table)) }
{
    let Some(label) = contents.label else {
        return Ok(());
    };
    let Some(table) = contents.table else {
        return write_alone(writer, volume.path, &label);
    };
    let blocks = contents.found.blocks.as_slice();
    let free = tracks_free(alloc, volume.geometry, blocks)?;
    write_volume(writer, volume.path, &label, &table, free)?;
    write_sets(alloc, writer, volume, blocks)
}

// How each object begins.
fn write_path<W: Write>(writer: &mut W, path: &str) -> io::Result<()>
    ensures { OnOk result (Appends (W.contents writer.old) (W.contents writer.new) (path_text path.now)) }
{
    write!(writer, "{{\"path\":{path}")
}

// The object of the volume.
fn write_volume<W: Write>(
    writer: &mut W,
    path: &str,
    label: &VolumeLabel,
    table: &ContentsBlock,
    free: u64,
) -> io::Result<()>
    ensures { OnOk result (Appends (W.contents writer.old) (W.contents writer.new) (volume_object path.now label.now table.now free)) }
{
    write_path(writer, path)?;
    write_contents(writer, label, table, free)
}

// The object of a volume with a label and without a table.
fn write_alone<W: Write>(writer: &mut W, path: &str, label: &VolumeLabel) -> io::Result<()>
    ensures { OnOk result (Appends (W.contents writer.old) (W.contents writer.new) (path_text path.now ++ alone_members label.now)) }
{
    write_path(writer, path)?;
    write_names_alone(writer, label)
}

// What a label says, where there is no table.
fn write_names_alone<W: Write>(writer: &mut W, label: &VolumeLabel) -> io::Result<()>
    ensures { OnOk result (Appends (W.contents writer.old) (W.contents writer.new) (alone_members label.now)) }
{
    writeln!(
        writer,
        ",\"serial\":\"{}\",\"owner\":\"{}\"}}",
        Quoted(&label.serial),
        Quoted(&label.owner)
    )
}

// What a label says, where the table is, and what is free.
fn write_contents<W: Write>(
    writer: &mut W,
    label: &VolumeLabel,
    table: &ContentsBlock,
    free: u64,
) -> io::Result<()>
    ensures { OnOk result (Appends (W.contents writer.old) (W.contents writer.new) (label_members label.now table.now free)) }
{
    writeln!(
        writer,
        ",\"serial\":\"{}\",\"owner\":\"{}\",\"contents\":{},\"free_tracks\":{free},\"free_blocks\":{}}}",
        Quoted(&label.serial),
        Quoted(&label.owner),
        Four(table.extent),
        table.free_blocks
    )
}

// The objects of the data sets.
fn write_sets<W: Write>(
    alloc: Global,
    writer: &mut W,
    volume: Volume,
    blocks: &[Block],
) -> io::Result<()>
    ensures { OnOk result (Appends (W.contents writer.old) (W.contents writer.new)
        (flat_map (block_object volume.entry.path.now volume.entry.geometry blocks.now) blocks.now)) }
{
    for block in blocks {
        write_block(alloc, writer, volume, blocks, block)?;
    }
    Ok(())
}

// The object of the data set whose block this is, if it is one's.
fn write_block<W: Write>(
    alloc: Global,
    writer: &mut W,
    volume: Volume,
    blocks: &[Block],
    block: &Block,
) -> io::Result<()>
    ensures { OnOk result (Appends (W.contents writer.old) (W.contents writer.new)
        (block_object volume.entry.path.now volume.entry.geometry blocks.now block.now)) }
{
    if !is_data_set(block.kind) {
        return Ok(());
    }
    let set = data_set_of(alloc, blocks, block)?;
    write_set(writer, volume, &set)
}

// The object of a data set.
fn write_set<W: Write>(writer: &mut W, volume: Volume, set: &DataSet) -> io::Result<()>
    ensures { OnOk result (Appends (W.contents writer.old) (W.contents writer.new)
        (set_object volume.entry.path.now volume.entry.geometry set.now.block set.now.extents.items)) }
{
    let extents = set.extents.as_slice();
    write_path(writer, volume.path)?;
    write_names(writer, &set.block)?;
    write_numbers(writer, volume.geometry, &set.block, extents)?;
    write_extents(writer, extents)?;
    writer.write_all(b"],\"extent_types\":[")?;
    write_types(writer, extents)?;
    writer.write_all(b"]}\n")
}

// A data set's name, its dates, its organisation and its format.
fn write_names<W: Write>(writer: &mut W, block: &DataSetBlock) -> io::Result<()>
    ensures { OnOk result (Appends (W.contents writer.old) (W.contents writer.new) (name_members block.now)) }
{
    write!(
        writer,
        ",\"name\":\"{}\",\"created\":{},\"expires\":{},\"organisation\":\"{}\",\"format\":\"{}\"",
        Quoted(&block.name),
        DayOrNull(block.created),
        DayOrNull(block.expires),
        Organisation {
            bits: block.organisation,
            wide: false
        },
        Format(block.format)
    )
}

// A data set's lengths and its numbers of tracks.
fn write_numbers<W: Write>(
    writer: &mut W,
    geometry: Geometry,
    block: &DataSetBlock,
    extents: &[Extent],
) -> io::Result<()>
    ensures { OnOk result (Appends (W.contents writer.old) (W.contents writer.new) (number_members geometry block.now extents.now)) }
{
    let tracks = tracks_owned(geometry, extents);
    let used = tracks_used(block.last);
    write!(
        writer,
        ",\"record_length\":{},\"block_length\":{},\"key_length\":{},\"tracks\":{tracks},\"used\":{used},\"extents\":[",
        block.record_length, block.block_length, block.key_length
    )
}

// Extents, with commas between them.
fn write_extents<W: Write>(writer: &mut W, extents: &[Extent]) -> io::Result<()>
    ensures { OnOk result (Appends (W.contents writer.old) (W.contents writer.new) (extents_text extents.now)) }
{
    for i in 0..extents.len() {
        write_extent(writer, extents, i)?;
    }
    Ok(())
}

// An extent, behind a comma where it is not the first.
fn write_extent<W: Write>(writer: &mut W, extents: &[Extent], i: usize) -> io::Result<()>
    requires { i < length extents.now }
    ensures { OnOk result (Appends (W.contents writer.old) (W.contents writer.new) (listed_extent extents.now i)) }
{
    write_comma(writer, i)?;
    write!(writer, "{}", Four(extents[i]))
}

// The types of extents, with commas between them.
fn write_types<W: Write>(writer: &mut W, extents: &[Extent]) -> io::Result<()>
    ensures { OnOk result (Appends (W.contents writer.old) (W.contents writer.new) (types_text extents.now)) }
{
    for i in 0..extents.len() {
        write_type(writer, extents, i)?;
    }
    Ok(())
}

// The type of an extent, behind a comma where it is not the first.
fn write_type<W: Write>(writer: &mut W, extents: &[Extent], i: usize) -> io::Result<()>
    requires { i < length extents.now }
    ensures { OnOk result (Appends (W.contents writer.old) (W.contents writer.new) (listed_type extents.now i)) }
{
    write_comma(writer, i)?;
    write!(writer, "{}", extents[i].kind)
}

// The comma before a part of a list that is not the first.
fn write_comma<W: Write>(writer: &mut W, i: usize) -> io::Result<()>
    ensures { OnOk result (Appends (W.contents writer.old) (W.contents writer.new) (comma_before i)) }
{
    if i == 0 {
        return Ok(());
    }
    writer.write_all(b",")
}

// The objects of what is wrong.
fn write_findings<W: Write>(writer: &mut W, path: &str, findings: &[Finding]) -> io::Result<()>
    ensures { OnOk result (Appends (W.contents writer.old) (W.contents writer.new) (flat_map (finding_object path.now) findings.now)) }
{
    for finding in findings {
        write_finding(writer, path, finding)?;
    }
    Ok(())
}

// The object of a finding.
fn write_finding<W: Write>(writer: &mut W, path: &str, finding: &Finding) -> io::Result<()>
    ensures { OnOk result (Appends (W.contents writer.old) (W.contents writer.new) (finding_object path.now finding.now)) }
{
    write_path(writer, path)?;
    write_problem(writer, finding)
}

// Where something is wrong, and what.
fn write_problem<W: Write>(writer: &mut W, finding: &Finding) -> io::Result<()>
    ensures { OnOk result (Appends (W.contents writer.old) (W.contents writer.new) (finding_members finding.now)) }
{
    let place = finding.place;
    let kind = kind_of(&finding.problem);
    writeln!(
        writer,
        ",\"cylinder\":{},\"head\":{},\"record\":{},\"kind\":\"{kind}\",\"text\":\"{}\"}}",
        place.track.cylinder,
        place.track.head,
        place.number,
        Wrong(finding.problem)
    )
}

//! What a volume holds, in lines for people.

ghost use Rattle.std.specs.Prelude.{◌≡◌, ◌≢◌, ◌≤◌, false, replicate, OnOk, OnErr, IfErr};
ghost use Rattle.std.specs.List.{flat_map};
ghost use Rattle.std.specs.Io.KnownBytes.{Appends};
ghost use Rattle.counted_io.specs.Streams.{seen_by, Takes, TakesFront, IsFlushed};
ghost use Rattle.dasd_volumes.specs.Printing.{CountsWrites};
ghost use Rattle.dasd_contents.specs.Words.{format_text};
ghost use Rattle.dasd_contents.specs.Lines.{at_left, label_line, label_alone, heading, name_columns};
ghost use Rattle.dasd_contents.specs.Lines.{number_columns, set_line, block_line, free_line, finding_line, volume_lines, contents_lines};

use crate::words::{Bounds, Day, Format, Organisation, Owner, Place, Text, Wrong, format_width};
use ckd_track::Geometry;
use counted_io::{Counted, Quantity, WriteFault, write_flushed};
use dasd_volumes::VolumeFault;
use std::alloc::Global;
use std::io;
use std::io::Write;
use volume_contents::{
    Block, Contents, DataSet, Finding, data_set_of, is_data_set, tracks_free, tracks_owned,
    tracks_used,
};
use volume_labels::{ContentsBlock, DataSetBlock, VolumeLabel};

/// The width of a record format, in characters.
const FORMAT_WIDTH: usize = 5;

/// Prints the volume label, a line for each data set, the free tracks, and what is wrong. The lines are made in memory, and written
/// from there.
///
/// # Errors
///
/// There is no memory for the lines or for the extents of a data set, and nothing is printed; or a write failed, or the flush, and
/// exactly then it is a write fault. What was printed are the first bytes of the text.
pub fn write_lines<W: Write>(
    alloc: Global,
    writer: &mut Counted<W>,
    geometry: Geometry,
    contents: &Contents,
) -> Result<(), VolumeFault>
    ensures lines { OnOk result (Takes (seen_by W.contents writer.old) (seen_by W.contents writer.new) (contents_lines geometry contents.now)) }
    ensures front { OnErr result (TakesFront (seen_by W.contents writer.old) (seen_by W.contents writer.new) (contents_lines geometry contents.now)) }
    ensures writes { CountsWrites result (seen_by W.contents writer.old) (seen_by W.contents writer.new) }
    ensures none { IfErr result (λ e. e ≡ VolumeFault.OutOfMemory → writer.new ≡ writer.old) }
    ensures fault { IfErr result (λ e. e ≢ VolumeFault.Store) }
    ensures flushed { OnOk result (IsFlushed (seen_by W.contents writer.new)) }
{
    let mut lines = Vec::new(alloc);
    if make_lines(alloc, &mut lines, geometry, contents).is_err() {
        return Err(VolumeFault::OutOfMemory);
    }
    match write_flushed(writer, lines.as_slice()) {
        Ok(()) => Ok(()),
        Err(WriteFault) => Err(VolumeFault::Write),
    }
}

// The lines of a volume.
fn make_lines<W: Write>(
    alloc: Global,
    writer: &mut W,
    geometry: Geometry,
    contents: &Contents,
) -> io::Result<()>
    ensures { OnOk result (Appends (W.contents writer.old) (W.contents writer.new) (contents_lines geometry contents.now)) }
{
    write_volume(alloc, writer, geometry, contents)?;
    write_findings(writer, contents.found.findings.as_slice())
}

// The lines of a volume that has a label.
fn write_volume<W: Write>(
    alloc: Global,
    writer: &mut W,
    geometry: Geometry,
    contents: &Contents,
) -> io::Result<()>
    ensures { OnOk result (Appends (W.contents writer.old) (W.contents writer.new)
        (volume_lines geometry contents.now.found.blocks.items contents.now.label contents.now.table)) }
{
    let Some(label) = contents.label else {
        return Ok(());
    };
    let Some(table) = contents.table else {
        return write_alone(writer, &label);
    };
    let blocks = contents.found.blocks.as_slice();
    write_label(writer, &label, &table)?;
    write_heading(writer)?;
    write_sets(alloc, writer, geometry, blocks)?;
    write_free(alloc, writer, geometry, blocks, &table)
}

// The line of the label.
fn write_label<W: Write>(
    writer: &mut W,
    label: &VolumeLabel,
    table: &ContentsBlock,
) -> io::Result<()>
    ensures { OnOk result (Appends (W.contents writer.old) (W.contents writer.new) (label_line label.now table.now)) }
{
    let serial = text(&label.serial);
    let owner = Owner(&label.owner);
    let extent = Bounds(table.extent);
    writeln!(writer, "{serial}  owner {owner}  VTOC {extent}")
}

// The line of a label without a table.
fn write_alone<W: Write>(writer: &mut W, label: &VolumeLabel) -> io::Result<()>
    ensures { OnOk result (Appends (W.contents writer.old) (W.contents writer.new) (label_alone label.now)) }
{
    let serial = text(&label.serial);
    let owner = Owner(&label.owner);
    writeln!(writer, "{serial}  owner {owner}  no VTOC")
}

// The line above the columns.
fn write_heading<W: Write>(writer: &mut W) -> io::Result<()>
    ensures { OnOk result (Appends (W.contents writer.old) (W.contents writer.new) heading) }
{
    writeln!(
        writer,
        "Data set                                     Created  Expires  Org Recfm Lrecl Blksz Tracks   Used Extents"
    )
}

// Text in EBCDIC for people.
fn text(bytes: &[u8]) -> Text<'_>
    ensures bytes { result.bytes.now ≡ bytes.now }
    ensures plain { result.quoted ≡ false }
{
    Text {
        bytes,
        quoted: false,
    }
}

// The lines of the data sets.
fn write_sets<W: Write>(
    alloc: Global,
    writer: &mut W,
    geometry: Geometry,
    blocks: &[Block],
) -> io::Result<()>
    ensures { OnOk result (Appends (W.contents writer.old) (W.contents writer.new) (flat_map (block_line geometry blocks.now) blocks.now)) }
{
    for block in blocks {
        write_block(alloc, writer, geometry, blocks, block)?;
    }
    Ok(())
}

// The line of the data set whose block this is, if it is one's.
fn write_block<W: Write>(
    alloc: Global,
    writer: &mut W,
    geometry: Geometry,
    blocks: &[Block],
    block: &Block,
) -> io::Result<()>
    ensures { OnOk result (Appends (W.contents writer.old) (W.contents writer.new) (block_line geometry blocks.now block.now)) }
{
    if !is_data_set(block.kind) {
        return Ok(());
    }
    let set = data_set_of(alloc, blocks, block)?;
    write_set(writer, geometry, &set)
}

// The line of a data set.
fn write_set<W: Write>(writer: &mut W, geometry: Geometry, set: &DataSet) -> io::Result<()>
    ensures { OnOk result (Appends (W.contents writer.old) (W.contents writer.new) (set_line geometry set.now.block set.now.extents.items)) }
{
    write_names(writer, &set.block)?;
    write_format(writer, set.block.format)?;
    write_numbers(writer, geometry, set)
}

// A data set's name, its dates and its organisation.
fn write_names<W: Write>(writer: &mut W, block: &DataSetBlock) -> io::Result<()>
    ensures { OnOk result (Appends (W.contents writer.old) (W.contents writer.new) (name_columns block.now)) }
{
    let name = text(&block.name);
    let created = Day {
        date: block.created,
        wide: true,
    };
    let expires = Day {
        date: block.expires,
        wide: true,
    };
    let organisation = Organisation {
        bits: block.organisation,
        wide: true,
    };
    write!(writer, "{name} {created} {expires} {organisation} ")
}

// A record format, and blanks up to the width of its column.
fn write_format<W: Write>(writer: &mut W, format: u8) -> io::Result<()>
    ensures { OnOk result (Appends (W.contents writer.old) (W.contents writer.new) (at_left 5 (format_text format))) }
{
    let letters = Format(format);
    write!(writer, "{letters}")?;
    write_blanks(writer, FORMAT_WIDTH.saturating_sub(format_width(format)))
}

// So many blanks.
fn write_blanks<W: Write>(writer: &mut W, number: usize) -> io::Result<()>
    requires { number ≤ 5 }
    ensures { OnOk result (Appends (W.contents writer.old) (W.contents writer.new) (replicate number 32)) }
{
    let blanks = [b' '; FORMAT_WIDTH];
    writer.write_all(&blanks[..number])
}

// The numbers of a data set.
fn write_numbers<W: Write>(writer: &mut W, geometry: Geometry, set: &DataSet) -> io::Result<()>
    ensures { OnOk result (Appends (W.contents writer.old) (W.contents writer.new) (number_columns geometry set.now.block set.now.extents.items)) }
{
    let record = set.block.record_length;
    let length = set.block.block_length;
    let extents = set.extents.as_slice();
    let tracks = tracks_owned(geometry, extents);
    let used = tracks_used(set.block.last);
    let number = extents.len();
    writeln!(
        writer,
        " {record:>5} {length:>5} {tracks:>6} {used:>6} {number:>7}"
    )
}

// The line of free tracks.
fn write_free<W: Write>(
    alloc: Global,
    writer: &mut W,
    geometry: Geometry,
    blocks: &[Block],
    table: &ContentsBlock,
) -> io::Result<()>
    ensures { OnOk result (Appends (W.contents writer.old) (W.contents writer.new) (free_line geometry blocks.now table.now)) }
{
    let tracks = tracks_free(alloc, geometry, blocks)?;
    let tracks = Quantity::new(tracks, "track", "tracks");
    let blocks = Quantity::new(
        u64::from(table.free_blocks),
        "control block",
        "control blocks",
    );
    writeln!(writer, "free {tracks}, {blocks}")
}

// The lines of what is wrong.
fn write_findings<W: Write>(writer: &mut W, findings: &[Finding]) -> io::Result<()>
    ensures { OnOk result (Appends (W.contents writer.old) (W.contents writer.new) (flat_map finding_line findings.now)) }
{
    for finding in findings {
        write_finding(writer, finding)?;
    }
    Ok(())
}

// The line of a finding.
fn write_finding<W: Write>(writer: &mut W, finding: &Finding) -> io::Result<()>
    ensures { OnOk result (Appends (W.contents writer.old) (W.contents writer.new) (finding_line finding.now)) }
{
    let place = Place(finding.place);
    let problem = Wrong(finding.problem);
    writeln!(writer, "finding {place} {problem}")
}

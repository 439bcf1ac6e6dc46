//! What an archive asks of volumes: a dump, and a comparison.

ghost use Rattle.std.specs.Prelude.{◌≡◌, Some, IfSome, IfNone, IfOk, IfErr, OnOk};
ghost use Rattle.std.specs.Io.KnownBytes.{Appends};
ghost use Rattle.counted_io.specs.Streams.{seen_by, IsFlushed};
ghost use Rattle.dasd_volumes.specs.Printing.{CountsWrites};
ghost use Rattle.dasd_archive.specs.Dump.{dump_text, IsPartOf};
ghost use Rattle.dasd_volumes.specs.Printing.{PrintsBytes};
ghost use Rattle.dasd_run.specs.Answers.{DumpsPart, DumpsRecords, names_records};
ghost use Rattle.dasd_run.specs.Compared.{shape_text, geometries_line, ComparesVolumes, ComparesFiles};
ghost use Rattle.dasd_run.specs.Outside.{Looks};
ghost use Rattle.dasd_run.specs.Printed.{style_of, range_of, asked_part};

use crate::commands::{Ending, worse};
use crate::host::Host;
use crate::printed_paths::quoted;
use crate::reaches::with_reach;
use ckd_track::Geometry;
use counted_io::{Counted, Quantity, WriteFault, write_flushed};
use dasd_archive::{Comparison, VolumePart, compare, dump, has_records};
use dasd_jobs::{Progress, SlotReader, Traces, open_volume};
use dasd_volumes::{Form, Range, Style, VolumeFault};
use dasd_words::{ComparedVolumes, DumpedPart, Numbers, PrintedVolume};
use program_faults::ProgramFault;
use std::alloc::Global;
use std::io::{Read, Write};
use std::{fmt, io};

/// For whom lines are printed.
pub(crate) fn style(json: bool) -> Style
    ensures { result ≡ style_of json }
{
    if json { Style::Json } else { Style::Text }
}

/// Prints the bytes of a part of the volume of these files.
///
/// # Errors
///
/// There is no memory, or the files hold no volume, or it has no such part or, where records are named, none of them, before a line is
/// printed; or what stopped the dump, behind the lines that are printed. A write fault comes exactly where a write failed, or the last flush.
pub(crate) fn dump_part<F: Traces, R: Read, W: Write, P: Progress>(
    host: &mut Host<F, R, W, P>,
    asked: &PrintedVolume,
    part: DumpedPart,
) -> Result<Ending, ProgramFault>
    ensures looks { Looks host.old host.new }
    ensures dumps { DumpsPart result asked.now part host.old host.new }
{
    let paths = asked.paths.as_slice();
    let path = quoted(host.alloc, paths)?;
    let form = Form {
        style: style(asked.json),
        path: path.as_str(),
    };
    let mut volume = open_volume(host.alloc, &mut host.files, paths, asked.as_far)?;
    let reach = volume.reach();
    let dumped = dump_opened(host.alloc, &mut volume, &mut host.writer, form, part);
    with_reach(reach, dumped)
}

// Prints the bytes of a part of a volume.
fn dump_opened<V: SlotReader, W: Write>(
    alloc: Global,
    volume: &mut V,
    writer: &mut Counted<W>,
    form: Form,
    part: DumpedPart,
) -> Result<Ending, ProgramFault>
    ensures { DumpsRecords result part (dump_text form.entry.style form.entry.path.now (asked_part part))
        (V.volume volume.old) (seen_by W.contents writer.old) (seen_by W.contents writer.new) }
{
    let names = names_records(part);
    let Some(part) = part_of(volume.geometry(), part) else {
        return Err(ProgramFault::NoTrack);
    };
    if names && !has_records(alloc, volume, part)? {
        return Err(ProgramFault::NoRecord);
    }
    dump(alloc, volume, writer, form, part)?;
    Ok(Ending::Done)
}

// Whether words name records, and do not ask for all from one on.
fn names_records(part: DumpedPart) -> bool
    ensures { result ≡ names_records part }
{
    part.records.last < 255 || part.records.first == part.records.last
}

/// Numbers as a range.
pub(crate) fn range(numbers: Numbers) -> Range
    ensures { result ≡ range_of numbers }
{
    Range {
        first: numbers.first,
        last: numbers.last,
    }
}

// The part of a volume of this geometry that words ask for, if it has these tracks.
fn part_of(geometry: Geometry, part: DumpedPart) -> Option<VolumePart>
    ensures part { IfSome result (λ found. found ≡ asked_part part) }
    ensures exists { IfSome result (λ found. IsPartOf (asked_part part) geometry) }
    ensures none { IfNone result (IsPartOf (asked_part part) geometry → ⊥) }
{
    let cylinders = range(part.cylinders);
    let heads = range(part.heads);
    let numbers = range(part.records);
    if cylinders.first > cylinders.last
        || cylinders.last >= geometry.cylinders
        || heads.first > heads.last
        || heads.last >= geometry.model.heads()
    {
        return None;
    }
    Some(VolumePart {
        cylinders,
        heads,
        numbers,
    })
}

/// Prints what differs of the volumes of two lists of files, and says whether something does. Of volumes of two geometries it prints
/// these, and compares no track.
///
/// # Errors
///
/// There is no memory, or the files of a list hold no volume, before a line is printed; or what stopped the comparison, behind the lines
/// that are printed. A write fault comes exactly where a write failed, or the last flush.
pub(crate) fn compare_both<F: Traces, R: Read, W: Write, P: Progress>(
    host: &mut Host<F, R, W, P>,
    asked: &ComparedVolumes,
) -> Result<Ending, ProgramFault>
    ensures looks { Looks host.old host.new }
    ensures compares { ComparesFiles result asked.now host.old host.new }
{
    let one = asked.one.as_slice();
    let other = asked.other.as_slice();
    let path = quoted(host.alloc, one)?;
    let other_path = quoted(host.alloc, other)?;
    let form = Comparison {
        style: style(asked.json),
        path: path.as_str(),
        other: other_path.as_str(),
        lists: asked.lists,
    };
    let mut volume = open_volume(host.alloc, &mut host.files, one, asked.as_far)?;
    let mut beside = open_volume(host.alloc, &mut host.files, other, asked.as_far)?;
    compare_opened(host.alloc, &mut volume, &mut beside, &mut host.writer, form)
}

// Prints what differs of two volumes, and says whether something does.
fn compare_opened<V: SlotReader, U: SlotReader, W: Write>(
    alloc: Global,
    one: &mut V,
    other: &mut U,
    writer: &mut Counted<W>,
    form: Comparison,
) -> Result<Ending, ProgramFault>
    ensures { ComparesVolumes result form.entry.style form.entry.path.now form.entry.other.now form.entry.lists
        (V.volume one.old) (U.volume other.old) (seen_by W.contents writer.old) (seen_by W.contents writer.new) }
{
    let (geometry, beside) = (one.geometry(), other.geometry());
    if beside != geometry {
        print_geometries(alloc, writer, form, geometry, beside)?;
        return Ok(Ending::Findings);
    }
    let differing = compare(alloc, one, other, writer, form)?;
    Ok(worse(Ending::Done, differing > 0))
}

// Prints the line of two geometries that differ, which is made in memory.
fn print_geometries<W: Write>(
    alloc: Global,
    writer: &mut Counted<W>,
    form: Comparison,
    one: Geometry,
    other: Geometry,
) -> Result<(), VolumeFault>
    ensures line { PrintsBytes result (geometries_line form.entry.style form.entry.path.now form.entry.other.now one other)
        (seen_by W.contents writer.old) (seen_by W.contents writer.new) }
    ensures writes { CountsWrites result (seen_by W.contents writer.old) (seen_by W.contents writer.new) }
    ensures flushed { OnOk result (IsFlushed (seen_by W.contents writer.new)) }
{
    let mut line = Vec::new(alloc);
    if write_geometries(&mut line, form, one, other).is_err() {
        return Err(VolumeFault::OutOfMemory);
    }
    match write_flushed(writer, line.as_slice()) {
        Ok(()) => Ok(()),
        Err(WriteFault) => Err(VolumeFault::Write),
    }
}

// The line of two geometries that differ.
fn write_geometries<W: Write>(
    writer: &mut W,
    form: Comparison,
    one: Geometry,
    other: Geometry,
) -> io::Result<()>
    ensures { OnOk result (Appends (W.contents writer.old) (W.contents writer.new)
        (geometries_line form.entry.style form.entry.path.now form.entry.other.now one other)) }
{
    let (path, beside) = (form.path, form.other);
    let (one, other) = (Shape(one), Shape(other));
    match form.style {
        Style::Text => writeln!(writer, "geometry {one} and {other}"),
        Style::Json => writeln!(
            writer,
            "{{\"path\":{path},\"other\":{beside},\"text\":\"geometry {one} and {other}\"}}"
        ),
    }
}

// The geometry of a volume in words.
#[derive(Clone, Copy)]
struct Shape(Geometry);

impl fmt::Display for Shape {
    ghost use Rattle.std.specs.Prelude.{Some};
    ghost use Rattle.dasd_run.specs.Compared.{shape_text};

    ghost output = { λ s. Some (shape_text s.0) };

    fn fmt<W: fmt::Write>(&self, f: &mut fmt::Formatter<W>) -> fmt::Result {
        let model = self.0.model.number();
        let cylinders = Quantity::new(self.0.cylinders as u64, "cylinder", "cylinders");
        let size = self.0.track_size;
        write!(f, "{model} {cylinders} slot {size}")
    }
}

//! All that is wrong with what a volume holds is printed.

ghost use Rattle.std.specs.Prelude.{◌≡◌, ◌≢◌, ◌+◌, ◌++◌, None, length, OnOk, IfOk, IfErr};
ghost use Rattle.std.specs.Option.{option_copied};
ghost use Rattle.std.specs.List.{flat_map};
ghost use Rattle.std.specs.Io.KnownBytes.{Appends};
ghost use Rattle.counted_io.specs.Streams.{seen_by, Takes, IsFlushed};
ghost use Rattle.dasd_volumes.specs.Printing.{PrintsText, CountsWrites};
ghost use Rattle.dasd_volumes.specs.Reading.{IsRead};
ghost use Rattle.volume_findings.specs.Texts.{contents_text, data_text, total_text, listed_text, findings_text, TellsFound};
ghost use Rattle.volume_findings.specs.Found.{IsFound};

use crate::findings::DataFinding;
use crate::lines::{write_findings, write_total};
use crate::sets::add_blocks;
use ckd_track::Geometry;
use counted_io::{Counted, WriteFault, write_flushed};
use dasd_contents::{write_lines, write_objects};
use dasd_volumes::{SlotReader, VolumeFault};
use std::alloc::Global;
use std::io;
use std::io::Write;
use volume_contents::{Contents, check_contents, read_contents};

/// Prints all that is wrong with what a volume of OS/360 or DOS/360 holds, and how many findings these are: with its label, its control
/// blocks, extents and free tracks, as `dasd vtoc` prints it; and with the data of each data set, in the order of the volume table of
/// contents. A directory that can't be read on is a finding, and so are blocks that end before an end of file, unless they need none.
/// Lines are objects of JSON where there are the paths of the volume for them, as a string of it with its quotes. It says whether something
/// was found. The lines are made in memory.
///
/// # Errors
///
/// There is no memory, or a read fails, and nothing is printed; or a write failed, or the flush, and exactly then it is a write fault.
pub fn print_findings<V: SlotReader, W: Write>(
    alloc: Global,
    volume: &mut V,
    writer: &mut Counted<W>,
    json: Option<&str>,
) -> Result<bool, VolumeFault>
    ensures lines { PrintsText result (findings_text (option_copied json.entry)) (V.volume volume.old)
        (seen_by W.contents writer.old) (seen_by W.contents writer.new) }
    ensures found { IfOk result (TellsFound (V.volume volume.old)) }
    ensures writes { CountsWrites result (seen_by W.contents writer.old) (seen_by W.contents writer.new) }
    ensures none { IfErr result (λ e. e ≢ VolumeFault.Write → writer.new ≡ writer.old) }
    ensures volume { IsRead result (V.volume volume.old) (V.volume volume.new) (V.failures volume.old) (V.failures volume.new) }
    ensures flushed { OnOk result (IsFlushed (seen_by W.contents writer.new)) }
{
    let found = match find_all(alloc, volume) {
        Ok(found) => found,
        Err(fault) => return Err(fault),
    };
    let text = match text_of(alloc, json, volume.geometry(), &found) {
        Ok(text) => text,
        Err(fault) => return Err(fault),
    };
    match write_flushed(writer, text.as_slice()) {
        Ok(()) => Ok(total_of(&found) > 0),
        Err(WriteFault) => Err(VolumeFault::Write),
    }
}

// All that is wrong with what a volume holds.
#[derive(Drop)]
struct Found {
    // What is wrong with the contents, which have no label and no table here: so `dasd_contents` prints the findings alone.
    contents: Contents,
    // What is wrong with the data of its data sets.
    sets: Vec<DataFinding>,
}

// Finds all that is wrong with what a volume holds.
fn find_all<V: SlotReader>(alloc: Global, volume: &mut V) -> Result<Found, VolumeFault>
    ensures found { IfOk result (IsFound (V.volume volume.old)) }
    ensures fault { IfErr result (λ e. e ≢ VolumeFault.Write) }
    ensures volume { IsRead result (V.volume volume.old) (V.volume volume.new) (V.failures volume.old) (V.failures volume.new) }
{
    let mut contents = match read_contents(alloc, volume) {
        Ok(contents) => contents,
        Err(fault) => return Err(fault),
    };
    if check_contents(alloc, volume.geometry(), &mut contents).is_err() {
        return Err(VolumeFault::OutOfMemory);
    }
    let mut sets = Vec::new(alloc);
    let blocks = contents.found.blocks.as_slice();
    if let Err(fault) = add_blocks(alloc, volume, &mut sets, blocks) {
        return Err(fault);
    }
    contents.label = None;
    contents.table = None;
    Ok(Found { contents, sets })
}

// The text of findings, and of how many there are.
fn text_of(
    alloc: Global,
    json: Option<&str>,
    geometry: Geometry,
    found: &Found,
) -> Result<Vec<u8>, VolumeFault>
    requires { found.now.contents.label ≡ None }
    ensures text { IfOk result (λ text. text.items ≡ listed_text (option_copied json.entry) found.now.contents.found.findings.items found.now.sets.items) }
    ensures fault { IfErr result (λ e. e ≡ VolumeFault.OutOfMemory) }
{
    let mut text = Counted::new(Vec::new(alloc));
    if write_contents(alloc, &mut text, json, geometry, &found.contents).is_err() {
        return Err(VolumeFault::OutOfMemory);
    }
    let mut text = text.into_inner();
    match write_data(alloc, &mut text, json, found) {
        Ok(()) => Ok(text),
        Err(_) => Err(VolumeFault::OutOfMemory),
    }
}

// What is wrong with contents that have no label, in lines, or in objects where they have the paths of the volume.
fn write_contents<W: Write>(
    alloc: Global,
    writer: &mut Counted<W>,
    json: Option<&str>,
    geometry: Geometry,
    contents: &Contents,
) -> Result<(), VolumeFault>
    requires { contents.now.label ≡ None }
    ensures { OnOk result (Takes (seen_by W.contents writer.old) (seen_by W.contents writer.new)
        (flat_map (contents_text (option_copied json.entry)) contents.now.found.findings.items)) }
{
    match json {
        Some(path) => write_objects(alloc, writer, path, geometry, contents),
        None => write_lines(alloc, writer, geometry, contents),
    }
}

// What is wrong with data, and how many findings there are.
fn write_data<W: Write>(
    alloc: Global,
    writer: &mut W,
    json: Option<&str>,
    found: &Found,
) -> io::Result<()>
    ensures { OnOk result (Appends (W.contents writer.old) (W.contents writer.new)
        (flat_map (data_text (option_copied json.entry)) found.now.sets.items ++ total_text (option_copied json.entry)
        (length found.now.contents.found.findings.items + length found.now.sets.items))) }
{
    write_findings(alloc, writer, json, found.sets.as_slice())?;
    write_total(writer, json, total_of(found))
}

// How many findings there are.
fn total_of(found: &Found) -> u64
    ensures { result ≡ length found.now.contents.found.findings.items + length found.now.sets.items }
{
    found.contents.found.findings.len() as u64 + found.sets.len() as u64
}

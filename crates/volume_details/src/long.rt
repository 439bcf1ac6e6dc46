//! What the table of a volume leaves out of a data set, in words.

ghost use Rattle.std.specs.Prelude.{◌≡◌, ◌<◌, ◌∷◌, [], Some, length, OnOk, IfErr};
ghost use Rattle.std.specs.List.{flat_map};
ghost use Rattle.std.specs.Option.{option_copied};
ghost use Rattle.std.specs.Io.KnownBytes.{Appends};
ghost use Rattle.dasd_contents.specs.Words.{extent_text};
ghost use Rattle.library_contents.specs.Report.{Adds, plain};
ghost use Rattle.volume_details.specs.Long.{last_words, protection_words, last_member, protection_member, extent_line, volume_line, key_line, lines_text};
ghost use Rattle.volume_details.specs.Long.{object_text, long_text, described_by};

use crate::indicators::{Protection, is_last_volume, protection_of, type_text};
use dasd_volumes::{PrintedAddress as Address, VolumeFault};
use library_contents::Report;
use std::io::Write;
use std::{fmt, io};
use volume_contents::{Block, DataSet};
use volume_labels::{DataSetBlock, Extent};

/// A data set: its name, as that of a file; its format 1 block; and what this says.
#[derive(Clone, Copy)]
pub(crate) struct Described<'a> {
    pub(crate) name: &'a str,
    pub(crate) block: &'a Block,
    pub(crate) set: &'a DataSet,
}

/// Adds what the table leaves out of a data set: as lines, or as an object of JSON with the paths of the volume.
pub(crate) fn add_long(
    report: &mut Report,
    json: Option<&str>,
    described: Described,
) -> Result<(), VolumeFault>
    ensures lines { OnOk result (Adds report.old report.new (plain (long_text (option_copied json.entry) (described_by described.entry)) ∷ [])) }
    ensures fault { IfErr result (λ e. e ≡ VolumeFault.OutOfMemory) }
{
    match write_long(&mut report.text, json, described) {
        Ok(()) => Ok(()),
        Err(_) => Err(VolumeFault::OutOfMemory),
    }
}

// As lines, or as an object.
fn write_long<W: Write>(writer: &mut W, json: Option<&str>, described: Described) -> io::Result<()>
    ensures { OnOk result (Appends (W.contents writer.old) (W.contents writer.new) (long_text (option_copied json.entry) (described_by described.entry))) }
{
    match json {
        Some(path) => write_object(writer, path, described),
        None => write_lines(writer, described),
    }
}

// The lines of a data set.
fn write_lines<W: Write>(writer: &mut W, described: Described) -> io::Result<()>
    ensures { OnOk result (Appends (W.contents writer.old) (W.contents writer.new) (lines_text (described_by described.entry))) }
{
    let block = &described.set.block;
    write_extents(writer, described.set.extents.as_slice())?;
    write_volume(writer, block.volume, is_last_volume(described.block))?;
    write_keys(writer, block, protection_of(described.block))
}

// The lines of extents.
fn write_extents<W: Write>(writer: &mut W, extents: &[Extent]) -> io::Result<()>
    ensures { OnOk result (Appends (W.contents writer.old) (W.contents writer.new) (flat_map extent_line extents.now)) }
{
    for extent in extents {
        write_extent(writer, *extent)?;
    }
    Ok(())
}

// The line of an extent.
fn write_extent<W: Write>(writer: &mut W, extent: Extent) -> io::Result<()>
    ensures { OnOk result (Appends (W.contents writer.old) (W.contents writer.new) (extent_line extent)) }
{
    let number = extent.number;
    let kind = type_text(extent.kind);
    let bounds = Bounds(extent);
    writeln!(writer, "  extent {number} {kind} {bounds}")
}

// The first and the last track of an extent.
#[derive(Clone, Copy)]
struct Bounds(Extent);

impl fmt::Display for Bounds {
    ghost output = { λ b. Some (extent_text b.0) };

    fn fmt<W: fmt::Write>(&self, f: &mut fmt::Formatter<W>) -> fmt::Result {
        let Extent { first, last, .. } = self.0;
        let first = Address {
            cylinder: first.cylinder,
            head: first.head,
        };
        let last = Address {
            cylinder: last.cylinder,
            head: last.head,
        };
        write!(f, "{first} .. {last}")
    }
}

// The line that says which of the data set's volumes this is.
fn write_volume<W: Write>(writer: &mut W, number: u16, is_last: bool) -> io::Result<()>
    ensures { OnOk result (Appends (W.contents writer.old) (W.contents writer.new) (volume_line number is_last)) }
{
    let words = last_words(is_last);
    writeln!(writer, "  volume {number}, {words}")
}

// Whether a volume is the last, in words.
fn last_words(is_last: bool) -> &'static str
    ensures { result.now ≡ last_words is_last }
{
    if is_last {
        "the last"
    } else {
        "not marked as the last"
    }
}

// The line of the keys of a data set, and of its password.
fn write_keys<W: Write>(
    writer: &mut W,
    block: &DataSetBlock,
    protection: Protection,
) -> io::Result<()>
    ensures { OnOk result (Appends (W.contents writer.old) (W.contents writer.new) (key_line block.now.key_length protection)) }
{
    let length = block.key_length;
    let words = protection_words(protection);
    writeln!(writer, "  key length {length}, {words}")
}

// What a password is needed for, in words.
fn protection_words(protection: Protection) -> &'static str
    ensures { result.now ≡ protection_words protection }
{
    match protection {
        Protection::None => "no password",
        Protection::Writes => "password to write",
        Protection::All => "password to read and to write",
    }
}

// The object of a data set.
fn write_object<W: Write>(writer: &mut W, path: &str, described: Described) -> io::Result<()>
    ensures { OnOk result (Appends (W.contents writer.old) (W.contents writer.new) (object_text path.now (described_by described.entry))) }
{
    let name = described.name;
    let number = described.set.block.volume;
    let last = last_member(is_last_volume(described.block));
    let password = protection_member(protection_of(described.block));
    writeln!(
        writer,
        "{{\"path\":{path},\"data_set\":\"{name}\",\"volume\":{number},\"last_volume\":{last},\"password\":\"{password}\"}}"
    )
}

// Whether a volume is the last, as a truth value of JSON.
fn last_member(is_last: bool) -> &'static str
    ensures { result.now ≡ last_member is_last }
{
    if is_last { "true" } else { "false" }
}

// What a password is needed for, in one word.
fn protection_member(protection: Protection) -> &'static str
    ensures { result.now ≡ protection_member protection }
{
    match protection {
        Protection::None => "none",
        Protection::Writes => "write",
        Protection::All => "all",
    }
}

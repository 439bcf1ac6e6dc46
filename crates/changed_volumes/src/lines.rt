//! The lines that say what was changed.

ghost use Rattle.std.specs.Prelude.{◌≡◌, ◌≤◌, length, string_bytes, Some, IfOk, OnOk};
ghost use Rattle.std.specs.List.{flat_map};
ghost use Rattle.counted_io.specs.Streams.{seen_by, WritesWhole, IsFlushed};
ghost use Rattle.changed_volumes.specs.Files.{renamed_line, relabelled_line, run_text, next_run, tracks_line, deleted_text};

use crate::saves::NewName;
use arrayvec::ArrayString;
use ckd_track::Geometry;
use counted_io::{Counted, WriteFault, put_decimal, write_flushed};
use std::alloc::{AllocError, Global};
use std::fmt;
use std::io::Write;
use volume_labels::Extent;

/// The line that says which data set was renamed.
pub(crate) fn write_renamed<W: Write>(
    writer: &mut Counted<W>,
    names: &NewName,
) -> Result<(), WriteFault>
    requires old { length names.now.old.now ≤ 44 }
    requires new { length names.now.new.now ≤ 44 }
    ensures written { WritesWhole result (seen_by W.contents writer.old) (seen_by W.contents writer.new)
        (renamed_line names.now.old.now names.now.new.now) }
    ensures flushed { OnOk result (IsFlushed (seen_by W.contents writer.new)) }
{
    let mut line: ArrayString<104> = ArrayString::new();
    line.push_str("renamed ");
    line.push_str(names.old);
    line.push_str(" to ");
    line.push_str(names.new);
    line.push_str("\n");
    write_flushed(writer, line.as_bytes())
}

/// What is said of a data set that was deleted: its name, and the tracks that it had, if any.
pub(crate) fn deleted_text(
    alloc: Global,
    name: &str,
    extents: &[Extent],
) -> Result<String, AllocError>
    ensures { IfOk result (λ text. string_bytes text ≡ deleted_text name.now extents.now) }
{
    let tracks = Tracks(extents);
    format!(in alloc; "deleted {name}\n{tracks}")
}

/// The line of the tracks that a data set had; nothing if it had none.
#[derive(Clone, Copy)]
struct Tracks<'a>(&'a [Extent]);

impl fmt::Display for Tracks<'_> {
    ghost output = { λ t. Some (tracks_line t.0.now) };

    fn fmt<W: fmt::Write>(&self, f: &mut fmt::Formatter<W>) -> fmt::Result {
        match self.0.split_first() {
            Some((first, others)) => {
                write!(f, "its tracks were {}{}\n", Run(*first), Runs(others))
            }
            None => Ok(()),
        }
    }
}

/// Extents after another one.
#[derive(Clone, Copy)]
struct Runs<'a>(&'a [Extent]);

impl fmt::Display for Runs<'_> {
    ghost output = { λ r. Some (flat_map next_run r.0.now) };

    fn fmt<W: fmt::Write>(&self, f: &mut fmt::Formatter<W>) -> fmt::Result {
        for extent in self.0 {
            write!(f, ",{}", Run(*extent))?;
        }
        Ok(())
    }
}

/// The first and the last track of an extent.
#[derive(Clone, Copy)]
struct Run(Extent);

impl fmt::Display for Run {
    ghost output = { λ r. Some (run_text r.0) };

    fn fmt<W: fmt::Write>(&self, f: &mut fmt::Formatter<W>) -> fmt::Result {
        let Extent { first, last, .. } = self.0;
        write!(
            f,
            "{}:{}-{}:{}",
            first.cylinder, first.head, last.cylinder, last.head
        )
    }
}

/// The line that says which volume was relabelled.
pub(crate) fn write_relabelled<W: Write>(
    writer: &mut Counted<W>,
    geometry: Geometry,
) -> Result<(), WriteFault>
    ensures written { WritesWhole result (seen_by W.contents writer.old) (seen_by W.contents writer.new) (relabelled_line geometry) }
    ensures flushed { OnOk result (IsFlushed (seen_by W.contents writer.new)) }
{
    write_flushed(writer, relabelled_line(geometry).as_bytes())
}

// That line.
fn relabelled_line(geometry: Geometry) -> ArrayString<48>
    ensures { result.bytes ≡ relabelled_line geometry }
{
    let mut line: ArrayString<48> = ArrayString::new();
    line.push_str("relabelled ");
    put_decimal(&mut line, u32::from(geometry.model.number()));
    line.push_str(" ");
    put_decimal(&mut line, u32::from(geometry.cylinders));
    line.push_str(" cylinders\n");
    line
}

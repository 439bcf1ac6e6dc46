//! The line that says what was loaded.

ghost use Rattle.std.specs.Prelude.{◌≡◌, ◌≤◌, length, OnOk};
ghost use Rattle.counted_io.specs.Streams.{seen_by, WritesWhole, IsFlushed};
ghost use Rattle.loaded_sets.specs.Loads.{loaded_line};

use arrayvec::ArrayString;
use counted_io::{Counted, WriteFault, put_decimal, write_flushed};
use std::io::Write;

/// The line that says which data set was loaded, and how many tracks it has.
pub(crate) fn write_loaded<W: Write>(
    writer: &mut Counted<W>,
    name: &str,
    tracks: u32,
) -> Result<(), WriteFault>
    requires { length name.now ≤ 44 }
    ensures written { WritesWhole result (seen_by W.contents writer.old) (seen_by W.contents writer.new) (loaded_line name.now tracks) }
    ensures flushed { OnOk result (IsFlushed (seen_by W.contents writer.new)) }
{
    let mut line: ArrayString<104> = ArrayString::new();
    line.push_str("loaded ");
    line.push_str(name);
    line.push_str(" ");
    put_decimal(&mut line, tracks);
    line.push_str(if tracks == 1 { " track\n" } else { " tracks\n" });
    write_flushed(writer, line.as_bytes())
}

//! The line that says what was put into a library.

ghost use Rattle.std.specs.Prelude.{◌≡◌, ◌≤◌, length, OnOk};
ghost use Rattle.counted_io.specs.Streams.{seen_by, WritesWhole, IsFlushed};
ghost use Rattle.loaded_folders.specs.MemberLoads.{added_line};

use arrayvec::ArrayString;
use counted_io::{Counted, WriteFault, put_decimal, write_flushed};
use std::io::Write;

/// The line that says which member was put into which library, and how many tracks that has.
pub(crate) fn write_added<W: Write>(
    writer: &mut Counted<W>,
    library: &str,
    member: &str,
    tracks: u32,
) -> Result<(), WriteFault>
    requires library { length library.now ≤ 44 }
    requires member { length member.now ≤ 8 }
    ensures written { WritesWhole result (seen_by W.contents writer.old) (seen_by W.contents writer.new)
        (added_line library.now member.now tracks) }
    ensures flushed { OnOk result (IsFlushed (seen_by W.contents writer.new)) }
{
    let mut line: ArrayString<112> = ArrayString::new();
    line.push_str("loaded ");
    line.push_str(library);
    line.push_str("(");
    line.push_str(member);
    line.push_str(") ");
    put_decimal(&mut line, tracks);
    line.push_str(if tracks == 1 { " track\n" } else { " tracks\n" });
    write_flushed(writer, line.as_bytes())
}

//! The lines that say what was changed.

ghost use Rattle.std.specs.Prelude.{◌≡◌, ◌≤◌, ◌+◌, ◌++◌, length, OnOk};
ghost use Rattle.counted_io.specs.Streams.{seen_by, WritesWhole, IsFlushed};
ghost use Rattle.changed_libraries.specs.Files.{member_word, deleted_line, renamed_line};

use crate::saves::{MemberName, NewMemberName};
use arrayvec::ArrayString;
use counted_io::{Counted, WriteFault, write_flushed};
use std::io::Write;

/// More characters than a line has.
const LINE: usize = 128;

// Appends the name of a member as it is written.
fn push_member(line: &mut ArrayString<LINE>, library: &str, member: &str)
    requires library { length library.now ≤ 44 }
    requires member { length member.now ≤ 8 }
    requires room { length line.old.bytes + 54 ≤ 128 }
    ensures { line.new.bytes ≡ line.old.bytes ++ member_word library.now member.now }
{
    line.push_str(library);
    line.push_str("(");
    line.push_str(member);
    line.push_str(")");
}

/// The line that says which member was deleted.
pub(crate) fn write_deleted<W: Write>(
    writer: &mut Counted<W>,
    name: &MemberName,
) -> Result<(), WriteFault>
    requires library { length name.now.library.now ≤ 44 }
    requires member { length name.now.member.now ≤ 8 }
    ensures written { WritesWhole result (seen_by W.contents writer.old) (seen_by W.contents writer.new)
        (deleted_line name.now.library.now name.now.member.now) }
    ensures flushed { OnOk result (IsFlushed (seen_by W.contents writer.new)) }
{
    let mut line: ArrayString<LINE> = ArrayString::new();
    line.push_str("deleted ");
    push_member(&mut line, name.library, name.member);
    line.push_str("\n");
    write_flushed(writer, line.as_bytes())
}

/// The line that says which member has which name now.
pub(crate) fn write_renamed<W: Write>(
    writer: &mut Counted<W>,
    names: &NewMemberName,
) -> Result<(), WriteFault>
    requires library { length names.now.library.now ≤ 44 }
    requires old { length names.now.old.now ≤ 8 }
    requires new { length names.now.new.now ≤ 8 }
    ensures written { WritesWhole result (seen_by W.contents writer.old) (seen_by W.contents writer.new)
        (renamed_line names.now.library.now names.now.old.now names.now.new.now) }
    ensures flushed { OnOk result (IsFlushed (seen_by W.contents writer.new)) }
{
    let mut line: ArrayString<LINE> = ArrayString::new();
    line.push_str("renamed ");
    push_member(&mut line, names.library, names.old);
    line.push_str(" to ");
    push_member(&mut line, names.library, names.new);
    line.push_str("\n");
    write_flushed(writer, line.as_bytes())
}

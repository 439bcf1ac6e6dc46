//! Pieces of lines, in a fixed room.

ghost use Rattle.std.specs.Prelude.{◌≡◌, ◌+◌, ◌≤◌, ◌++◌, length};
ghost use Rattle.std.specs.Fmt.{decimal};
ghost use Rattle.dasd_volumes.specs.Lines.{address_text, fault_text};

use crate::text::PrintedAddress;
use arrayvec::ArrayString;
use ckd_track::SlotFault;
use counted_io::put_hexadecimal;
use itoa::Buffer;

/// The bytes that a line has room for, or a piece of one that has no path: more than any has.
pub(crate) const LINE: usize = 128;

/// Cylinder and head go to the end of the line, which has room for them.
pub(crate) fn put_address(line: &mut ArrayString<LINE>, address: PrintedAddress)
    requires { length line.old.bytes + 17 ≤ 128 }
    ensures text { line.new.bytes ≡ line.old.bytes ++ address_text address.cylinder address.head }
    ensures size { length line.new.bytes ≤ length line.old.bytes + 17 }
{
    put_hexadecimal(line, 4, u32::from(address.cylinder));
    line.push_str(" ");
    put_hexadecimal(line, 4, u32::from(address.head));
}

/// Why a slot spells no track goes to the end of the line, which has room for it.
pub(crate) fn put_fault(line: &mut ArrayString<LINE>, fault: SlotFault)
    requires { length line.old.bytes + 39 ≤ 128 }
    ensures text { line.new.bytes ≡ line.old.bytes ++ fault_text fault }
    ensures size { length line.new.bytes ≤ length line.old.bytes + 39 }
{
    match fault {
        SlotFault::NoEnd(0) => line.push_str("not in the file"),
        SlotFault::NoEnd(offset) => {
            line.push_str("no end at ");
            put_count(line, offset);
        }
        SlotFault::RecordPastEnd(offset) => {
            line.push_str("record past end at ");
            put_count(line, offset);
        }
    }
}

/// The count in decimal digits goes to the end of the line, which has room for the twenty that a count may have.
pub(crate) fn put_count(line: &mut ArrayString<LINE>, count: usize)
    requires { length line.old.bytes + 20 ≤ 128 }
    ensures text { line.new.bytes ≡ line.old.bytes ++ decimal count }
    ensures size { length line.new.bytes ≤ length line.old.bytes + 20 }
{
    line.push_str(Buffer::new().format(count));
}

//! A drive is copied.

ghost use Rattle.std.specs.Prelude.{◌≡◌, Some, pos};
ghost use Rattle.lone_drive_c.specs.Copying.{TellsCopy};

use crate::LoneDrive;
use crate::handle::{HELD, Handle, hold, put, take};
use crate::tell::{IN_USE, NOTHING_HELD, of_not_made};
use std::alloc::Global;

/// Makes a handle that holds nothing hold a copy of the drive that this one holds, also in the middle of a command.
#[unsafe(no_mangle)]
pub extern "C" fn dasd_drive_copy(handle: &mut Handle, alloc: Global, copy: &mut Handle) -> i32
    ensures kept { handle.new.slot.held ≡ handle.old.slot.held }
    ensures copied { result ≡ pos 0 → copy.new.slot.held ≡ handle.old.slot.held }
    ensures stays { (result ≡ pos 0 → ⊥) → copy.new.slot.held ≡ copy.old.slot.held }
    ensures told { TellsCopy handle.old.slot.held copy.old.slot.held result }
{
    let Some(held) = take(handle, alloc) else {
        return NOTHING_HELD;
    };
    let code = copy_into(&held, alloc, copy);
    put(handle, held);
    code
}

// The handle holds a copy of this, unless it holds something already.
fn copy_into(drive: &LoneDrive, alloc: Global, copy: &mut Handle) -> i32
    ensures copied { result ≡ pos 0 → copy.new.slot.held ≡ Some drive.now }
    ensures stays { (result ≡ pos 0 → ⊥) → copy.new.slot.held ≡ copy.old.slot.held }
    ensures told { TellsCopy (Some drive.now) copy.old.slot.held result }
{
    if copy.stamp == HELD {
        return IN_USE;
    }
    match drive.copy(alloc) {
        Ok(made) => hold(copy, alloc, made),
        Err(why) => of_not_made(why),
    }
}

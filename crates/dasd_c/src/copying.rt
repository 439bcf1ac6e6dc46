//! A subsystem is copied.

ghost use Rattle.std.specs.Prelude.{◌≡◌, Some, pos};
ghost use Rattle.dasd_c.specs.Copying.{TellsCopy};

use crate::handle::{HELD, Handle, hold, put, take};
use dasd_subsystem::Subsystem;
use std::alloc::Global;
use subsystem_calls::tell::{IN_USE, NOTHING_HELD, of_refusal};

/// Makes a handle that holds nothing hold a copy of what this one holds, also in the middle of channel programs: channels and drives
/// with their volumes, and main storage, where it is theirs.
#[unsafe(no_mangle)]
pub extern "C" fn dasd_copy(handle: &mut Handle, alloc: Global, copy: &mut Handle) -> i32
    ensures kept { handle.new.slot.held ≡ handle.old.slot.held }
    ensures copied { result ≡ pos 0 → copy.new.slot.held ≡ handle.old.slot.held }
    ensures stays { (result ≡ pos 0 → ⊥) → copy.new.slot.held ≡ copy.old.slot.held }
    ensures told { TellsCopy handle.old.slot.held copy.old.slot.held result }
{
    let Some(subsystem) = take(handle, alloc) else {
        return NOTHING_HELD;
    };
    let code = copy_into(&subsystem, alloc, copy);
    put(handle, subsystem);
    code
}

// The handle holds a copy of this, unless it holds something already.
fn copy_into(subsystem: &Subsystem, alloc: Global, copy: &mut Handle) -> i32
    ensures copied { result ≡ pos 0 → copy.new.slot.held ≡ Some subsystem.now }
    ensures stays { (result ≡ pos 0 → ⊥) → copy.new.slot.held ≡ copy.old.slot.held }
    ensures told { TellsCopy (Some subsystem.now) copy.old.slot.held result }
{
    if copy.stamp == HELD {
        return IN_USE;
    }
    match subsystem.copy(alloc) {
        Ok(made) => hold(copy, alloc, made),
        Err(refusal) => of_refusal(refusal),
    }
}

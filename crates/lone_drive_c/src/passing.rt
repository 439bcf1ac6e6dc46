//! Bytes pass.

ghost use Rattle.std.specs.Prelude.{◌≡◌, None};
ghost use Rattle.lone_drive_c.specs.Calls.{Gives, Holds, Takes};

use crate::allowed::may;
use crate::handle::{Handle, put, take as taken};
use crate::tell::{DONE, GIVES_NONE, NOTHING_HELD, TAKES_NONE, TOO_MANY};
use ckd_drive::Drive;
use dasd_files::VolumeFile;
use std::alloc::Global;

/// Gives the next bytes of a read or of Sense.
#[unsafe(no_mangle)]
pub extern "C" fn dasd_drive_give(handle: &mut Handle, alloc: Global, into: &mut [u8]) -> i32
    ensures does { Holds handle.old.slot.held handle.new.slot.held result (λ old new. Gives result into.old into.new old new) }
    ensures untold { handle.old.slot.held ≡ None → into.new ≡ into.old }
{
    let Some(mut held) = taken(handle, alloc) else {
        return NOTHING_HELD;
    };
    let code = give(&mut held.drive, into);
    put(handle, held);
    code
}

fn give(drive: &mut Drive<VolumeFile>, into: &mut [u8]) -> i32
    ensures { Gives result into.old into.new drive.old drive.new }
{
    let Some(left) = may(drive).give else {
        return GIVES_NONE;
    };
    if into.len() > left {
        return TOO_MANY;
    }
    drive.give(into);
    DONE
}

/// Takes the next bytes of any other command.
#[unsafe(no_mangle)]
pub extern "C" fn dasd_drive_take(handle: &mut Handle, alloc: Global, bytes: &[u8]) -> i32
    ensures { Holds handle.old.slot.held handle.new.slot.held result (λ old new. Takes result bytes.now old new) }
{
    let Some(mut held) = taken(handle, alloc) else {
        return NOTHING_HELD;
    };
    let code = take(&mut held.drive, bytes);
    put(handle, held);
    code
}

fn take(drive: &mut Drive<VolumeFile>, bytes: &[u8]) -> i32
    ensures { Takes result bytes.now drive.old drive.new }
{
    let Some(left) = may(drive).take else {
        return TAKES_NONE;
    };
    if bytes.len() > left {
        return TOO_MANY;
    }
    drive.take(bytes);
    DONE
}

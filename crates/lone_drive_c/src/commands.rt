//! A command is begun, looked for and ended.

ghost use Rattle.std.specs.Prelude.{◌≡◌};
ghost use Rattle.lone_drive_c.specs.Calls.{Begins, ClearsSense, Ends, Holds, Looks, Settles, StartsProgram};

use crate::allowed::may;
use crate::handle::{Handle, put, take};
use crate::tell::{
    BYTES_PASSED, COMMAND_OPEN, DONE, NO_COMMAND, NO_END, NOTHING_HELD, of_begun, of_look,
    of_settled,
};
use ckd_drive::Drive;
use dasd_files::VolumeFile;
use std::alloc::Global;

/// Begins a channel program, where no command is open.
#[unsafe(no_mangle)]
pub extern "C" fn dasd_drive_begin_program(handle: &mut Handle, alloc: Global) -> i32
    ensures { Holds handle.old.slot.held handle.new.slot.held result (λ old new. StartsProgram result old new) }
{
    let Some(mut held) = take(handle, alloc) else {
        return NOTHING_HELD;
    };
    let code = begin_program(&mut held.drive);
    put(handle, held);
    code
}

fn begin_program(drive: &mut Drive<VolumeFile>) -> i32
    ensures { StartsProgram result drive.old drive.new }
{
    if !may(drive).begin {
        return COMMAND_OPEN;
    }
    drive.begin_program();
    DONE
}

/// Begins the command of this code, where no command is open.
#[unsafe(no_mangle)]
pub extern "C" fn dasd_drive_begin(handle: &mut Handle, alloc: Global, command: u8) -> i32
    ensures { Holds handle.old.slot.held handle.new.slot.held result (λ old new. Begins command result old new) }
{
    let Some(mut held) = take(handle, alloc) else {
        return NOTHING_HELD;
    };
    let code = begin(&mut held.drive, command);
    put(handle, held);
    code
}

fn begin(drive: &mut Drive<VolumeFile>, command: u8) -> i32
    ensures { Begins command result drive.old drive.new }
{
    if !may(drive).begin {
        return COMMAND_OPEN;
    }
    of_begun(drive.begin(command))
}

/// Looks at the track under the arm for the area of the command that works.
#[unsafe(no_mangle)]
pub extern "C" fn dasd_drive_look(handle: &mut Handle, alloc: Global) -> i32
    ensures { Holds handle.old.slot.held handle.new.slot.held result (λ old new. Looks result old new) }
{
    let Some(mut held) = take(handle, alloc) else {
        return NOTHING_HELD;
    };
    let code = look(&mut held.drive);
    put(handle, held);
    code
}

fn look(drive: &mut Drive<VolumeFile>) -> i32
    ensures { Looks result drive.old drive.new }
{
    if !may(drive).look {
        return NO_COMMAND;
    }
    of_look(drive.look())
}

/// Ends the command by the bytes that have passed, and answers its unit status.
#[unsafe(no_mangle)]
pub extern "C" fn dasd_drive_end(handle: &mut Handle, alloc: Global) -> i32
    ensures { Holds handle.old.slot.held handle.new.slot.held result (λ old new. Ends result old new) }
{
    let Some(mut held) = take(handle, alloc) else {
        return NOTHING_HELD;
    };
    let code = end(&mut held.drive);
    put(handle, held);
    code
}

fn end(drive: &mut Drive<VolumeFile>) -> i32
    ensures { Ends result drive.old drive.new }
{
    if !may(drive).end {
        return NO_END;
    }
    drive.end().unit.0 as i32
}

/// Saves the track if it was written; a command that is open, of which no byte has passed, is open no more.
#[unsafe(no_mangle)]
pub extern "C" fn dasd_drive_settle(handle: &mut Handle, alloc: Global) -> i32
    ensures { Holds handle.old.slot.held handle.new.slot.held result (λ old new. Settles result old new) }
{
    let Some(mut held) = take(handle, alloc) else {
        return NOTHING_HELD;
    };
    let code = settle(&mut held.drive);
    put(handle, held);
    code
}

fn settle(drive: &mut Drive<VolumeFile>) -> i32
    ensures { Settles result drive.old drive.new }
{
    if !may(drive).settle {
        return BYTES_PASSED;
    }
    of_settled(drive.settle())
}

/// Makes the sense bytes zero, where no command is open.
#[unsafe(no_mangle)]
pub extern "C" fn dasd_drive_clear_sense(handle: &mut Handle, alloc: Global) -> i32
    ensures { Holds handle.old.slot.held handle.new.slot.held result (λ old new. ClearsSense result old new) }
{
    let Some(mut held) = take(handle, alloc) else {
        return NOTHING_HELD;
    };
    let code = clear_sense(&mut held.drive);
    put(handle, held);
    code
}

fn clear_sense(drive: &mut Drive<VolumeFile>) -> i32
    ensures { ClearsSense result drive.old drive.new }
{
    if !may(drive).begin {
        return COMMAND_OPEN;
    }
    drive.clear_sense();
    DONE
}

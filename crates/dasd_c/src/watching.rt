//! What is shown of a channel program while it runs, between two units.

ghost use Rattle.std.specs.Prelude.{◌≡◌};
ghost use Rattle.s360_channels.specs.Channels.{channel_at};
ghost use Rattle.subsystem_calls.specs.Watching.{ShowsProgramOf, ShowsRegistersOf};
ghost use Rattle.dasd_c.specs.Calls.{CallsAny};

use crate::handle::{Handle, put, take};
use std::alloc::Global;
use subsystem_calls::tell::NOTHING_HELD;
use subsystem_calls::{show_program, show_registers};

/// Shows the program that runs on a channel, in a struct of so many bytes.
#[unsafe(no_mangle)]
pub extern "C" fn dasd_show_program_sized(
    handle: &mut Handle,
    alloc: Global,
    channel: u8,
    shown: &mut [u8],
) -> i32
    ensures { CallsAny handle.old.slot.held handle.new.slot.held result
        (λ old new. (new ≡ old) × ShowsProgramOf (channel_at channel old) old.storage result shown.old shown.new) }
{
    let Some(subsystem) = take(handle, alloc) else {
        return NOTHING_HELD;
    };
    let code = show_program(&subsystem.channels, channel, shown);
    put(handle, subsystem);
    code
}

/// Shows what the drive of the program that runs on a channel remembers beside its volume, in a struct of so many bytes.
#[unsafe(no_mangle)]
pub extern "C" fn dasd_show_registers_sized(
    handle: &mut Handle,
    alloc: Global,
    channel: u8,
    shown: &mut [u8],
) -> i32
    ensures { CallsAny handle.old.slot.held handle.new.slot.held result
        (λ old new. (new ≡ old) × ShowsRegistersOf (channel_at channel old) old.storage result shown.old shown.new) }
{
    let Some(subsystem) = take(handle, alloc) else {
        return NOTHING_HELD;
    };
    let code = show_registers(&subsystem.channels, channel, shown);
    put(handle, subsystem);
    code
}

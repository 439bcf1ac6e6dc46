//! What channels are between two programs is saved as bytes, and restored.

ghost use Rattle.std.specs.Prelude.{◌≡◌};
ghost use Rattle.s360_channels.specs.Saves.{all_saved};
ghost use Rattle.dasd_subsystem.specs.Saving.{restored_by};
ghost use Rattle.subsystem_calls.specs.States.{TellsRestored, TellsSaved};
ghost use Rattle.dasd_c.specs.Calls.{Holds};

use crate::handle::{Handle, put, take};
use std::alloc::Global;
use subsystem_calls::tell::NOTHING_HELD;
use subsystem_calls::{restore, save};

/// Saves all that the channels are between two programs, beside main storage and volumes, in the first bytes of these.
#[unsafe(no_mangle)]
pub extern "C" fn dasd_save(
    handle: &mut Handle,
    alloc: Global,
    into: &mut [u8],
    written: &mut usize,
) -> i32
    ensures { Holds handle.old.slot.held handle.new.slot.held result
        (λ old new. (new ≡ old) × TellsSaved (all_saved old.channels.channels) result into.old into.new written.old written.new) }
{
    let Some(subsystem) = take(handle, alloc) else {
        return NOTHING_HELD;
    };
    let code = save(&subsystem, into, written);
    put(handle, subsystem);
    code
}

/// Restores the channels as they were saved in these bytes, or none of them.
#[unsafe(no_mangle)]
pub extern "C" fn dasd_restore(handle: &mut Handle, alloc: Global, from: &[u8]) -> i32
    ensures { Holds handle.old.slot.held handle.new.slot.held result (λ old new. (new.storage ≡ old.storage)
        × TellsRestored (restored_by from.now old.channels) result old.channels new.channels) }
{
    let Some(mut subsystem) = take(handle, alloc) else {
        return NOTHING_HELD;
    };
    let code = restore(&mut subsystem, from);
    put(handle, subsystem);
    code
}

//! Units of a channel program until something happens for which an emulator waits.

ghost use Rattle.std.specs.Prelude.{◌≡◌, ℕ, List, pos};
ghost use Rattle.s360_storage.specs.Lent.{lent};
ghost use Rattle.dasd_c.specs.Calls.{Calls, CallsLent};
ghost use Rattle.dasd_c.specs.Until.{RunsUntilBits};

use crate::calling::{Memory, with_lent, with_own};
use crate::handle::Handle;
use dasd_files::VolumeFile;
use dasd_subsystem::{Until, Wanted, run_until};
use s360_channels::Selectors;
use s360_storage::MainStorage;
use std::alloc::Global;
use subsystem_calls::tell::{BAD_UNTIL, DONE, NO_CHANNEL};
use subsystem_calls::{Call, tell_progress};

/// Units that C asks for.
#[repr(C)]
#[derive(Clone, Copy)]
pub struct UnitsWanted {
    /// How many at most.
    pub units: u32,
    /// The number of the channel.
    pub channel: u8,
    /// The bits of what is waited for.
    pub until: u8,
    /// Whatever it is.
    pub reserved: [u8; 2],
}

/// Lets the program that runs on a channel do units until one of them is what C waits for, until it ends, or until so many are done; and
/// tells what came of them in a struct of so many bytes.
#[unsafe(no_mangle)]
pub extern "C" fn dasd_run_until_sized(
    handle: &mut Handle,
    alloc: Global,
    wanted: &UnitsWanted,
    ran: &mut [u8],
) -> i32
    ensures does { Calls handle.old.slot.held handle.new.slot.held result (RunsUntilBits wanted.now result ran.old ran.new) }
    ensures untold { (result ≡ pos 0 → ⊥) → ran.new ≡ ran.old }
{
    let wanted = *wanted;
    with_own(handle, alloc, &mut UntilBits { wanted, ran })
}

/// The same over this memory.
#[unsafe(no_mangle)]
pub extern "C" fn dasd_lent_run_until_sized(
    handle: &mut Handle,
    alloc: Global,
    memory: &mut Memory<'_, '_>,
    wanted: &UnitsWanted,
    ran: &mut [u8],
) -> i32
    ensures does { CallsLent handle.old.slot.held handle.new.slot.held result (RunsUntilBits wanted.now result ran.old ran.new)
        (lent memory.old.bytes.now memory.old.keys.now) (lent memory.new.bytes.now memory.new.keys.now) }
    ensures untold { (result ≡ pos 0 → ⊥) → ran.new ≡ ran.old }
    ensures same { memory.new.bytes.ghost_name ≡ memory.old.bytes.ghost_name }
{
    let wanted = *wanted;
    with_lent(handle, alloc, memory, &mut UntilBits { wanted, ran })
}

#[derive(Drop)]
struct UntilBits<'a> {
    wanted: UnitsWanted,
    ran: &'a mut [u8],
}

impl<'a> Call for UntilBits<'a> {
    ghost does = { λ call code after old new. RunsUntilBits call.wanted code call.ran.now after.ran.now old new };

    ghost tells = { pos 0 };

    ghost Told = { List ℕ };

    ghost told = { λ call. call.ran.now };

    ghost out = { λ call. call.ran.ghost_name };

    fn over<M: MainStorage>(
        &mut self,
        channels: &mut Selectors<VolumeFile>,
        storage: &mut M,
    ) -> i32 {
        let UnitsWanted { units, channel, .. } = self.wanted;
        let Some(until) = Until::of_byte(self.wanted.until) else {
            return BAD_UNTIL;
        };
        let wanted = Wanted {
            channel,
            units,
            until,
        };
        match run_until(channels, storage, wanted) {
            Some(progress) => {
                tell_progress(self.ran, &progress);
                DONE
            }
            None => NO_CHANNEL,
        }
    }
}

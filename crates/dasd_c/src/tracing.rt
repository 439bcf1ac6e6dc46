//! A trace of one channel, by looks: before a start, behind each unit, behind each call. Between two of them its caller keeps it.

ghost use Rattle.std.specs.Prelude.{◌≡◌, pos};
ghost use Rattle.s360_storage.specs.Lent.{lent};
ghost use Rattle.dasd_c.specs.Calls.{Calls, CallsLent};
ghost use Rattle.dasd_c.specs.declared.tracing.Trace.{Trace as TraceState};
ghost use Rattle.dasd_c.specs.Tracing.{LooksFor, look_code};

use crate::calling::{Memory, with_lent, with_own};
use crate::handle::Handle;
use dasd_files::VolumeFile;
use s360_channels::Selectors;
use s360_storage::MainStorage;
use std::alloc::Global;
use subsystem_calls::tell::{BAD_MOMENT, DONE, NO_CHANNEL, NO_ROOM};
use subsystem_calls::{Call, KeptTrace, LookFault, ToldMoment, look};

/// A trace of one channel: where its lines go, how many bytes of them the last look has told, and what is kept until the next look. With
/// zeros there it has seen nothing.
#[repr(C)]
#[derive(Drop)]
pub struct Trace<'a> {
    pub lines: &'a mut [u8],
    pub len: usize,
    pub kept: KeptTrace,
}

/// Looks at a channel at a moment, and puts the lines that tell of it to the front of the trace's bytes.
#[unsafe(no_mangle)]
pub extern "C" fn dasd_trace_look(
    handle: &mut Handle,
    alloc: Global,
    trace: &mut Trace<'_>,
    told: &ToldMoment,
) -> i32
    ensures looks { Calls handle.old.slot.held handle.new.slot.held result (λ old new. (new ≡ old) × LooksFor told.now result trace.old trace.new old) }
    ensures untold { (result ≡ pos 0 → ⊥) → trace.new ≡ trace.old }
{
    with_own(handle, alloc, &mut Look { told, trace })
}

/// The same over this memory, which stays as it is.
#[unsafe(no_mangle)]
pub extern "C" fn dasd_lent_trace_look(
    handle: &mut Handle,
    alloc: Global,
    memory: &mut Memory<'_, '_>,
    trace: &mut Trace<'_>,
    told: &ToldMoment,
) -> i32
    ensures looks { CallsLent handle.old.slot.held handle.new.slot.held result (λ old new. (new ≡ old) × LooksFor told.now result trace.old trace.new old)
        (lent memory.old.bytes.now memory.old.keys.now) (lent memory.new.bytes.now memory.new.keys.now) }
    ensures untold { (result ≡ pos 0 → ⊥) → trace.new ≡ trace.old }
    ensures same { memory.new.bytes.ghost_name ≡ memory.old.bytes.ghost_name }
{
    with_lent(handle, alloc, memory, &mut Look { told, trace })
}

#[derive(Drop)]
struct Look<'a, 't> {
    told: &'a ToldMoment,
    trace: &'a mut Trace<'t>,
}

impl<'a, 't> Call for Look<'a, 't> {
    ghost does = { λ call code after old new. (new ≡ old) × LooksFor call.told.now code call.trace.now after.trace.now old };

    ghost tells = { pos 0 };

    ghost Told = { TraceState };

    ghost told = { λ call. call.trace.now };

    ghost out = { λ call. call.trace.ghost_name };

    fn over<M: MainStorage>(
        &mut self,
        channels: &mut Selectors<VolumeFile>,
        storage: &mut M,
    ) -> i32 {
        let trace = &mut *self.trace;
        match look(&mut trace.kept, channels, storage, self.told, trace.lines) {
            Ok(len) => {
                trace.len = len;
                DONE
            }
            Err(fault) => of_look(fault),
        }
    }
}

// Why a look was not taken.
fn of_look(fault: LookFault) -> i32
    ensures { result ≡ look_code fault }
{
    match fault {
        LookFault::NoChannel => NO_CHANNEL,
        LookFault::BadMoment => BAD_MOMENT,
        LookFault::NoRoom => NO_ROOM,
    }
}

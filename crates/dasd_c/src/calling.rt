//! How a call of C is made: what the handle holds is taken out, the call is made over main storage, the subsystem's own or the caller's,
//! and what was held is put back.

ghost use Rattle.std.specs.Prelude.{◌≡◌};
ghost use Rattle.s360_storage.specs.Lent.{lent};
ghost use Rattle.dasd_c.specs.Calls.{Calls, CallsLent};

use crate::handle::{Handle, put, take};
use std::alloc::Global;
use subsystem_calls::tell::NOTHING_HELD;
use subsystem_calls::{Call, over_lent, over_own};

/// Makes a call over the main storage that the subsystem of the handle owns.
#[inline(always)]
pub(crate) fn with_own<C: Call>(handle: &mut Handle, alloc: Global, call: &mut C) -> i32
    ensures does { Calls handle.old.slot.held handle.new.slot.held result (λ old new. C.does call.old result call.new old new) }
    ensures untold { (result ≡ C.tells → ⊥) → C.told call.new ≡ C.told call.old }
    ensures out { C.out call.new ≡ C.out call.old }
{
    let Some(mut subsystem) = take(handle, alloc) else {
        return NOTHING_HELD;
    };
    let code = over_own(&mut subsystem, call);
    put(handle, subsystem);
    code
}

/// Main storage that a program keeps: its bytes, and the key of each block of 2,048 of them.
#[repr(C)]
#[derive(Drop)]
pub struct Memory<'a, 'k> {
    pub bytes: &'a mut [u8],
    pub keys: &'k [u8],
}

/// Makes a call over main storage that it is lent: an emulator's own memory.
#[inline(always)]
pub(crate) fn with_lent<C: Call>(
    handle: &mut Handle,
    alloc: Global,
    memory: &mut Memory<'_, '_>,
    call: &mut C,
) -> i32
    ensures does { CallsLent handle.old.slot.held handle.new.slot.held result (λ old new. C.does call.old result call.new old new)
        (lent memory.old.bytes.now memory.old.keys.now) (lent memory.new.bytes.now memory.new.keys.now) }
    ensures untold { (result ≡ C.tells → ⊥) → C.told call.new ≡ C.told call.old }
    ensures out { C.out call.new ≡ C.out call.old }
    ensures same { memory.new.bytes.ghost_name ≡ memory.old.bytes.ghost_name }
{
    let Some(mut subsystem) = take(handle, alloc) else {
        return NOTHING_HELD;
    };
    let keys = memory.keys;
    let bytes = &mut *memory.bytes;
    let code = over_lent(&mut subsystem, bytes, keys, call);
    put(handle, subsystem);
    code
}

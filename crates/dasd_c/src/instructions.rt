//! The processor's input/output instructions. Each answers its condition code, 0 to 3: that of the channel of the address, and 3 where
//! there is none, or no drive of that address at it.

ghost use Rattle.std.specs.Prelude.{◌≡◌, ◌/◌, ◌<◌, ◌^◌, pos, length};
ghost use Rattle.s360_storage.specs.Lent.{lent};
ghost use Rattle.s360_laws.specs.Events as machine;
ghost use Rattle.s360_laws.specs.declared.condition.ConditionCode.TheVariants.{Three};
ghost use Rattle.subsystem_calls.specs.Calls.{Tells, TellsMissing, TellsOf, TellsTest};
ghost use Rattle.dasd_c.specs.Calls.{Calls, CallsAny, CallsLent};

use crate::calling::{Memory, with_lent, with_own};
use crate::handle::{Handle, put, take};
use std::alloc::Global;
use subsystem_calls::tell::NOTHING_HELD;
use subsystem_calls::{Hio, Sio, Tio, tch};

/// Start I/O.
#[unsafe(no_mangle)]
pub extern "C" fn dasd_sio(handle: &mut Handle, alloc: Global, address: u16) -> i32
    ensures { Calls handle.old.slot.held handle.new.slot.held result (λ old new. Tells (address / 256) (machine.Sio address)
        (machine.WithCode Three) result old new × TellsMissing address result old) }
{
    with_own(handle, alloc, &mut Sio { address })
}

/// Start I/O over this memory.
#[unsafe(no_mangle)]
pub extern "C" fn dasd_lent_sio(
    handle: &mut Handle,
    alloc: Global,
    memory: &mut Memory<'_, '_>,
    address: u16,
) -> i32
    ensures does { CallsLent handle.old.slot.held handle.new.slot.held result
        (λ old new. Tells (address / 256) (machine.Sio address) (machine.WithCode Three) result old new × TellsMissing address result old)
        (lent memory.old.bytes.now memory.old.keys.now) (lent memory.new.bytes.now memory.new.keys.now) }
    ensures same { memory.new.bytes.ghost_name ≡ memory.old.bytes.ghost_name }
{
    with_lent(handle, alloc, memory, &mut Sio { address })
}

/// Test I/O.
#[unsafe(no_mangle)]
pub extern "C" fn dasd_tio(handle: &mut Handle, alloc: Global, address: u16) -> i32
    ensures { Calls handle.old.slot.held handle.new.slot.held result (λ old new. Tells (address / 256) (machine.Tio address)
        (machine.WithCode Three) result old new × TellsMissing address result old) }
{
    with_own(handle, alloc, &mut Tio { address })
}

/// Test I/O over this memory.
#[unsafe(no_mangle)]
pub extern "C" fn dasd_lent_tio(
    handle: &mut Handle,
    alloc: Global,
    memory: &mut Memory<'_, '_>,
    address: u16,
) -> i32
    ensures does { CallsLent handle.old.slot.held handle.new.slot.held result
        (λ old new. Tells (address / 256) (machine.Tio address) (machine.WithCode Three) result old new × TellsMissing address result old)
        (lent memory.old.bytes.now memory.old.keys.now) (lent memory.new.bytes.now memory.new.keys.now) }
    ensures same { memory.new.bytes.ghost_name ≡ memory.old.bytes.ghost_name }
{
    with_lent(handle, alloc, memory, &mut Tio { address })
}

/// Halt I/O.
#[unsafe(no_mangle)]
pub extern "C" fn dasd_hio(handle: &mut Handle, alloc: Global, address: u16) -> i32
    ensures { Calls handle.old.slot.held handle.new.slot.held result (λ old new. TellsOf (address / 256) (machine.Hio address)
        (machine.WithCode Three) result old new × TellsMissing address result old) }
{
    with_own(handle, alloc, &mut Hio { address })
}

/// Halt I/O over this memory.
#[unsafe(no_mangle)]
pub extern "C" fn dasd_lent_hio(
    handle: &mut Handle,
    alloc: Global,
    memory: &mut Memory<'_, '_>,
    address: u16,
) -> i32
    ensures does { CallsLent handle.old.slot.held handle.new.slot.held result
        (λ old new. TellsOf (address / 256) (machine.Hio address) (machine.WithCode Three) result old new × TellsMissing address result old)
        (lent memory.old.bytes.now memory.old.keys.now) (lent memory.new.bytes.now memory.new.keys.now) }
    ensures same { memory.new.bytes.ghost_name ≡ memory.old.bytes.ghost_name }
{
    with_lent(handle, alloc, memory, &mut Hio { address })
}

/// Test Channel, of the channel of an address.
#[unsafe(no_mangle)]
pub extern "C" fn dasd_tch(handle: &mut Handle, alloc: Global, address: u16) -> i32
    ensures { CallsAny handle.old.slot.held handle.new.slot.held result (λ old new. (new ≡ old) × TellsTest (address / 256) result old) }
{
    let Some(subsystem) = take(handle, alloc) else {
        return NOTHING_HELD;
    };
    let code = tch(&subsystem.channels, address);
    put(handle, subsystem);
    code
}

//! The handle, and how a subsystem is taken out of it and put back.

ghost use Rattle.std.specs.Prelude.{◌≡◌, ◌==◌, Option, Some, None, IsSome, IfSome, is_some, option_map, pos, true, false, if◌then◌else◌};
ghost use Rattle.dasd_subsystem.specs.Making.{MadeLent, MadeOwn, NotMade};
ghost use Rattle.dasd_subsystem.specs.declared.refusal.Refusal.TheVariants as refusal;
ghost use Rattle.subsystem_calls.specs.Attaching.{TellsWhy};
ghost use Rattle.subsystem_calls.specs.Codes.{nothing_held, in_use, refusal_code};
ghost use Rattle.dasd_c.specs.declared.handle.TheConstants.{HELD};

use crate::slot::Slot;
use box_parts::Parts;
use dasd_subsystem::Subsystem;
use std::alloc::Global;
use std::marker::Send;
use std::mem;
use subsystem_calls::tell::{DONE, IN_USE, NO_MEMORY, NOTHING_HELD, of_refusal};

/// The stamp of a handle that holds a subsystem.
pub const HELD: u64 = 0x4441_5344_4348_414E;

/// What C holds of a subsystem. All zero bytes is a handle that holds none.
#[repr(C)]
#[derive(Drop)]
pub struct Handle {
    pub(crate) stamp: u64,
    pub(crate) slot: Slot,
    ghost agrees: { is_some slot.held ≡ (stamp == HELD) },
}

/// Takes the subsystem out of the handle, which then holds none.
pub(crate) fn take(handle: &mut Handle, alloc: Global) -> Option<Box<Subsystem>>
    ensures taken { option_map (λ b. b.value) result ≡ handle.old.slot.held }
    ensures left { handle.new.slot.held ≡ None }
{
    if handle.stamp != HELD {
        return None;
    }
    let empty = Handle {
        stamp: 0,
        slot: Slot::empty(alloc),
    };
    let Handle { stamp: _, slot } = mem::replace(handle, empty);
    Some(slot.into_parts().into_box())
}

/// Puts a subsystem into the handle.
pub(crate) fn put(handle: &mut Handle, subsystem: Box<Subsystem>)
    ensures { handle.new.slot.held ≡ Some subsystem.value }
{
    *handle = Handle {
        stamp: HELD,
        slot: Slot::of_parts(Parts::of(subsystem)),
    };
}

/// The version of the library: major, minor and patch, in 16 bits, 8 and 8.
#[unsafe(no_mangle)]
pub extern "C" fn dasd_version() -> u32
    ensures { result ≡ 0x010200 }
{
    0x01_02_00
}

/// The number of the binary interface.
#[unsafe(no_mangle)]
pub extern "C" fn dasd_interface() -> u32
    ensures { result ≡ 1 }
{
    1
}

/// Makes a storage of so many zero bytes and the channels of this set over it, where the handle holds nothing.
#[unsafe(no_mangle)]
pub extern "C" fn dasd_new(
    handle: &mut Handle,
    alloc: Global,
    storage_bytes: u32,
    channels: u8,
) -> i32
    ensures made { result ≡ pos 0 → IfSome handle.new.slot.held (λ s. MadeOwn channels storage_bytes s) }
    ensures held { result ≡ pos 0 → IsSome handle.new.slot.held }
    ensures stays { (result ≡ pos 0 → ⊥) → handle.new.slot.held ≡ handle.old.slot.held }
    ensures in_use { IsSome handle.old.slot.held → result ≡ in_use }
    ensures refused { handle.old.slot.held ≡ None → (result ≡ pos 0 → ⊥) → TellsWhy refusal_code (NotMade channels storage_bytes) result }
{
    if handle.stamp == HELD {
        return IN_USE;
    }
    match Subsystem::new(alloc, channels, storage_bytes) {
        Ok(made) => hold(handle, alloc, made),
        Err(refusal) => of_refusal(refusal),
    }
}

/// Makes the channels of this set, for storage of so many bytes that each call is lent, where the handle holds nothing.
#[unsafe(no_mangle)]
pub extern "C" fn dasd_new_lent(
    handle: &mut Handle,
    alloc: Global,
    storage_bytes: u32,
    channels: u8,
) -> i32
    ensures made { result ≡ pos 0 → IfSome handle.new.slot.held (λ s. MadeLent channels storage_bytes s) }
    ensures held { result ≡ pos 0 → IsSome handle.new.slot.held }
    ensures stays { (result ≡ pos 0 → ⊥) → handle.new.slot.held ≡ handle.old.slot.held }
    ensures in_use { IsSome handle.old.slot.held → result ≡ in_use }
    ensures refused { handle.old.slot.held ≡ None → (result ≡ pos 0 → ⊥) → TellsWhy refusal_code (NotMade channels storage_bytes) result }
{
    if handle.stamp == HELD {
        return IN_USE;
    }
    match Subsystem::lent(channels, storage_bytes) {
        Ok(made) => hold(handle, alloc, made),
        Err(refusal) => of_refusal(refusal),
    }
}

/// Puts a subsystem on the heap, and into the handle; where there is no memory, the handle stays as it was.
pub(crate) fn hold(handle: &mut Handle, alloc: Global, subsystem: Subsystem) -> i32
    ensures held { result ≡ pos 0 → handle.new.slot.held ≡ Some subsystem }
    ensures stays { (result ≡ pos 0 → ⊥) → handle.new.slot.held ≡ handle.old.slot.held }
    ensures no_memory { (result ≡ pos 0 → ⊥) → result ≡ refusal_code refusal.OutOfMemory }
{
    match Box::new(alloc, subsystem) {
        Ok(boxed) => {
            put(handle, boxed);
            DONE
        }
        Err(_) => NO_MEMORY,
    }
}

/// Frees what the handle holds. It holds nothing from then on.
#[unsafe(no_mangle)]
pub extern "C" fn dasd_free(handle: &mut Handle, alloc: Global) -> i32
    ensures freed { handle.new.slot.held ≡ None }
    ensures told { result ≡ (if is_some handle.old.slot.held then pos 0 else nothing_held) }
{
    match take(handle, alloc) {
        Some(subsystem) => {
            drop(subsystem);
            DONE
        }
        None => NOTHING_HELD,
    }
}

/// The same value, of a type that may go to another thread.
pub(crate) fn moved<T: Send>(value: T) -> T
    ensures { result ≡ value }
{
    value
}

/// The same handle, which may so go to another thread.
pub fn crossed(handle: Handle) -> Handle
    ensures { result ≡ handle }
{
    moved(handle)
}

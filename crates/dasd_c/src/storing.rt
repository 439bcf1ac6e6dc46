//! What the processor does to storage.

ghost use Rattle.std.specs.Prelude.{◌≡◌, pos, length};
ghost use Rattle.s360_words.specs.Storage.{Bytes};
ghost use Rattle.subsystem_calls.specs.Calls.{Own, Peeks, SetsKey, TellsKept, key_code};
ghost use Rattle.dasd_c.specs.Calls.{Calls};

use crate::handle::{Handle, put, take};
use dasd_subsystem::Subsystem;
use std::alloc::Global;
use subsystem_calls::tell::{DONE, NO_STORAGE, NOTHING_HELD};
use subsystem_calls::{key, peek, poke, set_key};

/// The processor stores these bytes from an address on.
#[unsafe(no_mangle)]
pub extern "C" fn dasd_poke(handle: &mut Handle, alloc: Global, at: u32, bytes: &[u8]) -> i32
    ensures { Calls handle.old.slot.held handle.new.slot.held result (λ old new. TellsKept (Bytes at bytes.now) result old new) }
{
    let Some(mut subsystem) = take(handle, alloc) else {
        return NOTHING_HELD;
    };
    let code = poke(&mut subsystem, at, bytes);
    put(handle, subsystem);
    code
}

/// Copies the bytes of storage from an address on.
#[unsafe(no_mangle)]
pub extern "C" fn dasd_peek(handle: &mut Handle, alloc: Global, at: u32, into: &mut [u8]) -> i32
    ensures { Calls handle.old.slot.held handle.new.slot.held result (λ old new. (new ≡ old) × Peeks old.storage at result into.old into.new) }
{
    let Some(subsystem) = take(handle, alloc) else {
        return NOTHING_HELD;
    };
    let code = peek(&subsystem, at, into);
    put(handle, subsystem);
    code
}

/// The processor sets the storage key, below 16, of the block that has this address.
#[unsafe(no_mangle)]
pub extern "C" fn dasd_set_key(handle: &mut Handle, alloc: Global, at: u32, key: u8) -> i32
    ensures { Calls handle.old.slot.held handle.new.slot.held result (λ old new. SetsKey at key result old new) }
{
    let Some(mut subsystem) = take(handle, alloc) else {
        return NOTHING_HELD;
    };
    let code = set_key(&mut subsystem, at, key);
    put(handle, subsystem);
    code
}

/// The storage key, 0 to 15, of the block that has this address.
#[unsafe(no_mangle)]
pub extern "C" fn dasd_key(handle: &mut Handle, alloc: Global, at: u32) -> i32
    ensures { Calls handle.old.slot.held handle.new.slot.held result (λ old new. (new ≡ old) × (result ≡ key_code old.storage at)) }
{
    let Some(subsystem) = take(handle, alloc) else {
        return NOTHING_HELD;
    };
    let code = key(&subsystem, at);
    put(handle, subsystem);
    code
}

/// Where storage lies, and how many bytes it has.
#[repr(C)]
#[derive(Drop)]
pub struct StoragePlace {
    pub at: *mut u8,
    pub len: usize,
}

/// Shows where storage lies. Between two calls its bytes are C's to read and write: each change is one that the processor makes.
#[unsafe(no_mangle)]
pub extern "C" fn dasd_show_storage(
    handle: &mut Handle,
    alloc: Global,
    shown: &mut StoragePlace,
) -> i32
    ensures { Calls handle.old.slot.held handle.new.slot.held result (λ old new. (new ≡ old) ×
        ((result ≡ pos 0) × (shown.new.len ≡ length old.storage.bytes))) }
{
    let Some(mut subsystem) = take(handle, alloc) else {
        return NOTHING_HELD;
    };
    let code = show_storage(&mut subsystem, shown);
    put(handle, subsystem);
    code
}

fn show_storage(subsystem: &mut Subsystem, shown: &mut StoragePlace) -> i32
    ensures { Own result (λ old new. (new ≡ old) × ((result ≡ pos 0) × (shown.new.len ≡ length old.storage.bytes)))
        subsystem.old subsystem.new }
{
    let Some(storage) = &mut subsystem.storage else {
        return NO_STORAGE;
    };
    let len = storage.size() as usize;
    let at = storage.as_mut_ptr();
    *shown = StoragePlace { at, len };
    DONE
}

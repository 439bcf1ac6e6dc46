//! What the processor does to storage.

ghost use Rattle.std.specs.Prelude.{◌≡◌, pos, length};
ghost use Rattle.s360_words.specs.Storage.{Bytes, KeyOf};
ghost use Rattle.subsystem_calls.specs.Calls.{Own, Peeks, SetsKey, TellsKept, key_code};

use crate::tell::{BAD_KEY, DONE, NO_STORAGE, OUTSIDE_STORAGE, of_kept};
use dasd_subsystem::Subsystem;
use s360_words::Storage;

/// The processor stores these bytes from an address on.
pub fn poke(subsystem: &mut Subsystem, at: u32, bytes: &[u8]) -> i32
    ensures { Own result (λ old new. TellsKept (Bytes at bytes.now) result old new) subsystem.old subsystem.new }
{
    let Some(storage) = &mut subsystem.storage else {
        return NO_STORAGE;
    };
    of_kept(storage.put(at, bytes))
}

/// Copies the bytes of storage from an address on.
pub fn peek(subsystem: &Subsystem, at: u32, into: &mut [u8]) -> i32
    ensures { Own result (λ old new. (new ≡ old) × Peeks old.storage at result into.old into.new) subsystem.now subsystem.now }
{
    match &subsystem.storage {
        Some(storage) => copied(storage, at, into),
        None => NO_STORAGE,
    }
}

fn copied(storage: &Storage, at: u32, into: &mut [u8]) -> i32
    ensures { Peeks storage.now at result into.old into.new }
{
    if into.len() > 0xFFFF_FFFF {
        return OUTSIDE_STORAGE;
    }
    match storage.slice(at, into.len() as u32) {
        Some(bytes) => {
            into.copy_from_slice(bytes);
            DONE
        }
        None => OUTSIDE_STORAGE,
    }
}

/// The processor sets the storage key, below 16, of the block that has this address.
pub fn set_key(subsystem: &mut Subsystem, at: u32, key: u8) -> i32
    ensures { Own result (λ old new. SetsKey at key result old new) subsystem.old subsystem.new }
{
    let Some(storage) = &mut subsystem.storage else {
        return NO_STORAGE;
    };
    if key > 15 {
        return BAD_KEY;
    }
    of_kept(storage.set_key(at, key))
}

/// The storage key, 0 to 15, of the block that has this address.
pub fn key(subsystem: &Subsystem, at: u32) -> i32
    ensures { Own result (λ old new. (new ≡ old) × (result ≡ key_code old.storage at)) subsystem.now subsystem.now }
{
    match &subsystem.storage {
        Some(storage) => key_of(storage, at),
        None => NO_STORAGE,
    }
}

fn key_of(storage: &Storage, at: u32) -> i32
    ensures { result ≡ key_code storage.now at }
{
    match storage.key(at) {
        Some(key) => key as i32,
        None => OUTSIDE_STORAGE,
    }
}

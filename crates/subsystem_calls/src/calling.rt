//! A call of C, made over main storage: that of the subsystem, or the caller's.

ghost use Rattle.std.specs.Prelude.{◌≡◌, ℕ, ℤ, IfSome, None, length};
ghost use Rattle.s360_storage.specs.Kept.{KeepsStorage};
ghost use Rattle.s360_storage.specs.Lent.{IsStorage, lent};
ghost use Rattle.s360_channels.specs.Channels.{ChannelsState};
ghost use Rattle.s360_channels.specs.Selectors.{across};
ghost use Rattle.subsystem_calls.specs.Calls.{OverLent, Own, RefusesMemory};

use crate::tell::{BAD_BLOCKS, BAD_SIZE, NO_STORAGE, OTHER_SIZE};
use dasd_files::VolumeFile;
use dasd_subsystem::Subsystem;
use s360_channels::Selectors;
use s360_storage::{Lent, LentFault, MainStorage};

/// A call that wants main storage: what C gives it, and what it tells C beside its number.
pub trait Call {
    /// What it does, by the call before it, the number that C is told, and the call behind it, to channels over their storage.
    ghost does: { Self → ℤ → Self → ChannelsState → ChannelsState → Type 0 };

    /// The number with which it tells C more, in a place that it was lent for that.
    ghost tells: { ℤ };

    /// The type of what C is told in that place.
    ghost Told: { Type 0 };

    /// What stands in that place.
    ghost told: { Self → Told };

    /// Which place that is: it stays the same.
    ghost out: { Self → ℕ };

    /// Does it over main storage of the channels' size, and answers the number that C is told.
    fn over<M: MainStorage>(&mut self, channels: &mut Selectors<VolumeFile>, storage: &mut M) -> i32
        requires size { length (M.holds storage.old).bytes ≡ channels.old.size }
        ensures does { does self.old result self.new (across channels.old (M.holds storage.old)) (across channels.new (M.holds storage.new)) }
        ensures untold { (result ≡ tells → ⊥) → told self.new ≡ told self.old }
        ensures out { out self.new ≡ out self.old }
        ensures same { channels.new.size ≡ channels.old.size }
        ensures keeps { KeepsStorage (M.holds storage.old) (M.holds storage.new) }
        ensures place { M.place storage.new ≡ M.place storage.old };
}

/// Makes a call over the main storage that a subsystem owns.
#[inline(always)]
pub fn over_own<C: Call>(subsystem: &mut Subsystem, call: &mut C) -> i32
    ensures does { Own result (λ old new. C.does call.old result call.new old new) subsystem.old subsystem.new }
    ensures untold { (result ≡ C.tells → ⊥) → C.told call.new ≡ C.told call.old }
    ensures out { C.out call.new ≡ C.out call.old }
{
    let Some(storage) = &mut subsystem.storage else {
        return NO_STORAGE;
    };
    call.over(&mut subsystem.channels, storage)
}

/// Makes a call over main storage that it is lent: an emulator's own memory, by its bytes and the key of each block of 2,048 of them.
#[inline(always)]
pub fn over_lent<C: Call>(
    subsystem: &mut Subsystem,
    bytes: &mut [u8],
    keys: &[u8],
    call: &mut C,
) -> i32
    ensures does { OverLent result (λ old new. C.does call.old result call.new old new) (lent bytes.old keys.now) (lent bytes.new keys.now)
        subsystem.old subsystem.new }
    ensures untold { (result ≡ C.tells → ⊥) → C.told call.new ≡ C.told call.old }
    ensures out { C.out call.new ≡ C.out call.old }
{
    if let Some(code) = refused(subsystem.channels.size(), bytes, keys) {
        return code;
    }
    let mut storage = Lent::new(bytes, keys);
    call.over(&mut subsystem.channels, &mut storage)
}

// Why bytes and keys are not taken as main storage of channels that are for this size.
fn refused(size: u32, bytes: &[u8], keys: &[u8]) -> Option<i32>
    ensures taken { result ≡ None → IsStorage (lent bytes.now keys.now) }
    ensures as_large { result ≡ None → length bytes.now ≡ size }
    ensures refused { IfSome result (λ code. RefusesMemory size (lent bytes.now keys.now) code) }
{
    match Lent::check(bytes, keys) {
        Err(LentFault::BadSize) => return Some(BAD_SIZE),
        Err(LentFault::BadKeys) => return Some(BAD_BLOCKS),
        Ok(()) => {}
    }
    if bytes.len() != size as usize {
        return Some(OTHER_SIZE);
    }
    None
}

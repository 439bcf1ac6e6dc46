//! What happens beside the processor's instructions.

ghost use Rattle.std.specs.Prelude.{◌≡◌, ◌/◌, ℕ, false, length, pos};
ghost use Rattle.s360_words.specs.Storage.{Storage as StorageState};
ghost use Rattle.s360_storage.specs.Kept.{KeepsStorage};
ghost use Rattle.s360_storage.specs.Lent.{lent};
ghost use Rattle.s360_laws.specs.Events as machine;
ghost use Rattle.s360_channels.specs.Channels.{OnChannel};
ghost use Rattle.s360_channels.specs.Selectors.{across};
ghost use Rattle.subsystem_calls.specs.Calls.{Tells, TellsFirst, TellsPending};
ghost use Rattle.subsystem_calls.specs.Codes.{code_of, no_channel};
ghost use Rattle.dasd_c.specs.declared.turns.Ran.{Ran};
ghost use Rattle.dasd_c.specs.Calls.{Calls, CallsAny, CallsLent, ResetsFor, RunsFor, StepsFor};
ghost use Rattle.dasd_c.specs.Shown.{ran_shown, track_shown};

use crate::calling::{Memory, with_lent, with_own};
use crate::handle::{Handle, put, take};
use dasd_files::VolumeFile;
use dasd_subsystem::seen;
use s360_channel::RunOn;
use s360_channels::Selectors;
use s360_storage::MainStorage;
use std::alloc::Global;
use subsystem_calls::tell::{DONE, NO_CHANNEL, NOTHING_HELD};
use subsystem_calls::{Call, Interrupt, arrive, is_pending};

/// What came of a run: how many units were done, and the subchannel behind them.
#[repr(C)]
#[derive(Clone, Copy)]
pub struct Ran {
    pub units: u32,
    pub subchannel: u8,
    pub device: u8,
    pub asked: u8,
    pub reserved: u8,
}

/// Lets the program that runs on a channel do units until it ends, but so many at most, and says how many it did and what the channel
/// does behind them.
#[unsafe(no_mangle)]
pub extern "C" fn dasd_run_on(
    handle: &mut Handle,
    alloc: Global,
    channel: u8,
    units: u32,
    ran: &mut Ran,
) -> i32
    ensures does { Calls handle.old.slot.held handle.new.slot.held result (λ old new. OnChannel channel (RunsFor units result ran.new)
        ((result ≡ no_channel) × (ran.new ≡ ran.old)) old new) }
    ensures untold { (result ≡ pos 0 → ⊥) → ran.new ≡ ran.old }
{
    with_own(
        handle,
        alloc,
        &mut Units {
            channel,
            units,
            ran,
        },
    )
}

/// The same over this memory. `ran` says before how many units are done at most.
#[unsafe(no_mangle)]
pub extern "C" fn dasd_lent_run_on(
    handle: &mut Handle,
    alloc: Global,
    memory: &mut Memory<'_, '_>,
    channel: u8,
    ran: &mut Ran,
) -> i32
    ensures does { CallsLent handle.old.slot.held handle.new.slot.held result
        (λ old new. OnChannel channel (RunsFor ran.old.units result ran.new) ((result ≡ no_channel) × (ran.new ≡ ran.old)) old new)
        (lent memory.old.bytes.now memory.old.keys.now) (lent memory.new.bytes.now memory.new.keys.now) }
    ensures untold { (result ≡ pos 0 → ⊥) → ran.new ≡ ran.old }
    ensures same { memory.new.bytes.ghost_name ≡ memory.old.bytes.ghost_name }
{
    let units = ran.units;
    with_lent(
        handle,
        alloc,
        memory,
        &mut Units {
            channel,
            units,
            ran,
        },
    )
}

/// Lets the program that runs on a channel do units until it ends, but so many at most, and says how many it did.
#[unsafe(no_mangle)]
pub extern "C" fn dasd_step(
    handle: &mut Handle,
    alloc: Global,
    channel: u8,
    units: u32,
    done: &mut u32,
) -> i32
    ensures does { Calls handle.old.slot.held handle.new.slot.held result (λ old new. OnChannel channel (StepsFor units result done.new)
        ((result ≡ no_channel) × (done.new ≡ done.old)) old new) }
    ensures untold { (result ≡ pos 0 → ⊥) → done.new ≡ done.old }
{
    with_own(
        handle,
        alloc,
        &mut Step {
            channel,
            units,
            done,
        },
    )
}

/// The same over this memory. `units` says before how many are done at most, and behind it how many were.
#[unsafe(no_mangle)]
pub extern "C" fn dasd_lent_step(
    handle: &mut Handle,
    alloc: Global,
    memory: &mut Memory<'_, '_>,
    channel: u8,
    units: &mut u32,
) -> i32
    ensures does { CallsLent handle.old.slot.held handle.new.slot.held result
        (λ old new. OnChannel channel (StepsFor units.old result units.new) ((result ≡ no_channel) × (units.new ≡ units.old)) old new)
        (lent memory.old.bytes.now memory.old.keys.now) (lent memory.new.bytes.now memory.new.keys.now) }
    ensures untold { (result ≡ pos 0 → ⊥) → units.new ≡ units.old }
    ensures same { memory.new.bytes.ghost_name ≡ memory.old.bytes.ghost_name }
{
    let most = *units;
    with_lent(
        handle,
        alloc,
        memory,
        &mut Step {
            channel,
            units: most,
            done: units,
        },
    )
}

#[derive(Drop)]
struct Units<'a> {
    channel: u8,
    units: u32,
    ran: &'a mut Ran,
}

impl<'a> Call for Units<'a> {
    ghost does = { λ call code after old new. OnChannel call.channel (RunsFor call.units code after.ran.now)
        ((code ≡ no_channel) × (after.ran.now ≡ call.ran.now)) old new };

    ghost tells = { pos 0 };

    ghost Told = { Ran };

    ghost told = { λ call. call.ran.now };

    ghost out = { λ call. call.ran.ghost_name };

    #[inline(always)]
    fn over<M: MainStorage>(
        &mut self,
        channels: &mut Selectors<VolumeFile>,
        storage: &mut M,
    ) -> i32 {
        if channels.is_available(self.channel) {
            *self.ran = Ran {
                units: 0,
                subchannel: 0,
                device: 0,
                asked: 0,
                reserved: 0,
            };
            return DONE;
        }
        units_done(channels, storage, self.channel, self.units, self.ran)
    }
}

// The same, where the channel may be at work. It stands apart, so that a channel that is available takes no registers for it.
#[inline(never)]
fn units_done<M: MainStorage>(
    channels: &mut Selectors<VolumeFile>,
    storage: &mut M,
    channel: u8,
    units: u32,
    ran: &mut Ran,
) -> i32
    requires size { length (M.holds storage.old).bytes ≡ channels.old.size }
    ensures does { OnChannel channel (RunsFor units result ran.new) ((result ≡ no_channel) × (ran.new ≡ ran.old))
        (across channels.old (M.holds storage.old)) (across channels.new (M.holds storage.new)) }
    ensures untold { (result ≡ pos 0 → ⊥) → ran.new ≡ ran.old }
    ensures same { channels.new.size ≡ channels.old.size }
    ensures keeps { KeepsStorage (M.holds storage.old) (M.holds storage.new) }
    ensures place { M.place storage.new ≡ M.place storage.old }
{
    match channels.run_on(storage, channel, units) {
        Some(did) => {
            *ran = ran_of(did);
            DONE
        }
        None => NO_CHANNEL,
    }
}

// Units alone.
#[derive(Drop)]
struct Step<'a> {
    channel: u8,
    units: u32,
    done: &'a mut u32,
}

impl<'a> Call for Step<'a> {
    ghost does = { λ call code after old new. OnChannel call.channel (StepsFor call.units code after.done.now)
        ((code ≡ no_channel) × (after.done.now ≡ call.done.now)) old new };

    ghost tells = { pos 0 };

    ghost Told = { ℕ };

    ghost told = { λ call. call.done.now };

    ghost out = { λ call. call.done.ghost_name };

    fn over<M: MainStorage>(
        &mut self,
        channels: &mut Selectors<VolumeFile>,
        storage: &mut M,
    ) -> i32 {
        let mut ran = Ran {
            units: *self.done,
            subchannel: 0,
            device: 0,
            asked: 0,
            reserved: 0,
        };
        let code = units_done(channels, storage, self.channel, self.units, &mut ran);
        *self.done = ran.units;
        code
    }
}

fn ran_of(ran: RunOn) -> Ran
    ensures { result ≡ ran_shown ran }
{
    let (subchannel, device, asked) = seen(ran.subchannel);
    Ran {
        units: ran.units,
        subchannel,
        device,
        asked,
        reserved: 0,
    }
}

/// The arm of the drive at an address arrives: 1, if it moved, and else 0.
#[unsafe(no_mangle)]
pub extern "C" fn dasd_arrive(handle: &mut Handle, alloc: Global, address: u16) -> i32
    ensures { CallsAny handle.old.slot.held handle.new.slot.held result
        (λ old new. Tells (address / 256) (machine.Arrive address) (machine.HasArrived false) result old new) }
{
    let Some(mut subsystem) = take(handle, alloc) else {
        return NOTHING_HELD;
    };
    let code = arrive(&mut subsystem.channels, address);
    put(handle, subsystem);
    code
}

/// Whether an interruption would be taken from one of these channels now: 1 or 0.
#[unsafe(no_mangle)]
pub extern "C" fn dasd_is_pending(handle: &mut Handle, alloc: Global, channels: u8) -> i32
    ensures { CallsAny handle.old.slot.held handle.new.slot.held result (λ old new. (new ≡ old) × TellsPending channels result old) }
{
    let Some(mut subsystem) = take(handle, alloc) else {
        return NOTHING_HELD;
    };
    let code = is_pending(&mut subsystem.channels, channels);
    put(handle, subsystem);
    code
}

/// The processor takes an interruption from the first channel by number that is in this set and has one: 1, with the address that
/// interrupts, and else 0.
#[unsafe(no_mangle)]
pub extern "C" fn dasd_interrupt(
    handle: &mut Handle,
    alloc: Global,
    channels: u8,
    address: &mut u16,
) -> i32
    ensures does { Calls handle.old.slot.held handle.new.slot.held result (λ old new. TellsFirst channels result address.old address.new old new) }
    ensures untold { (result ≡ pos 1 → ⊥) → address.new ≡ address.old }
{
    with_own(handle, alloc, &mut Interrupt { channels, address })
}

/// The same over this memory.
#[unsafe(no_mangle)]
pub extern "C" fn dasd_lent_interrupt(
    handle: &mut Handle,
    alloc: Global,
    memory: &mut Memory<'_, '_>,
    channels: u8,
    address: &mut u16,
) -> i32
    ensures does { CallsLent handle.old.slot.held handle.new.slot.held result (λ old new. TellsFirst channels result address.old address.new old new)
        (lent memory.old.bytes.now memory.old.keys.now) (lent memory.new.bytes.now memory.new.keys.now) }
    ensures untold { (result ≡ pos 1 → ⊥) → address.new ≡ address.old }
    ensures same { memory.new.bytes.ghost_name ≡ memory.old.bytes.ghost_name }
{
    with_lent(handle, alloc, memory, &mut Interrupt { channels, address })
}

/// Address, cylinder and head of a track that was written and could not be saved.
#[repr(C)]
#[derive(Clone, Copy)]
pub struct Track {
    pub address: u16,
    pub cylinder: u16,
    pub head: u16,
}

/// Resets a channel and its drives: 1, where a track could not be saved, and else 0.
#[unsafe(no_mangle)]
pub extern "C" fn dasd_reset(
    handle: &mut Handle,
    alloc: Global,
    channel: u8,
    unsaved: &mut Track,
) -> i32
    ensures { CallsAny handle.old.slot.held handle.new.slot.held result
        (λ old new. OnChannel channel (ResetsFor result unsaved.old unsaved.new) ((result ≡ no_channel) × (unsaved.new ≡ unsaved.old)) old new) }
{
    let Some(mut subsystem) = take(handle, alloc) else {
        return NOTHING_HELD;
    };
    let code = reset(&mut subsystem.channels, channel, unsaved);
    put(handle, subsystem);
    code
}

fn reset(channels: &mut Selectors<VolumeFile>, channel: u8, unsaved: &mut Track) -> i32
    ensures does { (s : StorageState) → OnChannel channel (ResetsFor result unsaved.old unsaved.new)
        ((result ≡ no_channel) × (unsaved.new ≡ unsaved.old)) (across channels.old s) (across channels.new s) }
    ensures same { channels.new.size ≡ channels.old.size }
{
    match channels.reset(channel) {
        Some(reset) => of_unsaved(reset.unsaved, unsaved),
        None => NO_CHANNEL,
    }
}

fn of_unsaved(track: Option<(u16, u16, u16)>, unsaved: &mut Track) -> i32
    ensures told { result ≡ code_of (machine.WasReset track) }
    ensures named { unsaved.new ≡ track_shown track unsaved.old }
{
    match track {
        Some((address, cylinder, head)) => {
            *unsaved = Track {
                address,
                cylinder,
                head,
            };
            1
        }
        None => 0,
    }
}

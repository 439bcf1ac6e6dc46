//! What happens beside the processor's instructions: arms arrive, and interruptions are taken.

ghost use Rattle.std.specs.Prelude.{◌≡◌, ◌/◌, ℕ, false, length, pos};
ghost use Rattle.s360_words.specs.Storage.{Storage as StorageState};
ghost use Rattle.s360_storage.specs.Kept.{KeepsStorage};
ghost use Rattle.s360_laws.specs.Events as machine;
ghost use Rattle.s360_channels.specs.Selectors.{across};
ghost use Rattle.subsystem_calls.specs.Calls.{Tells, TellsFirst, TellsPending, TellsTaken};

use crate::calling::Call;
use crate::tell::{of_answer, of_arrival, of_interruption};
use dasd_files::VolumeFile;
use s360_channels::Selectors;
use s360_storage::MainStorage;

/// The arm of the drive at an address arrives: 1, if it moved, and else 0.
pub fn arrive(channels: &mut Selectors<VolumeFile>, address: u16) -> i32
    ensures does { (s : StorageState) → Tells (address / 256) (machine.Arrive address) (machine.HasArrived false) result (across channels.old s)
        (across channels.new s) }
    ensures same { channels.new.size ≡ channels.old.size }
{
    of_arrival(channels.arrive(address))
}

/// Whether an interruption would be taken from one of these channels now: 1 or 0. Asked again and again while nothing pends, it is to cost
/// little: so what was found is kept.
pub fn is_pending(held: &mut Selectors<VolumeFile>, channels: u8) -> i32
    ensures tells { (s : StorageState) → TellsPending channels result (across held.old s) }
    ensures stays { held.new ≡ held.old }
{
    of_answer(held.poll(channels).is_some())
}

/// The processor takes an interruption from the first channel by number that is in a set and has one: 1, and else 0.
#[derive(Drop)]
pub struct Interrupt<'a> {
    /// The set of the channels that are asked.
    pub channels: u8,
    /// Where the address that interrupts is put.
    pub address: &'a mut u16,
}

impl<'a> Call for Interrupt<'a> {
    ghost does = { λ call code after old new. TellsFirst call.channels code call.address.now after.address.now old new };

    ghost tells = { pos 1 };

    ghost Told = { ℕ };

    ghost told = { λ call. call.address.now };

    ghost out = { λ call. call.address.ghost_name };

    #[inline(always)]
    fn over<M: MainStorage>(
        &mut self,
        channels: &mut Selectors<VolumeFile>,
        storage: &mut M,
    ) -> i32 {
        // a poll with nothing pending ends here
        let Some(number) = channels.poll(self.channels) else {
            return 0;
        };
        taken_at(channels, storage, number, self.address)
    }
}

// An interruption of the channel with this number is taken. It stands apart, so that a poll takes no registers for it.
#[inline(never)]
fn taken_at<M: MainStorage>(
    held: &mut Selectors<VolumeFile>,
    storage: &mut M,
    number: u8,
    address: &mut u16,
) -> i32
    requires size { length (M.holds storage.old).bytes ≡ held.old.size }
    ensures does { TellsTaken number result address.old address.new (across held.old (M.holds storage.old)) (across held.new (M.holds storage.new)) }
    ensures untold { (result ≡ pos 1 → ⊥) → address.new ≡ address.old }
    ensures same { held.new.size ≡ held.old.size }
    ensures keeps { KeepsStorage (M.holds storage.old) (M.holds storage.new) }
    ensures place { M.place storage.new ≡ M.place storage.old }
{
    of_interruption(held.interrupt_at(storage, number), address)
}

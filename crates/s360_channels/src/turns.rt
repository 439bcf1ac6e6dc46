//! What happens beside the processor's instructions: units of the channels' programs, arms that arrive, resets; and what all channels
//! do in their turns.

ghost use Rattle.std.specs.Prelude.{◌≡◌, ◌/◌, ℕ, None, Some, false, length, true};
ghost use Rattle.s360_words.specs.Storage.{Storage as StorageState};
ghost use Rattle.s360_storage.specs.Kept.{KeepsStorage};
ghost use Rattle.s360_laws.specs.Events as machine;
ghost use Rattle.s360_channel.specs.declared.view.SubchannelView.TheVariants.{Idle};
ghost use Rattle.s360_channels.specs.Channels.{OnChannel, Quietly, ResetsTo, RunsTo};
ghost use Rattle.s360_channels.specs.Selectors.{across};
ghost use Rattle.s360_channels.specs.Turns.{EachFrom, StepsTo};

use crate::interrupting::still_quiet;
use crate::selectors::Selectors;
use ckd_image::ImageStore;
use s360_channel::{Reset, RunOn};
use s360_laws::Condition;
use s360_storage::MainStorage;

impl<S: ImageStore> Selectors<S> {
    /// Lets the program of the channel with this number do so many units, and answers how many it did: fewer where it ended, and 0
    /// where none runs; none where there is no such channel. A unit makes at most two calls of a store.
    pub fn step<M: MainStorage>(&mut self, storage: &mut M, number: u8, units: u16) -> Option<u16>
        requires size { length (M.holds storage.old).bytes ≡ self.old.size }
        ensures does { OnChannel number (StepsTo units result) (result ≡ None) (across self.old (M.holds storage.old))
            (across self.new (M.holds storage.new)) }
        ensures same { self.new.size ≡ self.old.size }
        ensures keeps { KeepsStorage (M.holds storage.old) (M.holds storage.new) }
        ensures place { M.place storage.new ≡ M.place storage.old }
    {
        self.are_over(storage);
        let place = self.place(number)?;
        let Some(selector) = &mut self.list[place] else {
            return None;
        };
        let done = selector.step(storage, units);
        self.quiet = still_quiet(self.quiet, selector);
        Some(done)
    }

    /// Lets the program of the channel with this number do units until it ends, so many at most; none where there is no such
    /// channel. A unit makes at most two calls of a store.
    #[inline(always)]
    pub fn run_on<M: MainStorage>(
        &mut self,
        storage: &mut M,
        number: u8,
        units: u32,
    ) -> Option<RunOn>
        requires size { length (M.holds storage.old).bytes ≡ self.old.size }
        ensures does { OnChannel number (RunsTo units result) (result ≡ None) (across self.old (M.holds storage.old))
            (across self.new (M.holds storage.new)) }
        ensures same { self.new.size ≡ self.old.size }
        ensures keeps { KeepsStorage (M.holds storage.old) (M.holds storage.new) }
        ensures place { M.place storage.new ≡ M.place storage.old }
    {
        self.are_over(storage);
        let place = self.place(number)?;
        let Some(selector) = &mut self.list[place] else {
            return None;
        };
        let ran = selector.run_on(storage, units);
        self.quiet = still_quiet(self.quiet, selector);
        Some(ran)
    }

    /// Whether there is a channel with this number, and it is available ('Test Channel'). Then `run_on` does no units, whatever the
    /// storage is, and nothing changes.
    pub fn is_available(&self, number: u8) -> bool
        ensures { result ≡ true → (s : StorageState) (units : ℕ) → OnChannel number (RunsTo units (Some (record {
          units = 0;
          subchannel = Idle;
        }))) ⊥ (across self.now s) (across self.now s) }
    {
        let Some(selector) = self.selector(number) else {
            return false;
        };
        match selector.tch() {
            Condition::Zero => true,
            Condition::Stored(_) | Condition::Two | Condition::Three => false,
        }
    }

    /// The arm of the drive at an input/output address arrives, if it moves. It makes no call of a store.
    pub fn arrive(&mut self, address: u16) -> bool
        ensures does { (s : StorageState) → OnChannel (address / 256) (Quietly (machine.Arrive address) (machine.HasArrived result))
            (result ≡ false) (across self.old s) (across self.new s) }
        ensures same { self.new.size ≡ self.old.size }
    {
        let Some(place) = self.place((address / 256) as u8) else {
            return false;
        };
        let Some(selector) = &mut self.list[place] else {
            return false;
        };
        self.quiet = false;
        selector.arrive(address)
    }

    /// Resets the channel with this number and its drives; none where there is no such channel. It makes at most one call of a
    /// store.
    pub fn reset(&mut self, number: u8) -> Option<Reset>
        ensures does { (s : StorageState) → OnChannel number (ResetsTo result) (result ≡ None) (across self.old s) (across self.new s) }
        ensures same { self.new.size ≡ self.old.size }
    {
        let place = self.place(number)?;
        let Some(selector) = &mut self.list[place] else {
            return None;
        };
        self.quiet = false;
        Some(selector.reset())
    }

    /// Lets each channel's program do so many units, in order of the channels' numbers, and answers by number as `step` does:
    /// the clock of an emulator. To a channel's program what those before it stored in this call is there already.
    pub fn step_all<M: MainStorage>(&mut self, storage: &mut M, units: u16) -> [Option<u16>; 7]
        requires size { length (M.holds storage.old).bytes ≡ self.old.size }
        ensures does { EachFrom 0 (StepsTo units) result (across self.old (M.holds storage.old)) (across self.new (M.holds storage.new)) }
        ensures same { self.new.size ≡ self.old.size }
        ensures keeps { KeepsStorage (M.holds storage.old) (M.holds storage.new) }
        ensures place { M.place storage.new ≡ M.place storage.old }
    {
        [
            self.step(storage, 0, units),
            self.step(storage, 1, units),
            self.step(storage, 2, units),
            self.step(storage, 3, units),
            self.step(storage, 4, units),
            self.step(storage, 5, units),
            self.step(storage, 6, units),
        ]
    }

    /// Resets each channel with its drives, in order of the channels' numbers, and answers by number as `reset` does: a system
    /// reset ('System Reset').
    pub fn reset_all(&mut self) -> [Option<Reset>; 7]
        ensures does { (s : StorageState) → EachFrom 0 ResetsTo result (across self.old s) (across self.new s) }
        ensures same { self.new.size ≡ self.old.size }
    {
        [
            self.reset(0),
            self.reset(1),
            self.reset(2),
            self.reset(3),
            self.reset(4),
            self.reset(5),
            self.reset(6),
        ]
    }
}

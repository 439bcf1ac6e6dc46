//! Interruptions of a channel, and of any under the system mask of the program status word.

ghost use Rattle.std.specs.Prelude.{◌≡◌, None, length, true};
ghost use Rattle.s360_words.specs.Storage.{Storage as StorageState};
ghost use Rattle.s360_storage.specs.Kept.{KeepsStorage};
ghost use Rattle.s360_laws.specs.Events as machine;
ghost use Rattle.s360_channels.specs.Channels.{OnChannel, Quietly, numbered};
ghost use Rattle.s360_channels.specs.Inside.{NonePends, PendsAt, PendsNot};
ghost use Rattle.s360_channels.specs.Interrupting.{FirstPending, IsPending, TakesFirst, is_open};
ghost use Rattle.s360_channels.specs.Selectors.{across};

use crate::selectors::Selectors;
use ckd_image::ImageStore;
use s360_channel::Selector;
use s360_storage::MainStorage;
use s360_words::Csw;

impl<S: ImageStore> Selectors<S> {
    /// The processor takes an interruption of the channel with this number, if it has one: its channel status word is stored. It
    /// makes no call of a store ('Input/Output Interruptions').
    pub fn interrupt_at<M: MainStorage>(
        &mut self,
        storage: &mut M,
        number: u8,
    ) -> Option<(u16, Csw)>
        requires size { length (M.holds storage.old).bytes ≡ self.old.size }
        ensures does { OnChannel number (Quietly machine.Interrupt (machine.Interrupted result)) (result ≡ None) (across self.old (M.holds storage.old))
            (across self.new (M.holds storage.new)) }
        ensures same { self.new.size ≡ self.old.size }
        ensures keeps { KeepsStorage (M.holds storage.old) (M.holds storage.new) }
        ensures place { M.place storage.new ≡ M.place storage.old }
    {
        self.are_over(storage);
        let place = self.place(number)?;
        let Some(selector) = &mut self.list[place] else {
            return None;
        };
        self.quiet = false;
        selector.interrupt(storage)
    }

    /// Whether `interrupt_at` would give an interruption of the channel with this number now; false where there is none.
    pub fn is_pending_at(&self, number: u8) -> bool
        ensures { PendsAt result (numbered number self.now.channels) }
    {
        match self.selector(number) {
            Some(selector) => selector.is_pending(),
            None => false,
        }
    }

    /// The processor takes the first interruption that pends: that of the channel with the lowest number for which the system
    /// mask is open and which has one. The address that interrupts, and the channel status word that is stored. Bits 0 to 6 of
    /// the mask, from the left, are those of channels 0 to 6, as in the program status word: 80 is channel 0, 02 channel 6. It
    /// makes no call of a store ('Input/Output Interruptions').
    pub fn interrupt<M: MainStorage>(&mut self, storage: &mut M, mask: u8) -> Option<(u16, Csw)>
        requires size { length (M.holds storage.old).bytes ≡ self.old.size }
        ensures does { TakesFirst mask result (across self.old (M.holds storage.old)) (across self.new (M.holds storage.new)) }
        ensures same { self.new.size ≡ self.old.size }
        ensures keeps { KeepsStorage (M.holds storage.old) (M.holds storage.new) }
        ensures place { M.place storage.new ≡ M.place storage.old }
    {
        let number = self.poll(mask)?;
        self.interrupt_at(storage, number)
    }

    /// The same as `first_pending`, for a processor that asks again and again: where it finds that no interruption pends at any
    /// channel, that is known until the next call at a channel, and asking takes no look at the channels. Nothing changes.
    pub fn poll(&mut self, mask: u8) -> Option<u8>
        ensures first { (s : StorageState) → FirstPending mask (across self.old s) result }
        ensures stays { self.new ≡ self.old }
    {
        if self.quiet {
            return None;
        }
        self.look(mask)
    }

    // The same, where each channel is to be asked. It stands apart, so that a poll takes no registers for it.
    #[inline(never)]
    fn look(&mut self, mask: u8) -> Option<u8>
        ensures first { (s : StorageState) → FirstPending mask (across self.old s) result }
        ensures stays { self.new ≡ self.old }
    {
        let number = self.first_pending(mask);
        if number.is_none() {
            self.quiet = self.none_pends();
        }
        number
    }

    // Whether no interruption pends at any channel.
    fn none_pends(&self) -> bool
        ensures { result ≡ true → NonePends self.now.channels }
    {
        for number in 0..7 {
            if self.is_pending_at(number) {
                return false;
            }
        }
        true
    }

    /// Whether `interrupt` would take an interruption under this mask now.
    pub fn is_pending(&self, mask: u8) -> bool
        ensures { (s : StorageState) → IsPending mask (across self.now s) result }
    {
        self.first_pending(mask).is_some()
    }

    /// The number of the channel whose interruption `interrupt` would take under this mask now, if there is one.
    pub fn first_pending(&self, mask: u8) -> Option<u8>
        ensures { (s : StorageState) → FirstPending mask (across self.now s) result }
    {
        if self.quiet {
            return None;
        }
        for number in 0..7 {
            if is_open(mask, number) && self.is_pending_at(number) {
                return Some(number);
            }
        }
        None
    }
}

/// Whether it is still known that no interruption pends at any channel, where this one alone has changed.
pub(crate) fn still_quiet<S: ImageStore>(quiet: bool, selector: &Selector<S>) -> bool
    ensures before { result ≡ true → quiet ≡ true }
    ensures here { result ≡ true → PendsNot selector.now }
{
    if !quiet {
        return false;
    }
    !selector.is_pending()
}

/// Whether a system mask is open for the channel with a number: bits 0 to 6, from the left, are those of channels 0 to 6.
pub fn is_open(mask: u8, number: u8) -> bool
    ensures { result ≡ is_open mask number }
{
    match number {
        0 => mask / 128 % 2 == 1,
        1 => mask / 64 % 2 == 1,
        2 => mask / 32 % 2 == 1,
        3 => mask / 16 % 2 == 1,
        4 => mask / 8 % 2 == 1,
        5 => mask / 4 % 2 == 1,
        6 => mask / 2 % 2 == 1,
        _ => false,
    }
}

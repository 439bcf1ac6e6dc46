//! The processor's instructions for an address of any of several channels, over the storage that these are lent.

ghost use Rattle.std.specs.Prelude.{◌≡◌, ◌/◌, false, length};
ghost use Rattle.s360_words.specs.Storage.{Storage as StorageState};
ghost use Rattle.s360_storage.specs.Kept.{KeepsStorage};
ghost use Rattle.s360_laws.specs.Events as machine;
ghost use Rattle.s360_laws.specs.Seen.{answer_seen};
ghost use Rattle.s360_laws.specs.declared.answers.Answer.TheVariants as answer;
ghost use Rattle.s360_laws.specs.declared.status.Condition.TheVariants.{Three};
ghost use Rattle.s360_channels.specs.Asked.{TestsAt, is_attached};
ghost use Rattle.s360_channels.specs.Channels.{OnChannel, Quietly, AtMost, channel_at};
ghost use Rattle.s360_channels.specs.Selectors.{across};

use crate::interrupting::still_quiet;
use crate::selectors::Selectors;
use ckd_image::ImageStore;
use s360_laws::{Condition, Status};
use s360_storage::MainStorage;
use s360_words::Csw;

impl<S: ImageStore> Selectors<S> {
    /// Start I/O at an input/output address, at the channel of its high byte; 3 where there is none. It makes no call of a store
    /// ('Start I/O').
    pub fn sio<M: MainStorage>(&mut self, storage: &mut M, address: u16) -> Condition<Status>
        requires size { length (M.holds storage.old).bytes ≡ self.old.size }
        ensures does { OnChannel (address / 256) (Quietly (machine.Sio address) (answer_seen (answer.Sio address result)))
            (result ≡ Three) (across self.old (M.holds storage.old))
            (across self.new (M.holds storage.new)) }
        ensures missing { result ≡ Three → is_attached address (across self.old (M.holds storage.old)) ≡ false }
        ensures same { self.new.size ≡ self.old.size }
        ensures keeps { KeepsStorage (M.holds storage.old) (M.holds storage.new) }
        ensures place { M.place storage.new ≡ M.place storage.old }
    {
        self.are_over(storage);
        let Some(place) = self.place((address / 256) as u8) else {
            return Condition::Three;
        };
        let Some(selector) = &mut self.list[place] else {
            return Condition::Three;
        };
        let condition = selector.sio(storage, address);
        self.quiet = still_quiet(self.quiet, selector);
        condition
    }

    /// Test I/O at an input/output address, at the channel of its high byte; 3 where there is none. It makes no call of a store
    /// ('Test I/O').
    pub fn tio<M: MainStorage>(&mut self, storage: &mut M, address: u16) -> Condition<Csw>
        requires size { length (M.holds storage.old).bytes ≡ self.old.size }
        ensures does { OnChannel (address / 256) (Quietly (machine.Tio address) (answer_seen (answer.Tio address result)))
            (result ≡ Three) (across self.old (M.holds storage.old))
            (across self.new (M.holds storage.new)) }
        ensures missing { result ≡ Three → is_attached address (across self.old (M.holds storage.old)) ≡ false }
        ensures same { self.new.size ≡ self.old.size }
        ensures keeps { KeepsStorage (M.holds storage.old) (M.holds storage.new) }
        ensures place { M.place storage.new ≡ M.place storage.old }
    {
        self.are_over(storage);
        let Some(place) = self.place((address / 256) as u8) else {
            return Condition::Three;
        };
        let Some(selector) = &mut self.list[place] else {
            return Condition::Three;
        };
        self.quiet = false;
        selector.tio(storage, address)
    }

    /// Halt I/O at an input/output address, at the channel of its high byte; 3 where there is none. It makes at most one call of
    /// a store ('Halt I/O').
    pub fn hio<M: MainStorage>(&mut self, storage: &mut M, address: u16) -> Condition<Status>
        requires size { length (M.holds storage.old).bytes ≡ self.old.size }
        ensures does { OnChannel (address / 256) (AtMost 1 (machine.Hio address) (answer_seen (answer.Hio address result)))
            (result ≡ Three) (across self.old (M.holds storage.old))
            (across self.new (M.holds storage.new)) }
        ensures missing { result ≡ Three → is_attached address (across self.old (M.holds storage.old)) ≡ false }
        ensures same { self.new.size ≡ self.old.size }
        ensures keeps { KeepsStorage (M.holds storage.old) (M.holds storage.new) }
        ensures place { M.place storage.new ≡ M.place storage.old }
    {
        self.are_over(storage);
        let Some(place) = self.place((address / 256) as u8) else {
            return Condition::Three;
        };
        let Some(selector) = &mut self.list[place] else {
            return Condition::Three;
        };
        self.quiet = false;
        selector.hio(storage, address)
    }

    /// Test Channel, at the channel of the high byte of an address; 3 where there is none ('Test Channel').
    pub fn tch(&self, address: u16) -> Condition<()>
        ensures { (s : StorageState) → TestsAt (answer_seen (answer.Tch result)) s (channel_at (address / 256) (across self.now s)) }
    {
        match self.selector((address / 256) as u8) {
            Some(selector) => selector.tch(),
            None => Condition::Three,
        }
    }
}

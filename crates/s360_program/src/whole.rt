//! A read whose bytes pass at once, and its end: as many as its word counts, or all that the drive has (Principles of Operation,
//! Input/Output Operations: 'Incorrect Length').

ghost use Rattle.std.specs.Prelude.{ℕ, ◌≡◌, ◌≤◌, ◌<◌, ◌-◌, ◌&&◌, not, false, take, length, List, IfSome, IfNone};
ghost use Rattle.s360_words.specs.Storage.{Storage as StorageState, stored};
ghost use Rattle.s360_words.specs.Words.{chains_data, skips, suppresses_length};
ghost use Rattle.ckd_drive.specs.Work.{GivesWhole};
ghost use Rattle.s360_program.specs.Advances.{CallsAtMost, NeedNoStore};
ghost use Rattle.s360_program.specs.Stands.{phase_in};
ghost use Rattle.s360_program.specs.Steps.{run_of, count_of, differs, Fits, IsStep, PassesWhole, Steps};

use crate::conditions::{ChannelCondition, chains};
use crate::endings::end_program;
use crate::moving::admits_all;
use crate::run::{Comes, Run, Step};
use crate::units::is_incorrect;
use ckd_drive::{Drive, WholeRead};
use ckd_image::ImageStore;
use s360_storage::MainStorage;

// The codes of Sense and of the commonest reads, and the bit beside them by which a read goes on at the next head.
const SENSE: u8 = 0x04;

const READ_DATA: u8 = 0x06;

const READ_COUNT_KEY_AND_DATA: u8 = 0x1E;

const MULTI_TRACK: u8 = 0x80;

impl Run {
    /// A read that looks for its area and whose bytes pass at once, and its end. None where they do not: where a further area follows,
    /// they are skipped, or too few units are asked for; where they are not at hand; or where one of them may not be stored. Nothing
    /// has changed then.
    #[inline(always)]
    pub(crate) fn pass_whole<S: ImageStore, M: MainStorage>(
        &mut self,
        most: u32,
        storage: &mut M,
        drive: &mut Drive<S>,
    ) -> Option<Step>
        requires fits { Fits self.old drive.old }
        requires stage { self.old.comes ≡ Comes.Look }
        ensures step { IfSome result (λ a. IsStep self.old (M.holds storage.old) drive.old most a self.new (M.holds storage.new) drive.new) }
        ensures none { IfNone result ((self.new ≡ self.old) × (M.holds storage.new ≡ M.holds storage.old) × (drive.new ≡ drive.old)) }
        ensures place { M.place storage.new ≡ M.place storage.old }
        ensures calls { CallsAtMost 1 drive.old drive.new }
    {
        let (ccw, count) = (self.ccw, self.place.residual);
        // asked first, since writes, searches and controls, whose codes are odd, would ask the rest for nothing
        if ccw.code % 2 != 0 || most <= u32::from(count) || ccw.chains_data() || ccw.skips() {
            return None;
        }
        // the commonest reads, with just as many bytes as their words count, by themselves
        if let Some((bytes, read)) = drive.whole_read() {
            if bytes.len() == usize::from(count)
                && admits_all(storage, ccw.address, count, self.key)
            {
                let _ = storage.store(ccw.address, bytes, self.key);
                return Some(self.finish(count, false, read, drive));
            }
        } else if ccw.code % MULTI_TRACK == SENSE
            || ccw.code % MULTI_TRACK == READ_DATA
            || ccw.code % MULTI_TRACK == READ_COUNT_KEY_AND_DATA
        {
            // of these the other call has no bytes either; their codes are at hand, and the drive is not asked for its command
            return None;
        }
        self.rarer_read(storage, drive)
    }

    // The same, of any read, and of any length; the step is handed on part by part, so that no room for it is cleared on the way of
    // the commonest reads.
    #[inline(always)]
    fn rarer_read<S: ImageStore, M: MainStorage>(
        &mut self,
        storage: &mut M,
        drive: &mut Drive<S>,
    ) -> Option<Step>
        requires fits { Fits self.old drive.old }
        requires stage { self.old.comes ≡ Comes.Look }
        requires unchained { chains_data self.old.ccw ≡ false }
        requires stores { skips self.old.ccw ≡ false }
        ensures step { (most : ℕ) → self.old.place.residual < most
            → IfSome result (λ a. IsStep self.old (M.holds storage.old) drive.old most a self.new (M.holds storage.new) drive.new) }
        ensures none { IfNone result ((self.new ≡ self.old) × (M.holds storage.new ≡ M.holds storage.old) × (drive.new ≡ drive.old)) }
        ensures place { M.place storage.new ≡ M.place storage.old }
        ensures calls { CallsAtMost 1 drive.old drive.new }
    {
        match self.other_read(storage, drive) {
            Some(Step::Units(n)) => Some(Step::Units(n)),
            Some(Step::Over(n)) => Some(Step::Over(n)),
            None => None,
        }
    }

    // As many bytes pass as the word counts, or as the drive has.
    #[inline(never)]
    fn other_read<S: ImageStore, M: MainStorage>(
        &mut self,
        storage: &mut M,
        drive: &mut Drive<S>,
    ) -> Option<Step>
        requires fits { Fits self.old drive.old }
        requires stage { self.old.comes ≡ Comes.Look }
        requires unchained { chains_data self.old.ccw ≡ false }
        requires stores { skips self.old.ccw ≡ false }
        ensures step { (most : ℕ) → self.old.place.residual < most
            → IfSome result (λ a. IsStep self.old (M.holds storage.old) drive.old most a self.new (M.holds storage.new) drive.new) }
        ensures none { IfNone result ((self.new ≡ self.old) × (M.holds storage.new ≡ M.holds storage.old) × (drive.new ≡ drive.old)) }
        ensures place { M.place storage.new ≡ M.place storage.old }
        ensures calls { CallsAtMost 1 drive.old drive.new }
    {
        let (given, read) = drive.read_at_once()?;
        let (ccw, count) = (self.ccw, self.place.residual);
        let n = if given.len() < usize::from(count) {
            given.len() as u16
        } else {
            count
        };
        if n == 0 || !admits_all(storage, ccw.address, n, self.key) {
            return None;
        }
        let incorrect = is_incorrect(ccw, count - n, given.len() - usize::from(n));
        let _ = storage.store(ccw.address, &given[..usize::from(n)], self.key);
        Some(self.finish(n, incorrect, read, drive))
    }

    // The end of a read so many of whose bytes were stored; whether its length is incorrect is known.
    #[inline(always)]
    fn finish<S: ImageStore>(
        &mut self,
        passed: u16,
        incorrect: bool,
        read: WholeRead,
        drive: &mut Drive<S>,
    ) -> Step
        requires fits { Fits self.old drive.old }
        requires stage { self.old.comes ≡ Comes.Look }
        requires few { passed ≤ self.old.place.residual }
        requires whole { (given : List ℕ) × GivesWhole drive.old given read }
        ensures steps { (most : ℕ) (s : StorageState) (given : List ℕ) → PassesWhole self.old most s drive.old given passed read
            → incorrect ≡ (not (suppresses_length self.old.ccw)
            && differs (self.old.place.residual - passed) (length given - passed))
            → Steps self.old.key (phase_in (run_of self.old) s drive.old) most result self.new
            (stored s self.old.ccw.address (take passed given)) drive.old drive.new }
        ensures calls { CallsAtMost 1 drive.old drive.new }
        ensures quiet { (s : StorageState) → NeedNoStore self.old.key (phase_in (run_of self.old) s drive.old)
            (count_of result) → drive.new.image ≡ drive.old.image }
    {
        let ccw = self.ccw;
        let ended = drive.end_whole(read);
        self.place.residual -= passed;
        let condition = ChannelCondition::of_length(incorrect, ended.unit);
        if !chains(ccw, ended.unit, condition) {
            end_program(self, ended, condition, drive);
            return Step::Over(u32::from(passed) + 1);
        }
        self.place.modify(ended.unit);
        self.comes = Comes::NextCommand;
        Step::Units(u32::from(passed) + 1)
    }
}

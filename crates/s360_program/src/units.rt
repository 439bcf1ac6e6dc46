//! A running channel program, unit by unit (Principles of Operation, Input/Output Operations).

ghost use Rattle.std.specs.Prelude.{ℕ, ◌≡◌, ◌⊎◌, ◌<◌, ◌≤◌, ◌+◌, ◌*◌, ◌^◌, ◌==◌, ◌&&◌, ◌||◌, [], not, true, false, None, is_some, IfSome, IfNone};
ghost use Rattle.s360_words.specs.Words.{chains_data, suppresses_length};
ghost use Rattle.ckd_command.specs.Drive.{is_written, unsaved};
ghost use Rattle.s360_laws.specs.Commands.{choice};
ghost use Rattle.s360_laws.specs.Endings.{ending};
ghost use Rattle.s360_laws.specs.Units.{unit, next_chosen, Between, EndsIn, standing_in};
ghost use Rattle.s360_laws.specs.Unsaved.{has_written};
ghost use Rattle.s360_words.specs.Storage.{Storage as StorageState};
ghost use Rattle.ckd_drive.specs.Work.{is_idle, may_end, closed_of, left_of, passed_of, CallsStore};
ghost use Rattle.s360_program.specs.Advances.{RunsOn, CallsAtMost, NeedNoStore, TellsOf};
ghost use Rattle.s360_storage.specs.Kept.{KeepsStorage};
ghost use Rattle.s360_program.specs.Stands.{phase_in, Within};
ghost use Rattle.s360_program.specs.Steps.{run_of, in_bytes, count_of, Fits, IsQuiet, ComesBy, EndsBy, IsStep, Steps, FindsArea, has_moved, goes_on, point_at};
ghost use Rattle.s360_program.specs.Steps.{request_at, status_of, condition_for, differs, needs_area, behind};

use crate::conditions::{ChannelCondition, chains};
use crate::endings::{end_program, told};
use crate::moving::{COUNT_AREA, StorageArea, flow_of, gives, move_bytes};
use crate::place::Fetched;
use crate::program::LongAdvance;
use crate::run::{Comes, Run, Step};
use ckd_command::DriveEnding;
use ckd_drive::{Begun, Drive, Look, Phase};
use ckd_image::ImageStore;
use s360_storage::MainStorage;
use s360_words::{Ccw, Csw};

impl Run {
    /// Does so many units, unless the program ends before.
    // By itself: within its one caller, where there is one, it would be compiled to a tenth more instructions.
    #[inline(never)]
    pub(crate) fn advance<S: ImageStore, M: MainStorage>(
        &mut self,
        units: u32,
        storage: &mut M,
        drive: &mut Drive<S>,
    ) -> LongAdvance
        requires { Fits self.old drive.old }
        ensures advances { RunsOn self.old.key (phase_in (run_of self.old) (M.holds storage.old) drive.old) units result
            (run_of self.new) (M.holds storage.new) drive.old drive.new }
        ensures most { result.done ≤ units }
        ensures within { goes_on result ≡ true → Within (run_of self.new) }
        ensures storage { KeepsStorage (M.holds storage.old) (M.holds storage.new) }
        ensures place { M.place storage.new ≡ M.place storage.old }
        ensures calls { CallsAtMost (2 * result.done) drive.old drive.new }
        ensures tells { TellsOf result.ending drive.old drive.new }
        ensures quiet { NeedNoStore self.old.key (phase_in (run_of self.old) (M.holds storage.old) drive.old) result.done
            → drive.new.image ≡ drive.old.image }
    {
        let mut left = units;
        while left > 0 {
            match self.step(left, storage, drive) {
                Step::Units(n) => left -= n,
                Step::Over(n) => {
                    return LongAdvance {
                        done: units - left + n,
                        ending: Some(told(self)),
                    };
                }
            }
        }
        LongAdvance {
            done: units - left,
            ending: None,
        }
    }

    /// Cuts the program: the open command is closed by the bytes that have passed, where any have.
    pub(crate) fn cut<S: ImageStore>(&mut self, drive: &mut Drive<S>) -> (Csw, bool)
        requires { Fits self.old drive.old }
        ensures cut { (s : StorageState) → EndsBy (λ f. EndsIn s
            ((standing_in self.old.key (phase_in (run_of self.old) s drive.old)).cut f)) result s drive.old drive.new }
        ensures calls { (s : StorageState) → CallsStore false (has_written (phase_in (run_of self.old) s drive.old))
            drive.old drive.new }
        ensures lost { (drive.new.image.failures ≡ drive.old.image.failures)
            ⊎ (is_some (unsaved drive.new.state) ≡ true) }
    {
        if !has_moved(drive) {
            end_program(self, DriveEnding::ENDED, ChannelCondition::Clear, drive);
            return told(self);
        }
        let ending = drive.end();
        end_program(self, ending, ChannelCondition::Clear, drive);
        told(self)
    }

    /// Does one unit, or more where bytes move together, and at most as many as are asked for.
    pub(crate) fn step<S: ImageStore, M: MainStorage>(
        &mut self,
        most: u32,
        storage: &mut M,
        drive: &mut Drive<S>,
    ) -> Step
        requires some { 0 < most }
        requires fits { Fits self.old drive.old }
        ensures step { IsStep self.old (M.holds storage.old) drive.old most result self.new (M.holds storage.new) drive.new }
        ensures place { M.place storage.new ≡ M.place storage.old }
        ensures calls { CallsAtMost 2 drive.old drive.new }
    {
        match self.comes {
            Comes::NextCommand => return self.next(most, storage, drive),
            Comes::Look => {
                if let Some(step) = self.look(most, storage, drive) {
                    return step;
                }
            }
            Comes::Bytes => {}
        }
        self.transfer(most, storage, drive)
    }

    // Whole rounds of a search that fails, if the next word is one that a transfer in channel leads back to; else the fetch of that word.
    #[inline(always)]
    fn next<S: ImageStore, M: MainStorage>(
        &mut self,
        most: u32,
        storage: &M,
        drive: &mut Drive<S>,
    ) -> Step
        requires some { 0 < most }
        requires fits { Fits self.old drive.old }
        requires stage { self.old.comes ≡ Comes.NextCommand }
        ensures step { IsStep self.old (M.holds storage.now) drive.old most result self.new (M.holds storage.now) drive.new }
        ensures calls { CallsAtMost 2 drive.old drive.new }
    {
        let n = self.pass_rounds(most, storage, drive);
        if n > 0 {
            return Step::Units(n);
        }
        self.next_command(storage, drive)
    }

    // The fetch of a word that begins a command.
    fn next_command<S: ImageStore, M: MainStorage>(
        &mut self,
        storage: &M,
        drive: &mut Drive<S>,
    ) -> Step
        requires fits { Fits self.old drive.old }
        requires idle { is_idle drive.old.work ≡ true }
        requires stage { self.old.comes ≡ Comes.NextCommand }
        ensures comes { ComesBy self.old.key (λ f. unit f self.old.key
            (Between (point_at (M.holds storage.now) self.old drive.old))) result self.new (M.holds storage.now) drive.old drive.new }
        ensures calls { CallsAtMost 2 drive.old drive.new }
        ensures quiet { IsQuiet drive.old → drive.new.image ≡ drive.old.image }
    {
        let ccw = match self.place.fetch(storage, true) {
            Fetched::NoCcw => {
                self.place.miss();
                end_program(
                    self,
                    DriveEnding::ENDED,
                    ChannelCondition::ProgramCheck,
                    drive,
                );
                return Step::Over(1);
            }
            Fetched::TransferTo(address) => {
                self.place.transfer(address);
                return Step::Units(1);
            }
            Fetched::GoodCcw(ccw) => ccw,
        };
        self.place.go_by(ccw);
        // kept before it is known to work, while its parts are at hand
        self.keep(ccw);
        match drive.begin(ccw.code) {
            Begun::Rejected => {
                end_program(self, DriveEnding::FAILED, ChannelCondition::Clear, drive);
                Step::Over(1)
            }
            Begun::Immediate => self.conclude(ccw, false, drive),
            Begun::Started => {
                self.comes = Comes::Look;
                Step::Units(1)
            }
        }
    }

    // The end of a command, and the choice of the next; whether its length is incorrect is known.
    #[inline(always)]
    fn conclude<S: ImageStore>(&mut self, ccw: Ccw, incorrect: bool, drive: &mut Drive<S>) -> Step
        requires key { self.old.key < 16 }
        requires next { self.old.place.next ≤ 2 ^ 24 }
        requires last { self.old.place.last ≤ 2 ^ 24 + 8 }
        requires may { may_end drive.old.work ≡ true }
        requires saved { unsaved drive.old.state ≡ None }
        ensures comes { (s : StorageState) → ComesBy self.old.key
            (λ f. next_chosen (choice f self.old.key (request_at s ccw self.old) (closed_of f drive.old drive.old.work)
            (status_of (condition_for incorrect (closed_of f drive.old drive.old.work).unit)))) result self.new s
            drive.old drive.new }
        ensures loads { drive.new.image.loads ≡ drive.old.image.loads }
        ensures calls { CallsAtMost 1 drive.old drive.new }
        ensures unwritten { is_written drive.old.state ≡ false
            → is_written (closed_of None drive.old drive.old.work).state ≡ false → drive.new.image ≡ drive.old.image }
    {
        let ending = drive.end();
        let condition = ChannelCondition::of_length(incorrect, ending.unit);
        if !chains(ccw, ending.unit, condition) {
            end_program(self, ending, condition, drive);
            return Step::Over(1);
        }
        self.place.modify(ending.unit);
        self.comes = Comes::NextCommand;
        Step::Units(1)
    }

    // A check closes the command by the bytes that passed, and ends the program. Out of the way of the units that go on.
    #[inline(never)]
    fn stop<S: ImageStore>(&mut self, condition: ChannelCondition, drive: &mut Drive<S>) -> Step
        requires may { may_end drive.old.work ≡ true }
        requires saved { unsaved drive.old.state ≡ None }
        ensures comes { (s : StorageState) → ComesBy self.old.key
            (λ f. EndsIn s (ending f self.old.key (run_of self.old).place (closed_of f drive.old drive.old.work)
            (status_of condition))) result self.new s drive.old drive.new }
        ensures loads { drive.new.image.loads ≡ drive.old.image.loads }
        ensures calls { CallsAtMost 1 drive.old drive.new }
        ensures quiet { IsQuiet drive.old → drive.new.image ≡ drive.old.image }
    {
        let ending = drive.end();
        end_program(self, ending, condition, drive);
        Step::Over(1)
    }

    // A look for the area of a command, and the step that it comes to; none where the area is found and its bytes come next.
    fn look<S: ImageStore, M: MainStorage>(
        &mut self,
        most: u32,
        storage: &mut M,
        drive: &mut Drive<S>,
    ) -> Option<Step>
        requires some { 0 < most }
        requires fits { Fits self.old drive.old }
        requires stage { self.old.comes ≡ Comes.Look }
        ensures step { IfSome result (λ a. IsStep self.old (M.holds storage.old) drive.old most a self.new (M.holds storage.new) drive.new) }
        ensures found { IfNone result (FindsArea self.old (M.holds storage.old) drive.old self.new (M.holds storage.new) drive.new) }
        ensures place { M.place storage.new ≡ M.place storage.old }
        ensures calls { CallsAtMost 2 drive.old drive.new }
    {
        if let Some(step) = self.pass_whole(most, storage, drive) {
            return Some(step);
        }
        match drive.look() {
            Look::Failed => {
                end_program(self, DriveEnding::FAILED, ChannelCondition::Clear, drive);
                Some(Step::Over(1))
            }
            Look::Passed => Some(Step::Units(1)),
            Look::Ready(left) => {
                let count = self.place.residual;
                if left == usize::from(count)
                    && most > u32::from(count)
                    && !self.ccw.chains_data()
                {
                    return Some(self.complete(storage, drive));
                }
                self.comes = Comes::Bytes;
                self.address = self.ccw.address;
                None
            }
        }
    }

    // All bytes of a command whose area was just found, and its end, of which nothing half done is kept where all of them pass.
    #[inline(always)]
    fn complete<S: ImageStore, M: MainStorage>(
        &mut self,
        storage: &mut M,
        drive: &mut Drive<S>,
    ) -> Step
        requires fits { Fits (in_bytes self.old) drive.old }
        requires some { 0 < self.old.place.residual }
        requires left { left_of drive.old.work ≡ self.old.place.residual }
        requires first { passed_of drive.old.work ≡ [] }
        requires unchained { chains_data self.old.ccw ≡ false }
        ensures steps { (most : ℕ) → self.old.place.residual < most
            → Steps self.old.key (phase_in (run_of (in_bytes self.old)) (M.holds storage.old) drive.old) most result self.new
            (M.holds storage.new) drive.old drive.new }
        ensures storage { KeepsStorage (M.holds storage.old) (M.holds storage.new) }
        ensures place { M.place storage.new ≡ M.place storage.old }
        ensures loads { drive.new.image.loads ≡ drive.old.image.loads }
        ensures calls { CallsAtMost 1 drive.old drive.new }
        ensures quiet { NeedNoStore self.old.key (phase_in (run_of (in_bytes self.old)) (M.holds storage.old) drive.old)
            (count_of result) → drive.new.image ≡ drive.old.image }
    {
        let gives = gives(drive);
        let (key, ccw, count) = (self.key, self.ccw, self.place.residual);
        let address = ccw.address;
        let segment = StorageArea {
            key,
            ccw,
            address,
            count,
        };
        match move_bytes(gives, &segment, storage, drive) {
            Ok(m) if is_all(m, count, gives) => {
                self.place.residual = 0;
                behind(count, self.conclude(ccw, false, drive))
            }
            Ok(m) => {
                self.comes = Comes::Bytes;
                self.place.residual -= m;
                self.address = address + u32::from(m);
                Step::Units(u32::from(m))
            }
            Err(condition) => self.stop(condition, drive),
        }
    }

    // Bytes of a command whose area is found: as many as may pass; or the next word has a further area; or the command ends.
    #[inline(always)]
    fn transfer<S: ImageStore, M: MainStorage>(
        &mut self,
        most: u32,
        storage: &mut M,
        drive: &mut Drive<S>,
    ) -> Step
        requires some { 0 < most }
        requires fits { Fits self.old drive.old }
        requires stage { self.old.comes ≡ Comes.Bytes }
        ensures step { IsStep self.old (M.holds storage.old) drive.old most result self.new (M.holds storage.new) drive.new }
        ensures place { M.place storage.new ≡ M.place storage.old }
        ensures loads { drive.new.image.loads ≡ drive.old.image.loads }
        ensures calls { CallsAtMost 1 drive.old drive.new }
    {
        let residual = self.place.residual;
        if residual == 0 && self.ccw.chains_data() {
            return self.next_area(storage, drive);
        }
        let flow = flow_of(drive);
        if residual == 0 || flow.left == 0 {
            let incorrect = is_incorrect(self.ccw, residual, flow.left);
            return self.conclude(self.ccw, incorrect, drive);
        }
        let segment = StorageArea {
            key: self.key,
            ccw: self.ccw,
            address: self.address,
            count: least(most, residual, flow.left),
        };
        match move_bytes(flow.gives, &segment, storage, drive) {
            Ok(m) => {
                self.place.residual -= m;
                self.address += u32::from(m);
                Step::Units(u32::from(m))
            }
            Err(condition) => self.stop(condition, drive),
        }
    }

    // The fetch of a word that has a further area of the command that works.
    #[inline(always)]
    fn next_area<S: ImageStore, M: MainStorage>(
        &mut self,
        storage: &M,
        drive: &mut Drive<S>,
    ) -> Step
        requires fits { Fits self.old drive.old }
        requires stage { self.old.comes ≡ Comes.Bytes }
        requires needs { needs_area (run_of self.old) ≡ true }
        ensures comes { ComesBy self.old.key (λ f. unit f self.old.key
            (phase_in (run_of self.old) (M.holds storage.now) drive.old)) result self.new (M.holds storage.now) drive.old drive.new }
        ensures loads { drive.new.image.loads ≡ drive.old.image.loads }
        ensures calls { CallsAtMost 1 drive.old drive.new }
        ensures quiet { IsQuiet drive.old → drive.new.image ≡ drive.old.image }
    {
        match self.place.fetch(storage, false) {
            Fetched::NoCcw => {
                self.place.miss();
                self.stop(ChannelCondition::ProgramCheck, drive)
            }
            Fetched::TransferTo(address) => {
                self.place.transfer(address);
                Step::Units(1)
            }
            Fetched::GoodCcw(ccw) => {
                self.place.go_by(ccw);
                self.keep(ccw);
                self.address = ccw.address;
                Step::Units(1)
            }
        }
    }
}

// A step of one unit, behind so many bytes, of which each was a unit.
#[inline(always)]
fn behind(passed: u16, step: Step) -> Step
    ensures { result ≡ behind passed step }
{
    match step {
        Step::Units(_) => Step::Units(u32::from(passed) + 1),
        Step::Over(_) => Step::Over(u32::from(passed) + 1),
    }
}

// Whether so many bytes are all that a word counts, and all that the drive has: a formatting write may want more behind its count area.
fn is_all(moved: u16, count: u16, gives: bool) -> bool
    ensures { result ≡ (moved == count && (gives || not (moved == 8))) }
{
    moved == count && (gives || moved != COUNT_AREA)
}

// Whether a byte of the open command has moved.
fn has_moved<S: ImageStore>(drive: &Drive<S>) -> bool
    ensures { result ≡ has_moved drive.now.work }
{
    match drive.phase() {
        Phase::Gives { passed, left: _ } | Phase::Takes { passed, left: _ } => passed > 0,
        Phase::Idle | Phase::Over | Phase::Looking => false,
    }
}

// Whether the count and the bytes that are left differ, and the word does not suppress telling it.
pub(crate) fn is_incorrect(ccw: Ccw, residual: u16, left: usize) -> bool
    ensures { result ≡ (not (suppresses_length ccw) && differs residual left) }
{
    !ccw.suppresses_length() && (residual == 0) != (left == 0)
}

// The least of three numbers.
fn least(most: u32, residual: u16, left: usize) -> u16
    requires some { (0 < most) × (0 < residual) × (0 < left) }
    ensures some { 0 < result }
    ensures most { result ≤ most }
    ensures residual { result ≤ residual }
    ensures left { result ≤ left }
{
    let few = if most < u32::from(residual) {
        most as u16
    } else {
        residual
    };
    if usize::from(few) > left {
        left as u16
    } else {
        few
    }
}

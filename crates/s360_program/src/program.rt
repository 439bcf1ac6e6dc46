//! A running channel program, as its callers see it.

ghost use Rattle.std.specs.Prelude.{◌≡◌, ◌*◌, ◌≤◌, true, false, Some, None, is_some};
ghost use Rattle.s360_words.specs.Storage.{Storage as StorageState};
ghost use Rattle.ckd_command.specs.Drive.{drive_of, is_written};
ghost use Rattle.ckd_drive.specs.Work.{DriveState, CallsStore};
ghost use Rattle.s360_laws.specs.Scripts.{TakesInterruption};
ghost use Rattle.s360_laws.specs.Units.{standing_in, phase_past};
ghost use Rattle.s360_laws.specs.Unsaved.{has_written};
ghost use Rattle.s360_program.specs.Advances.{Rests, Advances, RunsOn, Cuts, CallsAtMost, NeedNoStore, TellsOf, CutTellsOf};
ghost use Rattle.s360_storage.specs.Kept.{KeepsStorage};
ghost use Rattle.s360_program.specs.Stands.{Stands, phase_in};
ghost use Rattle.s360_program.specs.Seen.{seen_in};
ghost use Rattle.s360_program.specs.Starting.{IsFirst, StartsQuietly};

use crate::conditions::csw_at;
use crate::place::{Fetched, Place};
use crate::run::Run;
use crate::starting::{First, first_command};
use crate::view::ProgramView;
use ckd_command::DriveEnding;
use ckd_drive::Drive;
use ckd_image::ImageStore;
use s360_storage::MainStorage;
use s360_words::{Caw, ChannelStatus, Csw, UnitStatus};
use std::marker::Model;

/// A channel program that was accepted and has not ended. Bytes, drive and storage are not kept in it.
#[derive(Drop)]
pub struct Running {
    pub(crate) run: Run,
}

impl Model for Running {
    ghost use Rattle.s360_program.specs.Stands.{RunningState, Within};

    ghost Value = { RunningState };

    ghost use Rattle.s360_program.specs.Place.{place_of};
    ghost use Rattle.s360_program.specs.Stage.{stage_of};

    ghost view = { λ r. record { key = r.run.key; place = place_of r.run.place; stage = stage_of r.run } };

    ghost invariant = { λ r. Within (record { key = r.run.key; place = place_of r.run.place; stage = stage_of r.run }) };
}

/// What Start I/O makes of a program's first unit.
#[derive(Drop)]
pub enum Start {
    /// A bad channel address word, or a program check at the first word: nothing is started.
    Bad,
    /// The drive rejects the first command; its sense bytes say why.
    Rejected,
    /// The program is over at once, as the drive ended its only command; and whether an interruption was asked for.
    Immediate(DriveEnding, bool),
    /// The program runs.
    Accepted(Running),
}

/// What units of a program came to.
#[derive(Clone, Copy)]
pub struct Advance {
    /// How many were done: all that were asked for, unless the program ended.
    pub done: u16,
    /// The channel status word of a program that ended, and whether the arm still moves.
    pub ending: Option<(Csw, bool)>,
}

/// The same of more units than 16 bits count.
#[derive(Clone, Copy)]
pub struct LongAdvance {
    /// How many were done: all that were asked for, unless the program ended.
    pub done: u32,
    /// The channel status word of a program that ended, and whether the arm still moves.
    pub ending: Option<(Csw, bool)>,
}

impl Running {
    /// Does the first unit of the program that a channel address word leads to: the fetch of its first command.
    ///
    /// It makes no call of the store. After every answer but `Accepted` no command is open in the drive, and nothing waits
    /// to be saved (Principles of Operation, 'Start I/O').
    pub fn start<S: ImageStore, M: MainStorage>(
        caw: u32,
        storage: &M,
        drive: &mut Drive<S>,
    ) -> Start
        requires { Rests drive.old }
        ensures first { IsFirst (record { caw = caw; storage = M.holds storage.now; drive = drive_of drive.old.state }) result
            drive.old drive.new }
        ensures quiet { StartsQuietly drive.old drive.new }
    {
        let Some(caw) = Caw::from_word(caw) else {
            return Start::Bad;
        };
        let mut place = Place::first(caw.address);
        let Fetched::GoodCcw(ccw) = place.fetch(storage, true) else {
            return Start::Bad;
        };
        drive.begin_program();
        place.go_by(ccw);
        match first_command(caw.key, place, ccw, drive) {
            First::Rejected => Start::Rejected,
            First::Immediate(ending, asked) => Start::Immediate(ending, asked),
            First::Accepted(run) => Start::Accepted(Running { run }),
        }
    }

    /// Does so many units, unless the program ends before. Of storage and drive it asks that they are those of the
    /// program; storage may have changed since the last call.
    ///
    /// Units before which nothing is written, and which look for no area, make no call of the store. Where a call of the store
    /// fails the program is over in that unit, with unit check, and the drive's sense has equipment check. After an ending
    /// nothing may be asked of the program any more: no command is open in the drive, and the track under its arm is saved, or
    /// was not written.
    pub fn advance<S: ImageStore, M: MainStorage>(
        &mut self,
        units: u16,
        storage: &mut M,
        drive: &mut Drive<S>,
    ) -> Advance
        requires { Stands self.old drive.old }
        ensures advances { Advances self.old.key (phase_in self.old (M.holds storage.old) drive.old) units result self.new
            (M.holds storage.new) drive.old drive.new }
        ensures storage { KeepsStorage (M.holds storage.old) (M.holds storage.new) }
        ensures place { M.place storage.new ≡ M.place storage.old }
        ensures calls { CallsAtMost (2 * result.done) drive.old drive.new }
        ensures tells { TellsOf result.ending drive.old drive.new }
        ensures quiet { NeedNoStore self.old.key (phase_in self.old (M.holds storage.old) drive.old) result.done
            → drive.new.image ≡ drive.old.image }
    {
        let ran = self.run_on(u32::from(units), storage, drive);
        Advance {
            done: ran.done as u16,
            ending: ran.ending,
        }
    }

    /// The same of more units than 16 bits count.
    // In line, so that a caller has no copy of what it comes to.
    #[inline(always)]
    pub fn run_on<S: ImageStore, M: MainStorage>(
        &mut self,
        units: u32,
        storage: &mut M,
        drive: &mut Drive<S>,
    ) -> LongAdvance
        requires { Stands self.old drive.old }
        ensures runs { RunsOn self.old.key (phase_in self.old (M.holds storage.old) drive.old) units result self.new (M.holds storage.new)
            drive.old drive.new }
        ensures most { result.done ≤ units }
        ensures storage { KeepsStorage (M.holds storage.old) (M.holds storage.new) }
        ensures place { M.place storage.new ≡ M.place storage.old }
        ensures calls { CallsAtMost (2 * result.done) drive.old drive.new }
        ensures tells { TellsOf result.ending drive.old drive.new }
        ensures quiet { NeedNoStore self.old.key (phase_in self.old (M.holds storage.old) drive.old) result.done
            → drive.new.image ≡ drive.old.image }
    {
        if self.run.is_within_read(units, storage, drive) {
            self.run.pass_read_bytes(units, storage, drive);
            return LongAdvance {
                done: units,
                ending: None,
            };
        }
        let mut run = self.run;
        let ran = run.advance(units, storage, drive);
        if ran.ending.is_none() {
            self.run = run;
        }
        ran
    }

    /// Cuts the program, as Halt I/O and a reset do: the open command is closed by the bytes that have passed, where any
    /// have, and the track under the arm is saved if it was written. Answers the channel status word, whether the arm still
    /// moves, and cylinder and head of a track that could not be saved (Principles of Operation, 'Halt I/O').
    pub fn cut<S: ImageStore>(self, drive: &mut Drive<S>) -> (Csw, bool, Option<(u16, u16)>)
        requires { Stands self drive.old }
        ensures cut { (s : StorageState) → Cuts self.key (phase_in self s drive.old) result drive.old drive.new }
        ensures calls { (s : StorageState) → CallsStore false (has_written (phase_in self s drive.old)) drive.old
            drive.new }
        ensures tells { CutTellsOf result drive.old drive.new }
        ensures rests { Rests drive.new }
    {
        let mut run = self.run;
        let (csw, motion) = run.cut(drive);
        (csw, motion, drive.unsaved())
    }

    /// The channel status word of the interruption that a word of the program asked for, which is taken by this call; none
    /// where none is asked for (Principles of Operation, 'Program-Controlled Interruption').
    pub fn take_pci(&mut self) -> Option<Csw>
        ensures answer { (s : StorageState) (d : DriveState)
            → result ≡ (standing_in self.old.key (phase_in self.old s d)).interruption }
        ensures taken { (s : StorageState) (d : DriveState)
            → phase_in self.new s d ≡ phase_past TakesInterruption (phase_in self.old s d) }
        ensures stands { (d : DriveState) → Stands self.old d → Stands self.new d }
        ensures key { self.new.key ≡ self.old.key }
    {
        let place = &mut self.run.place;
        if !place.interruption {
            return None;
        }
        place.interruption = false;
        Some(csw_at(
            self.run.key,
            &self.run.place,
            UnitStatus(0),
            ChannelStatus::PROGRAM_CONTROLLED_INTERRUPTION,
        ))
    }

    /// What is seen of the program between two units: the word at work and the next one, the residual count, and what the next
    /// unit does. It is read off the phase in which the program stands.
    pub fn view(&self) -> ProgramView
        ensures { (s : StorageState) (d : DriveState) → Stands self.now d
            → result ≡ seen_in self.now.key (phase_in self.now s d) }
    {
        let run = &self.run;
        ProgramView {
            key: run.key,
            last: run.place.last,
            next: run.place.next,
            residual: run.place.residual,
            interruption: run.place.interruption,
            at_work: run.at_work(),
        }
    }

    /// Whether an interruption is asked for and not yet taken.
    pub fn interruption_asked(&self) -> bool
        ensures { (s : StorageState) (d : DriveState)
            → result ≡ is_some (standing_in self.now.key (phase_in self.now s d)).interruption }
    {
        self.run.place.interruption
    }
}

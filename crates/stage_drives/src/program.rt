//! A program that runs at the drive and in the storage that stand alone.

ghost use Rattle.s360_program.specs.Stands.{Stands};
ghost use Rattle.stage_drives.specs.Standing.{stands-prop};

use crate::alone::{Alone, put};
use crate::drive::{Disk, NO_DRIVE};
use crate::shown::{moves, say_program, say_track};
use ckd_drive::Phase;
use s360_program::program::{LongAdvance, Running, Start};
use s360_words::Csw;
use stage_files::{Line, Said, Word, yes};

/// A program that runs, and its drive.
#[derive(Drop)]
pub(crate) struct Program {
    drive: Disk,
    running: Running,
    ghost stands: { Stands running drive } by { stands-prop running drive },
}

const NO_PROGRAM: &str = "no program runs: PROGRAM START begins one";

/// Calls of a program.
#[derive(Clone, Copy)]
pub(crate) enum Runs {
    Start,
    Advance,
    Run,
    Cut,
    Take,
    Asked,
    View,
}

impl Program {
    /// Its drive.
    pub(crate) fn drive(&self) -> &Disk {
        &self.drive
    }
}

impl Alone {
    /// Does what a line of a program asks.
    pub(crate) fn run(&mut self, runs: Runs, line: &mut Line) {
        match runs {
            Runs::Start => self.start(line.wide(0), &mut line.said),
            Runs::Advance => self.advance(line.half(0), &mut line.said),
            Runs::Run => self.run_on(line.wide(0), &mut line.said),
            Runs::Cut => self.cut(&mut line.said),
            Runs::Take => self.take_interruption(&mut line.said),
            Runs::Asked => self.show_asked(&mut line.said),
            Runs::View => self.show_view(&mut line.said),
        }
    }

    // Starts a program by a channel address word.
    fn start(&mut self, caw: u32, said: &mut Said) {
        let Some(mut drive) = self.drive.take() else {
            return said.no(NO_DRIVE);
        };
        if drive.phase() != Phase::Idle || drive.is_written() {
            put(&mut self.drive, Some(drive));
            return said.no("a command is open, or a track is not saved");
        }
        match Running::start(caw, &self.storage, &mut drive) {
            Start::Accepted(running) => {
                put(&mut self.program, Some(Program { drive, running }));
                return said.put("ACCEPTED");
            }
            Start::Bad => said.put("BAD"),
            Start::Rejected => said.put("REJECTED"),
            Start::Immediate(ending, asked) => said.answer(
                "IMMEDIATE",
                &[
                    Word::Byte(ending.unit.0),
                    moves(ending.motion),
                    Word::Text(if asked { "asks" } else { "quiet" }),
                ],
            ),
        }
        put(&mut self.drive, Some(drive));
    }

    // Does so many units.
    fn advance(&mut self, units: u16, said: &mut Said) {
        let Some(program) = self.program.take() else {
            return said.no(NO_PROGRAM);
        };
        let Program {
            mut drive,
            mut running,
        } = program;
        let advance = running.advance(units, &mut self.storage, &mut drive);
        if advance.ending.is_none() {
            put(&mut self.program, Some(Program { drive, running }));
        } else {
            put(&mut self.drive, Some(drive));
        }
        show_done(advance.done as u64, advance.ending, said);
    }

    // The same of more units.
    fn run_on(&mut self, units: u32, said: &mut Said) {
        let Some(program) = self.program.take() else {
            return said.no(NO_PROGRAM);
        };
        let Program {
            mut drive,
            mut running,
        } = program;
        let LongAdvance { done, ending } = running.run_on(units, &mut self.storage, &mut drive);
        if ending.is_none() {
            put(&mut self.program, Some(Program { drive, running }));
        } else {
            put(&mut self.drive, Some(drive));
        }
        show_done(done as u64, ending, said);
    }

    // Cuts the program.
    fn cut(&mut self, said: &mut Said) {
        let Some(program) = self.program.take() else {
            return said.no(NO_PROGRAM);
        };
        let Program { mut drive, running } = program;
        let (csw, motion, unsaved) = running.cut(&mut drive);
        put(&mut self.drive, Some(drive));
        said.answer("CUT", &[Word::Digits(&csw.to_bytes()), moves(motion)]);
        say_track(unsaved, said);
    }

    // Takes the interruption that the program asked for.
    fn take_interruption(&mut self, said: &mut Said) {
        let Some(program) = self.program.take() else {
            return said.no(NO_PROGRAM);
        };
        let Program { drive, mut running } = program;
        let taken = running.take_pci();
        put(&mut self.program, Some(Program { drive, running }));
        match taken {
            Some(csw) => said.answer("PCI", &[Word::Digits(&csw.to_bytes())]),
            None => said.put("PCI NONE"),
        }
    }

    fn show_asked(&self, said: &mut Said) {
        match &self.program {
            Some(program) => said.answer("ASKED", &[yes(program.running.interruption_asked())]),
            None => said.no(NO_PROGRAM),
        }
    }

    fn show_view(&self, said: &mut Said) {
        match &self.program {
            Some(program) => {
                said.put("VIEW");
                say_program(&program.running.view(), said);
            }
            None => said.no(NO_PROGRAM),
        }
    }
}

// What units came to.
fn show_done(done: u64, ending: Option<(Csw, bool)>, said: &mut Said) {
    said.answer("DONE", &[Word::Number(done)]);
    if let Some((csw, motion)) = ending {
        said.answer(" ENDED", &[Word::Digits(&csw.to_bytes()), moves(motion)]);
    }
}

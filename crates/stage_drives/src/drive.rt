//! A drive alone, by someone who knows of it what `phase` reports.

use crate::alone::Alone;
use crate::shown::{moves, say_registers, say_track};
use ckd_command::DriveEnding;
use ckd_drive::{Begun, Drive, Look, Phase};
use stage_files::{FileStore, Line, MEMORY, Said, Word, yes};
use std::alloc::Global;

/// A drive over files.
pub(crate) type Disk = Drive<FileStore>;

// Why a call is not made.
const NOT_NOW: &str = "the drive's phase does not allow it";

/// What a drive is that is not there.
pub(crate) const NO_DRIVE: &str =
    "no drive is held alone: DRIVE MOUNT makes one, and a program takes it";

/// What a drive shows, also while a program runs.
#[derive(Clone, Copy)]
pub(crate) enum Sees {
    Phase,
    State,
    Registers,
    Slot,
}

/// Calls that pass no bytes.
#[derive(Clone, Copy)]
pub(crate) enum Steps {
    Program,
    Clear,
    Begin,
    Look,
    End,
    Settle,
}

/// Calls that pass bytes.
#[derive(Clone, Copy)]
pub(crate) enum Passes {
    Give,
    Next,
    Take,
    Whole,
    Once,
}

impl Alone {
    /// Shows the drive, also that of a program which runs.
    pub(crate) fn see(&self, sees: Sees, line: &mut Line) {
        match (&self.drive, &self.program) {
            (Some(drive), _) => show(drive, sees, &mut line.said),
            (None, Some(program)) => show(program.drive(), sees, &mut line.said),
            (None, None) => line.said.no(NO_DRIVE),
        }
    }

    /// Makes a call that passes no bytes.
    pub(crate) fn step(&mut self, steps: Steps, line: &mut Line) {
        let Some(drive) = &mut self.drive else {
            return line.said.no(NO_DRIVE);
        };
        match steps {
            Steps::Program => begin_program(drive, &mut line.said),
            Steps::Clear => clear(drive, &mut line.said),
            Steps::Begin => begin(drive, line.byte(0), &mut line.said),
            Steps::Look => look(drive, &mut line.said),
            Steps::End => end(drive, &mut line.said),
            Steps::Settle => settle(drive, &mut line.said),
        }
    }

    /// Makes a call that passes bytes.
    pub(crate) fn pass(&mut self, alloc: Global, passes: Passes, line: &mut Line) {
        let Some(drive) = &mut self.drive else {
            return line.said.no(NO_DRIVE);
        };
        match passes {
            Passes::Give => give(alloc, drive, line),
            Passes::Next => next(drive, line.size(0), &mut line.said),
            Passes::Take => take(drive, line),
            Passes::Whole => whole(drive, &mut line.said),
            Passes::Once => once(drive, &mut line.said),
        }
    }
}

fn show(drive: &Disk, sees: Sees, said: &mut Said) {
    match sees {
        Sees::Phase => show_phase(drive.phase(), said),
        Sees::State => show_state(drive, said),
        Sees::Registers => {
            said.put("REGISTERS");
            say_registers(drive.registers(), said);
        }
        Sees::Slot => show_slot(drive.slot(), said),
    }
}

fn show_phase(phase: Phase, said: &mut Said) {
    match phase {
        Phase::Idle => said.put("PHASE idle"),
        Phase::Over => said.put("PHASE over"),
        Phase::Looking => said.put("PHASE looking"),
        Phase::Gives { passed, left } => show_passed("PHASE gives", passed, left, said),
        Phase::Takes { passed, left } => show_passed("PHASE takes", passed, left, said),
    }
}

fn show_passed(name: &str, passed: usize, left: usize, said: &mut Said) {
    said.answer(
        name,
        &[Word::Number(passed as u64), Word::Number(left as u64)],
    );
}

fn show_state(drive: &Disk, said: &mut Said) {
    let sense = drive.sense();
    said.answer(
        "DRIVE AT",
        &[
            Word::Number(drive.cylinder() as u64),
            Word::Number(drive.head() as u64),
            Word::Text("SENSE"),
            Word::Digits(&sense),
        ],
    );
    said.answer(" WRITTEN", &[yes(drive.is_written())]);
    say_track(drive.unsaved(), said);
}

fn show_slot(slot: Option<&[u8]>, said: &mut Said) {
    match slot {
        Some(slot) => said.answer("SLOT", &[Word::Spelled(slot)]),
        None => said.put("SLOT NONE"),
    }
}

fn begin_program(drive: &mut Disk, said: &mut Said) {
    let Phase::Idle = drive.phase() else {
        return said.no(NOT_NOW);
    };
    drive.begin_program();
    said.ok();
}

fn clear(drive: &mut Disk, said: &mut Said) {
    let Phase::Idle = drive.phase() else {
        return said.no(NOT_NOW);
    };
    drive.clear_sense();
    said.ok();
}

fn begin(drive: &mut Disk, code: u8, said: &mut Said) {
    let Phase::Idle = drive.phase() else {
        return said.no(NOT_NOW);
    };
    said.put(match drive.begin(code) {
        Begun::Rejected => "REJECTED",
        Begun::Immediate => "IMMEDIATE",
        Begun::Started => "STARTED",
    });
}

fn look(drive: &mut Disk, said: &mut Said) {
    let look = match drive.phase() {
        Phase::Looking | Phase::Gives { .. } | Phase::Takes { .. } => drive.look(),
        Phase::Idle | Phase::Over => return said.no(NOT_NOW),
    };
    match look {
        Look::Ready(left) => said.answer("READY", &[Word::Number(left as u64)]),
        Look::Passed => said.put("PASSED"),
        Look::Failed => said.put("FAILED"),
    }
}

fn end(drive: &mut Disk, said: &mut Said) {
    let ending = match drive.phase() {
        Phase::Over | Phase::Gives { .. } | Phase::Takes { .. } => drive.end(),
        Phase::Idle | Phase::Looking => return said.no(NOT_NOW),
    };
    show_ending(ending, said);
}

fn settle(drive: &mut Disk, said: &mut Said) {
    let settled = match drive.phase() {
        Phase::Idle | Phase::Over | Phase::Looking => drive.settle(),
        Phase::Gives { passed: 0, .. } | Phase::Takes { passed: 0, .. } => drive.settle(),
        Phase::Gives { .. } | Phase::Takes { .. } => return said.no(NOT_NOW),
    };
    match settled {
        Ok(()) => said.ok(),
        Err(fault) => said.refused(&fault),
    }
}

// Why no more bytes are given.
fn no_more(left: usize, said: &mut Said) {
    said.no("the drive gives no more than");
    said.words(&[Word::Number(left as u64), Word::Text("bytes")]);
}

fn give(alloc: Global, drive: &mut Disk, line: &mut Line) {
    let n = line.size(0);
    let Phase::Gives { left, .. } = drive.phase() else {
        return line.said.no(NOT_NOW);
    };
    if n > left {
        return no_more(left, &mut line.said);
    }
    let Ok(mut into) = vec![in alloc; 0xAAu8; n] else {
        return line.said.no(MEMORY);
    };
    drive.give(into.as_mut_slice());
    line.said.answer("GIVEN", &[Word::Spelled(into.as_slice())]);
}

fn next(drive: &mut Disk, n: usize, said: &mut Said) {
    let Phase::Gives { left, .. } = drive.phase() else {
        return said.no(NOT_NOW);
    };
    if n > left {
        return no_more(left, said);
    }
    said.answer("GIVEN", &[Word::Spelled(&drive.next_bytes()[..n])]);
    drive.pass(n);
}

fn take(drive: &mut Disk, line: &mut Line) {
    let Phase::Takes { left, .. } = drive.phase() else {
        return line.said.no(NOT_NOW);
    };
    let n = left.min(line.bytes.len());
    drive.take(&line.bytes.as_slice()[..n]);
    line.said.answer("TAKEN", &[Word::Number(n as u64)]);
}

fn whole(drive: &mut Disk, said: &mut Said) {
    let Some((lent, read)) = drive.whole_read() else {
        return said.put("WHOLE NONE");
    };
    said.answer("WHOLE", &[Word::Spelled(lent)]);
    said.put(" ");
    show_ending(drive.end_whole(read), said);
}

fn once(drive: &mut Disk, said: &mut Said) {
    let Some((lent, read)) = drive.read_at_once() else {
        return said.put("ONCE NONE");
    };
    said.answer("ONCE", &[Word::Spelled(lent)]);
    said.put(" ");
    show_ending(drive.end_whole(read), said);
}

// How a command ended: its unit status, and whether the arm still moves.
fn show_ending(ending: DriveEnding, said: &mut Said) {
    said.answer("ENDED", &[Word::Byte(ending.unit.0), moves(ending.motion)]);
}

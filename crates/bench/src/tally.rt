//! What commands and programs came to.

use crate::programs::Program;
use bitflags::Flags;
use s360_words::{Csw, UnitStatus};
use std::fmt;
use std::fmt::Display;

/// How many commands ended, how many bytes passed in them, and how many of them ended in unit check.
#[derive(Clone, Copy, Default)]
pub(crate) struct Tally {
    commands: u64,
    bytes: u64,
    checks: u64,
}

impl Tally {
    /// How many commands ended.
    pub(crate) fn commands(&self) -> u64 {
        self.commands
    }

    /// How many bytes passed in them.
    pub(crate) fn bytes(&self) -> u64 {
        self.bytes
    }

    /// One more command ended, after so many bytes.
    pub(crate) fn add(&mut self, unit: UnitStatus, bytes: usize) {
        self.commands = self.commands.wrapping_add(1);
        self.bytes = self.bytes.wrapping_add(bytes as u64);
        if unit.contains(UnitStatus::UNIT_CHECK) {
            self.checks = self.checks.wrapping_add(1);
        }
    }
}

impl Display for Tally {
    fn fmt<W: fmt::Write>(&self, f: &mut fmt::Formatter<W>) -> fmt::Result {
        write!(
            f,
            "{} commands, {} bytes, {} unit checks",
            self.commands, self.bytes, self.checks
        )
    }
}

/// What programs came to.
#[derive(Clone, Copy, Default)]
pub(crate) struct ProgramTally {
    programs: u64,
    ccws: u64,
    bytes: u64,
    /// How many ended otherwise than with channel end, device end, and no count left.
    others: u64,
}

impl ProgramTally {
    /// One more program ended, with this channel status word, if it ended with one.
    pub(crate) fn add(&mut self, program: &Program, ending: Option<Csw>) {
        self.programs = self.programs.wrapping_add(1);
        self.ccws = self.ccws.wrapping_add(program.ccws());
        self.bytes = self.bytes.wrapping_add(program.bytes());
        let ended = match ending {
            Some(csw) => program.ends_with(csw),
            None => false,
        };
        if !ended {
            self.others = self.others.wrapping_add(1);
        }
    }

    /// The channel command words of programs that ran to their end.
    pub(crate) fn ccws(&self) -> u64 {
        self.ccws
    }

    /// The bytes of these programs.
    pub(crate) fn bytes(&self) -> u64 {
        self.bytes
    }
}

impl Display for ProgramTally {
    fn fmt<W: fmt::Write>(&self, f: &mut fmt::Formatter<W>) -> fmt::Result {
        write!(
            f,
            "{} programs, {} CCWs, {} bytes, {} other ends",
            self.programs, self.ccws, self.bytes, self.others
        )
    }
}

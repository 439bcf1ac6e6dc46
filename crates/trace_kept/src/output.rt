//! The lines of a trace on their way to a writer.

use crate::last_lines::HeldLine;
use crate::rounds::Rounds;
use crate::selected::SelectedLines;
use std::alloc::{AllocError, Global};
use std::io::Write;
use thiserror::Error;

/// Which lines a trace has.
#[derive(Clone, Copy)]
pub struct TracedLines {
    /// Whether a round of lines that comes again is told each time.
    pub is_whole: bool,
    /// Whether starts are left out whose programs do not fail, with all that is told until the next one.
    pub failing_only: bool,
    /// How many lines are written at most, which are the last ones.
    pub last: Option<u32>,
    /// Whether each answer is told as a deck prints it.
    pub with_answers: bool,
}

impl TracedLines {
    /// All; a round that comes again is told once.
    pub const ALL: TracedLines = TracedLines {
        is_whole: false,
        failing_only: false,
        last: None,
        with_answers: false,
    };
}

/// A trace could not be written.
#[derive(Clone, Copy, Debug, Error)]
#[error("the trace could not be written")]
pub struct TraceFault;

/// Takes the lines of a trace, and writes those that it is to have. A write that fails is its last, and is told at the end.
#[derive(Drop)]
pub struct TraceOutput<W: Write + Drop> {
    /// Where rounds that come again are told once.
    rounds: Option<Rounds>,
    told: SelectedLines<W>,
}

impl<W: Write + Drop> TraceOutput<W> {
    /// No lines, of which these go to a writer. All memory that is taken is taken here.
    ///
    /// # Errors
    ///
    /// There is no memory for the lines that are kept.
    pub fn new(alloc: Global, writer: W, lines: TracedLines) -> Result<TraceOutput<W>, AllocError> {
        let rounds = if lines.is_whole {
            None
        } else {
            Some(Rounds::new(alloc)?)
        };
        Ok(TraceOutput {
            rounds,
            told: SelectedLines::new(alloc, writer, lines)?,
        })
    }

    /// An event happens: what units before it told is told whole.
    pub fn event(&mut self) {
        if let Some(rounds) = &mut self.rounds {
            rounds.end(&mut self.told);
        }
    }

    /// A start is told next.
    pub fn starts(&mut self) {
        self.told.starts();
    }

    /// The program that was started last fails.
    pub fn program_fails(&mut self) {
        self.told.program_fails();
    }

    /// These lines are told, which may be those of a unit.
    pub fn take(&mut self, lines: &str, of_unit: bool) {
        for line in lines.lines() {
            let mut kept = HeldLine::new();
            if kept.try_push_str(line).is_err() {
                self.told.has_failed = true;
            }
            match &mut self.rounds {
                Some(rounds) if of_unit => rounds.take(kept, &mut self.told),
                _ => self.told.take(&kept),
            }
        }
    }

    /// A line was not whole as it came: neither is the trace.
    pub fn lacks(&mut self) {
        self.told.has_failed = true;
    }

    /// The trace is over; the writer is given back.
    ///
    /// # Errors
    ///
    /// A write failed, or the last flush, or a line was not whole.
    pub fn into_writer(self) -> Result<W, TraceFault> {
        let mut output = self;
        output.event();
        output.told.end();
        if output.told.writer.flush().is_err() || output.told.has_failed {
            return Err(TraceFault);
        }
        let TraceOutput { rounds: _, told } = output;
        Ok(told.into_writer())
    }
}

//! Which lines of a trace are written.

use crate::last_lines::{HeldLine, LastLines};
use crate::output::TracedLines;
use std::alloc::{AllocError, Global};
use std::io::Write;

/// The most lines that are kept of a program until it fails.
const PROGRAM_LINES: usize = 4_096;

/// A writer, and the lines that it may still get.
#[derive(Drop)]
pub(crate) struct SelectedLines<W: Write + Drop> {
    pub(crate) writer: W,
    pub(crate) has_failed: bool,
    /// The lines since the last start, where those of programs that do not fail are left out; and whether this one has failed.
    program: Option<LastLines>,
    fails: bool,
    /// The last lines, where others are left out.
    last: Option<LastLines>,
}

impl<W: Write + Drop> SelectedLines<W> {
    /// No lines, of which these go to the writer.
    ///
    /// # Errors
    ///
    /// There is no memory for those that are kept.
    pub(crate) fn new(
        alloc: Global,
        writer: W,
        lines: TracedLines,
    ) -> Result<SelectedLines<W>, AllocError> {
        let program = if lines.failing_only {
            Some(LastLines::new(alloc, PROGRAM_LINES)?)
        } else {
            None
        };
        let last = match lines.last {
            Some(most) => Some(LastLines::new(alloc, most as usize)?),
            None => None,
        };
        Ok(SelectedLines {
            writer,
            has_failed: false,
            program,
            fails: false,
            last,
        })
    }

    /// One line more.
    pub(crate) fn take(&mut self, line: &HeldLine) {
        if !self.fails {
            if let Some(program) = &mut self.program {
                return program.push(*line);
            }
        }
        self.tell(line);
    }

    /// A start is told next.
    pub(crate) fn starts(&mut self) {
        if let Some(program) = &mut self.program {
            program.clear();
            self.fails = false;
        }
    }

    /// The program that was started last fails.
    pub(crate) fn program_fails(&mut self) {
        let kept = match &self.program {
            Some(program) if !self.fails => program.len(),
            _ => 0,
        };
        self.fails = true;
        for behind in 0..kept {
            if let Some(line) = kept_at(&self.program, kept - behind) {
                self.tell(&line);
            }
        }
    }

    /// No line is told any more.
    pub(crate) fn end(&mut self) {
        let kept = match &self.last {
            Some(last) => last.len(),
            None => 0,
        };
        for behind in 0..kept {
            if let Some(line) = kept_at(&self.last, kept - behind) {
                self.write(&line);
            }
        }
    }

    /// The writer.
    pub(crate) fn into_writer(self) -> W {
        let SelectedLines {
            writer,
            has_failed: _,
            program: _,
            fails: _,
            last: _,
        } = self;
        writer
    }

    // A line that is one of those asked for.
    fn tell(&mut self, line: &HeldLine) {
        if let Some(last) = &mut self.last {
            return last.push(*line);
        }
        self.write(line);
    }

    // Writes a line, unless one could not be written.
    fn write(&mut self, line: &HeldLine) {
        if !self.has_failed {
            self.has_failed = self.writer.write_all(line.as_str().as_bytes()).is_err()
                || self.writer.write_all(b"\n").is_err();
        }
    }
}

// A line that is kept, by how many stand behind it.
fn kept_at(lines: &Option<LastLines>, distance: usize) -> Option<HeldLine> {
    match lines {
        Some(lines) => lines.back(distance).copied(),
        None => None,
    }
}

//! Rounds of lines that come again are told once, with how often they came again.

use crate::last_lines::{HeldLine, LastLines, folded};
use crate::selected::SelectedLines;
use std::alloc::{AllocError, Global};
use std::io::Write;

/// The most lines of a round.
const LONGEST_ROUND: usize = 512;

/// The least times that a round came again which is not told line by line.
const FOLDED_FROM: u64 = 2;

/// The lines of units, of which those that are a round once more are held back.
#[derive(Drop)]
pub(crate) struct Rounds {
    /// The last lines, told or held back: those of two rounds.
    lines: LastLines,
    /// How many lines the round has that comes again; zero where no line is held back.
    length: usize,
    /// How often it came again whole.
    times: u64,
    /// How many lines of it came behind that.
    begun: usize,
}

impl Rounds {
    /// No lines.
    ///
    /// # Errors
    ///
    /// There is no memory for the lines of two rounds.
    pub(crate) fn new(alloc: Global) -> Result<Rounds, AllocError> {
        Ok(Rounds {
            lines: LastLines::new(alloc, 2 * LONGEST_ROUND)?,
            length: 0,
            times: 0,
            begun: 0,
        })
    }

    /// A line that a unit tells.
    pub(crate) fn take<W: Write + Drop>(&mut self, line: HeldLine, told: &mut SelectedLines<W>) {
        let mut length = self.round_with(&line);
        if length.is_none() && self.length > 0 {
            self.release(told);
            length = self.round_with(&line);
        }
        match length {
            Some(length) => self.hold(line, length),
            None => {
                told.take(&line);
                self.lines.push(line);
            }
        }
    }

    /// The lines that were held back are told, and a round begins anew.
    pub(crate) fn end<W: Write + Drop>(&mut self, told: &mut SelectedLines<W>) {
        self.release(told);
        self.lines.clear();
    }

    // Whether a line is the one so many before it.
    fn comes_again(&self, line: &HeldLine, distance: usize) -> bool {
        match self.lines.back(distance) {
            Some(before) => before.as_str() == line.as_str(),
            None => false,
        }
    }

    // The length of a round that comes again with the lines held back and this one: the one that they are held back for, or else, where
    // that came not even once whole, the shortest longer one.
    fn round_with(&self, line: &HeldLine) -> Option<usize> {
        if self.length > 0 && self.comes_again(line, self.length) {
            return Some(self.length);
        }
        if self.times > 0 {
            return None;
        }
        for length in self.length.saturating_add(1)..LONGEST_ROUND + 1 {
            if self.comes_again(line, length) && self.begins_again(length) {
                return Some(length);
            }
        }
        None
    }

    // Whether the lines that are held back are those so many before them.
    fn begins_again(&self, length: usize) -> bool {
        for behind in 0..self.begun {
            let distance = self.begun - behind;
            match self.lines.back(distance) {
                Some(held) if self.comes_again(held, distance.saturating_add(length)) => {}
                _ => return false,
            }
        }
        true
    }

    // Holds a line back, of a round of this length that comes again.
    fn hold(&mut self, line: HeldLine, length: usize) {
        self.length = length;
        self.lines.push(line);
        self.begun = self.begun.saturating_add(1);
        if self.begun == self.length {
            self.times = self.times.saturating_add(1);
            self.begun = 0;
        }
    }

    // Tells the lines that are held back: how often a round came again, or its lines where that is not often; and those behind it.
    fn release<W: Write + Drop>(&mut self, told: &mut SelectedLines<W>) {
        let mut held = self.begun;
        if self.times >= FOLDED_FROM {
            told.take(&folded(self.length, self.times));
        } else if self.times > 0 {
            held = held.saturating_add(self.length);
        }
        for behind in 0..held {
            if let Some(line) = self.lines.back(held - behind) {
                told.take(line);
            }
        }
        self.length = 0;
        self.times = 0;
        self.begun = 0;
    }
}

//! The last lines of a trace, as many as are kept.

use arrayvec::ArrayString;
use std::alloc::{AllocError, Global};
use std::fmt::Write;

/// More bytes than a line has.
const LINE_ROOM: usize = 256;

/// A line that is kept, without its line feed.
pub(crate) type HeldLine = ArrayString<LINE_ROOM>;

/// The last lines.
#[derive(Drop)]
pub(crate) struct LastLines {
    lines: Vec<HeldLine>,
    /// How many are kept at most.
    most: usize,
    /// The place of the next one.
    next: usize,
}

impl LastLines {
    /// None yet, and so many at most.
    ///
    /// # Errors
    ///
    /// There is no memory for so many.
    pub(crate) fn new(alloc: Global, most: usize) -> Result<LastLines, AllocError> {
        Ok(LastLines {
            lines: Vec::with_capacity(alloc, most)?,
            most,
            next: 0,
        })
    }

    /// How many there are.
    pub(crate) fn len(&self) -> usize {
        self.lines.len()
    }

    /// One more, in the place of the first where there are as many as are kept.
    pub(crate) fn push(&mut self, line: HeldLine) {
        if self.lines.len() < self.most {
            // the room was taken at the beginning
            let _ = self.lines.push(line);
        } else if let Some(first) = self.lines.get_mut(self.next) {
            *first = line;
        }
        self.next = self.next.saturating_add(1);
        if self.next >= self.most {
            self.next = 0;
        }
    }

    /// The line so many before the next one: 1 is the last.
    pub(crate) fn back(&self, distance: usize) -> Option<&HeldLine> {
        if distance == 0 || distance > self.lines.len() {
            return None;
        }
        match self.next.checked_sub(distance) {
            Some(place) => self.lines.get(place),
            None => self.lines.get(self.lines.len() - (distance - self.next)),
        }
    }

    /// Forgets all.
    pub(crate) fn clear(&mut self) {
        self.lines.clear();
        self.next = 0;
    }
}

/// How often a round of so many lines came again.
pub(crate) fn folded(length: usize, times: u64) -> HeldLine {
    let mut line = HeldLine::new();
    let _ = if length == 1 {
        write!(line, "        the same line {times} times more")
    } else {
        write!(line, "        the same {length} lines {times} times more")
    };
    line
}

//! Readers and writers of decks that give and take little at a time, or fail.

use std::alloc::Global;
use std::io::{Error, ErrorKind, Read, Write};

/// How a deck is read.
#[derive(Clone, Copy)]
pub(crate) struct Reads {
    /// The most bytes that a read gives; with 0 any number.
    pub most: usize,
    /// Which read fails, counted from 1 on; with 0 none does.
    pub fails_at: usize,
    /// How many reads there were.
    pub count: usize,
}

impl Reads {
    /// A read gives all, and none fails.
    pub(crate) const ALL: Reads = Reads {
        most: 0,
        fails_at: 0,
        count: 0,
    };
}

/// A deck that is read so.
#[derive(Drop)]
pub(crate) struct DeckReader<'a> {
    /// What is not yet read of it.
    pub rest: &'a [u8],
    pub reads: Reads,
}

impl Read for DeckReader<'_> {
    fn read(&mut self, into: &mut [u8]) -> std::io::Result<usize> {
        self.reads.count = self.reads.count.saturating_add(1);
        if self.reads.count == self.reads.fails_at {
            return Err(Error::from(ErrorKind::Other));
        }
        let most = match self.reads.most {
            0 => into.len(),
            most => most.min(into.len()),
        };
        let count = self.rest.len().min(most);
        into[..count].copy_from_slice(&self.rest[..count]);
        self.rest = &self.rest[count..];
        Ok(count)
    }
}

/// How answers are written, and what was written.
#[derive(Drop)]
pub(crate) struct Writes {
    /// What was written.
    pub written: Vec<u8>,
    /// The most bytes that a write takes; with 0 any number.
    pub most: usize,
    /// For how many bytes more there is room.
    pub room: usize,
    /// Whether a write without room takes no byte, in the place of failing.
    pub takes_none: bool,
    /// Whether a flush fails.
    pub flush_fails: bool,
    /// How many writes there were.
    pub count: usize,
}

impl Writes {
    /// A write takes all, and none fails.
    pub(crate) fn new(alloc: Global) -> Writes {
        Writes {
            written: Vec::new(alloc),
            most: 0,
            room: usize::MAX,
            takes_none: false,
            flush_fails: false,
            count: 0,
        }
    }
}

impl Write for Writes {
    fn write(&mut self, bytes: &[u8]) -> std::io::Result<usize> {
        self.count = self.count.saturating_add(1);
        let most = match self.most {
            0 => bytes.len(),
            most => most.min(bytes.len()),
        };
        let count = most.min(self.room);
        if count == 0 && !self.takes_none {
            return Err(Error::from(ErrorKind::Other));
        }
        match self.written.extend_from_slice(&bytes[..count]) {
            Ok(()) => {
                self.room -= count;
                Ok(count)
            }
            Err(_) => Err(Error::from(ErrorKind::OutOfMemory)),
        }
    }

    fn flush(&mut self) -> std::io::Result<()> {
        if self.flush_fails {
            return Err(Error::from(ErrorKind::Other));
        }
        Ok(())
    }
}

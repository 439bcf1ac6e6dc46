//! What a look finds in main storage, whoever keeps that.

use crate::seen::Went;
use s360_laws::Event;
use s360_program::view::{AtWork, ProgramView};
use s360_storage::MainStorage;
use s360_trace::Moment;
use s360_words::{Ccw, Csw};

/// What a look finds in main storage.
#[derive(Clone, Copy)]
pub(crate) struct Stored {
    /// How many bytes there are.
    pub(crate) size: u32,
    /// What a start finds that is about to be made.
    pub(crate) start: Option<Start>,
    /// What stands at the last address at which a word was to be fetched.
    pub(crate) last: Option<Ccw>,
    /// The byte that the unit moved, if it moved one, and the key of its block.
    pub(crate) byte: Option<u8>,
    pub(crate) key: Option<u8>,
}

/// The channel address word, and the first word of a program.
#[derive(Clone, Copy)]
pub(crate) struct Start {
    pub(crate) address_word: u32,
    pub(crate) word: Option<Ccw>,
}

impl Start {
    /// What a start finds.
    fn of<M: MainStorage>(storage: &M) -> Start {
        let address_word = storage.caw_word();
        let at = address_word & 0x00FF_FFFF;
        Start {
            address_word,
            word: word_at(at, storage.ccw_at(at)),
        }
    }
}

impl Stored {
    /// What is found where a program runs, or has ended so, that was so before.
    pub(crate) fn of<M: MainStorage>(
        storage: &M,
        moment: Moment,
        before: Option<Went>,
        at: Option<u32>,
    ) -> Stored {
        let next = next_of(before);
        Stored {
            size: storage.size(),
            start: start_of(storage, moment),
            last: word_of(storage, at),
            byte: byte_of(storage, next),
            key: key_of(storage, next),
        }
    }
}

// What a start finds, if it is about to be made.
fn start_of<M: MainStorage>(storage: &M, moment: Moment) -> Option<Start> {
    match moment {
        Moment::Before(Event::Sio(_)) => Some(Start::of(storage)),
        _ => None,
    }
}

fn word_of<M: MainStorage>(storage: &M, at: Option<u32>) -> Option<Ccw> {
    storage.ccw_at(at?)
}

fn byte_of<M: MainStorage>(storage: &M, at: Option<u32>) -> Option<u8> {
    storage.slice(at?, 1)?.first().copied()
}

fn key_of<M: MainStorage>(storage: &M, at: Option<u32>) -> Option<u8> {
    storage.key(at?)
}

// Where the next byte of a program goes or comes from.
fn next_of(program: Option<Went>) -> Option<u32> {
    next_byte(program?.at_work)
}

/// Where the next byte goes or comes from, if the next unit moves one.
pub(crate) fn next_byte(at_work: AtWork) -> Option<u32> {
    match at_work {
        AtWork::Moving(_, at) => Some(at),
        AtWork::Looking(ccw) => Some(ccw.address),
        AtWork::Fetching => None,
    }
}

/// The last address at which a word was to be fetched by a program that ended so.
pub(crate) fn last_of(csw: Csw) -> u32 {
    csw.address.wrapping_sub(8) & 0x00FF_FFFF
}

/// The same of a program that runs, or has ended.
pub(crate) fn last_word(running: Option<ProgramView>, ended: Option<Csw>) -> Option<u32> {
    match (running, ended) {
        (Some(program), _) => Some(program.last),
        (None, Some(csw)) => Some(last_of(csw)),
        (None, None) => None,
    }
}

/// The word that storage has at an address, unless no word can stand there.
pub(crate) fn word_at(at: u32, word: Option<Ccw>) -> Option<Ccw> {
    if at % 8 != 0 {
        return None;
    }
    word
}

//! What a store was asked for.

use crate::said::{Said, Word};
use ckd_image::StoreFault;
use std::cell::Cell;

/// How often calls of a kind were made, and where and how long the last was.
#[derive(Clone, Copy)]
pub(crate) struct Calls {
    count: u64,
    at: u64,
    len: usize,
}

pub(crate) const NO_CALLS: Calls = Calls {
    count: 0,
    at: 0,
    len: 0,
};

/// What a store was asked for: reads and writes, and those of them that failed.
#[derive(Drop)]
pub(crate) struct Watch {
    pub(crate) reads: Cell<Calls>,
    pub(crate) writes: Cell<Calls>,
    pub(crate) failed_reads: Cell<Calls>,
    pub(crate) failed_writes: Cell<Calls>,
}

impl Watch {
    pub(crate) fn new() -> Watch {
        Watch {
            reads: Cell::new(NO_CALLS),
            writes: Cell::new(NO_CALLS),
            failed_reads: Cell::new(NO_CALLS),
            failed_writes: Cell::new(NO_CALLS),
        }
    }
}

/// A call more.
pub(crate) fn count(calls: &Cell<Calls>, at: u64, len: usize) {
    let count = calls.get().count.saturating_add(1);
    calls.set(Calls { count, at, len });
}

/// The same, where it failed.
pub(crate) fn count_failed(
    calls: &Cell<Calls>,
    at: u64,
    len: usize,
    came: &Result<(), StoreFault>,
) {
    if came.is_err() {
        count(calls, at, len);
    }
}

/// Says what a store was asked for.
pub(crate) fn say(watch: &Watch, said: &mut Said) {
    said.put("CALLS");
    say_calls("READ", &watch.reads, said);
    say_calls("WRITE", &watch.writes, said);
    said.put(" FAILED");
    say_calls("READ", &watch.failed_reads, said);
    say_calls("WRITE", &watch.failed_writes, said);
}

fn say_calls(name: &str, calls: &Cell<Calls>, said: &mut Said) {
    let Calls { count, at, len } = calls.get();
    said.words(&[
        Word::Text(name),
        Word::Number(count),
        Word::Number(at),
        Word::Number(len as u64),
    ]);
}

//! The works as channel programs in storage: each is built once, and its operands are stored anew for each track.

use crate::tally::ProgramTally;
use crate::works::{
    DATA, HEADS, LONG_DATA, READ_COUNT_KEY_AND_DATA, READ_DATA, READ_DATA_MULTI_TRACK, READ_R0,
    RECORDS, SEARCH_HOME_ADDRESS, SEARCH_ID, SEEK, WRITE_COUNT_KEY_AND_DATA, WRITE_DATA, Work,
};
use s360_words::{Csw, UnitStatus};

const TRANSFER_IN_CHANNEL: u8 = 0x08;

const DATA_CHAINING: u8 = 0x80;

const COMMAND_CHAINING: u8 = 0x40;

/// Where a program begins.
const FIRST: u32 = 0x400;

/// Where its operands stand: the two bytes of a bin, two each of cylinder and head, and a record.
const SEEK_ADDRESS: u32 = 0x200;

const SEARCHED: u32 = 0x202;

/// Where the count areas of new records stand, and where data goes to and comes from.
const COUNTS: u32 = 0x300;

const BUFFER: u32 = 0x2000;

/// The bytes of storage.
pub(crate) const SIZE: u32 = 65536;

/// How often a program is asked for units before it is given up.
pub(crate) const MOST_CALLS: u32 = 1_000_000;

/// A storage and a drive, at which channel programs run.
pub(crate) trait Machine {
    /// Stores bytes from an address on.
    fn store(&mut self, at: u32, bytes: &[u8]);

    /// Runs a program to its end.
    fn run(&mut self, program: &Program);

    /// What the programs came to so far.
    fn tally(&self) -> ProgramTally;
}

/// A channel command word: a command's code, the address of its bytes, flags, and how many bytes.
struct Word(u8, u32, u8, u16);

/// A channel program in storage, with how many channel command words are fetched in a run of it, and how many bytes pass.
#[derive(Clone, Copy)]
pub(crate) struct Program {
    next: u32,
    ccws: u64,
    bytes: u64,
}

impl Program {
    const EMPTY: Program = Program {
        next: FIRST,
        ccws: 0,
        bytes: 0,
    };

    /// How many channel command words are fetched.
    pub(crate) fn ccws(&self) -> u64 {
        self.ccws
    }

    /// How many bytes pass.
    pub(crate) fn bytes(&self) -> u64 {
        self.bytes
    }

    /// The channel address word.
    pub(crate) fn caw(&self) -> u32 {
        FIRST
    }

    /// Whether a program that ended so did all that it has to: the last word was fetched, nothing of its count is left, and
    /// nothing but channel end and device end is reported.
    pub(crate) fn ends_with(&self, csw: Csw) -> bool {
        csw.address == self.next
            && csw.count == 0
            && csw.unit == UnitStatus(0x0C)
            && csw.channel.0 == 0
    }

    // Stores the next word.
    fn put<M: Machine>(&mut self, machine: &mut M, word: Word) {
        let Word(code, address, flags, count) = word;
        let [_, a, b, c] = address.to_be_bytes();
        let [high, low] = count.to_be_bytes();
        machine.store(self.next, &[code, a, b, c, flags, 0, high, low]);
        self.next = self.next.saturating_add(8);
    }

    // Stores the next word, which is fetched once.
    fn word<M: Machine>(&mut self, machine: &mut M, word: Word) {
        self.ccws = self.ccws.saturating_add(1);
        self.bytes = self.bytes.saturating_add(u64::from(word.3));
        self.put(machine, word);
    }

    fn seek<M: Machine>(&mut self, machine: &mut M) {
        self.word(machine, Word(SEEK, SEEK_ADDRESS, COMMAND_CHAINING, 6));
    }

    // A search that is satisfied at once, and passes over the transfer behind it.
    fn search<M: Machine>(&mut self, machine: &mut M, code: u8, count: u16) {
        let at = self.next;
        self.word(machine, Word(code, SEARCHED, COMMAND_CHAINING, count));
        self.put(machine, Word(TRANSFER_IN_CHANNEL, at, 0, 0));
    }

    // A search of record 1 from the index on: record 0 is another, and the next is found.
    fn find_first<M: Machine>(&mut self, machine: &mut M) {
        self.search(machine, SEARCH_ID, 5);
        self.ccws = self.ccws.saturating_add(2);
        self.bytes = self.bytes.saturating_add(5);
    }

    // So many of the same command, which end the program.
    fn last<M: Machine>(&mut self, machine: &mut M, times: u16, code: u8, count: u16) {
        for left in (0..times).rev() {
            let flags = if left == 0 { 0 } else { COMMAND_CHAINING };
            self.word(machine, Word(code, BUFFER, flags, count));
        }
    }

    // New records behind R0: the count area of each is chained to its data.
    fn format<M: Machine>(&mut self, machine: &mut M) {
        let mut count_area = COUNTS;
        for left in (0..RECORDS).rev() {
            let flags = if left == 0 { 0 } else { COMMAND_CHAINING };
            self.word(
                machine,
                Word(WRITE_COUNT_KEY_AND_DATA, count_area, DATA_CHAINING, 8),
            );
            self.word(machine, Word(0, BUFFER, flags, DATA as u16));
            count_area = count_area.saturating_add(8);
        }
    }
}

impl Work {
    // The work's program, which is stored.
    fn program<M: Machine>(self, machine: &mut M) -> Program {
        let mut program = Program::EMPTY;
        let records = RECORDS as u16;
        program.seek(machine);
        match self {
            Work::ReadWhole => {
                program.last(machine, records, READ_COUNT_KEY_AND_DATA, 8 + DATA as u16);
            }
            Work::ReadCylinder => {
                program.last(machine, HEADS * records, READ_DATA_MULTI_TRACK, DATA as u16);
            }
            Work::ReadLong => {
                program.find_first(machine);
                program.last(machine, 1, READ_DATA, LONG_DATA as u16);
            }
            Work::ReadFromHomeAddress => {
                program.search(machine, SEARCH_HOME_ADDRESS, 4);
                program.word(machine, Word(READ_R0, BUFFER, COMMAND_CHAINING, 16));
                program.last(machine, records, READ_DATA, DATA as u16);
            }
            Work::Update => {
                program.find_first(machine);
                program.last(machine, 1, WRITE_DATA, DATA as u16);
            }
            Work::Format => {
                program.search(machine, SEARCH_ID, 5);
                program.format(machine);
            }
            _ => {
                program.find_first(machine);
                program.last(machine, records, READ_DATA, DATA as u16);
            }
        }
        program
    }

    // The record that the work searches for.
    fn searched(self) -> u8 {
        if self == Work::Format { 0 } else { 1 }
    }

    /// Does the work once by channel programs.
    pub(crate) fn run_programs<M: Machine>(self, machine: &mut M, cylinders: u16) {
        let program = self.program(machine);
        let heads = if self == Work::ReadCylinder { 1 } else { HEADS };
        for cylinder in 0..cylinders {
            for head in 0..heads {
                self.put_operands(machine, cylinder, head);
                machine.run(&program);
            }
        }
    }

    // Stores what the program names of the track.
    fn put_operands<M: Machine>(self, machine: &mut M, cylinder: u16, head: u16) {
        let [c0, c1] = cylinder.to_be_bytes();
        let [h0, h1] = head.to_be_bytes();
        machine.store(SEEK_ADDRESS, &[0, 0, c0, c1, h0, h1, self.searched()]);
        if self == Work::Format {
            put_count_areas(machine, [c0, c1, h0, h1]);
        }
    }
}

// Stores the count areas of the records of a track.
fn put_count_areas<M: Machine>(machine: &mut M, track: [u8; 4]) {
    let [c0, c1, h0, h1] = track;
    let [d0, d1] = (DATA as u16).to_be_bytes();
    let mut at = COUNTS;
    for record in 1..=RECORDS {
        machine.store(at, &[c0, c1, h0, h1, record, 0, d0, d1]);
        at = at.saturating_add(8);
    }
}

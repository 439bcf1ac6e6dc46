//! A trace of one channel between two looks, in plain numbers, for a program that keeps it itself. All zero it has seen nothing.

use crate::seen::{Stood, Went};
use crate::stored::Start;
use crate::trace::{Leave, Trace};
use s360_program::view::AtWork;
use trace_kept::{
    KeptArea, KeptBytes, KeptLine, KeptWord, NO_WORD, credit_of, device_of, number_of,
    number_of_credit, one_more,
};
use trace_words::Compared;

/// What a trace keeps.
#[repr(C)]
#[derive(Clone, Copy)]
pub struct KeptTrace {
    met: KeptArea,
    known: KeptArea,
    stood: KeptRegisters,
    leave: KeptLeave,
    /// The last word that was taken and has a count, and the drive of the last program: one more than each, or 0.
    counted: u64,
    device: u64,
    program: KeptProgram,
    line: KeptLine,
    passed: KeptBytes,
    start: KeptStart,
    reserved: u32,
}

impl Trace {
    /// The trace of which this was kept.
    pub fn of(kept: &KeptTrace) -> Trace {
        let mut trace = Trace::new(false);
        trace.program = kept.program.went();
        trace.registers = kept.stood.stood();
        trace.device = device_of(kept.device);
        trace.line = kept.line.line();
        trace.met = kept.met.met();
        trace.passed = kept.passed.passed();
        trace.known = kept.known.met();
        trace.leave = kept.leave.leave();
        trace.counted = number_of(kept.counted);
        trace.start = kept.start.start();
        trace
    }

    /// What is kept of it until the next look: all but its lines.
    pub fn kept(&self) -> KeptTrace {
        KeptTrace {
            met: KeptArea::of(self.met),
            known: KeptArea::of(self.known),
            stood: KeptRegisters::of(self.registers),
            leave: KeptLeave::of(self.leave),
            counted: one_more(self.counted),
            device: one_more(self.device.map(u32::from)),
            program: KeptProgram::of(self.program),
            line: KeptLine::of(self.line),
            passed: KeptBytes::of(&self.passed),
            start: KeptStart::of(&self.start),
            reserved: 0,
        }
    }
}

/// Where an arm stood, behind a 1; and the credit that was left, by a number: 0 none, 1 an equal home address, 2 an equal identifier, 3 an
/// equal key, 4 a home address that was written, 5 a record that was.
#[repr(C)]
#[derive(Clone, Copy)]
struct KeptRegisters {
    credited: u64,
    cylinder: u16,
    head: u16,
    credit: u8,
    is_known: u8,
    reserved: [u8; 2],
}

impl KeptRegisters {
    fn of(stood: Option<Stood>) -> KeptRegisters {
        let Some(stood) = stood else {
            return KeptRegisters {
                credited: 0,
                cylinder: 0,
                head: 0,
                credit: 0,
                is_known: 0,
                reserved: [0; 2],
            };
        };
        let (credit, credited) = number_of_credit(stood.credit);
        KeptRegisters {
            credited,
            cylinder: stood.cylinder,
            head: stood.head,
            credit,
            is_known: 1,
            reserved: [0; 2],
        }
    }

    fn stood(&self) -> Option<Stood> {
        if self.is_known == 0 {
            return None;
        }
        Some(Stood {
            cylinder: self.cylinder,
            head: self.head,
            credit: credit_of(self.credit, self.credited),
        })
    }
}

/// What a command left for a write, by a number: 0 nothing, 1 room, 2 a search that compared too few bytes; and one more than the number of
/// all its bytes, or 0 where that is not known.
#[repr(C)]
#[derive(Clone, Copy)]
struct KeptLeave {
    missed: u64,
    all: u64,
    number: u32,
    leave: u8,
    credit: u8,
    reserved: [u8; 2],
}

impl KeptLeave {
    fn of(leave: Leave) -> KeptLeave {
        let mut kept = KeptLeave {
            missed: 0,
            all: 0,
            number: 0,
            leave: 0,
            credit: 0,
            reserved: [0; 2],
        };
        match leave {
            Leave::Nothing => {}
            Leave::Room(room) => {
                kept.leave = 1;
                kept.number = room;
            }
            Leave::TooFew(credit, compared) => {
                let (credit, missed) = number_of_credit(Some(credit));
                kept.leave = 2;
                kept.credit = credit;
                kept.missed = missed;
                kept.number = compared.count;
                kept.all = one_more(compared.of);
            }
        }
        kept
    }

    fn leave(&self) -> Leave {
        match (self.leave, credit_of(self.credit, self.missed)) {
            (1, _) => Leave::Room(self.number),
            (2, Some(credit)) => {
                let compared = Compared {
                    count: self.number,
                    of: number_of(self.all),
                };
                Leave::TooFew(credit, compared)
            }
            _ => Leave::Nothing,
        }
    }
}

/// How far a program had come, by a number: 0 none ran, 1 it fetches, 2 it looks, 3 it moves bytes.
#[repr(C)]
#[derive(Clone, Copy)]
struct KeptProgram {
    last: u32,
    next: u32,
    place: u32,
    word: KeptWord,
    phase: u8,
    reserved: [u8; 3],
}

impl KeptProgram {
    fn of(went: Option<Went>) -> KeptProgram {
        let mut kept = KeptProgram {
            last: 0,
            next: 0,
            place: 0,
            word: NO_WORD,
            phase: 0,
            reserved: [0; 3],
        };
        if let Some(went) = went {
            kept.last = went.last;
            kept.next = went.next;
            kept.works(went.at_work);
        }
        kept
    }

    fn works(&mut self, at_work: AtWork) {
        match at_work {
            AtWork::Fetching => self.phase = 1,
            AtWork::Looking(word) => {
                self.phase = 2;
                self.word = KeptWord::of(word);
            }
            AtWork::Moving(word, place) => {
                self.phase = 3;
                self.word = KeptWord::of(word);
                self.place = place;
            }
        }
    }

    fn went(&self) -> Option<Went> {
        let at_work = match self.phase {
            1 => AtWork::Fetching,
            2 => AtWork::Looking(self.word.word()),
            3 => AtWork::Moving(self.word.word(), self.place),
            _ => return None,
        };
        Some(Went {
            last: self.last,
            next: self.next,
            at_work,
        })
    }
}

/// What a start found: the channel address word, and the first word behind a 1.
#[repr(C)]
#[derive(Clone, Copy)]
struct KeptStart {
    address_word: u32,
    word: KeptWord,
    is_known: u8,
    reserved: [u8; 3],
}

impl KeptStart {
    fn of(start: &Start) -> KeptStart {
        let (is_known, word) = match start.word {
            Some(word) => (1, KeptWord::of(word)),
            None => (0, NO_WORD),
        };
        KeptStart {
            address_word: start.address_word,
            word,
            is_known,
            reserved: [0; 3],
        }
    }

    fn start(&self) -> Start {
        Start {
            address_word: self.address_word,
            word: if self.is_known == 0 {
                None
            } else {
                Some(self.word.word())
            },
        }
    }
}

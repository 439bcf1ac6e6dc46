//! Decks: their lines, how they are read and written, and what they come to at the channel.

ghost use Rattle.s360_laws.specs.Answered.{AllAnswered};

use crate::channel::Disks;
use crate::deck_lines::{say_answers, say_events};
use crate::stage::{NO_CHANNEL, Stage};
use crate::streams::{DeckReader, Reads, Writes};
use crate::verbs::OfDeck;
use counted_io::Counted;
use s360_channel::drive;
use s360_deck::{DeckFault, RunFault, parse, run, run_counted, run_watched, serial};
use s360_laws::{Answer, Event};
use stage_files::{Line, MEMORY, Said, Word};
use std::alloc::{AllocError, Global};
use std::mem;
use trace_lines::{TracedLines, Tracer};

/// Adds to a deck, or says how it is read and written.
#[derive(Clone, Copy)]
pub(crate) enum Feeds {
    Line,
    Bytes,
    Reads,
    Writes,
    Flush,
}

/// What is told of a deck, and of its last run.
#[derive(Clone, Copy)]
pub(crate) enum Tells {
    Written,
    Calls,
    Parse,
    Events,
}

/// The ways to run a deck.
#[derive(Clone, Copy)]
pub(crate) enum Runs {
    Drive,
    Serial,
    Plain,
    Counted,
    Traced,
}

/// A deck, how its next run reads and writes, and what the last one wrote.
#[derive(Drop)]
pub(crate) struct Deck {
    text: Vec<u8>,
    reads: Reads,
    writes: Writes,
}

// What came of a run.
#[derive(Drop)]
struct Ran {
    result: Result<(), RunFault>,
    trace: Option<Vec<u8>>,
    reads: Reads,
    writes: Writes,
}

impl Deck {
    /// No lines, and streams that give and take all.
    pub(crate) fn new(alloc: Global) -> Deck {
        Deck {
            text: Vec::new(alloc),
            reads: Reads::ALL,
            writes: Writes::new(alloc),
        }
    }

    /// Forgets its lines.
    pub(crate) fn forget(&mut self) {
        self.text.clear();
    }

    // Adds to it, or keeps how the next run reads and writes.
    fn feed(&mut self, feeds: Feeds, line: &mut Line) {
        match feeds {
            Feeds::Line => {
                let text = line.text.strip_prefix("DECK LINE ").unwrap_or("");
                self.add(text.as_bytes(), b"\n", &mut line.said);
            }
            Feeds::Bytes => self.add(line.bytes.as_slice(), b"", &mut line.said),
            Feeds::Reads => {
                self.reads = Reads {
                    most: line.size(0),
                    fails_at: line.size(1),
                    count: 0,
                };
                line.said.ok();
            }
            Feeds::Writes => self.write_so(line),
            Feeds::Flush => {
                self.writes.flush_fails = true;
                line.said.ok();
            }
        }
    }

    // Adds a line, or bytes.
    fn add(&mut self, bytes: &[u8], end: &[u8], said: &mut Said) {
        let is_added = self.text.extend_from_slice(bytes).is_ok()
            && self.text.extend_from_slice(end).is_ok();
        if is_added {
            said.ok();
        } else {
            said.no(MEMORY);
        }
    }

    // How the next run writes.
    fn write_so(&mut self, line: &mut Line) {
        self.writes.takes_none = match line.word(2) {
            "FAILS" => false,
            "NONE" => true,
            _ => return line.said.no("no way to write: FAILS or NONE"),
        };
        self.writes.most = line.size(0);
        self.writes.room = line.size(1);
        line.said.ok();
    }

    // The writer of the next run.
    fn writer(&mut self, alloc: Global) -> Writes {
        let mut writes = mem::replace(&mut self.writes, Writes::new(alloc));
        writes.written.clear();
        writes.count = 0;
        writes
    }

    // Keeps what a run wrote, and how often it read and wrote; the next one reads and writes all again.
    fn keep(&mut self, alloc: Global, reads: Reads, writes: Writes) {
        self.text.clear();
        self.reads = Reads::ALL;
        self.reads.count = reads.count;
        self.writes = Writes::new(alloc);
        self.writes.count = writes.count;
        let Writes { written, .. } = writes;
        self.writes.written = written;
    }

    // How often the last run read and wrote.
    fn say_calls(&self, said: &mut Said) {
        said.answer(
            "CALLS reads",
            &[
                Word::Number(self.reads.count as u64),
                Word::Text("writes"),
                Word::Number(self.writes.count as u64),
            ],
        );
    }

    // What the deck spells: how many events, or which.
    fn say_parsed(&self, alloc: Global, shows_events: bool, said: &mut Said) {
        let events = match parse(alloc, self.text.as_slice()) {
            Ok(events) => events,
            Err(fault) => return said.refused(&fault),
        };
        if shows_events {
            said.put("EVENTS ");
            say_events(events.as_slice(), said);
        } else {
            said.answer("PARSED", &[Word::Number(events.len() as u64)]);
        }
    }

    fn tell(&self, alloc: Global, tells: Tells, said: &mut Said) {
        match tells {
            Tells::Written => in_one_line("WRITTEN ", self.writes.written.as_slice(), said),
            Tells::Calls => self.say_calls(said),
            Tells::Parse => self.say_parsed(alloc, false, said),
            Tells::Events => self.say_parsed(alloc, true, said),
        }
    }
}

impl Stage {
    /// Does what a line of a deck asks.
    pub(crate) fn play(&mut self, alloc: Global, call: &OfDeck, line: &mut Line) {
        match call {
            OfDeck::Feeds(feeds) => self.deck.feed(*feeds, line),
            OfDeck::Tells(tells) => self.deck.tell(alloc, *tells, &mut line.said),
            OfDeck::Runs(Runs::Drive) => self.drive_deck(alloc, false, &mut line.said),
            OfDeck::Runs(Runs::Serial) => self.drive_deck(alloc, true, &mut line.said),
            OfDeck::Runs(runs) => self.run_deck(alloc, *runs, &mut line.said),
        }
    }

    // Drives the channel through the events of the deck, and answers their answers; and, if that is asked, their serial list.
    fn drive_deck(&mut self, alloc: Global, with_list: bool, said: &mut Said) {
        let Some(channel) = &mut self.channel else {
            return said.no(NO_CHANNEL);
        };
        let events = match parse(alloc, self.deck.text.as_slice()) {
            Ok(events) => events,
            Err(fault) => return said.refused(&fault),
        };
        let Ok(answers) = drive(alloc, channel, events.as_slice()) else {
            return said.put("REFUSED out of memory");
        };
        self.deck.text.clear();
        if with_list {
            say_serial(alloc, events.as_slice(), answers.as_slice(), said);
        } else {
            said.put("RAN ");
            say_answers(answers.as_slice(), said);
        }
    }

    // Runs the deck at the channel, in one of three ways.
    fn run_deck(&mut self, alloc: Global, runs: Runs, said: &mut Said) {
        let Some(channel) = &mut self.channel else {
            return said.no(NO_CHANNEL);
        };
        let writes = self.deck.writer(alloc);
        let reader = DeckReader {
            rest: self.deck.text.as_slice(),
            reads: self.deck.reads,
        };
        let ran = match runs {
            Runs::Counted => run_with_counts(alloc, channel, reader, writes),
            Runs::Traced => run_traced(alloc, channel, reader, writes),
            _ => run_plain(alloc, channel, reader, writes),
        };
        let Ran {
            result,
            trace,
            reads,
            writes,
        } = ran;
        self.deck.keep(alloc, reads, writes);
        match (result, trace) {
            (Err(fault), _) => said.refused(&fault),
            (Ok(()), Some(trace)) => in_one_line("TRACE ", trace.as_slice(), said),
            (Ok(()), None) => in_one_line("RAN ", self.deck.writes.written.as_slice(), said),
        }
    }
}

fn run_plain(alloc: Global, channel: &mut Disks, reader: DeckReader, writes: Writes) -> Ran {
    let (mut reader, mut writes) = (reader, writes);
    Ran {
        result: run(alloc, &mut reader, &mut writes, channel),
        trace: None,
        reads: reader.reads,
        writes,
    }
}

fn run_with_counts(alloc: Global, channel: &mut Disks, reader: DeckReader, writes: Writes) -> Ran {
    let (mut reader, mut writes) = (Counted::new(reader), Counted::new(writes));
    let result = run_counted(alloc, &mut reader, &mut writes, channel);
    Ran {
        result,
        trace: None,
        reads: reader.into_inner().reads,
        writes: writes.into_inner(),
    }
}

fn run_traced(alloc: Global, channel: &mut Disks, reader: DeckReader, writes: Writes) -> Ran {
    let Ok(mut tracer) = Tracer::new(alloc, Vec::new(alloc), TracedLines::ALL) else {
        return Ran {
            result: Err(RunFault::Deck(DeckFault::OutOfMemory)),
            trace: None,
            reads: reader.reads,
            writes,
        };
    };
    let (mut reader, mut writes) = (Counted::new(reader), Counted::new(writes));
    let result = run_watched(alloc, &mut reader, &mut writes, channel, &mut tracer);
    Ran {
        result,
        trace: tracer.into_writer().ok(),
        reads: reader.into_inner().reads,
        writes: writes.into_inner(),
    }
}

// Answers, and their serial list.
fn say_serial(alloc: Global, events: &[Event], answers: &[Answer], said: &mut Said)
    requires { AllAnswered events.now answers.now }
{
    let Ok(list) = list_of(alloc, events, answers) else {
        return said.put("REFUSED out of memory");
    };
    said.put("SERIAL ");
    say_answers(answers, said);
    said.put(" = ");
    say_events(list.as_slice(), said);
}

// The serial list of events and of what a channel answered to them.
#[tactic(auto, using(crate::proofs::Fit::all_fit))]
fn list_of(alloc: Global, events: &[Event], answers: &[Answer]) -> Result<Vec<Event>, AllocError>
    requires { AllAnswered events.now answers.now }
{
    serial(alloc, events, answers)
}

// A text in one line, behind a word.
fn in_one_line(word: &str, bytes: &[u8], said: &mut Said) {
    said.put(word);
    said.shown(bytes);
}

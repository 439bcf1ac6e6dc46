//! What a trace tells of units and events, by what is seen between them.

ghost use Rattle.std.specs.Prelude.{◌++◌, Some, codes};
ghost use Rattle.s360_deck.specs.Lines.{answer_text};

use crate::seen::{Seen, Shown, Stood, Went, Work};
use crate::stored::{Start, Stored, last_word};
use ckd_command::Credit;
use ckd_position::Area;
use s360_channel::DriveView;
use s360_deck::AnswerLine;
use s360_laws::{Answer, Condition, Event};
use s360_program::view::{AtWork, ProgramView};
use s360_storage::MainStorage;
use s360_trace::Moment;
use s360_words::Ccw;
use std::fmt;
use trace_words::{
    Behind, CHAINED, Compared, EventLine, Met, Onward, Passed, Remark, SKIPS, Text, ToldLine,
    TraceLine, WorkedOn, count_in, just, worked_on_at_end, worked_on_so_far,
};

/// A trace of one channel: what was seen of it, and the lines that tell of the last look.
#[derive(Clone, Copy)]
pub struct Trace {
    /// Whether each answer is told as a deck prints it.
    with_answers: bool,
    pub(crate) text: Text,
    /// Whether a start is told in it, and whether that a program fails.
    pub(crate) starts: bool,
    pub(crate) fails: bool,
    /// What was seen last of the program, and the drive's registers then.
    pub(crate) program: Option<Went>,
    pub(crate) registers: Option<Stood>,
    /// The drive of the last program.
    pub(crate) device: Option<u8>,
    /// The word at work.
    pub(crate) line: Option<TraceLine>,
    /// What its command has met, and what has passed in it.
    pub(crate) met: Option<Met>,
    pub(crate) passed: Passed,
    /// The last record of the track whose count area was seen.
    pub(crate) known: Option<Met>,
    /// What the command before left for a write.
    pub(crate) leave: Leave,
    /// The last word that was taken and has a count.
    pub(crate) counted: Option<u32>,
    /// What a start found in storage, before it stored anything there.
    pub(crate) start: Start,
}

/// What a command leaves for the write that may stand right behind it.
#[derive(Clone, Copy)]
pub(crate) enum Leave {
    /// Nothing that is known.
    Nothing,
    /// So much of the track behind the record that it found or made.
    Room(u32),
    /// Not this credit: a search compared so many bytes, and not all.
    TooFew(Credit, Compared),
}

impl Trace {
    /// Nothing was seen.
    pub(crate) fn new(with_answers: bool) -> Trace {
        Trace {
            with_answers,
            text: Text::new(),
            starts: false,
            fails: false,
            program: None,
            registers: None,
            device: None,
            line: None,
            met: None,
            passed: Passed::NONE,
            known: None,
            leave: Leave::Nothing,
            counted: None,
            start: Start {
                address_word: 0,
                word: None,
            },
        }
    }

    /// The drive of which a look at this moment wants to see what is known: the low byte of its address.
    pub fn wants(&self, moment: Moment, shown: &Shown) -> Option<u8> {
        shown.of_drive(moment, self.device).0
    }

    /// Looks at a moment at what a channel shows, at the drive that is wanted, and at main storage. What is seen is kept, to be compared
    /// with what is seen next.
    pub fn look<M: MainStorage>(
        &mut self,
        moment: Moment,
        shown: &Shown,
        drive: Option<DriveView>,
        storage: &M,
    ) {
        let (device, ended) = shown.of_drive(moment, self.device);
        let program = shown.running();
        let last = last_word(program, ended);
        let seen = Seen {
            storage: Stored::of(storage, moment, self.program, last),
            program,
            work: shown.work,
            ended,
            device,
            drive,
        };
        self.see(moment, &seen);
    }

    // What is seen at a moment.
    fn see(&mut self, moment: Moment, seen: &Seen) {
        self.starts = false;
        self.fails = false;
        match moment {
            Moment::Before(_) => self.before(seen),
            Moment::Unit => self.unit(seen),
            Moment::Behind(event, answer) => self.behind(event, answer, seen),
        }
        self.program = Went::of(seen.program);
        self.device = seen.device;
        self.registers = match &seen.work {
            Some(work) => Some(work.registers),
            None => None,
        };
    }

    // An event is about to happen.
    fn before(&mut self, seen: &Seen) {
        if let Some(start) = seen.storage.start {
            self.start = start;
        }
    }

    // What is behind an event.
    fn behind(&mut self, event: &Event, answer: &Answer, seen: &Seen) {
        if matches!(event, Event::Hio(_) | Event::Reset) {
            self.cut(matches!(answer, Answer::Reset(Some(_))), seen);
        }
        if self.with_answers {
            self.text.line(&PrintedAnswer(answer));
        }
        if matches!(
            event,
            Event::Store(_, _) | Event::Key(_, _) | Event::Show(_, _)
        ) {
            return;
        }
        self.text.line(&EventLine {
            answer,
            counted: self.counted,
        });
        if let Answer::Sio(_, condition) = answer {
            self.starts = !matches!(condition, Condition::Two);
            self.fails = matches!(condition, Condition::Three);
            self.started(condition, seen);
        }
    }

    // A unit of the program has been done.
    fn unit(&mut self, seen: &Seen) {
        match (self.program, seen.program) {
            (Some(before), Some(now)) => {
                if let Some(work) = &seen.work {
                    self.see_area(work);
                }
                self.goes_on(before, now, seen);
            }
            (Some(before), None) => self.ends(before, seen),
            _ => {}
        }
    }

    // Keeps the area at which the command works or where it has ended, with its record's count area where that is seen. Behind
    // a record that it made a command is still at the one that it met. A record is known no more, where the track under the arm is another.
    fn see_area(&mut self, work: &Work) {
        if self.is_elsewhere(&work.registers) {
            self.known = None;
        }
        let Some(area) = work.area else {
            return;
        };
        let seen = Met {
            area,
            count: self.count_of(area, work.slot),
        };
        self.known = Some(seen);
        let is_met = match self.met {
            Some(met) => are_of_one_record(met.area, area),
            None => false,
        };
        if is_met || work.is_open {
            self.met = Some(seen);
        }
    }

    fn is_elsewhere(&self, now: &Stood) -> bool {
        match &self.registers {
            Some(before) => now.cylinder != before.cylinder || now.head != before.head,
            None => false,
        }
    }

    // The count area of an area's record, as far as it was seen or is seen now.
    fn count_of(&self, area: Area, slot: Option<&[u8]>) -> Option<[u8; 8]> {
        if let Some(known) = self.known {
            if are_of_one_record(known.area, area) && known.count.is_some() {
                return known.count;
            }
        }
        count_in(slot?, area)
    }

    // A unit behind which the program goes on.
    fn goes_on(&mut self, before: Went, now: ProgramView, seen: &Seen) {
        match (before.at_work, now.at_work) {
            (AtWork::Fetching, _) => {
                self.tell_used_credit(seen);
                self.begins(now, seen);
            }
            (_, AtWork::Fetching) => self.closes(now.next != before.next, seen),
            (_, AtWork::Looking(_)) => self.tell_turn(seen),
            (_, AtWork::Moving(ccw, _)) if now.last != before.last => {
                self.chains(now.last, ccw, seen);
            }
            (_, AtWork::Moving(_, _)) => self.moves(seen.storage.byte),
        }
    }

    // A byte moves: to or from the next address of a word at work, or the first of one that has just found its area.
    fn moves(&mut self, byte: Option<u8>) {
        self.passed.passes(byte);
        if let Some(line) = &mut self.line {
            line.moves(byte);
        }
    }

    // The next word is fetched for a further area, or is a transfer in channel to that.
    fn chains(&mut self, at: u32, ccw: Ccw, seen: &Seen) {
        let Some(line) = self.line else {
            return;
        };
        self.tell_chaining(&line);
        match seen.storage.last {
            Some(word) if word.is_transfer() => {
                self.tell_word(
                    TraceLine::of(at, word),
                    WorkedOn::Nothing,
                    just(Onward::Untold),
                );
                if let Some(line) = &mut self.line {
                    line.is_told = true;
                }
            }
            _ => {
                self.line = Some(line.chained(at, ccw));
                self.counted = Some(at);
                self.tell_asked(ccw);
            }
        }
    }

    /// The lines of the last look, or of the end.
    pub fn told(&self) -> &Text {
        &self.text
    }

    /// The line of a word that is still at work, if there is one, at the trace's end.
    pub fn still_runs(&mut self) {
        self.starts = false;
        self.fails = false;
        if let Some(line) = self.line {
            self.tell_so_far(&line, Onward::StillRuns);
        }
    }

    /// Tells the line of a word that chains data.
    pub(crate) fn tell_chaining(&mut self, line: &TraceLine) {
        self.tell_so_far(line, Onward::ChainsData);
    }

    /// Tells the line of a word that is not over, unless it is told already.
    pub(crate) fn tell_so_far(&mut self, line: &TraceLine, onward: Onward) {
        if !line.is_told {
            self.tell_word(*line, worked_on_so_far(line, self.met), just(onward));
        }
    }

    /// Tells a word, what its command worked on, and what comes behind it.
    pub(crate) fn tell_word(&mut self, line: TraceLine, worked_on: WorkedOn, behind: Behind) {
        self.text.line(&ToldLine {
            line,
            worked_on,
            behind,
        });
    }

    // A command is over, and the program goes on; whether a word is skipped.
    fn closes(&mut self, skips: bool, seen: &Seen) {
        let (Some(line), Some(work)) = (self.line, &seen.work) else {
            return;
        };
        let place = Some((work.registers.cylinder, work.registers.head));
        let came = worked_on_at_end(&line, self.met, &self.passed, skips, place);
        self.tell_word(line, came, if skips { SKIPS } else { CHAINED });
        self.tell_key_met(&line, work);
        self.tell_filled(&line);
        self.leaves(&line, skips, seen);
        self.forget_command();
    }

    /// No command is at work.
    pub(crate) fn forget_command(&mut self) {
        self.line = None;
        self.met = None;
        self.passed = Passed::NONE;
    }

    /// A word that asks for an interruption.
    pub(crate) fn tell_asked(&mut self, ccw: Ccw) {
        if ccw.interrupts() {
            self.text.line(&Remark::AsksForInterruption);
        }
    }

    // A look has found no area behind the position: the index passes, or the next head is taken.
    fn tell_turn(&mut self, seen: &Seen) {
        let (Some(before), Some(work)) = (self.registers, &seen.work) else {
            return;
        };
        if work.registers.head == before.head {
            self.passed.has_turned = true;
            return self.text.line(&Remark::IndexPasses);
        }
        self.text.line(&Remark::NextHead(work.registers.head));
    }
}

// An answer as a deck prints it, in a trace with answers.
#[derive(Clone, Copy)]
struct PrintedAnswer<'a>(&'a Answer);

impl fmt::Display for PrintedAnswer<'_> {
    ghost output = { λ a. Some (codes "= " ++ answer_text a.0.now) };

    fn fmt<W: fmt::Write>(&self, f: &mut fmt::Formatter<W>) -> fmt::Result {
        write!(f, "= {}", AnswerLine(self.0))
    }
}

// Whether two areas are of one record.
fn are_of_one_record(one: Area, other: Area) -> bool {
    match (one, other) {
        (Area::HomeAddress, Area::HomeAddress) => true,
        (Area::Of(_, number), Area::Of(_, other)) => number == other,
        _ => false,
    }
}

//! The line of one channel command word.

ghost use Rattle.std.specs.Prelude.{◌≡◌, Some, OnOk};
ghost use Rattle.std.specs.Fmt.{WritesOnOk};
ghost use Rattle.trace_words.specs.Columns.{in_columns};
ghost use Rattle.trace_words.specs.Lines.{line_of, chained_line, name_text, gives_bytes, word_text, right_aligned, operand_text, moved_text, onward_text};
ghost use Rattle.trace_words.specs.Lines.{behind_columns, line_text, no_word_text, no_word_line, not_taken_line, not_taken_text};

use crate::columns::{Row, put_part};
use crate::numbers::{Bytes, StorageAddress};
use crate::worked_on::WorkedOn;
use ckd_sense::Command;
use s360_explain::{UnitNames, code_name};
use s360_words::{Ccw, UnitStatus};
use std::fmt;

/// The columns at which the parts of a line begin.
const AT_WORD: usize = 0;

const AT_COUNT: usize = 34;

const AT_BYTES: usize = 48;

const AT_MET: usize = 61;

const AT_STATUS: usize = 98;

const AT_CHAIN: usize = 107;

/// How many of the bytes that moved are shown.
const SHOWN: usize = 6;

/// What is known of a word at work.
#[derive(Clone, Copy)]
pub struct TraceLine {
    /// Where the word stands.
    pub at: u32,
    /// The word.
    pub ccw: Ccw,
    /// The code of its command, which stands in the first word of the command's.
    pub code: u8,
    /// Whether it has a further area of that command.
    pub is_chained: bool,
    /// How many bytes moved under it.
    pub moved: u32,
    /// The first of them.
    pub first: [u8; SHOWN],
    /// Whether it is written already.
    pub is_told: bool,
}

/// How a program goes on behind a word, or came to its end.
#[derive(Clone, Copy)]
pub enum Onward {
    /// It is not told.
    Untold,
    /// The next word begins a command.
    Chained,
    /// The word behind the next one begins a command.
    SkipsOne,
    /// The next word has a further area of the command.
    ChainsData,
    /// The program had not ended when the trace did.
    StillRuns,
    /// The word was not taken.
    NotTaken,
    /// The program is over, with this residual count.
    Ended(u16),
    /// A reset cut it.
    Cut,
    /// A halt cut it, with this residual count.
    Halted(u16),
}

/// What comes behind a word.
#[derive(Clone, Copy)]
pub struct Behind {
    /// The unit status; zero where there is none.
    pub unit: UnitStatus,
    /// How the program goes on, or came to its end.
    pub onward: Onward,
}

/// A word behind which nothing more is known than this.
pub fn just(onward: Onward) -> Behind {
    Behind {
        unit: UnitStatus(0),
        onward,
    }
}

/// Channel end and device end, and a chain of commands.
pub const CHAINED: Behind = Behind {
    unit: UnitStatus(0x0C),
    onward: Onward::Chained,
};

/// The same with status modifier, so that a word is skipped.
pub const SKIPS: Behind = Behind {
    unit: UnitStatus(0x4C),
    onward: Onward::SkipsOne,
};

/// A word, what its command worked on, and what comes behind it.
#[derive(Clone, Copy)]
pub struct ToldLine {
    /// The word.
    pub line: TraceLine,
    /// What its command worked on.
    pub worked_on: WorkedOn,
    /// What comes behind it.
    pub behind: Behind,
}

/// A word that was not taken, behind the line of the one before it where it was to have a further area.
#[derive(Clone, Copy)]
pub struct NotTaken {
    /// Where it was to stand.
    pub at: u32,
    /// What stands there, if a word can.
    pub word: Option<Ccw>,
    /// The word before it.
    pub before: Option<TraceLine>,
    /// The unit status.
    pub unit: UnitStatus,
}

impl TraceLine {
    /// The line of a word whose command begins.
    pub fn of(at: u32, ccw: Ccw) -> TraceLine
        ensures { result ≡ line_of at ccw }
    {
        TraceLine {
            at,
            ccw,
            code: ccw.code,
            is_chained: false,
            moved: 0,
            first: [0; SHOWN],
            is_told: false,
        }
    }

    /// The line of a word that has a further area of the same command.
    pub fn chained(&self, at: u32, ccw: Ccw) -> TraceLine
        ensures { result ≡ chained_line self.now at ccw }
    {
        let mut line = TraceLine::of(at, ccw);
        line.code = self.code;
        line.is_chained = true;
        line
    }

    /// A byte moved more; one that was skipped is not known.
    pub fn moves(&mut self, byte: Option<u8>) {
        if let (Some(slot), Some(byte)) = (self.first.get_mut(self.moved as usize), byte) {
            *slot = byte;
        }
        self.moved = self.moved.saturating_add(1);
    }

    /// The command of the word, if it is one of the drive's.
    pub fn command(&self) -> Option<Command> {
        Some(Command::decode(self.code)?.command)
    }

    // The name of what the word asks for.
    fn name(&self) -> &'static str
        ensures { result.now ≡ name_text self.now }
    {
        if self.is_chained && !self.ccw.is_transfer() {
            "  (data chaining)"
        } else {
            code_name(self.ccw.code)
        }
    }

    // Whether the command gives bytes.
    fn gives(&self) -> bool
        ensures { result ≡ gives_bytes self.now.code }
    {
        self.code & 0x03 == 0x02 || self.code & 0x0F == 0x04
    }
}

impl fmt::Display for ToldLine {
    ghost output = { λ l. Some (line_text l) };

    fn fmt<W: fmt::Write>(&self, f: &mut fmt::Formatter<W>) -> fmt::Result {
        let mut row = Row::new();
        put_part(&mut row, AT_WORD, &Word(&self.line))?;
        put_part(&mut row, AT_COUNT, &Operand(&self.line))?;
        put_part(&mut row, AT_BYTES, &Moved(&self.line))?;
        put_part(&mut row, AT_MET, &self.worked_on)?;
        put_behind(&mut row, &self.behind)?;
        f.write_str(row.as_str())
    }
}

impl fmt::Display for NotTaken {
    ghost output = { λ w. Some (not_taken_text w) };

    fn fmt<W: fmt::Write>(&self, f: &mut fmt::Formatter<W>) -> fmt::Result {
        let behind = Behind {
            unit: self.unit,
            onward: Onward::NotTaken,
        };
        let Some(ccw) = self.word else {
            return write_no_word(f, self.at, &behind);
        };
        let told = ToldLine {
            line: self.line(ccw),
            worked_on: WorkedOn::Nothing,
            behind,
        };
        write!(f, "{told}")
    }
}

impl NotTaken {
    // The line of the word that stands there.
    fn line(&self, ccw: Ccw) -> TraceLine
        ensures { result ≡ not_taken_line self.now.before self.now.at ccw }
    {
        match &self.before {
            Some(before) => before.chained(self.at, ccw),
            None => TraceLine::of(self.at, ccw),
        }
    }
}

// Writes the line of an address at which no word can stand.
fn write_no_word<W: fmt::Write>(f: &mut fmt::Formatter<W>, at: u32, behind: &Behind) -> fmt::Result
    ensures { WritesOnOk W.write_str_gives f.old result (no_word_line at behind.now) f.new }
{
    let mut row = Row::new();
    put_part(&mut row, AT_WORD, &NoWord(at))?;
    put_behind(&mut row, behind)?;
    f.write_str(row.as_str())
}

// What comes behind a word goes to its columns.
fn put_behind(row: &mut Row, behind: &Behind) -> fmt::Result
    ensures { OnOk result (row.new.bytes ≡ in_columns (behind_columns behind.now) row.old.bytes) }
{
    put_part(row, AT_STATUS, &UnitNames(behind.unit))?;
    put_part(row, AT_CHAIN, &behind.onward)
}

// Where a word stands, its code, and its name.
#[derive(Clone, Copy)]
struct Word<'a>(&'a TraceLine);

impl fmt::Display for Word<'_> {
    ghost output = { λ w. Some (word_text w.0.now) };

    fn fmt<W: fmt::Write>(&self, f: &mut fmt::Formatter<W>) -> fmt::Result {
        let at = StorageAddress(self.0.at);
        let code = [self.0.ccw.code];
        let code = Bytes(&code);
        let name = self.0.name();
        write!(f, "{at} {code} {name}")
    }
}

// An address at which no word can stand.
#[derive(Clone, Copy)]
struct NoWord(u32);

impl fmt::Display for NoWord {
    ghost output = { λ w. Some (no_word_text w.0) };

    fn fmt<W: fmt::Write>(&self, f: &mut fmt::Formatter<W>) -> fmt::Result {
        let at = StorageAddress(self.0);
        write!(f, "{at} (no word)")
    }
}

// The count of a word, and where its bytes come from or go; of a transfer in channel, where that goes.
#[derive(Clone, Copy)]
struct Operand<'a>(&'a TraceLine);

impl fmt::Display for Operand<'_> {
    ghost output = { λ o. Some (operand_text o.0.now) };

    fn fmt<W: fmt::Write>(&self, f: &mut fmt::Formatter<W>) -> fmt::Result {
        let address = StorageAddress(self.0.ccw.address);
        if self.0.ccw.is_transfer() {
            return write!(f, "      >{address}");
        }
        let count = Count(self.0.ccw.count);
        if self.0.gives() {
            write!(f, "{count} >{address}")
        } else {
            write!(f, "{count} <{address}")
        }
    }
}

// The count of a word, in five columns.
#[derive(Clone, Copy)]
struct Count(u16);

impl fmt::Display for Count {
    ghost output = { λ c. Some (right_aligned 5 c.0) };

    fn fmt<W: fmt::Write>(&self, f: &mut fmt::Formatter<W>) -> fmt::Result {
        let count = self.0;
        write!(f, "{count:>5}")
    }
}

// The first bytes that moved under a word.
#[derive(Clone, Copy)]
struct Moved<'a>(&'a TraceLine);

impl fmt::Display for Moved<'_> {
    ghost output = { λ m. Some (moved_text m.0.now) };

    fn fmt<W: fmt::Write>(&self, f: &mut fmt::Formatter<W>) -> fmt::Result {
        if self.0.moved == 0 {
            return Ok(());
        }
        if self.0.ccw.skips() && self.0.gives() {
            return f.write_str("skipped");
        }
        let shown = SHOWN.min(self.0.moved as usize);
        let bytes = Bytes(&self.0.first[..shown]);
        write!(f, "{bytes}")
    }
}

impl fmt::Display for Onward {
    ghost output = { λ o. Some (onward_text o) };

    fn fmt<W: fmt::Write>(&self, f: &mut fmt::Formatter<W>) -> fmt::Result {
        match self {
            Onward::Untold => Ok(()),
            Onward::Chained => f.write_str("chained"),
            Onward::SkipsOne => f.write_str("skips one"),
            Onward::ChainsData => f.write_str("chains data"),
            Onward::StillRuns => f.write_str("still runs"),
            Onward::NotTaken => f.write_str("not taken"),
            Onward::Ended(left) => write!(f, "left {left}"),
            Onward::Cut => f.write_str("cut"),
            Onward::Halted(left) => write!(f, "cut; left {left}"),
        }
    }
}

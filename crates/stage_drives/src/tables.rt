//! Words of the channel, and the tables of the manuals.

use crate::alone::Alone;
use crate::shown::say_ccw;
use bitflags::Flags;
use ckd_position::{Area, Compare, Kind, Position, RecordPart, next_area, verdict};
use ckd_sense::{Command, FileMask, Permit, Sense};
use ckd_track::read_slot;
use s360_explain::{Lines, of_ccw, of_csw, of_ending, of_sense, of_status};
use s360_words::{Caw, Ccw, Csw};
use stage_files::{Line, Said, WRONG, Word, yes};

/// Words of the channel, codes and masks.
#[derive(Clone, Copy)]
pub(crate) enum Words {
    Caw,
    Ccw,
    Csw,
    Decode,
    Mask,
}

impl Words {
    /// Says what one means.
    pub(crate) fn say(self, line: &mut Line) {
        match self {
            Words::Caw => say_caw(Caw::from_word(line.wide(0)), &mut line.said),
            Words::Ccw => say_flags(Ccw::from_bytes(line.digits(0)), &mut line.said),
            Words::Csw => say_csw(Csw::from_bytes(line.digits(0)), &mut line.said),
            Words::Decode => {
                let command = Command::decode(line.byte(0));
                line.said.put("DECODE");
                line.said.debug(&command);
            }
            Words::Mask => say_mask(line),
        }
    }
}

fn say_caw(caw: Option<Caw>, said: &mut Said) {
    match caw {
        Some(caw) => said.answer(
            "CAW",
            &[Word::Hex(caw.key as u64), Word::Hex(caw.address as u64)],
        ),
        None => said.put("CAW NONE"),
    }
}

// A channel command word, and what it asks for.
fn say_flags(ccw: Ccw, said: &mut Said) {
    said.put("CCW");
    say_ccw(ccw, said);
    for (is, name) in [
        (ccw.chains_data(), " CD"),
        (ccw.chains_command(), " CC"),
        (ccw.suppresses_length(), " SLI"),
        (ccw.skips(), " SKIP"),
        (ccw.interrupts(), " PCI"),
        (ccw.has_reserved_flags(), " RESERVED"),
        (ccw.is_transfer(), " TIC"),
    ] {
        if is {
            said.put(name);
        }
    }
}

fn say_csw(csw: Csw, said: &mut Said) {
    said.answer(
        "CSW",
        &[
            Word::Hex(csw.key as u64),
            Word::Hex(csw.address as u64),
            Word::Byte(csw.unit.0),
            Word::Byte(csw.channel.0),
            Word::Number(csw.count as u64),
        ],
    );
}

// Whether a mask lets a command begin, and whether heads may change.
fn say_mask(line: &mut Line) {
    let mask = FileMask::from_byte(line.byte(0));
    let Some(decoded) = Command::decode(line.byte(1)) else {
        return line.said.no("no such command");
    };
    let permit = match mask.permits(decoded.command) {
        Permit::Yes => "Yes",
        Permit::NoWrite => "NoWrite",
        Permit::NoSeek => "NoSeek",
    };
    line.said.answer(
        "MASK",
        &[
            Word::Text(permit),
            Word::Text("HEADS"),
            yes(mask.head_change()),
        ],
    );
}

/// Sense bytes, searches, explanations, and areas of the slot.
#[derive(Clone, Copy)]
pub(crate) enum Tables {
    Sense,
    Search,
    Explain,
    Next,
}

impl Alone {
    /// Says what one of the tables has.
    pub(crate) fn say_table(&self, tables: Tables, line: &mut Line) {
        match tables {
            Tables::Sense => say_sense(line),
            Tables::Search => say_search(line),
            Tables::Explain => explain(line),
            Tables::Next => say_next(self.slot.as_slice(), line),
        }
    }
}

/// The causes of sense bytes by their names.
static CAUSES: [(&str, Sense); 11] = [
    ("INVALID_COMMAND", Sense::INVALID_COMMAND),
    ("WRITE_NOT_ALLOWED", Sense::WRITE_NOT_ALLOWED),
    ("SEEK_NOT_ALLOWED", Sense::SEEK_NOT_ALLOWED),
    ("OUT_OF_SEQUENCE", Sense::OUT_OF_SEQUENCE),
    ("HEAD_CHANGE_NOT_ALLOWED", Sense::HEAD_CHANGE_NOT_ALLOWED),
    ("UNREADABLE_TRACK", Sense::UNREADABLE_TRACK),
    ("FIELD_CUT_SHORT", Sense::FIELD_CUT_SHORT),
    ("WRONG_HOME_ADDRESS", Sense::WRONG_HOME_ADDRESS),
    ("SEEK_ADDRESS_OUTSIDE", Sense::SEEK_ADDRESS_OUTSIDE),
    ("RECORD_DOES_NOT_FIT", Sense::RECORD_DOES_NOT_FIT),
    ("STORE_FAULT", Sense::STORE_FAULT),
];

// The sense bytes of a bit or a cause.
fn cause_of(name: &str) -> Option<Sense> {
    for (cause, sense) in &CAUSES {
        if *cause == name {
            return Some(*sense);
        }
    }
    Sense::from_name(name)
}

// The sense bytes of bits and causes by their names, joined.
fn say_sense(line: &mut Line) {
    let mut sense = Sense::ZERO;
    for name in line.words(0) {
        match cause_of(name) {
            Some(bit) => sense = sense.joined_with(bit),
            None => return line.said.no("no such sense bit or cause"),
        }
    }
    line.said
        .answer("SENSE", &[Word::Digits(&sense.to_bytes())]);
}

fn say_search(line: &mut Line) {
    let compare = match line.word(0) {
        "EQUAL" => Compare::Equal,
        "HIGH" => Compare::High,
        "EQUALORHIGH" => Compare::EqualOrHigh,
        _ => return line.said.no("no search: EQUAL, HIGH or EQUALORHIGH"),
    };
    let (area, comparand) = (line.first.as_slice(), line.bytes.as_slice());
    if comparand.len() > area.len() {
        return line.said.no("the comparand is longer than the area");
    }
    line.said
        .answer("SEARCH", &[yes(verdict(compare, area, comparand))]);
}

// The explanation of a number.
fn explain(line: &mut Line) {
    let lines = lines_of(line.word(0), line.bytes.as_slice());
    match lines {
        Some(lines) => say_lines(&lines, &mut line.said),
        None => line
            .said
            .no("no number of so many bytes: CSW, CCW or SENSE"),
    }
}

fn say_lines(lines: &Lines, said: &mut Said) {
    said.put("EXPLAIN ");
    for line in lines.as_slice() {
        said.display(line);
        said.put("|");
    }
}

fn lines_of(kind: &str, bytes: &[u8]) -> Option<Lines> {
    match (kind, bytes) {
        ("SENSE", bytes) => Some(of_sense(bytes)),
        ("CCW", [a, b, c, d, e, f, g, h]) => {
            Some(of_ccw(Ccw::from_bytes([*a, *b, *c, *d, *e, *f, *g, *h])))
        }
        ("CSW", bytes) => lines_of_csw(bytes),
        _ => None,
    }
}

// The lines of a channel status word, of its second half, or of its two statuses.
fn lines_of_csw(bytes: &[u8]) -> Option<Lines> {
    match bytes {
        [unit, channel] => {
            let csw = Csw::from_bytes([0, 0, 0, 0, *unit, *channel, 0, 0]);
            Some(of_status(csw.unit, csw.channel))
        }
        [unit, channel, high, low] => {
            let csw = Csw::from_bytes([0, 0, 0, 0, *unit, *channel, *high, *low]);
            Some(of_ending(csw.unit, csw.channel, csw.count))
        }
        [a, b, c, d, e, f, g, h] => {
            Some(of_csw(Csw::from_bytes([*a, *b, *c, *d, *e, *f, *g, *h])))
        }
        _ => None,
    }
}

// The next area of a kind in a slot, behind a position.
fn say_next(slot: &[u8], line: &mut Line) {
    let Ok(view) = read_slot(slot) else {
        return line.said.no("the slot is not read");
    };
    let (Some(kind), Some(position)) = (kind_of(line.word(0)), position_of(line.words(1))) else {
        return line.said.no(WRONG);
    };
    line.said.put("NEXT");
    line.said.debug(&next_area(&view, position, kind));
}

fn position_of(words: &[&str]) -> Option<Position> {
    match words {
        ["INDEX"] => Some(Position::AtIndex),
        ["HOME"] => Some(Position::At(Area::HomeAddress)),
        [part, record] => {
            let record = record.parse::<usize>().ok()?;
            Some(Position::At(Area::Of(part_of(part)?, record)))
        }
        _ => None,
    }
}

fn part_of(word: &str) -> Option<RecordPart> {
    match word {
        "COUNT" => Some(RecordPart::Count),
        "KEY" => Some(RecordPart::Key),
        "DATA" => Some(RecordPart::Data),
        _ => None,
    }
}

/// The kinds of areas by their names.
static KINDS: [(&str, Kind); 8] = [
    ("HomeAddress", Kind::HomeAddress),
    ("AnyCount", Kind::AnyCount),
    ("FirstCount", Kind::FirstCount),
    ("LaterCount", Kind::LaterCount),
    ("Key", Kind::Key),
    ("Data", Kind::Data),
    ("KeyAndData", Kind::KeyAndData),
    ("FirstData", Kind::FirstData),
];

fn kind_of(word: &str) -> Option<Kind> {
    for (name, kind) in &KINDS {
        if *name == word {
            return Some(*kind);
        }
    }
    None
}

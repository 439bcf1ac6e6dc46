//! What stands in a line of an answer or of a trace that somebody has pasted.

ghost use Rattle.std.specs.Prelude.{◌≡◌};
ghost use Rattle.s360_explain.specs.Lines.{pasted_lines};

use crate::bits::{Field, name_of, named_bits};
use crate::lines::{Lines, of_csw, of_sense, of_status, of_traced};
use crate::text::short_name;
use s360_words::{Ccw, CcwFlags, ChannelStatus, Csw, UnitStatus};

/// What a line has that can be said in words.
#[derive(Clone, Copy)]
pub enum Pasted {
    /// A channel status word, of an interruption or Test I/O.
    Status(Csw),
    /// Unit status and channel status, of Start I/O or Halt I/O.
    Stored(UnitStatus, ChannelStatus),
    /// Sense bytes 0 and 1 of a trace.
    Sense(u8, u8),
    /// A channel command word of a trace, with the unit status behind it.
    Word(Ccw, UnitStatus),
}

/// The lines that say it.
pub fn of_pasted(pasted: Pasted) -> Lines
    ensures { result.items ≡ pasted_lines pasted }
{
    match pasted {
        Pasted::Status(csw) => of_csw(csw),
        Pasted::Stored(unit, channel) => of_status(unit, channel),
        Pasted::Sense(first, second) => of_sense(&[first, second]),
        Pasted::Word(ccw, unit) => of_traced(ccw, unit),
    }
}

/// What a line of an answer or of a trace has that can be said in words, if it has anything: the status of an instruction or of an
/// interruption, as a deck prints it or as a trace names it; sense bytes; or a channel command word.
pub fn read_pasted(line: &str) -> Option<Pasted> {
    let line = line.trim().strip_prefix("= ").unwrap_or(line.trim());
    let (first, rest) = line.split_once(' ')?;
    match first {
        "INT" | "TIO" => {
            let named = named_in(rest);
            named.has_status.then_some(Pasted::Status(named.csw))
        }
        "SIO" | "HIO" => {
            let named = named_in(rest);
            let stored = Pasted::Stored(named.csw.unit, named.csw.channel);
            named.has_status.then_some(stored)
        }
        "sense" => read_sense(rest),
        _ => read_word(first, rest),
    }
}

// The status that was read of a line so far.
#[derive(Clone, Copy)]
struct Named {
    csw: Csw,
    /// Whether there is any.
    has_status: bool,
}

// The status in the words behind an instruction's name.
fn named_in(line: &str) -> Named {
    let mut named = Named {
        csw: Csw::from_bytes([0; 8]),
        has_status: false,
    };
    let mut before = "";
    for word in line.split_whitespace() {
        named.read(before, bare(word));
        before = bare(word);
    }
    named
}

impl Named {
    // One word more.
    fn read(&mut self, before: &str, word: &str) {
        if let Some(bit) = unit_bit(word) {
            self.has_status = true;
            self.csw.unit.0 |= bit;
        } else if let Some(bit) = channel_bit(before, word) {
            self.has_status = true;
            self.csw.channel.0 |= bit;
        } else if word == "none" && before == "stored" {
            self.has_status = true;
        } else {
            self.read_number(before, word);
        }
    }

    // A number: that of a trace behind its name, or a part of a channel status word.
    fn read_number(&mut self, before: &str, word: &str) {
        let number = hexadecimal(word);
        match (before, word.len(), number) {
            ("word", 6, Some(last)) => self.csw.address = last.wrapping_add(8) & 0x00FF_FFFF,
            ("count", _, _) => self.csw.count = word.parse::<u16>().unwrap_or(0),
            ("key", 1, Some(key)) => self.csw.key = (key % 16) as u8,
            ("1", 4, Some(status)) => self.read_half(status << 16),
            (_, 8, Some(half)) if before.len() == 8 && hexadecimal(before).is_some() => {
                self.read_half(half);
            }
            (_, 8, Some(half)) => {
                let [a, b, c, d] = half.to_be_bytes();
                self.csw = Csw::from_bytes([a, b, c, d, 0, 0, 0, 0]);
            }
            _ => {}
        }
    }

    // The second half of a channel status word, behind the first.
    fn read_half(&mut self, half: u32) {
        let [unit, channel, high, low] = half.to_be_bytes();
        let second = Csw::from_bytes([0, 0, 0, 0, unit, channel, high, low]);
        self.has_status = true;
        self.csw.unit = second.unit;
        self.csw.channel = second.channel;
        self.csw.count = second.count;
    }
}

// Sense bytes 0 and 1.
fn read_sense(rest: &str) -> Option<Pasted> {
    let word = bare(rest.split_whitespace().next()?);
    let number = hexadecimal(word)?;
    let [_, _, first, second] = number.to_be_bytes();
    (word.len() == 4).then_some(Pasted::Sense(first, second))
}

// A channel command word: where it stands, its code, its name, its count but of a Transfer In Channel, its data address, and at
// last the unit status behind it, if there is one.
fn read_word(at: &str, rest: &str) -> Option<Pasted> {
    let (code, rest) = rest.split_once(' ')?;
    let number = hexadecimal(code)?;
    if at.len() != 6 || hexadecimal(at).is_none() || code.len() != 2 {
        return None;
    }
    let (before, behind) = rest.split_once('<').or(rest.split_once('>'))?;
    let (address, behind) = behind.split_once(' ').unwrap_or((behind, ""));
    let count = before
        .trim()
        .rsplit_once(' ')
        .map_or("", |(_, count)| count);
    let ccw = Ccw {
        code: (number % 256) as u8,
        address: hexadecimal(address)?,
        flags: CcwFlags(0),
        count: count.parse::<u16>().unwrap_or(0),
    };
    Some(Pasted::Word(ccw, status_behind(behind)))
}

// The unit status behind a word; none where that is not over.
fn status_behind(line: &str) -> UnitStatus {
    let mut unit = 0;
    let line = line.trim();
    if line.ends_with("chains data") || line.ends_with("still runs") {
        return UnitStatus(0);
    }
    for word in line.split_whitespace() {
        if let Some(bit) = unit_bit(word) {
            unit |= bit;
        }
    }
    UnitStatus(unit)
}

// A word without the mark behind it.
fn bare(word: &str) -> &str {
    let word = word.strip_suffix(',').unwrap_or(word);
    let word = word.strip_suffix(';').unwrap_or(word);
    word.strip_suffix(':').unwrap_or(word)
}

// A number of hexadecimal digits.
fn hexadecimal(word: &str) -> Option<u32> {
    if word.starts_with('+') {
        return None;
    }
    u32::from_str_radix(word, 16).ok()
}

// The bit of unit status that has this short name.
fn unit_bit(name: &str) -> Option<u8> {
    for bit in named_bits(Field::UnitStatus) {
        if short_name(*bit) == name {
            return Some((*bit % 256) as u8);
        }
    }
    None
}

// The bit of channel status whose name is these two words.
fn channel_bit(first: &str, second: &str) -> Option<u8> {
    for bit in named_bits(Field::ChannelStatus) {
        if name_of(Field::ChannelStatus, *bit).split_once(' ') == Some((first, second)) {
            return Some((*bit % 256) as u8);
        }
    }
    None
}

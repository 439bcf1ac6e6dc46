//! A line: its verb, what its operands spell, and what is answered to it.

use crate::kinds::{Kind, Range};
use crate::said::{MEMORY, No, Said, WRONG};
use ckd_track::DriveModel;
use std::alloc::Global;

/// The most bytes that an operand may spell.
const MOST: usize = 0x4000_0000;

/// A verb: the word before its name, as `DRIVE`, empty where it has none; its name; what its operands are; and its call.
pub type Verb<C> = (&'static str, &'static str, &'static [Kind], C);

/// A line, and its answer.
#[derive(Drop)]
pub struct Line<'a> {
    /// The whole of it.
    pub text: &'a str,
    group: &'a str,
    name: &'a str,
    operands: &'a [&'a str],
    numbers: [u64; 5],
    /// The drive that an operand names; a 2311 where none does.
    pub model: DriveModel,
    /// What the last operand but one spells that is bytes.
    pub first: Vec<u8>,
    /// What the last operand spells that is bytes.
    pub bytes: Vec<u8>,
    /// What is answered.
    pub said: Said,
}

impl<'a> Line<'a> {
    /// A line of these words, of which no operand is read yet.
    pub fn new(alloc: Global, text: &'a str, words: &'a [&'a str]) -> Line<'a> {
        let (group, name, operands) = verb_of(words);
        Line {
            text,
            group,
            name,
            operands,
            numbers: [0; 5],
            model: DriveModel::D2311,
            first: Vec::new(alloc),
            bytes: Vec::new(alloc),
            said: Said::new(alloc),
        }
    }

    /// Reads its operands; whether they are of these kinds and there was memory for them, and else that is answered.
    pub fn read(&mut self, alloc: Global, kinds: &[Kind]) -> bool {
        if !takes(kinds, self) {
            self.said.no(WRONG);
            return false;
        }
        for (at, kind) in kinds.iter().enumerate() {
            if let Err(No(why)) = self.read_one(alloc, at, kind) {
                self.said.no(why);
                return false;
            }
        }
        true
    }

    fn read_one(&mut self, alloc: Global, at: usize, kind: &Kind) -> Result<(), No> {
        let word = self.word(at);
        match kind {
            Kind::Name | Kind::Names => Ok(()),
            Kind::Is(name) => right(*name == word, WRONG),
            Kind::Model => self.read_model(word),
            Kind::Bytes => self.read_bytes(alloc, word),
            Kind::Number(range) => self.read_number(at, range, word),
        }
    }

    fn read_model(&mut self, word: &str) -> Result<(), No> {
        self.model = match word {
            "2311" => DriveModel::D2311,
            "2314" => DriveModel::D2314,
            _ => return Err(No("no model: 2311 or 2314")),
        };
        Ok(())
    }

    fn read_number(&mut self, at: usize, range: &Range, word: &str) -> Result<(), No> {
        let number = match number_of(word, range.is_hexadecimal) {
            Some(number) if number <= range.most => number,
            None if range.takes_none && word == "-" => u64::MAX,
            _ => return Err(No(range.wrong)),
        };
        if let Some(slot) = self.numbers.get_mut(at) {
            *slot = number;
        }
        Ok(())
    }

    fn read_bytes(&mut self, alloc: Global, word: &str) -> Result<(), No> {
        let mut bytes = Vec::new(alloc);
        if word != "-" {
            for part in word.split('+') {
                append(alloc, &mut bytes, part)?;
            }
        }
        let before = std::mem::replace(&mut self.bytes, bytes);
        self.first = before;
        Ok(())
    }

    // The number that an operand spells; 0 where it spells none.
    fn number(&self, at: usize) -> u64 {
        match self.numbers.get(at) {
            Some(number) => *number,
            None => 0,
        }
    }

    /// The operand that stands there; an empty one where none does.
    pub fn word(&self, at: usize) -> &'a str {
        match self.operands.get(at) {
            Some(word) => *word,
            None => "",
        }
    }

    /// The operands from one on.
    pub fn words(&self, from: usize) -> &'a [&'a str] {
        self.operands.get(from..).unwrap_or(&[])
    }

    /// The byte that an operand spells.
    pub fn byte(&self, at: usize) -> u8 {
        (self.number(at) % 256) as u8
    }

    /// The two bytes that an operand spells.
    pub fn half(&self, at: usize) -> u16 {
        (self.number(at) % 65_536) as u16
    }

    /// The four bytes that an operand spells.
    pub fn wide(&self, at: usize) -> u32 {
        (self.number(at) % 4_294_967_296) as u32
    }

    /// The number that an operand spells.
    pub fn size(&self, at: usize) -> usize {
        self.number(at) as usize
    }

    /// The eight bytes that an operand spells.
    pub fn digits(&self, at: usize) -> [u8; 8] {
        self.number(at).to_be_bytes()
    }
}

// The group, the name and the operands.
fn verb_of<'a>(words: &'a [&'a str]) -> (&'a str, &'a str, &'a [&'a str]) {
    match words {
        [] => ("", "", &[]),
        [group, name, operands @ ..] if is_group(group) => (*group, *name, operands),
        [name, operands @ ..] => ("", *name, operands),
    }
}

fn is_group(word: &str) -> bool {
    matches!(word, "CHANNELS" | "DECK" | "DRIVE" | "PROGRAM" | "STORAGE")
}

fn number_of(word: &str, is_hexadecimal: bool) -> Option<u64> {
    if is_hexadecimal {
        u64::from_str_radix(word, 16).ok()
    } else {
        word.parse::<u64>().ok()
    }
}

fn right(is: bool, wrong: &'static str) -> Result<(), No> {
    if is { Ok(()) } else { Err(No(wrong)) }
}

// A part of bytes, as often as it says.
fn append(alloc: Global, bytes: &mut Vec<u8>, part: &str) -> Result<(), No> {
    let (digits, times) = part.split_once('*').unwrap_or((part, "1"));
    let Ok(part) = hex::decode(alloc, digits) else {
        return Err(No("no hexadecimal digits"));
    };
    let Ok(times) = times.parse::<usize>() else {
        return Err(No("no number"));
    };
    if part.len().saturating_mul(times) > MOST {
        return Err(No("too many bytes"));
    }
    repeat(bytes, part.as_slice(), times)
}

fn repeat(bytes: &mut Vec<u8>, part: &[u8], times: usize) -> Result<(), No> {
    for _ in 0..times {
        if bytes.extend_from_slice(part).is_err() {
            return Err(No(MEMORY));
        }
    }
    Ok(())
}

/// What the operands of a line are and its call, if one of these verbs has its name: of verbs that share a name the one that takes so
/// many operands.
pub fn find<'t, C>(verbs: &'t [Verb<C>], line: &Line) -> Option<(&'static [Kind], &'t C)> {
    let mut found = None;
    for (group, name, kinds, call) in verbs {
        if *name == line.name && *group == line.group {
            found = Some((*kinds, call));
            if takes(kinds, line) {
                return found;
            }
        }
    }
    found
}

// Whether a line has as many operands.
fn takes(kinds: &[Kind], line: &Line) -> bool {
    match kinds {
        [before @ .., Kind::Names] => line.operands.len() >= before.len(),
        kinds => line.operands.len() == kinds.len(),
    }
}

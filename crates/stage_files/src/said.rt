//! What the stage prints.

use std::alloc::{AllocError, Global};
use std::fmt::{Debug, Display, Write};

/// Why no call was made.
#[derive(Clone, Copy)]
pub struct No(pub &'static str);

impl From<AllocError> for No {
    fn from(_: AllocError) -> No {
        No(MEMORY)
    }
}

/// That the stage found no memory.
pub const MEMORY: &str = "out of memory";

/// That operands are not those of the verb.
pub const WRONG: &str = "wrong operands";

/// That bytes, or an address, are not within what they must be.
pub const OUTSIDE: &str = "OUTSIDE";

/// A word of an answer.
#[derive(Clone, Copy)]
pub enum Word<'a> {
    /// This.
    Text(&'a str),
    /// A number in decimal digits.
    Number(u64),
    /// A number in hexadecimal digits.
    Hex(u64),
    /// A byte in two digits.
    Byte(u8),
    /// An input/output address in three digits.
    Device(u16),
    /// Bytes, each in two digits.
    Digits(&'a [u8]),
    /// Bytes: each with how often it stands there, as in `00*2+C1*80`; or none, `-`.
    Spelled(&'a [u8]),
}

/// The line that answers a line.
#[derive(Drop)]
pub struct Said {
    text: String,
    is_whole: bool,
}

impl Said {
    /// Nothing yet.
    pub fn new(alloc: Global) -> Said {
        Said {
            text: String::new(alloc),
            is_whole: true,
        }
    }

    /// What is said.
    pub fn text(&self) -> &str {
        if self.is_whole {
            self.text.as_str()
        } else {
            "NO out of memory"
        }
    }

    /// This text.
    pub fn put(&mut self, text: &str) {
        self.is_whole = self.text.push_str(text).is_ok() && self.is_whole;
    }

    /// A word, and those behind it.
    pub fn answer(&mut self, name: &str, words: &[Word]) {
        self.put(name);
        self.words(words);
    }

    /// Words, with a blank before each.
    pub fn words(&mut self, words: &[Word]) {
        for word in words {
            self.put(" ");
            self.word(word);
        }
    }

    fn word(&mut self, word: &Word) {
        match word {
            Word::Text(text) => self.put(text),
            Word::Number(number) => self.number(*number),
            Word::Hex(number) => self.hex(*number),
            Word::Byte(byte) => self.byte(*byte),
            Word::Device(address) => self.device(*address),
            Word::Digits(bytes) => self.digits(bytes),
            Word::Spelled(bytes) => self.spell(bytes),
        }
    }

    fn number(&mut self, number: u64) {
        self.is_whole = write!(self.text, "{number}").is_ok() && self.is_whole;
    }

    fn hex(&mut self, number: u64) {
        self.is_whole = write!(self.text, "{number:X}").is_ok() && self.is_whole;
    }

    fn byte(&mut self, byte: u8) {
        self.is_whole = write!(self.text, "{byte:02X}").is_ok() && self.is_whole;
    }

    fn device(&mut self, address: u16) {
        self.is_whole = write!(self.text, "{address:03X}").is_ok() && self.is_whole;
    }

    fn digits(&mut self, bytes: &[u8]) {
        for byte in bytes {
            self.byte(*byte);
        }
    }

    fn spell(&mut self, bytes: &[u8]) {
        let (mut last, mut times) = (0u8, 0u64);
        let mut joint = "-";
        for byte in bytes {
            if times > 0 && *byte != last {
                self.run(joint, last, times);
                joint = "+";
                times = 0;
            }
            last = *byte;
            times = times.saturating_add(1);
        }
        self.run(joint, last, times);
    }

    // A byte that stands there so often, behind what joins it; with no byte that alone.
    fn run(&mut self, joint: &str, byte: u8, times: u64) {
        if joint == "+" || times == 0 {
            self.put(joint);
        }
        if times > 0 {
            self.byte(byte);
        }
        if times > 1 {
            self.put("*");
            self.number(times);
        }
    }

    /// A text in one line: each line feed is shown as a bar, and each byte that is no printable ASCII as a question mark.
    pub fn shown(&mut self, bytes: &[u8]) {
        for byte in bytes {
            self.is_whole = self.text.push(shown(*byte)).is_ok() && self.is_whole;
        }
    }

    /// A value, as it is printed.
    pub fn display<T: Display>(&mut self, value: &T) {
        self.is_whole = write!(self.text, "{value}").is_ok() && self.is_whole;
    }

    /// A value, as it is printed for whoever looks for a mistake.
    pub fn debug<T: Debug>(&mut self, value: &T) {
        self.is_whole = write!(self.text, " {value:?}").is_ok() && self.is_whole;
    }

    /// That no call was made, and why.
    pub fn no(&mut self, why: &str) {
        self.text.clear();
        self.put("NO ");
        self.put(why);
    }

    /// That a call came to what it was made for.
    pub fn ok(&mut self) {
        self.put("OK");
    }

    /// Whether bytes, or an address, are within what they must be.
    pub fn within(&mut self, is: bool) {
        self.put(if is { "OK" } else { OUTSIDE });
    }

    /// That a call was refused, in the words of its fault.
    pub fn refused<F: Display>(&mut self, fault: &F) {
        self.put("REFUSED ");
        self.display(fault);
    }
}

fn shown(byte: u8) -> char {
    match byte {
        b'\n' => '|',
        b' '..=b'~' => char::from(byte),
        _ => '?',
    }
}

/// Yes or no.
pub fn yes(is: bool) -> Word<'static> {
    Word::Text(if is { "YES" } else { "NO" })
}

//! What the one line of a fault, or a run that is done, leaves out.

use std::fmt;

/// How many bytes of a word are shown.
const SHOWN: usize = 32;

/// What is said of a deck or of a run.
#[derive(Clone, Copy)]
pub(crate) enum Remark<'a> {
    /// A deck has more bytes than it may have.
    LongDeck,
    /// The deck that is read can't be read on.
    NoDeck,
    /// A line has more bytes than it may have.
    LongLine(usize),
    /// The first word of a line names no event.
    NoEvent(usize, &'a str),
    /// What the operands of a line must be.
    Operand(usize, &'static str),
    /// The file of the trace is one of the run's others.
    Used(&'a str),
    /// A program still ran when the deck was done.
    StillRan(u8),
    /// A track was not saved: its drive, cylinder and head.
    Unsaved(u16, u16, u16),
}

impl fmt::Display for Remark<'_> {
    fn fmt<W: fmt::Write>(&self, f: &mut fmt::Formatter<W>) -> fmt::Result {
        match self {
            Remark::LongDeck => write!(f, "a deck has at most 1,048,576 bytes"),
            Remark::NoDeck => write!(f, "the deck can't be read"),
            Remark::LongLine(line) => write!(f, "line {line}: a line has at most 512 bytes"),
            Remark::NoEvent(line, word) => write!(f, "line {line}: {word} is no event"),
            Remark::Operand(line, rule) => write!(f, "line {line}: {rule}"),
            Remark::Used(path) => write!(f, "{path}: this run uses it already"),
            Remark::StillRan(device) => {
                write!(
                    f,
                    "{device:02X}: its program still ran at the end of the deck, and was cut"
                )
            }
            Remark::Unsaved(address, cylinder, head) => {
                write!(
                    f,
                    "{address:03X}: the track {cylinder:04X} {head:04X} was not saved"
                )
            }
        }
    }
}

/// The first word of a line of a text, the first of which is line 1; shortened where it is long, and empty where it is no text.
pub(crate) fn first_word(text: &[u8], line: usize) -> &str {
    let Some(bytes) = text
        .split(|byte| *byte == b'\n')
        .nth(line.saturating_sub(1))
    else {
        return "";
    };
    let word = std::str::from_utf8(bytes)
        .unwrap_or("")
        .split_ascii_whitespace()
        .next()
        .unwrap_or("");
    word.get(..SHOWN).unwrap_or(word)
}

//! The words of `dasd explain`: numbers that somebody has noted, in hexadecimal digits, and lines that somebody has pasted.

use crate::commands::wrong;
use crate::options::{ArgKind, ArgRow, CommandRow, WORDS};
use crate::requests::{Noted, Request, WordFault};
use arrayvec::ArrayVec;
use clap::ArgMatches;
use clap::builder::ValueParser;
use s360_explain::read_pasted;
use std::alloc::Global;

const NO_NUMBER: &str = "error: no number\n";

const CSW_RULE: &str =
    "error: csw takes 16 hexadecimal digits, or the 8 of its second half, or the 4 of its status; explain line takes a line\n";

const SENSE_RULE: &str = "error: sense takes 2 to 12 hexadecimal digits, an even number of them\n";

const CCW_RULE: &str = "error: ccw takes 16 hexadecimal digits\n";

const LINE_RULE: &str =
    "error: line takes a line with a status, sense bytes or a channel command word, of an answer or of a trace\n";

/// The numbers, as `dasd explain --help` shows them.
const NUMBER_TABLE: &str = "\
csw takes a channel status word of 16 digits, as INT and TIO of a deck answer it in two groups; its second half of 8
digits, which has status and residual count; or the 4 digits that SIO and HIO answer with CC 1. sense takes one to six
sense bytes, ccw a channel command word of 16 digits. Digits may stand in several words. line takes a line that SIO,
TIO, HIO or INT was answered with, or a line of a trace.

Example: dasd explain csw 00000428 0E000320
         dasd explain line 'INT 190 00000428 0E000320'";

/// The most bytes of a number.
const MOST_BYTES: usize = 8;

/// The command, with its words.
pub(crate) static COMMAND: CommandRow = CommandRow {
    name: "explain",
    about: "Says in words what status, sense bytes and command words mean",
    usage: None,
    after_help: NUMBER_TABLE,
    args: &[
        ArgRow {
            id: "NUMBER",
            help: "what the digits are",
            kind: ArgKind::Words(ValueParser::Names(&["csw", "sense", "ccw", "line"]), 1, 1),
        },
        ArgRow {
            id: "DIGITS",
            help: "hexadecimal digits, in one word or in several, or a line",
            kind: WORDS,
        },
    ],
};

/// What it is asked to say.
pub(crate) fn read<'a>(alloc: Global, options: &ArgMatches<'a>) -> Result<Request<'a>, WordFault> {
    let (Some(name), Some(words)) = (options.get_str("NUMBER"), options.get_strs("DIGITS")) else {
        return Err(wrong(alloc, NO_NUMBER));
    };
    if name == "line" {
        return read_line(alloc, words);
    }
    let rule = match name {
        "csw" => CSW_RULE,
        "sense" => SENSE_RULE,
        _ => CCW_RULE,
    };
    let noted = match read_bytes(words) {
        Some(bytes) => noted_as(name, bytes),
        None => None,
    };
    match noted {
        Some(noted) => Ok(Request::Explain(noted)),
        None => Err(wrong(alloc, rule)),
    }
}

// What stands in a line, whose words may be one word or several.
fn read_line<'a>(alloc: Global, words: &[&'a str]) -> Result<Request<'a>, WordFault> {
    let mut line = String::new(alloc);
    for word in words {
        line.push_str(word)?;
        line.push_str(" ")?;
    }
    match read_pasted(line.as_str()) {
        Some(pasted) => Ok(Request::Explain(Noted::Line(pasted))),
        None => Err(wrong(alloc, LINE_RULE)),
    }
}

// The number of a kind that these bytes are, if there are as many as it has.
fn noted_as(name: &str, bytes: ArrayVec<u8, MOST_BYTES>) -> Option<Noted> {
    match (name, bytes.as_slice()) {
        ("csw", [a, b, c, d, e, f, g, h]) => Some(Noted::Csw([*a, *b, *c, *d, *e, *f, *g, *h])),
        ("csw", [e, f, g, h]) => Some(Noted::Ending([*e, *f, *g, *h])),
        ("csw", [e, f]) => Some(Noted::Status([*e, *f])),
        ("ccw", [a, b, c, d, e, f, g, h]) => Some(Noted::Ccw([*a, *b, *c, *d, *e, *f, *g, *h])),
        ("sense", [_, ..]) if bytes.len() <= 6 => Some(Noted::Sense(bytes)),
        _ => None,
    }
}

// The bytes of these words' digits together; none where one is no digit, or there are too many, or an odd number of them.
fn read_bytes(words: &[&str]) -> Option<ArrayVec<u8, MOST_BYTES>> {
    let mut bytes = ArrayVec::new();
    let mut high = None;
    for word in words {
        for byte in word.bytes() {
            let digit = char::from(byte).to_digit(16)? as u8;
            match high {
                Some(first) => {
                    bytes.try_push(first << 4 | digit).ok()?;
                    high = None;
                }
                None => high = Some(digit),
            }
        }
    }
    if high.is_some() { None } else { Some(bytes) }
}

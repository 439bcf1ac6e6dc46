//! The words of channel programs in words: `dasd assemble` and `dasd disassemble`.

use crate::options::{ArgRow, CommandRow, OPTIONAL_WORD};
use crate::requests::Request;
use clap::ArgMatches;

/// `dasd assemble`.
pub(crate) static ASSEMBLE: CommandRow = CommandRow {
    name: "assemble",
    about: "Prints the deck of a channel program in words",
    usage: None,
    after_help: "Example: dasd assemble program.asm | dasd run 90=work.ckd",
    args: &[ArgRow {
        id: "FILE",
        help: "the text, with labels, mnemonics and constants; standard input where it is left out",
        kind: OPTIONAL_WORD,
    }],
};

/// `dasd disassemble`.
pub(crate) static DISASSEMBLE: CommandRow = CommandRow {
    name: "disassemble",
    about: "Prints a deck in words, which are assembled to the same events",
    usage: None,
    after_help: "Example: dasd disassemble deck.txt",
    args: &[ArgRow {
        id: "DECK",
        help: "the deck; standard input where it is left out",
        kind: OPTIONAL_WORD,
    }],
};

/// What `dasd assemble` is asked.
pub(crate) fn read_assemble<'a>(options: &ArgMatches<'a>) -> Request<'a> {
    Request::Assemble(options.get_str("FILE"))
}

/// What `dasd disassemble` is asked.
pub(crate) fn read_disassemble<'a>(options: &ArgMatches<'a>) -> Request<'a> {
    Request::Disassemble(options.get_str("DECK"))
}

//! The commands of `dasd`: each has a module of its own, for its options and for what they ask.

use crate::listings::read_printed;
use crate::options::{CommandRow, VERBOSE, command, with_arg};
use crate::requests::{Asked, Request, WordFault};
use crate::{
    archive, assembler, changes, explain, extract, format, hash, in_packs, list, loads, recover,
    run, vtoc,
};
use clap::error::ErrorKind;
use clap::{ArgMatches, Command, Error};
use std::alloc::{AllocError, Global};

pub(crate) const NO_PATH: &str = "error: no path\n";

/// What stands after the commands in the help.
const AFTER_HELP: &str = "Example: dasd run 90=new:2311:1 < deck.txt
Without words dasd runs a stored deck over a new volume, and reads nothing";

/// How many commands there are.
const COMMANDS: usize = 22;

// The row of a command by its place in the help: first those over volumes, then those that change one, those of places in
// packs, then those over decks. Each row is a
// static of its own: the proof of what names a static goes over all that it holds at once.
fn row_at(place: usize) -> Option<&'static CommandRow> {
    match place {
        0 => Some(&format::COMMAND),
        1 => Some(&list::COMMAND),
        2 => Some(&archive::CHECK),
        3 => Some(&archive::DUMP),
        4 => Some(&archive::COMPARE),
        5 => Some(&hash::COMMAND),
        6 => Some(&vtoc::COMMAND),
        7 => Some(&extract::COMMAND),
        8 => Some(&loads::COMMAND),
        9 => Some(&changes::RENAME),
        10 => Some(&changes::DELETE),
        11 => Some(&changes::RELABEL),
        12 => Some(&recover::COMMAND),
        13 => Some(&in_packs::LS),
        14 => Some(&in_packs::CAT),
        15 => Some(&in_packs::CP),
        16 => Some(&in_packs::MV),
        17 => Some(&in_packs::RM),
        18 => Some(&explain::COMMAND),
        19 => Some(&assembler::ASSEMBLE),
        20 => Some(&assembler::DISASSEMBLE),
        21 => Some(&run::COMMAND),
        _ => None,
    }
}

fn dasd_command<'a>(alloc: Global) -> Result<Command<'a>, AllocError> {
    let mut dasd = Command::new(alloc, "dasd")
        .about("Formats, lists and checks CKD_P370 disk images, and runs decks over them")
        .version("1.2.0")
        .after_help(AFTER_HELP)
        .subcommand_required(true);
    for place in 0..COMMANDS {
        if let Some(row) = row_at(place) {
            let command = command(alloc, row)?;
            dasd = dasd.subcommand(command)?;
        }
    }
    with_arg(alloc, dasd, &VERBOSE)
}

/// Reads the words of `dasd`, the first of which is the program's name.
///
/// # Errors
///
/// Wrong words, with the text that says so; a request for help or for the version, with that; a word of a volume that has
/// another form; or no memory.
pub fn read_words<'a>(alloc: Global, words: &'a [&'a str]) -> Result<Asked<'a>, WordFault> {
    let matches = match_words(alloc, words)?;
    let Some((name, options)) = matches.subcommand() else {
        return Err(wrong(alloc, NO_COMMAND));
    };
    Ok(Asked {
        request: read_request(alloc, name, options)?,
        is_verbose: options.get_flag("verbose") || matches.get_flag("verbose"),
    })
}

const NO_COMMAND: &str = "error: no command\n";

/// The words as the options of `dasd` and of its commands.
pub(crate) fn match_words<'a>(
    alloc: Global,
    words: &'a [&'a str],
) -> Result<ArgMatches<'a>, WordFault> {
    match dasd_command(alloc)?.try_get_matches_from(words) {
        Ok(matches) => Ok(matches),
        Err(error) => Err(told(alloc, &error)),
    }
}

// What the command of this name is asked.
fn read_request<'a>(
    alloc: Global,
    name: &str,
    options: &ArgMatches<'a>,
) -> Result<Request<'a>, WordFault> {
    match name {
        "format" => format::read(alloc, options),
        "list" => list::read(alloc, options),
        "check" => archive::read_check(alloc, options),
        "dump" => archive::read_dump(alloc, options),
        "compare" => archive::read_compare(alloc, options),
        "hash" => hash::read(alloc, options),
        "vtoc" => Ok(vtoc::read(options, read_printed(alloc, options)?)),
        "extract" => extract::read(alloc, options),
        "load" => loads::read(alloc, options),
        "rename" => changes::read_rename(alloc, options),
        "delete" => changes::read_delete(alloc, options),
        "relabel" => changes::read_relabel(alloc, options),
        "recover" => recover::read(alloc, options),
        "ls" => in_packs::read_ls(alloc, options),
        "cat" => in_packs::read_cat(alloc, options),
        "cp" => in_packs::read_cp(alloc, options),
        "mv" => in_packs::read_mv(alloc, options),
        "rm" => in_packs::read_rm(alloc, options),
        "explain" => explain::read(alloc, options),
        "assemble" => Ok(assembler::read_assemble(options)),
        "disassemble" => Ok(assembler::read_disassemble(options)),
        "run" => run::read(alloc, options),
        _ => Err(wrong(alloc, NO_COMMAND)),
    }
}

/// Words that are wrong, and the text that says so.
pub(crate) fn wrong(alloc: Global, text: &str) -> WordFault {
    match text.to_string(alloc) {
        Ok(text) => WordFault::Usage(text),
        Err(_) => WordFault::OutOfMemory,
    }
}

// What is said of words that are wrong, or that ask for help or for the version.
fn told(alloc: Global, error: &Error) -> WordFault {
    if error.kind() == ErrorKind::OutOfMemory {
        return WordFault::OutOfMemory;
    }
    let Ok(text) = format!(in alloc; "{error}") else {
        return WordFault::OutOfMemory;
    };
    match error.kind() {
        ErrorKind::DisplayVersion => WordFault::Version(text),
        ErrorKind::DisplayHelp => WordFault::Help(text),
        _ => WordFault::Usage(text),
    }
}

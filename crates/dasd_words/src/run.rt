//! The words of `dasd run`.

ghost use Rattle.std.specs.Prelude.{◌<◌, IfOk, IfSome};

use crate::decks::DECK_TABLE;
use crate::options::{ArgKind, ArgRow, CommandRow, FILE, Value, WORDS, not_taken};
use crate::requests::{AskedTrace, DeckRun, Request, TraceTarget, WordFault};
use crate::volumes::{Volume, add_volume, read_volume};
use clap::ArgMatches;
use clap::builder::ValueParser;
use std::alloc::Global;

/// What an option is without its word.
const STORAGE: &str = "65536";

const CHANNEL: &str = "1";

const STORAGE_RULE: &str = "a number of bytes from 4096 to 16777216, a multiple of 2048";

const CHANNEL_RULE: &str = "a number from 0 to 6";

const LAST_RULE: &str = "a number of lines from 1 to 100000";

/// The most lines of a trace of which only the last are written.
const MOST_LINES: u32 = 100_000;

/// The command, with its options.
pub(crate) static COMMAND: CommandRow = CommandRow {
    name: "run",
    about: "Runs a deck of channel instructions, and saves the images that it changed",
    usage: None,
    after_help: DECK_TABLE,
    args: &[
        ArgRow {
            id: "storage",
            help: "the size of main storage in bytes: 4096 to 16777216, a multiple of 2048",
            kind: ArgKind::Valued(Value {
                name: "N",
                default: &[STORAGE],
                ..FILE
            }),
        },
        ArgRow {
            id: "channel",
            help: "the number of the channel, 0 to 6",
            kind: ArgKind::Valued(Value {
                name: "N",
                default: &[CHANNEL],
                ..FILE
            }),
        },
        ArgRow {
            id: "deck",
            help: "the deck; standard input where there is none",
            kind: ArgKind::Valued(FILE),
        },
        ArgRow {
            id: "no-save",
            help: "leaves all files as they are: what the deck changes is not saved",
            kind: ArgKind::Flag,
        },
        ArgRow {
            id: "replace",
            help: "replaces each changed image by a new file instead of overwriting it",
            kind: ArgKind::FlagWithout(&["no-save"]),
        },
        ArgRow {
            id: "trace",
            help: "reports on standard error what each channel command word does",
            kind: ArgKind::Flag,
        },
        ArgRow {
            id: "trace-to",
            help: "as --trace, into a file, whose bytes are replaced",
            kind: ArgKind::Valued(Value {
                conflicts: &["trace"],
                ..FILE
            }),
        },
        ArgRow {
            id: "trace-only",
            help: "traces only starts whose programs fail",
            kind: ArgKind::Valued(Value {
                name: "WHICH",
                parser: ValueParser::Names(&["failing"]),
                ..FILE
            }),
        },
        ArgRow {
            id: "trace-last",
            help: "writes only the last N lines of the trace",
            kind: ArgKind::Valued(Value { name: "N", ..FILE }),
        },
        ArgRow {
            id: "trace-answers",
            help: "traces each answer too, as it is printed",
            kind: ArgKind::Flag,
        },
        ArgRow {
            id: "trace-whole",
            help: "writes repeated lines in full instead of counting them",
            kind: ArgKind::Flag,
        },
        ArgRow {
            id: "VOLUME",
            help: "a drive: UU=PATH, or UU=new:M:N for a new volume in memory",
            kind: WORDS,
        },
    ],
};

/// What it is asked to do.
pub(crate) fn read<'a>(alloc: Global, options: &ArgMatches<'a>) -> Result<Request<'a>, WordFault> {
    let Some(words) = options.get_strs("VOLUME") else {
        return Err(WordFault::BadVolume);
    };
    Ok(Request::Run(DeckRun {
        storage: read_storage(alloc, options)?,
        channel: read_channel(alloc, options)?,
        deck: options.get_str("deck"),
        saves: !options.get_flag("no-save"),
        in_place: !options.get_flag("replace"),
        trace: read_trace(alloc, options)?,
        volumes: read_volumes(alloc, words)?,
    }))
}

// The size of main storage, which may be none that there is.
fn read_storage(alloc: Global, options: &ArgMatches) -> Result<u32, WordFault> {
    let word = options.get_str("storage").unwrap_or(STORAGE);
    match word.parse::<u32>() {
        Ok(size) => Ok(size),
        Err(_) => Err(not_taken(alloc, "storage", STORAGE_RULE, word)),
    }
}

// The number of the channel, which may be none that there is.
fn read_channel(alloc: Global, options: &ArgMatches) -> Result<u8, WordFault> {
    let word = options.get_str("channel").unwrap_or(CHANNEL);
    match word.parse::<u8>() {
        Ok(number) => Ok(number),
        Err(_) => Err(not_taken(alloc, "channel", CHANNEL_RULE, word)),
    }
}

// How many lines of a trace are written, which are the last ones, if not all.
fn read_last(alloc: Global, options: &ArgMatches) -> Result<Option<u32>, WordFault>
    ensures { IfOk result (λ last. IfSome last (λ n. 0 < n)) }
{
    let Some(word) = options.get_str("trace-last") else {
        return Ok(None);
    };
    match word.parse::<u32>() {
        Ok(lines) if 1 <= lines && lines <= MOST_LINES => Ok(Some(lines)),
        _ => Err(not_taken(alloc, "trace-last", LAST_RULE, word)),
    }
}

// The trace, if one of its words is there; without a file it goes to standard error.
fn read_trace<'a>(
    alloc: Global,
    options: &ArgMatches<'a>,
) -> Result<Option<AskedTrace<'a>>, WordFault> {
    let failing_only = options.get_str("trace-only").is_some();
    let last = read_last(alloc, options)?;
    let with_answers = options.get_flag("trace-answers");
    let is_whole = options.get_flag("trace-whole");
    let target = match options.get_str("trace-to") {
        Some(path) => TraceTarget::File(path),
        None => TraceTarget::StandardError,
    };
    let is_asked = options.get_flag("trace")
        || matches!(target, TraceTarget::File(_))
        || failing_only
        || last.is_some()
        || with_answers
        || is_whole;
    Ok(is_asked.then_some(AskedTrace {
        target,
        failing_only,
        last,
        with_answers,
        is_whole,
    }))
}

/// The volumes of these words, in their order.
pub(crate) fn read_volumes<'a>(
    alloc: Global,
    words: &[&'a str],
) -> Result<Vec<Volume<'a>>, WordFault> {
    let mut volumes = Vec::new(alloc);
    for word in words {
        let (device, named) = read_volume(word).ok_or(WordFault::BadVolume)?;
        add_volume(&mut volumes, device, named)?;
    }
    Ok(volumes)
}

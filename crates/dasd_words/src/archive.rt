//! The words of what an archive asks: a strict check, a dump, and a comparison.

ghost use Rattle.std.specs.Prelude.{◌≤◌, IfSome};

use crate::commands::{NO_PATH, wrong};
use crate::listings::{self, PATHS, read_joined, read_paths};
use crate::options::{AS_FAR, ArgKind, ArgRow, CommandRow, JSON, WORD, WORDS};
use crate::requests::{
    ComparedVolumes, DumpedPart, Numbers, PrintedVolume, Request, StrictCheck, WordFault,
};
use clap::ArgMatches;
use std::alloc::Global;

const NO_NUMBERS: &str = "\
error: no cylinder and head after the paths, as 0 3, 0-2 3 1-4 or 0x14 0x3
Numbers are decimal, or hexadecimal after 0x, as places are printed; records have those from 0 to 255.
";

const STRICT_JSON: &str = "error: --json goes with --strict or --contents\n";

const STRICT_WARNINGS: &str = "error: --warnings goes with --strict\n";

const STRICT_FAR: &str = "error: --as-far-as-it-goes goes with --strict or --contents\n";

/// The name of the words of a dump.
const DUMP_WORDS: &str = "WORD";

/// All numbers of records, and the last of them.
const ALL_NUMBERS: &str = "0-255";

const LAST_RECORD: u16 = 255;

/// `dasd check`, with the words of a strict one and of one of data sets.
pub(crate) static CHECK: CommandRow = CommandRow {
    name: "check",
    about: "Lists the unreadable tracks of a volume",
    usage: None,
    after_help: "Example: dasd check --strict work.ckd",
    args: &[
        PATHS,
        ArgRow {
            id: "strict",
            help: "prints all that a reader of the drive would trip over, with severities",
            kind: ArgKind::Flag,
        },
        ArgRow {
            id: "warnings",
            help: "prints only errors and warnings; notes are counted",
            kind: ArgKind::Flag,
        },
        ArgRow {
            id: "contents",
            help: "prints what is wrong with label, table of contents, extents, free tracks, directories, members and data sets",
            kind: ArgKind::FlagWithout(&["strict"]),
        },
        AS_FAR,
        JSON,
    ],
};

/// What `dasd check` is asked.
pub(crate) fn read_check<'a>(
    alloc: Global,
    options: &ArgMatches<'a>,
) -> Result<Request<'a>, WordFault> {
    let volume = listings::read_printed(alloc, options)?;
    let with_notes = !options.get_flag("warnings");
    if options.get_flag("strict") {
        return Ok(Request::CheckStrictly(StrictCheck { volume, with_notes }));
    }
    if !with_notes {
        return Err(wrong(alloc, STRICT_WARNINGS));
    }
    if options.get_flag("contents") {
        return Ok(Request::CheckContents(volume));
    }
    if volume.json {
        return Err(wrong(alloc, STRICT_JSON));
    }
    if volume.as_far {
        return Err(wrong(alloc, STRICT_FAR));
    }
    Ok(Request::Check(volume.paths))
}

/// `dasd dump`.
pub(crate) static DUMP: CommandRow = CommandRow {
    name: "dump",
    about: "Prints the bytes of tracks in hexadecimal and in EBCDIC",
    usage: Some("dasd dump [OPTIONS] PATH.. CYLINDER HEAD [RECORD]"),
    after_help: "Example: dasd dump work.ckd 0 0-2 1-255",
    args: &[
        ArgRow {
            id: DUMP_WORDS,
            help: "the files of an image, and after them numbers or ranges, such as 0-2 or 0x14; records by their numbers",
            kind: WORDS,
        },
        AS_FAR,
        JSON,
    ],
};

/// What `dasd dump` is asked: its last three words are numbers, and all before them paths; or its last two.
pub(crate) fn read_dump<'a>(
    alloc: Global,
    options: &ArgMatches<'a>,
) -> Result<Request<'a>, WordFault> {
    let Some(words) = options.get_strs(DUMP_WORDS) else {
        return Err(wrong(alloc, NO_PATH));
    };
    let with_records = match words {
        [_, .., cylinders, heads, records] => numbers_of(cylinders, heads, records),
        _ => None,
    };
    let (count, part) = match (with_records, words) {
        (Some(part), _) => (words.len() - 3, part),
        (None, [_, .., cylinders, heads]) => match numbers_of(cylinders, heads, ALL_NUMBERS) {
            Some(part) => (words.len() - 2, part),
            None => return Err(wrong(alloc, NO_NUMBERS)),
        },
        _ => return Err(wrong(alloc, NO_NUMBERS)),
    };
    if part.records.last > LAST_RECORD {
        return Err(wrong(alloc, NO_NUMBERS));
    }
    let paths = read_paths(alloc, &words[..count])?;
    let volume = PrintedVolume {
        paths,
        json: options.get_flag("json"),
        as_far: options.get_flag("as-far-as-it-goes"),
    };
    Ok(Request::Dump(volume, part))
}

// Three words as ranges of cylinders, heads and records.
fn numbers_of(cylinders: &str, heads: &str, records: &str) -> Option<DumpedPart> {
    Some(DumpedPart {
        cylinders: read_numbers(cylinders)?,
        heads: read_numbers(heads)?,
        records: read_numbers(records)?,
    })
}

/// A number, or two with a hyphen between, the first of which is not greater.
pub(crate) fn read_numbers(word: &str) -> Option<Numbers>
    ensures { IfSome result (λ n. n.first ≤ n.last) }
{
    let (first, last) = word.split_once('-').unwrap_or((word, word));
    let first = read_number(first)?;
    let last = read_number(last)?;
    (first <= last).then_some(Numbers { first, last })
}

// Decimal digits, or hexadecimal ones behind 0x. Places are printed in hexadecimal, with zeros before them: so digits with zeros before
// them are a number only where they are the same one in both.
fn read_number(word: &str) -> Option<u16> {
    if let Some(digits) = word.strip_prefix("0x") {
        return read_hexadecimal(digits);
    }
    if !word.bytes().all(|byte| byte.is_ascii_digit()) {
        return None;
    }
    let number = word.parse::<u16>().ok()?;
    (number < 10 || !word.starts_with('0')).then_some(number)
}

// Hexadecimal digits alone.
fn read_hexadecimal(digits: &str) -> Option<u16> {
    if !digits.bytes().all(|byte| byte.is_ascii_hexdigit()) {
        return None;
    }
    u16::from_str_radix(digits, 16).ok()
}

/// `dasd compare`.
pub(crate) static COMPARE: CommandRow = CommandRow {
    name: "compare",
    about: "Prints what differs of two volumes, track by track",
    usage: None,
    after_help: "Example: dasd compare monday.ckd tuesday.ckd",
    args: &[
        ArgRow {
            id: "A",
            help: "an image; several files of one are joined by +, as big_1.ckd+big_2.ckd",
            kind: WORD,
        },
        ArgRow {
            id: "B",
            help: "the image that it is compared with",
            kind: WORD,
        },
        ArgRow {
            id: "tracks",
            help: "prints how many tracks differ, and no more",
            kind: ArgKind::Flag,
        },
        ArgRow {
            id: "whole",
            help: "takes each of A and B for one file, whose name may have a +",
            kind: ArgKind::Flag,
        },
        AS_FAR,
        JSON,
    ],
};

/// What `dasd compare` is asked.
pub(crate) fn read_compare<'a>(
    alloc: Global,
    options: &ArgMatches<'a>,
) -> Result<Request<'a>, WordFault> {
    let (Some(one), Some(other)) = (options.get_str("A"), options.get_str("B")) else {
        return Err(wrong(alloc, NO_PATH));
    };
    let is_whole = options.get_flag("whole");
    Ok(Request::Compare(ComparedVolumes {
        one: read_compared(alloc, one, is_whole)?,
        other: read_compared(alloc, other, is_whole)?,
        lists: !options.get_flag("tracks"),
        json: options.get_flag("json"),
        as_far: options.get_flag("as-far-as-it-goes"),
    }))
}

// The files of a volume that is compared: one whole word, or those that plus signs join.
fn read_compared<'a>(
    alloc: Global,
    word: &'a str,
    is_whole: bool,
) -> Result<Vec<&'a str>, WordFault> {
    if is_whole {
        read_paths(alloc, &[word])
    } else {
        read_joined(alloc, word)
    }
}

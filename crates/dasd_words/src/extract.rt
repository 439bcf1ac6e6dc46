//! The words of `dasd extract`.

ghost use Rattle.std.specs.Prelude.{◌≡◌, true, is_some, IfOk};
ghost use Rattle.dasd_words.specs.InPacks.{takes};

use crate::commands::{NO_PATH, wrong};
use crate::listings::read_paths;
use crate::options::{AS_FAR, ArgKind, ArgRow, CommandRow, FILE, JSON, Value, WITH_LENGTHS, WORDS};
use crate::record_words::{BLOCK_LENGTH, FORMAT, RECORD_LENGTH, read_form, read_given};
use crate::requests::{
    ExtractedSet, ExtractedTracks, ExtractedVolume, FileForm, ListedLibrary, PrintedVolume,
    Request, SetName, WordFault,
};
use clap::ArgMatches;
use std::alloc::Global;

/// The name of the words of an extraction.
const PATHS_AND_NAME: &str = "WORD";

const NO_NAME: &str =
    "error: no name of a data set after the paths, as SYS1.MACLIB(OPEN) or PAYROLL\n";

const RAW_MEMBER: &str = "error: --raw takes the tracks of a data set, and of no member\n";

const RAW_TEXT: &str = "error: --raw goes with neither --text nor --with-lengths nor --all\n";

const ALL_JSON: &str = "error: --json goes with --all and with --list\n";

const LIST_ALONE: &str = "error: --list goes with --json alone\n";

const LIST_MEMBER: &str =
    "error: --list prints the members of a data set, and takes the name of none\n";

/// The command, with its words.
pub(crate) static COMMAND: CommandRow = CommandRow {
    name: "extract",
    about: "Takes data sets and members of partitioned ones out of a volume",
    usage: Some(
        "dasd extract [OPTIONS] PATH.. NAME\n       dasd extract [OPTIONS] --all DIR PATH..",
    ),
    after_help: "Example: dasd extract pack.ckd 'SYS1.MACLIB(OPEN)' --text --to open.txt",
    args: &[
        ArgRow {
            id: PATHS_AND_NAME,
            help: "the files of an image, and after them a data set or a member, as PAYROLL or SYS1.MACLIB(OPEN); with --all no name",
            kind: WORDS,
        },
        ArgRow {
            id: "to",
            help: "a new file for what is taken out; standard output where there is none",
            kind: ArgKind::Valued(Value {
                conflicts: &["all"],
                ..FILE
            }),
        },
        ArgRow {
            id: "all",
            help: "takes out all data sets and members, each into a new file of this folder",
            kind: ArgKind::Valued(Value {
                name: "DIR",
                ..FILE
            }),
        },
        ArgRow {
            id: "text",
            help: "writes records as lines of text, from EBCDIC; without it, blocks as they are",
            kind: ArgKind::FlagWithout(&["with-lengths"]),
        },
        WITH_LENGTHS,
        FORMAT,
        RECORD_LENGTH,
        BLOCK_LENGTH,
        ArgRow {
            id: "raw",
            help: "writes the tracks of a data set as they are in the image: all bytes of each, in order",
            kind: ArgKind::Flag,
        },
        ArgRow {
            id: "list",
            help: "prints the members of a partitioned data set: where each begins, and how much it has",
            kind: ArgKind::Flag,
        },
        AS_FAR,
        JSON,
    ],
};

/// What it is asked: the last word is the name, and all before it are paths; with `--all` all are paths.
pub(crate) fn read<'a>(alloc: Global, options: &ArgMatches<'a>) -> Result<Request<'a>, WordFault> {
    let Some(words) = options.get_strs(PATHS_AND_NAME) else {
        return Err(wrong(alloc, NO_PATH));
    };
    if options.get_flag("list") {
        return read_list(alloc, options, words);
    }
    let form = read_form(options);
    let json = options.get_flag("json");
    let is_raw = options.get_flag("raw");
    let as_far = options.get_flag("as-far-as-it-goes");
    if is_raw && (form != FileForm::Blocks || options.get_str("all").is_some()) {
        return Err(wrong(alloc, RAW_TEXT));
    }
    let given = read_given(alloc, options, form)?;
    if let Some(folder) = options.get_str("all") {
        return Ok(Request::ExtractAll(ExtractedVolume {
            paths: read_paths(alloc, words)?,
            as_far,
            folder,
            form,
            json,
        }));
    }
    if json {
        return Err(wrong(alloc, ALL_JSON));
    }
    let Some((paths, name)) = split_words(words) else {
        return Err(wrong(alloc, NO_NAME));
    };
    let set = ExtractedSet {
        paths: read_paths(alloc, paths)?,
        as_far,
        name,
        target: options.get_str("to"),
        form,
        given,
    };
    taken(alloc, is_raw, set)
}

// The members of a data set.
fn read_list<'a>(
    alloc: Global,
    options: &ArgMatches<'a>,
    words: &[&'a str],
) -> Result<Request<'a>, WordFault> {
    let form = read_form(options);
    if form != FileForm::Blocks
        || options.get_flag("raw")
        || options.get_str("all").is_some()
        || options.get_str("to").is_some()
        || read_given(alloc, options, form)?.is_some()
    {
        return Err(wrong(alloc, LIST_ALONE));
    }
    let Some((paths, name)) = split_words(words) else {
        return Err(wrong(alloc, NO_NAME));
    };
    if name.member.is_some() {
        return Err(wrong(alloc, LIST_MEMBER));
    }
    Ok(Request::ListMembers(ListedLibrary {
        volume: PrintedVolume {
            paths: read_paths(alloc, paths)?,
            json: options.get_flag("json"),
            as_far: options.get_flag("as-far-as-it-goes"),
        },
        name: name.data_set,
    }))
}

/// A data set or a member that is taken out, or the tracks of a data set, which is no member.
pub(crate) fn taken<'a>(
    alloc: Global,
    is_raw: bool,
    set: ExtractedSet<'a>,
) -> Result<Request<'a>, WordFault>
    ensures { IfOk result (λ asked. takes (is_some set.entry.target) asked ≡ true) }
{
    if !is_raw {
        return Ok(Request::Extract(set));
    }
    let ExtractedSet {
        paths,
        as_far,
        name,
        target,
        form: _,
        given: _,
    } = set;
    if name.member.is_some() {
        return Err(wrong(alloc, RAW_MEMBER));
    }
    Ok(Request::ExtractTracks(ExtractedTracks {
        paths,
        as_far,
        name: name.data_set,
        target,
    }))
}

// The paths, of which there is one at least, and the name behind them.
fn split_words<'w, 'a>(words: &'w [&'a str]) -> Option<(&'w [&'a str], SetName<'a>)> {
    match words {
        [paths @ .., name] if !paths.is_empty() => Some((paths, read_name(name)?)),
        _ => None,
    }
}

/// A data set's name, with the name of a member in parentheses or without.
pub(crate) fn read_name(word: &str) -> Option<SetName<'_>> {
    let Some((data_set, rest)) = word.split_once('(') else {
        return (!word.is_empty()).then_some(SetName {
            data_set: word,
            member: None,
        });
    };
    let member = rest.strip_suffix(')')?;
    (!data_set.is_empty() && !member.is_empty()).then_some(SetName {
        data_set,
        member: Some(member),
    })
}

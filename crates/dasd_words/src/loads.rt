//! The words of `dasd load`.

ghost use Rattle.std.specs.Prelude.{◌≡◌, true, IfOk};
ghost use Rattle.dasd_words.specs.InPacks.{puts};

use crate::changes::REPLACE;
use crate::commands::wrong;
use crate::listings::read_paths;
use crate::options::{ArgKind, ArgRow, CommandRow, FILE, Value, WITH_LENGTHS, WORDS};
use crate::record_words::{read_attributes, read_form, read_key_length};
use crate::requests::{FileForm, LoadedFile, LoadedFolder, LoadedMember, Request, WordFault};
use clap::ArgMatches;
use std::alloc::Global;

/// The name of the words of a load.
const PATHS_AND_NAME: &str = "WORD";

const NO_NAME: &str =
    "error: load takes the files of an image, and after them the name of a data set\n";

const MEMBER_NAMED: &str = "\
error: load takes the name of a data set, and none of a member in parentheses after it
A new member has its name by --member: dasd load pack.ckd SYS1.MACLIB --member OPEN --from open.txt --text
";

const NO_SOURCE: &str = "error: load takes --from or --all\n";

const ALL_ALONE: &str = "\
error: --all goes with --text, --with-lengths and --replace alone
What a data set is stands in the file data_sets.txt of the folder.
";

const MEMBER_ALONE: &str = "\
error: --member goes with --from, --text, --with-lengths and --replace alone
How the blocks of a member are formed stands in the label of its library.
";

const KEYS_APART: &str = "error: --key-length goes with --with-lengths\n";

/// The option for the length of keys.
pub(crate) const KEY_LENGTH: ArgRow = ArgRow {
    id: "key-length",
    help: "with --with-lengths, the length of keys in bytes",
    kind: ArgKind::Valued(Value {
        name: "BYTES",
        ..FILE
    }),
};

/// The command, with its words.
pub(crate) static COMMAND: CommandRow = CommandRow {
    name: "load",
    about: "Puts a file onto a volume as a new data set or member, or the files of a folder",
    usage: Some(
        "dasd load [OPTIONS] --from FILE --record-format FORMAT --block-length BYTES PATH.. NAME\n       dasd load [OPTIONS] --member MEMBER --from FILE PATH.. LIBRARY\n       dasd load [OPTIONS] --all DIR PATH..",
    ),
    after_help: "Example: dasd load pack.ckd TEST.CARDS --from cards.txt --text --record-format FB --record-length 80 --block-length 3120",
    args: &[
        ArgRow {
            id: PATHS_AND_NAME,
            help: "the files of an image, and after them the name of the new data set; with --all no name",
            kind: WORDS,
        },
        ArgRow {
            id: "from",
            help: "the file that is put onto the volume",
            kind: ArgKind::Valued(FILE),
        },
        ArgRow {
            id: "all",
            help: "puts all data sets of a folder onto the volume, as its file data_sets.txt says; extract --all writes such folders",
            kind: ArgKind::Valued(Value {
                name: "DIR",
                ..FILE
            }),
        },
        ArgRow {
            id: "member",
            help: "puts the file into this library as a new member of this name, and writes the library again",
            kind: ArgKind::Valued(Value {
                name: "MEMBER",
                conflicts: &["all"],
                ..FILE
            }),
        },
        ArgRow {
            id: "text",
            help: "the file, or each of the folder, is text: each line is a record of F or FB, in EBCDIC, filled with blanks",
            kind: ArgKind::FlagWithout(&["with-lengths"]),
        },
        WITH_LENGTHS,
        ArgRow {
            id: "record-format",
            help: "the record format: F, V or U followed by any of B, S, T, A, M, as FB, VBS or FBA",
            kind: ArgKind::Valued(Value {
                name: "FORMAT",
                ..FILE
            }),
        },
        ArgRow {
            id: "record-length",
            help: "the length of records in bytes; FB and FBS need it",
            kind: ArgKind::Valued(Value {
                name: "BYTES",
                ..FILE
            }),
        },
        ArgRow {
            id: "block-length",
            help: "the length of blocks in bytes, of which the last may be shorter; of V, VB, VS and VBS, and with --with-lengths, that of the longest",
            kind: ArgKind::Valued(Value {
                name: "BYTES",
                ..FILE
            }),
        },
        KEY_LENGTH,
        REPLACE,
    ],
};

/// What it is asked: the last word is the name, and all before it are paths; with `--all` all are paths.
pub(crate) fn read<'a>(alloc: Global, options: &ArgMatches<'a>) -> Result<Request<'a>, WordFault> {
    let words = options.get_strs(PATHS_AND_NAME).unwrap_or(&[]);
    if let Some(folder) = options.get_str("all") {
        return read_folder(alloc, options, words, folder);
    }
    let (paths, name) = match words {
        [paths @ .., name] if !paths.is_empty() => (paths, *name),
        _ => return Err(wrong(alloc, NO_NAME)),
    };
    if name.ends_with(')') {
        return Err(wrong(alloc, MEMBER_NAMED));
    }
    let Some(source) = options.get_str("from") else {
        return Err(wrong(alloc, NO_SOURCE));
    };
    read_named(
        alloc,
        options,
        paths,
        (name, options.get_str("member"), source),
    )
}

/// Whether words give a record format, or a length of records, blocks or keys.
pub(crate) fn gives_label(options: &ArgMatches) -> bool {
    options.get_str("record-format").is_some()
        || options.get_str("record-length").is_some()
        || options.get_str("block-length").is_some()
        || options.get_str("key-length").is_some()
}

/// A file that is put onto the volume of these files: as a data set of this name, or as this member of it.
pub(crate) fn read_named<'a>(
    alloc: Global,
    options: &ArgMatches<'a>,
    paths: &[&'a str],
    words: (&'a str, Option<&'a str>, &'a str),
) -> Result<Request<'a>, WordFault>
    ensures { IfOk result (λ asked. puts asked ≡ true) }
{
    let (name, member, source) = words;
    let replaces = options.get_flag("replace");
    let form = read_form(options);
    if let Some(member) = member {
        if gives_label(options) {
            return Err(wrong(alloc, MEMBER_ALONE));
        }
        return Ok(Request::LoadMember(LoadedMember {
            paths: read_paths(alloc, paths)?,
            replaces,
            library: name,
            member,
            source,
            form,
        }));
    }
    let key_length = read_key_length(alloc, options)?;
    if key_length != 0 && form != FileForm::WithLengths {
        return Err(wrong(alloc, KEYS_APART));
    }
    Ok(Request::Load(LoadedFile {
        paths: read_paths(alloc, paths)?,
        replaces,
        name,
        source,
        form,
        attributes: read_attributes(alloc, options)?,
        key_length,
    }))
}

// A folder.
fn read_folder<'a>(
    alloc: Global,
    options: &ArgMatches<'a>,
    words: &[&'a str],
    folder: &'a str,
) -> Result<Request<'a>, WordFault> {
    if gives_label(options) || options.get_str("from").is_some() {
        return Err(wrong(alloc, ALL_ALONE));
    }
    Ok(Request::LoadAll(LoadedFolder {
        paths: read_paths(alloc, words)?,
        replaces: options.get_flag("replace"),
        folder,
        form: read_form(options),
    }))
}

//! The words of `dasd ls`, `cat`, `cp`, `mv` and `rm`, which name places in packs. Each asks for what another command asks for too.
//!
//! A place is `PACK:DATA.SET` or `PACK:LIBRARY(MEMBER)`. The last colon of a word ends its pack, whose files plus signs join. A word of `cp`
//! without a colon is a file of the host, and so is one that begins with `./`.

ghost use Rattle.std.specs.Prelude.{◌≡◌, ◌||◌, true, false, is_some, IfOk};
ghost use Rattle.dasd_words.specs.InPacks.{is_host_file, lists, takes, puts, renames, deletes};

use crate::changes::REPLACE;
use crate::commands::wrong;
use crate::extract::{read_name, taken};
use crate::listings::read_joined;
use crate::loads::{KEY_LENGTH, gives_label, read_named};
use crate::options::{AS_FAR, ArgKind, ArgRow, CommandRow, FILE, JSON, Value, WITH_LENGTHS, WORD};
use crate::record_words::{BLOCK_LENGTH, FORMAT, RECORD_LENGTH, read_form, read_given};
use crate::requests::{
    DeletedMember, DeletedSet, ExtractedSet, FileForm, ListedLibrary, PrintedVolume, RenamedMember,
    RenamedSet, Request, SetName, WordFault,
};
use crate::vtoc::{self, LONG, MEMBERS};
use clap::ArgMatches;
use std::alloc::Global;

/// A data set or a member in a pack: the word for the pack, and the name.
type Place<'a> = (&'a str, SetName<'a>);

/// The place that a command is about.
const PLACE: ArgRow = ArgRow {
    id: "PLACE",
    help: "PACK:DATA.SET or PACK:LIBRARY(MEMBER); the last colon ends PACK, whose files + joins",
    kind: WORD,
};

const NO_MEMBER: &str =
    "error: ls lists a pack or the members of a library, and takes the name of no member\n";

const PACK_ALONE: &str = "error: --long and --members go with a pack, and with no data set\n";

const NO_PACK: &str = "\
error: cp copies out of a pack or into one, and names none here
A place in a pack has a colon, as work.ckd:PAYROLL; a word that begins with ./ is a file of the host.
";

const TWO_PACKS: &str = "\
error: cp copies out of a pack or into one, and both words name a place in a pack
Between packs dasd extract and dasd load copy, with a file between them; a file with a colon in its name is written ./a:b.
";

const OUT_ALONE: &str = "error: --raw and --as-far-as-it-goes go with a copy out of a pack\n";

const INTO_ALONE: &str = "error: --key-length and --replace go with a copy into a pack\n";

const NO_LABEL: &str = "error: a copy to a new data set takes --record-format and --block-length\n";

const HAS_LABEL: &str = "\
error: a copy to a member goes with --text, --with-lengths and --replace alone
How the blocks of a member are formed stands in the label of its library.
";

const OTHER_PACK: &str = "\
error: mv renames within one pack, which both words name in the same way
dasd cp copies out of a pack and into one, and dasd rm deletes.
";

const OTHER_KIND: &str = "\
error: mv renames a data set, or a member within its library
dasd cp copies out of a pack and into one, and dasd rm deletes.
";

/// `dasd ls`.
pub(crate) static LS: CommandRow = CommandRow {
    name: "ls",
    about: "Lists the data sets of a pack as vtoc does, or the members of a library",
    usage: None,
    after_help: "Example: dasd ls pack.ckd:SYS1.MACLIB",
    args: &[
        ArgRow {
            id: "PLACE",
            help: "PACK or PACK:LIBRARY; the last colon ends PACK, whose files + joins; PACK: is one with a colon in its path",
            kind: WORD,
        },
        MEMBERS,
        LONG,
        AS_FAR,
        JSON,
    ],
};

/// `dasd cat`.
pub(crate) static CAT: CommandRow = CommandRow {
    name: "cat",
    about: "Prints a data set or a member as extract --text does",
    usage: None,
    after_help: "Example: dasd cat 'pack.ckd:SYS1.MACLIB(SAVE)'",
    args: &[PLACE, FORMAT, RECORD_LENGTH, BLOCK_LENGTH, AS_FAR],
};

/// `dasd cp`.
pub(crate) static CP: CommandRow = CommandRow {
    name: "cp",
    about: "Copies a data set or a member to a new file as extract does, or a file to a new one as load does",
    usage: Some("dasd cp [OPTIONS] PACK:NAME FILE\n       dasd cp [OPTIONS] FILE PACK:NAME"),
    after_help: "Example: dasd cp 'pack.ckd:SYS1.MACLIB(SAVE)' save.txt --text",
    args: &[
        ArgRow {
            id: "FROM",
            help: "a file, PACK:DATA.SET or PACK:LIBRARY(MEMBER); the last colon ends PACK, whose files + joins",
            kind: WORD,
        },
        ArgRow {
            id: "TO",
            help: "a new file, or a new name in a pack; a word without a colon is a file, and so is one that begins with ./",
            kind: WORD,
        },
        ArgRow {
            id: "text",
            help: "the file has records as lines of text, in EBCDIC on the pack; without it, blocks as they are",
            kind: ArgKind::FlagWithout(&["with-lengths"]),
        },
        WITH_LENGTHS,
        ArgRow {
            id: "raw",
            help: "the file gets the tracks of a data set as they are in the image",
            kind: ArgKind::FlagWithout(&["text", "with-lengths"]),
        },
        ArgRow {
            id: "record-format",
            help: "the record format of a new data set, or with --text of one whose label has none: F, V or U followed by any of B, S, T, A, M",
            kind: ArgKind::Valued(Value {
                name: "FORMAT",
                conflicts: &["raw"],
                ..FILE
            }),
        },
        RECORD_LENGTH,
        ArgRow {
            id: "block-length",
            help: "the length of blocks in bytes, which a new data set needs",
            kind: ArgKind::Valued(Value {
                name: "BYTES",
                conflicts: &["raw"],
                ..FILE
            }),
        },
        KEY_LENGTH,
        AS_FAR,
        REPLACE,
    ],
};

/// `dasd mv`.
pub(crate) static MV: CommandRow = CommandRow {
    name: "mv",
    about: "Renames a data set of a pack, or a member within its library, as rename does",
    usage: None,
    after_help: "Example: dasd mv pack.ckd:PAYROLL pack.ckd:PAYROLL.MAY",
    args: &[
        ArgRow {
            id: "FROM",
            help: "PACK:DATA.SET or PACK:LIBRARY(MEMBER); the last colon ends PACK, whose files + joins",
            kind: WORD,
        },
        ArgRow {
            id: "TO",
            help: "the same PACK, and the new name",
            kind: WORD,
        },
        REPLACE,
    ],
};

/// `dasd rm`.
pub(crate) static RM: CommandRow = CommandRow {
    name: "rm",
    about: "Deletes a data set of a pack, or a member of a library, as delete does",
    usage: None,
    after_help: "Example: dasd rm 'pack.ckd:SYS1.MACLIB(SAVE)'",
    args: &[PLACE, REPLACE],
};

/// Whether a word of `dasd cp` is a file of the host, and no place in a pack: it has no colon, or begins with `./`.
pub fn is_host_file(word: &str) -> bool
    ensures { result ≡ is_host_file word.now }
{
    let word = word.as_bytes();
    !word.contains(&b':') || word.starts_with(b"./")
}

// The place in a pack that a word of this command names: a word that names none is refused, and so is one without a pack.
fn read_place<'a>(alloc: Global, command: &str, word: &'a str) -> Result<Place<'a>, WordFault> {
    if let Some((pack, name)) = word.rsplit_once(':') {
        if let (Some(name), false) = (read_name(name), pack.is_empty()) {
            return Ok((pack, name));
        }
    }
    match format!(in alloc;
        "error: {command} takes PACK:DATA.SET or PACK:LIBRARY(MEMBER), and not {word}\n"
    ) {
        Ok(text) => Err(WordFault::Usage(text)),
        Err(_) => Err(WordFault::OutOfMemory),
    }
}

/// What `dasd ls` is asked: a pack is all before a colon at the end of the word, or the whole word where it has none.
pub(crate) fn read_ls<'a>(alloc: Global, options: &ArgMatches<'a>) -> Result<Request<'a>, WordFault>
    ensures { IfOk result (λ asked. lists asked ≡ true) }
{
    let word = options.get_str("PLACE").unwrap_or("");
    let (pack, name) = word.rsplit_once(':').unwrap_or((word, ""));
    let volume = PrintedVolume {
        paths: read_joined(alloc, pack)?,
        json: options.get_flag("json"),
        as_far: options.get_flag("as-far-as-it-goes"),
    };
    if name.is_empty() {
        return Ok(vtoc::read(options, volume));
    }
    if options.get_flag("members") || options.get_flag("long") {
        return Err(wrong(alloc, PACK_ALONE));
    }
    match read_place(alloc, "ls", word)? {
        (_, name) if name.member.is_none() => Ok(Request::ListMembers(ListedLibrary {
            volume,
            name: name.data_set,
        })),
        _ => Err(wrong(alloc, NO_MEMBER)),
    }
}

/// What `dasd cat` is asked: lines of text, on standard output.
pub(crate) fn read_cat<'a>(
    alloc: Global,
    options: &ArgMatches<'a>,
) -> Result<Request<'a>, WordFault>
    ensures { IfOk result (λ asked. takes false asked ≡ true) }
{
    let word = options.get_str("PLACE").unwrap_or("");
    let place = read_place(alloc, "cat", word)?;
    read_taken(alloc, options, place, FileForm::Text, None)
}

/// What `dasd cp` is asked: one word is a place in a pack, and the other a file of the host.
pub(crate) fn read_cp<'a>(alloc: Global, options: &ArgMatches<'a>) -> Result<Request<'a>, WordFault>
    ensures { IfOk result (λ asked. (takes true asked || puts asked) ≡ true) }
{
    let from = options.get_str("FROM").unwrap_or("");
    let to = options.get_str("TO").unwrap_or("");
    match (is_host_file(from), is_host_file(to)) {
        (true, true) => Err(wrong(alloc, NO_PACK)),
        (false, false) => Err(wrong(alloc, TWO_PACKS)),
        (true, false) => read_put(alloc, options, from, to),
        (false, true) => {
            if options.get_flag("replace") || options.get_str("key-length").is_some() {
                return Err(wrong(alloc, INTO_ALONE));
            }
            let place = read_place(alloc, "cp", from)?;
            read_taken(alloc, options, place, read_form(options), Some(to))
        }
    }
}

// What is taken out of a pack, in this form and to this file, if there is one.
fn read_taken<'a>(
    alloc: Global,
    options: &ArgMatches<'a>,
    place: Place<'a>,
    form: FileForm,
    target: Option<&'a str>,
) -> Result<Request<'a>, WordFault>
    ensures { IfOk result (λ asked. takes (is_some target.entry) asked ≡ true) }
{
    let (pack, name) = place;
    let given = read_given(alloc, options, form)?;
    let set = ExtractedSet {
        paths: read_joined(alloc, pack)?,
        as_far: options.get_flag("as-far-as-it-goes"),
        name,
        target,
        form,
        given,
    };
    taken(alloc, options.get_flag("raw"), set)
}

// The file that is put onto a pack, at the place that a word names.
fn read_put<'a>(
    alloc: Global,
    options: &ArgMatches<'a>,
    source: &'a str,
    word: &'a str,
) -> Result<Request<'a>, WordFault>
    ensures { IfOk result (λ asked. puts asked ≡ true) }
{
    if options.get_flag("raw") || options.get_flag("as-far-as-it-goes") {
        return Err(wrong(alloc, OUT_ALONE));
    }
    let (pack, name) = read_place(alloc, "cp", word)?;
    if name.member.is_some() && gives_label(options) {
        return Err(wrong(alloc, HAS_LABEL));
    }
    let has_label = options.get_str("record-format").is_some()
        && options.get_str("block-length").is_some();
    if name.member.is_none() && !has_label {
        return Err(wrong(alloc, NO_LABEL));
    }
    let paths = read_joined(alloc, pack)?;
    let words = (name.data_set, name.member, source);
    read_named(alloc, options, paths.as_slice(), words)
}

/// What `dasd mv` is asked: both words name places in one pack.
pub(crate) fn read_mv<'a>(alloc: Global, options: &ArgMatches<'a>) -> Result<Request<'a>, WordFault>
    ensures { IfOk result (λ asked. renames asked ≡ true) }
{
    let from = options.get_str("FROM").unwrap_or("");
    let to = options.get_str("TO").unwrap_or("");
    let (pack, old) = read_place(alloc, "mv", from)?;
    let (other, new) = read_place(alloc, "mv", to)?;
    if pack != other {
        return Err(wrong(alloc, OTHER_PACK));
    }
    let replaces = options.get_flag("replace");
    let paths = read_joined(alloc, pack)?;
    match (old.member, new.member) {
        (None, None) => Ok(Request::Rename(RenamedSet {
            paths,
            replaces,
            old: old.data_set,
            new: new.data_set,
        })),
        (Some(one), Some(another)) if old.data_set == new.data_set => {
            Ok(Request::RenameMember(RenamedMember {
                paths,
                replaces,
                library: old.data_set,
                old: one,
                new: another,
            }))
        }
        _ => Err(wrong(alloc, OTHER_KIND)),
    }
}

/// What `dasd rm` is asked.
pub(crate) fn read_rm<'a>(alloc: Global, options: &ArgMatches<'a>) -> Result<Request<'a>, WordFault>
    ensures { IfOk result (λ asked. deletes asked ≡ true) }
{
    let word = options.get_str("PLACE").unwrap_or("");
    let (pack, SetName { data_set, member }) = read_place(alloc, "rm", word)?;
    let paths = read_joined(alloc, pack)?;
    let replaces = options.get_flag("replace");
    match member {
        None => Ok(Request::Delete(DeletedSet {
            paths,
            replaces,
            name: data_set,
        })),
        Some(member) => Ok(Request::DeleteMember(DeletedMember {
            paths,
            replaces,
            library: data_set,
            member,
        })),
    }
}

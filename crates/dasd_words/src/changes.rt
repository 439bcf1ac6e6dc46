//! The words of `dasd rename`, `dasd delete` and `dasd relabel`.

use crate::commands::wrong;
use crate::extract::read_name;
use crate::label::{read_owner, read_serial};
use crate::listings::{PATHS, read, read_paths};
use crate::options::{ArgKind, ArgRow, CommandRow, FILE, Value, WORDS};
use crate::requests::{
    DeletedMember, DeletedSet, RelabelledVolume, RenamedMember, RenamedSet, Request, SetName,
    WordFault,
};
use clap::ArgMatches;
use std::alloc::Global;

/// The name of the words of a rename.
const PATHS_AND_NAMES: &str = "WORD";

const NO_NAMES: &str =
    "error: rename takes the files of an image, and after them the name of a data set or a member and its new one\n";

const NO_NAME: &str =
    "error: delete takes the files of an image, and after them the name of a data set or a member\n";

const NO_FIELD: &str = "error: relabel takes --label, --owner or both\n";

/// The option for files that don't keep their place.
pub(crate) const REPLACE: ArgRow = ArgRow {
    id: "replace",
    help: "replaces each changed image by a new file, without its access list, instead of overwriting it",
    kind: ArgKind::Flag,
};

/// The command that gives a data set another name.
pub(crate) static RENAME: CommandRow = CommandRow {
    name: "rename",
    about: "Gives a data set of a volume, or a member of a library, another name",
    usage: Some("dasd rename [OPTIONS] PATH.. OLD NEW"),
    after_help: "Example: dasd rename pack.ckd 'SYS1.MACLIB(OPEN)' 'SYS1.MACLIB(OPENOLD)'",
    args: &[
        ArgRow {
            id: PATHS_AND_NAMES,
            help: "the files of an image, and after them the name and the new one, as PAYROLL or SYS1.MACLIB(OPEN)",
            kind: WORDS,
        },
        REPLACE,
    ],
};

/// The command that deletes a data set.
pub(crate) static DELETE: CommandRow = CommandRow {
    name: "delete",
    about: "Deletes a data set of a volume: its control blocks and tracks become free, and its data stay on them; or a member of a library",
    usage: Some("dasd delete [OPTIONS] PATH.. NAME"),
    after_help: "Example: dasd delete pack.ckd PAYROLL.OLD",
    args: &[
        ArgRow {
            id: PATHS_AND_NAMES,
            help: "the files of an image, and after them a data set or a member, as PAYROLL or SYS1.MACLIB(OPEN)",
            kind: WORDS,
        },
        REPLACE,
    ],
};

/// The command that changes a volume label.
pub(crate) static RELABEL: CommandRow = CommandRow {
    name: "relabel",
    about: "Changes the serial number of a volume, or its owner",
    usage: None,
    after_help: "Example: dasd relabel pack.ckd --label WORK02",
    args: &[
        PATHS,
        ArgRow {
            id: "label",
            help: "the serial number in the volume label, and in those of the data sets that began on the volume",
            kind: ArgKind::Valued(Value {
                name: "SERIAL",
                ..FILE
            }),
        },
        ArgRow {
            id: "owner",
            help: "the owner's name in the volume label",
            kind: ArgKind::Valued(Value {
                name: "TEXT",
                ..FILE
            }),
        },
        REPLACE,
    ],
};

// The library and the name of a member, where a word has both.
fn read_member(word: &str) -> Option<(&str, &str)> {
    let SetName { data_set, member } = read_name(word)?;
    Some((data_set, member?))
}

/// What a rename is asked: the last two words are the names, and all before them are paths. Two members of one library are renamed as members.
pub(crate) fn read_rename<'a>(
    alloc: Global,
    options: &ArgMatches<'a>,
) -> Result<Request<'a>, WordFault> {
    let words = options.get_strs(PATHS_AND_NAMES).unwrap_or(&[]);
    let [paths @ .., old, new] = words else {
        return Err(wrong(alloc, NO_NAMES));
    };
    if paths.is_empty() {
        return Err(wrong(alloc, NO_NAMES));
    }
    let paths = read_paths(alloc, paths)?;
    let replaces = options.get_flag("replace");
    match (read_member(old), read_member(new)) {
        (Some((library, old)), Some((other, new))) if library == other => {
            Ok(Request::RenameMember(RenamedMember {
                paths,
                replaces,
                library,
                old,
                new,
            }))
        }
        _ => Ok(Request::Rename(RenamedSet {
            paths,
            replaces,
            old,
            new,
        })),
    }
}

/// What a deletion is asked: the last word is the name, and all before it are paths.
pub(crate) fn read_delete<'a>(
    alloc: Global,
    options: &ArgMatches<'a>,
) -> Result<Request<'a>, WordFault> {
    let words = options.get_strs(PATHS_AND_NAMES).unwrap_or(&[]);
    let [paths @ .., name] = words else {
        return Err(wrong(alloc, NO_NAME));
    };
    if paths.is_empty() {
        return Err(wrong(alloc, NO_NAME));
    }
    let paths = read_paths(alloc, paths)?;
    let replaces = options.get_flag("replace");
    match read_member(name) {
        None => Ok(Request::Delete(DeletedSet {
            paths,
            replaces,
            name,
        })),
        Some((library, member)) => Ok(Request::DeleteMember(DeletedMember {
            paths,
            replaces,
            library,
            member,
        })),
    }
}

/// What a relabel is asked: a serial number, an owner or both.
pub(crate) fn read_relabel<'a>(
    alloc: Global,
    options: &ArgMatches<'a>,
) -> Result<Request<'a>, WordFault> {
    let serial = read_serial(alloc, options)?;
    let owner = read_owner(alloc, options)?;
    if serial.is_none() && owner.is_none() {
        return Err(wrong(alloc, NO_FIELD));
    }
    Ok(Request::Relabel(RelabelledVolume {
        paths: read(alloc, options)?,
        replaces: options.get_flag("replace"),
        serial,
        owner,
    }))
}

//! The words of `dasd hash`.

use crate::listings::{self, PATHS};
use crate::options::{AS_FAR, ArgKind, ArgRow, CommandRow, JSON};
use crate::requests::{HashedVolume, Request, WordFault};
use clap::ArgMatches;
use std::alloc::Global;

/// The command, with its words.
pub(crate) static COMMAND: CommandRow = CommandRow {
    name: "hash",
    about: "Prints the SHA-256 of the records of a volume, without the bytes after end marks",
    usage: None,
    after_help: "Example: dasd hash --members pack.ckd",
    args: &[
        PATHS,
        ArgRow {
            id: "sets",
            help: "prints that of each data set too",
            kind: ArgKind::Flag,
        },
        ArgRow {
            id: "members",
            help: "prints that of each data set and of each member too",
            kind: ArgKind::Flag,
        },
        AS_FAR,
        JSON,
    ],
};

/// What it is asked.
pub(crate) fn read<'a>(alloc: Global, options: &ArgMatches<'a>) -> Result<Request<'a>, WordFault> {
    Ok(Request::Hash(HashedVolume {
        volume: listings::read_printed(alloc, options)?,
        sets: options.get_flag("sets"),
        members: options.get_flag("members"),
    }))
}

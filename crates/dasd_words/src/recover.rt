//! The words of `dasd recover`.

use crate::commands::{NO_PATH, wrong};
use crate::options::{ArgKind, ArgRow, CommandRow, WORDS};
use crate::requests::{RecoveredFiles, Request, WordFault};
use clap::ArgMatches;
use std::alloc::Global;

/// The command, with its words.
pub(crate) static COMMAND: CommandRow = CommandRow {
    name: "recover",
    about: "Completes a save that was cut off, by the journal beside the file, or drops the journal",
    usage: None,
    after_help: "Example: dasd recover pack.ckd",
    args: &[
        ArgRow {
            id: "PATH",
            help: "the files, one after another",
            kind: WORDS,
        },
        ArgRow {
            id: "drop",
            help: "removes the journal, and leaves the files as they are, unless they are half saved and the journal fits them",
            kind: ArgKind::Flag,
        },
    ],
};

/// What it is asked.
pub(crate) fn read<'a>(alloc: Global, options: &ArgMatches<'a>) -> Result<Request<'a>, WordFault> {
    let Some(words) = options.get_strs("PATH") else {
        return Err(wrong(alloc, NO_PATH));
    };
    Ok(Request::Recover(RecoveredFiles {
        paths: Vec::from_slice(alloc, words)?,
        drops: options.get_flag("drop"),
    }))
}

//! The words of `dasd list`.

use crate::archive::read_numbers;
use crate::listings::{self, PATHS};
use crate::options::{AS_FAR, ArgKind, ArgRow, CommandRow, FILE, JSON, Value, not_taken};
use crate::requests::{ListedPart, Numbers, Request, WordFault};
use clap::ArgMatches;
use std::alloc::Global;

const CYLINDERS_RULE: &str =
    "a number or a range, as 3, 0-2 or 0x14, decimal, or hexadecimal after 0x, as places are printed";

/// The command, with its words.
pub(crate) static COMMAND: CommandRow = CommandRow {
    name: "list",
    about: "Prints a volume with its tracks and records",
    usage: None,
    after_help: "Example: dasd list work.ckd",
    args: &[
        PATHS,
        ArgRow {
            id: "cylinder",
            help: "lists the cylinders from A to B, or one that is a number alone",
            kind: ArgKind::Valued(Value {
                name: "A-B",
                ..FILE
            }),
        },
        ArgRow {
            id: "used",
            help: "lists only tracks that have more than one record or can't be read",
            kind: ArgKind::Flag,
        },
        AS_FAR,
        JSON,
    ],
};

/// What it is asked.
pub(crate) fn read<'a>(alloc: Global, options: &ArgMatches<'a>) -> Result<Request<'a>, WordFault> {
    let volume = listings::read_printed(alloc, options)?;
    let part = ListedPart {
        cylinders: read_cylinders(alloc, options)?,
        used_only: options.get_flag("used"),
    };
    let is_plain = !volume.json && !volume.as_far;
    if part.cylinders.is_none() && !part.used_only && is_plain {
        return Ok(Request::List(volume.paths));
    }
    Ok(Request::ListPart(volume, part))
}

// The cylinders, where words name them.
fn read_cylinders(alloc: Global, options: &ArgMatches) -> Result<Option<Numbers>, WordFault> {
    let Some(word) = options.get_str("cylinder") else {
        return Ok(None);
    };
    match read_numbers(word) {
        Some(numbers) => Ok(Some(numbers)),
        None => Err(not_taken(alloc, "cylinder", CYLINDERS_RULE, word)),
    }
}

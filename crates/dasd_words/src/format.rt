//! The words of `dasd format`.

ghost use Rattle.std.specs.Prelude.{◌<◌, IfOk};

use crate::commands::{NO_PATH, wrong};
use crate::label::read_label;
use crate::options::{ArgKind, ArgRow, CommandRow, FILE, Value, WORD, not_taken};
use crate::requests::{NewImage, Request, WordFault};
use crate::volumes::read_model;
use ckd_track::DriveModel;
use clap::ArgMatches;
use clap::builder::ValueParser;
use std::alloc::Global;

/// The number of cylinders without the word for it.
const CYLINDERS: &str = "203";

const CYLINDERS_RULE: &str = "a number from 1 to 65535";

/// The command, with its options.
pub(crate) static COMMAND: CommandRow = CommandRow {
    name: "format",
    about: "Writes a new image",
    usage: None,
    after_help: "Example: dasd format work.ckd --model 2314 --cylinders 10",
    args: &[
        ArgRow {
            id: "PATH",
            help: "the image file, which is made, or replaced if it is there",
            kind: WORD,
        },
        ArgRow {
            id: "model",
            help: "the drive",
            kind: ArgKind::Valued(Value {
                name: "M",
                parser: ValueParser::Names(&["2311", "2314"]),
                default: &["2311"],
                ..FILE
            }),
        },
        ArgRow {
            id: "cylinders",
            help: "the number of cylinders, 1 to 65535",
            kind: ArgKind::Valued(Value {
                name: "N",
                default: &[CYLINDERS],
                ..FILE
            }),
        },
        ArgRow {
            id: "label",
            help: "writes a volume label with this serial number, and an empty table of contents",
            kind: ArgKind::Valued(Value {
                name: "SERIAL",
                ..FILE
            }),
        },
        ArgRow {
            id: "owner",
            help: "the owner's name in the label",
            kind: ArgKind::Valued(Value {
                name: "TEXT",
                ..FILE
            }),
        },
        ArgRow {
            id: "vtoc",
            help: "the tracks of the table of contents; without it the rest of its first cylinder",
            kind: ArgKind::Valued(Value {
                name: "TRACKS",
                ..FILE
            }),
        },
        ArgRow {
            id: "vtoc-at",
            help: "cylinder and head of its first track; without it 0:1, after the label",
            kind: ArgKind::Valued(Value {
                name: "C:H",
                ..FILE
            }),
        },
        ArgRow {
            id: "no-replace",
            help: "refuses to replace a file",
            kind: ArgKind::Flag,
        },
    ],
};

/// What it is asked to do.
pub(crate) fn read<'a>(alloc: Global, options: &ArgMatches<'a>) -> Result<Request<'a>, WordFault> {
    let Some(path) = options.get_str("PATH") else {
        return Err(wrong(alloc, NO_PATH));
    };
    let model = options
        .get_str("model")
        .and_then(|model| read_model(model))
        .unwrap_or(DriveModel::D2311);
    let image = NewImage {
        path,
        model,
        cylinders: read_cylinders(alloc, options)?,
        replaces: !options.get_flag("no-replace"),
    };
    match read_label(alloc, options, model)? {
        Some(label) => Ok(Request::FormatLabelled(image, label)),
        None => Ok(Request::Format(image)),
    }
}

// The number of cylinders.
fn read_cylinders(alloc: Global, options: &ArgMatches) -> Result<u16, WordFault>
    ensures { IfOk result (λ n. 0 < n) }
{
    let word = options.get_str("cylinders").unwrap_or(CYLINDERS);
    match word.parse::<u16>() {
        Ok(0) | Err(_) => Err(not_taken(alloc, "cylinders", CYLINDERS_RULE, word)),
        Ok(cylinders) => Ok(cylinders),
    }
}

//! The words that give a record format and lengths.

ghost use Rattle.std.specs.Prelude.{◌<◌, IfSome};

use crate::commands::wrong;
use crate::label::read_number;
use crate::options::{ArgKind, ArgRow, FILE, Value, not_taken};
use crate::requests::{FileForm, WordFault};
use clap::ArgMatches;
use std::alloc::Global;
use volume_labels::{AttributeFault, RecordAttributes, layout_given};

/// The option for a record format.
pub(crate) const FORMAT: ArgRow = ArgRow {
    id: "record-format",
    help: "with --text, the record format of a data set whose label has none: F, V or U followed by any of B, S, T, A, M, as FB or VBS",
    kind: ArgKind::Valued(Value {
        name: "FORMAT",
        conflicts: &["all", "raw"],
        ..FILE
    }),
};

/// The option for the length of records.
pub(crate) const RECORD_LENGTH: ArgRow = ArgRow {
    id: "record-length",
    help: "with --record-format, the length of records in bytes; FB and FBS need it where the label has none",
    kind: ArgKind::Valued(Value {
        name: "BYTES",
        conflicts: &["all", "raw"],
        ..FILE
    }),
};

/// The option for the length of blocks.
pub(crate) const BLOCK_LENGTH: ArgRow = ArgRow {
    id: "block-length",
    help: "with --record-format, the length of the longest block in bytes; one that is longer ends the data set, and is reported",
    kind: ArgKind::Valued(Value {
        name: "BYTES",
        conflicts: &["all", "raw"],
        ..FILE
    }),
};

const FORMAT_RULE: &str = "F, V or U followed by letters of BSTAM, as FB, VBS or FBA";

const LENGTH_RULE: &str = "a number of bytes from 1 to 65535";

const KEY_LENGTH_RULE: &str = "a number of bytes from 1 to 255";

const NEEDS_TEXT: &str = "error: --record-format goes with --text\n";

const NEEDS_FORMAT: &str = "error: --record-length and --block-length go with --record-format\n";

const NO_FORMAT: &str = "error: load takes --record-format\n";

const NO_BLOCK_LENGTH: &str = "error: load takes --block-length\n";

const UNDEFINED_LENGTH: &str = "error: records of format U have no --record-length\n";

const BAD_LENGTHS: &str = "\
error: --record-length and --block-length contradict each other
A block of F or FS is one record; one of FB or FBS has whole records; one of V or VB has 4 bytes before its records.
";

/// A label that says nothing of its records.
const SILENT: RecordAttributes = RecordAttributes {
    format: 0,
    record_length: 0,
    block_length: 0,
};

/// What words give of the records of a data set that is written in this form, if they do: nothing that contradicts itself.
pub(crate) fn read_given(
    alloc: Global,
    options: &ArgMatches,
    form: FileForm,
) -> Result<Option<RecordAttributes>, WordFault> {
    let record_length = read_length(alloc, options, "record-length")?;
    let block_length = read_length(alloc, options, "block-length")?;
    let Some(word) = options.get_str("record-format") else {
        if record_length != 0 || block_length != 0 {
            return Err(wrong(alloc, NEEDS_FORMAT));
        }
        return Ok(None);
    };
    let Some(format) = format_of(word) else {
        return Err(not_taken(alloc, "record-format", FORMAT_RULE, word));
    };
    if form != FileForm::Text {
        return Err(wrong(alloc, NEEDS_TEXT));
    }
    let given = RecordAttributes {
        format,
        record_length,
        block_length,
    };
    match layout_given(SILENT, given) {
        Err(AttributeFault::UndefinedLength) => Err(wrong(alloc, UNDEFINED_LENGTH)),
        Err(AttributeFault::Lengths) => Err(wrong(alloc, BAD_LENGTHS)),
        _ => Ok(Some(given)),
    }
}

/// What words give of the records of a data set that is put onto a volume: a format and a block length, and nothing that contradicts
/// itself.
pub(crate) fn read_attributes(
    alloc: Global,
    options: &ArgMatches,
) -> Result<RecordAttributes, WordFault> {
    let record_length = read_length(alloc, options, "record-length")?;
    let block_length = read_length(alloc, options, "block-length")?;
    let Some(word) = options.get_str("record-format") else {
        return Err(wrong(alloc, NO_FORMAT));
    };
    let Some(format) = format_of(word) else {
        return Err(not_taken(alloc, "record-format", FORMAT_RULE, word));
    };
    if block_length == 0 {
        return Err(wrong(alloc, NO_BLOCK_LENGTH));
    }
    Ok(RecordAttributes {
        format,
        record_length,
        block_length,
    })
}

/// What a file has of a data set.
pub(crate) fn read_form(options: &ArgMatches) -> FileForm {
    if options.get_flag("text") {
        FileForm::Text
    } else if options.get_flag("with-lengths") {
        FileForm::WithLengths
    } else {
        FileForm::Blocks
    }
}

/// The length of keys that words give; 0 where they give none.
pub(crate) fn read_key_length(alloc: Global, options: &ArgMatches) -> Result<u8, WordFault> {
    let Some(word) = options.get_str("key-length") else {
        return Ok(0);
    };
    match read_count(word).and_then(|length| u8::try_from(length).ok()) {
        Some(length) => Ok(length),
        None => Err(not_taken(alloc, "key-length", KEY_LENGTH_RULE, word)),
    }
}

// The bits of a label that a record format is written as (System Control Blocks, DS1RECFM): those of its form, and one for each letter
// behind it. A text that goes with a folder has the same letters.
fn format_of(word: &str) -> Option<u8> {
    let [form, letters @ ..] = word.as_bytes() else {
        return None;
    };
    let mut format = form_of(*form)?;
    for letter in letters {
        format |= flag_of(*letter)?;
    }
    Some(format)
}

// Fixed, variable or undefined.
fn form_of(letter: u8) -> Option<u8> {
    match letter {
        b'F' => Some(0x80),
        b'V' => Some(0x40),
        b'U' => Some(0xC0),
        _ => None,
    }
}

// Blocked; standard, or spanned; with track overflow; with control characters, as ASA or the machine has them.
fn flag_of(letter: u8) -> Option<u8> {
    match letter {
        b'B' => Some(0x10),
        b'S' => Some(0x08),
        b'T' => Some(0x20),
        b'A' => Some(0x04),
        b'M' => Some(0x02),
        _ => None,
    }
}

// A length behind an option; 0 where the option is not there.
fn read_length(alloc: Global, options: &ArgMatches, id: &str) -> Result<u16, WordFault> {
    let Some(word) = options.get_str(id) else {
        return Ok(0);
    };
    match read_count(word) {
        Some(length) => Ok(length),
        None => Err(not_taken(alloc, id, LENGTH_RULE, word)),
    }
}

/// 1 to 65535 in decimal digits alone.
pub(crate) fn read_count(digits: &str) -> Option<u16>
    ensures { IfSome result (λ n. 0 < n) }
{
    match read_number(digits) {
        Some(0) | None => None,
        Some(count) => Some(count),
    }
}

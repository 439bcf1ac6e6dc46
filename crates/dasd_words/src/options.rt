//! The rows that say which options and words a command has, and the command that `clap` reads by them.

use crate::requests::WordFault;
use clap::builder::ValueParser;
use clap::{Arg, ArgAction, Command};
use std::alloc::{AllocError, Global};

/// A command of `dasd`.
#[derive(Clone, Copy)]
pub(crate) struct CommandRow {
    /// Its name.
    pub(crate) name: &'static str,
    /// What it does.
    pub(crate) about: &'static str,
    /// How its words stand, where those that are no options are of several kinds.
    pub(crate) usage: Option<&'static str>,
    /// What its help ends with.
    pub(crate) after_help: &'static str,
    /// Its options and words but `--verbose`, in the order of its help.
    pub(crate) args: &'static [ArgRow],
}

/// An option or a word of a command.
#[derive(Clone, Copy)]
pub(crate) struct ArgRow {
    /// What it is read by, and what an option is written as behind two hyphens.
    pub(crate) id: &'static str,
    /// What it means.
    pub(crate) help: &'static str,
    /// How it is written.
    pub(crate) kind: ArgKind,
}

/// How an option or a word is written.
#[derive(Clone, Copy)]
pub(crate) enum ArgKind {
    /// An option that is there or is not.
    Flag,
    /// The same, which can't stand beside these others.
    FlagWithout(&'static [&'static str]),
    /// An option with a value behind it.
    Valued(Value),
    /// Words: what each has to be, and how many there are at least and at most.
    Words(ValueParser<'static>, usize, usize),
}

/// The value of an option.
#[derive(Clone, Copy)]
pub(crate) struct Value {
    /// What help calls it.
    pub(crate) name: &'static str,
    /// What it has to be.
    pub(crate) parser: ValueParser<'static>,
    /// What it is where the option is not there, if it is something then.
    pub(crate) default: &'static [&'static str],
    /// The options that can't stand beside this one.
    pub(crate) conflicts: &'static [&'static str],
}

/// The path of a file, or another text of any form.
pub(crate) const FILE: Value = Value {
    name: "FILE",
    parser: ValueParser::String,
    default: &[],
    conflicts: &[],
};

/// One word, which is any text.
pub(crate) const WORD: ArgKind = ArgKind::Words(ValueParser::String, 1, 1);

/// One word or none, which is any text.
pub(crate) const OPTIONAL_WORD: ArgKind = ArgKind::Words(ValueParser::String, 0, 1);

/// Words, one at least, each of which is any text.
pub(crate) const WORDS: ArgKind = ArgKind::Words(ValueParser::String, 1, usize::MAX);

/// The option for lines of JSON.
pub(crate) const JSON: ArgRow = ArgRow {
    id: "json",
    help: "prints one object of JSON a line",
    kind: ArgKind::Flag,
};

/// The option for a volume whose last file is too short or too long.
pub(crate) const AS_FAR: ArgRow = ArgRow {
    id: "as-far-as-it-goes",
    help: "reads a volume even if its only or last file has the wrong length, and reports what is missing",
    kind: ArgKind::Flag,
};

/// The option for files that keep the blocks of a data set apart, and their keys.
pub(crate) const WITH_LENGTHS: ArgRow = ArgRow {
    id: "with-lengths",
    help: "each block is in the file after its lengths and its key: a byte 1, the length of the key in a byte, that of the data in two",
    kind: ArgKind::Flag,
};

/// The option of each command, and of the program itself, for more about a fault.
pub(crate) const VERBOSE: ArgRow = ArgRow {
    id: "verbose",
    help: "gives more detail of a fault, even if standard error is not a terminal",
    kind: ArgKind::Flag,
};

/// The command of a row.
pub(crate) fn command<'a>(alloc: Global, row: &CommandRow) -> Result<Command<'a>, AllocError> {
    let command = Command::new(alloc, row.name)
        .about(row.about)
        .after_help(row.after_help);
    let mut command = match row.usage {
        Some(usage) => command.override_usage(usage),
        None => command,
    };
    for arg_row in row.args {
        command = with_arg(alloc, command, arg_row)?;
    }
    with_arg(alloc, command, &VERBOSE)
}

/// A command with the option or the words of one row more.
pub(crate) fn with_arg<'a>(
    alloc: Global,
    command: Command<'a>,
    row: &ArgRow,
) -> Result<Command<'a>, AllocError> {
    let arg = arg(alloc, row)?;
    command.arg(arg)
}

// The option or the words of a row.
fn arg<'a>(alloc: Global, row: &ArgRow) -> Result<Arg<'a>, AllocError> {
    let arg = Arg::new(alloc, row.id).help(row.help);
    match &row.kind {
        ArgKind::Flag => Ok(arg.long(row.id).action(ArgAction::SetTrue)),
        ArgKind::FlagWithout(others) => {
            let flag = arg.long(row.id).action(ArgAction::SetTrue);
            flag.conflicts_with_all(*others)
        }
        ArgKind::Valued(value) => valued(arg.long(row.id), value),
        ArgKind::Words(parser, least, most) => Ok(words(arg, *parser, *least, *most)),
    }
}

// An option with a value behind it.
fn valued<'a>(arg: Arg<'a>, value: &Value) -> Result<Arg<'a>, AllocError> {
    arg.value_name(value.name)
        .value_parser(value.parser)
        .default_values(value.default)
        .conflicts_with_all(value.conflicts)
}

// Words, which must be there but where none is enough.
fn words<'a>(arg: Arg<'a>, parser: ValueParser<'a>, least: usize, most: usize) -> Arg<'a> {
    let action = if most == 1 {
        ArgAction::Set
    } else {
        ArgAction::Append
    };
    arg.required(least > 0)
        .action(action)
        .num_args(least.max(1)..=most)
        .value_parser(parser)
}

/// A word behind an option that is none of what it takes, and the text that says so, with a rule of what that is.
pub(crate) fn not_taken(alloc: Global, id: &str, rule: &str, word: &str) -> WordFault {
    match format!(in alloc; "error: --{id} takes {rule}, and not {word}\n") {
        Ok(text) => WordFault::Usage(text),
        Err(_) => WordFault::OutOfMemory,
    }
}

//! Words that are admitted: the request that `dasd_words` reads of them is the one that they ask for, by a second look at the words.
#![tactic(auto)]

mod changes;
mod extracts;
mod in_packs;
mod prints;
mod requests;
mod runs;

ghost use Rattle.std.specs.Prelude.{◌≡◌, false, drop, map, IfOk};
ghost use Rattle.command_words.specs.Lines.{seen};
ghost use Rattle.admitted_words.specs.Admitted.{AskFor, is_asked};
ghost use Rattle.admitted_words.specs.Writing.{OnlyRead, may_write};

use crate::in_packs::in_packs;
use crate::requests::admits;
use command_words::CommandLine;
use dasd_words::{Asked, Request, WordFault, read_words};
use std::alloc::{AllocError, Global};

/// The options that take a value.
pub const VALUED: [&str; 21] = [
    "--model",
    "--cylinders",
    "--label",
    "--owner",
    "--vtoc",
    "--vtoc-at",
    "--cylinder",
    "--to",
    "--all",
    "--from",
    "--member",
    "--record-format",
    "--record-length",
    "--block-length",
    "--key-length",
    "--storage",
    "--channel",
    "--deck",
    "--trace-to",
    "--trace-only",
    "--trace-last",
];

/// What is said of words that were read as another request than they ask for.
const MISREAD: &str = "error: these words were read wrongly\n";

#[tactic(auto, using(crate::proofs::Reading::writes_nothing))]
/// What words of `dasd` ask for, the first of which is the program's name.
///
/// # Errors
///
/// As of `read_words`; or the request that was read is not the one that they ask for, which no words are known to do.
pub fn read_admitted<'a>(alloc: Global, words: &'a [&'a str]) -> Result<Asked<'a>, WordFault>
    ensures asked { IfOk result (λ asked. AskFor (map (λ word. word.now) words.now) asked.request) }
    ensures reads { IfOk result (λ asked. OnlyRead (map (λ word. word.now) words.now) → may_write asked.request ≡ false) }
{
    let asked = read_words(alloc, words)?;
    let line = CommandLine::new(alloc, &VALUED, after_first(words))?;
    if is_asked(alloc, &line, &asked.request)? {
        Ok(asked)
    } else {
        Err(WordFault::Usage(MISREAD.to_string(alloc)?))
    }
}

// Whether words ask for this request: by its own command, or by one that names places in packs.
fn is_asked(alloc: Global, line: &CommandLine, request: &Request) -> Result<bool, AllocError>
    ensures { IfOk result (λ is. is ≡ is_asked (seen line.now) request.now) }
{
    if admits(alloc, line, request)? {
        return Ok(true);
    }
    in_packs(alloc, line, request)
}

// All words but the first.
pub(crate) fn after_first<'w, 'a>(words: &'w [&'a str]) -> &'w [&'a str]
    ensures { map (λ word. word.now) result.now ≡ drop 1 (map (λ word. word.now) words.now) }
{
    match words {
        [_, words @ ..] => words,
        [] => &[],
    }
}

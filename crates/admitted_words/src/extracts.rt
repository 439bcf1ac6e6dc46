//! Words that ask for something of a volume that is taken out of it, or for the members of a library.

ghost use Rattle.std.specs.Prelude.{◌≡◌, IfOk, string_bytes};
ghost use Rattle.std.specs.Option.{option_copied};
ghost use Rattle.command_words.specs.Lines.{seen};
ghost use Rattle.admitted_words.specs.Admitted.{takes, goes_to, admits};
ghost use Rattle.admitted_words.specs.Forms.{is_form, word_of};
ghost use Rattle.dasd_words.specs.declared.requests.Request.TheVariants as request;

use crate::prints::prints;
use command_words::CommandLine;
use dasd_words::{
    ExtractedSet, ExtractedTracks, ExtractedVolume, FileForm, ListedLibrary, SetName,
};
use std::alloc::{AllocError, Global};

/// Whether words say that files have this of records and blocks.
pub(crate) fn is_form(line: &CommandLine, form: FileForm) -> bool
    ensures { result ≡ is_form (seen line.now) form }
{
    match form {
        FileForm::Text => line.has("--text"),
        FileForm::WithLengths => !line.has("--text") && line.has("--with-lengths"),
        FileForm::Blocks => !line.has("--text") && !line.has("--with-lengths"),
    }
}

/// The word for a data set, or for a member of one, which has parentheses around it.
pub(crate) fn word_of(alloc: Global, name: &SetName) -> Result<String, AllocError>
    ensures { IfOk result (λ word. string_bytes word ≡ word_of name.now.data_set.now (option_copied name.now.member)) }
{
    let mut word = String::from_str(alloc, name.data_set)?;
    match name.member {
        None => Ok(word),
        Some(member) => {
            word.push_str("(")?;
            word.push_str(member)?;
            word.push_str(")")?;
            Ok(word)
        }
    }
}

// Whether words ask for tracks, for the members of a library, or for all data sets into this folder.
fn takes(line: &CommandLine, raw: bool, list: bool, folder: Option<&str>) -> bool
    ensures { result ≡ takes (seen line.now) raw list (option_copied folder.entry) }
{
    line.is_set("--raw", raw) && line.is_set("--list", list) && line.gives("--all", folder)
}

// Whether words name this file for what is taken out, and ask for the volume to be read so far.
fn goes_to(line: &CommandLine, target: Option<&str>, as_far: bool) -> bool
    ensures { result ≡ goes_to (seen line.now) (option_copied target.entry) as_far }
{
    line.gives("--to", target) && line.is_set("--as-far-as-it-goes", as_far)
}

/// Whether words ask for the members of this library.
pub(crate) fn lists_members(line: &CommandLine, asked: &ListedLibrary) -> bool
    ensures { result ≡ admits (seen line.now) (request.ListMembers asked.now) }
{
    prints(line, "extract", &asked.volume, &[asked.name]) && takes(line, false, true, None)
}

/// Whether words ask for this data set or member to be taken out.
///
/// # Errors
///
/// There is no memory for its name as a word.
pub(crate) fn extracts_set(
    alloc: Global,
    line: &CommandLine,
    asked: &ExtractedSet,
) -> Result<bool, AllocError>
    ensures { IfOk result (λ is. is ≡ admits (seen line.now) (request.Extract asked.now)) }
{
    let name = word_of(alloc, &asked.name)?;
    Ok(
        line.asks("extract", asked.paths.as_slice(), &[name.as_str()])
            && takes(line, false, false, None)
            && line.gives("--to", asked.target)
            && is_form(line, asked.form)
            && line.is_set("--as-far-as-it-goes", asked.as_far),
    )
}

/// Whether words ask for the tracks of this data set.
pub(crate) fn extracts_tracks(line: &CommandLine, asked: &ExtractedTracks) -> bool
    ensures { result ≡ admits (seen line.now) (request.ExtractTracks asked.now) }
{
    line.asks("extract", asked.paths.as_slice(), &[asked.name])
        && takes(line, true, false, None)
        && goes_to(line, asked.target, asked.as_far)
}

/// Whether words ask for all data sets of this volume.
pub(crate) fn extracts_all(line: &CommandLine, asked: &ExtractedVolume) -> bool
    ensures { result ≡ admits (seen line.now) (request.ExtractAll asked.now) }
{
    line.asks("extract", asked.paths.as_slice(), &[])
        && takes(line, false, false, Some(asked.folder))
        && goes_to(line, None, asked.as_far)
        && is_form(line, asked.form)
}

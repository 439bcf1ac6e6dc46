//! Which words ask for each request.

ghost use Rattle.std.specs.Prelude.{◌≡◌, IfOk};
ghost use Rattle.std.specs.Option.{option_copied};
ghost use Rattle.command_words.specs.Lines.{seen};
ghost use Rattle.admitted_words.specs.Admitted.{formats, admits, asks_text};

use crate::changes::{
    changes_label, deletes_member, deletes_set, loads_file, loads_folder, loads_member,
    recovers_files, renames_member, renames_set,
};
use crate::extracts::{extracts_all, extracts_set, extracts_tracks, lists_members};
use crate::prints::{compares, dumps, prints, prints_plainly};
use crate::runs::runs;
use command_words::CommandLine;
use dasd_words::{NewImage, Request};
use std::alloc::{AllocError, Global};

/// Whether words ask for this request.
///
/// # Errors
///
/// There is no memory for names and paths as words have them.
pub(crate) fn admits(
    alloc: Global,
    line: &CommandLine,
    request: &Request,
) -> Result<bool, AllocError>
    ensures { IfOk result (λ is. is ≡ admits (seen line.now) request.now) }
{
    match request {
        Request::Format(image) => Ok(formats(line, image, false)),
        Request::FormatLabelled(image, _) => Ok(formats(line, image, true)),
        Request::List(paths) => Ok(prints_plainly(line, "list", paths.as_slice())),
        Request::ListPart(volume, _) => Ok(prints(line, "list", volume, &[])),
        Request::Check(paths) => Ok(prints_plainly(line, "check", paths.as_slice())),
        Request::CheckStrictly(asked) => Ok(prints(line, "check", &asked.volume, &[])),
        Request::CheckContents(volume) => Ok(prints(line, "check", volume, &[])),
        Request::Dump(volume, _) => Ok(dumps(line, volume)),
        Request::Compare(volumes) => compares(alloc, line, volumes),
        Request::Hash(asked) => Ok(prints(line, "hash", &asked.volume, &[])),
        Request::ListContents(volume) => Ok(prints(line, "vtoc", volume, &[])),
        Request::ListDetails(asked) => Ok(prints(line, "vtoc", &asked.volume, &[])),
        Request::ListMembers(asked) => Ok(lists_members(line, asked)),
        Request::Extract(asked) => extracts_set(alloc, line, asked),
        Request::ExtractTracks(asked) => Ok(extracts_tracks(line, asked)),
        Request::ExtractAll(asked) => Ok(extracts_all(line, asked)),
        Request::Rename(asked) => Ok(renames_set(line, asked)),
        Request::RenameMember(asked) => renames_member(alloc, line, asked),
        Request::Delete(asked) => Ok(deletes_set(line, asked)),
        Request::DeleteMember(asked) => deletes_member(alloc, line, asked),
        Request::Relabel(asked) => Ok(changes_label(line, asked)),
        Request::Recover(asked) => Ok(recovers_files(line, asked)),
        Request::Load(asked) => Ok(loads_file(line, asked)),
        Request::LoadMember(asked) => Ok(loads_member(line, asked)),
        Request::LoadAll(asked) => Ok(loads_folder(line, asked)),
        Request::Explain(_) => Ok(line.begins("explain", &[])),
        Request::Assemble(path) => Ok(asks_text(line, "assemble", *path)),
        Request::Disassemble(path) => Ok(asks_text(line, "disassemble", *path)),
        Request::Run(asked) => Ok(runs(line, asked)),
    }
}

// Whether words ask for a new image, with a label or without one.
fn formats(line: &CommandLine, image: &NewImage, labelled: bool) -> bool
    ensures { result ≡ formats (seen line.now) image.now labelled }
{
    line.asks("format", &[image.path], &[])
        && line.is_set("--no-replace", !image.replaces)
        && line.is_valued("--label", labelled)
}

// Whether words ask for the text at a path, or on standard input, as this command reads it.
fn asks_text(line: &CommandLine, command: &str, path: Option<&str>) -> bool
    ensures { result ≡ asks_text (seen line.now) command.now (option_copied path.entry) }
{
    match path {
        Some(path) => line.asks(command, &[path], &[]),
        None => line.asks(command, &[], &[]),
    }
}

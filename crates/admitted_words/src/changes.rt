//! Words that ask for a change of a volume.

ghost use Rattle.std.specs.Prelude.{◌≡◌, map, Some, IfOk, string_bytes};
ghost use Rattle.std.specs.Option.{option_copied};
ghost use Rattle.command_words.specs.Lines.{seen};
ghost use Rattle.admitted_words.specs.Admitted.{loads, admits};
ghost use Rattle.admitted_words.specs.Forms.{word_of};
ghost use Rattle.dasd_words.specs.declared.requests.Request.TheVariants as request;

use crate::extracts::{is_form, word_of};
use command_words::CommandLine;
use dasd_words::{
    DeletedMember, DeletedSet, FileForm, LoadedFile, LoadedFolder, LoadedMember, RecoveredFiles,
    RelabelledVolume, RenamedMember, RenamedSet, SetName,
};
use std::alloc::{AllocError, Global};

/// Whether words ask for this data set to be renamed.
pub(crate) fn renames_set(line: &CommandLine, asked: &RenamedSet) -> bool
    ensures { result ≡ admits (seen line.now) (request.Rename asked.now) }
{
    line.asks("rename", asked.paths.as_slice(), &[asked.old, asked.new])
        && line.is_set("--replace", asked.replaces)
}

/// Whether words ask for this data set to be deleted.
pub(crate) fn deletes_set(line: &CommandLine, asked: &DeletedSet) -> bool
    ensures { result ≡ admits (seen line.now) (request.Delete asked.now) }
{
    line.asks("delete", asked.paths.as_slice(), &[asked.name])
        && line.is_set("--replace", asked.replaces)
}

// The word for a member of a library.
fn member_word(alloc: Global, library: &str, member: &str) -> Result<String, AllocError>
    ensures { IfOk result (λ word. string_bytes word ≡ word_of library.now (Some member.now)) }
{
    let name = SetName {
        data_set: library,
        member: Some(member),
    };
    word_of(alloc, &name)
}

/// Whether words ask for this member to be renamed.
pub(crate) fn renames_member(
    alloc: Global,
    line: &CommandLine,
    asked: &RenamedMember,
) -> Result<bool, AllocError>
    ensures { IfOk result (λ is. is ≡ admits (seen line.now) (request.RenameMember asked.now)) }
{
    let old = member_word(alloc, asked.library, asked.old)?;
    let new = member_word(alloc, asked.library, asked.new)?;
    Ok(
        line.asks(
            "rename",
            asked.paths.as_slice(),
            &[old.as_str(), new.as_str()],
        ) && line.is_set("--replace", asked.replaces),
    )
}

/// Whether words ask for this member to be deleted.
pub(crate) fn deletes_member(
    alloc: Global,
    line: &CommandLine,
    asked: &DeletedMember,
) -> Result<bool, AllocError>
    ensures { IfOk result (λ is. is ≡ admits (seen line.now) (request.DeleteMember asked.now)) }
{
    let name = member_word(alloc, asked.library, asked.member)?;
    Ok(
        line.asks("delete", asked.paths.as_slice(), &[name.as_str()])
            && line.is_set("--replace", asked.replaces),
    )
}

/// Whether words ask for another label of this volume.
pub(crate) fn changes_label(line: &CommandLine, asked: &RelabelledVolume) -> bool
    ensures { result ≡ admits (seen line.now) (request.Relabel asked.now) }
{
    line.asks("relabel", asked.paths.as_slice(), &[])
        && line.is_set("--replace", asked.replaces)
        && line.is_valued("--label", asked.serial.is_some())
        && line.is_valued("--owner", asked.owner.is_some())
}

/// Whether words ask for these files to be recovered.
pub(crate) fn recovers_files(line: &CommandLine, asked: &RecoveredFiles) -> bool
    ensures { result ≡ admits (seen line.now) (request.Recover asked.now) }
{
    line.asks("recover", asked.paths.as_slice(), &[]) && line.is_set("--drop", asked.drops)
}

// Whether words name this file, this folder and this member, and say that files have this.
fn loads(
    line: &CommandLine,
    form: FileForm,
    file: Option<&str>,
    folder: Option<&str>,
    member: Option<&str>,
) -> bool
    ensures { result ≡ loads (seen line.now) form (option_copied file.entry) (option_copied folder.entry) (option_copied member.entry) }
{
    is_form(line, form)
        && line.gives("--from", file)
        && line.gives("--all", folder)
        && line.gives("--member", member)
}

/// Whether words ask for this file as a data set of a volume.
pub(crate) fn loads_file(line: &CommandLine, asked: &LoadedFile) -> bool
    ensures { result ≡ admits (seen line.now) (request.Load asked.now) }
{
    line.asks("load", asked.paths.as_slice(), &[asked.name])
        && line.is_set("--replace", asked.replaces)
        && loads(line, asked.form, Some(asked.source), None, None)
}

/// Whether words ask for this file as a member of a library.
pub(crate) fn loads_member(line: &CommandLine, asked: &LoadedMember) -> bool
    ensures { result ≡ admits (seen line.now) (request.LoadMember asked.now) }
{
    line.asks("load", asked.paths.as_slice(), &[asked.library])
        && line.is_set("--replace", asked.replaces)
        && loads(
            line,
            asked.form,
            Some(asked.source),
            None,
            Some(asked.member),
        )
}

/// Whether words ask for the files of this folder.
pub(crate) fn loads_folder(line: &CommandLine, asked: &LoadedFolder) -> bool
    ensures { result ≡ admits (seen line.now) (request.LoadAll asked.now) }
{
    line.asks("load", asked.paths.as_slice(), &[])
        && line.is_set("--replace", asked.replaces)
        && loads(line, asked.form, None, Some(asked.folder), None)
}

//! Words of `ls`, `cat`, `cp`, `mv` and `rm`, which name places in packs.

ghost use Rattle.std.specs.Prelude.{◌≡◌, codes, map, None, IfOk, string_bytes};
ghost use Rattle.std.specs.List.{join_by};
ghost use Rattle.std.specs.Option.{option_copied};
ghost use Rattle.command_words.specs.Lines.{seen};
ghost use Rattle.admitted_words.specs.InPacks.{place, are_names, asks_place, lists_pack, copies, is_text, takes_place, reads_so, puts_place, moves, in_packs};
ghost use Rattle.dasd_words.specs.InPacks.{has_colon};
ghost use Rattle.dasd_words.specs.declared.requests.Request.TheVariants as request;

use crate::extracts::{is_form, word_of};
use crate::prints::reads;
use command_words::CommandLine;
use dasd_words::{
    DeletedMember, DeletedSet, ExtractedSet, ExtractedTracks, FileForm, ListedLibrary, LoadedFile,
    LoadedMember, PrintedVolume, RenamedMember, RenamedSet, Request, SetName, is_host_file,
};
use std::alloc::{AllocError, Global};

/// Whether words of `ls`, `cat`, `cp`, `mv` or `rm` ask for this request.
///
/// # Errors
///
/// There is no memory for places as words have them.
pub(crate) fn in_packs(
    alloc: Global,
    line: &CommandLine,
    request: &Request,
) -> Result<bool, AllocError>
    ensures { IfOk result (λ is. is ≡ in_packs (seen line.now) request.now) }
{
    match request {
        Request::ListContents(volume) => lists_pack(alloc, line, volume),
        Request::ListDetails(asked) => lists_pack(alloc, line, &asked.volume),
        Request::ListMembers(asked) => lists_library(alloc, line, asked),
        Request::Extract(asked) => takes_set(alloc, line, asked),
        Request::ExtractTracks(asked) => takes_tracks(alloc, line, asked),
        Request::Load(asked) => puts_set(alloc, line, asked),
        Request::LoadMember(asked) => puts_member(alloc, line, asked),
        Request::Rename(asked) => moves_set(alloc, line, asked),
        Request::RenameMember(asked) => moves_member(alloc, line, asked),
        Request::Delete(asked) => removes_set(alloc, line, asked),
        Request::DeleteMember(asked) => removes_member(alloc, line, asked),
        _ => Ok(false),
    }
}

// A data set, which is no member.
fn set_of(data_set: &str) -> SetName<'_>
    ensures data_set { result.data_set.now ≡ data_set.now }
    ensures member { option_copied result.member ≡ None }
{
    SetName {
        data_set,
        member: None,
    }
}

// The word for a place in a pack.
fn place(alloc: Global, paths: &[&str], name: &SetName) -> Result<String, AllocError>
    ensures { IfOk result (λ word. string_bytes word
        ≡ place (join_by (λ path. path.now) (codes "+") paths.now) name.now.data_set.now (option_copied name.now.member)) }
{
    let mut word = paths.join(alloc, "+")?;
    let name = word_of(alloc, name)?;
    word.push_str(":")?;
    word.push_str(name.as_str())?;
    Ok(word)
}

// Whether a place in a word has these names and no others.
fn are_names(alloc: Global, name: &SetName) -> Result<bool, AllocError>
    ensures { IfOk result (λ is. is ≡ are_names name.now.data_set.now (option_copied name.now.member)) }
{
    let word = word_of(alloc, name)?;
    let set = name.data_set.as_bytes();
    Ok(!has_colon(word.as_str()) && !set.contains(&b'(') && set.len() > 0)
}

// Whether a word has a colon.
fn has_colon(word: &str) -> bool
    ensures { result ≡ has_colon word.now }
{
    word.as_bytes().contains(&b':')
}

// Whether this place is the only operand of a command.
fn asks_place(
    alloc: Global,
    line: &CommandLine,
    command: &str,
    paths: &[&str],
    name: &SetName,
) -> Result<bool, AllocError>
    ensures { IfOk result (λ is. is ≡ asks_place (seen line.now) command.now (join_by (λ path. path.now) (codes "+") paths.now)
        name.now.data_set.now (option_copied name.now.member)) }
{
    let word = place(alloc, paths, name)?;
    let are_names = are_names(alloc, name)?;
    Ok(are_names && line.asks(command, &[word.as_str()], &[]))
}

// Whether words ask for what this pack holds.
fn lists_pack(alloc: Global, line: &CommandLine, volume: &PrintedVolume) -> Result<bool, AllocError>
    ensures { IfOk result (λ is. is ≡ in_packs (seen line.now) (request.ListContents volume.now)) }
{
    let pack = volume.paths.as_slice().join(alloc, "+")?;
    let mut ended = String::from_str(alloc, pack.as_str())?;
    ended.push_str(":")?;
    let is_named = line.asks("ls", &[ended.as_str()], &[])
        || !has_colon(pack.as_str()) && line.asks("ls", &[pack.as_str()], &[]);
    Ok(is_named && reads(line, volume))
}

// Whether words ask for the members of this library.
fn lists_library(
    alloc: Global,
    line: &CommandLine,
    asked: &ListedLibrary,
) -> Result<bool, AllocError>
    ensures { IfOk result (λ is. is ≡ in_packs (seen line.now) (request.ListMembers asked.now)) }
{
    let paths = asked.volume.paths.as_slice();
    let is_named = asks_place(alloc, line, "ls", paths, &set_of(asked.name))?;
    Ok(is_named && reads(line, &asked.volume))
}

// Whether a copy has these words, of which one is this place and the other this file.
fn copies(line: &CommandLine, place: &str, file: &str, words: &[&str]) -> bool
    ensures { result ≡ copies (seen line.now) place.now file.now (map (λ word. word.now) words.now) }
{
    !is_host_file(place) && is_host_file(file) && line.asks("cp", words, &[])
}

// Whether a file has lines of text.
fn is_text(form: FileForm) -> bool
    ensures { result ≡ is_text form }
{
    match form {
        FileForm::Text => true,
        FileForm::WithLengths | FileForm::Blocks => false,
    }
}

// Whether words ask for what is at this place, in this form: a file of it, or its text on standard output.
fn takes_place(line: &CommandLine, place: &str, form: FileForm, target: Option<&str>) -> bool
    ensures { result ≡ takes_place (seen line.now) place.now form (option_copied target.entry) }
{
    match target {
        None => is_text(form) && line.asks("cat", &[place], &[]),
        Some(file) => is_form(line, form) && copies(line, place, file, &[place, file]),
    }
}

// Whether words ask for tracks as they are, and for the volume to be read so far.
fn reads_so(line: &CommandLine, raw: bool, as_far: bool) -> bool
    ensures { result ≡ reads_so (seen line.now) raw as_far }
{
    line.is_set("--raw", raw) && line.is_set("--as-far-as-it-goes", as_far)
}

// Whether words ask for this data set or member to be taken out of a pack.
fn takes_set(alloc: Global, line: &CommandLine, asked: &ExtractedSet) -> Result<bool, AllocError>
    ensures { IfOk result (λ is. is ≡ in_packs (seen line.now) (request.Extract asked.now)) }
{
    let place = place(alloc, asked.paths.as_slice(), &asked.name)?;
    let are_names = are_names(alloc, &asked.name)?;
    Ok(
        are_names
            && takes_place(line, place.as_str(), asked.form, asked.target)
            && reads_so(line, false, asked.as_far),
    )
}

// Whether words ask for the tracks of this data set.
fn takes_tracks(
    alloc: Global,
    line: &CommandLine,
    asked: &ExtractedTracks,
) -> Result<bool, AllocError>
    ensures { IfOk result (λ is. is ≡ in_packs (seen line.now) (request.ExtractTracks asked.now)) }
{
    let name = set_of(asked.name);
    let place = place(alloc, asked.paths.as_slice(), &name)?;
    let are_names = are_names(alloc, &name)?;
    Ok(
        are_names
            && takes_place(line, place.as_str(), FileForm::Blocks, asked.target)
            && reads_so(line, true, asked.as_far),
    )
}

// Whether words ask for this file at this place.
fn puts_place(line: &CommandLine, file: &str, place: &str, form: FileForm, replaces: bool) -> bool
    ensures { result ≡ puts_place (seen line.now) file.now place.now form replaces }
{
    is_form(line, form)
        && copies(line, place, file, &[file, place])
        && line.is_set("--replace", replaces)
}

// Whether words ask for this file as a data set.
fn puts_set(alloc: Global, line: &CommandLine, asked: &LoadedFile) -> Result<bool, AllocError>
    ensures { IfOk result (λ is. is ≡ in_packs (seen line.now) (request.Load asked.now)) }
{
    let name = set_of(asked.name);
    let place = place(alloc, asked.paths.as_slice(), &name)?;
    let are_names = are_names(alloc, &name)?;
    Ok(
        are_names
            && puts_place(
                line,
                asked.source,
                place.as_str(),
                asked.form,
                asked.replaces,
            ),
    )
}

// Whether words ask for this file as a member of a library.
fn puts_member(alloc: Global, line: &CommandLine, asked: &LoadedMember) -> Result<bool, AllocError>
    ensures { IfOk result (λ is. is ≡ in_packs (seen line.now) (request.LoadMember asked.now)) }
{
    let name = SetName {
        data_set: asked.library,
        member: Some(asked.member),
    };
    let place = place(alloc, asked.paths.as_slice(), &name)?;
    let are_names = are_names(alloc, &name)?;
    Ok(
        are_names
            && puts_place(
                line,
                asked.source,
                place.as_str(),
                asked.form,
                asked.replaces,
            ),
    )
}

// Whether words ask for this place to get another name.
fn moves(
    alloc: Global,
    line: &CommandLine,
    paths: &[&str],
    old: &SetName,
    new: &SetName,
) -> Result<bool, AllocError>
    ensures { IfOk result (λ is. is ≡ moves (seen line.now) (join_by (λ path. path.now) (codes "+") paths.now)
        old.now.data_set.now (option_copied old.now.member) new.now.data_set.now (option_copied new.now.member)) }
{
    let from = place(alloc, paths, old)?;
    let to = place(alloc, paths, new)?;
    let (has_old, has_new) = (are_names(alloc, old)?, are_names(alloc, new)?);
    Ok(has_old && has_new && line.asks("mv", &[from.as_str(), to.as_str()], &[]))
}

// Whether words ask for this data set to be renamed.
fn moves_set(alloc: Global, line: &CommandLine, asked: &RenamedSet) -> Result<bool, AllocError>
    ensures { IfOk result (λ is. is ≡ in_packs (seen line.now) (request.Rename asked.now)) }
{
    let (old, new) = (set_of(asked.old), set_of(asked.new));
    let is_named = moves(alloc, line, asked.paths.as_slice(), &old, &new)?;
    Ok(is_named && line.is_set("--replace", asked.replaces))
}

// Whether words ask for this member to be renamed.
fn moves_member(
    alloc: Global,
    line: &CommandLine,
    asked: &RenamedMember,
) -> Result<bool, AllocError>
    ensures { IfOk result (λ is. is ≡ in_packs (seen line.now) (request.RenameMember asked.now)) }
{
    let old = SetName {
        data_set: asked.library,
        member: Some(asked.old),
    };
    let new = SetName {
        data_set: asked.library,
        member: Some(asked.new),
    };
    let is_named = moves(alloc, line, asked.paths.as_slice(), &old, &new)?;
    Ok(is_named && line.is_set("--replace", asked.replaces))
}

// Whether words ask for this data set to be deleted.
fn removes_set(alloc: Global, line: &CommandLine, asked: &DeletedSet) -> Result<bool, AllocError>
    ensures { IfOk result (λ is. is ≡ in_packs (seen line.now) (request.Delete asked.now)) }
{
    let paths = asked.paths.as_slice();
    let is_named = asks_place(alloc, line, "rm", paths, &set_of(asked.name))?;
    Ok(is_named && line.is_set("--replace", asked.replaces))
}

// Whether words ask for this member to be deleted.
fn removes_member(
    alloc: Global,
    line: &CommandLine,
    asked: &DeletedMember,
) -> Result<bool, AllocError>
    ensures { IfOk result (λ is. is ≡ in_packs (seen line.now) (request.DeleteMember asked.now)) }
{
    let name = SetName {
        data_set: asked.library,
        member: Some(asked.member),
    };
    let is_named = asks_place(alloc, line, "rm", asked.paths.as_slice(), &name)?;
    Ok(is_named && line.is_set("--replace", asked.replaces))
}

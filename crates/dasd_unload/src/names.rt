//! The names of files and their paths.

ghost use Rattle.std.specs.Prelude.{◌≡◌, ◌++◌, None, Some, IfOk, IfErr, OnOk, true};
ghost use Rattle.std.specs.String.{string_bytes};
ghost use Rattle.dasd_unload.specs.Unloads.{file_name, is_of_job};
ghost use Rattle.dasd_unload.specs.Volumes.{path_in};

use crate::fault::{NO_MEMORY, UnloadFault};
use std::alloc::Global;
use volume_contents::DataSet;
use volume_labels::{DirectoryEntry, safe_name};

/// The name of the file for a data set.
pub(crate) fn name_of_set(alloc: Global, set: &DataSet) -> Result<String, UnloadFault>
    ensures name { IfOk result (λ name. string_bytes name ≡ file_name set.now.block.name None) }
    ensures fault { IfErr result (λ e. is_of_job e ≡ true) }
{
    match safe_name(alloc, &set.block.name) {
        Ok(name) => Ok(name),
        Err(_) => Err(NO_MEMORY),
    }
}

/// The name of the file for a member.
pub(crate) fn name_of_member(
    alloc: Global,
    set: &DataSet,
    entry: &DirectoryEntry,
) -> Result<String, UnloadFault>
    ensures name { IfOk result (λ name. string_bytes name ≡ file_name set.now.block.name (Some entry.now.name)) }
    ensures fault { IfErr result (λ e. is_of_job e ≡ true) }
{
    let mut name = name_of_set(alloc, set)?;
    let Ok(member) = safe_name(alloc, &entry.name) else {
        return Err(NO_MEMORY);
    };
    push(&mut name, "(")?;
    push(&mut name, member.as_str())?;
    push(&mut name, ")")?;
    Ok(name)
}

// Appends a text.
fn push(to: &mut String, text: &str) -> Result<(), UnloadFault>
    ensures text { OnOk result (string_bytes to.new ≡ string_bytes to.old ++ text.now) }
    ensures fault { IfErr result (λ e. is_of_job e ≡ true) }
{
    match to.push_str(text) {
        Ok(()) => Ok(()),
        Err(_) => Err(NO_MEMORY),
    }
}

/// The path of a file in a folder.
pub(crate) fn path_in(alloc: Global, folder: &str, name: &str) -> Result<String, UnloadFault>
    ensures path { IfOk result (λ path. string_bytes path ≡ path_in folder.now name.now) }
    ensures fault { IfErr result (λ e. is_of_job e ≡ true) }
{
    let Ok(mut path) = folder.to_string(alloc) else {
        return Err(NO_MEMORY);
    };
    push(&mut path, "/")?;
    push(&mut path, name)?;
    Ok(path)
}

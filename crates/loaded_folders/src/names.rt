//! The names of the files of a folder.

ghost use Rattle.std.specs.Prelude.{◌≡◌, ◌++◌, ◌∷◌, [], map, flat_map, None, Some, IfOk, OnOk};
ghost use Rattle.std.specs.String.{string_bytes};
ghost use Rattle.dasd_unload.specs.Unloads.{file_name};
ghost use Rattle.dasd_unload.specs.Volumes.{path_in};
ghost use Rattle.loaded_folders.specs.Sets.{file_names, member_names};
ghost use Rattle.loaded_folders.specs.Parts.{lines_of};

use crate::sets::SetLines;
use set_forms::EntryForm;
use std::alloc::{AllocError, Global};
use volume_labels::safe_name;

/// The path of a file of a folder.
pub(crate) fn path_in(alloc: Global, folder: &str, name: &str) -> Result<String, AllocError>
    ensures { IfOk result (λ path. string_bytes path ≡ path_in folder.now name.now) }
{
    let mut path = folder.to_string(alloc)?;
    path.push_str("/")?;
    path.push_str(name)?;
    Ok(path)
}

/// The name of the file of an entry of a data set.
pub(crate) fn name_of_entry(
    alloc: Global,
    data_set: &[u8; 44],
    entry: &[u8; 8],
) -> Result<String, AllocError>
    ensures { IfOk result (λ name. string_bytes name ≡ file_name data_set.now (Some entry.now)) }
{
    let mut name = safe_name(alloc, data_set)?;
    let entry = safe_name(alloc, entry)?;
    name.push_str("(")?;
    name.push_str(entry.as_str())?;
    name.push_str(")")?;
    Ok(name)
}

// Adds a name.
fn push(names: &mut Vec<String>, name: String) -> Result<(), AllocError>
    ensures { OnOk result (map string_bytes names.new.items ≡ map string_bytes names.old.items ++ string_bytes name ∷ []) }
{
    names.push(name)?;
    Ok(())
}

// Adds the names of the files of a data set's members.
fn push_members(
    alloc: Global,
    names: &mut Vec<String>,
    data_set: &[u8; 44],
    entries: &[&EntryForm],
) -> Result<(), AllocError>
    ensures { OnOk result (map string_bytes names.new.items
        ≡ map string_bytes names.old.items ++ member_names data_set.now (map (λ e. e.now) entries.now)) }
{
    for entry in entries {
        if entry.member.is_none() {
            push(names, name_of_entry(alloc, data_set, &entry.name)?)?;
        }
    }
    Ok(())
}

// Adds the names of the files of a data set.
fn push_names(alloc: Global, names: &mut Vec<String>, set: &SetLines) -> Result<(), AllocError>
    ensures { OnOk result (map string_bytes names.new.items ≡ map string_bytes names.old.items ++ file_names (lines_of set.now)) }
{
    match set.form.directory {
        None => push(names, safe_name(alloc, &set.form.name)?),
        Some(_) => push_members(alloc, names, &set.form.name, set.entries.as_slice()),
    }
}

/// The names of the files of data sets, in their order.
pub(crate) fn file_names(alloc: Global, sets: &[SetLines]) -> Result<Vec<String>, AllocError>
    ensures { IfOk result (λ names. map string_bytes names.items ≡ flat_map file_names (map lines_of sets.now)) }
{
    let mut names = Vec::new(alloc);
    for set in sets {
        push_names(alloc, &mut names, set)?;
    }
    Ok(names)
}

//! The data sets of the lines of a text.

ghost use Rattle.std.specs.Prelude.{◌≡◌, ◌+◌, ◌++◌, ◌∷◌, [], length, map, flat_map, IfOk, OnOk};
ghost use Rattle.loaded_folders.specs.Sets.{entries_front, sets_of, members_of, file_names, with_files};
ghost use Rattle.loaded_folders.specs.Parts.{lines_of, folder_set};

use set_forms::{EntryForm, FormLine, SetForm};
use std::alloc::{AllocError, Global};

/// A data set of a text: its line, and those of the entries of its directory.
#[derive(Drop)]
pub(crate) struct SetLines<'a> {
    pub(crate) form: SetForm,
    pub(crate) entries: Vec<&'a EntryForm>,
}

/// A data set of a folder: its lines, and the bytes of its file, or of those of its members.
#[derive(Clone, Copy)]
pub(crate) struct FolderSet<'a> {
    pub(crate) lines: &'a SetLines<'a>,
    pub(crate) files: &'a [Vec<u8>],
}

// The entries of lines before that of another data set.
fn entries_front(alloc: Global, forms: &[FormLine]) -> Result<Vec<&EntryForm>, AllocError>
    ensures { IfOk result (λ entries. map (λ e. e.now) entries.items ≡ entries_front forms.now) }
{
    let mut entries = Vec::new(alloc);
    for form in forms {
        match form {
            FormLine::Set(_) => return Ok(entries),
            FormLine::Entry(entry) => entries.push(entry)?,
        }
    }
    Ok(entries)
}

/// The data sets of lines, each with the entries behind it.
pub(crate) fn sets_of(alloc: Global, forms: &[FormLine]) -> Result<Vec<SetLines>, AllocError>
    ensures { IfOk result (λ sets. map lines_of sets.items ≡ sets_of forms.now) }
{
    let mut sets = Vec::new(alloc);
    for (index, form) in forms.iter().enumerate() {
        if let FormLine::Set(form) = form {
            let entries = entries_front(alloc, &forms[index + 1..])?;
            sets.push(SetLines {
                form: *form,
                entries,
            })?;
        }
    }
    Ok(sets)
}

// How many files a data set has.
fn count_files(set: &SetLines) -> usize
    ensures { result ≡ length (file_names (lines_of set.now)) }
{
    match set.form.directory {
        None => 1,
        Some(_) => count_members(set.entries.as_slice()),
    }
}

// How many of these entries are no other names.
fn count_members(entries: &[&EntryForm]) -> usize
    ensures { result ≡ length (members_of (map (λ e. e.now) entries.now)) }
{
    let mut count = 0;
    for entry in entries {
        if entry.member.is_none() {
            count += 1;
        }
    }
    count
}

/// Data sets with the bytes of their files, which stand one behind another.
pub(crate) fn with_files<'a>(
    alloc: Global,
    sets: &'a [SetLines<'a>],
    files: &'a [Vec<u8>],
) -> Result<Vec<FolderSet<'a>>, AllocError>
    requires { length files.now ≡ length (flat_map file_names (map lines_of sets.now)) }
    ensures { IfOk result (λ all. map folder_set all.items ≡ with_files (map lines_of sets.entry.now) (map (λ f. f.items) files.entry.now)) }
{
    let mut all = Vec::new(alloc);
    let mut rest = files;
    for lines in sets {
        let (files, others) = rest.split_at(count_files(lines));
        all.push(FolderSet { lines, files })?;
        rest = others;
    }
    Ok(all)
}

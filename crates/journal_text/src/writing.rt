//! Spelling a journal.

ghost use Rattle.std.specs.Prelude.{◌≡◌, ◌++◌, List, length, OnOk, IfOk};
ghost use Rattle.atomic_save.specs.Changes.{note_of};
ghost use Rattle.journal_text.specs.Spelling.{number, string, file_text, change_text, list_text, named_of, all_named, all_notes, body, sealed, spelling};

use atomic_save::{Change, JournalFile};
use sha2::{Digest, Sha256};
use std::alloc::{AllocError, Global};

fn put_number(out: &mut Vec<u8>, n: u64) -> Result<(), AllocError>
    ensures { OnOk result (out.new.items ≡ out.old.items ++ number n) }
{
    out.extend_from_slice(&n.to_be_bytes())?;
    Ok(())
}

fn put_string(out: &mut Vec<u8>, bytes: &[u8]) -> Result<(), AllocError>
    ensures { OnOk result (out.new.items ≡ out.old.items ++ string bytes.now) }
{
    put_number(out, bytes.len() as u64)?;
    out.extend_from_slice(bytes)?;
    Ok(())
}

fn put_file(out: &mut Vec<u8>, file: &JournalFile) -> Result<(), AllocError>
    ensures { OnOk result (out.new.items ≡ out.old.items ++ file_text (named_of file.now)) }
{
    put_string(out, &file.name)?;
    put_number(out, file.id.device)?;
    put_number(out, file.id.inode)?;
    put_number(out, file.id.birth)?;
    put_number(out, file.id.size)
}

fn put_change(out: &mut Vec<u8>, change: &Change) -> Result<(), AllocError>
    ensures { OnOk result (out.new.items ≡ out.old.items ++ change_text (note_of change.now)) }
{
    put_number(out, change.file as u64)?;
    put_number(out, change.at)?;
    put_string(out, &change.bytes)
}

fn put_files(out: &mut Vec<u8>, files: &[JournalFile]) -> Result<(), AllocError>
    ensures { OnOk result (out.new.items ≡ out.old.items ++ list_text file_text (all_named files.now)) }
{
    put_number(out, files.len() as u64)?;
    for file in files {
        put_file(out, file)?;
    }
    Ok(())
}

fn put_changes(out: &mut Vec<u8>, changes: &[Change]) -> Result<(), AllocError>
    ensures { OnOk result (out.new.items ≡ out.old.items ++ list_text change_text (all_notes changes.now)) }
{
    put_number(out, changes.len() as u64)?;
    for change in changes {
        put_change(out, change)?;
    }
    Ok(())
}

/// The one spelling of a journal of these files with these changes, and with what the host adds.
///
/// # Errors
///
/// There is no memory for it.
pub fn journal_bytes(
    alloc: Global,
    files: &[JournalFile],
    changes: &[Change],
    more: &[u8],
) -> Result<Vec<u8>, AllocError>
    ensures { IfOk result (λ text. text.items ≡ spelling (record { files = all_named files.now; changes = all_notes changes.now; more = more.now })) }
{
    let mut bytes = Vec::new(alloc);
    put_files(&mut bytes, files)?;
    put_changes(&mut bytes, changes)?;
    put_string(&mut bytes, more)?;
    let mut text = Vec::with_capacity(alloc, 48 + bytes.len())?;
    text.extend_from_slice(b"dasdsav\x01")?;
    put_number(&mut text, bytes.len() as u64)?;
    text.extend_from_slice(&Sha256::digest(bytes.as_slice()))?;
    text.extend_from_slice(&bytes)?;
    Ok(text)
}

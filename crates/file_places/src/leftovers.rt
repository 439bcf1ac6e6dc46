//! New files that a program left behind which was killed as it wrote them.

ghost use Rattle.std.specs.Prelude.{◌≡◌, IfErr};
ghost use Rattle.std.specs.IoError.{error_kind};

use crate::drafts::NAME_BEGIN;
use crate::notes::{Notes, Told};
use std::fs::{self, DirEntry, File};
use std::io::{self, ErrorKind};
use std::os::unix::fs::MetadataExt;
use std::path::Path;
use std::process;

/// Removes from a folder the new files that programs left which were killed before these took their places, and remarks each. A file
/// whose program still runs, which is locked, or which the host does not give away, stays.
///
/// # Errors
///
/// There is no memory to look at the folder.
pub fn clear_folder<N: Notes>(notes: &N, folder: Path<'_>) -> io::Result<()> {
    let entries = match fs::read_dir(notes.host(), folder) {
        Ok(entries) => entries,
        Err(fault) => return unless_memory(fault),
    };
    for entry in entries {
        match entry {
            Ok(entry) => clear(notes, &entry),
            Err(fault) => unless_memory(fault)?,
        }
    }
    Ok(())
}

// A folder that can't be read is left as it is.
fn unless_memory(fault: io::Error) -> io::Result<()>
    ensures { IfErr result (λ e. error_kind e ≡ ErrorKind.OutOfMemory) }
{
    match fault.kind() {
        ErrorKind::OutOfMemory => Err(fault),
        _ => Ok(()),
    }
}

// Removes a file that was left.
fn clear<N: Notes>(notes: &N, entry: &DirEntry) {
    let host = notes.host();
    let Some(number) = program_of(entry.file_name()) else {
        return;
    };
    let path = entry.path();
    if number == process::id(host.process()) || is_running(host, number) {
        return;
    }
    if let Some(_locked) = lock_left(host, path) {
        if fs::remove_file(host, path.as_str()).is_ok() {
            notes.note(&Told::Removed(path.as_str()));
        }
    }
}

// The number of the program that made a new file of this name.
fn program_of(name: &str) -> Option<u32> {
    let (program, turn) = name.strip_prefix(NAME_BEGIN)?.split_once('-')?;
    let _turn = read_number(turn)?;
    read_number(program)
}

// Decimal digits alone.
fn read_number(digits: &str) -> Option<u32> {
    if !digits.bytes().all(|byte| byte.is_ascii_digit()) {
        return None;
    }
    digits.parse::<u32>().ok()
}

// Whether a program of this number runs, as far as the host says so.
fn is_running(host: &HostRuntime, number: u32) -> bool {
    match format!(in host.alloc(); "/proc/{number}") {
        Ok(path) => fs::metadata(host, path.as_str()).is_ok(),
        Err(_) => true,
    }
}

// The regular file of this name, locked, if nobody else has locked it.
fn lock_left(host: &HostRuntime, path: Path<'_>) -> Option<File> {
    let named = fs::symlink_metadata(host, path).ok()?;
    if !named.is_file() {
        return None;
    }
    let file = File::open(host, path).ok()?;
    file.try_lock().ok()?;
    let known = file.metadata().ok()?;
    (known.dev() == named.dev() && known.ino() == named.ino()).then_some(file)
}

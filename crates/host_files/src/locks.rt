//! Files of the host that are locked, and that may be replaced.

ghost use Rattle.std.specs.Prelude.{◌≡◌, ◌+◌, length, OnOk};
ghost use Rattle.std.specs.IoError.{error_kind};

use crate::drafts::{HostDraft, Old};
use crate::remarks::Remarks;
use file_journals::{open_target, whole_file};
use file_places::{Notes, create_beside, home_of, is_same, wrong};
use std::alloc::Global;
use std::fs::{File, Metadata, OpenOptions, TryLockError};
use std::io::{Error, ErrorKind};
use std::os::unix::fs::MetadataExt;
use std::path::PathBuf;
use std::{fs, io};

/// How often a file is opened again that was replaced before it was locked.
const TRIES: usize = 16;

/// A file of the host: its device, and its number there.
type Node = (u64, u64);

/// A file that is locked.
#[derive(Drop)]
pub(crate) struct Locked {
    file: File,
    /// What was known of it before it was read.
    known: Metadata,
    path: String,
}

// A file that is in use.
fn busy(why: &str) -> Error
    ensures { error_kind result ≡ ErrorKind.ResourceBusy }
{
    Error::new(ErrorKind::ResourceBusy, why)
}

/// Whether a file was locked already.
pub(crate) fn is_locked(locked: &[Locked], known: &Metadata) -> bool {
    locked.iter().any(|held| is_same(&held.known, known))
}

/// Keeps what is known now of a file that was locked, before it is read, and whose save was maybe ended.
pub(crate) fn look_again(held: &mut [Locked], known: &Metadata) -> io::Result<()> {
    for locked in held.iter_mut() {
        if is_same(&locked.known, known) {
            locked.known = locked.file.metadata()?;
        }
    }
    Ok(())
}

// What was known of a file before it was read.
fn known_before(held: &[Locked], known: Metadata) -> io::Result<Metadata> {
    match held.iter().find(|it| is_same(&it.known, &known)) {
        Some(locked) => Ok(locked.known.clone()?),
        None => Ok(known),
    }
}

// The file that a path leads to, if there is one.
fn node_at(host: &HostRuntime, path: &str) -> Option<Node> {
    let known = fs::metadata(host, path).ok()?;
    Some((known.dev(), known.ino()))
}

// Opens a regular file; one that is to be replaced for writing too, where that is allowed.
fn open_regular(host: &HostRuntime, path: &str, replaces: bool) -> io::Result<File> {
    let known = fs::metadata(host, path)?;
    if !known.is_file() {
        return Err(wrong("not a regular file"));
    }
    if replaces && !known.permissions().readonly() {
        if let Ok(file) = OpenOptions::new().read(true).write(true).open(host, path) {
            return Ok(file);
        }
    }
    File::open(host, path)
}

// Locks a file that was opened; a file that is not written may be read by several users.
fn lock_file(file: &File, may_write: bool) -> io::Result<()> {
    let locked = if may_write {
        file.try_lock()
    } else {
        file.try_lock_shared()
    };
    match locked {
        Ok(()) => Ok(()),
        Err(TryLockError::WouldBlock) => Err(busy("another program has locked it")),
        Err(TryLockError::Error(fault)) => Err(fault),
    }
}

/// Opens a regular file and locks it: for one user, where it is to be replaced and may be written. One that was replaced before it was
/// locked is opened again.
pub(crate) fn open_locked(
    host: &HostRuntime,
    held: &[Locked],
    path: &str,
    replaces: bool,
) -> io::Result<(File, Metadata)> {
    for _ in 0..TRIES {
        let file = open_regular(host, path, replaces)?;
        let known = file.metadata()?;
        if is_locked(held, &known) {
            return Ok((file, known));
        }
        lock_file(&file, replaces && !known.permissions().readonly())?;
        let there = fs::metadata(host, path)?;
        if there.dev() == known.dev() && there.ino() == known.ino() {
            return Ok((file, known));
        }
    }
    Err(busy("another program replaces it"))
}

/// Keeps a file locked until the end.
pub(crate) fn keep(
    held: &mut Vec<Locked>,
    alloc: Global,
    path: &str,
    file: &File,
    known: &Metadata,
) -> io::Result<()>
    ensures { OnOk result (length held.new.items ≡ length held.old.items + 1) }
{
    let locked = Locked {
        file: file.try_clone()?,
        known: known.clone()?,
        path: path.to_string(alloc)?,
    };
    match held.push(locked) {
        Ok(()) => Ok(()),
        Err(_) => Err(Error::from(ErrorKind::OutOfMemory)),
    }
}

/// What is at a path that is to be written: a file that may be replaced, or written over in its place, which is locked from now on; or
/// none. A save of it that was cut off is ended.
pub(crate) fn find_old(
    remarks: &Remarks,
    held: &mut Vec<Locked>,
    path: &str,
    replaces: bool,
    in_place: bool,
) -> io::Result<Option<Old>> {
    let host = remarks.host();
    if let Err(fault) = fs::symlink_metadata(host, path) {
        return match fault.kind() {
            ErrorKind::NotFound => Ok(None),
            _ => Err(fault),
        };
    }
    if !replaces {
        return Err(Error::new(
            ErrorKind::AlreadyExists,
            "it is there, and is not to be replaced",
        ));
    }
    let target = target_of(host, path, in_place)?;
    let (file, known) = open_locked(host, held, target.as_str(), true)?;
    let is_new = !is_locked(held.as_slice(), &known);
    // another one than the path leads to now
    if is_new && held.iter().any(|locked| locked.path.as_str() == path) {
        return Err(wrong("another program has replaced it"));
    }
    let Old {
        path: home,
        known,
        target,
        is_unread: _,
    } = old_at(host, target, known, in_place)?;
    if is_new {
        keep(held, host.alloc(), path, &file, &known)?;
        whole_file(remarks, path, file, true)?;
        look_again(held.as_mut_slice(), &known)?;
    }
    Ok(Some(Old {
        path: home,
        known: known_before(held.as_slice(), known)?,
        target,
        is_unread: is_new,
    }))
}

// The path of a file that is to be written: without symbolic links, where it is replaced.
fn target_of(host: &HostRuntime, path: &str, in_place: bool) -> io::Result<PathBuf> {
    if in_place {
        return home_of(host, path);
    }
    match fs::canonicalize(host, path) {
        Err(fault) if fault.kind() == ErrorKind::InvalidFilename => {
            Err(wrong("it leads to a name that is not UTF-8: run without --replace writes there"))
        }
        found => found,
    }
}

// The file at a path that is to be written, if it may be.
fn old_at(host: &HostRuntime, path: PathBuf, known: Metadata, in_place: bool) -> io::Result<Old> {
    if known.permissions().readonly() {
        return Err(wrong("it may not be written"));
    }
    let target = if in_place {
        Some(open_target(host, path.as_str(), &known)?)
    } else {
        let _may_write = OpenOptions::new().write(true).open(host, path.as_str())?;
        None
    };
    Ok(Old {
        path,
        known,
        target,
        is_unread: false,
    })
}

/// Begins what would replace a file, or the journal beside one that is written over, and takes it back.
pub(crate) fn try_to_write(remarks: &Remarks, path: &str, in_place: bool) -> io::Result<()> {
    let host = remarks.host();
    let known = fs::metadata(host, path)?;
    let target = target_of(host, path, in_place)?;
    let old = old_at(host, target, known, in_place)?;
    if in_place {
        let (_journal, beside) = create_beside(host, old.path.as_path(), 0o600)?;
        return fs::remove_file(host, beside.as_path());
    }
    let _tried = HostDraft::begin(host, remarks, path, Some(old))?;
    Ok(())
}

/// Opens a file for a trace, and says whether it is a regular one. That is locked until the end; it is none of these files, and not
/// standard input or output.
pub(crate) fn open_trace_file(
    host: &HostRuntime,
    held: &mut Vec<Locked>,
    path: &str,
    beside: &[&str],
) -> io::Result<(File, bool)> {
    let input = node_at(host, "/dev/stdin");
    let output = node_at(host, "/dev/stdout");
    let file = OpenOptions::new()
        .write(true)
        .create(true)
        .open(host, path)?;
    let known = file.metadata()?;
    if !known.is_file() {
        return Ok((file, false));
    }
    let node = Some((known.dev(), known.ino()));
    if node == input || node == output {
        return Err(busy("it is standard input or output"));
    }
    if beside.iter().any(|other| node_at(host, other) == node) {
        return Err(busy("this run uses it already"));
    }
    lock_file(&file, true)?;
    keep(held, host.alloc(), path, &file, &known)?;
    Ok((file, true))
}

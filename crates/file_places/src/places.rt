//! Where journals lie.

use crate::notes::{Notes, Told};
use std::fs::{self, File};
use std::io::{self, ErrorKind};
use std::path::{Path, PathBuf};

/// What the name of a journal ends with, after a point and the name of its file.
const JOURNAL: &str = ".dasd-journal";

/// How long a name may be.
const LONGEST: usize = 255;

/// The folder of a path.
pub fn folder_of(path: Path<'_>) -> Path<'_> {
    match path.parent() {
        Some(folder) if !folder.as_str().is_empty() => folder,
        _ => Path::new("."),
    }
}

/// Where a file lies that a path leads to: where a symbolic link leads, if that is a text, and else where the link stands.
///
/// # Errors
///
/// The host can't say it, or there is no memory.
pub fn home_of(host: &HostRuntime, path: &str) -> io::Result<PathBuf> {
    match fs::symlink_metadata(host, path) {
        Ok(known) if known.is_symlink() => {}
        Err(fault) if fault.kind() != ErrorKind::NotFound => return Err(fault),
        _ => return Ok(Path::new(path).to_path_buf(host.alloc())?),
    }
    match fs::canonicalize(host, path) {
        Ok(home) => Ok(home),
        Err(fault) => match fault.kind() {
            ErrorKind::InvalidFilename | ErrorKind::NotFound | ErrorKind::PermissionDenied => {
                Ok(Path::new(path).to_path_buf(host.alloc())?)
            }
            _ => Err(fault),
        },
    }
}

/// Has the names of a folder on the disk. A file system that has no such sync does without, which is noted.
///
/// # Errors
///
/// The host can't open the folder, or can't write it.
pub fn sync_folder<N: Notes>(notes: &N, folder: Path<'_>) -> io::Result<()> {
    if !sync_names(notes.host(), folder)? {
        notes.note_once(&Told::NoSync(folder.as_str()));
    }
    Ok(())
}

/// The same, and whether the file system has such a sync.
pub fn sync_names(host: &HostRuntime, folder: Path<'_>) -> io::Result<bool> {
    match File::open(host, folder)?.sync_all() {
        Ok(()) => Ok(true),
        Err(fault) => match fault.kind() {
            ErrorKind::InvalidInput | ErrorKind::Unsupported => Ok(false),
            _ => Err(fault),
        },
    }
}

/// The path of what is beside a file that lies here while it is saved: the journal, or what leads to that. None where no name has room
/// for it.
pub fn beside(host: &HostRuntime, home: Path<'_>) -> io::Result<Option<PathBuf>> {
    let name = format!(in host.alloc(); ".{}{JOURNAL}", name_of(home))?;
    if name.as_str().len() > LONGEST {
        return Ok(None);
    }
    Ok(Some(folder_of(home).join(host.alloc(), name.as_str())?))
}

/// The name at the end of a path.
pub fn name_of(path: Path<'_>) -> &str {
    path.file_name().unwrap_or("")
}

/// Whether nothing is at a path.
pub fn is_free(host: &HostRuntime, path: Path<'_>) -> io::Result<bool> {
    match fs::symlink_metadata(host, path) {
        Err(fault) if fault.kind() == ErrorKind::NotFound => Ok(true),
        Err(fault) => Err(fault),
        Ok(_) => Ok(false),
    }
}

/// How a path is spelled from the folder of another one.
///
/// # Errors
///
/// The host can't say where the folders are, or there is no memory.
pub fn from_folder(host: &HostRuntime, from: Path<'_>, path: Path<'_>) -> io::Result<String> {
    let (here, there) = (folder_of(from), folder_of(path));
    let mut spelled = String::new(host.alloc());
    if here.as_str() != there.as_str() {
        let (here, there) = (
            fs::canonicalize(host, here)?,
            fs::canonicalize(host, there)?,
        );
        let here = here.as_str().trim_end_matches('/');
        let there = there.as_str().trim_end_matches('/');
        let mut shared = 0usize;
        for (one, other) in here.split('/').zip(there.split('/')) {
            if one != other {
                break;
            }
            shared = shared.saturating_add(1);
        }
        for _ in here.split('/').skip(shared) {
            spelled.push_str("../")?;
        }
        for step in there.split('/').skip(shared) {
            spelled.push_str(step)?;
            spelled.push_str("/")?;
        }
    }
    spelled.push_str(name_of(path))?;
    Ok(spelled)
}

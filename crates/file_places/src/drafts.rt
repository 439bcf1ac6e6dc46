//! New files under hidden names, which then get their own.

ghost use Rattle.std.specs.Prelude.{◌≡◌};

use crate::known::is_same;
use crate::places::folder_of;
use std::fs::{self, File, OpenOptions, TryLockError};
use std::io::{self, Error, ErrorKind, Write};
use std::os::unix::fs::{MetadataExt, OpenOptionsExt, fchown};
use std::path::{Path, PathBuf};
use std::process;

/// What the name of a new file begins with, before the number of its program and a number of its own.
pub const NAME_BEGIN: &str = ".dasd-";

/// How many names are tried for a new file.
const NAMES: u32 = 1_000;

/// Makes a file in the folder of a path, where nothing is, and keeps it locked, so that it is seen to be at work.
///
/// # Errors
///
/// The host refuses it, or there is no memory.
pub fn create_beside(host: &HostRuntime, path: Path<'_>, mode: u32) -> io::Result<(File, PathBuf)> {
    let folder = folder_of(path);
    let number = process::id(host.process());
    for turn in 0..NAMES {
        let name = format!(in host.alloc(); "{NAME_BEGIN}{number}-{turn}")?;
        let beside = folder.join(host.alloc(), name.as_str())?;
        let made = OpenOptions::new()
            .read(true)
            .write(true)
            .create_new(true)
            .mode(mode)
            .open(host, beside.as_str());
        match made {
            Ok(file) => match is_held(host, &file, beside.as_str()) {
                Ok(true) => return Ok((file, beside)),
                Ok(false) => {}
                Err(fault) => {
                    let _ = fs::remove_file(host, beside.as_str());
                    return Err(fault);
                }
            },
            Err(fault) if fault.kind() == ErrorKind::AlreadyExists => {}
            Err(fault) => return Err(fault),
        }
    }
    Err(Error::from(ErrorKind::AlreadyExists))
}

// Locks a new file, and says whether it still has its name: what clears up after others may have come between. Where a file system has
// no locks it goes without.
fn is_held(host: &HostRuntime, file: &File, path: &str) -> io::Result<bool> {
    match file.try_lock() {
        Err(TryLockError::WouldBlock) => return Ok(false),
        Ok(()) | Err(TryLockError::Error(_)) => {}
    }
    let made = file.metadata()?;
    match fs::symlink_metadata(host, path) {
        Ok(there) => Ok(is_same(&there, &made)),
        Err(fault) if fault.kind() == ErrorKind::NotFound => Ok(false),
        Err(fault) => Err(fault),
    }
}

/// Makes a file with these bytes in the folder of a path, which nobody but this owner may read, if the host gives it to him, and has them
/// on the disk; its hidden name.
pub fn make_file(
    host: &HostRuntime,
    path: Path<'_>,
    owner: u32,
    bytes: &[u8],
) -> io::Result<PathBuf> {
    let (file, hidden) = create_beside(host, path, 0o600)?;
    let made = fill(file, owner, bytes);
    if let Err(fault) = made {
        let _ = fs::remove_file(host, hidden.as_path());
        return Err(fault);
    }
    Ok(hidden)
}

fn fill(mut file: File, owner: u32, bytes: &[u8]) -> io::Result<()> {
    if file.metadata()?.uid() != owner {
        let _ = fchown(&file, Some(owner), None);
    }
    file.write_all(bytes)?;
    file.sync_all()
}

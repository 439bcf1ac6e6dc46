//! Journals of version 1.1.0, whose names have the number of their files: they begin with what is saved, and for each byte of that have the
//! bits by which what the file held differs from it.

ghost use Rattle.std.specs.Prelude.{◌≡◌, ◌≤◌, IfOk, IfSome};
ghost use Rattle.std.specs.Fs.{metadata_len};

use crate::bytes::are_either;
use crate::changes::Looked;
use crate::hosts::{birth_of, write_at};
use crate::journals::{UNREAD, UNWRITABLE, check_owner, refuse};
use crate::recovery::{WholeFile, open_writable};
use file_places::{Notes, Told, folder_of, home_of, is_same, sync_folder, wrong};
use std::fs::{self, File, Metadata};
use std::io::{self, ErrorKind};
use std::os::unix::fs::MetadataExt;
use std::path::{Path, PathBuf};

/// How many bytes are compared, and written, at once.
const BLOCK: usize = 16_384;

/// The journal of a file. Where its bytes or those of the file can't be read, it notes where and why.
#[derive(Drop)]
struct OldJournal<'a, N: Notes> {
    notes: &'a N,
    /// The path of its file as it was given.
    given: &'a str,
    file: File,
    path: PathBuf,
    /// How many bytes are saved.
    len: u64,
}

/// What is read of a file that was opened by a path, as `whole_file` says.
///
/// # Errors
///
/// Its journal can't be read, or is not of this file; or the save can't be completed.
pub(crate) fn whole_by_old<N: Notes>(
    notes: &N,
    path: &str,
    file: File,
    may_write: bool,
) -> io::Result<WholeFile> {
    let known = file.metadata()?;
    let Some(journal) = find(notes, path, &known)? else {
        return Ok(WholeFile {
            file,
            journal: None,
        });
    };
    if !journal.pass(&file, false)? {
        notes.tell(&Told::Changed(path, journal.path.as_str()));
        return Err(wrong("it was written by another program since"));
    }
    if may_write {
        if let Some(target) = open_writable(notes.host(), path, &known)? {
            journal.end(&target)?;
            return Ok(WholeFile {
                file,
                journal: None,
            });
        }
    }
    notes.tell(&Told::Instead(path, journal.path.as_str()));
    Ok(WholeFile {
        file: journal.file,
        journal: None,
    })
}

/// Completes the save of a file, and says whether there was a journal.
///
/// # Errors
///
/// As of `whole_by_old`; or the file may not be written.
pub(crate) fn complete_old<N: Notes>(notes: &N, path: &str, file: &File) -> io::Result<bool> {
    let known = file.metadata()?;
    let Some(journal) = find(notes, path, &known)? else {
        return Ok(false);
    };
    if !journal.pass(file, false)? {
        notes.tell(&Told::Changed(path, journal.path.as_str()));
        return Err(wrong("it was written by another program since"));
    }
    let Some(target) = open_writable(notes.host(), path, &known)? else {
        return Err(io::Error::new(ErrorKind::PermissionDenied, UNWRITABLE));
    };
    journal.end(&target)?;
    Ok(true)
}

/// Removes the journal of a file, unless the save can be completed by it, and says whether there was one.
///
/// # Errors
///
/// Its journal can't be read, or fits the file; or the host refuses something.
pub(crate) fn drop_old<N: Notes>(notes: &N, path: &str, file: &File) -> io::Result<bool> {
    let Some(journal) = find(notes, path, &file.metadata()?)? else {
        return Ok(false);
    };
    let place = journal.path.as_path();
    if journal.pass(file, false)? {
        notes.tell(&Told::Needed(path, place.as_str()));
        return Err(wrong(UNREAD));
    }
    fs::remove_file(notes.host(), place)?;
    sync_folder(notes, folder_of(place))?;
    notes.tell(&Told::Dropped(path, place.as_str()));
    Ok(true)
}

// The journal of the file to which a path leads, if there is one. What is no regular file is none.
fn find<'a, N: Notes>(
    notes: &'a N,
    path: &'a str,
    known: &Metadata,
) -> io::Result<Option<OldJournal<'a, N>>>
    ensures { IfOk result (λ found. IfSome found (λ it. it.len ≡ metadata_len known.now)) }
{
    let host = notes.host();
    let home = home_of(host, path)?;
    let name = format!(in host.alloc(); ".dasd+{}", known.ino())?;
    let place = folder_of(home.as_path()).join(host.alloc(), name.as_str())?;
    match open(host, place.as_path(), known) {
        Ok(Some(file)) => Ok(Some(OldJournal {
            notes,
            given: path,
            file,
            path: place,
            len: known.len(),
        })),
        Ok(None) => Ok(None),
        Err(fault) if fault.kind() == ErrorKind::NotFound => Ok(None),
        Err(fault) => Err(refuse(notes, place.as_path(), fault)),
    }
}

// Opens a journal: it is the owner's of its file, one's own or that of root, as long as it must be, and no older than its file.
fn open(host: &HostRuntime, place: Path<'_>, of: &Metadata) -> io::Result<Option<File>> {
    let named = fs::symlink_metadata(host, place)?;
    if !named.is_file() {
        return Ok(None);
    }
    let file = File::open(host, place)?;
    let known = file.metadata()?;
    if !is_same(&known, &named) {
        return Err(io::Error::from(ErrorKind::ResourceBusy));
    }
    check_owner(host, &known, of)?;
    if known.len() != of.len().saturating_mul(2) {
        return Err(wrong("a journal of another length than its file has"));
    }
    if birth_of(of) > birth_of(&known) && birth_of(&known) != 0 {
        let why =
            "a journal that is older than its file: remove it, and the file is taken as it is";
        return Err(wrong(why));
    }
    Ok(Some(file))
}

impl<N: Notes> OldJournal<'_, N> {
    // Writes what is saved over the bytes of the target, and takes the journal away once that is on the disk.
    fn end(&self, target: &File) -> io::Result<()> {
        let written = match self.pass(target, true) {
            Ok(_) => target.sync_all(),
            Err(fault) => Err(fault),
        };
        if written.is_err() {
            self.notes.tell(&Told::Begun(self.given));
            return written;
        }
        let removed = match fs::remove_file(self.notes.host(), self.path.as_path()) {
            Ok(()) => sync_folder(self.notes, folder_of(self.path.as_path())),
            Err(fault) => Err(fault),
        };
        self.notes.tell(&match &removed {
            Ok(()) => Told::Ended(self.given),
            Err(_) => Told::Saved(self.given),
        });
        removed
    }

    // Writes each block in which a byte differs; or says whether each byte is one that is saved, or was there before.
    fn pass(&self, target: &File, writes: bool) -> io::Result<bool> {
        let mut at = 0u64;
        for _ in 0..u64::MAX {
            let count = self.len.saturating_sub(at).min(BLOCK as u64) as usize;
            if count == 0 {
                break;
            }
            if !self.do_block(target, writes, at, count)? {
                return Ok(false);
            }
            at = at.saturating_add(count as u64);
        }
        Ok(true)
    }

    // The same of one block.
    fn do_block(&self, target: &File, writes: bool, at: u64, count: usize) -> io::Result<bool>
        requires { count ≤ BLOCK }
    {
        let target_read = Looked {
            notes: self.notes,
            path: self.given,
            file: target,
            place: 0,
        };
        let own = Looked {
            notes: self.notes,
            path: self.given,
            file: &self.file,
            place: 0,
        };
        let mut saved = [0u8; BLOCK];
        let mut differing = [0u8; BLOCK];
        own.read(&mut saved[..count], at)?;
        own.read(&mut differing[..count], self.len.saturating_add(at))?;
        if !writes {
            let mut held = [0u8; BLOCK];
            target_read.read(&mut held[..count], at)?;
            return Ok(are_either(&saved[..count], &differing[..count], &held[..count]));
        }
        if differing[..count].iter().any(|bits| *bits != 0) {
            write_at(target, &saved[..count], at)?;
        }
        Ok(true)
    }
}

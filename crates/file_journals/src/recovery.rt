//! Saves that were cut off: they are completed, or read through their journals.

ghost use Rattle.std.specs.Prelude.{◌≡◌, ◌-◌, length, slice_index_or, Some, IfErr, OnOk};
ghost use Rattle.std.specs.IoError.{error_kind};
ghost use Rattle.atomic_save.specs.Changes.{notes};
ghost use Rattle.atomic_save.specs.Calls.{shown};
ghost use Rattle.atomic_save.specs.Saves.{SafeThroughout, SameThroughout, SavedFor, NoJournal};
ghost use Rattle.file_journals.specs.Told.{Tells};

use crate::changes::{Held, Looked};
use crate::hosts::{OpenedFile, SaveHost, id_of};
use crate::journals::{Beside, FoundJournal, UNREAD, check_owner, look_beside, place_in};
use crate::old_journals::whole_by_old;
use crate::saves::{SaveFault, open_target, settle, told};
use atomic_save::{Change, Found, HostFault, Journal, JournalFile, finish, open};
use file_places::{Notes, Told, beside, folder_of, wrong};
use ghost_data::{Count, Trace};
use std::fs::{self, File, Metadata, TryLockError};
use std::io::{self, ErrorKind};
use std::os::unix::fs::{FileExt, MetadataExt};
use std::path::{Path, PathBuf};

/// What is read of a file: its bytes, and over them those of its journal.
#[derive(Drop)]
pub struct WholeFile {
    pub(crate) file: File,
    /// Its number in the journal, and what that says.
    pub(crate) journal: Option<(usize, Vec<Change>)>,
}

impl WholeFile {
    /// Reads the bytes from `at` on that fill `into`.
    ///
    /// # Errors
    ///
    /// The host can't read them.
    pub fn read_exact_at(&self, into: &mut [u8], at: u64) -> io::Result<()>
        ensures { length into.new ≡ length into.old }
    {
        let Some((place, changes)) = &self.journal else {
            return self.file.read_exact_at(into, at);
        };
        let mut found = FoundFile {
            file: &self.file,
            changes,
            at: 0,
            read: Trace::new(),
            refused: Count::new(),
            fault: None,
        };
        match open(&mut found, *place, at, into) {
            Ok(()) => Ok(()),
            Err(_) => Err(
                found
                    .fault
                    .take()
                    .unwrap_or(io::Error::from(ErrorKind::Other)),
            ),
        }
    }
}

/// A file and its journal, as they are found by one read.
#[derive(Drop)]
struct FoundFile<'a> {
    file: &'a File,
    changes: &'a [Change],
    /// What was read, and from where on, which contracts alone read.
    at: u64,
    read: Trace,
    refused: Count,
    fault: Option<io::Error>,
}

impl Found for FoundFile<'_> {
    ghost state = { λ f. record { held = λ _ k. slice_index_or f.read.bytes (k - f.at) 0; journal = Some (notes f.changes.now) } };

    ghost faults = { λ f. f.refused };

    fn changes(&self) -> &[Change] {
        self.changes
    }

    fn read_at(&mut self, _file: usize, at: u64, into: &mut [u8]) -> Result<(), HostFault> {
        match self.file.read_exact_at(into, at) {
            Ok(()) => {
                self.at = at;
                self.read = Trace::of(into);
                Ok(())
            }
            Err(fault) => {
                self.refused = self.refused.next();
                self.fault = Some(fault);
                Err(HostFault::Refused)
            }
        }
    }
}

/// What is read in the place of a file that was opened by a path: the file, once a save of it that was cut off is completed, if all files
/// of that may be written; and else its journal over it.
///
/// # Errors
///
/// The journal is not there, can't be read, or is not of this file; or the save can't be completed.
pub fn whole_file<N: Notes>(
    notes: &N,
    path: &str,
    file: File,
    may_write: bool,
) -> io::Result<WholeFile> {
    let known = file.metadata()?;
    match look_beside(notes, path, &file, &known)? {
        Beside::Journal(found) => return take_up(notes, path, found, file, may_write),
        Beside::Idle(marker, _) if may_write => {
            let _ = fs::remove_file(notes.host(), marker.as_path());
        }
        _ => {}
    }
    check_released(notes, path, &file)?;
    whole_by_old(notes, path, file, may_write)
}

/// Looks whether a program between two versions was cut off as it saved a file.
///
/// # Errors
///
/// It was, which is told.
pub(crate) fn check_released<N: Notes>(notes: &N, path: &str, file: &File) -> io::Result<()>
    ensures { IfErr result (λ fault. error_kind fault ≡ ErrorKind.InvalidInput) }
{
    let mut first = [0; 8];
    let is_read = file.read_exact_at(&mut first, 0).is_ok();
    if is_read && (first == *b"dasd+cut" || first == *b"dasd+all") {
        notes.tell(&Told::Unreleased(path));
        return Err(wrong(UNREAD));
    }
    Ok(())
}

// What is read of a file whose save was cut off.
fn take_up<N: Notes>(
    notes: &N,
    path: &str,
    found: FoundJournal,
    file: File,
    may_write: bool,
) -> io::Result<WholeFile> {
    check_fit(notes, path, &found, &file, found.place)?;
    if may_write {
        if let Some(files) = open_all(notes, path, &found)? {
            complete(notes, path, &found, files)?;
            return Ok(WholeFile {
                file,
                journal: None,
            });
        }
    }
    notes.tell(&Told::Instead(path, found.path.as_str()));
    let FoundJournal {
        path: _,
        known: _,
        journal,
        place,
    } = found;
    let Journal {
        files: _,
        changes,
        more: _,
    } = journal;
    Ok(WholeFile {
        file,
        journal: Some((place, changes)),
    })
}

/// Looks whether another program wrote a file since.
///
/// # Errors
///
/// It did, which is told, or the host can't read the file.
pub(crate) fn check_fit<N: Notes>(
    notes: &N,
    path: &str,
    found: &FoundJournal,
    file: &File,
    place: usize,
) -> io::Result<()> {
    let it = Looked {
        notes,
        path,
        file,
        place,
    };
    if it.fits(&found.journal, Held::Either)? {
        return Ok(());
    }
    notes.tell(&Told::Changed(path, found.path.as_str()));
    Err(wrong("it was written by another program since"))
}

/// Opens all files of a journal, of which one is this, to be written, and locks the others; none where one may not be written.
///
/// # Errors
///
/// One is not there, is another file, is locked or does not fit, or the host can't open it.
pub(crate) fn open_all<N: Notes>(
    notes: &N,
    path: &str,
    found: &FoundJournal,
) -> io::Result<Option<Vec<OpenedFile>>> {
    let alloc = notes.host().alloc();
    let mut files = Vec::new(alloc);
    for (place, it) in found.journal.files.iter().enumerate() {
        let home = home_in(notes.host(), found.path.as_path(), it)?;
        let is_this = place == found.place;
        let given = if is_this { path } else { home.as_str() };
        let Some(file) = open_one(notes, given, found, place)? else {
            return Ok(None);
        };
        if !is_this {
            check_fit(notes, given, found, &file, place)?;
        }
        let known = file.metadata()?;
        let beside = match beside(notes.host(), home.as_path())? {
            Some(marker) if place > 0 => marker,
            _ => found.path.clone()?,
        };
        files.push(OpenedFile {
            id: id_of(&known),
            owner: known.uid(),
            beside,
            home,
            file,
        })?;
    }
    Ok(Some(files))
}

/// Where a file lies by the journal at this path.
///
/// # Errors
///
/// Its name is no text, or there is no memory.
pub(crate) fn home_in(
    host: &HostRuntime,
    journal: Path<'_>,
    it: &JournalFile,
) -> io::Result<PathBuf> {
    let Ok(name) = str::from_utf8(&it.name) else {
        return Err(wrong(UNREAD));
    };
    Ok(folder_of(journal).join(host.alloc(), name)?)
}

// Opens a file of a journal, and locks it, unless it is that of the caller; none where it may not be written.
fn open_one<N: Notes>(
    notes: &N,
    path: &str,
    found: &FoundJournal,
    place: usize,
) -> io::Result<Option<File>> {
    let host = notes.host();
    let known = match fs::metadata(host, path) {
        Err(fault) if fault.kind() == ErrorKind::NotFound => {
            notes.tell(&Told::Missing(path, found.path.as_str()));
            return Err(wrong(UNREAD));
        }
        known => known?,
    };
    if place_in(&found.journal, &id_of(&known)) != Some(place) {
        notes.tell(&Told::Other(path, found.path.as_str()));
        return Err(wrong(UNREAD));
    }
    check_owner(host, &found.known, &known)?;
    let opened = open_writable(host, path, &known)?;
    if let (Some(file), true) = (&opened, place != found.place) {
        if let Err(TryLockError::WouldBlock) = file.try_lock() {
            let why = "another program has locked it";
            return Err(io::Error::new(ErrorKind::ResourceBusy, why));
        }
    }
    Ok(opened)
}

/// Completes a save by its journal, of whose files one was found by a path.
///
/// # Errors
///
/// The host refuses something; what that leaves of the files is told.
pub(crate) fn complete<N: Notes>(
    notes: &N,
    path: &str,
    found: &FoundJournal,
    files: Vec<OpenedFile>,
) -> io::Result<()> {
    let journal = &found.journal;
    let more = Vec::from_slice(notes.host().alloc(), &journal.more)?;
    let mut host = SaveHost::new(notes.host(), files, more, Some(&journal.changes))?;
    let ended = finish_all(&mut host, journal);
    let ended = settle(notes, &host, ended, false);
    for (place, it) in host.files.iter().enumerate() {
        let given = if place == found.place {
            path
        } else {
            it.home.as_str()
        };
        match &ended {
            Ok(()) => notes.tell(&Told::Ended(given)),
            Err((_, SaveFault::Saved(_))) => notes.tell(&Told::Saved(given)),
            Err(_) => notes.tell(&Told::Begun(given)),
        }
    }
    match ended {
        Ok(()) => Ok(()),
        Err((_, SaveFault::Kept(fault) | SaveFault::Begun(fault) | SaveFault::Saved(fault))) => Err(
            fault,
        ),
    }
}

#[tactic(auto, using(crate::proofs::Telling::finish_tells))]
// Writes all that a journal says, as one.
fn finish_all(host: &mut SaveHost<'_>, journal: &Journal) -> Result<(), (usize, SaveFault)>
    requires shown { shown host.old.log.events ≡ Some (notes journal.now.changes.items) }
    ensures any_moment { SafeThroughout (notes journal.now.changes.items) host.old.log.events host.new.log.events }
    ensures same { SameThroughout host.old.log.events host.new.log.events }
    ensures saved { OnOk result (SavedFor (notes journal.now.changes.items) host.old.log.events host.new.log.events) }
    ensures gone { OnOk result (NoJournal host.new.log.events) }
    ensures told { IfErr result (λ it. Tells journal.now.changes.items host.old.log.events host.new.log.events it.1) }
{
    let saved = finish(host, journal);
    let fault = host.fault.take();
    told(saved, fault)
}

/// Opens the file that a path leads to for reading and writing, unless it may not be written.
///
/// # Errors
///
/// It can't be opened, or it is another than this one.
pub(crate) fn open_writable(
    host: &HostRuntime,
    path: &str,
    known: &Metadata,
) -> io::Result<Option<File>> {
    match open_target(host, path, known) {
        Ok(target) => Ok(Some(target)),
        Err(fault) => match fault.kind() {
            ErrorKind::PermissionDenied | ErrorKind::ReadOnlyFilesystem => Ok(None),
            _ => Err(fault),
        },
    }
}

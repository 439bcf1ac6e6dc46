//! Saves of files in their places.

ghost use Rattle.std.specs.Prelude.{◌≡◌, None, Ok, IfOk, IfErr, OnOk};
ghost use Rattle.atomic_save.specs.Changes.{notes};
ghost use Rattle.atomic_save.specs.Calls.{shown};
ghost use Rattle.atomic_save.specs.Saves.{SafeThroughout, SavedFor, NoJournal};
ghost use Rattle.file_journals.specs.Told.{TellsOf, Tells, Settles};

use crate::changes::{Changes, Looked};
use crate::hosts::{OpenedFile, SaveHost, id_of};
use crate::new_bytes::NewBytes;
use atomic_save::{Change, save};
use file_places::{Notes, Told, beside, folder_of, is_free, is_same, wrong};
use std::fs::{self, File, Metadata, OpenOptions};
use std::io::{self, ErrorKind};
use std::os::unix::fs::MetadataExt;
use std::path::{AsPath, Path};

/// Why a save in place did not come to its end, and what the files are.
#[derive(Drop)]
pub enum SaveFault {
    /// They are as they were.
    Kept(io::Error),
    /// The journal may be there, and they are to be written by that.
    Begun(io::Error),
    /// They have all that is saved, for good; the journal may be there.
    Saved(io::Error),
}

/// A file that is saved in its place.
#[derive(Drop)]
pub struct Part<'a> {
    /// Its path as it was given.
    pub given: &'a str,
    /// Where it lies.
    pub home: Path<'a>,
    /// The file.
    pub target: &'a File,
    /// What is to be in it, which a save takes.
    pub new: Option<NewBytes>,
}

/// Saves these files in their places by `atomic_save`: all, or none.
///
/// # Errors
///
/// The place of the file for which the host refuses something, and what that leaves of all of them, which is told.
pub fn save_files<N: Notes>(notes: &N, parts: &mut [Part<'_>]) -> Result<(), (usize, SaveFault)> {
    let mut at = 0;
    let (mut host, changes) = match plan(notes, parts, &mut at) {
        Ok(planned) => planned,
        Err(fault) => return Err((at, SaveFault::Kept(fault))),
    };
    if changes.is_empty() {
        return Ok(());
    }
    let saved = save_all(&mut host, &changes);
    let saved = settle(notes, &host, saved, true);
    for part in parts.iter() {
        match &saved {
            Err((_, SaveFault::Begun(_))) => notes.tell(&Told::Begun(part.given)),
            Err((_, SaveFault::Saved(_))) => notes.tell(&Told::Saved(part.given)),
            _ => {}
        }
    }
    saved
}

// The host of a save of these files, and what that changes; meanwhile `at` is the file that is looked at.
fn plan<'a, N: Notes>(
    notes: &'a N,
    parts: &mut [Part<'_>],
    at: &mut usize,
) -> io::Result<(SaveHost<'a>, Vec<Change>)>
    ensures { IfOk result (λ it. shown it.0.log.events ≡ None) }
{
    let host = notes.host();
    let mut files = Vec::new(host.alloc());
    let mut changes = Changes::new(host.alloc());
    for (place, part) in parts.iter_mut().enumerate() {
        *at = place;
        files.push(open_part(host, part)?)?;
        let it = Looked {
            notes,
            path: part.given,
            file: part.target,
            place,
        };
        match part.new.take() {
            Some(new) => changes.add(place, new.end(&it)?)?,
            None => return Err(wrong("what is new of it is saved already")),
        }
    }
    let (changes, known) = changes.in_order(&files)?;
    let host = SaveHost::new(host, files, known, None)?;
    Ok((host, changes))
}

// What is known of a file that is to be saved, at whose side nothing is.
fn open_part(host: &HostRuntime, part: &Part<'_>) -> io::Result<OpenedFile> {
    let known = part.target.metadata()?;
    let Some(place) = beside(host, part.home)? else {
        return Err(wrong("its name leaves no room for that of a journal"));
    };
    if !is_free(host, place.as_path())? {
        return Err(wrong("something is at the name of its journal"));
    }
    Ok(OpenedFile {
        file: part.target.try_clone()?,
        home: part.home.to_path_buf(host.alloc())?,
        beside: place,
        id: id_of(&known),
        owner: known.uid(),
    })
}

#[tactic(auto, using(crate::proofs::Telling::tells))]
// Saves all changes as one.
fn save_all(host: &mut SaveHost<'_>, changes: &[Change]) -> Result<(), (usize, SaveFault)>
    requires free { shown host.old.log.events ≡ None }
    ensures any_moment { SafeThroughout (notes changes.now) host.old.log.events host.new.log.events }
    ensures saved { OnOk result (SavedFor (notes changes.now) host.old.log.events host.new.log.events) }
    ensures gone { OnOk result (NoJournal host.new.log.events) }
    ensures told { IfErr result (λ it. Tells changes.now host.old.log.events host.new.log.events it.1) }
{
    let saved = save(host, changes);
    let fault = host.fault.take();
    told(saved, fault)
}

/// What a save says, with the file for which the system refused something, and why.
pub(crate) fn told(
    saved: Result<(), atomic_save::SaveFault>,
    fault: Option<(usize, io::Error)>,
) -> Result<(), (usize, SaveFault)>
    ensures done { OnOk result (saved ≡ Ok tt) }
    ensures kind { TellsOf saved result }
{
    let Err(outcome) = saved else {
        return Ok(());
    };
    let (place, fault) = fault.unwrap_or((0, wrong("its journal is of other files")));
    Err((
        place,
        match outcome {
            atomic_save::SaveFault::Begun(_) => SaveFault::Begun(fault),
            atomic_save::SaveFault::Saved(_) => SaveFault::Saved(fault),
            _ => SaveFault::Kept(fault),
        },
    ))
}

/// Takes away what a save leaves that is over, or that did not begin; the markers of one that is completed stay until that is done.
pub(crate) fn settle<N: Notes>(
    notes: &N,
    host: &SaveHost<'_>,
    saved: Result<(), (usize, SaveFault)>,
    is_new: bool,
) -> Result<(), (usize, SaveFault)>
    ensures done { OnOk result (saved ≡ Ok tt) }
    ensures settles { Settles saved result }
{
    if let (false, Some(it)) = (host.has_sync, host.files.first()) {
        notes.note_once(&Told::NoSync(folder_of(it.beside.as_path()).as_str()));
    }
    match saved {
        Ok(()) => match host.remove_markers() {
            Ok(()) => Ok(()),
            Err((place, fault)) => Err((place, SaveFault::Saved(fault))),
        },
        Err((place, SaveFault::Kept(fault))) => {
            if let Some(draft) = &host.draft {
                let _ = fs::remove_file(notes.host(), draft.as_path());
            }
            if is_new {
                let _ = host.remove_markers();
            }
            Err((place, SaveFault::Kept(fault)))
        }
        Err(fault) => Err(fault),
    }
}

/// Opens the file that a path leads to for reading and writing, if it is this one.
///
/// # Errors
///
/// It can't be opened so, or it is another.
pub fn open_target<P: AsPath>(host: &HostRuntime, path: P, known: &Metadata) -> io::Result<File> {
    let file = OpenOptions::new().read(true).write(true).open(host, path)?;
    let there = file.metadata()?;
    if is_same(&there, known) {
        Ok(file)
    } else {
        let why = "another program replaces it";
        Err(io::Error::new(ErrorKind::ResourceBusy, why))
    }
}

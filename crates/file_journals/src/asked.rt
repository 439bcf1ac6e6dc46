//! Journals that somebody asks to have completed, or dropped.

ghost use Rattle.std.specs.Prelude.{◌≡◌, IfOk, OnOk};
ghost use Rattle.atomic_save.specs.Saves.{NoJournal};
ghost use Rattle.file_journals.specs.Dropped.{OnlyDrops};

use crate::changes::{Held, Looked};
use crate::hosts::{OpenedFile, SaveHost, id_of};
use crate::journals::{
    Beside, FoundJournal, ReadJournal, UNREAD, UNWRITABLE, find_beside, look_at,
};
use crate::marks::Mark;
use crate::old_journals::{complete_old, drop_old};
use crate::recovery::{check_fit, check_released, complete, home_in, open_all};
use atomic_save::{Host, HostFault, Journal, JournalFile};
use file_places::{Notes, Told, beside, folder_of, home_of, is_same, sync_folder, wrong};
use std::fs::{self, File, Metadata};
use std::io::{self, Error, ErrorKind};
use std::os::unix::fs::MetadataExt;
use std::path::{Path, PathBuf};

/// Notes that tell nothing: of what is only tried.
#[derive(Drop)]
struct Quiet<'a, N: Notes>(&'a N);

impl<N: Notes> Notes for Quiet<'_, N> {
    fn host(&self) -> &HostRuntime {
        self.0.host()
    }
}

/// Completes the save of a file that was opened by a path, or drops its journal.
///
/// # Errors
///
/// As of the one or the other.
pub fn recover_file<N: Notes>(notes: &N, path: &str, file: File, drops: bool) -> io::Result<()> {
    if drops {
        drop_journal(notes, path, file)
    } else {
        complete_save(notes, path, file)
    }
}

// Completes the save of a file that was opened by a path, by the journal that is beside it. That may be of another file, if all files of
// the save are there, as long as they were, and have the old bytes or the new ones.
fn complete_save<N: Notes>(notes: &N, path: &str, file: File) -> io::Result<()> {
    let known = file.metadata()?;
    let (read, place) = match find_beside(notes, path, &file, &known)? {
        Beside::Journal(found) => split(found),
        Beside::Others(read) => (read, None),
        beside => {
            if let Beside::Idle(marker, _) = beside {
                let _ = fs::remove_file(notes.host(), marker.as_path());
            }
            check_released(notes, path, &file)?;
            if !complete_old(notes, path, &file)? {
                notes.tell(&Told::Whole(path));
            }
            return Ok(());
        }
    };
    let found = take_over(notes, path, read, place, &known)?;
    check_fit(notes, path, &found, &file, found.place)?;
    match open_all(notes, path, &found)? {
        Some(files) => complete(notes, path, &found, files),
        None => Err(Error::new(ErrorKind::PermissionDenied, UNWRITABLE)),
    }
}

// A journal that was found for a file, and the file's number in it.
fn split(found: FoundJournal) -> (ReadJournal, Option<usize>)
    ensures { result.0.journal ≡ found.journal }
{
    let FoundJournal {
        path,
        known,
        journal,
        place,
    } = found;
    let read = ReadJournal {
        path,
        known,
        journal,
    };
    (read, Some(place))
}

// A journal over the files that have its names now, of which one is this. What it writes stays.
fn take_over<N: Notes>(
    notes: &N,
    path: &str,
    read: ReadJournal,
    place: Option<usize>,
    of: &Metadata,
) -> io::Result<FoundJournal>
    ensures { IfOk result (λ it. it.journal.changes ≡ read.journal.changes) }
{
    let (files, place) = find_files(notes, path, &read, place, of)?;
    let ReadJournal {
        path: at,
        known,
        journal,
    } = read;
    let Journal {
        files: _,
        changes,
        more,
    } = journal;
    Ok(FoundJournal {
        path: at,
        known,
        journal: Journal {
            files,
            changes,
            more,
        },
        place,
    })
}

// The files that have the names of a journal now, and which of them is this.
fn find_files<N: Notes>(
    notes: &N,
    path: &str,
    read: &ReadJournal,
    place: Option<usize>,
    of: &Metadata,
) -> io::Result<(Vec<JournalFile>, usize)> {
    let host = notes.host();
    let mut found = place;
    let mut files = Vec::new(host.alloc());
    for (i, it) in read.journal.files.iter().enumerate() {
        let home = home_in(host, read.path.as_path(), it)?;
        let known = if place == Some(i) {
            of.clone()?
        } else {
            find_one(notes, home.as_str(), read, i)?
        };
        if known.len() != it.id.size || !known.is_file() {
            notes.tell(&Told::Changed(home.as_str(), read.path.as_str()));
            return Err(wrong(UNREAD));
        }
        if found.is_none() && is_same(&known, of) {
            found = Some(i);
        }
        let name = it.name.clone()?;
        files.push(JournalFile {
            name,
            id: id_of(&known),
        })?;
    }
    let Some(found) = found else {
        notes.tell(&Told::Unnamed(path, read.path.as_str()));
        return Err(wrong(UNREAD));
    };
    Ok((files, found))
}

// What is known of a file that has a name of a journal. What is beside it leads to no other journal.
fn find_one<N: Notes>(
    notes: &N,
    home: &str,
    read: &ReadJournal,
    place: usize,
) -> io::Result<Metadata> {
    let known = match fs::metadata(notes.host(), home) {
        Err(fault) if fault.kind() == ErrorKind::NotFound => {
            notes.tell(&Told::Missing(home, read.path.as_str()));
            return Err(wrong(UNREAD));
        }
        known => known?,
    };
    if place == 0 {
        return Ok(known);
    }
    let Some(marker) = beside(notes.host(), Path::new(home))? else {
        return Ok(known);
    };
    let found = look_at(notes, marker, &known)?;
    if let Some((other, its)) = found.journal() {
        if !is_same(its, &read.known) {
            notes.tell(&Told::Other(home, other.as_str()));
            return Err(wrong(UNREAD));
        }
    }
    Ok(known)
}

// Removes the journal beside a file that was opened by a path, and what leads there. No file is written.
fn drop_journal<N: Notes>(notes: &N, path: &str, file: File) -> io::Result<()> {
    let known = file.metadata()?;
    let (read, place) = match find_beside(notes, path, &file, &known)? {
        Beside::Journal(found) => split(found),
        Beside::Others(read) => (read, None),
        Beside::Idle(marker, _) => {
            drop_marker(notes, marker.as_path())?;
            notes.tell(&Told::Dropped(path, marker.as_str()));
            return Ok(());
        }
        Beside::Nothing => {
            check_released(notes, path, &file)?;
            if !drop_old(notes, path, &file)? {
                notes.tell(&Told::Whole(path));
            }
            return Ok(());
        }
    };
    if is_needed(&Quiet(notes), path, &read, place, &known)? {
        notes.tell(&Told::Needed(path, read.path.as_str()));
        return Err(wrong("its save can be completed"));
    }
    let markers = find_markers(notes, path, &read, &known)?;
    retire(notes, path, &read, file)?;
    for marker in markers.iter() {
        drop_marker(notes, marker.as_path())?;
    }
    notes.tell(&Told::Dropped(path, read.path.as_str()));
    Ok(())
}

// What leads to a journal beside the files that it lists, and beside the one that was found by a path.
fn find_markers<N: Notes>(
    notes: &N,
    path: &str,
    read: &ReadJournal,
    of: &Metadata,
) -> io::Result<Vec<PathBuf>> {
    let host = notes.host();
    let mut homes = Vec::new(host.alloc());
    homes.push(home_of(host, path)?)?;
    for it in read.journal.files.iter() {
        homes.push(home_in(host, read.path.as_path(), it)?)?;
    }
    let mut markers = Vec::new(host.alloc());
    for home in homes.iter() {
        let Some(place) = beside(host, home.as_path())? else {
            continue;
        };
        let found = match look_at(&Quiet(notes), place.clone()?, of) {
            Ok(found) => found,
            Err(fault) if fault.kind() == ErrorKind::OutOfMemory => return Err(fault),
            Err(_) => continue,
        };
        if let Some((led, its)) = found.journal() {
            if led.as_str() != place.as_str() && is_same(its, &read.known) {
                markers.push(place)?;
            }
        }
    }
    Ok(markers)
}

// Whether the files of a journal are half saved, and it completes their save.
fn is_needed<N: Notes>(
    notes: &N,
    path: &str,
    read: &ReadJournal,
    place: Option<usize>,
    of: &Metadata,
) -> io::Result<bool> {
    let found = match find_files(notes, path, read, place, of) {
        Ok((_, found)) => found,
        Err(fault) if fault.kind() == ErrorKind::InvalidInput => return Ok(false),
        Err(fault) => return Err(fault),
    };
    let (mut are_old, mut are_new) = (true, true);
    for (i, it) in read.journal.files.iter().enumerate() {
        let home = home_in(notes.host(), read.path.as_path(), it)?;
        let given = if i == found { path } else { home.as_str() };
        let file = File::open(notes.host(), given)?;
        let it = Looked {
            notes,
            path: given,
            file: &file,
            place: i,
        };
        if !it.fits(&read.journal, Held::Either)? {
            return Ok(false);
        }
        let is_marked = Mark::read(&file)?.is_some();
        are_old = are_old && !is_marked && it.fits(&read.journal, Held::Old)?;
        are_new = are_new && !is_marked && it.fits(&read.journal, Held::New)?;
    }
    Ok(!are_old && !are_new)
}

// Removes a journal, of whose files one was found by a path.
fn retire<N: Notes>(notes: &N, path: &str, read: &ReadJournal, file: File) -> io::Result<()> {
    let host = notes.host();
    let known = file.metadata()?;
    let mut files = Vec::new(host.alloc());
    files.push(OpenedFile {
        file,
        home: home_of(host, path)?,
        beside: read.path.clone()?,
        id: id_of(&known),
        owner: known.uid(),
    })?;
    let more = Vec::new(host.alloc());
    let mut host = SaveHost::new(host, files, more, Some(&read.journal.changes))?;
    let dropped = drop_alone(&mut host);
    if !host.has_sync {
        notes.note_once(&Told::NoSync(folder_of(read.path.as_path()).as_str()));
    }
    match (dropped, host.fault.take()) {
        (Ok(()), _) => Ok(()),
        (Err(_), Some((_, fault))) => Err(fault),
        (Err(_), None) => Err(Error::from(ErrorKind::Other)),
    }
}

// Removes a journal for good, and does nothing else.
fn drop_alone(host: &mut SaveHost<'_>) -> Result<(), HostFault>
    ensures drops { OnlyDrops host.old.log.events host.new.log.events }
    ensures gone { OnOk result (NoJournal host.new.log.events) }
{
    host.retire()?;
    host.sync_names()
}

// Removes what leads to a journal that is not there.
fn drop_marker<N: Notes>(notes: &N, marker: Path<'_>) -> io::Result<()> {
    match fs::remove_file(notes.host(), marker) {
        Err(fault) if fault.kind() != ErrorKind::NotFound => Err(fault),
        _ => sync_folder(notes, folder_of(marker)),
    }
}

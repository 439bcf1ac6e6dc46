//! New files, which are written beside the old ones.

ghost use Rattle.std.specs.Prelude.{◌≡◌, ◌↔◌, [], length, None, IsSome, IfSome, IsTrue, IfOk};

use crate::remarks::{Remark, Remarks};
use ckd_image::{ImageStore, StoreFault};
use dasd_jobs::NewFile;
use file_journals::{NewBytes, Part, SaveFault, has_other_bytes, save_files};
use file_places::{Notes, Told, create_beside, folder_of, is_same, sync_folder, wrong};
use ghost_data::{Count, Trace};
use std::cell::Cell;
use std::fs::{self, File, Metadata, Permissions};
use std::io;
use std::io::{Error, ErrorKind, Write};
use std::os::unix::fs::{MetadataExt, PermissionsExt, fchown};
use std::path::{Path, PathBuf};

/// Why a file is not saved over that is not as it was read.
const WRITTEN_SINCE: &str = "another program wrote it since it was read";

/// The bits of a mode that are kept.
const MODE: u32 = 0o7777;

/// Those of them that have a program run with the rights of the file's owner or group.
const SET_ID: u32 = 0o6000;

/// The bit of a folder's mode that lets nobody but a file's owner and its own rename what others have there.
const STICKY: u32 = 0o1000;

/// The file that is replaced: its path without symbolic links, and what was known of it as it was locked.
#[derive(Drop)]
pub(crate) struct Old {
    pub(crate) path: PathBuf,
    pub(crate) known: Metadata,
    /// The file itself, where its bytes are written over and it keeps its place.
    pub(crate) target: Option<File>,
    /// Whether it was not read before.
    pub(crate) is_unread: bool,
}

/// Where new bytes go.
#[derive(Drop)]
enum Room {
    /// Into a new file beside the old one, under a name of its own.
    Beside(File, PathBuf),
    /// Into the old file: until it is saved, what is new of it is kept.
    Over(File, Cell<Option<NewBytes>>),
}

/// A new file, which takes the place of the old one, or new bytes of one that keeps its place. Where a new file does not get its name it is
/// removed.
pub struct HostDraft<'a> {
    host: &'a HostRuntime,
    remarks: &'a Remarks<'a>,
    room: Room,
    /// The path as it was given.
    given: String,
    old: Option<Old>,
    /// Whether the old one's owner could not be kept.
    is_taken_over: bool,
    written: Trace,
    refused: Count,
    len: u64,
    /// Whether it has its name.
    is_put: Cell<bool>,
    ghost is_len: { length written.bytes ≡ len },
}

impl Drop for HostDraft<'_> {
    fn drop(self) {
        if let (false, Room::Beside(_, beside)) = (self.is_put.get(), &self.room) {
            let _ = fs::remove_file(self.host, beside.as_str());
        }
        let HostDraft {
            host: _,
            remarks: _,
            room: _,
            given: _,
            old: _,
            is_taken_over: _,
            written: _,
            refused: _,
            len: _,
            is_put: _,
        } = self;
    }
}

impl<'a> HostDraft<'a> {
    /// Begins a file without bytes, with owner, group and mode of the old one, or with what `keep_owner` keeps of them.
    pub(crate) fn begin(
        host: &'a HostRuntime,
        remarks: &'a Remarks<'a>,
        path: &str,
        mut old: Option<Old>,
    ) -> io::Result<HostDraft<'a>>
        ensures { IfOk result (λ draft. draft.written.bytes ≡ []) }
    {
        let given = path.to_string(host.alloc())?;
        let room = room_for(host, path, &mut old)?;
        let mut draft = HostDraft {
            host,
            remarks,
            room,
            given,
            old,
            is_taken_over: false,
            written: Trace::new(),
            refused: Count::new(),
            len: 0,
            is_put: Cell::new(false),
        };
        if let (Some(old), Room::Beside(file, _)) = (&draft.old, &draft.room) {
            draft.is_taken_over = !keep_owner(host, file, old)?;
        }
        Ok(draft)
    }

    /// What was written, which contracts alone read.
    pub(crate) fn trace(&self) -> &Trace
        ensures { result.now ≡ self.now.written }
    {
        &self.written
    }

    /// Whether it replaces no file.
    pub(crate) fn is_new(&self) -> bool
        ensures { IsTrue result ↔ (self.now.old ≡ None) }
    {
        self.old.is_none()
    }

    // Looks whether the old file is still there as it was read.
    fn look(&self, path: &str) -> io::Result<()> {
        if self.given.as_str() != path {
            return Err(wrong("it was begun for another path"));
        }
        if let Some(old) = &self.old {
            let there = fs::metadata(self.host, old.path.as_str())?;
            if !is_same(&there, &old.known) {
                return Err(wrong("another program has replaced it"));
            }
            if has_other_bytes(&old.known, &there, false) {
                return Err(wrong(WRITTEN_SINCE));
            }
        }
        Ok(())
    }

    // What is saved of a file that keeps its place.
    fn part(&self) -> Option<Part<'_>>
        ensures { IfSome result (λ _. IsSome self.now.old) }
    {
        let old = self.old.as_ref()?;
        let Room::Over(target, new) = &self.room else {
            return None;
        };
        Some(Part {
            given: self.given.as_str(),
            home: old.path.as_path(),
            target,
            new: new.replace(None),
        })
    }

    // Gives the old file a hidden name, from which it is put back where another one of the save can't be replaced. A file system that
    // has no second names does without.
    fn keep_old(&self) -> Option<String> {
        let (Some(old), Room::Beside(_, beside)) = (&self.old, &self.room) else {
            return None;
        };
        let name = format!(in self.host.alloc(); "{}000", beside.as_str()).ok()?;
        fs::hard_link(self.host, old.path.as_str(), name.as_str()).ok()?;
        Some(name)
    }

    // Has the old file, which was kept by this name, or none in the place that this one took.
    fn put_back(&self, kept: &Option<String>) -> io::Result<()> {
        match (&self.old, kept) {
            (Some(old), Some(kept)) => {
                fs::rename(self.host, kept.as_str(), old.path.as_str())?;
                sync_folder(self.remarks, folder_of(old.path.as_path()))
            }
            (None, _) => fs::remove_file(self.host, self.given.as_str()),
            _ => Err(wrong("it was not kept")),
        }
    }

    // Gives the file its name, which the old one has, if there is one; its folder is synced later.
    fn take_place(&self) -> io::Result<()> {
        let Room::Beside(file, from) = &self.room else {
            return Err(wrong("it keeps its place"));
        };
        match &self.old {
            Some(old) => fs::rename(self.host, from.as_str(), old.path.as_str())?,
            None => name_new(self.host, from.as_str(), self.given.as_str())?,
        }
        self.is_put.set(true);
        if let Some(old) = &self.old {
            self.note_old(file, old);
        }
        Ok(())
    }

    // Notes what the new file lacks of the old one, and whose both are. Everybody is told that one was replaced which nobody had read.
    fn note_old(&self, file: &File, old: &Old) {
        let path = self.given.as_str();
        if old.is_unread {
            let len = old.known.len();
            self.remarks.tell(&Remark::Replaced(path, len));
        }
        if let (true, Ok(new)) = (self.is_taken_over, file.metadata()) {
            let (before, now) = (old.known.uid(), new.uid());
            self.remarks.note(&Told::TakenOver(path, before, now));
        }
        let mode = old.known.mode();
        self.remarks.note(&Remark::LostRights(path, mode));
    }
}

/// Puts new files there: they take the places of the old ones, which are then on the disk, or of none, which a sync of their folders has
/// there; or the old ones keep their places, and then have these bytes on the disk.
///
/// # Errors
///
/// The path of the file for which the host refuses something, and what that leaves of all of them.
pub(crate) fn put_drafts<'p>(
    remarks: &Remarks,
    new: &[NewFile<'p, HostDraft>],
) -> Result<(), (&'p str, SaveFault)> {
    for it in new {
        if let Err(fault) = it.draft.look(it.path) {
            return Err((it.path, SaveFault::Kept(fault)));
        }
    }
    if new.iter().any(|it| matches!(it.draft.room, Room::Over(..))) {
        save_in_place(remarks, new)
    } else {
        replace_all(remarks, new)
    }
}

// Writes over the old files. Everybody is told whose bytes were replaced that nobody had read.
fn save_in_place<'p>(
    remarks: &Remarks,
    new: &[NewFile<'p, HostDraft>],
) -> Result<(), (&'p str, SaveFault)> {
    let mut parts = Vec::new(remarks.host().alloc());
    for it in new {
        let pushed = match it.draft.part() {
            Some(part) => match parts.push(part) {
                Ok(()) => Ok(()),
                Err(_) => Err(Error::from(ErrorKind::OutOfMemory)),
            },
            None => Err(wrong("another program has removed it")),
        };
        if let Err(fault) = pushed {
            return Err((it.path, SaveFault::Kept(fault)));
        }
    }
    let saved = save_files(remarks, &mut parts);
    if let Ok(()) | Err((_, SaveFault::Saved(_))) = &saved {
        for it in new {
            match &it.draft.old {
                Some(old) if old.is_unread => {
                    let len = old.known.len();
                    remarks.tell(&Remark::Replaced(it.path, len));
                }
                _ => {}
            }
        }
    }
    match saved {
        Ok(()) => Ok(()),
        Err((place, fault)) => Err((new.get(place).map_or("", |it| it.path), fault)),
    }
}

// Has new files take their places one after another; where one can't, those before it give theirs back.
fn take_places<'p>(
    remarks: &Remarks,
    new: &[NewFile<'p, HostDraft>],
) -> Result<(), (&'p str, SaveFault)> {
    let mut kept = Vec::new(remarks.host().alloc());
    if kept.try_reserve(new.len()).is_err() {
        let fault = Error::from(ErrorKind::OutOfMemory);
        return Err((new.first().map_or("", |it| it.path), SaveFault::Kept(fault)));
    }
    let mut taken = Ok(());
    for it in new {
        let name = if new.len() > 1 {
            it.draft.keep_old()
        } else {
            None
        };
        let put = match kept.push(name) {
            Ok(()) => it.draft.take_place(),
            Err(_) => Err(Error::from(ErrorKind::OutOfMemory)),
        };
        if let Err(fault) = put {
            taken = Err((it.path, SaveFault::Kept(fault)));
            break;
        }
    }
    for (it, name) in new.iter().zip(kept.iter()) {
        if taken.is_err() && it.draft.is_put.get() && it.draft.put_back(name).is_err() {
            remarks.tell(&Told::Parted(it.path));
        }
        if let Some(name) = name {
            let _ = fs::remove_file(remarks.host(), name.as_str());
        }
    }
    taken
}

// Has all new files on the disk, and then has them take their places, or none.
fn replace_all<'p>(
    remarks: &Remarks,
    new: &[NewFile<'p, HostDraft>],
) -> Result<(), (&'p str, SaveFault)> {
    for it in new {
        if let Room::Beside(file, _) = &it.draft.room {
            if let Err(fault) = file.sync_all() {
                return Err((it.path, SaveFault::Kept(fault)));
            }
        }
    }
    take_places(remarks, new)?;
    let mut synced = Ok(());
    for it in new {
        if let Some(old) = &it.draft.old {
            if let Err(fault) = sync_folder(remarks, folder_of(old.path.as_path())) {
                remarks.tell(&Told::Unsynced(it.path));
                synced = Err((it.path, SaveFault::Saved(fault)));
            }
        }
    }
    synced
}

impl ImageStore for HostDraft<'_> {
    ghost content = { λ d. d.written.bytes };

    ghost origin = { λ d. [] };

    ghost failures = { λ d. d.refused };

    fn len(&self) -> u64 {
        self.len
    }

    // A file that is written is not read.
    fn read_at(&mut self, _at: u64, _into: &mut [u8]) -> Result<(), StoreFault> {
        self.refused = self.refused.next();
        Err(StoreFault)
    }

    // Bytes are written at its end alone.
    #[tactic(auto, using(crate::proofs::Behind::written_behind))]
    fn write_at(&mut self, at: u64, bytes: &[u8]) -> Result<(), StoreFault> {
        let end = self.len.checked_add(bytes.len() as u64);
        let is_end = at == self.len;
        match end {
            Some(end)
                if is_end && put_next(&mut self.room, self.remarks, self.given.as_str(), bytes) => {
                self.written = self.written.and(bytes);
                self.len = end;
                Ok(())
            }
            _ => {
                self.refused = self.refused.next();
                Err(StoreFault)
            }
        }
    }
}

// Where the bytes of this path go; an old file that keeps its place gives itself.
fn room_for(host: &HostRuntime, path: &str, old: &mut Option<Old>) -> io::Result<Room>
    ensures { (old.new ≡ None) ↔ (old.old ≡ None) }
{
    let Some(old) = old else {
        let (file, beside) = create_beside(host, Path::new(path), 0o666)?;
        return Ok(Room::Beside(file, beside));
    };
    if let Some(file) = old.target.take() {
        let new = NewBytes::new(host.alloc());
        return Ok(Room::Over(file, Cell::new(Some(new))));
    }
    let (file, beside) = create_beside(host, old.path.as_path(), 0o600)?;
    Ok(Room::Beside(file, beside))
}

// Puts the next bytes there, and says whether that is done; if not, it is remarked why.
fn put_next(room: &mut Room, remarks: &Remarks, path: &str, bytes: &[u8]) -> bool {
    match room {
        Room::Beside(file, _) => match file.write_all(bytes) {
            Ok(()) => true,
            Err(fault) => {
                remarks.note_fault(path, &fault);
                false
            }
        },
        Room::Over(file, new) => {
            if let Some(mut found) = new.replace(None) {
                found.add(remarks, path, file, bytes);
                let _ = new.replace(Some(found));
            }
            true
        }
    }
}

// Gives a new file the owner, the group and the mode of the old one, and says whether the owner is kept. Where the host refuses him, the
// group alone is kept, which those who may use the file are in; without it the file is refused. The owner comes first, since that takes
// bits of the mode away.
fn keep_owner(host: &HostRuntime, file: &File, old: &Old) -> io::Result<bool> {
    let new = file.metadata()?;
    let (owner, group) = (old.known.uid(), old.known.gid());
    let mut mode = old.known.mode() & MODE;
    let mut is_kept = true;
    if new.uid() != owner || new.gid() != group {
        if let Err(fault) = fchown(file, Some(owner), Some(group)) {
            if !may_take_over(host, &new, old, &fault)? {
                return Err(fault);
            }
            if new.gid() != group {
                fchown(file, None, Some(group))?;
            }
            mode &= !SET_ID;
            is_kept = false;
        }
    }
    file.set_permissions(Permissions::from_mode(mode))?;
    Ok(is_kept)
}

// Whether a new file may take the place of one whose owner was refused: it is another's, and its folder lets everybody rename who may
// write there.
fn may_take_over(host: &HostRuntime, new: &Metadata, old: &Old, fault: &Error) -> io::Result<bool> {
    if fault.kind() != ErrorKind::PermissionDenied || new.uid() == old.known.uid() {
        return Ok(false);
    }
    let folder = fs::metadata(host, folder_of(old.path.as_path()).as_str())?;
    Ok(folder.mode() & STICKY == 0 || folder.uid() == new.uid())
}

// Gives a file a name that no file has: one that has come there since stays. Where a file system has no second names, the file is
// renamed. That is on the disk once the folder is synced.
fn name_new(host: &HostRuntime, from: &str, to: &str) -> io::Result<()> {
    match fs::hard_link(host, from, to) {
        Ok(()) => {
            let _ = fs::remove_file(host, from);
            Ok(())
        }
        Err(fault) if fault.kind() == ErrorKind::AlreadyExists => Err(fault),
        Err(_) => fs::rename(host, from, to),
    }
}

/// Notes the folder of a new file, which is synced later; where there is no memory for that, it is synced now. It says whether that is done.
pub(crate) fn note_folder<N: Notes>(notes: &N, unsettled: &mut Vec<String>, path: &str) -> bool {
    let folder = folder_of(Path::new(path)).as_str();
    if unsettled.iter().any(|noted| noted.as_str() == folder) {
        return true;
    }
    let noted = match folder.to_string(notes.host().alloc()) {
        Ok(folder) => unsettled.push(folder).is_ok(),
        Err(_) => false,
    };
    noted || is_synced(notes, folder)
}

/// Syncs the folders that were noted, and says whether that is done.
pub(crate) fn sync_folders<N: Notes>(notes: &N, unsettled: &mut Vec<String>) -> bool
    ensures { unsettled.new.items ≡ [] }
{
    let mut done = true;
    for folder in unsettled.iter() {
        if !is_synced(notes, folder.as_str()) {
            done = false;
        }
    }
    unsettled.clear();
    done
}

// Syncs a folder, and says whether that is done; if not, it is noted why.
fn is_synced<N: Notes>(notes: &N, folder: &str) -> bool {
    match sync_folder(notes, Path::new(folder)) {
        Ok(()) => true,
        Err(fault) => {
            notes.note_fault(folder, &fault);
            notes.tell(&Told::Unsynced(folder));
            false
        }
    }
}

//! The host of a save: the calls of the system, each noted as it was answered.

ghost use Rattle.std.specs.Prelude.{◌≡◌, ◌+◌, is_ok, option_map, IfOk};
ghost use Rattle.std.specs.Fs.{metadata_len};
ghost use Rattle.atomic_save.specs.Changes.{notes};
ghost use Rattle.atomic_save.specs.Calls.{files_of, shown};
ghost use Rattle.atomic_save.specs.Saves.{HasCause};

use atomic_save::{Call, CallLog, Change, FileId, Host, HostFault, JournalFile};
use file_places::{folder_of, from_folder, make_file, sync_names};
use ghost_data::Count;
use journal_text::journal_bytes;
use std::fs::{self, File, Metadata};
use std::io::{self, ErrorKind, Seek, SeekFrom, Write};
use std::os::unix::fs::MetadataExt;
use std::path::PathBuf;
use std::time::UNIX_EPOCH;

/// What a marker begins with, before the way from its folder to the journal.
pub(crate) const LEADS: &[u8; 8] = b"dasdled\x01";

/// A file of a save.
#[derive(Drop)]
pub(crate) struct OpenedFile {
    pub(crate) file: File,
    /// Where it lies.
    pub(crate) home: PathBuf,
    /// What is beside it meanwhile: the journal beside the first one, and else a marker that leads there.
    pub(crate) beside: PathBuf,
    /// By what it is known.
    pub(crate) id: FileId,
    /// Its owner.
    pub(crate) owner: u32,
}

/// The files of a save, its journal, and what was asked of the system and answered.
#[derive(Drop)]
pub(crate) struct SaveHost<'a> {
    host: &'a HostRuntime,
    pub(crate) files: Vec<OpenedFile>,
    ids: Vec<FileId>,
    /// The files as the journal names them, and what it has beside the changes.
    named: Vec<JournalFile>,
    more: Vec<u8>,
    /// The hidden name of the draft, until it is the journal.
    pub(crate) draft: Option<PathBuf>,
    /// The number of the file for which the system refused something last, and why.
    pub(crate) fault: Option<(usize, io::Error)>,
    /// Whether the file system of its folder has a sync of folders.
    pub(crate) has_sync: bool,
    log: CallLog,
    refused: Count,
    ghost are_open: { files_of log.events ≡ ids.items },
}

impl<'a> SaveHost<'a> {
    /// The host of a save of these files, where a journal with these changes is there, or none.
    pub(crate) fn new(
        host: &'a HostRuntime,
        files: Vec<OpenedFile>,
        more: Vec<u8>,
        journal: Option<&[Change]>,
    ) -> io::Result<SaveHost<'a>>
        ensures shown { IfOk result (λ it. shown it.log.events ≡ option_map (λ cs. notes cs.now) journal.entry) }
    {
        let mut ids = Vec::new(host.alloc());
        let mut named = Vec::new(host.alloc());
        for it in files.iter() {
            ids.push(it.id)?;
            if let Some(first) = files.first() {
                let name = from_folder(host, first.beside.as_path(), it.home.as_path())?;
                let name = Vec::from_slice(host.alloc(), name.as_bytes())?;
                named.push(JournalFile { name, id: it.id })?;
            }
        }
        let log = CallLog::new().and(&Call::Opened(&ids, journal));
        Ok(SaveHost {
            host,
            files,
            ids,
            named,
            more,
            draft: None,
            fault: None,
            has_sync: true,
            log,
            refused: Count::new(),
        })
    }

    // What was done for a file, or not; then it notes why.
    fn answer(&mut self, file: usize, done: io::Result<()>) -> Result<(), HostFault>
        ensures log { self.new.log.events ≡ self.old.log.events }
        ensures same { is_ok result ≡ is_ok done }
        ensures cause { HasCause self.old.refused self.new.refused result }
    {
        if let Err(fault) = done {
            self.refused = self.refused.next();
            self.fault = Some((file, fault));
            return Err(HostFault::Refused);
        }
        Ok(())
    }

    // Makes the markers, and then the draft with its hidden name.
    fn make_draft(&self, changes: &[Change]) -> Result<PathBuf, (usize, io::Error)> {
        let Some((first, others)) = self.files.split_first() else {
            return Err((0, io::Error::from(ErrorKind::NotFound)));
        };
        for (i, other) in others.iter().enumerate() {
            if let Err(fault) = self.make_marker(first, other) {
                return Err((i.saturating_add(1), fault));
            }
        }
        let text = match journal_bytes(self.host.alloc(), &self.named, changes, &self.more) {
            Ok(text) => text,
            Err(fault) => return Err((0, io::Error::from(fault))),
        };
        match make_file(self.host, first.beside.as_path(), first.owner, &text) {
            Ok(draft) => Ok(draft),
            Err(fault) => Err((0, fault)),
        }
    }

    // Has a marker on the disk that leads from a file to the journal.
    fn make_marker(&self, first: &OpenedFile, other: &OpenedFile) -> io::Result<()> {
        let (host, place) = (self.host, other.beside.as_path());
        let way = from_folder(host, place, first.beside.as_path())?;
        let mut text = Vec::from_slice(host.alloc(), LEADS)?;
        text.extend_from_slice(way.as_bytes())?;
        let hidden = make_file(host, place, other.owner, &text)?;
        if let Err(fault) = fs::rename(host, hidden.as_path(), place) {
            let _ = fs::remove_file(host, hidden.as_path());
            return Err(fault);
        }
        sync_names(host, folder_of(place))?;
        Ok(())
    }

    /// Takes the markers away, which lead to no journal any more.
    ///
    /// # Errors
    ///
    /// The number of a file for which the host refuses it.
    pub(crate) fn remove_markers(&self) -> Result<(), (usize, io::Error)> {
        for (i, it) in self.files.iter().enumerate().skip(1) {
            let place = it.beside.as_path();
            let removed = match fs::remove_file(self.host, place) {
                Err(fault) if fault.kind() != ErrorKind::NotFound => Err(fault),
                _ => sync_names(self.host, folder_of(place)),
            };
            if let Err(fault) = removed {
                return Err((i, fault));
            }
        }
        Ok(())
    }
}

impl Host for SaveHost<'_> {
    ghost events = { λ h. h.log.events };

    ghost faults = { λ h. h.refused };

    fn files(&self) -> &[FileId] {
        self.ids.as_slice()
    }

    fn draft(&mut self, changes: &[Change]) -> Result<(), HostFault> {
        match self.make_draft(changes) {
            Ok(draft) => {
                self.draft = Some(draft);
                self.log = self.log.and(&Call::Drafted(changes));
                Ok(())
            }
            Err((file, fault)) => self.answer(file, Err(fault)),
        }
    }

    fn commit(&mut self) -> Result<(), HostFault> {
        let done = match (&self.draft, self.files.first()) {
            (Some(draft), Some(it)) => fs::rename(self.host, draft.as_path(), it.beside.as_path()),
            _ => Err(io::Error::from(ErrorKind::NotFound)),
        };
        self.answer(0, done)?;
        self.draft = None;
        self.log = self.log.and(&Call::Committed);
        Ok(())
    }

    fn retire(&mut self) -> Result<(), HostFault> {
        let done = match self.files.first() {
            Some(it) => fs::remove_file(self.host, it.beside.as_path()),
            None => Ok(()),
        };
        self.answer(0, done)?;
        self.log = self.log.and(&Call::Retired);
        Ok(())
    }

    fn sync_names(&mut self) -> Result<(), HostFault> {
        let done = match self.files.first() {
            Some(it) => match sync_names(self.host, folder_of(it.beside.as_path())) {
                Ok(has_sync) => {
                    self.has_sync = has_sync;
                    Ok(())
                }
                Err(fault) => Err(fault),
            },
            None => Ok(()),
        };
        self.log = self.log.and(&Call::NamesSynced(done.is_ok()));
        self.answer(0, done)
    }

    fn write(&mut self, change: &Change) -> Result<(), HostFault> {
        let done = match self.files.get(change.file) {
            Some(it) => write_at(&it.file, &change.bytes, change.at),
            None => Err(io::Error::from(ErrorKind::NotFound)),
        };
        self.log = self.log.and(&Call::Wrote(change, done.is_ok()));
        self.answer(change.file, done)
    }

    fn sync(&mut self, file: usize) -> Result<(), HostFault> {
        let done = match self.files.get(file) {
            Some(it) => it.file.sync_all(),
            None => Err(io::Error::from(ErrorKind::NotFound)),
        };
        self.log = self.log.and(&Call::Synced(file, done.is_ok()));
        self.answer(file, done)
    }
}

/// By what a file is known again.
pub(crate) fn id_of(known: &Metadata) -> FileId
    ensures { result.size ≡ metadata_len known.now }
{
    FileId {
        device: known.dev(),
        inode: known.ino(),
        birth: u64::try_from(birth_of(known)).unwrap_or(0),
        size: known.len(),
    }
}

/// Nanoseconds from 1970 to the birth of a file; zero where its file system does not say it.
pub(crate) fn birth_of(file: &Metadata) -> u128 {
    let Ok(born) = file.created() else {
        return 0;
    };
    match born.duration_since(UNIX_EPOCH) {
        Ok(since) => since.as_nanos(),
        Err(_) => 0,
    }
}

/// Writes bytes into a file, from a place on.
pub(crate) fn write_at(mut file: &File, bytes: &[u8], at: u64) -> io::Result<()> {
    file.seek(SeekFrom::Start(at))?;
    file.write_all(bytes)
}

//! Files that are read while other programs save them.

ghost use Rattle.std.specs.Prelude.{◌≡◌, false};
ghost use Rattle.std.specs.Fs.{metadata_len};

use crate::marks::Mark;
use file_places::{Notes, beside, home_of, is_free};
use std::alloc::Global;
use std::cell::RefCell;
use std::fs::{File, Metadata, TryLockError};
use std::io::{self, ErrorKind};
use std::os::unix::fs::MetadataExt;

/// For how many saves in a row a reader waits.
const SAVES: u32 = 16;

/// A file that is read without a lock.
#[derive(Drop)]
struct ReadFile {
    file: File,
    /// What was known of it before it was read.
    known: Metadata,
}

/// The files that a program reads without a lock, so that it sees whether what it reads of them is of one state.
#[derive(Drop)]
pub struct ReadFiles {
    files: RefCell<Vec<ReadFile>>,
}

impl ReadFiles {
    /// No file.
    pub fn new(alloc: Global) -> ReadFiles {
        ReadFiles {
            files: RefCell::new(Vec::new(alloc)),
        }
    }

    /// Takes a file that is to be read, once no program saves it, and says how long it is.
    ///
    /// # Errors
    ///
    /// The host refuses it, one save follows another, or there is no memory.
    pub fn add<N: Notes>(&self, notes: &N, path: &str, file: &File) -> io::Result<u64> {
        let known = await_save(notes.host(), path, file)?;
        let (file, len) = (file.try_clone()?, known.len());
        if let Ok(mut files) = self.files.try_borrow_mut() {
            files.push(ReadFile { file, known })?;
        }
        Ok(len)
    }

    /// Looks whether all files are as they were before they were read.
    ///
    /// # Errors
    ///
    /// One was written since, or the host can't say it.
    pub fn look(&self) -> io::Result<()> {
        let Ok(files) = self.files.try_borrow() else {
            return Ok(());
        };
        for it in files.iter() {
            if has_other_bytes(&it.known, &it.file.metadata()?, files.len() == 1) {
                let why = "it, or a file read with it, was written meanwhile: read it again";
                return Err(io::Error::new(ErrorKind::InvalidInput, why));
            }
        }
        Ok(())
    }
}

// What is known of a file once no program saves it. One that does has a journal beside it, or keeps it marked, and locked until it ends.
fn await_save(host: &HostRuntime, path: &str, file: &File) -> io::Result<Metadata> {
    let home = home_of(host, path)?;
    let place = beside(host, home.as_path())?;
    for _ in 0..SAVES {
        let known = file.metadata()?;
        let is_alone = match &place {
            Some(place) => is_free(host, place.as_path())?,
            None => true,
        };
        if is_alone && !matches!(Mark::read(file), Ok(Some(_))) {
            return Ok(known);
        }
        // a save of a file that is not locked was cut off
        let is_locked = matches!(file.try_lock_shared(), Err(TryLockError::WouldBlock));
        if is_locked {
            let _ = file.lock_shared();
        }
        let _ = file.unlock();
        if !is_locked {
            return Ok(known);
        }
    }
    let why = "a save of it goes on";
    Err(io::Error::new(ErrorKind::ResourceBusy, why))
}

/// Whether a file has other bytes than when this was known of it, as far as its length and its times say so. Of files that are read together
/// one counts that was given or lost a name too, since another may have taken its place.
pub fn has_other_bytes(known: &Metadata, now: &Metadata, is_alone: bool) -> bool
    ensures { result ≡ false → metadata_len known.now ≡ metadata_len now.now }
{
    now.len() != known.len()
        || (now.mtime(), now.mtime_nsec()) != (known.mtime(), known.mtime_nsec())
        || !is_alone && (now.ctime(), now.ctime_nsec()) != (known.ctime(), known.ctime_nsec())
}

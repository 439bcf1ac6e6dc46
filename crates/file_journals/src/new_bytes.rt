//! What is new of a file that keeps its place, found as its bytes come.

ghost use Rattle.std.specs.Prelude.{◌≡◌, ◌||◌, [], None, not, bytes_eq, OnOk};

use crate::changes::{BLOCK, Looked, WINDOW, add_sums};
use atomic_save::Change;
use file_places::{Notes, wrong};
use sha2::{Digest, Sha256};
use std::alloc::Global;
use std::fs::File;
use std::io;

/// The bytes that a file is to hold, which come one after another from its first on. The blocks that it does not hold are kept; of the
/// others only the SHA-256. A fault is kept for the save.
#[derive(Drop)]
pub struct NewBytes {
    alloc: Global,
    /// How many are compared.
    at: u64,
    /// Those that wait for it.
    waiting: Vec<u8>,
    found: FileChanges,
    fault: Option<io::Error>,
}

/// What a save changes of one file.
#[derive(Drop)]
pub(crate) struct FileChanges {
    alloc: Global,
    pub(crate) is_changed: bool,
    /// Its first block, as it is and as it is to be.
    pub(crate) old_first: Vec<u8>,
    pub(crate) new_first: Vec<u8>,
    /// The changes after that, and what is known of the old bytes of each.
    pub(crate) rest: Vec<Change>,
    pub(crate) rest_sums: Vec<u8>,
    /// The SHA-256 of the bytes after the first block that stay.
    pub(crate) digest: Sha256,
}

impl NewBytes {
    /// None yet.
    pub fn new(alloc: Global) -> NewBytes {
        NewBytes {
            alloc,
            at: 0,
            waiting: Vec::new(alloc),
            found: FileChanges {
                alloc,
                is_changed: false,
                old_first: Vec::new(alloc),
                new_first: Vec::new(alloc),
                rest: Vec::new(alloc),
                rest_sums: Vec::new(alloc),
                digest: Sha256::new(),
            },
            fault: None,
        }
    }

    /// Takes the next bytes of this file.
    pub fn add<N: Notes>(&mut self, notes: &N, path: &str, file: &File, bytes: &[u8]) {
        let it = Looked {
            notes,
            path,
            file,
            place: 0,
        };
        if self.fault.is_none() {
            if let Err(fault) = self.take(&it, bytes) {
                self.fault = Some(fault);
            }
        }
    }

    /// What they change, after the last one.
    pub(crate) fn end<N: Notes>(mut self, it: &Looked<'_, N>) -> io::Result<FileChanges>
        ensures { OnOk result (self.fault ≡ None) }
    {
        if let Some(fault) = self.fault {
            return Err(fault);
        }
        let len = self.at.saturating_add(self.waiting.len() as u64);
        if it.file.metadata()?.len() != len {
            return Err(wrong("its length has changed"));
        }
        self.compare(it)?;
        Ok(self.found)
    }

    // Has bytes wait, and compares them where they are enough.
    fn take<N: Notes>(&mut self, it: &Looked<'_, N>, bytes: &[u8]) -> io::Result<()> {
        let mut rest = bytes;
        for _ in 0..usize::MAX {
            if rest.is_empty() {
                break;
            }
            let room = WINDOW.saturating_sub(self.waiting.len()).min(rest.len());
            let (head, tail) = rest.split_at(room);
            self.waiting.extend_from_slice(head)?;
            if self.waiting.len() >= WINDOW {
                self.compare(it)?;
            }
            rest = tail;
        }
        Ok(())
    }

    // Compares those that wait with the file's.
    fn compare<N: Notes>(&mut self, it: &Looked<'_, N>) -> io::Result<()>
        ensures { OnOk result (self.new.waiting.items ≡ []) }
    {
        let mut held = vec![in self.alloc; 0; self.waiting.len()]?;
        it.read(&mut held, self.at)?;
        for (new, old) in self.waiting.chunks(BLOCK).zip(held.chunks(BLOCK)) {
            self.found.add(self.at, new, old)?;
            self.at = self.at.saturating_add(new.len() as u64);
        }
        self.waiting.clear();
        Ok(())
    }
}

impl FileChanges {
    // Adds a block: to the change before it, or as a new one; or to the digest, if it stays.
    fn add(&mut self, at: u64, new: &[u8], old: &[u8]) -> io::Result<()>
        ensures { OnOk result (self.new.is_changed ≡ (self.old.is_changed || not (bytes_eq new.now old.now))) }
    {
        let stays = new == old;
        if !stays {
            self.is_changed = true;
        }
        if at == 0 {
            self.old_first.extend_from_slice(old)?;
            self.new_first.extend_from_slice(new)?;
            return Ok(());
        }
        if stays {
            self.digest.update(old);
            return Ok(());
        }
        add_sums(&mut self.rest_sums, old)?;
        if let Some(last) = self.rest.last_mut() {
            if last.at.saturating_add(last.bytes.len() as u64) == at {
                last.bytes.extend_from_slice(new)?;
                return Ok(());
            }
        }
        let bytes = Vec::from_slice(self.alloc, new)?;
        self.rest.push(Change { file: 0, at, bytes })?;
        Ok(())
    }
}

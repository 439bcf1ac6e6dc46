//! What a save changes, by what its files held before; and whether they still hold that.
//!
//! What a journal has beside the changes are, for each file, the SHA-256 of the bytes that stay, and for each 512 bytes that are changed
//! the beginning of that of the old ones. They only say whether another program wrote the file since.

ghost use Rattle.std.specs.Prelude.{◌≡◌, ◌≤◌, [], false, length, take};
ghost use Rattle.sha2.specs.Sha256.{sha256};

use crate::hosts::OpenedFile;
use crate::marks::{is_marked, put_mark, take_mark};
use crate::new_bytes::FileChanges;
use atomic_save::{Change, Journal};
use file_places::{Notes, name_of};
use sha2::{Digest, Sha256};
use std::alloc::Global;
use std::fs::File;
use std::io;
use std::os::unix::fs::FileExt;

/// What is written of a file: whole blocks.
pub(crate) const BLOCK: usize = 4_096;

/// How many bytes are read at once.
pub(crate) const WINDOW: usize = 16 * BLOCK;

/// What a disk writes whole.
const SECTOR: usize = 512;

/// How many bytes of the SHA-256 of a sector's old bytes are kept.
const SUM: usize = 8;

/// How many bytes the SHA-256 has.
const DIGEST: usize = 32;

/// Which bytes a file has where a journal changes it.
#[derive(Clone, Copy)]
pub(crate) enum Held {
    /// Those that it held before.
    Old,
    /// Those that are written.
    New,
    /// In each sector the ones or the others.
    Either,
}

/// A file of a save that is read. Where its bytes can't be, it notes where and why.
#[derive(Drop)]
pub(crate) struct Looked<'a, N: Notes> {
    pub(crate) notes: &'a N,
    pub(crate) path: &'a str,
    pub(crate) file: &'a File,
    /// Its number in the save.
    pub(crate) place: usize,
}

/// What a save changes.
#[derive(Drop)]
pub(crate) struct Changes {
    alloc: Global,
    /// The changes after the first block of each file.
    rest: Vec<Change>,
    /// The new first blocks.
    first: Vec<Change>,
    /// What is known of the bytes of each file that stay.
    digests: Vec<u8>,
    /// What is known of the old bytes of these changes.
    rest_sums: Vec<u8>,
    first_sums: Vec<u8>,
}

impl Changes {
    /// None.
    pub(crate) fn new(alloc: Global) -> Changes
        ensures { (result.rest.items ≡ []) × (result.first.items ≡ []) }
    {
        Changes {
            alloc,
            rest: Vec::new(alloc),
            first: Vec::new(alloc),
            digests: Vec::new(alloc),
            rest_sums: Vec::new(alloc),
            first_sums: Vec::new(alloc),
        }
    }

    /// Adds those of the file of this number, the next one.
    pub(crate) fn add(&mut self, file: usize, found: FileChanges) -> io::Result<()>
        ensures { found.is_changed ≡ false → (self.new.rest ≡ self.old.rest) × (self.new.first ≡ self.old.first) }
    {
        self.digests.extend_from_slice(&found.digest.finalize())?;
        if !found.is_changed {
            return Ok(());
        }
        for change in found.rest {
            self.rest.push(Change { file, ..change })?;
        }
        self.rest_sums.extend_from_slice(&found.rest_sums)?;
        add_sums(&mut self.first_sums, &found.old_first)?;
        self.first.push(Change {
            file,
            at: 0,
            bytes: found.new_first,
        })?;
        Ok(())
    }

    /// All of them in the order in which they are written, each file's mark first, and its own first block last; and what is known of the
    /// old bytes of these files.
    pub(crate) fn in_order(self, files: &[OpenedFile]) -> io::Result<(Vec<Change>, Vec<u8>)> {
        let mut all = Vec::new(self.alloc);
        for change in self.first.iter() {
            let mut bytes = Vec::from_slice(self.alloc, &change.bytes)?;
            if let Some(it) = files.get(change.file) {
                put_mark(&mut bytes, name_of(it.beside.as_path()));
            }
            if is_marked(&bytes) {
                all.push(Change {
                    file: change.file,
                    at: 0,
                    bytes,
                })?;
            }
        }
        for change in self.rest {
            all.push(change)?;
        }
        for change in self.first {
            all.push(change)?;
        }
        let mut known = self.digests;
        known.extend_from_slice(&self.rest_sums)?;
        known.extend_from_slice(&self.first_sums)?;
        Ok((all, known))
    }
}

// How many of a file's bytes are read next.
fn count_at(len: u64, at: u64, most: usize) -> usize
    ensures { result ≤ most }
{
    len.saturating_sub(at).min(most as u64) as usize
}

/// Adds the sums of each sector of these bytes.
pub(crate) fn add_sums(sums: &mut Vec<u8>, bytes: &[u8]) -> io::Result<()> {
    for sector in bytes.chunks(SECTOR) {
        sums.extend_from_slice(&sum_of(sector))?;
    }
    Ok(())
}

// The sum of a sector.
fn sum_of(sector: &[u8]) -> [u8; SUM]
    ensures { result ≡ take SUM (sha256 sector.now) }
{
    let digest = Sha256::digest(sector);
    let mut sum = [0; SUM];
    sum.copy_from_slice(&digest[..SUM]);
    sum
}

impl<N: Notes> Looked<'_, N> {
    /// Reads bytes of the file.
    pub(crate) fn read(&self, into: &mut [u8], at: u64) -> io::Result<()>
        ensures { length into.new ≡ length into.old }
    {
        let read = self.file.read_exact_at(into, at);
        if let Err(fault) = &read {
            self.notes.note_reading(self.path, at, fault);
        }
        read
    }

    // The SHA-256 of the bytes that no change touches, after the first block.
    fn digest_of_rest(&self, changes: &[Change]) -> io::Result<[u8; DIGEST]> {
        let mut digest = Sha256::new();
        let mut at = BLOCK as u64;
        for change in changes {
            if change.file == self.place && change.at >= at {
                self.feed(&mut digest, at, change.at)?;
                at = change.at.saturating_add(change.bytes.len() as u64);
            }
        }
        self.feed(&mut digest, at, self.file.metadata()?.len())?;
        Ok(digest.finalize())
    }

    // Feeds a digest with the bytes from one place to another.
    fn feed(&self, digest: &mut Sha256, from: u64, to: u64) -> io::Result<()> {
        let mut bytes = vec![in self.notes.host().alloc(); 0; WINDOW]?;
        let mut at = from;
        for _ in 0..u64::MAX {
            let count = count_at(to, at, bytes.len());
            if count == 0 {
                break;
            }
            self.read(&mut bytes[..count], at)?;
            digest.update(&bytes[..count]);
            at = at.saturating_add(count as u64);
        }
        Ok(())
    }

    /// Whether the file holds these bytes wherever a journal changes it, and elsewhere what it held before.
    pub(crate) fn fits(&self, journal: &Journal, bytes: Held) -> io::Result<bool> {
        if !journal
            .changes
            .iter()
            .any(|change| change.file == self.place)
        {
            return Ok(true);
        }
        let digest = self.digest_of_rest(&journal.changes)?;
        if journal.more.chunks(DIGEST).nth(self.place) != Some(&digest[..]) {
            return Ok(false);
        }
        let begin = journal.files.len().saturating_mul(DIGEST);
        let mut sums = journal.more.get(begin..).unwrap_or(&[]);
        for change in journal.changes.iter() {
            if change.at == 0 && is_marked(&change.bytes) {
                continue;
            }
            let count = change.bytes.len().div_ceil(SECTOR).saturating_mul(SUM);
            let (Some(own), Some(after)) = (sums.get(..count), sums.get(count..)) else {
                return Ok(false);
            };
            if change.file == self.place && !self.holds(change, own, bytes)? {
                return Ok(false);
            }
            sums = after;
        }
        Ok(true)
    }

    // Whether each sector that a change touches has these bytes: the old ones by their sum.
    fn holds(&self, change: &Change, sums: &[u8], bytes: Held) -> io::Result<bool> {
        let mut held = vec![in self.notes.host().alloc(); 0; change.bytes.len()]?;
        self.read(&mut held, change.at)?;
        if change.at == 0 {
            take_mark(&mut held, &change.bytes);
        }
        let pairs = held.chunks(SECTOR).zip(change.bytes.chunks(SECTOR));
        for ((held, new), sum) in pairs.zip(sums.chunks(SUM)) {
            let is_right = match bytes {
                Held::Old => sum == sum_of(held).as_slice(),
                Held::New => held == new,
                Held::Either => held == new || sum == sum_of(held).as_slice(),
            };
            if !is_right {
                return Ok(false);
            }
        }
        Ok(true)
    }
}

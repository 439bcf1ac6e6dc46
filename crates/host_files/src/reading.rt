//! Files of the host that are read.

ghost use Rattle.std.specs.Prelude.{◌≡◌, ◌≤◌, ◌+◌, length, slice_range, None, IfOk, OnOk, OnErr};

use crate::remarks::Remarks;
use ckd_image::{HEADER_LENGTH, StoreFault};
use dasd_jobs::{OpenedFile, is_header};
use file_journals::{WholeFile, whole_file};
use file_places::Notes;
use std::alloc::Global;
use std::fs::File;
use std::io;
use std::io::{Error, ErrorKind, Read};

/// How many bytes are read at once.
const PIECE: usize = 4_096;

/// How many bytes of a regular file are read ahead, so that its slots cost no call of the system each.
const WINDOW: usize = 65_536;

/// A regular file, with the bytes that were read ahead.
#[derive(Drop)]
struct RegularFile {
    file: WholeFile,
    len: u64,
    /// Where the bytes stand that were read ahead.
    begin: u64,
    /// How many they are.
    held: usize,
    /// The room for them.
    window: Vec<u8>,
}

impl RegularFile {
    // A file of this length, of which nothing is read yet.
    fn new(alloc: Global, file: WholeFile, len: u64) -> io::Result<RegularFile>
        ensures { IfOk result (λ it. (it.len ≡ len) × (it.held ≡ 0)) }
    {
        let window = vec![in alloc; 0; WINDOW]?;
        Ok(RegularFile {
            file,
            len,
            begin: 0,
            held: 0,
            window,
        })
    }

    // The bytes from `at` on that were read ahead, as many as there are.
    fn ahead(&self, at: u64) -> &[u8] {
        let held = self.window.get(..self.held).unwrap_or(&[]);
        let Some(behind) = at.checked_sub(self.begin) else {
            return &[];
        };
        match usize::try_from(behind) {
            Ok(behind) => held.get(behind..).unwrap_or(&[]),
            Err(_) => &[],
        }
    }

    // Reads ahead from `at` on.
    fn read_ahead(&mut self, remarks: &Remarks, at: u64) -> io::Result<()>
        ensures { self.new.len ≡ self.old.len }
    {
        let left = self.len.saturating_sub(at);
        let count = left.min(self.window.len() as u64) as usize;
        self.held = 0;
        self.file.read_exact_at(&mut self.window[..count], at)?;
        remarks.read.look()?;
        self.begin = at;
        self.held = count;
        Ok(())
    }

    // Reads the bytes from `at` on that fill `into`, unless a file was written since it was opened to be read.
    fn read_at(&mut self, remarks: &Remarks, at: u64, into: &mut [u8]) -> io::Result<()>
        ensures { length into.new ≡ length into.old }
    {
        // what can't be read behind these bytes is no fault of theirs
        if into.len() <= self.window.len() && self.ahead(at).len() < into.len() {
            let _ = self.read_ahead(remarks, at);
        }
        if let Some(found) = self.ahead(at).get(..into.len()) {
            into.copy_from_slice(found);
            return Ok(());
        }
        self.file.read_exact_at(into, at)?;
        remarks.read.look()
    }
}

/// The bytes of a file: they are read in place, or were read of a pipe or of a device.
#[derive(Drop)]
enum FileBytes {
    /// A regular file.
    Regular(RegularFile),
    /// All that a pipe gave; of one that begins no image only the beginning.
    Read(Vec<u8>),
}

/// A file that was opened to be read. Where its bytes can't be, it remarks where and why.
#[derive(Drop)]
pub struct HostFile<'a> {
    bytes: FileBytes,
    path: String,
    remarks: &'a Remarks<'a>,
}

impl<'a> HostFile<'a> {
    /// A file that was opened to be read; what is no regular one is read at once.
    pub(crate) fn open(
        alloc: Global,
        remarks: &'a Remarks<'a>,
        path: &str,
        mut file: File,
    ) -> io::Result<HostFile<'a>> {
        let known = file.metadata()?;
        if known.is_file() {
            let len = remarks.read.add(remarks, path, &file)?;
            let file = whole_file(remarks, path, file, false)?;
            return HostFile::of(alloc, remarks, path, file, len);
        }
        let mut bytes = Vec::new(alloc);
        read_up_to(&mut file, &mut bytes, HEADER_LENGTH)?;
        if is_header(bytes.as_slice()) {
            read_up_to(&mut file, &mut bytes, usize::MAX)?;
        }
        Ok(HostFile {
            bytes: FileBytes::Read(bytes),
            path: path.to_string(alloc)?,
            remarks,
        })
    }

    /// A regular file of this length.
    pub(crate) fn of(
        alloc: Global,
        remarks: &'a Remarks<'a>,
        path: &str,
        file: WholeFile,
        len: u64,
    ) -> io::Result<HostFile<'a>> {
        let path = path.to_string(alloc)?;
        Ok(HostFile {
            bytes: FileBytes::Regular(RegularFile::new(alloc, file, len)?),
            path,
            remarks,
        })
    }
}

impl OpenedFile for HostFile<'_> {
    // a read of the host gives bytes of which no contract knows
    ghost content = { λ _. None };

    fn len(&self) -> u64 {
        match &self.bytes {
            FileBytes::Regular(it) => it.len,
            FileBytes::Read(bytes) => bytes.len() as u64,
        }
    }

    fn read_at(&mut self, at: u64, into: &mut [u8]) -> Result<(), StoreFault> {
        let read = match &mut self.bytes {
            FileBytes::Regular(it) => {
                self.remarks.show_reading(self.path.as_str(), at, it.len);
                it.read_at(self.remarks, at, into)
            }
            FileBytes::Read(bytes) => copy_at(bytes.as_slice(), at, into),
        };
        match read {
            Ok(()) => Ok(()),
            Err(fault) => {
                self.remarks.note_reading(self.path.as_str(), at, &fault);
                Err(StoreFault)
            }
        }
    }
}

// Copies the bytes from `at` on that fill `into`.
fn copy_at(bytes: &[u8], at: u64, into: &mut [u8]) -> io::Result<()>
    ensures { OnOk result (into.new ≡ slice_range bytes.now at (at + length into.old)) }
{
    let at = usize::try_from(at).unwrap_or(usize::MAX);
    let behind = bytes.get(at..).unwrap_or(&[]);
    match behind.get(..into.len()) {
        Some(found) => {
            into.copy_from_slice(found);
            Ok(())
        }
        None => Err(Error::from(ErrorKind::UnexpectedEof)),
    }
}

/// The bytes of a file, at most so many.
pub(crate) fn read_some(alloc: Global, mut file: File, most: usize) -> io::Result<Vec<u8>>
    ensures { IfOk result (λ bytes. length bytes.items ≤ most) }
{
    let mut bytes = Vec::new(alloc);
    read_up_to(&mut file, &mut bytes, most)?;
    Ok(bytes)
}

// Reads on until there are so many bytes, or no more.
fn read_up_to(file: &mut File, bytes: &mut Vec<u8>, most: usize) -> io::Result<()>
    requires { length bytes.old.items ≤ most }
    ensures { length bytes.new.items ≤ most }
{
    let mut piece = [0; PIECE];
    for _ in 0..u64::MAX {
        let room = (most - bytes.len()).min(PIECE);
        let count = read_piece(file, &mut piece[..room])?;
        if count == 0 {
            break;
        }
        bytes.extend_from_slice(&piece[..count])?;
    }
    Ok(())
}

// One read, which a signal does not end.
fn read_piece(file: &mut File, piece: &mut [u8]) -> io::Result<usize>
    ensures count { IfOk result (λ count. count ≤ length piece.old) }
    ensures size { length piece.new ≡ length piece.old }
{
    for _ in 0..u64::MAX {
        match file.read(piece) {
            Ok(count) => return Ok(count),
            Err(fault) if fault.kind() == ErrorKind::Interrupted => {}
            Err(fault) => return Err(fault),
        }
    }
    Ok(0)
}

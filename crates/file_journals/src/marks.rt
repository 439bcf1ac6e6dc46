//! The mark of a file that is being written over.
//!
//! It is the first change of a save, and the file's own first bytes are the last one. So no other program takes a file whose save was cut
//! off for an image, and whoever finds it under another name learns which journal has the rest.

ghost use Rattle.std.specs.Prelude.{◌≡◌, ◌↔◌, ◌++◌, ◌≤◌, length, take, drop, codes, IsTrue};

use std::fs::File;
use std::io::{self, ErrorKind};
use std::os::unix::fs::FileExt;

/// How many bytes a mark has; an image's header has more.
pub(crate) const MARK_LENGTH: usize = 264;

/// What a mark begins with: no image does.
const TAG: &[u8; 8] = b"dasd-cut";

/// What stands in the place of a file's first bytes while others of it are written over: a tag, and the name of what is beside it.
#[derive(Clone, Copy)]
pub(crate) struct Mark {
    pub(crate) bytes: [u8; MARK_LENGTH],
}

impl Mark {
    /// The mark that a file has, if there is one.
    pub(crate) fn read(file: &File) -> io::Result<Option<Mark>> {
        let mut bytes = [0; MARK_LENGTH];
        match file.read_exact_at(&mut bytes, 0) {
            Ok(()) if bytes.starts_with(TAG) => Ok(Some(Mark { bytes })),
            Err(fault) if fault.kind() != ErrorKind::UnexpectedEof => Err(fault),
            _ => Ok(None),
        }
    }
}

/// Whether these bytes begin with a mark.
pub(crate) fn is_marked(bytes: &[u8]) -> bool
    ensures { IsTrue result ↔ (take 8 bytes.now ≡ codes "dasd-cut") }
{
    bytes.starts_with(TAG)
}

/// Puts a mark with this name over the first bytes, if there is room for it.
pub(crate) fn put_mark(bytes: &mut [u8], name: &str)
    ensures { length bytes.new ≡ length bytes.old }
{
    let name = name.as_bytes();
    if bytes.len() >= MARK_LENGTH && name.len() < MARK_LENGTH - 8 {
        bytes[..MARK_LENGTH].fill(0);
        bytes[..8].copy_from_slice(TAG);
        bytes[8..8 + name.len()].copy_from_slice(name);
    }
}

/// Puts the first of other bytes over a mark.
pub(crate) fn take_mark(bytes: &mut [u8], others: &[u8])
    ensures { length bytes.new ≡ length bytes.old }
{
    if is_marked(bytes) && bytes.len() >= MARK_LENGTH && others.len() >= MARK_LENGTH {
        bytes[..MARK_LENGTH].copy_from_slice(&others[..MARK_LENGTH]);
    }
}

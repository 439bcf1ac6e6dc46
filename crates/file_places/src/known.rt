//! What is known of files.

ghost use Rattle.std.specs.Prelude.{◌≡◌};
ghost use Rattle.std.specs.IoError.{error_kind};

use std::fs::Metadata;
use std::io::{self, ErrorKind};
use std::os::unix::fs::MetadataExt;

/// Whether both are of one file.
pub fn is_same(one: &Metadata, other: &Metadata) -> bool {
    one.dev() == other.dev() && one.ino() == other.ino()
}

/// A file that is not as it must be.
pub fn wrong(why: &str) -> io::Error
    ensures { error_kind result ≡ ErrorKind.InvalidInput }
{
    io::Error::new(ErrorKind::InvalidInput, why)
}

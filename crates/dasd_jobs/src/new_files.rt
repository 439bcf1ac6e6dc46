//! A new file that is written as it comes.

ghost use Rattle.std.specs.Prelude.{◌≡◌, [], Some, length, IfOk};
ghost use Rattle.dasd_jobs.specs.Written.{WritesFile};

use crate::faults::{JobFault, of_write};
use crate::files::ImageFiles;
use ckd_image::ImageStore;
use std::alloc::Global;
use std::io::{Error, ErrorKind, Result as IoResult, Write};

/// A new file to which bytes are written one after another. One that is dropped leaves nothing.
#[derive(Drop)]
pub struct DraftWriter<D: ImageStore> {
    /// The file, before it takes its place.
    pub draft: D,
}

impl<D: ImageStore> DraftWriter<D> {
    /// How many bytes were written.
    pub fn len(&self) -> u64
        ensures { result ≡ length (D.content self.now.draft) }
    {
        self.draft.len()
    }
}

impl<D: ImageStore> Write for DraftWriter<D> {
    ghost contents = { λ w. Some (D.content w.draft) };

    fn write(&mut self, bytes: &[u8]) -> IoResult<usize> {
        let end = self.draft.len();
        match self.draft.write_at(end, bytes) {
            Ok(()) => Ok(bytes.len()),
            Err(_) => Err(Error::from(ErrorKind::Other)),
        }
    }

    // Nothing is held back here.
    fn flush(&mut self) -> IoResult<()> {
        Ok(())
    }
}

/// Begins a new file at a path where none is.
///
/// # Errors
///
/// A file is there, or none can be made; or there is no memory.
pub fn begin_file<F: ImageFiles>(
    alloc: Global,
    files: &mut F,
    path: &str,
) -> Result<DraftWriter<F::Draft>, JobFault>
    ensures kept { F.written files.new ≡ F.written files.old }
    ensures same { F.opened files.new ≡ F.opened files.old }
    ensures empty { IfOk result (λ new. F.Draft.content new.draft ≡ []) }
{
    match files.begin(alloc, path, false) {
        Ok(draft) => Ok(DraftWriter { draft }),
        Err(fault) => Err(of_write(fault)),
    }
}

/// Puts a new file that was begun for this path there, with the bytes that it has.
///
/// # Errors
///
/// The host can't do it, or a file has come to the path since: nothing is there that was not.
pub fn put_file<F: ImageFiles>(
    files: &mut F,
    path: &str,
    new: DraftWriter<F::Draft>,
) -> Result<(), JobFault>
    ensures file { WritesFile result path.now (F.Draft.content new.draft) (F.written files.old) (F.written files.new) }
    ensures same { F.opened files.new ≡ F.opened files.old }
{
    let DraftWriter { draft } = new;
    match files.put(path, draft) {
        Ok(()) => Ok(()),
        Err(fault) => Err(of_write(fault)),
    }
}

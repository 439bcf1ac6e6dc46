//! Saves that were cut off, as they are completed or given up where that is asked.

ghost use Rattle.std.specs.Prelude.{◌≡◌, IfErr};
ghost use Rattle.dasd_jobs.specs.Causes.{IsOfWriting};

use crate::faults::{JobFault, of_write};
use crate::files::FileFault;
use crate::traces::Traces;

/// Files whose saves may have been cut off. What is completed here is a save of an earlier run, and so no file that is written now, as
/// where a file is locked.
pub trait Journals: Traces {
    /// Completes the save of a file by the journal that is beside it, though that may be of another file, if all bytes fit. Or it removes
    /// the journal, and writes no file. Where there is no journal, that is told.
    ///
    /// # Errors
    ///
    /// The journal is not taken; or a file of it does not fit, is not there, is locked or may not be written, and nothing is written; or it
    /// is to be removed, and the files are half saved and fit it. Else the host refuses something, and what that leaves is told.
    fn recover(&mut self, path: &str, drops: bool) -> Result<(), FileFault>
        ensures kept { Self.written self.new ≡ Self.written self.old }
        ensures same { Self.opened self.new ≡ Self.opened self.old };
}

/// Completes the saves of these files, one after another, or drops their journals.
///
/// # Errors
///
/// The first file for which that is not done; those before it are done.
pub fn recover_files<F: Journals>(
    files: &mut F,
    paths: &[&str],
    drops: bool,
) -> Result<(), JobFault>
    ensures kept { F.written files.new ≡ F.written files.old }
    ensures same { F.opened files.new ≡ F.opened files.old }
    ensures fault { IfErr result IsOfWriting }
{
    for path in paths {
        if let Err(fault) = files.recover(path, drops) {
            return Err(of_write(fault));
        }
    }
    Ok(())
}

//! The files that were written, which only contracts read.

ghost use Rattle.std.specs.Prelude.{◌≡◌, List, []};
ghost use Rattle.std.specs.Borrow.{ftrue};
ghost use Rattle.dasd_jobs.specs.Written.{Replaced, with_file};

use ghost_data::Trace;
use std::marker::Model;

/// Which files were made or replaced, in order, and by which bytes. Memory keeps nothing of it. A contract reads it as `files`.
#[derive(Drop)]
pub struct Written {
    pub ghost files: { List Replaced },
}

impl Model for Written {
    ghost also_owns = { λ _. ftrue };
}

impl Written {
    /// No file.
    pub fn new() -> Written
        ensures { result.files ≡ [] }
    {
        Written {}
    }

    /// These files, and one more behind them.
    pub fn with(&self, path: &[u8], bytes: &Trace) -> Written
        ensures { result.files ≡ with_file self.now.files path.now bytes.now.bytes }
    {
        Written {}
    }
}

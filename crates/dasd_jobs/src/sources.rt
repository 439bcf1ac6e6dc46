//! The files that were opened, which only contracts read.

ghost use Rattle.std.specs.Prelude.{◌≡◌, List, [], None};
ghost use Rattle.std.specs.Borrow.{ftrue};
ghost use Rattle.dasd_jobs.specs.Sources.{SourceFile, with_source};

use std::marker::Model;

/// Which files were opened to be read, in order, by which paths. Memory keeps nothing of it. A contract reads it as `files`.
#[derive(Drop)]
pub struct Sources {
    pub ghost files: { List SourceFile },
}

impl Model for Sources {
    ghost also_owns = { λ _. ftrue };
}

impl Sources {
    /// No file.
    pub fn new() -> Sources
        ensures { result.files ≡ [] }
    {
        Sources {}
    }

    /// These files, and one more behind them, of which it is not known what it holds.
    pub fn with_unknown(&self, path: &[u8]) -> Sources
        ensures { result.files ≡ with_source self.now.files path.now None }
    {
        Sources {}
    }
}

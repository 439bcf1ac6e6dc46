//! Why bytes are not read as a journal.

ghost use Rattle.std.specs.Prelude.{◌≡◌};
ghost use Rattle.journal_text.specs.declared.faults.JournalFault.TheVariants.{OutOfMemory};

use std::alloc::{AllocError, AllocFailed};
use thiserror::Error;

/// Why bytes are not read as a journal: the first that applies.
#[derive(Clone, Copy, Debug, PartialEq, Eq, Error)]
pub enum JournalFault {
    /// There is no memory for what it says.
    #[error("out of memory")]
    OutOfMemory,
    /// It does not begin as a journal.
    #[error("not a journal")]
    Foreign,
    /// It has another version.
    #[error("a journal of another version")]
    Later,
    /// It ends too early.
    #[error("a journal that is cut off")]
    Truncated,
    /// Its bytes are not those that were written.
    #[error("a damaged journal")]
    Damaged,
}

impl From<AllocError> for JournalFault {
    ghost from_gives = { λ _ e. e ≡ OutOfMemory };

    fn from(_fault: AllocError) -> JournalFault {
        JournalFault::OutOfMemory
    }
}

impl<T: Drop> From<AllocFailed<T>> for JournalFault {
    ghost from_gives = { λ _ e. e ≡ OutOfMemory };

    fn from(_fault: AllocFailed<T>) -> JournalFault {
        JournalFault::OutOfMemory
    }
}

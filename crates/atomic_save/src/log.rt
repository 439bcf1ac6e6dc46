//! What was asked of a host, which only contracts read.

ghost use Rattle.std.specs.Prelude.{◌≡◌, ◌∷◌, List, []};
ghost use Rattle.std.specs.Borrow.{ftrue};
ghost use Rattle.atomic_save.specs.Calls.{Event};
ghost use Rattle.atomic_save.specs.Noted.{event_of};

use crate::{Change, FileId};
use std::marker::Model;

/// A call of the host, and where that matters whether it was answered without an error.
#[derive(Clone, Copy)]
pub enum Call<'a> {
    /// These files were opened, and a journal with these changes has its name, or none has.
    Opened(&'a [FileId], Option<&'a [Change]>),
    /// A draft of these changes was made and synced.
    Drafted(&'a [Change]),
    /// The draft was renamed to the journal.
    Committed,
    /// The journal was unlinked.
    Retired,
    /// The folder was to be synced.
    NamesSynced(bool),
    /// A change was to be written.
    Wrote(&'a Change, bool),
    /// A file was to be synced.
    Synced(usize, bool),
}

/// The calls so far. Memory keeps nothing of them. A contract reads them as `events`.
#[derive(Drop)]
pub struct CallLog {
    pub ghost events: { List Event },
}

impl Model for CallLog {
    ghost also_owns = { λ _. ftrue };
}

impl CallLog {
    /// No call.
    pub fn new() -> CallLog
        ensures { result.events ≡ [] }
    {
        CallLog {}
    }

    /// These calls, and one more.
    pub fn and(&self, call: &Call<'_>) -> CallLog
        ensures { result.events ≡ event_of call.now ∷ self.now.events }
    {
        CallLog {}
    }
}

//! The calls of the host.

ghost use Rattle.std.specs.Prelude.{◌≡◌, ◌∷◌, ℕ, List, is_ok, OnOk, OnErr};
ghost use Rattle.atomic_save.specs.Changes.{note_of, notes};
ghost use Rattle.atomic_save.specs.Calls.{Event, Drafted, Committed, Retired, NamesSynced, Wrote, Synced, files_of, Lies};
ghost use Rattle.atomic_save.specs.Saves.{HasCause};

use crate::{Change, FileId, HostFault};

/// The files of a save that were opened, and the name of its journal. Each call only notes what was asked and what the system answered;
/// what a crash may leave then is a matter of `specs/Calls.antt`.
pub trait Host {
    // what was asked for and answered, the newest first
    ghost events: { Self → List Event };

    // how often something was refused
    ghost faults: { Self → ℕ };

    /// The files, by their numbers.
    fn files(&self) -> &[FileId]
        ensures { result.now ≡ files_of (events self.now) };

    /// Writes these changes into a new file, which has no name that counts, and syncs it. Whatever else is to be there before a journal
    /// has its name, as markers beside files in other folders, is made and synced here.
    ///
    /// # Errors
    ///
    /// The host refuses it, or there is no memory.
    fn draft(&mut self, changes: &[Change]) -> Result<(), HostFault>
        ensures ok { OnOk result (events self.new ≡ Drafted (notes changes.now) ∷ events self.old) }
        ensures err { OnErr result (events self.new ≡ events self.old) }
        ensures cause { HasCause (faults self.old) (faults self.new) result };

    /// Renames the draft to the journal, in the place of one that is there.
    ///
    /// # Errors
    ///
    /// The host refuses it: the name leads to what it led to.
    fn commit(&mut self) -> Result<(), HostFault>
        ensures ok { OnOk result (events self.new ≡ Committed ∷ events self.old) }
        ensures err { OnErr result (events self.new ≡ events self.old) }
        ensures cause { HasCause (faults self.old) (faults self.new) result };

    /// Unlinks the journal.
    ///
    /// # Errors
    ///
    /// The host refuses it: the name leads to what it led to.
    fn retire(&mut self) -> Result<(), HostFault>
        ensures ok { OnOk result (events self.new ≡ Retired ∷ events self.old) }
        ensures err { OnErr result (events self.new ≡ events self.old) }
        ensures cause { HasCause (faults self.old) (faults self.new) result };

    /// Syncs the journal's folder.
    ///
    /// # Errors
    ///
    /// The host refuses it, or can't: the name may lead to what it led to at any time before.
    fn sync_names(&mut self) -> Result<(), HostFault>
        ensures events { events self.new ≡ NamesSynced (is_ok result) ∷ events self.old }
        ensures cause { HasCause (faults self.old) (faults self.new) result };

    /// Writes bytes over those of a file, until all are written.
    ///
    /// # Errors
    ///
    /// The host refuses it: each of these bytes may be written or not.
    fn write(&mut self, change: &Change) -> Result<(), HostFault>
        requires { Lies (files_of (events self.old)) (note_of change.now) }
        ensures events { events self.new ≡ Wrote (note_of change.now) (is_ok result) ∷ events self.old }
        ensures cause { HasCause (faults self.old) (faults self.new) result };

    /// Syncs a file, by what it was written with.
    ///
    /// # Errors
    ///
    /// The host refuses it: whatever was not synced before may be lost, and no later sync vouches for it.
    fn sync(&mut self, file: usize) -> Result<(), HostFault>
        ensures events { events self.new ≡ Synced file (is_ok result) ∷ events self.old }
        ensures cause { HasCause (faults self.old) (faults self.new) result };
}

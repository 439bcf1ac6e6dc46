//! Laws of what a crash leaves.

ghost use Rattle.std.specs.Prelude.{◌≡◌, ◌∷◌, ℕ, List, [], false};
ghost use Rattle.atomic_save.specs.Changes.{State, Note, touches, byte_after};
ghost use Rattle.atomic_save.specs.Calls.{Event, Opened, shown, seen, MayLeave};
ghost use Rattle.atomic_save.specs.Saves.{Fits};
ghost use Rattle.atomic_save.specs.declared.changes.FileId.{FileId};

/// There is always something that a crash may leave: what is seen now, which is what a kill leaves.
pub fn something_is_left()
    ensures { (disk : State) (es : List Event) → MayLeave disk es (seen disk es) }
{}

/// Whoever comes next may go on: after a kill with the journal that is shown, and after a crash with the one that it left.
pub fn next_begins()
    ensures killed { (disk : State) (es : List Event) (fs : List FileId) → Fits disk es → Fits disk (Opened fs (shown es) ∷ es) }
    ensures crashed { (disk : State) (fs : List FileId) → Fits disk (Opened fs disk.journal ∷ []) }
{}

/// Who reads the journal and finds the same one there when all is read has the files with all its changes, though they were written
/// meanwhile, each byte at another moment.
pub fn read_while_written()
    ensures { (ns : List Note) (held read : ℕ → ℕ → ℕ)
        → ((file k : ℕ) → touches ns file k ≡ false → read file k ≡ held file k)
        → (file k : ℕ) → byte_after ns file k (read file k) ≡ byte_after ns file k (held file k) }
{}

//! What a reader gives: the bytes of a file, and over them those of the journal.

ghost use Rattle.std.specs.Prelude.{◌≡◌, ◌<◌, ◌≤◌, ◌+◌, ◌++◌, ℕ, List, length, take, drop, slice_index_or, OnOk};
ghost use Rattle.atomic_save.specs.Changes.{State, note_of, notes, or_none, byte_of, byte_after, opened};
ghost use Rattle.atomic_save.specs.Saves.{HasCause};

use crate::{Change, HostFault};

/// The files and the journal, as they are found.
pub trait Found {
    // what is found
    ghost state: { Self → State };

    // how often something was refused
    ghost faults: { Self → ℕ };

    /// The changes of the journal; none where there is no journal.
    fn changes(&self) -> &[Change]
        ensures { notes result.now ≡ or_none (state self.now).journal };

    /// Reads the bytes of a file from `at` on that fill `into`.
    ///
    /// # Errors
    ///
    /// The host refuses it: `into` holds any bytes.
    fn read_at(&mut self, file: usize, at: u64, into: &mut [u8]) -> Result<(), HostFault>
        ensures length { length into.new ≡ length into.old }
        ensures held { OnOk result ((k : ℕ) → k < length into.new → slice_index_or into.new k 0 ≡ (state self.new).held file (at + k)) }
        ensures cause { HasCause (faults self.old) (faults self.new) result };
}

/// Reads the bytes of a file from `at` on that fill `into`, as they are with the journal that is there.
///
/// # Errors
///
/// The host refuses it: `into` holds any bytes.
pub fn open<F: Found>(found: &mut F, file: usize, at: u64, into: &mut [u8]) -> Result<(), HostFault>
    ensures length { length into.new ≡ length into.old }
    ensures opened { OnOk result ((k : ℕ) → k < length into.new → slice_index_or into.new k 0 ≡ opened (F.state found.new) file (at + k)) }
    ensures cause { HasCause (F.faults found.old) (F.faults found.new) result }
{
    found.read_at(file, at, into)?;
    overlay(found.changes(), file, at, into);
    Ok(())
}

/// Makes of the bytes of a file from `at` on those after these changes.
pub fn overlay(changes: &[Change], file: usize, at: u64, into: &mut [u8])
    ensures length { length into.new ≡ length into.old }
    ensures after { (k : ℕ) → k < length into.old
        → slice_index_or into.new k 0 ≡ byte_after (notes changes.now) file (at + k) (slice_index_or into.old k 0) }
{
    let mut rest = changes;
    while let [change, after @ ..] = rest {
        if change.file == file {
            lay_over(change, at, into);
        }
        rest = after;
    }
}

// Lays the bytes of a change over those of its file from `at` on.
fn lay_over(change: &Change, at: u64, into: &mut [u8])
    ensures length { length into.new ≡ length into.old }
    ensures after { (k : ℕ) → k < length into.old
        → slice_index_or into.new k 0 ≡ byte_of (note_of change.now) change.now.file (at + k) (slice_index_or into.old k 0) }
{
    let first = change.at.max(at);
    let from = (first - change.at) as usize;
    let to = (first - at) as usize;
    if from < change.bytes.len() && to < into.len() {
        let count = (change.bytes.len() - from).min(into.len() - to);
        put_over(into, to, &change.bytes[from..from + count]);
    }
}

fn put_over(into: &mut [u8], at: usize, bytes: &[u8])
    requires { at + length bytes.now ≤ length into.old }
    ensures { into.new ≡ take at into.old ++ bytes.now ++ drop (at + length bytes.now) into.old }
{
    into[at..at + bytes.len()].copy_from_slice(bytes);
}

//! The save: the journal first, then the files, then the journal goes.

ghost use Rattle.std.specs.Prelude.{◌≡◌, ◌⊎◌, ◌↔◌, List, slice_get, None, Some, OnOk, IfErr, IfNone, IfSome, IsTrue, position};
ghost use Rattle.atomic_save.specs.Changes.{State, Note, notes};
ghost use Rattle.atomic_save.specs.Calls.{files_of, shown, MayLeave};
ghost use Rattle.atomic_save.specs.Saves.{HasCause, HasSaveCause, is_outside, AllLie, AllHanded, SafeThroughout, SavedFor, SameThroughout, NoJournal, Untouched, Tells, FinishTells, ids_of, KeepsSafe, Leads, Writing, Written, New, Follows, Fits};

use crate::{Change, FileId, Host, HostFault, Journal, JournalFile, SaveFault};

/// Saves all changes as one, where no journal is, or the one of a save of the same that was cut off. After `Ok` the files have them, for
/// good.
///
/// # Errors
///
/// `Outside`: a change lies outside its file. Else the host refused something, and the fault says what the files are. Whatever it is, a
/// reader finds the old bytes of all files or the new ones of all.
pub fn save<H: Host>(host: &mut H, changes: &[Change]) -> Result<(), SaveFault>
    requires free { (shown (H.events host.old) ≡ None) ⊎ (shown (H.events host.old) ≡ Some (notes changes.now)) }

    // Whatever call failed, a crash at any moment leaves the old bytes of all files, or the new ones of all.
    ensures any_moment { SafeThroughout (notes changes.now) (H.events host.old) (H.events host.new) }

    ensures saved { OnOk result (SavedFor (notes changes.now) (H.events host.old) (H.events host.new)) }
    ensures gone { OnOk result (NoJournal (H.events host.new)) }
    ensures told { IfErr result (Tells changes.now (H.events host.old) (H.events host.new)) }
    ensures cause { HasSaveCause (H.faults host.old) (H.faults host.new) result }
{
    if let Some(outside) = first_outside(host.files(), changes) {
        return Err(SaveFault::Outside(outside));
    }
    publish(host, changes)?;
    if let Err(fault) = put(host, changes) {
        return Err(SaveFault::Begun(fault));
    }
    if let Err(fault) = sync_files(host) {
        return Err(SaveFault::Begun(fault));
    }
    match settle(host) {
        Ok(()) => Ok(()),
        Err(fault) => Err(SaveFault::Saved(fault)),
    }
}

/// Ends a save that was cut off, by the journal that its name leads to, before another begins. It reads no file, writes all that the
/// journal says from a draft on, and may be cut off itself.
///
/// # Errors
///
/// `Other`, `Outside`: the journal is not of these files, or has a change outside of them; nothing was done. Else the host refused
/// something, and the fault says what the files are.
pub fn finish<H: Host>(host: &mut H, journal: &Journal) -> Result<(), SaveFault>
    requires shown { shown (H.events host.old) ≡ Some (notes journal.now.changes.items) }

    // Whatever call failed, a crash at any moment leaves what there was, or that with all changes of the journal.
    ensures any_moment { SafeThroughout (notes journal.now.changes.items) (H.events host.old) (H.events host.new) }

    // If the journal is on the disk, nothing changes for a reader.
    ensures same { SameThroughout (H.events host.old) (H.events host.new) }

    ensures files { OnOk result (ids_of journal.now.files.items ≡ files_of (H.events host.old)) }
    ensures saved { OnOk result (SavedFor (notes journal.now.changes.items) (H.events host.old) (H.events host.new)) }
    ensures gone { OnOk result (NoJournal (H.events host.new)) }
    ensures told { IfErr result (FinishTells journal.now (H.events host.old) (H.events host.new)) }
    ensures cause { HasSaveCause (H.faults host.old) (H.faults host.new) result }
{
    if let Some(other) = first_other(host.files(), &journal.files) {
        return Err(SaveFault::Other(other));
    }
    save(host, &journal.changes)
}

// The first change that lies in none of the files.
fn first_outside(files: &[FileId], changes: &[Change]) -> Option<usize>
    ensures { result ≡ position (is_outside files.now) changes.now }
{
    changes.iter().position(
        |change: &Change| -> bool
            ensures { result ≡ is_outside files.entry.now change.now }
        { lies_outside(files, change) },
    )
}

fn lies_outside(files: &[FileId], change: &Change) -> bool
    ensures { result ≡ is_outside files.now change.now }
{
    match files.get(change.file) {
        Some(file) => { change.at > file.size || change.bytes.len() as u64 > file.size - change.at }
        None => true,
    }
}

// The place of the first file that is not the journal's.
fn first_other(files: &[FileId], named: &[JournalFile]) -> Option<usize>
    ensures same { IfNone result (ids_of named.now ≡ files.now) }
    ensures other { IfSome result (λ i. slice_get (ids_of named.now) i ≡ slice_get files.now i → ⊥) }
{
    for place in 0..files.len().max(named.len()) {
        if !is_named(files, named, place) {
            return Some(place);
        }
    }
    None
}

fn is_named(files: &[FileId], named: &[JournalFile], place: usize) -> bool
    ensures { IsTrue result ↔ (slice_get (ids_of named.now) place ≡ slice_get files.now place) }
{
    match (files.get(place), named.get(place)) {
        (Some(file), Some(name)) => name.id == *file,
        (None, None) => true,
        _ => false,
    }
}

// Makes the journal, and leads its name there for good.
fn publish<H: Host>(host: &mut H, changes: &[Change]) -> Result<(), SaveFault>
    requires free { (shown (H.events host.old) ≡ None) ⊎ (shown (H.events host.old) ≡ Some (notes changes.now)) }
    ensures any_moment { SafeThroughout (notes changes.now) (H.events host.old) (H.events host.new) }
    ensures journal { OnOk result ((disk : State) → Fits disk (H.events host.old)
        → Follows (Writing (notes changes.now)) (MayLeave disk (H.events host.old)) (MayLeave disk (H.events host.new))) }
    ensures shown { OnOk result (shown (H.events host.new) ≡ Some (notes changes.now)) }
    ensures files { files_of (H.events host.new) ≡ files_of (H.events host.old) }
    ensures told { IfErr result (Tells changes.now (H.events host.old) (H.events host.new)) }
    ensures cause { HasSaveCause (H.faults host.old) (H.faults host.new) result }
{
    if let Err(fault) = host.draft(changes) {
        return Err(SaveFault::Kept(fault));
    }
    if let Err(fault) = host.commit() {
        return Err(SaveFault::Kept(fault));
    }
    match host.sync_names() {
        Ok(()) => Ok(()),
        Err(fault) => Err(SaveFault::Begun(fault)),
    }
}

// Writes all changes into their files.
fn put<H: Host>(host: &mut H, changes: &[Change]) -> Result<(), HostFault>
    requires inside { AllLie (files_of (H.events host.old)) (notes changes.now) }
    requires journal { shown (H.events host.old) ≡ Some (notes changes.now) }
    ensures any_moment { KeepsSafe (notes changes.now) (Writing (notes changes.now)) (H.events host.old) (H.events host.new) }
    ensures written { OnOk result (Leads (notes changes.now) (Writing (notes changes.now)) (Writing (notes changes.now))
        (H.events host.old) (H.events host.new)) }
    ensures handed { OnOk result (AllHanded (notes changes.now) (H.events host.new)) }
    ensures shown { shown (H.events host.new) ≡ shown (H.events host.old) }
    ensures files { files_of (H.events host.new) ≡ files_of (H.events host.old) }
    ensures cause { HasCause (H.faults host.old) (H.faults host.new) result }
{
    let mut rest = changes;
    while let [change, after @ ..] = rest {
        host.write(change)?;
        rest = after;
    }
    Ok(())
}

// Syncs all files.
fn sync_files<H: Host>(host: &mut H) -> Result<(), HostFault>
    ensures any_moment { (ns : List Note) → shown (H.events host.old) ≡ Some ns → KeepsSafe ns (Writing ns) (H.events host.old) (H.events host.new) }
    ensures synced { OnOk result ((ns : List Note) → shown (H.events host.old) ≡ Some ns
        → AllLie (files_of (H.events host.old)) ns → AllHanded ns (H.events host.old)
        → Leads ns (Writing ns) (Written ns) (H.events host.old) (H.events host.new)) }
    ensures shown { shown (H.events host.new) ≡ shown (H.events host.old) }
    ensures cause { HasCause (H.faults host.old) (H.faults host.new) result }
{
    for file in 0..host.files().len() {
        host.sync(file)?;
    }
    Ok(())
}

// Takes the journal away for good.
fn settle<H: Host>(host: &mut H) -> Result<(), HostFault>
    ensures any_moment { (ns : List Note) → KeepsSafe ns (Written ns) (H.events host.old) (H.events host.new) }
    ensures new { (ns : List Note) → Leads ns (Written ns) (New ns) (H.events host.old) (H.events host.new) }
    ensures gone { OnOk result (NoJournal (H.events host.new)) }
    ensures cause { HasCause (H.faults host.old) (H.faults host.new) result }
{
    host.retire()?;
    host.sync_names()
}

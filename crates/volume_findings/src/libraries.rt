//! What is wrong with the directories and the members of data sets.

ghost use Rattle.std.specs.Prelude.{◌≡◌, ◌≢◌, ◌++◌, Some, OnOk, IfErr};
ghost use Rattle.std.specs.List.{list_any};
ghost use Rattle.library_contents.specs.Members.{same_address};
ghost use Rattle.dasd_volumes.specs.Reading.{IsRead};
ghost use Rattle.volume_findings.specs.Data.{is_own_entry, is_other_name, directory_findings, member_findings, members_findings, library_findings, AddsOf};

use crate::ends::{Ended, add_end, end_from};
use crate::findings::{DataFault, DataFinding, push};
use dasd_extract::{Members, read_members};
use dasd_volumes::{SlotReader, VolumeFault};
use std::alloc::Global;
use volume_contents::DataSet;
use volume_labels::{DirectoryEntry, RelativeAddress};

/// What is wrong with the members of a data set, in the order of its directory, and then with this.
pub(crate) fn add_library<V: SlotReader>(
    alloc: Global,
    volume: &mut V,
    found: &mut Vec<DataFinding>,
    set: &DataSet,
) -> Result<(), VolumeFault>
    ensures found { OnOk result (AddsOf (library_findings set.now.block.name set.now.extents.items) (V.volume volume.old)
        found.old.items found.new.items) }
    ensures fault { IfErr result (λ e. e ≢ VolumeFault.Write) }
    ensures volume { IsRead result (V.volume volume.old) (V.volume volume.new) (V.failures volume.old) (V.failures volume.new) }
{
    let members = match read_members(alloc, volume, set.extents.as_slice()) {
        Ok(members) => members,
        Err(fault) => return Err(fault),
    };
    let library = Library {
        set,
        entries: members.entries.as_slice(),
    };
    if let Err(fault) = add_members(alloc, volume, found, library) {
        return Err(fault);
    }
    add_directory(found, set.block.name, &members)
}

// A data set with members, and the entries of its directory.
#[derive(Clone, Copy)]
struct Library<'a> {
    set: &'a DataSet,
    entries: &'a [DirectoryEntry],
}

// What is wrong with the members of a library.
fn add_members<V: SlotReader>(
    alloc: Global,
    volume: &mut V,
    found: &mut Vec<DataFinding>,
    library: Library,
) -> Result<(), VolumeFault>
    ensures found { let d = library.entry.set.now in OnOk result (AddsOf
        (members_findings d.block.name d.extents.items library.entry.entries.now) (V.volume volume.old) found.old.items found.new.items) }
    ensures fault { IfErr result (λ e. e ≢ VolumeFault.Write) }
    ensures volume { IsRead result (V.volume volume.old) (V.volume volume.new) (V.failures volume.old) (V.failures volume.new) }
{
    let entries = library.entries;
    for entry in entries {
        if let Err(fault) = add_member(alloc, volume, found, library, entry) {
            return Err(fault);
        }
    }
    Ok(())
}

// What is wrong with the member of an entry.
fn add_member<V: SlotReader>(
    alloc: Global,
    volume: &mut V,
    found: &mut Vec<DataFinding>,
    library: Library,
    entry: &DirectoryEntry,
) -> Result<(), VolumeFault>
    ensures found { let d = library.entry.set.now in OnOk result (AddsOf
        (member_findings d.block.name d.extents.items library.entry.entries.now entry.now) (V.volume volume.old)
        found.old.items found.new.items) }
    ensures fault { IfErr result (λ e. e ≢ VolumeFault.Write) }
    ensures volume { IsRead result (V.volume volume.old) (V.volume volume.new) (V.failures volume.old) (V.failures volume.new) }
{
    if is_other_name(library.entries, entry) {
        return Ok(());
    }
    let set = library.set;
    let stop = match end_from(alloc, volume, set.extents.as_slice(), entry.address) {
        Ok(stop) => stop,
        Err(fault) => return Err(fault),
    };
    let ended = Ended {
        data_set: set.block.name,
        member: Some(entry.name),
        needs_end: true,
    };
    add_end(found, ended, stop)
}

// Whether an entry is another name of a member that has an entry of its own.
fn is_other_name(entries: &[DirectoryEntry], entry: &DirectoryEntry) -> bool
    ensures { result ≡ is_other_name entries.now entry.now }
{
    entry.is_alias && has_own_entry(entries, entry.address)
}

// Whether the member at an address has an entry of its own.
fn has_own_entry(entries: &[DirectoryEntry], address: RelativeAddress) -> bool
    ensures { result ≡ list_any (is_own_entry address) entries.now }
{
    entries.iter().any(
        |other: &DirectoryEntry| -> bool
            ensures { result ≡ is_own_entry address other.now }
        { !other.is_alias && same_address(address, other.address) },
    )
}

// Whether two addresses are one.
fn same_address(address: RelativeAddress, other: RelativeAddress) -> bool
    ensures { result ≡ same_address address other }
{
    address.track == other.track && address.number == other.number
}

// What is wrong with a directory.
fn add_directory(
    found: &mut Vec<DataFinding>,
    data_set: [u8; 44],
    members: &Members,
) -> Result<(), VolumeFault>
    ensures found { OnOk result (found.new.items ≡ found.old.items ++ directory_findings data_set members.now.fault (Some members.now.stop)) }
    ensures fault { IfErr result (λ e. e ≡ VolumeFault.OutOfMemory) }
{
    let member = None;
    if let Some(fault) = members.fault {
        let fault = DataFault::Directory(fault);
        let finding = DataFinding {
            data_set,
            member,
            fault,
        };
        if let Err(fault) = push(found, finding) {
            return Err(fault);
        }
    }
    let needs_end = true;
    let ended = Ended {
        data_set,
        member,
        needs_end,
    };
    add_end(found, ended, members.stop)
}

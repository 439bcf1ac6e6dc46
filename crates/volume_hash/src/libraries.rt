//! The hashes of data sets with members, and of these.

ghost use Rattle.std.specs.Prelude.{◌≡◌, ◌≢◌, ◌&&◌, true, [], ◌++◌, codes, IfOk, IfErr, OnOk};
ghost use Rattle.sha2.specs.Sha256.{sha256};
ghost use Rattle.hex.specs.Hex.{encode_lower};
ghost use Rattle.volume_labels.specs.Names.{safe_name_of};
ghost use Rattle.dasd_volumes.specs.Reading.{IsRead};
ghost use Rattle.volume_hash.specs.SetLines.{shown, set_text, member_text};
ghost use Rattle.volume_hash.specs.SetMessage.{ending, is_whole_of, library_is_whole};
ghost use Rattle.volume_hash.specs.Prints.{Adds, AddsMembers, AddsMember, IsHashOfLibrary};
ghost use Rattle.volume_hash.specs.Sets.{where_asked, library_lines};

use crate::Message;
use crate::blocks::{BlocksHash, begun, ended, hash_blocks, is_end_of_file};
use crate::items::{Hashed, HashesForm, Report, write_member, write_set};
use dasd_extract::{Members, read_members};
use dasd_volumes::{SlotReader, VolumeFault};
use std::alloc::{AllocError, Global};
use volume_labels::{DirectoryEntry, Extent, safe_name};

/// A data set that is hashed, and how its lines are written.
#[derive(Clone, Copy)]
pub(crate) struct Named<'a> {
    pub(crate) form: HashesForm<'a>,
    /// Its name, as it is printed.
    pub(crate) name: &'a str,
    pub(crate) extents: &'a [Extent],
}

/// What members say, and their lines.
#[derive(Drop)]
pub(crate) struct Listed {
    pub(crate) message: Message,
    pub(crate) report: Report,
}

/// The hash of a data set with members, and the lines of these.
#[derive(Drop)]
pub(crate) struct LibraryHash {
    pub(crate) hash: BlocksHash,
    pub(crate) lines: Vec<u8>,
}

/// The line of a data set with members, and then those of its members if they are asked for, go to the report.
pub(crate) fn add_library<V: SlotReader>(
    alloc: Global,
    volume: &mut V,
    report: &mut Report,
    named: Named,
) -> Result<(), VolumeFault>
    ensures lines { let f = shown named.entry.form.path.now named.entry.form.json named.entry.form.sets named.entry.form.members in
        OnOk result (Adds (library_lines f named.entry.name.now named.entry.extents.now) (library_is_whole named.entry.extents.now)
        (V.volume volume.old) report.old report.new) }
    ensures fault { IfErr result (λ e. e ≢ VolumeFault.Write) }
    ensures volume { IsRead result (V.volume volume.old) (V.volume volume.new) (V.failures volume.old) (V.failures volume.new) }
{
    let library = match hash_library(alloc, volume, named) {
        Ok(library) => library,
        Err(fault) => return Err(fault),
    };
    if add_set(alloc, report, named, library.hash).is_err() {
        return Err(VolumeFault::OutOfMemory);
    }
    match report.lines.extend_from_slice(library.lines.as_slice()) {
        Ok(()) => Ok(()),
        Err(_) => Err(VolumeFault::OutOfMemory),
    }
}

/// The line of a data set goes to the report.
pub(crate) fn add_set(
    alloc: Global,
    report: &mut Report,
    named: Named,
    hash: BlocksHash,
) -> Result<(), AllocError>
    ensures lines { let f = shown named.entry.form.path.now named.entry.form.json named.entry.form.sets named.entry.form.members in
        OnOk result (report.new.lines.items ≡ report.old.lines.items ++ set_text f named.entry.name.now (encode_lower hash.digest) hash.is_whole) }
    ensures whole { report.new.is_whole ≡ (report.old.is_whole && hash.is_whole) }
{
    report.is_whole = report.is_whole && hash.is_whole;
    let digits = hex::encode(alloc, hash.digest)?;
    let hashed = Hashed {
        digits: digits.as_str(),
        is_whole: hash.is_whole,
    };
    match write_set(&mut report.lines, named.form, named.name, hashed) {
        Ok(()) => Ok(()),
        Err(_) => Err(AllocError),
    }
}

// The hash of a data set with members, and the lines of these that are asked for.
fn hash_library<V: SlotReader>(
    alloc: Global,
    volume: &mut V,
    named: Named,
) -> Result<LibraryHash, VolumeFault>
    ensures hash { let f = shown named.entry.form.path.now named.entry.form.json named.entry.form.sets named.entry.form.members in
        IfOk result (IsHashOfLibrary f named.entry.name.now named.entry.extents.now (V.volume volume.old)) }
    ensures fault { IfErr result (λ e. e ≢ VolumeFault.Write) }
    ensures volume { IsRead result (V.volume volume.old) (V.volume volume.new) (V.failures volume.old) (V.failures volume.new) }
{
    let members = match read_members(alloc, volume, named.extents) {
        Ok(members) => members,
        Err(fault) => return Err(fault),
    };
    let mut listed = none_listed(alloc);
    let entries = members.entries.as_slice();
    match add_members(alloc, volume, &mut listed, named, entries) {
        Ok(()) => Ok(library_of(listed, is_whole(&members))),
        Err(fault) => Err(fault),
    }
}

// No member: the word for them, and no line.
fn none_listed(alloc: Global) -> Listed
    ensures message { result.message ≡ codes "members" }
    ensures lines { result.report.lines.items ≡ [] }
    ensures whole { result.report.is_whole ≡ true }
{
    Listed {
        message: begun(b"members"),
        report: Report {
            lines: Vec::new(alloc),
            is_whole: true,
        },
    }
}

// The hash of these members, whose directory is whole or is not.
fn library_of(listed: Listed, is_whole: bool) -> LibraryHash
    ensures digest { result.hash.digest ≡ sha256 (listed.message ++ ending is_whole) }
    ensures whole { result.hash.is_whole ≡ (is_whole && listed.report.is_whole) }
    ensures lines { result.lines.items ≡ listed.report.lines.items }
{
    let Listed { message, report } = listed;
    let directory = ended(message, is_whole);
    LibraryHash {
        hash: BlocksHash {
            digest: directory.digest,
            is_whole: is_whole && report.is_whole,
        },
        lines: report.lines,
    }
}

// Whether a directory is whole.
fn is_whole(members: &Members) -> bool
    ensures { result ≡ is_whole_of members.now }
{
    members.fault.is_none() && is_end_of_file(members.stop.cause)
}

// What these members say, and their lines.
fn add_members<V: SlotReader>(
    alloc: Global,
    volume: &mut V,
    listed: &mut Listed,
    named: Named,
    entries: &[DirectoryEntry],
) -> Result<(), VolumeFault>
    ensures members { let f = shown named.entry.form.path.now named.entry.form.json named.entry.form.sets named.entry.form.members in
        OnOk result (AddsMembers f named.entry.name.now named.entry.extents.now (V.volume volume.old) entries.now listed.old listed.new) }
    ensures fault { IfErr result (λ e. e ≢ VolumeFault.Write) }
    ensures volume { IsRead result (V.volume volume.old) (V.volume volume.new) (V.failures volume.old) (V.failures volume.new) }
{
    for entry in entries {
        if let Err(fault) = add_member(alloc, volume, listed, named, entry) {
            return Err(fault);
        }
    }
    Ok(())
}

// What a member says, and its line, if members are asked for.
fn add_member<V: SlotReader>(
    alloc: Global,
    volume: &mut V,
    listed: &mut Listed,
    named: Named,
    entry: &DirectoryEntry,
) -> Result<(), VolumeFault>
    ensures member { let f = shown named.entry.form.path.now named.entry.form.json named.entry.form.sets named.entry.form.members in
        OnOk result (AddsMember f named.entry.name.now named.entry.extents.now (V.volume volume.old) entry.now listed.old listed.new) }
    ensures fault { IfErr result (λ e. e ≢ VolumeFault.Write) }
    ensures volume { IsRead result (V.volume volume.old) (V.volume volume.new) (V.failures volume.old) (V.failures volume.new) }
{
    let hash = match hash_blocks(alloc, volume, named.extents, entry.address) {
        Ok(hash) => hash,
        Err(fault) => return Err(fault),
    };
    match list_member(alloc, listed, named, entry, hash) {
        Ok(()) => Ok(()),
        Err(_) => Err(VolumeFault::OutOfMemory),
    }
}

// A member of this hash: what it says, and its line, if members are asked for.
fn list_member(
    alloc: Global,
    listed: &mut Listed,
    named: Named,
    entry: &DirectoryEntry,
    hash: BlocksHash,
) -> Result<(), AllocError>
    ensures message { listed.new.message ≡ listed.old.message ++ entry.now.name ++ hash.digest }
    ensures lines { let f = shown named.entry.form.path.now named.entry.form.json named.entry.form.sets named.entry.form.members in
        OnOk result (listed.new.report.lines.items ≡ listed.old.report.lines.items ++ where_asked named.entry.form.members
        (member_text f named.entry.name.now (safe_name_of entry.now.name) (encode_lower hash.digest) hash.is_whole)) }
    ensures whole { listed.new.report.is_whole ≡ (listed.old.report.is_whole && hash.is_whole) }
{
    listed.message.add(&entry.name);
    listed.message.add(&hash.digest);
    listed.report.is_whole = listed.report.is_whole && hash.is_whole;
    if named.form.members {
        return add_line(alloc, &mut listed.report.lines, named, entry, hash);
    }
    Ok(())
}

// The line of a member goes behind these lines.
fn add_line(
    alloc: Global,
    lines: &mut Vec<u8>,
    named: Named,
    entry: &DirectoryEntry,
    hash: BlocksHash,
) -> Result<(), AllocError>
    ensures { let f = shown named.entry.form.path.now named.entry.form.json named.entry.form.sets named.entry.form.members in
        OnOk result (lines.new.items ≡ lines.old.items
        ++ member_text f named.entry.name.now (safe_name_of entry.now.name) (encode_lower hash.digest) hash.is_whole) }
{
    let member = safe_name(alloc, &entry.name)?;
    let digits = hex::encode(alloc, hash.digest)?;
    let hashed = Hashed {
        digits: digits.as_str(),
        is_whole: hash.is_whole,
    };
    match write_member(lines, named.form, named.name, member.as_str(), hashed) {
        Ok(()) => Ok(()),
        Err(_) => Err(AllocError),
    }
}

//! The entries of a library, each with its member and its notes.

ghost use Rattle.std.specs.Prelude.{◌≡◌, ◌≢◌, ◌<◌, ◌≤◌, ◌*◌, length, drop, IfOk, IfErr, OnOk};
ghost use Rattle.dasd_volumes.specs.Reading.{IsRead};
ghost use Rattle.library_contents.specs.Members.{AreRead};
ghost use Rattle.library_contents.specs.Entries.{of_volume, ReadsNoted, ReadsEntry, HasMember};

use crate::contents::{LibraryReadFault, ReadEntry};
use crate::directories::{PlacedEntry, user_data};
use crate::members::{Members, member_number};
use crate::notes::{NOTE, Noted, read_notes};
use dasd_volumes::{SlotReader, VolumeFault};
use std::alloc::{AllocError, Global};
use volume_labels::{DirectoryEntry, Extent};

/// The directory of a library with these extents, as the bytes of its blocks.
#[derive(Clone, Copy)]
pub(crate) struct Directory<'a> {
    pub(crate) extents: &'a [Extent],
    pub(crate) bytes: &'a [u8],
}

/// An entry, and its number in the directory.
#[derive(Clone, Copy)]
pub(crate) struct Numbered {
    pub(crate) placed: PlacedEntry,
    pub(crate) number: usize,
}

/// An entry, its number in the directory, and the number of its member.
#[derive(Clone, Copy)]
pub(crate) struct Joined {
    pub(crate) entry: DirectoryEntry,
    pub(crate) number: usize,
    pub(crate) member: usize,
}

// Bytes that are copied.
fn copied(alloc: Global, bytes: &[u8]) -> Result<Vec<u8>, AllocError>
    ensures { IfOk result (λ v. v.items ≡ bytes.now) }
{
    let mut copy = Vec::new(alloc);
    copy.extend_from_slice(bytes)?;
    Ok(copy)
}

// An entry with its notes and the user data behind them.
fn read_noted<V: SlotReader>(
    alloc: Global,
    volume: &mut V,
    joined: Joined,
    noted: Noted,
) -> Result<ReadEntry, LibraryReadFault>
    ensures entry { ReadsNoted noted.entry.extents.now (V.volume volume.old) joined noted.entry.user.now noted.entry.member.now result }
    ensures member { IfOk result (λ e. e.member ≡ joined.member) }
    ensures fault { IfErr result (λ e. e ≢ LibraryReadFault.Volume VolumeFault.Write) }
    ensures volume { IsRead (of_volume result) (V.volume volume.old) (V.volume volume.new) (V.failures volume.old) (V.failures volume.new) }
{
    let Joined {
        entry,
        number,
        member,
    } = joined;
    let behind = usize::from(entry.notes) * NOTE;
    if noted.user.len() < behind {
        return Err(LibraryReadFault::ShortUserData(number));
    }
    let notes = match read_notes(alloc, volume, noted, entry.notes) {
        Ok(Some(notes)) => notes,
        Ok(None) => return Err(LibraryReadFault::NoBlock(number)),
        Err(fault) => return Err(LibraryReadFault::Volume(fault)),
    };
    match copied(alloc, &noted.user[behind..]) {
        Ok(user_data) => Ok(ReadEntry {
            entry,
            member,
            notes,
            user_data,
        }),
        Err(_) => Err(LibraryReadFault::Volume(VolumeFault::OutOfMemory)),
    }
}

/// An entry, whose member is read if it was not.
pub(crate) fn read_entry<V: SlotReader>(
    alloc: Global,
    volume: &mut V,
    members: &mut Members,
    directory: Directory,
    numbered: Numbered,
) -> Result<ReadEntry, LibraryReadFault>
    requires read { AreRead directory.extents.now (V.volume volume.old) members.old }
    ensures entry { ReadsEntry (V.volume volume.old) directory.entry.extents.now directory.entry.bytes.now numbered result }
    ensures member { IfOk result (HasMember directory.entry.extents.now (V.volume volume.old) numbered.placed members.old members.new) }
    ensures fault { IfErr result (λ e. e ≢ LibraryReadFault.Volume VolumeFault.Write) }
    ensures volume { IsRead (of_volume result) (V.volume volume.old) (V.volume volume.new) (V.failures volume.old) (V.failures volume.new) }
{
    let Numbered { placed, number } = numbered;
    let entry = placed.entry;
    let member = match member_number(alloc, volume, members, directory.extents, entry.address) {
        Ok(Some(member)) => member,
        Ok(None) => return Err(LibraryReadFault::Member(number)),
        Err(fault) => return Err(LibraryReadFault::Volume(fault)),
    };
    let noted = Noted {
        extents: directory.extents,
        member: members.blocks[member].as_slice(),
        user: user_data(directory.bytes, placed),
    };
    let joined = Joined {
        entry,
        number,
        member,
    };
    read_noted(alloc, volume, joined, noted)
}

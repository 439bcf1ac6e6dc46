//! A library, read into memory.

ghost use Rattle.std.specs.Prelude.{◌≡◌, ◌≢◌, ◌++◌, ◌∷◌, [], IfOk, IfErr};
ghost use Rattle.dasd_volumes.specs.Reading.{IsRead};
ghost use Rattle.library_contents.specs.Entries.{of_volume};
ghost use Rattle.library_contents.specs.Libraries.{ReadsEntries, ReadsPlaced, ReadsLibrary};

use crate::blocks::read_whole;
use crate::contents::{LibraryContents, LibraryReadFault, ReadEntry};
use crate::directories::{PlacedEntry, placed_entries};
use crate::entries::{Directory, Numbered, read_entry};
use crate::members::Members;
use dasd_extract::directory_of;
use dasd_volumes::{SlotReader, VolumeFault};
use std::alloc::Global;
use volume_labels::Extent;

/// Reads a library into memory: the entries of its directory in their order, and each of its members once (IBM System/360 Operating
/// System, System Control Blocks, 'Partitioned Data Set Directory'). The blocks of defective tracks are read from their alternates.
///
/// # Errors
///
/// The first that is met: the directory is not whole; and then of each entry, in their order, its member is not whole, its user data
/// are too short for the addresses that they begin with, or one of these leads to no block of the member. Or a read of the volume
/// failed, or there is no memory. The volume stays.
pub fn read_library<V: SlotReader>(
    alloc: Global,
    volume: &mut V,
    extents: &[Extent],
) -> Result<LibraryContents, LibraryReadFault>
    ensures library { ReadsLibrary extents.now (V.volume volume.old) result }
    ensures fault { IfErr result (λ e. e ≢ LibraryReadFault.Volume VolumeFault.Write) }
    ensures volume { IsRead (of_volume result) (V.volume volume.old) (V.volume volume.new) (V.failures volume.old) (V.failures volume.new) }
{
    match read_whole(alloc, volume, directory_of(extents)) {
        Ok(Some(bytes)) => {
            let directory = Directory {
                extents,
                bytes: bytes.as_slice(),
            };
            read_directory(alloc, volume, directory)
        }
        Ok(None) => Err(LibraryReadFault::Directory),
        Err(fault) => Err(LibraryReadFault::Volume(fault)),
    }
}

// The library of a directory, which may be wrong.
fn read_directory<V: SlotReader>(
    alloc: Global,
    volume: &mut V,
    directory: Directory,
) -> Result<LibraryContents, LibraryReadFault>
    ensures library { ReadsPlaced directory.entry.extents.now (V.volume volume.old) directory.entry.bytes.now result }
    ensures fault { IfErr result (λ e. e ≢ LibraryReadFault.Volume VolumeFault.Write) }
    ensures volume { IsRead (of_volume result) (V.volume volume.old) (V.volume volume.new) (V.failures volume.old) (V.failures volume.new) }
{
    match placed_entries(alloc, directory.bytes) {
        Ok(Some(placed)) => read_entries(alloc, volume, directory, placed.as_slice()),
        Ok(None) => Err(LibraryReadFault::Directory),
        Err(_) => Err(LibraryReadFault::Volume(VolumeFault::OutOfMemory)),
    }
}

// The library of these entries.
fn read_entries<V: SlotReader>(
    alloc: Global,
    volume: &mut V,
    directory: Directory,
    placed: &[PlacedEntry],
) -> Result<LibraryContents, LibraryReadFault>
    ensures library { ReadsEntries directory.entry.extents.now (V.volume volume.old) directory.entry.bytes.now placed.now result }
    ensures fault { IfErr result (λ e. e ≢ LibraryReadFault.Volume VolumeFault.Write) }
    ensures volume { IsRead (of_volume result) (V.volume volume.old) (V.volume volume.new) (V.failures volume.old) (V.failures volume.new) }
{
    let mut entries = Vec::new(alloc);
    let mut members = Members {
        starts: Vec::new(alloc),
        blocks: Vec::new(alloc),
    };
    for number in 0..placed.len() {
        let numbered = Numbered {
            placed: placed[number],
            number: number + 1,
        };
        let entry = match read_entry(alloc, volume, &mut members, directory, numbered) {
            Ok(entry) => entry,
            Err(fault) => return Err(fault),
        };
        if let Err(fault) = push(&mut entries, entry) {
            return Err(LibraryReadFault::Volume(fault));
        }
    }
    let Members { starts: _, blocks } = members;
    Ok(LibraryContents {
        entries,
        members: blocks,
    })
}

// One entry more.
fn push(entries: &mut Vec<ReadEntry>, entry: ReadEntry) -> Result<(), VolumeFault>
    ensures entries { IfOk result (λ _. entries.new.items ≡ entries.old.items ++ entry ∷ []) }
    ensures fault { IfErr result (λ e. e ≡ VolumeFault.OutOfMemory) }
{
    match entries.push(entry) {
        Ok(()) => Ok(()),
        Err(_) => Err(VolumeFault::OutOfMemory),
    }
}

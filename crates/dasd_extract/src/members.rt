//! The members of a partitioned data set.

ghost use Rattle.std.specs.Prelude.{◌≡◌, ◌≢◌, find, bytes_eq, IfOk, IfErr};
ghost use Rattle.dasd_volumes.specs.Reading.{IsRead};
ghost use Rattle.dasd_extract.specs.Members.{MembersOf};

use crate::blocks::ExtractedForm;
use crate::stops::Stop;
use crate::walks::{Source, extract};
use counted_io::Counted;
use dasd_volumes::{SlotReader, VolumeFault};
use std::alloc::Global;
use volume_labels::{
    Directory, DirectoryEntry, DirectoryFault, Extent, RelativeAddress, read_directory,
};

/// How many tracks of a directory are read at most: some 4 MiB on a 2314.
const DIRECTORY_TRACKS: u16 = 512;

/// The members of a partitioned data set, and what is wrong behind them.
#[derive(Drop)]
pub struct Members {
    /// Their entries, in order.
    pub entries: Vec<DirectoryEntry>,
    /// What is wrong behind the last of them.
    pub fault: Option<DirectoryFault>,
    /// Where the blocks of the directory end, and why.
    pub stop: Stop,
}

/// The directory of a partitioned data set with these extents: it begins with the first block.
pub fn directory_of<'a>(extents: &'a [Extent]) -> Source<'a>
    ensures extents { result.extents.now ≡ extents.now }
    ensures start { result.start ≡ record { track = 0; number = 0 } }
    ensures tracks { result.tracks ≡ 512 }
    ensures form { result.form ≡ ExtractedForm.Directory }
{
    Source {
        extents,
        start: RelativeAddress {
            track: 0,
            number: 0,
        },
        tracks: DIRECTORY_TRACKS,
        form: ExtractedForm::Directory,
    }
}

/// The blocks of a member in a data set with these extents.
pub fn member_of<'a>(
    extents: &'a [Extent],
    entry: DirectoryEntry,
    form: ExtractedForm,
) -> Source<'a>
    ensures extents { result.extents.now ≡ extents.now }
    ensures start { result.start ≡ entry.address }
    ensures tracks { result.tracks ≡ 65535 }
    ensures form { result.form ≡ form }
{
    Source {
        extents,
        start: entry.address,
        tracks: u16::MAX,
        form,
    }
}

/// The members of a partitioned data set, by its directory (IBM System/360 Operating System, System Control Blocks, 'Partitioned
/// Data Set Directory'). The directory is in memory as a whole.
///
/// # Errors
///
/// There is no memory for a slot, for the directory or for the entries; or a read fails.
pub fn read_members<V: SlotReader>(
    alloc: Global,
    volume: &mut V,
    extents: &[Extent],
) -> Result<Members, VolumeFault>
    ensures members { IfOk result (MembersOf extents.now (V.volume volume.old)) }
    ensures fault { IfErr result (λ e. e ≢ VolumeFault.Write) }
    ensures volume { IsRead result (V.volume volume.old) (V.volume volume.new) (V.failures volume.old) (V.failures volume.new) }
{
    let mut blocks = Counted::new(Vec::new(alloc));
    let stop = match extract(alloc, volume, &mut blocks, directory_of(extents)) {
        Ok(stop) => stop,
        Err(VolumeFault::Store) => return Err(VolumeFault::Store),
        Err(_) => return Err(VolumeFault::OutOfMemory),
    };
    let blocks = blocks.into_inner();
    match read_directory(alloc, blocks.as_slice()) {
        Ok(Directory { entries, fault }) => Ok(Members {
            entries,
            fault,
            stop,
        }),
        Err(_) => Err(VolumeFault::OutOfMemory),
    }
}

/// The first of these entries that has a name.
pub fn find_member(entries: &[DirectoryEntry], name: [u8; 8]) -> Option<DirectoryEntry>
    ensures { result ≡ find (λ e. bytes_eq e.name name) entries.now }
{
    entries.iter().copied().find(
        |entry: &DirectoryEntry| -> bool
            ensures { result ≡ bytes_eq entry.now.name name }
        { entry.name == name },
    )
}

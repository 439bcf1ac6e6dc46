//! What is read of a library, and why none is read.

use dasd_volumes::VolumeFault;
use thiserror::Error;
use volume_labels::DirectoryEntry;

/// A library, as it is read.
#[derive(Drop)]
pub struct LibraryContents {
    /// The entries of its directory, in order.
    pub entries: Vec<ReadEntry>,
    /// Its members, each once, in the order in which the directory first names them. A member is its blocks up to its end of file, each
    /// with its lengths and its key, as the reader's form `Keyed` of `dasd_extract` writes it.
    pub members: Vec<Vec<u8>>,
}

/// An entry of a directory, with what its user data say.
#[derive(Drop)]
pub struct ReadEntry {
    /// The entry as it stands, with the address that its member had.
    pub entry: DirectoryEntry,
    /// The number of its member, from 0 on; entries with one address have one member.
    pub member: usize,
    /// The addresses with which its user data begin.
    pub notes: Vec<ReadNote>,
    /// The user data behind these.
    pub user_data: Vec<u8>,
}

/// An address in the user data of an entry, by the block that it leads to.
#[derive(Clone, Copy)]
pub struct ReadNote {
    /// The number of the block in its member, from 0 on.
    pub block: usize,
    /// The byte behind the address: how many addresses that block says itself, if it is a note list.
    pub count: u8,
}

/// Why a library is not read. Entries have their numbers in the directory, from 1 on.
#[derive(Clone, Copy, Debug, PartialEq, Eq, Error)]
pub enum LibraryReadFault {
    /// The volume can't be read, or memory was refused.
    #[error("{0}")]
    Volume(VolumeFault),
    /// The blocks of the directory end before an end of file, or can't be told apart as entries.
    #[error("the directory is not whole")]
    Directory,
    /// The blocks of the member of this entry end before an end of file.
    #[error("the member of entry {0} is not whole")]
    Member(usize),
    /// The user data of this entry are shorter than the addresses that it says they begin with.
    #[error("the user data of entry {0} are too short")]
    ShortUserData(usize),
    /// An address in the user data of this entry leads to no block of its member.
    #[error("entry {0} has an address of no block")]
    NoBlock(usize),
}

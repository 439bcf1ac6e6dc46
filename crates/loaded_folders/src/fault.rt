//! Why the data sets of a folder were not put onto a volume.

use changed_volumes::ChangeFault;
use dasd_jobs::JobFault;
use loaded_sets::LoadRefusal;
use set_forms::FormLineFault;
use thiserror::Error;

/// Why an entry of a directory leads nowhere.
#[derive(Clone, Copy, Debug, PartialEq, Eq, Error)]
pub enum FolderEntryFault {
    /// It is another name of a member that its data set has not.
    #[error("no such member")]
    NoMember,
    /// A note of it leads to no block by its number.
    #[error("a note leads to no block")]
    NoBlock,
    /// A note of it leads to a note list, whose addresses would be wrong on the volume.
    #[error("a note leads to a note list, whose addresses would be wrong")]
    NoteList,
}

/// Why a folder does not carry a data set: its files and its line do not have all that the data set was.
#[derive(Clone, Copy, Debug, PartialEq, Eq, Error)]
pub enum Uncarried {
    /// It is a direct data set: its blocks are found by their places.
    #[error("a direct data set, whose blocks are found by places that the folder does not have")]
    Direct,
    /// It is an indexed sequential data set.
    #[error("an indexed sequential data set, whose indexes the folder does not have")]
    Indexed,
    /// It is the part of this number of a data set on several volumes.
    #[error("part {0} of a data set on several volumes")]
    Part(u16),
    /// It shares cylinders with others.
    #[error("a data set that shares cylinders with others, which the folder does not say")]
    Shared,
    /// It has user labels.
    #[error("a data set with user labels, which the folder does not have")]
    UserLabels,
}

/// Why a volume does not get the data sets of a folder. It stays as it was.
#[derive(Debug, Drop, Error)]
pub enum FolderRefusal {
    /// The text of the folder has more bytes than it may.
    #[error("data_sets.txt: more than 16 MiB")]
    TooLong,
    /// The line of this number of the text, from 1 on, is wrong.
    #[error("data_sets.txt: line {0}: {1}")]
    Line(usize, FormLineFault),
    /// The file of this name can't be read from the folder.
    #[error("{0}: read fault")]
    NoFile(String),
    /// An entry of a directory, by the name of its file, leads nowhere.
    #[error("{0}: {1}")]
    Entry(String, FolderEntryFault),
    /// The folder does not carry a data set, by the name of its file.
    #[error("{0}: {1}")]
    Uncarried(String, Uncarried),
    /// The volume does not get a data set, by the name of its file.
    #[error("{0}: {1}")]
    Load(String, LoadRefusal),
}

/// Why the data sets of a folder were not put onto a volume in files, or not told to be.
pub type FolderFault = ChangeFault<FolderRefusal>;

/// No memory.
pub(crate) const NO_MEMORY: FolderFault = FolderFault::Job(JobFault::OutOfMemory);

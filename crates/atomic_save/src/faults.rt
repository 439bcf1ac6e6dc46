//! Why a save did not come to its end.

use thiserror::Error;

/// Why a call of the host did nothing, or not all.
#[derive(Clone, Copy, Debug, PartialEq, Eq, Error)]
pub enum HostFault {
    /// There is no memory for it.
    #[error("out of memory")]
    OutOfMemory,
    /// The system refused it.
    #[error("refused by the system")]
    Refused,
}

/// Why a save did not come to its end, and what the files are then.
#[derive(Clone, Copy, Debug, PartialEq, Eq, Error)]
pub enum SaveFault {
    /// The journal is of another file than the one with this number: nothing was done.
    #[error("a journal of another file")]
    Other(usize),
    /// The change with this number lies within no file: nothing was done.
    #[error("a change outside its file")]
    Outside(usize),
    /// The files are as they were.
    #[error("not saved: {0}")]
    Kept(HostFault),
    /// The journal may be there: `finish` is to be called before another save.
    #[error("saved in part: {0}")]
    Begun(HostFault),
    /// The files have all changes for good. The journal may be there, and changes nothing.
    #[error("saved, but its journal may be there: {0}")]
    Saved(HostFault),
}

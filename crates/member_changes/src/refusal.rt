//! Why a member is not changed.

ghost use Rattle.std.specs.Prelude.{◌≡◌};

use record_tracks::LibraryFault;
use std::alloc::AllocError;
use thiserror::Error;

/// Why a member of a library is not changed as it was asked. The volume stays as it was.
#[derive(Clone, Copy, Debug, Error)]
pub enum MemberRefusal {
    /// The text is no name that a member may be given.
    #[error("not a name of a member")]
    NoName,
    /// The volume has no volume label.
    #[error("no volume label")]
    NoLabel,
    /// The volume has no volume table of contents.
    #[error("no volume table of contents")]
    NoContents,
    /// The volume has no data set of the name.
    #[error("no such data set")]
    NoDataSet,
    /// The data set of the name has no directory.
    #[error("not a partitioned data set")]
    NotPartitioned,
    /// Blocks of the directory are on the alternates of defective tracks.
    #[error("the directory is on alternate tracks")]
    OnAlternates,
    /// The blocks of the directory end before an end of file, or can't be told apart as entries.
    #[error("the directory is not whole")]
    NotWhole,
    /// No entry of the directory has the name.
    #[error("no such member")]
    NoMember,
    /// An entry of the directory has the new name.
    #[error("a member has the new name")]
    NameTaken,
    /// Its blocks can't have the entries that are left, or have no room for them.
    #[error(transparent)]
    Directory(LibraryFault),
    /// Read again, the changed directory does not say what it should.
    #[error("the changed directory does not say what it should")]
    Unconfirmed,
}

/// Why nothing is planned.
#[derive(Clone, Copy)]
pub enum PlanFault {
    /// The member is not changed.
    Refused(MemberRefusal),
    /// There is no memory.
    OutOfMemory,
}

impl From<AllocError> for PlanFault {
    ghost use Rattle.std.specs.Prelude.{◌≡◌};
    ghost use Rattle.member_changes.specs.declared.refusal.PlanFault.TheVariants.{OutOfMemory};

    ghost from_gives = { λ _ e. e ≡ OutOfMemory };

    fn from(_fault: AllocError) -> PlanFault {
        PlanFault::OutOfMemory
    }
}

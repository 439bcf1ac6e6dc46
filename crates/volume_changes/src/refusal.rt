//! Why a volume is not changed.

use thiserror::Error;

/// Why a volume is not changed as it was asked. It stays as it was.
#[derive(Clone, Copy, Debug, PartialEq, Eq, Error)]
pub enum ChangeRefusal {
    /// The text is no name that a data set may be given.
    #[error("not a name of a data set")]
    NoName,
    /// The volume has no volume label.
    #[error("no volume label")]
    NoLabel,
    /// The volume has no table of contents.
    #[error("no volume table of contents")]
    NoContents,
    /// The volume has no data set of this name.
    #[error("no such data set")]
    NoDataSet,
    /// A data set of the volume has the new name.
    #[error("a data set has the new name")]
    NameTaken,
    /// Something is wrong with the volume's table of contents, its data sets or its free tracks.
    #[error("the volume has findings")]
    Findings,
    /// Its control blocks have no room for the runs of its free tracks.
    #[error("no room for its free tracks")]
    NoRoom,
    /// Read again, the changed volume does not say what it should.
    #[error("the changed volume does not say what it should")]
    Unconfirmed,
}

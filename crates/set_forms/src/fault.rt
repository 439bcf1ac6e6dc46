//! Why a text is none of data sets.

use thiserror::Error;

/// What is wrong with a line.
#[derive(Clone, Copy, Debug, PartialEq, Eq, Error)]
pub enum FormLineFault {
    /// Its first words say none of the three things that a line may be of.
    #[error("a line begins with `data set`, `member` or `alias`, or is a comment after #")]
    Kind,
    /// It has too few words, or too many.
    #[error("too few words or too many")]
    Words,
    /// The name of a data set or of a member is none.
    #[error("a name has capital letters, digits and .-_@#$, and any other byte in EBCDIC as %40; it is one of 44 bytes at most, and of a member of 8")]
    Name,
    /// The organisation of a data set is none.
    #[error("an organisation is PS, PO, DA, IS, or X'4100' with its bits")]
    Organisation,
    /// The record format of a data set is none.
    #[error("a record format is F, V or U followed by letters of BSTAM, or X'91' with its bits")]
    Format,
    /// The length of its records is none.
    #[error("a record length is a number to 65535")]
    RecordLength,
    /// The length of its blocks is none.
    #[error("a block length is a number to 65535")]
    BlockLength,
    /// The length of its keys is none.
    #[error("a key length is a number to 255")]
    KeyLength,
    /// The day when it was made, or when it may be scratched, is none.
    #[error("a day is a year from 1900 to 2155 and its day, as 1974-365, or a hyphen for none")]
    Day,
    /// A partitioned data set has no number of directory blocks, or another one has.
    #[error("a partitioned data set, and no other, has at its end `directory` and the number of its blocks, to 65535")]
    Directory,
    /// The volume and the extents of a data set are not both there, or a value of them is none.
    #[error("at its end a data set may have `volume`, its number to 65535, `extents`, and the types of these, as X'80'")]
    Details,
    /// A note is none, or stands where none may.
    #[error("at most three notes come before the user data: a number of a block and a byte, as 5/00, or an address and a byte, as @000102/00")]
    Note,
    /// User data are none, or too long.
    #[error("user data are one word of pairs of hexadecimal digits, an even number of bytes, and with four for each note at most 62")]
    UserData,
    /// An entry stands behind no data set that has a directory.
    #[error("a member or an alias comes after its data set, which has a directory")]
    NoDirectory,
}

/// Why a text is none of data sets.
#[derive(Clone, Copy, Debug, PartialEq, Eq, Error)]
pub enum TextFault {
    /// There is no memory for it.
    #[error("out of memory")]
    OutOfMemory,
    /// What is wrong with the line of this number, the first being 1.
    #[error("line {0}: {1}")]
    Line(usize, FormLineFault),
}

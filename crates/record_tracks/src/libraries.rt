//! What a library has.

use crate::NewRecord;

/// A member of a library.
#[derive(Clone, Copy)]
pub struct NewMember<'a> {
    /// Its blocks, in their order. One without data would be read as its end.
    pub records: &'a [NewRecord<'a>],
}

/// An address within a member, with which the user data of an entry begins.
#[derive(Clone, Copy)]
pub struct MemberNote {
    /// The block that it leads to, by its number in the member, from 0 on.
    pub block: usize,
    /// The byte behind it: how many addresses that block has itself, where it is a list of them.
    pub count: u8,
}

/// An entry of a directory: a member's name, or another name of one.
#[derive(Clone, Copy)]
pub struct MemberEntry<'a> {
    /// The name, in EBCDIC, with blanks behind it.
    pub name: [u8; 8],
    /// The member, by its number in the library, from 0 on.
    pub member: usize,
    /// Whether it is another name of a member that has an entry of its own.
    pub is_alias: bool,
    /// The addresses with which its user data begins: at most three, of four bytes each.
    pub notes: &'a [MemberNote],
    /// What else the directory keeps of the member, behind these: a whole number of halfwords. Both together are at most 62 bytes.
    pub user_data: &'a [u8],
}

/// A library: a partitioned data set.
#[derive(Clone, Copy)]
pub struct NewLibrary<'a> {
    /// How many blocks its directory has.
    pub directory_blocks: usize,
    /// The entries of its directory, in the order of their names.
    pub entries: &'a [MemberEntry<'a>],
    /// Its members, in the order in which they stand on its tracks.
    pub members: &'a [NewMember<'a>],
}

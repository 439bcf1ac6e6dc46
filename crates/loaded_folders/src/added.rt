//! What is put into a library, and what the library was before.

use library_contents::LibraryContents;
use loaded_sets::{KeptLabel, NewSetForm, SourceForm};

/// A member that is put into a library.
#[derive(Clone, Copy)]
pub struct AddedMember<'a> {
    /// The name of the library, in EBCDIC, with blanks behind it.
    pub library: [u8; 44],
    /// The name of the member, likewise.
    pub name: [u8; 8],
    /// What its bytes are.
    pub source: SourceForm,
    /// The bytes of its file.
    pub bytes: &'a [u8],
}

/// A library as it stood.
#[derive(Drop)]
pub struct OldLibrary {
    /// What its label said.
    pub form: NewSetForm,
    /// How many tracks it had, and what else its label said.
    pub kept: KeptLabel,
    /// How many blocks its directory had.
    pub directory_blocks: usize,
    /// The entries of its directory, and its members.
    pub contents: LibraryContents,
}

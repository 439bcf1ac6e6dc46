//! What is put onto a volume as a library.

ghost use Rattle.std.specs.Prelude.{◌≡◌};
ghost use Rattle.record_tracks.specs.BlockFaults.{IsCutFor};
ghost use Rattle.loaded_sets.specs.Members.{cut_in};

use crate::{KeptLabel, NewSetForm, SetLabel, SourceForm};
use record_tracks::{Cut, MemberEntry, NewLibrary, cut_of};
use volume_labels::Layout;

/// A library that is put onto a volume: a partitioned data set.
#[derive(Clone, Copy)]
pub struct LoadedLibrary<'a> {
    /// Its name, in EBCDIC, with blanks behind it.
    pub name: [u8; 44],
    /// What its label is to say.
    pub form: NewSetForm,
    /// What it keeps.
    pub kept: KeptLabel,
    /// What the bytes of its members' files are.
    pub source: SourceForm,
    /// How many blocks its directory has.
    pub directory_blocks: usize,
    /// The entries of its directory, in the order of their names.
    pub entries: &'a [MemberEntry<'a>],
    /// The bytes of its members' files, in the order in which the members stand on its tracks.
    pub members: &'a [&'a [u8]],
}

/// The blocks of a library's members, and how its records lie in them.
#[derive(Clone, Copy)]
pub(crate) struct MemberBlocks<'a, 'b> {
    /// How its records lie in its blocks.
    pub(crate) layout: Layout,
    /// How the bytes of a member are cut into blocks.
    pub(crate) cut: Cut,
    /// The bytes of each member.
    pub(crate) members: &'a [&'b [u8]],
}

/// A library with its records, and what its label says of it.
#[derive(Clone, Copy)]
pub(crate) struct NamedLibrary<'a> {
    /// Its name.
    pub(crate) name: [u8; 44],
    /// What its label says.
    pub(crate) label: SetLabel,
    /// Its directory and its members.
    pub(crate) library: NewLibrary<'a>,
}

/// How the blocks of members are told apart in their files.
pub(crate) fn cut_in(source: SourceForm, layout: Layout) -> Cut
    ensures cut { result ≡ cut_in source layout }
    ensures fit { IsCutFor layout result }
{
    match source {
        SourceForm::WithLengths => Cut::WithLengths,
        SourceForm::Blocks | SourceForm::Text => cut_of(layout),
    }
}

//! Why a library has no directory.

ghost use Rattle.std.specs.Prelude.{◌≡◌, nat_le, IfNone, All};
ghost use Rattle.std.specs.List.{position};
ghost use Rattle.record_tracks.specs.LibraryFaults.{lacks_member, lacks_block, leading_fault};
ghost use Rattle.record_tracks.specs.Placed.{Leads};

use crate::EntryFault;
use crate::addresses::block_count;
use crate::libraries::{MemberEntry, MemberNote, NewLibrary};
use std::alloc::AllocError;
use thiserror::Error;

/// Why a library has no directory.
#[derive(Clone, Copy, Debug, PartialEq, Eq, Error)]
pub enum LibraryFault {
    /// The entry of this number, from 1 on, is for a member that the library has not.
    #[error("entry {0} has no member")]
    NoMember(usize),
    /// An address in the user data of the entry of this number, from 1 on, leads to no block of its member.
    #[error("entry {0} has an address of no block")]
    NoBlock(usize),
    /// The library takes more than the 65,536 tracks that addresses can say.
    #[error("the library takes more than 65,536 tracks")]
    TooManyTracks,
    /// A directory can't have the entry of this number, from 1 on.
    #[error("entry {0}: {1}")]
    Entry(usize, EntryFault),
    /// The entries take this many blocks, and the directory has fewer.
    #[error("the directory takes {0} blocks")]
    FewBlocks(usize),
    /// Memory was refused.
    #[error("out of memory")]
    OutOfMemory,
}

impl From<AllocError> for LibraryFault {
    ghost use Rattle.std.specs.Prelude.{◌≡◌};
    ghost use Rattle.record_tracks.specs.declared.library_faults.LibraryFault.TheVariants.{OutOfMemory};

    ghost from_gives = { λ _ e. e ≡ OutOfMemory };

    fn from(_fault: AllocError) -> LibraryFault {
        LibraryFault::OutOfMemory
    }
}

// The first entry for a member that the library has not.
fn without_member(library: &NewLibrary) -> Option<usize>
    ensures { result ≡ position (lacks_member library.now) library.now.entries.now }
{
    let members = library.members.len();
    library.entries.iter().position(
        |entry: &MemberEntry| -> bool
            ensures { result ≡ nat_le members entry.now.member }
        { entry.member >= members },
    )
}

// Whether a note of an entry leads to no block of its member.
fn lacks_block(library: &NewLibrary, entry: &MemberEntry) -> bool
    ensures { result ≡ lacks_block library.now entry.now }
{
    let blocks = block_count(library.members, entry.member);
    entry.notes.iter().any(
        |note: &MemberNote| -> bool
            ensures { result ≡ nat_le blocks note.now.block }
        { note.block >= blocks },
    )
}

// The first entry with a note that leads to no block of its member.
fn without_block(library: &NewLibrary) -> Option<usize>
    ensures { result ≡ position (lacks_block library.now) library.now.entries.now }
{
    library.entries.iter().position(
        |entry: &MemberEntry| -> bool
            ensures { result ≡ lacks_block library.entry.now entry.now }
        { lacks_block(library, entry) },
    )
}

/// The first entry without a member; and if each has one, the first with a note that leads to no block of its member.
pub(crate) fn leading_fault(library: &NewLibrary) -> Option<LibraryFault>
    ensures fault { result ≡ leading_fault library.now }
    ensures lead { IfNone result (All (Leads library.now) library.now.entries.now) }
{
    if let Some(number) = without_member(library) {
        return Some(LibraryFault::NoMember(number + 1));
    }
    if let Some(number) = without_block(library) {
        return Some(LibraryFault::NoBlock(number + 1));
    }
    None
}

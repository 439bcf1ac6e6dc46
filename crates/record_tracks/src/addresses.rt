//! Where the blocks of a library's members stand.

ghost use Rattle.std.specs.Prelude.{◌≡◌, ◌≤◌, ◌<◌, ◌+◌, length, drop};
ghost use Rattle.record_tracks.specs.Library.{members_areas, blocks_of_member};
ghost use Rattle.record_tracks.specs.MemberEntries.{block_address};
ghost use Rattle.record_tracks.specs.LibraryFaults.{length_fault};
ghost use Rattle.record_tracks.specs.Placed.{AreRecords, ArePlaced};

use crate::libraries::{NewLibrary, NewMember};
use crate::library_faults::LibraryFault;
use crate::{NewRecord, RecordPlace, place_of};
use ckd_track::DriveModel;
use volume_labels::RelativeAddress;

/// How many tracks an address can say.
const TRACKS: usize = 65536;

/// The records of a library, whose directory is not known yet, and the drive on whose tracks they go.
#[derive(Clone, Copy)]
pub(crate) struct Placed<'a, 'r, 'l> {
    pub(crate) model: DriveModel,
    /// All records: those of a directory of zeros, and those of the members.
    pub(crate) records: &'a [NewRecord<'r>],
    pub(crate) library: &'a NewLibrary<'l>,
}

/// How many blocks the member of a number has: none, where there is no such member.
pub(crate) fn block_count(members: &[NewMember], member: usize) -> usize
    ensures { result ≡ length (blocks_of_member members.now member) }
{
    match members.get(member) {
        Some(member) => member.records.len(),
        None => 0,
    }
}

/// Whether the last record stands on a track that an address can't say.
pub(crate) fn length_fault(placed: Placed) -> Option<LibraryFault>
    requires { AreRecords placed }
    ensures { result ≡ length_fault placed.entry.model placed.entry.library.now }
{
    let last = place_of(placed.model, placed.records, placed.records.len() - 1);
    if last.track >= TRACKS {
        return Some(LibraryFault::TooManyTracks);
    }
    None
}

// The number of a member's block among so many records, of which this member and those behind it are the last.
fn number_of(records: usize, members: &[NewMember], member: usize, block: usize) -> usize
    requires records { length (members_areas (drop member members.now)) ≤ records }
    requires member { member < length members.now }
    requires block { block ≤ length (blocks_of_member members.now member) }
    ensures { result + length (members_areas (drop member members.now)) ≡ records + block }
{
    let mut first = records;
    for k in member..members.len() {
        first -= members[k].records.len();
        first -= 1;
    }
    first + block
}

/// The address of a block of a member, by its number from 0 on; that of its end of file, by the number of its blocks.
pub(crate) fn block_address(placed: Placed, member: usize, block: usize) -> RelativeAddress
    requires placed { ArePlaced placed }
    requires member { member < length placed.library.now.members.now }
    requires block { block ≤ length (blocks_of_member placed.library.now.members.now member) }
    ensures { result ≡ block_address placed.entry.model placed.entry.library.now member block }
{
    let records = placed.records;
    let number = number_of(records.len(), placed.library.members, member, block);
    let RecordPlace { track, number } = place_of(placed.model, records, number);
    RelativeAddress {
        track: track as u16,
        number,
    }
}

//! The members of a library, each read once.

ghost use Rattle.std.specs.Prelude.{◌≡◌, ◌≢◌, ◌++◌, ◌∷◌, [], Some, IfOk, IfErr};
ghost use Rattle.std.specs.List.{position};
ghost use Rattle.dasd_volumes.specs.Reading.{IsRead};
ghost use Rattle.library_contents.specs.Members.{same_address, WholeFrom, AreRead, AddsMember, IsNumbered};

use crate::blocks::read_whole;
use dasd_extract::{ExtractedForm, Source};
use dasd_volumes::{SlotReader, VolumeFault};
use std::alloc::{AllocError, Global};
use volume_labels::{Extent, RelativeAddress};

/// How many tracks of a member are read at most; no data set has more.
const MOST_TRACKS: u16 = u16::MAX;

/// The members that were read, by the addresses of their first blocks.
#[derive(Drop)]
pub(crate) struct Members {
    pub(crate) starts: Vec<RelativeAddress>,
    pub(crate) blocks: Vec<Vec<u8>>,
}

/// The blocks of a library from an address on, with their lengths and keys, if an end of file ends them.
pub(crate) fn read_from<V: SlotReader>(
    alloc: Global,
    volume: &mut V,
    extents: &[Extent],
    start: RelativeAddress,
) -> Result<Option<Vec<u8>>, VolumeFault>
    ensures blocks { IfOk result (WholeFrom extents.now start (V.volume volume.old)) }
    ensures fault { IfErr result (λ e. e ≢ VolumeFault.Write) }
    ensures volume { IsRead result (V.volume volume.old) (V.volume volume.new) (V.failures volume.old) (V.failures volume.new) }
{
    let source = Source {
        extents,
        start,
        tracks: MOST_TRACKS,
        form: ExtractedForm::Keyed,
    };
    read_whole(alloc, volume, source)
}

// Whether two addresses are one.
fn same_address(address: RelativeAddress, other: RelativeAddress) -> bool
    ensures { result ≡ same_address address other }
{
    address.track == other.track && address.number == other.number
}

// Which of these addresses is this one.
fn find_start(starts: &[RelativeAddress], start: RelativeAddress) -> Option<usize>
    ensures { result ≡ position (same_address start) starts.now }
{
    starts.iter().position(
        |other: &RelativeAddress| -> bool
            ensures { result ≡ same_address start other.now }
        { same_address(start, *other) },
    )
}

// One member more.
fn push(members: &mut Members, start: RelativeAddress, blocks: Vec<u8>) -> Result<(), AllocError>
    ensures { IfOk result (λ _. AddsMember members.old members.new start blocks) }
{
    if members.starts.push(start).is_err() {
        return Err(AllocError);
    }
    match members.blocks.push(blocks) {
        Ok(()) => Ok(()),
        Err(_) => Err(AllocError),
    }
}

/// The number of the member that begins at an address, which is read if it was not; none, if no end of file ends it.
pub(crate) fn member_number<V: SlotReader>(
    alloc: Global,
    volume: &mut V,
    members: &mut Members,
    extents: &[Extent],
    start: RelativeAddress,
) -> Result<Option<usize>, VolumeFault>
    requires read { AreRead extents.now (V.volume volume.old) members.old }
    ensures number { IfOk result (IsNumbered extents.now (V.volume volume.old) start members.old members.new) }
    ensures fault { IfErr result (λ e. e ≢ VolumeFault.Write) }
    ensures volume { IsRead result (V.volume volume.old) (V.volume volume.new) (V.failures volume.old) (V.failures volume.new) }
{
    let starts = members.starts.as_slice();
    if let Some(number) = find_start(starts, start) {
        return Ok(Some(number));
    }
    let number = starts.len();
    match read_from(alloc, volume, extents, start) {
        Ok(Some(blocks)) => match push(members, start, blocks) {
            Ok(()) => Ok(Some(number)),
            Err(_) => Err(VolumeFault::OutOfMemory),
        },
        Ok(None) => Ok(None),
        Err(fault) => Err(fault),
    }
}

//! The library of a name, and where its directory ends.

ghost use Rattle.std.specs.Prelude.{◌≡◌, Ok, Some, IfOk, IfErr};
ghost use Rattle.std.specs.List.{position};
ghost use Rattle.volume_contents.specs.Sets.{has_name};
ghost use Rattle.volume_changes.specs.Volumes.{said_in};
ghost use Rattle.member_changes.specs.Libraries.{library_at, library_of, last_track};
ghost use Rattle.member_changes.specs.Plans.{IsRefused};

use crate::refusal::{MemberRefusal, PlanFault};
use dasd_extract::{Cause, Stop};
use set_forms::is_partitioned;
use std::alloc::Global;
use volume_changes::find_set;
use volume_contents::{Block, Contents, DataSet, data_set_of};
use volume_labels::Extent;

// The extents of the library of a name, which is among these blocks.
fn extents_among(alloc: Global, blocks: &[Block], name: &[u8]) -> Result<Vec<Extent>, PlanFault>
    ensures extents { IfOk result (λ extents. library_at blocks.now (position (has_name name.now) blocks.now) ≡ Ok extents.items) }
    ensures refused { IfErr result (λ e. IsRefused e (library_at blocks.now (position (has_name name.now) blocks.now))) }
{
    let Some(i) = find_set(blocks, name) else {
        return Err(PlanFault::Refused(MemberRefusal::NoDataSet));
    };
    let DataSet {
        address: _,
        block,
        extents,
        fault: _,
    } = data_set_of(alloc, blocks, &blocks[i])?;
    if !is_partitioned(block.organisation) {
        return Err(PlanFault::Refused(MemberRefusal::NotPartitioned));
    }
    Ok(extents)
}

/// The extents of the library of a name on a volume that says this. The name is in EBCDIC, with blanks after it or without; of several data
/// sets of the name it is the first one in the order of the table of contents.
///
/// # Errors
///
/// The volume has no label, no table of contents or no data set of the name, or that is not partitioned. Or there is no memory.
pub fn library_extents(
    alloc: Global,
    contents: &Contents,
    name: &[u8],
) -> Result<Vec<Extent>, PlanFault>
    ensures extents { IfOk result (λ extents. library_of (said_in contents.now) name.now ≡ Ok extents.items) }
    ensures refused { IfErr result (λ e. IsRefused e (library_of (said_in contents.now) name.now)) }
{
    if contents.label.is_none() {
        return Err(PlanFault::Refused(MemberRefusal::NoLabel));
    }
    if contents.table.is_none() {
        return Err(PlanFault::Refused(MemberRefusal::NoContents));
    }
    extents_among(alloc, contents.found.blocks.as_slice(), name)
}

/// The last of the tracks with blocks of a directory that end so, counted from the library's first one, which is 0.
///
/// # Errors
///
/// No end of file ends the blocks, or some of them are on alternate tracks.
pub fn last_track(stop: Stop) -> Result<u32, MemberRefusal>
    ensures { result ≡ last_track (Some stop) }
{
    match stop.cause {
        Cause::EndOfFile => Ok(stop.track),
        Cause::EndBehindAlternates => Err(MemberRefusal::OnAlternates),
        _ => Err(MemberRefusal::NotWhole),
    }
}

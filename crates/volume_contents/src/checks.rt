//! What is wrong with data sets, their extents and free tracks.

ghost use Rattle.std.specs.Prelude.{◌≡◌, ◌++◌, length, OnOk, OnErr};
ghost use Rattle.ckd_track.specs.Geometry.{tracks_of};
ghost use Rattle.volume_contents.specs.Checks.{is_for_labels, is_number, found_at, chain_findings, number_findings, extent_findings, claimed_behind};
ghost use Rattle.volume_contents.specs.Checks.{block_findings, claimed_by_block, sets_findings, claimed_by_sets, free_claim_of, claimed_by_free, piece_findings};
ghost use Rattle.volume_contents.specs.Checks.{free_findings, findings_of, AddsFront};

use crate::blocks::{Block, add_finding};
use crate::chains::ChainFault;
use crate::claims::{claim, claim_extent};
use crate::findings::{Finding, Problem};
use crate::reading::Contents;
use crate::runs::Run;
use crate::sets::{DataSet, data_set_of, free_tracks, is_data_set};
use crate::tracks::number_of_free;
use ckd_track::Geometry;
use std::alloc::{AllocError, Global};
use volume_labels::{Extent, FreeTracks, RecordAddress};

/// The type of an extent for user labels, which a format 1 block may or may not count.
const USER_LABELS: u8 = 0x40;

/// A volume's geometry and its control blocks in use.
#[derive(Clone, Copy)]
struct Volume<'a> {
    geometry: Geometry,
    blocks: &'a [Block],
}

/// Adds what is wrong with the data sets of a volume of this geometry, in the order of their format 1 blocks: broken chains of control
/// blocks, extents that are not as many as they must be, that leave the volume, or that have tracks of earlier ones; and with
/// its free tracks. What was found before stays before it.
///
/// # Errors
///
/// There is no memory for a mark of each track, or for the findings: only the first of these may be added, and the rest of the contents
/// stays.
pub fn check_contents(
    alloc: Global,
    geometry: Geometry,
    contents: &mut Contents,
) -> Result<(), AllocError>
    ensures findings { OnOk result (contents.new.found.findings.items
        ≡ contents.old.found.findings.items ++ findings_of geometry contents.old.table contents.old.found.blocks.items) }
    ensures front { OnErr result (AddsFront contents.old.found.findings.items contents.new.found.findings.items
        (findings_of geometry contents.old.table contents.old.found.blocks.items)) }
    ensures label { contents.new.label ≡ contents.old.label }
    ensures table { contents.new.table ≡ contents.old.table }
    ensures blocks { contents.new.found.blocks ≡ contents.old.found.blocks }
{
    let Some(table) = contents.table else {
        return Ok(());
    };
    let mut marks = vec![in alloc; 0u8; geometry.tracks() as usize]?;
    let marks = marks.as_mut_slice();
    claim_extent(marks, geometry, table.extent);
    let blocks = contents.found.blocks.as_slice();
    let findings = &mut contents.found.findings;
    let volume = Volume { geometry, blocks };
    check_sets(alloc, findings, marks, volume)?;
    check_free(alloc, findings, marks, volume)
}

// Checks the data sets of these blocks.
fn check_sets(
    alloc: Global,
    findings: &mut Vec<Finding>,
    marks: &mut [u8],
    volume: Volume,
) -> Result<(), AllocError>
    requires { length marks.old ≡ tracks_of volume.geometry }
    ensures findings { OnOk result (findings.new.items
        ≡ findings.old.items ++ sets_findings volume.entry.geometry volume.entry.blocks.now marks.old volume.entry.blocks.now) }
    ensures front { OnErr result (AddsFront findings.old.items findings.new.items
        (sets_findings volume.entry.geometry volume.entry.blocks.now marks.old volume.entry.blocks.now)) }
    ensures marks { OnOk result (marks.new ≡ claimed_by_sets volume.entry.geometry volume.entry.blocks.now marks.old volume.entry.blocks.now) }
    ensures size { length marks.new ≡ length marks.old }
{
    for block in volume.blocks {
        check_block(alloc, findings, marks, volume, block)?;
    }
    Ok(())
}

// Checks the data set of a block, if it is one's.
fn check_block(
    alloc: Global,
    findings: &mut Vec<Finding>,
    marks: &mut [u8],
    volume: Volume,
    block: &Block,
) -> Result<(), AllocError>
    requires { length marks.old ≡ tracks_of volume.geometry }
    ensures findings { OnOk result (findings.new.items
        ≡ findings.old.items ++ block_findings volume.entry.geometry volume.entry.blocks.now marks.old block.now) }
    ensures front { OnErr result (AddsFront findings.old.items findings.new.items
        (block_findings volume.entry.geometry volume.entry.blocks.now marks.old block.now)) }
    ensures marks { OnOk result (marks.new ≡ claimed_by_block volume.entry.geometry volume.entry.blocks.now marks.old block.now) }
    ensures size { length marks.new ≡ length marks.old }
{
    if !is_data_set(block.kind) {
        return Ok(());
    }
    let set = data_set_of(alloc, volume.blocks, block)?;
    check_set(findings, marks, volume.geometry, &set)
}

// Checks a data set.
fn check_set(
    findings: &mut Vec<Finding>,
    marks: &mut [u8],
    geometry: Geometry,
    set: &DataSet,
) -> Result<(), AllocError>
    requires { length marks.old ≡ tracks_of geometry }
    ensures findings { OnOk result (findings.new.items ≡ findings.old.items
        ++ (chain_findings set.now.address set.now.fault
        ++ (number_findings set.now.address set.now.extents.items set.now.block.extents
        ++ extent_findings geometry set.now.address marks.old set.now.extents.items))) }
    ensures front { OnErr result (AddsFront findings.old.items findings.new.items
        (chain_findings set.now.address set.now.fault
        ++ (number_findings set.now.address set.now.extents.items set.now.block.extents
        ++ extent_findings geometry set.now.address marks.old set.now.extents.items))) }
    ensures marks { OnOk result (marks.new ≡ claimed_behind geometry marks.old set.now.extents.items) }
    ensures size { length marks.new ≡ length marks.old }
{
    let place = set.address;
    add_chain(findings, place, set.fault)?;
    let extents = set.extents.as_slice();
    add_number(findings, place, extents, set.block.extents)?;
    check_extents(findings, marks, geometry, place, extents)
}

// Adds why a chain is not followed further, if it is cut.
fn add_chain(
    findings: &mut Vec<Finding>,
    place: RecordAddress,
    fault: Option<ChainFault>,
) -> Result<(), AllocError>
    ensures added { OnOk result (findings.new.items ≡ findings.old.items ++ chain_findings place fault) }
    ensures kept { OnErr result (findings.new.items ≡ findings.old.items) }
{
    add_problem(findings, place, fault.map(Problem::Chain))
}

// Adds a problem, if there is one.
fn add_problem(
    findings: &mut Vec<Finding>,
    place: RecordAddress,
    problem: Option<Problem>,
) -> Result<(), AllocError>
    ensures added { OnOk result (findings.new.items ≡ findings.old.items ++ found_at place problem) }
    ensures kept { OnErr result (findings.new.items ≡ findings.old.items) }
{
    match problem {
        Some(problem) => add_finding(findings, Finding { place, problem }),
        None => Ok(()),
    }
}

// Adds that extents are not as many as a format 1 block says.
fn add_number(
    findings: &mut Vec<Finding>,
    place: RecordAddress,
    extents: &[Extent],
    said: u8,
) -> Result<(), AllocError>
    ensures added { OnOk result (findings.new.items ≡ findings.old.items ++ number_findings place extents.now said) }
    ensures kept { OnErr result (findings.new.items ≡ findings.old.items) }
{
    if is_number(extents, said) {
        return Ok(());
    }
    let problem = Problem::OtherNumber(extents.len(), said);
    add_finding(findings, Finding { place, problem })
}

// Whether there are as many extents as a format 1 block says, with those for user labels or without them.
fn is_number(extents: &[Extent], said: u8) -> bool
    ensures { result ≡ is_number extents.now said }
{
    let labels = extents
        .iter()
        .filter(
            |extent| -> bool
                ensures { result ≡ is_for_labels extent.now.now }
            { extent.kind == USER_LABELS },
        )
        .count();
    let said = usize::from(said);
    said == extents.len() || said == extents.len().saturating_sub(labels)
}

// Checks extents, each against those before it, and marks their tracks.
fn check_extents(
    findings: &mut Vec<Finding>,
    marks: &mut [u8],
    geometry: Geometry,
    place: RecordAddress,
    extents: &[Extent],
) -> Result<(), AllocError>
    requires { length marks.old ≡ tracks_of geometry }
    ensures findings { OnOk result (findings.new.items ≡ findings.old.items ++ extent_findings geometry place marks.old extents.now) }
    ensures front { OnErr result (AddsFront findings.old.items findings.new.items (extent_findings geometry place marks.old extents.now)) }
    ensures marks { OnOk result (marks.new ≡ claimed_behind geometry marks.old extents.now) }
    ensures size { length marks.new ≡ length marks.old }
{
    for extent in extents {
        let problem = claim_extent(marks, geometry, *extent);
        add_problem(findings, place, problem)?;
    }
    Ok(())
}

// Checks the free tracks.
fn check_free(
    alloc: Global,
    findings: &mut Vec<Finding>,
    marks: &mut [u8],
    volume: Volume,
) -> Result<(), AllocError>
    requires { length marks.old ≡ tracks_of volume.geometry }
    ensures findings { OnOk result (findings.new.items
        ≡ findings.old.items ++ free_findings volume.entry.geometry volume.entry.blocks.now marks.old) }
    ensures front { OnErr result (AddsFront findings.old.items findings.new.items
        (free_findings volume.entry.geometry volume.entry.blocks.now marks.old)) }
{
    let free = free_tracks(alloc, volume.blocks)?;
    let Some(place) = free.address else {
        return Ok(());
    };
    add_chain(findings, place, free.fault)?;
    check_pieces(
        findings,
        marks,
        volume.geometry,
        place,
        free.pieces.as_slice(),
    )
}

// Checks pieces of free tracks, each against all that is claimed before it.
fn check_pieces(
    findings: &mut Vec<Finding>,
    marks: &mut [u8],
    geometry: Geometry,
    place: RecordAddress,
    pieces: &[FreeTracks],
) -> Result<(), AllocError>
    requires { length marks.old ≡ tracks_of geometry }
    ensures findings { OnOk result (findings.new.items ≡ findings.old.items ++ piece_findings geometry place marks.old pieces.now) }
    ensures front { OnErr result (AddsFront findings.old.items findings.new.items (piece_findings geometry place marks.old pieces.now)) }
{
    for piece in pieces {
        let problem = claim_free(marks, geometry, *piece);
        add_problem(findings, place, problem)?;
    }
    Ok(())
}

// Marks free tracks, and says what is wrong with them.
fn claim_free(marks: &mut [u8], geometry: Geometry, piece: FreeTracks) -> Option<Problem>
    requires { length marks.old ≡ tracks_of geometry }
    ensures problem { result ≡ free_claim_of geometry marks.old piece }
    ensures marks { marks.new ≡ claimed_by_free geometry marks.old piece }
    ensures size { length marks.new ≡ length marks.old }
{
    let first = piece.first as u32;
    let tracks = number_of_free(geometry, piece);
    if first + tracks > geometry.tracks() {
        return Some(Problem::FreeOutside(piece));
    }
    match claim(marks, Run { first, tracks }) {
        None => None,
        Some(track) => Some(Problem::FreeInUse(piece, track)),
    }
}

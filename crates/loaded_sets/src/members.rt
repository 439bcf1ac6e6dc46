//! The records of a library's members.

ghost use Rattle.std.specs.Prelude.{◌≡◌, ◌+◌, ◌<◌, ◌++◌, ◌∷◌, [], All, map, OnOk, IfOk, IfErr, Ok};
ghost use Rattle.record_tracks.specs.Records.{all_areas};
ghost use Rattle.record_tracks.specs.Blocks.{block_areas, AreBlocks};
ghost use Rattle.record_tracks.specs.BlockFaults.{IsCutFor};
ghost use Rattle.record_tracks.specs.Library.{member_areas};
ghost use Rattle.loaded_sets.specs.Contents.{text_bytes};
ghost use Rattle.changed_volumes.specs.Changes.{IsHinderedBy};
ghost use Rattle.loaded_sets.specs.Members.{each_made, fitting};
ghost use Rattle.loaded_sets.specs.LibraryParts.{HasBlocks, IsUnmade, IsNoneFor};

use crate::library_fault::of_member;
use crate::{ContentFault, LoadFault, NO_MEMORY, Unmade, text_bytes};
use ckd_track::DriveModel;
use record_tracks::{Blocks, Cut, NewMember, NewRecord, block_fault, block_records};
use std::alloc::{AllocError, Global};
use volume_labels::Layout;

/// What the blocks of a library are measured by.
#[derive(Clone, Copy)]
pub(crate) struct Measure {
    /// The drive on whose tracks they go.
    pub(crate) model: DriveModel,
    /// How records lie in them.
    pub(crate) layout: Layout,
    /// The length of their keys, in bytes.
    pub(crate) key_length: u8,
}

// One text more.
fn push_text(texts: &mut Vec<Vec<u8>>, text: Vec<u8>) -> Result<(), LoadFault>
    ensures texts { OnOk result (map (λ t. t.items) texts.new.items ≡ map (λ t. t.items) texts.old.items ++ text.items ∷ []) }
    ensures fault { IfErr result IsHinderedBy }
{
    match texts.push(text) {
        Ok(()) => Ok(()),
        Err(_) => Err(NO_MEMORY),
    }
}

/// The records of the texts of members.
///
/// # Errors
///
/// The first text that has none, told with its number; or there is no memory.
pub(crate) fn text_members(
    alloc: Global,
    layout: Layout,
    files: &[&[u8]],
) -> Result<Vec<Vec<u8>>, LoadFault>
    ensures made { IfOk result (λ texts. each_made (text_bytes layout) 1 (map (λ f. f.now) files.now)
        ≡ Ok (map (λ t. t.items) texts.items)) }
    ensures fault { IfErr result (λ e. IsUnmade e (each_made (text_bytes layout) 1 (map (λ f. f.now) files.now))) }
{
    let mut texts = Vec::new(alloc);
    for (number, file) in files.iter().enumerate() {
        match text_bytes(alloc, layout, file) {
            Ok(text) => push_text(&mut texts, text)?,
            Err(fault) => return Err(of_member(number + 1, fault)),
        }
    }
    Ok(texts)
}

// One slice more.
fn push_slice<'a>(slices: &mut Vec<&'a [u8]>, slice: &'a [u8]) -> Result<(), AllocError>
    ensures { OnOk result (map (λ f. f.now) slices.new.items ≡ map (λ f. f.now) slices.old.items ++ slice.entry.now ∷ []) }
{
    match slices.push(slice) {
        Ok(()) => Ok(()),
        Err(_) => Err(AllocError),
    }
}

/// Texts as slices.
///
/// # Errors
///
/// There is no memory for them.
pub(crate) fn text_slices<'a>(
    alloc: Global,
    texts: &'a [Vec<u8>],
) -> Result<Vec<&'a [u8]>, AllocError>
    ensures { IfOk result (λ slices. map (λ f. f.now) slices.items ≡ map (λ t. t.items) texts.entry.now) }
{
    let mut slices = Vec::new(alloc);
    for text in texts {
        push_slice(&mut slices, text.as_slice())?;
    }
    Ok(slices)
}

// The blocks of a member as records, without an end of file behind them.
fn member_records<'a>(
    alloc: Global,
    measure: Measure,
    cut: Cut,
    bytes: &'a [u8],
) -> Result<Vec<NewRecord<'a>>, Unmade>
    requires { IsCutFor measure.layout cut }
    ensures fits { IfOk result (λ _. fitting measure.model measure.layout measure.key_length cut bytes.entry.now ≡ Ok bytes.entry.now) }
    ensures areas { IfOk result (λ records. all_areas records.items ≡ block_areas cut bytes.entry.now) }
    ensures blocks { IfOk result (λ _. AreBlocks measure.model cut bytes.entry.now) }
    ensures bytes { IfOk result (λ _. All (λ byte. byte < 256) bytes.entry.now) }
    ensures fault { IfErr result (λ e. IsNoneFor e (fitting measure.model measure.layout measure.key_length cut bytes.entry.now)) }
{
    let blocks = Blocks { bytes, cut };
    if let Some(fault) = block_fault(measure.model, measure.layout, measure.key_length, blocks) {
        return Err(Unmade::Content(ContentFault::Blocks(fault)));
    }
    let Ok(mut records) = block_records(alloc, blocks) else {
        return Err(Unmade::OutOfMemory);
    };
    let _end_of_file = records.pop();
    Ok(records)
}

// The records of one member more.
fn push_records<'a>(
    all: &mut Vec<Vec<NewRecord<'a>>>,
    records: Vec<NewRecord<'a>>,
) -> Result<(), LoadFault>
    ensures all { OnOk result (map (λ r. all_areas r.items) all.new.items
        ≡ map (λ r. all_areas r.items) all.old.items ++ all_areas records.entry.items ∷ []) }
    ensures fault { IfErr result IsHinderedBy }
{
    match all.push(records) {
        Ok(()) => Ok(()),
        Err(_) => Err(NO_MEMORY),
    }
}

/// The blocks of each member as records, without ends of file behind them.
///
/// # Errors
///
/// The first member whose bytes are no such blocks, told with its number; or there is no memory.
pub(crate) fn all_records<'a>(
    alloc: Global,
    measure: Measure,
    cut: Cut,
    members: &'a [&[u8]],
) -> Result<Vec<Vec<NewRecord<'a>>>, LoadFault>
    requires { IsCutFor measure.layout cut }
    ensures fit { IfOk result (λ _. each_made (fitting measure.model measure.layout measure.key_length cut) 1
        (map (λ f. f.now) members.entry.now) ≡ Ok (map (λ f. f.now) members.entry.now)) }
    ensures areas { IfOk result (λ all. map (λ r. all_areas r.items) all.items
        ≡ map (block_areas cut) (map (λ f. f.now) members.entry.now)) }
    ensures each { IfOk result (λ _. All (HasBlocks measure.model cut) (map (λ f. f.now) members.entry.now)) }
    ensures fault { IfErr result (λ e. IsUnmade e
        (each_made (fitting measure.model measure.layout measure.key_length cut) 1 (map (λ f. f.now) members.entry.now))) }
{
    let mut all = Vec::new(alloc);
    for (number, bytes) in members.iter().enumerate() {
        match member_records(alloc, measure, cut, bytes) {
            Ok(records) => push_records(&mut all, records)?,
            Err(fault) => return Err(of_member(number + 1, fault)),
        }
    }
    Ok(all)
}

// One member more.
fn push_member<'a, 'b>(
    members: &mut Vec<NewMember<'a>>,
    records: &'a [NewRecord<'b>],
) -> Result<(), AllocError>
    ensures { OnOk result (map member_areas members.new.items ≡ map member_areas members.old.items ++ all_areas records.entry.now ∷ []) }
{
    match members.push(NewMember { records }) {
        Ok(()) => Ok(()),
        Err(_) => Err(AllocError),
    }
}

/// Records as those of members.
///
/// # Errors
///
/// There is no memory for them.
pub(crate) fn new_members<'a, 'b>(
    alloc: Global,
    all: &'a [Vec<NewRecord<'b>>],
) -> Result<Vec<NewMember<'a>>, AllocError>
    ensures { IfOk result (λ members. map member_areas members.items ≡ map (λ r. all_areas r.items) all.entry.now) }
{
    let mut members = Vec::new(alloc);
    for records in all {
        push_member(&mut members, records.as_slice())?;
    }
    Ok(members)
}

//! The blocks of a member's file, as a library that is read has those of its members.

ghost use Rattle.std.specs.Prelude.{◌≡◌, ◌∷◌, ◌++◌, flat_map, Ok, IfOk, IfErr, All};
ghost use Rattle.record_tracks.specs.Records.{areas_of, all_areas, RecordGoesOn};
ghost use Rattle.record_tracks.specs.ReadBack.{keyed_text};
ghost use Rattle.record_tracks.specs.Blocks.{block_areas, AreBlocks};
ghost use Rattle.record_tracks.specs.BlockFaults.{IsCutFor};
ghost use Rattle.loaded_sets.specs.Contents.{blocks_in};
ghost use Rattle.loaded_folders.specs.Contents.{all_keyed, member_blocks};
ghost use Rattle.loaded_folders.specs.MemberParts.{IsNoMember, spelled, IsUnspelled};

use crate::added::AddedMember;
use ckd_track::DriveModel;
use loaded_sets::{ContentFault, NewSetForm, SourceForm, Unmade, layout_of_set, text_bytes};
use record_tracks::{Blocks, Cut, NewRecord, block_fault, block_records, cut_of};
use std::alloc::{AllocError, Global};
use volume_labels::Layout;

/// What the blocks of a member are measured by.
#[derive(Clone, Copy)]
pub(crate) struct Measure {
    /// The drive on whose tracks they go.
    pub(crate) model: DriveModel,
    /// How records lie in them.
    pub(crate) layout: Layout,
    /// The length of their keys, in bytes.
    pub(crate) key_length: u8,
}

/// The blocks of a member's file in a library of this form, each with its lengths and its key.
///
/// # Errors
///
/// The file has none; or there is no memory.
pub(crate) fn member_blocks(
    alloc: Global,
    model: DriveModel,
    form: &NewSetForm,
    added: &AddedMember,
) -> Result<Vec<u8>, Unmade>
    ensures blocks { IfOk result (λ made. member_blocks model form.now added.now ≡ Ok made.items) }
    ensures fault { IfErr result (λ e. IsNoMember e model form.now added.now) }
{
    let layout = match layout_of_set(form) {
        Ok(layout) => layout,
        Err(fault) => return Err(Unmade::Content(ContentFault::Attributes(fault))),
    };
    let measure = Measure {
        model,
        layout,
        key_length: form.key_length,
    };
    let bytes = added.bytes;
    match added.source {
        SourceForm::Blocks => {
            let cut = cut_of(layout);
            spelled(alloc, measure, Blocks { bytes, cut })
        }
        SourceForm::WithLengths => {
            let cut = Cut::WithLengths;
            spelled(alloc, measure, Blocks { bytes, cut })
        }
        SourceForm::Text => {
            let records = text_bytes(alloc, layout, bytes)?;
            let cut = cut_of(layout);
            let bytes = records.as_slice();
            spelled(alloc, measure, Blocks { bytes, cut })
        }
    }
}

// Blocks, each with its lengths and its key.
fn spelled(alloc: Global, measure: Measure, blocks: Blocks) -> Result<Vec<u8>, Unmade>
    requires cut { IsCutFor measure.layout blocks.cut }
    ensures blocks { IfOk result (λ made. spelled measure.model measure.layout measure.key_length blocks.entry.cut blocks.entry.bytes.now
        ≡ Ok made.items) }
    ensures fault { IfErr result (λ e. IsUnspelled e measure.model measure.layout measure.key_length blocks.entry.cut blocks.entry.bytes.now) }
{
    if let Some(fault) = block_fault(measure.model, measure.layout, measure.key_length, blocks) {
        return Err(Unmade::Content(ContentFault::Blocks(fault)));
    }
    match spell_blocks(alloc, measure.model, blocks) {
        Ok(bytes) => Ok(bytes),
        Err(_) => Err(Unmade::OutOfMemory),
    }
}

// The same of blocks that have no fault.
fn spell_blocks(alloc: Global, model: DriveModel, blocks: Blocks) -> Result<Vec<u8>, AllocError>
    requires { AreBlocks model blocks.cut blocks.bytes.now }
    ensures { IfOk result (λ bytes. bytes.items ≡ all_keyed (block_areas blocks.entry.cut blocks.entry.bytes.now)) }
{
    let records = block_records(alloc, blocks)?;
    spell_records(alloc, model, &records[..records.len() - 1])
}

// Records one behind another.
fn spell_records(
    alloc: Global,
    model: DriveModel,
    records: &[NewRecord],
) -> Result<Vec<u8>, AllocError>
    requires { All (RecordGoesOn model) records.now }
    ensures { IfOk result (λ bytes. bytes.items ≡ flat_map (λ b. keyed_text (areas_of b)) records.now) }
{
    let mut bytes = Vec::new(alloc);
    for block in records {
        push_record(&mut bytes, model, *block)?;
    }
    Ok(bytes)
}

// A record behind others: a byte 1, the lengths of its key and its data, and these.
fn push_record(bytes: &mut Vec<u8>, model: DriveModel, block: NewRecord) -> Result<(), AllocError>
    requires { RecordGoesOn model block }
    ensures { IfOk result (λ _. bytes.new.items ≡ bytes.old.items ++ keyed_text (areas_of block.entry)) }
{
    let _model = model;
    let [high, low] = (block.bytes.len() as u16).to_be_bytes();
    bytes.extend_from_slice(&[1, block.key.len() as u8, high, low])?;
    bytes.extend_from_slice(block.key)?;
    bytes.extend_from_slice(block.bytes)
}

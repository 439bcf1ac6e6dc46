//! The blocks of a file as records for tracks.

ghost use Rattle.std.specs.Prelude.{◌≡◌, ◌<◌, ◌++◌, IfOk, All};
ghost use Rattle.ckd_track.specs.declared.model.DriveModel.{DriveModel};
ghost use Rattle.record_tracks.specs.Records.{all_areas, RecordGoesOn};
ghost use Rattle.record_tracks.specs.Blocks.{block_areas, areas_of, AreBlocks};
ghost use Rattle.record_tracks.specs.Extracted.{IsReadAs, IsReadBack};

use crate::NewRecord;
use crate::blocks::{Blocks, Cut, behind_first, first_record};
use std::alloc::{AllocError, Global};

/// What an end of file is: a record without key and data.
const END_OF_FILE: NewRecord<'static> = NewRecord {
    key: &[],
    bytes: &[],
};

// Lists the blocks of a file behind other records.
fn push_blocks<'a>(
    records: &mut Vec<NewRecord<'a>>,
    bytes: &'a [u8],
    cut: Cut,
) -> Result<(), AllocError>
    ensures records { IfOk result (λ _. all_areas records.new.items ≡ all_areas records.old.items ++ block_areas cut bytes.now) }
    ensures bytes { IfOk result (λ _. All (λ byte. byte < 256) bytes.now) }
{
    let mut rest = bytes;
    for _k in 0..bytes.len() {
        if rest.is_empty() {
            return Ok(());
        }
        let left = Blocks { bytes: rest, cut };
        records.push(first_record(left))?;
        rest = behind_first(left);
    }
    Ok(())
}

/// The blocks of a file as records for tracks, and an end of file behind them. Wherever tracks with these records are on a volume, the reader
/// writes the bytes of the file again: as they stand, or, where the file has the lengths of its blocks, with these.
///
/// # Errors
///
/// There is no memory for them.
pub fn block_records<'a>(
    alloc: Global,
    blocks: Blocks<'a>,
) -> Result<Vec<NewRecord<'a>>, AllocError>
    ensures records { IfOk result (λ records. all_areas records.items ≡ areas_of blocks.entry.cut blocks.entry.bytes.now) }
    ensures fit { IfOk result (λ records. (model : DriveModel) → AreBlocks model blocks.entry.cut blocks.entry.bytes.now
        → All (RecordGoesOn model) records.items) }
    ensures read { IfOk result (λ _. (model : DriveModel) → AreBlocks model blocks.entry.cut blocks.entry.bytes.now
        → IsReadBack model blocks.entry.cut blocks.entry.bytes.now) }
    ensures forms { IfOk result (λ _. (model : DriveModel) → AreBlocks model blocks.entry.cut blocks.entry.bytes.now
        → IsReadAs model blocks.entry.cut blocks.entry.bytes.now) }
{
    let mut records = Vec::new(alloc);
    push_blocks(&mut records, blocks.bytes, blocks.cut)?;
    records.push(END_OF_FILE)?;
    Ok(records)
}

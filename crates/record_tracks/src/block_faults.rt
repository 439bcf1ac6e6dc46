//! Why the bytes of a file are no blocks of a data set.

ghost use Rattle.std.specs.Prelude.{◌≡◌, ◌<◌, ◌≤◌, ◌+◌, length, IfNone};
ghost use Rattle.record_tracks.specs.BlockFaults.{fixed_fault, has_records, described_fault, lengths_fault, areas_fault, fault_of_first, first_fault};
ghost use Rattle.record_tracks.specs.BlockFaults.{length_fault, cut_fault, lacks_keys, block_fault_of, IsCutFor};
ghost use Rattle.record_tracks.specs.Records.{areas_of};
ghost use Rattle.record_tracks.specs.Blocks.{AreBlocks, rests_of};

use crate::blocks::{Blocks, Cut, behind_first, byte_at, first_record, first_size, number_at};
use crate::{NewRecord, goes_on};
use ckd_track::DriveModel;
use thiserror::Error;
use volume_labels::{Layout, RecordForm, next_record};

/// Why a block that says its own lengths is none.
#[derive(Clone, Copy, Debug, PartialEq, Eq, Error)]
pub enum DescribedFault {
    /// Its descriptor word is cut short by the end of the file, or says less than its own four bytes.
    #[error("has a descriptor word that is no length")]
    NoLength,
    /// What stands before its lengths is no byte 1.
    #[error("does not begin with a byte 1")]
    NoMark,
    /// The file ends within it, or within its lengths.
    #[error("does not end within the file")]
    PastEnd,
    /// It has a key alone, or nothing: it would be an end of file.
    #[error("has no data")]
    NoData,
    /// Its key is longer or shorter than those of the data set.
    #[error("has a key of another length")]
    OtherKey,
    /// Its data are longer than the block length.
    #[error("is longer than the block length")]
    TooLong,
    /// It goes on no track of the drive with its key.
    #[error("has no room on a track")]
    NoRoom,
    /// The reader finds no records in it that fill it.
    #[error("has bytes that are no records")]
    BadRecords,
}

/// Why a file's bytes are no blocks of a data set.
#[derive(Clone, Copy, Debug, PartialEq, Eq, Error)]
pub enum BlockFault {
    /// The data set has keys, and the file has none.
    #[error("keys are given only with the lengths of their blocks")]
    Keys,
    /// Nobody says how long a block is.
    #[error("no block length")]
    NoBlockLength,
    /// A block is longer than a track of the drive has room for.
    #[error("a block is longer than a track")]
    LongBlock,
    /// A block is no whole number of records.
    #[error("record length and block length contradict each other")]
    Lengths,
    /// The file ends within a record.
    #[error("the file ends within a record")]
    ShortRecord,
    /// A block that says its own lengths is none; its number, from 1 on, and why.
    #[error("block {0} {1}")]
    Described(usize, DescribedFault),
}

// Why bytes are no blocks of records of one length.
fn fixed_fault(size: u16, longest: u16, bytes: usize) -> Option<BlockFault>
    ensures { result ≡ fixed_fault size longest bytes }
{
    if size == 0 {
        return None;
    }
    if longest % size != 0 {
        return Some(BlockFault::Lengths);
    }
    if bytes % usize::from(size) != 0 {
        return Some(BlockFault::ShortRecord);
    }
    None
}

// Whether the reader finds records in a block, up to its end.
fn has_records(form: RecordForm, block: &[u8]) -> bool
    ensures { result ≡ has_records form block.now }
{
    let mut at = 0;
    for _k in 0..block.len() {
        match next_record(form, block, at) {
            Ok(Some(piece)) => at = piece.end,
            Ok(None) => return true,
            Err(_) => return false,
        }
    }
    true
}

// Why the first block is none by its descriptor word.
fn described_fault(layout: Layout, bytes: &[u8]) -> Option<DescribedFault>
    ensures { result ≡ described_fault layout bytes.now }
{
    let length = number_at(bytes, 0);
    if bytes.len() < 4 || length < 4 {
        return Some(DescribedFault::NoLength);
    }
    if bytes.len() < length {
        return Some(DescribedFault::PastEnd);
    }
    if usize::from(layout.longest) < length {
        return Some(DescribedFault::TooLong);
    }
    if has_records(layout.form, &bytes[..length]) {
        None
    } else {
        Some(DescribedFault::BadRecords)
    }
}

// Why the first block is none by the lengths that stand before it.
fn lengths_fault(
    model: DriveModel,
    layout: Layout,
    key_length: u8,
    bytes: &[u8],
) -> Option<DescribedFault>
    ensures { result ≡ lengths_fault model layout key_length bytes.now }
{
    let first = Blocks {
        bytes,
        cut: Cut::WithLengths,
    };
    if byte_at(bytes, 0) != 1 {
        return Some(DescribedFault::NoMark);
    }
    if bytes.len() < first_size(first) {
        return Some(DescribedFault::PastEnd);
    }
    record_fault(model, layout, key_length, first_record(first))
}

// Why a block is none by its key and its data.
fn record_fault(
    model: DriveModel,
    layout: Layout,
    key_length: u8,
    block: NewRecord,
) -> Option<DescribedFault>
    ensures { result ≡ areas_fault model layout key_length (areas_of block.entry) }
{
    if block.bytes.is_empty() {
        return Some(DescribedFault::NoData);
    }
    if block.key.len() != usize::from(key_length) {
        return Some(DescribedFault::OtherKey);
    }
    if usize::from(layout.longest) < block.bytes.len() {
        return Some(DescribedFault::TooLong);
    }
    if !goes_on(model, block) {
        return Some(DescribedFault::NoRoom);
    }
    if has_records(layout.form, block.bytes) {
        None
    } else {
        Some(DescribedFault::BadRecords)
    }
}

// Why the first block is none that says its own lengths.
fn fault_of_first(
    model: DriveModel,
    layout: Layout,
    key_length: u8,
    blocks: Blocks,
) -> Option<DescribedFault>
    ensures { result ≡ fault_of_first model layout key_length blocks.entry.cut blocks.entry.bytes.now }
{
    match blocks.cut {
        Cut::Length(_) => None,
        Cut::Described => described_fault(layout, blocks.bytes),
        Cut::WithLengths => lengths_fault(model, layout, key_length, blocks.bytes),
    }
}

// The first block that is none by what it says of its lengths.
fn first_fault(
    model: DriveModel,
    layout: Layout,
    key_length: u8,
    blocks: Blocks,
) -> Option<BlockFault>
    ensures { result ≡ first_fault (fault_of_first model layout key_length blocks.entry.cut)
        (rests_of blocks.entry.cut blocks.entry.bytes.now) 0 }
{
    let mut rest = blocks.bytes;
    for k in 0..blocks.bytes.len() {
        if rest.is_empty() {
            return None;
        }
        let left = Blocks {
            bytes: rest,
            cut: blocks.cut,
        };
        if let Some(fault) = fault_of_first(model, layout, key_length, left) {
            return Some(BlockFault::Described(k + 1, fault));
        }
        rest = behind_first(left);
    }
    None
}

// Why bytes are no blocks of one length, or of undefined length up to that.
fn length_fault(layout: Layout, bytes: usize) -> Option<BlockFault>
    ensures { result ≡ length_fault layout.form layout.longest bytes }
{
    match layout.form {
        RecordForm::Fixed(size) => fixed_fault(size, layout.longest, bytes),
        RecordForm::Undefined | RecordForm::Variable | RecordForm::Spanned => None,
    }
}

// Why bytes are no blocks, by how they are cut.
fn cut_fault(
    model: DriveModel,
    layout: Layout,
    key_length: u8,
    blocks: Blocks,
) -> Option<BlockFault>
    ensures { result ≡ cut_fault model layout key_length blocks.entry.cut blocks.entry.bytes.now }
{
    match blocks.cut {
        Cut::Length(_) => length_fault(layout, blocks.bytes.len()),
        Cut::Described => first_fault(model, layout, key_length, blocks),
        Cut::WithLengths => first_fault(model, layout, key_length, blocks),
    }
}

// Whether the data set has keys, and the file has none.
fn lacks_keys(key_length: u8, cut: Cut) -> bool
    ensures { result ≡ lacks_keys key_length cut }
{
    match cut {
        Cut::Length(_) | Cut::Described => key_length != 0,
        Cut::WithLengths => false,
    }
}

/// Why the bytes of a file are no blocks of a data set of this layout, whose keys have this length, on a drive of this model; none where they
/// are. They are cut by `cut_of` of the layout, where the data set has no keys, or by the lengths that stand before each block.
///
/// By `cut_of`: of records of one length or of undefined length each block has the layout's longest length, and the last one what is left.
/// Of records of variable length each block is as long as its descriptor word says, and no longer than that; and its records are those that a
/// reader finds. By lengths: each block begins with a byte 1, ends within the file, has data, a key of that length, no more data than the
/// layout's longest length, room on a track, and records that a reader finds.
pub fn block_fault(
    model: DriveModel,
    layout: Layout,
    key_length: u8,
    blocks: Blocks,
) -> Option<BlockFault>
    requires { IsCutFor layout blocks.cut }
    ensures fault { result ≡ block_fault_of model layout key_length blocks.entry.cut blocks.entry.bytes.now }
    ensures fits { IfNone result (AreBlocks model blocks.entry.cut blocks.entry.bytes.now) }
{
    if lacks_keys(key_length, blocks.cut) {
        return Some(BlockFault::Keys);
    }
    if layout.longest == 0 {
        return Some(BlockFault::NoBlockLength);
    }
    if u32::from(layout.longest) > model.capacity() {
        return Some(BlockFault::LongBlock);
    }
    cut_fault(model, layout, key_length, blocks)
}

//! A file's bytes as blocks.

ghost use Rattle.std.specs.Prelude.{◌≡◌, ◌≤◌, ◌<◌, length, take, drop, slice_index};
ghost use Rattle.volume_labels.specs.Records.{number_at};
ghost use Rattle.record_tracks.specs.Records.{areas_of};
ghost use Rattle.record_tracks.specs.Blocks.{cut_by, first_areas, size_of};

use crate::NewRecord;
use volume_labels::{Layout, RecordForm};

/// How many bytes say the lengths of a block that has them before it: a byte 1, the length of the key, and that of the data in two.
const LENGTHS: usize = 4;

/// How bytes are cut into blocks.
#[derive(Clone, Copy)]
pub enum Cut {
    /// Each block has this length, in bytes; the last may be shorter.
    Length(u16),
    /// Each block begins with its block descriptor word, whose first two bytes are the block's length, that of the word among it.
    Described,
    /// Each block stands behind its lengths and its key, as the reader's form `Keyed` of `dasd_extract` writes it: a byte 1, the length
    /// of the key in a byte, that of the data in two, the high one first, the key, and the data.
    WithLengths,
}

/// How the blocks of a data set of this layout are told apart in a file that has their data alone: those of records of variable length,
/// spanned or not, by their descriptor words; all others by the layout's longest length.
pub fn cut_of(layout: Layout) -> Cut
    ensures { result ≡ cut_by layout.form layout.longest }
{
    match layout.form {
        RecordForm::Fixed(_) | RecordForm::Undefined => Cut::Length(layout.longest),
        RecordForm::Variable | RecordForm::Spanned => Cut::Described,
    }
}

/// The bytes of a data set's blocks, one block behind another.
#[derive(Clone, Copy)]
pub struct Blocks<'a> {
    /// The bytes of all blocks, in their order.
    pub bytes: &'a [u8],
    /// How they are cut into blocks.
    pub cut: Cut,
}

/// How many bytes the first block takes.
pub(crate) fn first_size(blocks: Blocks) -> usize
    ensures { result ≡ size_of blocks.entry.cut blocks.entry.bytes.now }
{
    match blocks.cut {
        Cut::Length(size) => usize::from(size),
        Cut::Described => number_at(blocks.bytes, 0),
        Cut::WithLengths => LENGTHS + byte_at(blocks.bytes, 1) + number_at(blocks.bytes, 2),
    }
}

/// The first block, with as many of its bytes as there are.
pub(crate) fn first_record<'a>(blocks: Blocks<'a>) -> NewRecord<'a>
    ensures { areas_of result ≡ first_areas blocks.entry.cut blocks.entry.bytes.now }
{
    let bytes = blocks.bytes;
    match blocks.cut {
        Cut::Length(size) => NewRecord {
            key: &[],
            bytes: part(bytes, 0, usize::from(size)),
        },
        Cut::Described => NewRecord {
            key: &[],
            bytes: part(bytes, 0, number_at(bytes, 0)),
        },
        Cut::WithLengths => {
            let key = byte_at(bytes, 1);
            NewRecord {
                key: part(bytes, LENGTHS, key),
                bytes: part(bytes, LENGTHS + key, number_at(bytes, 2)),
            }
        }
    }
}

/// The bytes behind the first block.
pub(crate) fn behind_first<'a>(blocks: Blocks<'a>) -> &'a [u8]
    ensures { result.now ≡ drop (size_of blocks.entry.cut blocks.entry.bytes.now) blocks.entry.bytes.now }
{
    let bytes = blocks.bytes;
    let size = first_size(blocks).min(bytes.len());
    &bytes[size..]
}

// So many bytes from an offset on, or as many as there are.
fn part(bytes: &[u8], start: usize, size: usize) -> &[u8]
    ensures { result.now ≡ take size (drop start bytes.now) }
{
    let start = start.min(bytes.len());
    let rest = &bytes[start..];
    &rest[..size.min(rest.len())]
}

/// A number in two bytes, the high one first, of which those behind the last byte are zeros.
pub(crate) fn number_at(bytes: &[u8], at: usize) -> usize
    requires { at < 65536 }
    ensures value { result ≡ number_at bytes.now at }
    ensures limit { result < 65536 }
{
    byte_at(bytes, at) * 256 + byte_at(bytes, at + 1)
}

/// A byte, or 0 behind the last one.
pub(crate) fn byte_at(bytes: &[u8], at: usize) -> usize
    ensures value { result ≡ slice_index bytes.now at }
    ensures limit { result < 256 }
{
    if at < bytes.len() {
        usize::from(bytes[at])
    } else {
        0
    }
}

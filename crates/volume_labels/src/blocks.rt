//! Data set control blocks.

ghost use Rattle.std.specs.Prelude.{◌≡◌, length};
ghost use Rattle.volume_labels.specs.Labels.{kind_of_format, block_kind_of, data_set_block_of, contents_block_of};

use crate::fields::{
    Date, Extent, RecordAddress, RelativeAddress, date_at, extent_at, number_at, record_address_at,
    relative_address_at, six,
};

/// The length of a block's key, in bytes.
pub const KEY_LENGTH: usize = 44;

/// The length of a block's data, in bytes.
pub const DATA_LENGTH: usize = 96;

/// What a data set control block is for, by its format.
#[derive(Clone, Copy, PartialEq, Eq)]
pub enum BlockKind {
    /// Format 0: it is free.
    Free,
    /// Format 1: a data set and its first three extents.
    DataSet,
    /// Format 2: the indexes of an indexed sequential data set.
    IndexedSequential,
    /// Format 3: thirteen more extents of a data set.
    MoreExtents,
    /// Format 4: the volume table of contents and the device.
    Contents,
    /// Format 5: free tracks.
    FreeSpace,
    /// Format 6: cylinders that data sets share.
    SharedCylinders,
    /// A format that is not of OS/360 or DOS/360.
    Unknown,
}

/// What a format 1 block says of a data set.
#[derive(Clone, Copy)]
pub struct DataSetBlock {
    /// Its name, in EBCDIC, with blanks behind it.
    pub name: [u8; 44],
    /// The serial number of its first volume, in EBCDIC.
    pub serial: [u8; 6],
    /// The number of this volume among its volumes, the first being 1.
    pub volume: u16,
    /// When it was made.
    pub created: Date,
    /// When it may be scratched.
    pub expires: Date,
    /// How many extents it has on this volume.
    pub extents: u8,
    /// Its organisation, as bits.
    pub organisation: u16,
    /// Its record format, as bits.
    pub format: u8,
    /// The length of its blocks, in bytes.
    pub block_length: u16,
    /// The length of its records, in bytes.
    pub record_length: u16,
    /// The length of its keys, in bytes.
    pub key_length: u8,
    /// Its indicators, as bits.
    pub indicators: u8,
    /// Its last block.
    pub last: RelativeAddress,
    /// How many bytes its last track has left.
    pub balance: u16,
    /// Its first extent.
    pub first_extent: Extent,
    /// Its second extent.
    pub second_extent: Extent,
    /// Its third extent.
    pub third_extent: Extent,
    /// Its next block, of format 2 or 3; all zeros where there is none.
    pub next: RecordAddress,
}

/// What a format 4 block says.
#[derive(Clone, Copy)]
pub struct ContentsBlock {
    /// The last format 1 block.
    pub last_data_set: RecordAddress,
    /// How many blocks are free.
    pub free_blocks: u16,
    /// The tracks of the volume table of contents.
    pub extent: Extent,
}

// The kind of a format.
fn kind(format: u8) -> BlockKind
    ensures { result ≡ kind_of_format format }
{
    match format {
        0 => BlockKind::Free,
        0xF1 => BlockKind::DataSet,
        0xF2 => BlockKind::IndexedSequential,
        0xF3 => BlockKind::MoreExtents,
        0xF4 => BlockKind::Contents,
        0xF5 => BlockKind::FreeSpace,
        0xF6 => BlockKind::SharedCylinders,
        _ => BlockKind::Unknown,
    }
}

/// The kind of the control block in a record (System Control Blocks, 'Data Set Control Block'). None where its lengths are not
/// those of one.
pub fn block_kind(key: &[u8], bytes: &[u8]) -> Option<BlockKind>
    ensures { result ≡ block_kind_of key.now bytes.now }
{
    if key.len() != KEY_LENGTH || bytes.len() != DATA_LENGTH {
        return None;
    }
    Some(kind(bytes[0]))
}

/// What a format 1 block says.
pub fn data_set_block(key: &[u8], bytes: &[u8]) -> DataSetBlock
    requires key { length key.now ≡ 44 }
    requires bytes { length bytes.now ≡ 96 }
    ensures { result ≡ data_set_block_of key.now bytes.now }
{
    let mut name = [0u8; KEY_LENGTH];
    name.copy_from_slice(key);
    DataSetBlock {
        name,
        serial: six(bytes, 1),
        volume: number_at(bytes, 7),
        created: date_at(bytes, 9),
        expires: date_at(bytes, 12),
        extents: bytes[15],
        organisation: number_at(bytes, 38),
        format: bytes[40],
        block_length: number_at(bytes, 42),
        record_length: number_at(bytes, 44),
        key_length: bytes[46],
        indicators: bytes[49],
        last: relative_address_at(bytes, 54),
        balance: number_at(bytes, 57),
        first_extent: extent_at(bytes, 61),
        second_extent: extent_at(bytes, 71),
        third_extent: extent_at(bytes, 81),
        next: record_address_at(bytes, 91),
    }
}

/// What a format 4 block says.
pub fn contents_block(bytes: &[u8]) -> ContentsBlock
    requires { length bytes.now ≡ 96 }
    ensures { result ≡ contents_block_of bytes.now }
{
    ContentsBlock {
        last_data_set: record_address_at(bytes, 1),
        free_blocks: number_at(bytes, 6),
        extent: extent_at(bytes, 61),
    }
}

//! Control blocks behind those of data sets: indexes, more extents, and free tracks.

ghost use Rattle.std.specs.Prelude.{◌≡◌, length};
ghost use Rattle.volume_labels.specs.Blocks.{indexes_block_of, extents_block_of, free_space_block_of, has_key_of};

use crate::blocks::{BlockKind, KEY_LENGTH};
use crate::fields::{
    Extent, FreeTracks, RecordAddress, extent_at, free_tracks_at, long_number_at, number_at,
    record_address_at,
};

/// What a format 2 block says of the indexes of an indexed sequential data set, as far as it is read.
#[derive(Clone, Copy)]
pub struct IndexesBlock {
    /// How many levels of indexes there are.
    pub levels: u8,
    /// How many tracks of each cylinder are for its overflow.
    pub overflow_tracks: u8,
    /// How many records are marked as deleted.
    pub deleted: u16,
    /// How many records are in the prime area.
    pub records: u32,
    /// How many records are in the independent overflow area.
    pub overflow_records: u16,
    /// The next block, of format 3; all zeros where there is none.
    pub next: RecordAddress,
}

/// What a format 3 block says.
#[derive(Clone, Copy)]
pub struct ExtentsBlock {
    /// The extents behind those of the block before it; those of type 0 are none.
    pub extents: [Extent; 13],
    /// The next block of format 3; all zeros where there is none.
    pub next: RecordAddress,
}

/// What a format 5 block of OS/360 says.
#[derive(Clone, Copy)]
pub struct FreeSpaceBlock {
    /// Free tracks; those of no cylinder and no track are none.
    pub free: [FreeTracks; 26],
    /// The next block of format 5; all zeros where there is none.
    pub next: RecordAddress,
}

/// What a format 2 block says (System Control Blocks, 'Data Set Control Block', format 2).
pub fn indexes_block(bytes: &[u8]) -> IndexesBlock
    requires { length bytes.now ≡ 96 }
    ensures { result ≡ indexes_block_of bytes.now }
{
    IndexesBlock {
        levels: bytes[1],
        overflow_tracks: bytes[8],
        deleted: number_at(bytes, 15),
        records: long_number_at(bytes, 23),
        overflow_records: number_at(bytes, 84),
        next: record_address_at(bytes, 91),
    }
}

/// What a format 3 block says (System Control Blocks, 'Data Set Control Block', format 3).
pub fn extents_block(key: &[u8], bytes: &[u8]) -> ExtentsBlock
    requires key { length key.now ≡ 44 }
    requires bytes { length bytes.now ≡ 96 }
    ensures { result ≡ extents_block_of key.now bytes.now }
{
    ExtentsBlock {
        extents: [
            extent_at(key, 4),
            extent_at(key, 14),
            extent_at(key, 24),
            extent_at(key, 34),
            extent_at(bytes, 1),
            extent_at(bytes, 11),
            extent_at(bytes, 21),
            extent_at(bytes, 31),
            extent_at(bytes, 41),
            extent_at(bytes, 51),
            extent_at(bytes, 61),
            extent_at(bytes, 71),
            extent_at(bytes, 81),
        ],
        next: record_address_at(bytes, 91),
    }
}

/// What a format 5 block says (System Control Blocks, 'Data Set Control Block', format 5).
pub fn free_space_block(key: &[u8], bytes: &[u8]) -> FreeSpaceBlock
    requires key { length key.now ≡ 44 }
    requires bytes { length bytes.now ≡ 96 }
    ensures { result ≡ free_space_block_of key.now bytes.now }
{
    FreeSpaceBlock {
        free: [
            free_tracks_at(key, 4),
            free_tracks_at(key, 9),
            free_tracks_at(key, 14),
            free_tracks_at(key, 19),
            free_tracks_at(key, 24),
            free_tracks_at(key, 29),
            free_tracks_at(key, 34),
            free_tracks_at(key, 39),
            free_tracks_at(bytes, 1),
            free_tracks_at(bytes, 6),
            free_tracks_at(bytes, 11),
            free_tracks_at(bytes, 16),
            free_tracks_at(bytes, 21),
            free_tracks_at(bytes, 26),
            free_tracks_at(bytes, 31),
            free_tracks_at(bytes, 36),
            free_tracks_at(bytes, 41),
            free_tracks_at(bytes, 46),
            free_tracks_at(bytes, 51),
            free_tracks_at(bytes, 56),
            free_tracks_at(bytes, 61),
            free_tracks_at(bytes, 66),
            free_tracks_at(bytes, 71),
            free_tracks_at(bytes, 76),
            free_tracks_at(bytes, 81),
            free_tracks_at(bytes, 86),
        ],
        next: record_address_at(bytes, 91),
    }
}

/// Whether a block of this kind has the key that its format wants: a name has any, format 2 begins with a byte 02, formats 3 and 5
/// with four bytes 03 and 05, and format 4 has 44 bytes 04.
pub fn has_key_of(kind: BlockKind, key: &[u8]) -> bool
    requires { length key.now ≡ 44 }
    ensures { result ≡ has_key_of kind key.now }
{
    match kind {
        BlockKind::IndexedSequential => key[0] == 2,
        BlockKind::MoreExtents => key[..4] == [3u8; 4][..],
        BlockKind::Contents => key == &[4u8; KEY_LENGTH][..],
        BlockKind::FreeSpace => key[..4] == [5u8; 4][..],
        _ => true,
    }
}

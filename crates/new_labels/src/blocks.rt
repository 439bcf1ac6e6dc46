//! The control blocks of an empty table of contents.

ghost use Rattle.std.specs.Prelude.{◌≡◌, ◌-◌, ◌<◌, ◌≤◌, sum_by};
ghost use Rattle.ckd_track.specs.Geometry.{tracks_of};
ghost use Rattle.volume_labels.specs.Labels.{contents_block_of};
ghost use Rattle.volume_labels.specs.Blocks.{free_space_block_of};
ghost use Rattle.new_labels.specs.Labels.{Fits, table_end};
ghost use Rattle.new_labels.specs.Records.{characteristics, contents_head, drive_bytes, table_extent, contents_data, contents_read, piece, piece_bytes};
ghost use Rattle.new_labels.specs.Records.{free_pieces, tracks_in, free_space_key, free_space_data, free_space_read};
ghost use Rattle.new_labels.specs.Tracks.{block_at, block_key, block_data};

use crate::labels::{NewLabel, blocks_on, free_blocks};
use crate::records::track_bytes;
use ckd_track::{DriveModel, Geometry, overwrite};
use volume_labels::FreeTracks;

// The characteristics of a drive.
fn characteristics(model: DriveModel) -> [u8; 10]
    ensures { result ≡ characteristics model }
{
    match model {
        DriveModel::D2311 => [0x0E, 0x29, 81, 20, 20, 1, 0x02, 0x19, 16, 10],
        DriveModel::D2314 => [0x1C, 0x7E, 146, 45, 45, 1, 0x02, 0x16, 25, 17],
    }
}

/// The data of the block of format 4.
pub fn contents_data(geometry: Geometry, label: &NewLabel) -> [u8; 96]
    requires { Fits geometry label.now }
    ensures bytes { result ≡ contents_data geometry label.now }
    ensures read { contents_block_of result ≡ contents_read geometry label.now }
{
    let mut bytes = [0; 96];
    overwrite(&mut bytes, 61, &table_extent(geometry, label));
    overwrite(&mut bytes, 18, &drive_bytes(geometry));
    overwrite(&mut bytes, 0, &contents_head(geometry, label));
    bytes
}

// What the block of format 4 begins with.
fn contents_head(geometry: Geometry, label: &NewLabel) -> [u8; 18]
    requires { Fits geometry label.now }
    ensures { result ≡ contents_head geometry label.now }
{
    let [b0, b1] = free_blocks(geometry, label).to_be_bytes();
    [
        // format 4, no block of a data set, the free blocks
        0xF4, 0, 0, 0, 0, 0, b0, b1,
        // no alternate track, no indicator, one extent, reserved
        0, 0, 0, 0, 0, 0, 0, 1, 0, 0,
    ]
}

// The drive: its cylinders and heads, and its characteristics.
fn drive_bytes(geometry: Geometry) -> [u8; 14]
    ensures { result ≡ drive_bytes geometry }
{
    let [c0, c1] = geometry.cylinders.to_be_bytes();
    let [h0, h1] = geometry.model.heads().to_be_bytes();
    let [d0, d1, d2, d3, d4, d5, d6, d7, d8, d9] = characteristics(geometry.model);
    [c0, c1, h0, h1, d0, d1, d2, d3, d4, d5, d6, d7, d8, d9]
}

// The extent of the table.
fn table_extent(geometry: Geometry, label: &NewLabel) -> [u8; 10]
    requires { Fits geometry label.now }
    ensures { result ≡ table_extent geometry label.now }
{
    let last = u32::from(label.first) + u32::from(label.tracks) - 1;
    let [f0, f1, f2, f3] = track_bytes(geometry, u32::from(label.first));
    let [l0, l1, l2, l3] = track_bytes(geometry, last);
    [1, 0, f0, f1, f2, f3, l0, l1, l2, l3]
}

// So many free tracks from this one on.
fn piece(geometry: Geometry, from: u32, count: u32) -> FreeTracks
    requires number { from < 65536 }
    requires within { count < tracks_of geometry }
    ensures { result ≡ piece geometry from count }
{
    if count == 0 {
        return FreeTracks {
            first: 0,
            cylinders: 0,
            tracks: 0,
        };
    }
    let heads = u32::from(geometry.model.heads());
    FreeTracks {
        first: from as u16,
        cylinders: (count / heads) as u16,
        tracks: (count % heads) as u8,
    }
}

/// The free tracks, in two pieces at most: all but those of the label and of the table.
pub fn free_pieces(geometry: Geometry, label: &NewLabel) -> [FreeTracks; 2]
    requires { Fits geometry label.now }
    ensures pieces { result ≡ free_pieces geometry label.now }
    ensures all { sum_by (tracks_in geometry) result ≡ tracks_of geometry - 1 - label.now.tracks }
{
    let end = u32::from(label.first) + u32::from(label.tracks);
    let behind = piece(geometry, end, geometry.tracks() - end);
    if label.first == 1 {
        return [behind, piece(geometry, 0, 0)];
    }
    [piece(geometry, 1, u32::from(label.first) - 1), behind]
}

// A piece in its five bytes.
fn piece_bytes(piece: FreeTracks) -> [u8; 5]
    ensures { result ≡ piece_bytes piece }
{
    let [f0, f1] = piece.first.to_be_bytes();
    let [c0, c1] = piece.cylinders.to_be_bytes();
    [f0, f1, c0, c1, piece.tracks]
}

/// The key of the block of format 5.
pub fn free_space_key(geometry: Geometry, label: &NewLabel) -> [u8; 44]
    requires { Fits geometry label.now }
    ensures bytes { result ≡ free_space_key geometry label.now }
    ensures read { free_space_block_of result free_space_data ≡ free_space_read geometry label.now }
{
    let [one, other] = free_pieces(geometry, label);
    let [a0, a1, a2, a3, a4] = piece_bytes(one);
    let [b0, b1, b2, b3, b4] = piece_bytes(other);
    [
        // format 5
        5, 5, 5, 5,
        // the pieces
        a0, a1, a2, a3, a4, b0, b1, b2, b3, b4,
        // no others
        0, 0, 0, 0, 0, 0, 0, 0, 0, 0, 0, 0, 0, 0, 0, 0, 0, 0, 0, 0, 0, 0, 0, 0, 0, 0, 0, 0, 0, 0,
    ]
}

/// The data of the block of format 5: no pieces beyond those in the key, and no further block.
fn free_space_data() -> [u8; 96]
    ensures { result ≡ free_space_data }
{
    let mut bytes = [0; 96];
    bytes[0] = 0xF5;
    bytes
}

/// Which block of the table is in the record of this number on this track of the volume.
pub(crate) fn block_at(geometry: Geometry, label: &NewLabel, track: u32, number: u8) -> u32
    requires behind { label.now.first ≤ track }
    requires before { track < table_end label.now }
    requires number { 1 ≤ number }
    ensures { result ≡ block_at geometry label.now track number }
{
    let before = (track - u32::from(label.first)) * u32::from(blocks_on(geometry.model));
    before + (u32::from(number) - 1)
}

/// The key of a block of the table.
pub(crate) fn block_key(geometry: Geometry, label: &NewLabel, block: u32) -> [u8; 44]
    requires { Fits geometry label.now }
    ensures { result ≡ block_key geometry label.now block }
{
    match block {
        0 => [4; 44],
        1 => free_space_key(geometry, label),
        _ => [0; 44],
    }
}

/// The data of a block of the table.
pub(crate) fn block_data(geometry: Geometry, label: &NewLabel, block: u32) -> [u8; 96]
    requires { Fits geometry label.now }
    ensures { result ≡ block_data geometry label.now block }
{
    match block {
        0 => contents_data(geometry, label),
        1 => free_space_data(),
        _ => [0; 96],
    }
}

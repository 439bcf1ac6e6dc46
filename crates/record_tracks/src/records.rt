//! A record that is to stand on a track.

ghost use Rattle.std.specs.Prelude.{◌≡◌, ◌<◌, ◌↔◌, IsTrue, length, slice_index_or, All};
ghost use Rattle.record_tracks.specs.Records.{areas_of, all_areas, end_of_file, charge_for, last_charge_for, goes_on, RecordGoesOn, balance_behind};

use ckd_track::{DriveModel, charge, last_charge};

/// The key and the data of a record.
#[derive(Clone, Copy)]
pub struct NewRecord<'a> {
    /// The bytes of its key, if it has one.
    pub key: &'a [u8],
    /// The bytes of its data; a block without any is an end of file.
    pub bytes: &'a [u8],
}

/// The record of a number, from 0 on.
pub(crate) fn record_at<'a>(blocks: &[NewRecord<'a>], number: usize) -> NewRecord<'a>
    requires { number < length blocks.now }
    ensures { areas_of result ≡ slice_index_or (all_areas blocks.now) number end_of_file }
{
    blocks[number]
}

/// What a record takes of a track's capacity, where others follow it.
pub(crate) fn charge_for(model: DriveModel, block: NewRecord) -> u32
    requires { RecordGoesOn model block }
    ensures { result ≡ charge_for model (areas_of block.entry) }
{
    charge(model, block.key.len() as u8, block.bytes.len() as u16)
}

/// What a record takes of a track's capacity, as the last one.
pub(crate) fn last_charge_for(model: DriveModel, block: NewRecord) -> u32
    requires { RecordGoesOn model block }
    ensures { result ≡ last_charge_for model (areas_of block.entry) }
{
    last_charge(model, block.key.len() as u8, block.bytes.len() as u16)
}

/// Whether a record goes on a track of the drive, where it is the only one behind record 0. A key has less than 255 bytes, so that no count
/// area is the end mark of a track.
pub fn goes_on(model: DriveModel, block: NewRecord) -> bool
    ensures value { result ≡ goes_on model (areas_of block.entry) }
    ensures goes { IsTrue result ↔ RecordGoesOn model block.entry }
{
    block.key.len() < 255
        && block.bytes.len() < 65536
        && last_charge(model, block.key.len() as u8, block.bytes.len() as u16) <= model.capacity()
}

/// What records leave of a track's capacity, in bytes, where others follow them; 0 where they take more.
pub(crate) fn balance_behind(model: DriveModel, records: &[NewRecord]) -> u16
    requires { All (RecordGoesOn model) records.now }
    ensures { result ≡ balance_behind model (all_areas records.now) }
{
    let mut left = model.capacity();
    for block in records {
        left = left.saturating_sub(charge_for(model, *block));
    }
    left as u16
}

//! Walking over the records of a slot.

ghost use Rattle.std.specs.Prelude.{◌≡◌, ◌≤◌, ◌<◌, ◌+◌, length, drop, slice_index};
ghost use Rattle.ckd_track.specs.Track.{body_length, key_length, data_length, size_at, track_of, track_in, number_of_records, record_offsets};

use crate::fault::SlotFault;

/// Where the records begin: behind the home address's flag, cylinder and head.
pub const RECORDS_START: usize = 5;

/// Cylinder, head, record number, key length and data length.
pub const COUNT_LENGTH: usize = 8;

/// What ends the records of a track.
pub const END_MARK: [u8; COUNT_LENGTH] = [255; COUNT_LENGTH];

/// The key length and the data length that a count area gives.
pub fn lengths(count: &[u8]) -> (u8, u16)
    requires { 8 ≤ length count.now }
    ensures key { result.0 ≡ key_length count.now }
    ensures data { result.1 ≡ data_length count.now }
{
    (count[5], u16::from_be_bytes([count[6], count[7]]))
}

/// The key length that a count area gives.
pub fn key_length(count: &[u8]) -> usize
    requires { 8 ≤ length count.now }
    ensures { result ≡ key_length count.now }
{
    usize::from(lengths(count).0)
}

/// The data length that a count area gives.
pub fn data_length(count: &[u8]) -> usize
    requires { 8 ≤ length count.now }
    ensures { result ≡ data_length count.now }
{
    usize::from(lengths(count).1)
}

/// How many bytes the key and the data of a count area take together.
pub fn body_length(count: &[u8]) -> usize
    requires { 8 ≤ length count.now }
    ensures { result ≡ body_length count.now }
{
    key_length(count) + data_length(count)
}

/// The size of the record at an offset, or `None` at the end mark.
pub fn record_size_at(slot: &[u8], at: usize) -> Result<Option<usize>, SlotFault>
    requires { at ≤ length slot.now }
    ensures { result ≡ size_at at (drop at slot.now) }
{
    let rest = &slot[at..];
    if rest.len() < COUNT_LENGTH {
        return Err(SlotFault::NoEnd(at));
    }
    if rest[..COUNT_LENGTH] == END_MARK[..] {
        return Ok(None);
    }
    let size = COUNT_LENGTH + body_length(rest);
    if rest.len() < size {
        return Err(SlotFault::RecordPastEnd(at));
    }
    Ok(Some(size))
}

/// How many records the slot spells.
#[tactic(auto, using(crate::proofs::Reading::counting))]
pub fn count_records(slot: &[u8]) -> Result<usize, SlotFault>
    ensures { result ≡ number_of_records (track_of slot.now) }
{
    if slot.len() < RECORDS_START {
        return Err(SlotFault::NoEnd(0));
    }
    let mut at = RECORDS_START;
    let mut records = 0;
    while let Some(size) = record_size_at(slot, at)? {
        at += size;
        records += 1;
    }
    Ok(records)
}

/// The size of the record at an offset.
fn record_size(slot: &[u8], at: usize) -> usize
    requires { at + 8 ≤ length slot.now }
    ensures { result ≡ 8 + body_length (drop at slot.now) }
{
    COUNT_LENGTH + body_length(&slot[at..])
}

/// Where record `i` begins.
#[tactic(auto, using(crate::proofs::Offsets::walking))]
pub fn offset_of(slot: &[u8], i: usize) -> usize
    requires { i < length (track_in slot.now).records }
    ensures { result ≡ slice_index (record_offsets (track_in slot.now)) i }
{
    let mut at = RECORDS_START;
    for _ in 0..i {
        at += record_size(slot, at);
    }
    at
}

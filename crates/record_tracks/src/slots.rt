//! The slots of tracks with records.

ghost use Rattle.std.specs.Prelude.{◌≡◌, ◌≤◌, ◌<◌, ◌+◌, ◌-◌, length, take, drop, All};
ghost use Rattle.ckd_track.specs.Geometry.{tracks_of, IsGeometry};
ghost use Rattle.ckd_track.specs.Track.{record_bytes};
ghost use Rattle.record_tracks.specs.Records.{areas_of, all_areas, RecordGoesOn};
ghost use Rattle.record_tracks.specs.Tracks.{fitting_on, track_bytes, record_with, loaded_slot};
ghost use Rattle.record_tracks.specs.Writing.{count_area_of, track_front, records_front};
ghost use Rattle.record_tracks.specs.Filled.{filled, PutBehind};

use crate::appending::{append, clear};
use crate::records::{NewRecord, record_at};
use crate::tracks::fitting;
use ckd_track::Geometry;

/// What stands behind the last record of a track.
const END_MARK: [u8; 8] = [0xFF; 8];

/// Writes the slot of a track with as many records as it has room for, from one of them on: home address, record 0, and records 1 and so on
/// with their keys. It answers which record the next track begins with. A track for which nothing is left has record 0 alone.
pub fn load_track(
    slot: &mut [u8],
    geometry: Geometry,
    track: u32,
    blocks: &[NewRecord],
    from: usize,
) -> usize
    requires there { track < tracks_of geometry }
    requires geometry { IsGeometry geometry }
    requires room { length slot.old ≡ geometry.track_size }
    requires each { All (RecordGoesOn geometry.model) blocks.now }
    requires number { from ≤ length blocks.now }
    ensures slot { slot.new ≡ loaded_slot geometry track (drop from (all_areas blocks.now)) }
    ensures next { result ≡ from + fitting_on geometry.model (drop from (all_areas blocks.now)) }
    ensures within { result ≤ length blocks.now }
{
    let next = from + fitting(geometry.model, blocks, from);
    let at = spell_records(slot, geometry, track, blocks, (from, next));
    append(slot, at, &END_MARK);
    next
}

// Cylinder and head of a track, by its number on the volume.
fn track_bytes(geometry: Geometry, track: u32) -> [u8; 4]
    requires { track < tracks_of geometry }
    ensures { result ≡ track_bytes geometry track }
{
    let heads = u32::from(geometry.model.heads());
    let [c0, c1] = ((track / heads) as u16).to_be_bytes();
    let [h0, h1] = ((track % heads) as u16).to_be_bytes();
    [c0, c1, h0, h1]
}

// The count area of a record.
fn count_bytes(track: [u8; 4], number: u8, block: NewRecord) -> [u8; 8]
    requires key { length block.key.now < 256 }
    requires bytes { length block.bytes.now < 65536 }
    ensures { result ≡ count_area_of track number (length block.entry.key.now) (length block.entry.bytes.now) }
{
    let [c0, c1, h0, h1] = track;
    let [d0, d1] = (block.bytes.len() as u16).to_be_bytes();
    [c0, c1, h0, h1, number, block.key.len() as u8, d0, d1]
}

// Writes a record behind the bytes that a slot begins with, and answers where the next one goes.
fn append_record(slot: &mut [u8], at: usize, track: [u8; 4], number: u8, block: NewRecord) -> usize
    requires key { length block.key.now < 256 }
    requires bytes { length block.bytes.now < 65536 }
    requires room { at + (8 + (length block.key.now + length block.bytes.now)) ≤ length slot.old }
    ensures next { result ≡ at + (8 + (length block.entry.key.now + length block.entry.bytes.now)) }
    ensures same { length slot.new ≡ length slot.old }
    ensures written { PutBehind at (record_bytes (record_with track number (areas_of block.entry))) slot.old slot.new }
{
    let at = append(slot, at, &count_bytes(track, number, block));
    let at = append(slot, at, block.key);
    append(slot, at, block.bytes)
}

// The home address and record 0 of a track.
fn track_front(geometry: Geometry, track: u32) -> [u8; 21]
    requires { track < tracks_of geometry }
    ensures { result ≡ track_front geometry track }
{
    let [c0, c1, h0, h1] = track_bytes(geometry, track);
    [
        // home address, with flag 0
        0, c0, c1, h0, h1,
        // the count area of record 0, with no key and eight bytes of data, and these
        c0, c1, h0, h1, 0, 0, 0, 8, 0, 0, 0, 0, 0, 0, 0, 0,
    ]
}

// Writes a track's home address and record 0 into a slot, with zeros behind them.
fn begin(slot: &mut [u8], geometry: Geometry, track: u32) -> usize
    requires there { track < tracks_of geometry }
    requires room { 21 ≤ length slot.old }
    ensures next { result ≡ 21 }
    ensures same { length slot.new ≡ length slot.old }
    ensures written { slot.new ≡ filled (length slot.old) (track_front geometry track) }
{
    clear(slot);
    append(slot, 0, &track_front(geometry, track))
}

// Writes a track with these records up to its end mark, and answers where that goes.
fn spell_records(
    slot: &mut [u8],
    geometry: Geometry,
    track: u32,
    blocks: &[NewRecord],
    part: (usize, usize),
) -> usize
    requires there { track < tracks_of geometry }
    requires geometry { IsGeometry geometry }
    requires room { length slot.old ≡ geometry.track_size }
    requires each { All (RecordGoesOn geometry.model) blocks.now }
    requires order { part.0 ≤ part.1 }
    requires part { part.1 ≡ part.0 + fitting_on geometry.model (drop part.0 (all_areas blocks.now)) }
    requires number { part.1 ≤ length blocks.now }
    ensures next { result ≡ length (records_front geometry track (take (part.1 - part.0) (drop part.0 (all_areas blocks.now)))) }
    ensures room { result + 8 ≤ length slot.old }
    ensures same { length slot.new ≡ length slot.old }
    ensures written { slot.new ≡ filled (length slot.old) (records_front geometry track
        (take (part.1 - part.0) (drop part.0 (all_areas blocks.now)))) }
{
    let (from, next) = part;
    let id = track_bytes(geometry, track);
    let mut at = begin(slot, geometry, track);
    for k in 0..next - from {
        at = append_record(slot, at, id, (k + 1) as u8, record_at(blocks, from + k));
    }
    at
}

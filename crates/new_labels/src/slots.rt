//! The slots of a new volume with a label.

ghost use Rattle.std.specs.Prelude.{◌≡◌, ◌≤◌, ◌<◌, ◌+◌, ◌*◌, ◌/◌, ◌%◌, ◌++◌, ◌∷◌, [], List, ℕ, length, replicate};
ghost use Rattle.ckd_track.specs.Model.{slot_size_of, heads_of};
ghost use Rattle.ckd_track.specs.Geometry.{tracks_of};
ghost use Rattle.ckd_track.specs.Track.{slot_of, record_bytes};
ghost use Rattle.ckd_track.specs.NewVolume.{new_track};
ghost use Rattle.new_labels.specs.Records.{track_bytes};
ghost use Rattle.new_labels.specs.Labels.{Fits, table_end, blocks_on};
ghost use Rattle.new_labels.specs.Tracks.{with_id, filled, PutBehind, track_front, table_front, label_track, table_track, block_record, labelled_slot};

use crate::blocks::{block_at, block_data, block_key};
use crate::labels::{NewLabel, blocks_on};
use crate::records::{LABEL_NAME, loader_data, record_id, track_bytes, volume_data};
use ckd_track::{Geometry, overwrite};

/// What stands behind the last record of a track.
const END_MARK: [u8; 8] = [0xFF; 8];

/// IPL1 and IPL2 in EBCDIC.
const FIRST_LOADER: [u8; 4] = [0xC9, 0xD7, 0xD3, 0xF1];

const SECOND_LOADER: [u8; 4] = [0xC9, 0xD7, 0xD3, 0xF2];

/// Writes the slot of a track of a new volume with a label.
pub fn spell_labelled_track(slot: &mut [u8], geometry: Geometry, label: &NewLabel, track: u32)
    requires fits { Fits geometry label.now }
    requires there { track < tracks_of geometry }
    requires size { geometry.track_size ≡ slot_size_of geometry.model }
    requires room { length slot.old ≡ geometry.track_size }
    ensures { slot.new ≡ labelled_slot geometry label.now track }
{
    let first = u32::from(label.first);
    let end = first + u32::from(label.tracks);
    if track == 0 {
        spell_label(slot, geometry, label);
        return;
    }
    if first <= track && track < end {
        spell_table(slot, geometry, label, track);
        return;
    }
    spell_bare(slot, geometry, track);
}

// Writes a track that has record 0 alone.
fn spell_bare(slot: &mut [u8], geometry: Geometry, track: u32)
    requires there { track < tracks_of geometry }
    requires room { 29 ≤ length slot.old }
    ensures { slot.new ≡ slot_of (length slot.old) (new_track (track / heads_of geometry.model) (track % heads_of geometry.model)) }
{
    let at = begin(slot, geometry, track);
    append(slot, at, &END_MARK);
}

// Writes bytes behind those that a slot begins with, whose rest is zeros, and answers where the next ones go.
fn append(slot: &mut [u8], at: usize, bytes: &[u8]) -> usize
    requires { at + length bytes.now ≤ length slot.old }
    ensures next { result ≡ at + length bytes.now }
    ensures same { length slot.new ≡ length slot.old }
    ensures written { PutBehind at bytes.now slot.old slot.new }
{
    overwrite(slot, at, bytes);
    at + bytes.len()
}

// What a count area has behind the identifier: how many bytes the key and the data have.
fn length_bytes(key: usize, bytes: usize) -> [u8; 3]
    requires key { key < 256 }
    requires area { bytes < 65536 }
    ensures { result ≡ key ∷ bytes / 256 ∷ bytes % 256 ∷ [] }
{
    let [d0, d1] = (bytes as u16).to_be_bytes();
    [key as u8, d0, d1]
}

// Writes a record behind the bytes that a slot begins with, and answers where the next one goes.
fn append_record(slot: &mut [u8], at: usize, id: [u8; 5], key: &[u8], bytes: &[u8]) -> usize
    requires key { length key.now < 256 }
    requires area { length bytes.now < 65536 }
    requires room { at + (8 + (length key.now + length bytes.now)) ≤ length slot.old }
    ensures next { result ≡ at + (8 + (length key.now + length bytes.now)) }
    ensures size { length (record_bytes (with_id id key.now bytes.now)) ≡ 8 + (length key.now + length bytes.now) }
    ensures same { length slot.new ≡ length slot.old }
    ensures written { PutBehind at (record_bytes (with_id id key.now bytes.now)) slot.old slot.new }
{
    let at = append(slot, at, &id);
    let at = append(slot, at, &length_bytes(key.len(), bytes.len()));
    let at = append(slot, at, key);
    append(slot, at, bytes)
}

// The home address and record 0 of a track.
fn track_front(geometry: Geometry, track: u32) -> [u8; 21]
    requires { track < tracks_of geometry }
    ensures { result ≡ track_front (track_bytes geometry track) }
{
    let [c0, c1, h0, h1] = track_bytes(geometry, track);
    [
        // home address, with flag 0
        0, c0, c1, h0, h1,
        // the count area of record 0, with no key and eight bytes of data, and these
        c0, c1, h0, h1, 0, 0, 0, 8, 0, 0, 0, 0, 0, 0, 0, 0,
    ]
}

// Has all bytes of a slot zero.
fn clear(slot: &mut [u8])
    ensures { slot.new ≡ replicate (length slot.old) 0 }
{
    slot.fill(0);
}

// Writes a track's home address and record 0 into a slot, with zeros behind them.
fn begin(slot: &mut [u8], geometry: Geometry, track: u32) -> usize
    requires there { track < tracks_of geometry }
    requires room { 21 ≤ length slot.old }
    ensures next { result ≡ 21 }
    ensures same { length slot.new ≡ length slot.old }
    ensures written { slot.new ≡ filled (length slot.old) (track_front (track_bytes geometry track)) }
{
    clear(slot);
    append(slot, 0, &track_front(geometry, track))
}

// Writes the track of the label.
fn spell_label(slot: &mut [u8], geometry: Geometry, label: &NewLabel)
    requires fits { Fits geometry label.now }
    requires room { 313 ≤ length slot.old }
    ensures { slot.new ≡ slot_of (length slot.old) (label_track geometry label.now) }
{
    let at = begin(slot, geometry, 0);
    let first = record_id(geometry, 0, 1);
    let at = append_record(slot, at, first, &FIRST_LOADER, &loader_data());
    let second = record_id(geometry, 0, 2);
    let at = append_record(slot, at, second, &SECOND_LOADER, &[0; 144]);
    let third = record_id(geometry, 0, 3);
    let at = append_record(slot, at, third, &LABEL_NAME, &volume_data(geometry, label));
    append(slot, at, &END_MARK);
}

// Writes a track of the table.
fn spell_table(slot: &mut [u8], geometry: Geometry, label: &NewLabel, track: u32)
    requires fits { Fits geometry label.now }
    requires behind { label.now.first ≤ track }
    requires before { track < table_end label.now }
    requires room { 29 + 148 * blocks_on geometry.model ≤ length slot.old }
    ensures { slot.new ≡ slot_of (length slot.old) (table_track geometry label.now track) }
{
    let at = spell_blocks(slot, geometry, label, track);
    append(slot, at, &END_MARK);
}

// Writes a track of the table up to its end mark, and answers where that goes.
fn spell_blocks(slot: &mut [u8], geometry: Geometry, label: &NewLabel, track: u32) -> usize
    requires fits { Fits geometry label.now }
    requires behind { label.now.first ≤ track }
    requires before { track < table_end label.now }
    requires room { 29 + 148 * blocks_on geometry.model ≤ length slot.old }
    ensures next { length (table_front geometry label.now track (blocks_on geometry.model)) ≡ result }
    ensures room { result + 8 ≤ length slot.old }
    ensures same { length slot.new ≡ length slot.old }
    ensures written { slot.new ≡ filled (length slot.old) (table_front geometry label.now track (blocks_on geometry.model)) }
{
    let mut at = begin(slot, geometry, track);
    for number in 0..blocks_on(geometry.model) {
        at = append_block(slot, at, geometry, label, (track, number + 1));
    }
    at
}

// Writes the block in the record of this number on this track behind those that a slot begins with.
fn append_block(
    slot: &mut [u8],
    at: usize,
    geometry: Geometry,
    label: &NewLabel,
    place: (u32, u8),
) -> usize
    requires fits { Fits geometry label.now }
    requires behind { label.now.first ≤ place.0 }
    requires before { place.0 < table_end label.now }
    requires number { 1 ≤ place.1 }
    requires room { at + 148 ≤ length slot.old }
    ensures next { result ≡ at + 148 }
    ensures size { length (record_bytes (block_record geometry label.now place.0 place.1)) ≡ 148 }
    ensures same { length slot.new ≡ length slot.old }
    ensures written { PutBehind at (record_bytes (block_record geometry label.now place.0 place.1)) slot.old slot.new }
{
    let (track, number) = place;
    let block = block_at(geometry, label, track, number);
    let id = record_id(geometry, track, number);
    let key = block_key(geometry, label, block);
    append_record(slot, at, id, &key, &block_data(geometry, label, block))
}

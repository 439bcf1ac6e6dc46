//! Writes into a slot, in place. No call takes memory.
//!
//! Afterwards the slot is exactly the spelling of the one changed track, followed by zeros (component descriptions of
//! the 2841 and the 2314, 'Write Commands'; the CKD_P370 image layout).

ghost use Rattle.std.specs.Prelude.{◌≡◌, ◌≤◌, ◌<◌, ◌+◌, ◌++◌, max, length, replicate, slice_index, bytes_eq, false, IsOk, Ok};
ghost use Rattle.std.specs.Option.{ForSome};
ghost use Rattle.ckd_track.specs.Track.{track_of, track_in, record_in, record_offsets, record_size, slot_of, spelling, end_mark, record_at, body_length};
ghost use Rattle.ckd_track.specs.Changes.{bare_track, with_record, with_data, with_key_data, data_offset, offset_behind, end_offset, overwritten, ended_at};
ghost use Rattle.ckd_track.specs.Changes.{IsZeroFrom};

use crate::walk::{
    COUNT_LENGTH, END_MARK, RECORDS_START, data_length, key_length, offset_of, record_size_at,
};

/// Writes bytes from an offset on, and changes nothing else.
pub fn overwrite(slot: &mut [u8], at: usize, bytes: &[u8])
    requires { at + length bytes.now ≤ length slot.old }
    ensures { slot.new ≡ overwritten slot.old at bytes.now }
{
    slot[at..at + bytes.len()].copy_from_slice(bytes);
}

// Writes so many zeros from an offset on.
fn clear(slot: &mut [u8], at: usize, n: usize)
    requires { at + n ≤ length slot.old }
    ensures { slot.new ≡ overwritten slot.old at (replicate n 0) }
{
    slot[at..at + n].fill(0);
}

/// Writes the end mark at an offset, and zeros behind it.
///
/// From `zeros_from` on, or from behind the end mark on where that is later, all bytes of the slot are zero before, so that
/// only what stands before is cleared. Of a slot of which no more is known that is its length.
#[tactic(auto, using(crate::proofs::Zeros::ends_up_to_zeros))]
pub fn put_end_mark(slot: &mut [u8], at: usize, zeros_from: usize)
    requires room { at + 8 ≤ length slot.old }
    requires zeros { IsZeroFrom slot.old (max zeros_from (at + 8)) }
    ensures { slot.new ≡ ended_at slot.old at }
{
    let behind = at + COUNT_LENGTH;
    overwrite(slot, at, &END_MARK);
    if behind < zeros_from {
        clear(slot, behind, zeros_from - behind);
    }
}

/// Writes a home address, and behind it the end mark and zeros; from `zeros_from` on all bytes of the slot are zero before.
#[tactic(auto, using(crate::proofs::Zeros::zero_front))]
pub fn put_home_address(slot: &mut [u8], home_address: &[u8; 5], zeros_from: usize)
    requires room { 13 ≤ length slot.old }
    requires zeros { IsZeroFrom slot.old zeros_from }
    ensures { slot.new ≡ ended_at (overwritten slot.old 0 home_address.now) 5 }
{
    overwrite(slot, 0, home_address);
    put_end_mark(slot, RECORDS_START, zeros_from);
}

/// Writes these count bytes at an offset, behind them so many zeros, which are the record's key and data, and behind these
/// the end mark and zeros; from `zeros_from` on all bytes of the slot are zero before.
pub fn format_record(slot: &mut [u8], at: usize, count: &[u8; 8], body: usize, zeros_from: usize)
    requires room { at + 8 + body + 8 ≤ length slot.old }
    requires zeros { IsZeroFrom slot.old zeros_from }
    ensures { slot.new ≡ ended_at (overwritten (overwritten slot.old at count.now) (at + 8) (replicate body 0))
        (at + 8 + body) }
{
    let end = at + COUNT_LENGTH + body;
    overwrite(slot, at, count);
    clear(slot, at + COUNT_LENGTH, body);
    put_end_mark(slot, end, zeros_from);
}

/// Writes so many zeros from an offset on, before the end mark, and zeros behind that; from `zeros_from` on all bytes of the
/// slot are zero before.
#[tactic(auto, using(crate::proofs::Zeros::zero_cleared))]
pub fn clear_area(slot: &mut [u8], at: usize, n: usize, end: usize, zeros_from: usize)
    requires area { at + n ≤ end }
    requires end { end + 8 ≤ length slot.old }
    requires zeros { IsZeroFrom slot.old zeros_from }
    ensures { slot.new ≡ ended_at (overwritten slot.old at (replicate n 0)) end }
{
    clear(slot, at, n);
    put_end_mark(slot, end, zeros_from);
}

/// Where the end mark stands, as an offset in the slot.
pub fn end_offset_of(slot: &[u8]) -> usize
    requires { IsOk (track_of slot.now) }
    ensures place { result ≡ end_offset (track_in slot.now) }
    ensures room { result + 8 ≤ length slot.now }
{
    let mut at = RECORDS_START;
    while let Some(size) = record_size_at(slot, at).unwrap_or(None) {
        at += size;
    }
    at
}

// Where record `i` begins; the slot holds all of it, and an end mark behind it.
#[tactic(auto, using(crate::proofs::Offsets::record_within))]
fn record_place(slot: &[u8], i: usize) -> usize
    requires { i < length (track_in slot.now).records }
    ensures place { result ≡ slice_index (record_offsets (track_in slot.now)) i }
    ensures room { result + record_size (record_in (track_in slot.now) i) + 8 ≤ length slot.now }
{
    offset_of(slot, i)
}

/// Where the data area of record `i` begins, as an offset in the slot; also where it is empty.
#[tactic(auto, using(crate::proofs::Offsets::key_at))]
pub fn data_offset_of(slot: &[u8], i: usize) -> usize
    requires { i < length (track_in slot.now).records }
    ensures place { result ≡ data_offset (track_in slot.now) i }
    ensures room { result + length (record_in (track_in slot.now) i).data_area ≤ length slot.now }
{
    let at = record_place(slot, i);
    at + COUNT_LENGTH + key_length(&slot[at..])
}

// Where a new record stands, behind record `after` or as the first.
fn place_behind(slot: &[u8], after: Option<usize>) -> usize
    requires whole { IsOk (track_of slot.now) }
    requires place { ForSome after (λ i. i < length (track_in slot.now).records) }
    ensures { result ≡ offset_behind (track_in slot.now) after }
{
    match after {
        None => RECORDS_START,
        Some(i) => {
            let at = record_place(slot, i);
            let count = &slot[at..];
            at + COUNT_LENGTH + key_length(count) + data_length(count)
        }
    }
}

/// Writes the home address (flag, cylinder and head: 1, 2 and 2 bytes, big-endian) and removes all records. The slot has
/// room for it and the end mark, 13 bytes; it need not spell a track before.
#[tactic(auto, using(crate::proofs::Writing::ha_slot, crate::proofs::Writing::ha_read))]
pub fn write_ha(slot: &mut [u8], ha: [u8; 5])
    requires { 13 ≤ length slot.old }
    ensures slot { slot.new ≡ slot_of (length slot.old) (bare_track ha) }
    ensures read { track_of slot.new ≡ Ok (bare_track ha) }
{
    let zeros_from = slot.len();
    put_home_address(slot, &ha, zeros_from);
}

/// Writes a record behind record `after`, or as the only record, R0, where that is `None`, and removes all records behind
/// it: its eight count bytes, and then its key area and its data area, which `body` gives in whole.
///
/// The new record may not be eight bytes FF, and the changed track with its end mark fits the slot; where
/// [`fits`](crate::fits) has said yes, and the slot has 37 bytes more than the capacity, it is so.
pub fn put_record(slot: &mut [u8], after: Option<usize>, count: [u8; 8], body: &[u8])
    requires whole { IsOk (track_of slot.old) }
    requires place { ForSome after (λ i. i < length (track_in slot.old).records) }
    requires no_end_mark { bytes_eq count end_mark ≡ false }
    requires areas { length body.now ≡ body_length count }
    requires room { length (spelling (with_record after (record_at (count ++ body.now)) (track_in slot.old)))
        ≤ length slot.old }
    ensures slot { slot.new ≡ slot_of (length slot.old)
        (with_record after (record_at (count ++ body.now)) (track_in slot.old)) }
    ensures read { track_of slot.new
        ≡ Ok (with_record after (record_at (count ++ body.now)) (track_in slot.old)) }
{
    let at = place_behind(slot, after);
    let zeros_from = slot.len();
    format_record(slot, at, &count, body.len(), zeros_from);
    overwrite(slot, at + COUNT_LENGTH, body);
}

// Writes bytes in the place of others before the end mark, and zeros behind it.
#[tactic(auto, using(crate::proofs::Zeros::cleared_first))]
fn rewrite(slot: &mut [u8], at: usize, bytes: &[u8])
    requires whole { IsOk (track_of slot.old) }
    requires within { at + length bytes.now ≤ end_offset (track_in slot.old) }
    ensures { slot.new ≡ ended_at (overwritten slot.old at bytes.now) (end_offset (track_in slot.old)) }
{
    let end = end_offset_of(slot);
    let zeros_from = slot.len();
    clear_area(slot, at, bytes.len(), end, zeros_from);
    overwrite(slot, at, bytes);
}

/// Writes the data area of record `i`, which `body` gives in whole.
#[tactic(auto, using(crate::proofs::Writing::areas_before))]
pub fn put_data(slot: &mut [u8], i: usize, body: &[u8])
    requires place { i < length (track_in slot.old).records }
    requires area { length body.now ≡ length (record_in (track_in slot.old) i).data_area }
    ensures slot { slot.new ≡ slot_of (length slot.old) (with_data i body.now (track_in slot.old)) }
    ensures read { track_of slot.new ≡ Ok (with_data i body.now (track_in slot.old)) }
{
    let at = data_offset_of(slot, i);
    rewrite(slot, at, body);
}

/// Writes the key area and the data area of record `i`, which `body` gives in whole.
#[tactic(auto, using(crate::proofs::Writing::areas_before))]
pub fn put_key_data(slot: &mut [u8], i: usize, body: &[u8])
    requires place { i < length (track_in slot.old).records }
    requires areas { length body.now ≡ length (record_in (track_in slot.old) i).key_area
        + length (record_in (track_in slot.old) i).data_area }
    ensures slot { slot.new ≡ slot_of (length slot.old) (with_key_data i body.now (track_in slot.old)) }
    ensures read { track_of slot.new ≡ Ok (with_key_data i body.now (track_in slot.old)) }
{
    let at = record_place(slot, i);
    rewrite(slot, at + COUNT_LENGTH, body);
}

//! A track that can be read, lent from the slot that spells it.

ghost use Rattle.std.specs.Prelude.{◌≡◌, ◌<◌, ◌+◌, ◌↔◌, ◌==◌, length, slice_index, All, Ok, Err, IfSome};
ghost use Rattle.ckd_track.specs.Track.{Track, IsRecord, BeginsWith, Spells, HasFault, track_of, track_in, record_in, count_area, record_offsets, offsets_of};

use crate::fault::SlotFault;
use crate::walk::{COUNT_LENGTH, RECORDS_START, count_records, data_length, key_length, offset_of};
use std::marker::Model;

/// A track that can be read: its home address and its records from R0 on. Each part is lent from the slot, and not
/// copied.
///
/// A view that [`read_slot`] made walks over the records before the one asked for. One that [`view_at`] made finds it by
/// its table.
#[derive(Drop)]
pub struct TrackView<'a> {
    slot: &'a [u8],
    // where each record's count area begins, if a table says it
    offsets: Option<&'a [u32]>,
    records: usize,
}

impl<'a> Model for TrackView<'a> {
    ghost Value = { Track };

    ghost view = { λ v. track_in v.slot.now };

    ghost invariant = { λ v. Spells v.slot.now (track_in v.slot.now)
        × (v.records ≡ length (track_in v.slot.now).records)
        × IfSome v.offsets (λ o. offsets_of v.slot.now ≡ Ok o.now) };
}

impl<'a> TrackView<'a> {
    /// The home address: flag, cylinder and head (1, 2 and 2 bytes, big-endian).
    #[tactic(auto, using(crate::proofs::Offsets::home_in))]
    pub fn ha(&self) -> &'a [u8]
        ensures bytes { result.now ≡ self.now.home_address }
        ensures five { length self.now.home_address ≡ 5 }
    {
        &self.slot[..RECORDS_START]
    }

    /// The number of records, R0 among them.
    pub fn len(&self) -> usize
        ensures number { result ≡ length self.now.records }
        ensures records { All IsRecord self.now.records }
    {
        self.records
    }

    /// Whether the track has no record, not even R0.
    pub fn is_empty(&self) -> bool
        ensures { result ≡ (length self.now.records == 0) }
    {
        self.len() == 0
    }

    /// The count area of record `i`: cylinder, head, record number, key length and data length (2, 2, 1, 1 and 2 bytes,
    /// big-endian).
    pub fn count_of(&self, i: usize) -> &'a [u8]
        requires { i < length self.now.records }
        ensures bytes { result.now ≡ count_area (record_in self.now i) }
        ensures is_record { IsRecord (record_in self.now i) }
    {
        &self.from_record(i)[..COUNT_LENGTH]
    }

    /// The key area of record `i`, which is empty where its key length is 0.
    pub fn key_of(&self, i: usize) -> &'a [u8]
        requires { i < length self.now.records }
        ensures bytes { result.now ≡ (record_in self.now i).key_area }
        ensures is_record { IsRecord (record_in self.now i) }
    {
        let bytes = self.from_record(i);
        &bytes[COUNT_LENGTH..COUNT_LENGTH + key_length(bytes)]
    }

    /// The data area of record `i`, which is empty where its data length is 0.
    pub fn data_of(&self, i: usize) -> &'a [u8]
        requires { i < length self.now.records }
        ensures bytes { result.now ≡ (record_in self.now i).data_area }
        ensures is_record { IsRecord (record_in self.now i) }
    {
        let bytes = self.from_record(i);
        let start = COUNT_LENGTH + key_length(bytes);
        &bytes[start..start + data_length(bytes)]
    }

    /// The slot from record `i`'s count area on.
    #[tactic(auto, using(crate::proofs::Offsets::begins_within))]
    fn from_record(&self, i: usize) -> &'a [u8]
        requires { i < length self.now.records }
        ensures { BeginsWith result.now (record_in self.now i) }
    {
        &self.slot[self.offset(i)..]
    }

    /// Where record `i`'s count area begins in the slot.
    #[tactic(auto, using(crate::proofs::Offsets::placing))]
    fn offset(&self, i: usize) -> usize
        requires { i < length self.now.records }
        ensures { result ≡ slice_index (record_offsets self.now) i }
    {
        match self.offsets {
            Some(offsets) => offsets[i] as usize,
            None => offset_of(self.slot, i),
        }
    }
}

/// Reads a slot. It spells a whole track if it is five bytes of home address, records one after another (eight count
/// bytes, key and data), and eight bytes FF, with any rest (component descriptions of the 2841 and the 2314, 'Track
/// Format'; the CKD_P370 image layout).
///
/// # Errors
///
/// [`SlotFault::NoEnd`] at the offset up to which records stand one after another, where fewer than eight bytes are
/// left there; at 0 for a slot of fewer than five bytes. [`SlotFault::RecordPastEnd`] at such an offset, where a record's
/// count area stands there and the record runs over the slot's end.
pub fn read_slot<'a>(slot: &'a [u8]) -> Result<TrackView<'a>, SlotFault>
    ensures track { result ≡ track_of slot.now }
    ensures whole { (t : Track) → (result ≡ Ok t) ↔ Spells slot.now t }
    ensures fault { (f : SlotFault) → (result ≡ Err f) ↔ HasFault slot.now f }
{
    let records = count_records(slot)?;
    Ok(TrackView {
        slot,
        offsets: None,
        records,
    })
}

/// The view that [`read_slot`] gives of the slot, which finds a record by a table of offsets, as
/// [`index_slot`](crate::index_slot) makes it.
#[tactic(auto, using(crate::proofs::Offsets::viewing))]
pub fn view_at<'a>(slot: &'a [u8], offsets: &'a [u32]) -> TrackView<'a>
    requires { offsets_of slot.now ≡ Ok offsets.now }
    ensures track { track_of slot.now ≡ Ok result }
    ensures whole { Spells slot.now result }
{
    TrackView {
        slot,
        offsets: Some(offsets),
        records: offsets.len(),
    }
}

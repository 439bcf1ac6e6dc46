//! The slot of one track at hand, with a table of where its records stand.

ghost use Rattle.std.specs.Prelude.{◌≡◌, ◌≤◌, ◌<◌, ◌+◌, ◌-◌, ◌/◌, ◌^◌, ◌==◌, max, length, drop, replicate, false, slice_index_or, IfOk, OnOk, OnErr, Ok, Some};
ghost use Rattle.std.specs.Prelude.{[], true};
ghost use Rattle.ckd_track.specs.Track.{track_of, track_in, track_or_none, no_track, slot_of, key_length, data_length};
ghost use Rattle.ckd_track.specs.Geometry.{tracks_of};
ghost use Rattle.ckd_position.specs.Areas.{next_of_kind, IsOnTrack, IfFound};
ghost use Rattle.ckd_track.specs.Changes.{overwritten, bare_track, kept_records, ended_at, IsZeroFrom};
ghost use Rattle.ckd_track.specs.Model.{capacity_of};
ghost use Rattle.std.specs.Option.{ForSome};
ghost use Rattle.ckd_position.specs.Contents.{bytes_of, is_readable, has_no_data, padded, with_record_changed, replaced, kept, record_before};
ghost use Rattle.ckd_position.specs.declared.areas.Area.{Area};
ghost use Rattle.ckd_position.specs.declared.extents.AreaBytes.{AreaBytes};
ghost use Rattle.ckd_slot.specs.Buffer.{Lies, HasBytes, IsPlaceOf, StandsThere, home_address_place, record_place, IsRead, end_of_records, number_up_to};
ghost use Rattle.ckd_slot.specs.Buffer.{SameRecords, FitsSlot, IsUpdateAt, HasUpdateAt, Places, CanMake, made_on};

use crate::charges::Charged;
use crate::windows::Window;
use ckd_image::{Image, ImageStore, StoreFault};
use ckd_position::{Area, AreaBytes, Kind, Next, Position, next_area};
use ckd_track::{
    COUNT_LENGTH, DriveModel, RECORDS_START, body_length, clear_area, data_length, index_slot,
    key_length, overwrite, put_end_mark, put_home_address, view_at,
};
use std::alloc::{AllocError, Global};
use std::marker::Model;

/// A slot, and where its records stand. It is seen as the slot's bytes.
#[derive(Drop)]
pub struct TrackBuffer {
    pub(crate) slot: Vec<u8>,
    /// The offsets of the records' count areas, in order, where the slot reads whole.
    pub(crate) offsets: Vec<u32>,
    /// How many records it has, or `None` where it does not read whole.
    pub(crate) records: Option<usize>,
    /// From here on all bytes of the slot are zero, so that nothing is left there to be cleared.
    pub(crate) zeros_from: usize,
    /// Whether it is known to be just what its track is spelled as, and the zeros to begin behind the end mark.
    pub(crate) exact: bool,
    /// What its first records leave of the capacity, as far as it was asked.
    pub(crate) charged: Charged,
}

impl Model for TrackBuffer {
    ghost use Rattle.std.specs.Prelude.{List, ℕ};
    ghost use Rattle.ckd_slot.specs.Buffer.{IsBuffer};

    ghost Value = { List ℕ };

    ghost view = { λ b. b.slot.items };

    ghost invariant = { λ b. IsBuffer b.slot.items b.offsets.items b.records b.zeros_from b.charged b.exact };
}

// Notes where the records stand, and answers how many there are if the slot reads whole.
fn index(slot: &[u8], offsets: &mut [u32]) -> Option<usize>
    requires size { length slot.now < 2 ^ 32 }
    requires room { (length slot.now - 5) / 8 ≤ length offsets.old }
    ensures { IsRead slot.now offsets.new result }
{
    index_slot(slot, offsets).ok()
}

// How many records stand before one that is made behind this one.
fn records_up_to(before: Option<usize>) -> usize
    requires { ForSome before (λ i. i < 2 ^ 32) }
    ensures { result ≡ number_up_to before }
{
    match before {
        Some(i) => i + 1,
        None => 0,
    }
}

// The record behind which a formatting write makes its own.
fn record_before(after: Option<Area>) -> Option<usize>
    ensures { result ≡ record_before after }
{
    match after {
        Some(Area::Of(_, i)) => Some(i),
        _ => None,
    }
}

// The only area of a track that does not read whole.
fn only_home_address(position: Position, kind: Kind) -> Next
    ensures { result ≡ next_of_kind no_track position kind }
{
    match (position, kind) {
        (Position::AtIndex, Kind::HomeAddress) => Next::Found(Area::HomeAddress),
        _ => Next::IndexPassed,
    }
}

// Where these bytes of the home address stand.
fn home_address_window(extent: AreaBytes) -> Window
    ensures { result ≡ home_address_place extent }
{
    match extent {
        AreaBytes::HomeAddress => Window {
            start: 0,
            len: RECORDS_START,
        },
        AreaBytes::CylinderAndHead => Window {
            start: 1,
            len: RECORDS_START - 1,
        },
        _ => Window { start: 0, len: 0 },
    }
}

// Where these bytes of the record at an offset stand.
#[inline(always)]
fn record_window(slot: &[u8], at: usize, extent: AreaBytes) -> Window
    requires room { at + 8 ≤ length slot.now }
    requires size { length slot.now < 2 ^ 32 }
    ensures { result ≡ record_place extent at (key_length (drop at slot.now)) (data_length (drop at slot.now)) }
{
    let count = &slot[at..];
    let key = key_length(count);
    let data = data_length(count);
    let (start, len) = match extent {
        AreaBytes::Identifier => (at, 5),
        AreaBytes::Count => (at, COUNT_LENGTH),
        AreaBytes::Key => (at + COUNT_LENGTH, key),
        AreaBytes::Data => (at + COUNT_LENGTH + key, data),
        AreaBytes::KeyAndData => (at + COUNT_LENGTH, key + data),
        AreaBytes::CountKeyAndData => (at, COUNT_LENGTH + key + data),
        AreaBytes::Nothing | AreaBytes::CylinderAndHead | AreaBytes::HomeAddress => (0, 0),
    };
    Window { start, len }
}

// The same, and whether the record has no data.
#[inline(always)]
fn record_part(slot: &[u8], at: usize, extent: AreaBytes) -> (Window, bool)
    requires room { at + 8 ≤ length slot.now }
    requires size { length slot.now < 2 ^ 32 }
    ensures place { result.0 ≡ record_place extent at (key_length (drop at slot.now)) (data_length (drop at slot.now)) }
    ensures no_data { result.1 ≡ (data_length (drop at slot.now) == 0) }
{
    (
        record_window(slot, at, extent),
        record_window(slot, at, AreaBytes::Data).len == 0,
    )
}

// Writes so many zeros from an offset on, which are often none, and behind all records the end mark and zeros; from
// `zeros_from` on, or from that offset on where that is later, all bytes of the slot are zero before.
fn end_with_zeros(slot: &mut [u8], at: usize, n: usize, end: usize, zeros_from: usize)
    requires area { at + n ≤ end }
    requires room { end + 8 ≤ length slot.old }
    requires zeros { IsZeroFrom slot.old (max zeros_from at) }
    ensures { slot.new ≡ ended_at (overwritten slot.old at (replicate n 0)) end }
{
    if n == 0 {
        put_end_mark(slot, end, zeros_from);
        return;
    }
    clear_area(slot, at, n, end, zeros_from.max(at));
}

// Writes these bytes at a place and zeros behind them, as many as the place has room for, and behind all records the
// end mark and zeros; from `zeros_from` on, or from the place on where that is later, all bytes of the slot are zero
// before.
#[inline(always)]
fn write_area(slot: &mut [u8], place: Window, bytes: &[u8], end: usize, zeros_from: usize)
    requires area { place.start + place.len ≤ end }
    requires room { end + 8 ≤ length slot.old }
    requires first { length bytes.now ≤ place.len }
    requires zeros { IsZeroFrom slot.old (max zeros_from place.start) }
    ensures { slot.new ≡ ended_at (overwritten slot.old place.start (padded bytes.now place.len)) end }
{
    let rest = place.len - bytes.len();
    end_with_zeros(slot, place.start + bytes.len(), rest, end, zeros_from);
    overwrite(slot, place.start, bytes);
}

// Writes these count bytes before a place, at the place these bytes and zeros behind them, and behind the place the end mark and
// zeros; from `zeros_from` on all bytes of the slot are zero before.
// By itself, since mostly the bytes come whole, and zeros are behind them already.
#[inline(never)]
fn clear_and_write(slot: &mut [u8], count: &[u8; 8], place: Window, bytes: &[u8], zeros_from: usize)
    requires before { 8 ≤ place.start }
    requires room { place.start + place.len + 8 ≤ length slot.old }
    requires first { length bytes.now ≤ place.len }
    requires zeros { IsZeroFrom slot.old zeros_from }
    ensures { slot.new ≡ ended_at (overwritten (overwritten slot.old (place.start - 8) count.now) place.start
        (padded bytes.now place.len)) (place.start + place.len) }
{
    overwrite(slot, place.start - COUNT_LENGTH, count);
    write_area(slot, place, bytes, place.start + place.len, zeros_from);
}

// The same, also where nothing is to be cleared.
#[inline(always)]
fn write_record(slot: &mut [u8], count: &[u8; 8], place: Window, bytes: &[u8], zeros_from: usize)
    requires before { 8 ≤ place.start }
    requires room { place.start + place.len + 8 ≤ length slot.old }
    requires first { length bytes.now ≤ place.len }
    requires zeros { IsZeroFrom slot.old zeros_from }
    ensures { slot.new ≡ ended_at (overwritten (overwritten slot.old (place.start - 8) count.now) place.start
        (padded bytes.now place.len)) (place.start + place.len) }
{
    let end = place.start + place.len;
    if bytes.len() < place.len || end + COUNT_LENGTH < zeros_from {
        clear_and_write(slot, count, place, bytes, zeros_from);
        return;
    }
    overwrite(slot, place.start - COUNT_LENGTH, count);
    put_end_mark(slot, end, zeros_from);
    overwrite(slot, place.start, bytes);
}

impl TrackBuffer {
    /// A buffer for slots of this size, and a table that has room for the records of any of them.
    ///
    /// # Errors
    ///
    /// Where there is no such memory.
    pub fn new(alloc: Global, size: u32) -> Result<TrackBuffer, AllocError>
        ensures { IfOk result (λ b. length b ≡ size) }
    {
        let size = size as usize;
        let slot = vec![in alloc; 0; size]?;
        let mut offsets = vec![in alloc; 0; size / COUNT_LENGTH]?;
        let records = index(&slot, &mut offsets);
        Ok(TrackBuffer {
            slot,
            offsets,
            records,
            zeros_from: size,
            exact: false,
            charged: Charged::none(DriveModel::D2314),
        })
    }

    /// The slot's bytes.
    pub fn bytes(&self) -> &[u8]
        ensures { result.now ≡ self.now }
    {
        &self.slot
    }

    /// Loads the slot of a track.
    ///
    /// # Errors
    ///
    /// Where the image's store fails. Then the buffer holds any bytes.
    // By itself, since most looks find their track at hand.
    #[inline(never)]
    pub fn load<S: ImageStore>(
        &mut self,
        image: &mut Image<S>,
        track: u32,
    ) -> Result<(), StoreFault>
        requires exists { track < tracks_of image.old.geometry }
        requires size { length self.old ≡ image.old.geometry.track_size }
        ensures slot { OnOk result (self.new ≡ slice_index_or image.old.slots track []) }
        ensures ok { OnOk result (image.new ≡ record image.old { loads = image.old.loads + 1 }) }
        ensures err { OnErr result (image.new ≡ record image.old {
          loads = image.old.loads + 1;
          failures = image.old.failures + 1;
        }) }
        ensures length { length self.new ≡ length self.old }
    {
        let answer = image.load(track, &mut self.slot);
        self.zeros_from = self.slot.len();
        self.exact = false;
        self.records = index(&self.slot, &mut self.offsets);
        self.charged.keep(0);
        answer
    }

    /// Whether the slot reads whole.
    pub fn is_readable(&self) -> bool
        ensures { result ≡ is_readable (track_of self.now) }
    {
        self.records.is_some()
    }

    /// The next area of this kind behind the position. A slot that does not read whole has no more than its home address.
    #[inline(always)]
    pub fn next_area(&self, position: Position, kind: Kind) -> Next
        ensures next { result ≡ next_of_kind (track_or_none (track_of self.now)) position kind }
        ensures on_track { IfFound result (IsOnTrack (track_or_none (track_of self.now))) }
    {
        match self.records {
            Some(n) => next_area(&view_at(&self.slot, &self.offsets[..n]), position, kind),
            None => only_home_address(position, kind),
        }
    }

    /// Where these bytes of an area stand, an empty part where there are none; and whether its record has no data, or is
    /// not there.
    #[inline(always)]
    pub fn part(&self, extent: AreaBytes, area: Area) -> (Window, bool)
        requires readable { is_readable (track_of self.now) ≡ true }
        requires on_track { HasBytes extent (track_of self.now) area }
        ensures lies { Lies self.now result.0 (bytes_of extent (track_of self.now) area) }
        ensures place { IsPlaceOf extent (track_in self.now) area result.0 }
        ensures no_data { result.1 ≡ has_no_data (track_of self.now) (Some area) }
    {
        match area {
            Area::HomeAddress => (home_address_window(extent), false),
            Area::Of(_, i) => match self.offset_of(i) {
                Some(at) => record_part(&self.slot, at, extent),
                None => (Window { start: 0, len: 0 }, true),
            },
        }
    }

    // How many records there are.
    fn count(&self) -> usize
        requires { is_readable (track_of self.now) ≡ true }
        ensures { result ≡ length (track_in self.now).records }
    {
        self.records.unwrap_or(0)
    }

    // Where record `i` stands, if it is there.
    fn offset_of(&self, i: usize) -> Option<usize>
        requires { is_readable (track_of self.now) ≡ true }
        ensures { StandsThere self.now i result }
    {
        let Some(n) = self.records else {
            return None;
        };
        if i >= n {
            return None;
        }
        Some(self.offsets[i] as usize)
    }

    // Where the first records end, so many of them.
    fn end_of(&self, records: usize) -> usize
        requires readable { is_readable (track_of self.now) ≡ true }
        requires there { records ≤ length (track_in self.now).records }
        ensures place { result ≡ end_of_records (track_in self.now) records }
        ensures room { result + 8 ≤ length self.now }
    {
        // a slot that reads whole has a home address and an end mark, also where no record stands
        let _slot = &self.slot;
        if records == 0 {
            return RECORDS_START;
        }
        match self.offset_of(records - 1) {
            Some(at) => at + record_window(&self.slot, at, AreaBytes::CountKeyAndData).len,
            None => RECORDS_START,
        }
    }

    // The record behind which a formatting write makes its own, as far as the track has it.
    fn before(&self, after: Option<Area>) -> Option<usize>
        requires { is_readable (track_of self.now) ≡ true }
        ensures kept { kept_records result (track_in self.now) ≡ kept (track_of self.now) after }
        ensures there { ForSome result (λ i. i < length (track_in self.now).records) }
    {
        let Some(i) = record_before(after) else {
            return None;
        };
        let n = self.count();
        if n == 0 {
            return None;
        }
        Some(i.min(n - 1))
    }

    /// Writes the home address, and removes all records.
    pub fn write_home_address(&mut self, home_address: [u8; 5])
        requires { 13 ≤ length self.old }
        ensures slot { self.new ≡ slot_of (length self.old) (bare_track home_address) }
        ensures size { length self.new ≡ length self.old }
    {
        put_home_address(&mut self.slot, &home_address, self.zeros_from);
        self.records = Some(0);
        self.zeros_from = RECORDS_START + COUNT_LENGTH;
        self.exact = false;
        self.charged.keep(0);
    }

    /// The number that a record of these count bytes would have behind the kept ones, and where its key and data would stand, if
    /// it fits the track. The slot stays.
    pub fn place_for(
        &mut self,
        model: DriveModel,
        after: Option<Area>,
        count: [u8; 8],
    ) -> Option<(usize, Window)>
        requires readable { is_readable (track_of self.old) ≡ true }
        requires size { capacity_of model + 37 ≤ length self.old }
        ensures places { Places model (length self.old) after count (track_of self.old) result }
        ensures stays { self.new ≡ self.old }
    {
        let kept = records_up_to(self.before(after));
        let at = self.end_of(kept);
        let n = self.records.unwrap_or(0);
        let view = view_at(&self.slot, &self.offsets[..n]);
        if !self.charged.fits(model, &view, kept, &count) {
            return None;
        }
        let start = at + COUNT_LENGTH;
        let len = body_length(&count);
        Some((kept, Window { start, len }))
    }

    /// Writes a record of this number and of these count bytes, whose key and data stand at this place, and removes all records
    /// behind it. These bytes are the first of its key and data, and those behind them are zeros.
    ///
    /// The new record may not be eight bytes FF, and the changed track fits the slot; where
    /// [`place_for`](TrackBuffer::place_for) has answered number and place, it is so.
    pub fn format(&mut self, number: usize, count: [u8; 8], place: Window, bytes: &[u8])
        requires readable { is_readable (track_of self.old) ≡ true }
        requires can { CanMake (length self.old) (track_of self.old) number count place bytes.now }
        ensures slot { self.new ≡ overwritten (slot_of (length self.old) (made_on (track_of self.old) number count)) place.start
            bytes.now }
        ensures size { length self.new ≡ length self.old }
    {
        let zeros_from = self.zeros_from;
        // noted first, so that the copy is the last that is done
        self.offsets[number] = (place.start - COUNT_LENGTH) as u32;
        self.records = Some(number + 1);
        self.zeros_from = place.start + place.len + COUNT_LENGTH;
        self.exact = false;
        self.charged.keep(number);
        write_record(&mut self.slot, &count, place, bytes, zeros_from);
    }

    /// Puts these bytes, and zeros behind them, in the place of the bytes that an update changes in a record, and zeros
    /// behind the end mark. The place is that of the data, or of the key and data, of a record that stands on the track, as
    /// [`part`](TrackBuffer::part) answers it, and has room for the bytes. The track fits the slot, before and afterwards.
    pub fn replace(&mut self, place: Window, bytes: &[u8])
        requires readable { is_readable (track_of self.old) ≡ true }
        requires there { HasUpdateAt (track_in self.old) place }
        requires first { length bytes.now ≤ place.len }
        ensures slot { (e : AreaBytes) (a : Area) → IsUpdateAt (track_in self.old) e a place → self.new ≡
            slot_of (length self.old) (with_record_changed (replaced e bytes.now) a (track_in self.old)) }
        ensures fits { (e : AreaBytes) (a : Area) → IsUpdateAt (track_in self.old) e a place →
            FitsSlot (length self.old) (with_record_changed (replaced e bytes.now) a (track_in self.old)) }
        ensures fitted { FitsSlot (length self.old) (track_in self.old) }
        ensures size { length self.new ≡ length self.old }
    {
        // mostly there are zeros behind the end mark since an update before it
        if self.exact && bytes.len() == place.len {
            overwrite(&mut self.slot, place.start, bytes);
            return;
        }
        self.replace_and_clear(place, bytes);
    }

    // The same, also where something is to be cleared.
    // By itself, since that is mostly a track's first update.
    #[inline(never)]
    fn replace_and_clear(&mut self, place: Window, bytes: &[u8])
        requires readable { is_readable (track_of self.old) ≡ true }
        requires there { HasUpdateAt (track_in self.old) place }
        requires first { length bytes.now ≤ place.len }
        ensures slot { (e : AreaBytes) (a : Area) → IsUpdateAt (track_in self.old) e a place → self.new ≡
            slot_of (length self.old) (with_record_changed (replaced e bytes.now) a (track_in self.old)) }
        ensures size { length self.new ≡ length self.old }
    {
        let end = self.end_of(self.count());
        let zeros_from = self.zeros_from;
        // noted first, so that the copy is the last that is done
        self.zeros_from = end + COUNT_LENGTH;
        self.exact = true;
        write_area(&mut self.slot, place, bytes, end, zeros_from);
    }

    /// Puts other bytes into the slot, where its records keep their lengths, and so their places.
    pub fn put(&mut self, at: usize, bytes: &[u8])
        requires room { at + length bytes.now ≤ length self.old }
        requires records { SameRecords self.old (overwritten self.old at bytes.now) }
        ensures slot { self.new ≡ overwritten self.old at bytes.now }
        ensures size { length self.new ≡ length self.old }
    {
        // noted first, so that the copy is the last that is done
        self.zeros_from = self.zeros_from.max(at + bytes.len());
        self.exact = false;
        overwrite(&mut self.slot, at, bytes);
    }
}

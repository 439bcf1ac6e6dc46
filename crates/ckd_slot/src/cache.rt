//! An image, with the slot of one track at hand: loaded when it is first wanted, written in place, saved late.

ghost use Rattle.std.specs.Prelude.{◌≡◌, ◌≤◌, ◌<◌, ◌+◌, Some, None, true, false, [], length, unwrap_or, slice_index_or, option_map, IfOk, IfErr, OnOk, OnErr};
ghost use Rattle.std.specs.Prelude.{IsSome};
ghost use Rattle.ckd_track.specs.Geometry.{tracks_of};
ghost use Rattle.ckd_track.specs.Track.{track_of, track_in, slot_of};
ghost use Rattle.ckd_track.specs.Changes.{overwritten, bare_track};
ghost use Rattle.ckd_position.specs.Contents.{is_readable, with_record_changed, replaced};
ghost use Rattle.ckd_position.specs.declared.areas.Area.{Area};
ghost use Rattle.ckd_position.specs.declared.extents.AreaBytes.{AreaBytes};
ghost use Rattle.ckd_slot.specs.Buffer.{SameRecords, FitsSlot, IsUpdateAt, HasUpdateAt, Places, CanMake, made_on};
ghost use Rattle.ckd_slot.specs.Cache.{slot_held, slot_at_hand, with_held, holds, after_hold, after_failed_hold, after_save, after_failed_save, IsVolume};

use crate::buffer::TrackBuffer;
use crate::windows::Window;
use ckd_image::{Image, ImageStore, StoreFault};
use ckd_position::Area;
use ckd_track::Geometry;
use std::alloc::{AllocError, Global};
use std::marker::Model;
use std::mem;

/// An image, and the slot of one track at hand. It is seen as the image, the image's slots with what was written into
/// the one at hand, the number of its track, and whether it was written since it was last saved.
#[derive(Drop)]
pub struct TrackCache<S: ImageStore> {
    pub(crate) image: Image<S>,
    pub(crate) buffer: TrackBuffer,
    pub(crate) held: Option<u32>,
    pub(crate) changed: bool,
}

impl<S: ImageStore> Model for TrackCache<S> {
    ghost use Rattle.ckd_slot.specs.Cache.{CacheState, held_over, Holds};

    ghost Value = { CacheState };

    ghost view = { λ c. record {
      image = c.image;
      slots = held_over c.image.slots c.held c.buffer;
      held = c.held;
      changed = c.changed;
    } };

    ghost invariant = { λ c. Holds c.image c.held c.changed c.buffer };
}

impl<S: ImageStore> TrackCache<S> {
    /// A cache with no slot at hand.
    ///
    /// It takes all the memory that it ever needs: the slot, and the table of its records.
    ///
    /// # Errors
    ///
    /// Where there is no such memory the image comes back.
    pub fn new(alloc: Global, image: Image<S>) -> Result<TrackCache<S>, (AllocError, Image<S>)>
        ensures ok { IfOk result (λ c. c ≡ record {
          image = image;
          slots = image.slots;
          held = None;
          changed = false;
        }) }
        ensures err { IfErr result (λ e. e.1 ≡ image) }
    {
        match TrackBuffer::new(alloc, image.geometry().track_size) {
            Ok(buffer) => Ok(TrackCache {
                image,
                buffer,
                held: None,
                changed: false,
            }),
            Err(fault) => Err((fault, image)),
        }
    }

    /// The geometry of the image.
    pub fn geometry(&self) -> Geometry
        ensures geometry { result ≡ self.now.image.geometry }
        ensures volume { IsVolume self.now }
    {
        self.image.geometry()
    }

    /// The image, without what was written and not saved.
    pub fn image(&self) -> &Image<S>
        ensures { result.now ≡ self.now.image }
    {
        &self.image
    }

    /// Takes another image in the place of this one, whose slots are as large, with no slot at hand. Gives back the one that was
    /// here, without what was written and not saved.
    pub fn exchange(&mut self, image: Image<S>) -> Image<S>
        requires size { image.geometry.track_size ≡ self.old.image.geometry.track_size }
        ensures now { self.new ≡ record { image = image; slots = image.slots; held = None; changed = false } }
        ensures before { result ≡ self.old.image }
    {
        // the geometry is that of an image, so that there is a first track
        let _geometry = image.geometry();
        self.held = None;
        self.changed = false;
        mem::replace(&mut self.image, image)
    }

    /// Has the slot of a track at hand, which is loaded where that of another is: one of which nothing is to be saved.
    ///
    /// # Errors
    ///
    /// Where the load fails no slot is at hand.
    #[inline(always)]
    pub fn hold(&mut self, track: u32) -> Result<(), StoreFault>
        requires there { track < tracks_of self.old.image.geometry }
        requires clean { self.old.changed ≡ true → self.old.held ≡ Some track }
        ensures ok { OnOk result (self.new ≡ after_hold self.old track) }
        ensures err { OnErr result (self.new ≡ after_failed_hold self.old) }
        ensures fails { OnErr result (holds self.old.held track ≡ false) }
    {
        if self.held == Some(track) {
            return Ok(());
        }
        self.held = None;
        self.buffer.load(&mut self.image, track)?;
        self.held = Some(track);
        Ok(())
    }

    /// The slot of a track, lent, if it is the one at hand.
    pub fn at_hand(&self, track: u32) -> Option<&TrackBuffer>
        ensures { option_map (λ b. b.now) result ≡ slot_at_hand self.now track }
    {
        if self.held != Some(track) {
            return None;
        }
        Some(&self.buffer)
    }

    /// The slot at hand.
    pub fn buffer(&self) -> &TrackBuffer
        requires { IsSome self.now.held }
        ensures slot { result.now ≡ slot_held self.now }
        ensures size { length result.now ≡ self.now.image.geometry.track_size }
    {
        &self.buffer
    }

    /// Writes the home address into the slot at hand, and removes all records.
    pub fn write_home_address(&mut self, home_address: [u8; 5])
        requires held { IsSome self.old.held }
        ensures { self.new ≡ with_held self.old (slot_of self.old.image.geometry.track_size (bare_track home_address)) }
    {
        // the geometry is that of an image, so that a slot has room for a home address and the end mark
        let _geometry = self.image.geometry();
        // noted first, so that the copy is the last that is done
        self.changed = true;
        self.buffer.write_home_address(home_address);
    }

    /// The number that a record of these count bytes would have in the slot at hand behind the kept ones, and where its key and
    /// data would stand, if it fits the track. The slot stays.
    pub fn place_for(&mut self, after: Option<Area>, count: [u8; 8]) -> Option<(usize, Window)>
        requires held { IsSome self.old.held }
        requires readable { is_readable (track_of (slot_held self.old)) ≡ true }
        ensures places { Places self.old.image.geometry.model self.old.image.geometry.track_size after count
            (track_of (slot_held self.old)) result }
        ensures stays { self.new ≡ self.old }
    {
        self.buffer
            .place_for(self.image.geometry().model, after, count)
    }

    /// Writes a record of this number and of these count bytes into the slot at hand, whose key and data stand at this place, as
    /// [`place_for`](TrackCache::place_for) answers them, and removes all records behind it. These bytes are the first of its
    /// key and data, and those behind them are zeros.
    pub fn format(&mut self, number: usize, count: [u8; 8], place: Window, bytes: &[u8])
        requires held { IsSome self.old.held }
        requires readable { is_readable (track_of (slot_held self.old)) ≡ true }
        requires can { CanMake self.old.image.geometry.track_size (track_of (slot_held self.old)) number count place
            bytes.now }
        ensures { self.new ≡ with_held self.old (overwritten (slot_of self.old.image.geometry.track_size
            (made_on (track_of (slot_held self.old)) number count)) place.start bytes.now) }
    {
        // noted first, so that the copy is the last that is done
        self.changed = true;
        self.buffer.format(number, count, place, bytes);
    }

    /// Puts these bytes, and zeros behind them, in the place of the bytes that an update changes in a record of the
    /// slot at hand, and zeros behind the end mark. The place is that of the data, or of the key and data, of a record that
    /// stands there, and has room for the bytes. The track fits the slot, before and afterwards.
    pub fn replace(&mut self, place: Window, bytes: &[u8])
        requires held { IsSome self.old.held }
        requires readable { is_readable (track_of (slot_held self.old)) ≡ true }
        requires there { HasUpdateAt (track_in (slot_held self.old)) place }
        requires first { length bytes.now ≤ place.len }
        ensures slot { (e : AreaBytes) (a : Area) → IsUpdateAt (track_in (slot_held self.old)) e a place → self.new ≡
            with_held self.old (slot_of self.old.image.geometry.track_size
            (with_record_changed (replaced e bytes.now) a (track_in (slot_held self.old)))) }
        ensures fits { (e : AreaBytes) (a : Area) → IsUpdateAt (track_in (slot_held self.old)) e a place →
            FitsSlot self.old.image.geometry.track_size
            (with_record_changed (replaced e bytes.now) a (track_in (slot_held self.old))) }
        ensures fitted { FitsSlot self.old.image.geometry.track_size (track_in (slot_held self.old)) }
    {
        // noted first, so that the copy is the last that is done
        self.changed = true;
        self.buffer.replace(place, bytes);
    }

    /// Puts other bytes into the slot at hand, where its records keep their lengths, and so their places.
    pub fn put(&mut self, at: usize, bytes: &[u8])
        requires held { IsSome self.old.held }
        requires room { at + length bytes.now ≤ self.old.image.geometry.track_size }
        requires records { SameRecords (slot_held self.old) (overwritten (slot_held self.old) at bytes.now) }
        ensures { self.new ≡ with_held self.old (overwritten (slot_held self.old) at bytes.now) }
    {
        // noted first, so that the copy is the last that is done
        self.changed = true;
        self.buffer.put(at, bytes);
    }

    /// Saves the slot at hand if it was written since it was last saved.
    ///
    /// # Errors
    ///
    /// Where the save fails no slot is at hand, and the image's slot is what the store was left with.
    // The question in line, since most tracks are left as they were.
    #[inline(always)]
    pub fn save(&mut self) -> Result<(), StoreFault>
        ensures ok { OnOk result (self.new ≡ after_save self.old) }
        ensures err { OnErr result (self.new ≡ after_failed_save self.old
            (slice_index_or self.new.image.slots (unwrap_or self.old.held 0) [])) }
        ensures fails { OnErr result (self.old.changed ≡ true) }
        ensures size { OnErr result (length (slice_index_or self.new.image.slots (unwrap_or self.old.held 0) [])
            ≡ self.old.image.geometry.track_size) }
    {
        if !self.changed {
            return Ok(());
        }
        self.save_changed()
    }

    // Saves the slot at hand, which was written.
    #[inline(never)]
    fn save_changed(&mut self) -> Result<(), StoreFault>
        requires { self.old.changed ≡ true }
        ensures ok { OnOk result (self.new ≡ after_save self.old) }
        ensures err { OnErr result (self.new ≡ after_failed_save self.old
            (slice_index_or self.new.image.slots (unwrap_or self.old.held 0) [])) }
        ensures size { OnErr result (length (slice_index_or self.new.image.slots (unwrap_or self.old.held 0) [])
            ≡ self.old.image.geometry.track_size) }
    {
        let Some(track) = self.held else {
            return Ok(());
        };
        self.changed = false;
        match self.image.save(track, self.buffer.bytes()) {
            Ok(()) => Ok(()),
            Err(fault) => {
                self.held = None;
                Err(fault)
            }
        }
    }

    /// The image, without what was written and not saved.
    pub fn into_image(self) -> Image<S>
        ensures { result ≡ self.image }
    {
        let TrackCache {
            image,
            buffer: _,
            held: _,
            changed: _,
        } = self;
        image
    }
}

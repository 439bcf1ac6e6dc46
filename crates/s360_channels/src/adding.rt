//! Channels that are added, and drives that are attached to one of them.

ghost use Rattle.std.specs.Prelude.{◌≡◌, ◌/◌, ◌%◌, Some, slice_set, OnOk, OnErr, IfErr};
ghost use Rattle.s360_words.specs.Storage.{Storage as StorageState};
ghost use Rattle.s360_channels.specs.Adding.{AttachesAt, IsFree, RefusedAs, WhyNot, new_channel};
ghost use Rattle.s360_channels.specs.Channels.{channel_at};
ghost use Rattle.s360_channels.specs.Selectors.{across};

use crate::faults::{AddFault, AttachFault};
use crate::selectors::Selectors;
use ckd_image::{Image, ImageStore};
use s360_channel::Selector;
use std::alloc::Global;

impl<S: ImageStore> Selectors<S> {
    /// Adds a channel with this number and no drives. It takes no memory.
    ///
    /// # Errors
    ///
    /// `BadNumber` and `NumberTaken`, in this order; nothing has changed.
    pub fn add(&mut self, number: u8) -> Result<(), AddFault>
        ensures added { OnOk result (self.new ≡ record self.old {
          channels = slice_set self.old.channels number (Some (new_channel number self.old.size));
        }) }
        ensures free { OnOk result (IsFree number self.old.channels) }
        ensures refused { IfErr result (λ e. RefusedAs number self.old.channels e) }
        ensures same { self.new.size ≡ self.old.size }
        ensures stays { OnErr result (self.new ≡ self.old) }
    {
        let Some(place) = self.place(number) else {
            return Err(AddFault::BadNumber);
        };
        if self.list[place].is_some() {
            return Err(AddFault::NumberTaken);
        }
        let Ok(selector) = Selector::new(number, self.size) else {
            return Err(AddFault::BadNumber);
        };
        self.quiet = false;
        self.list[place] = Some(selector);
        Ok(())
    }

    /// Attaches a drive that holds this image to the channel of the high byte of an address, under its low byte, as
    /// `Channel::attach` does.
    ///
    /// # Errors
    ///
    /// `NoChannel`, and what the channel refuses; the image is handed back, and nothing has changed.
    pub fn attach(
        &mut self,
        alloc: Global,
        address: u16,
        image: Image<S>,
    ) -> Result<(), (AttachFault, Image<S>)>
        ensures attached { (s : StorageState) → OnOk result (AttachesAt (address / 256) (address % 256) image (across self.old s) (across self.new s)) }
        ensures refused { (s : StorageState) → IfErr result (λ e. WhyNot (channel_at (address / 256) (across self.old s)) (address % 256) e.0) }
        ensures handed_back { IfErr result (λ e. e.1 ≡ image) }
        ensures stays { OnErr result (self.new ≡ self.old) }
        ensures same { self.new.size ≡ self.old.size }
    {
        let Some(place) = self.place((address / 256) as u8) else {
            return Err((AttachFault::NoChannel, image));
        };
        let Some(selector) = &mut self.list[place] else {
            return Err((AttachFault::NoChannel, image));
        };
        let Err((fault, image)) = selector.attach(alloc, (address % 256) as u8, image) else {
            self.quiet = false;
            return Ok(());
        };
        Err((AttachFault::Refused(fault), image))
    }
}

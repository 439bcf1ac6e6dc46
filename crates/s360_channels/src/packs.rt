//! Drives that are taken off, and packs that are changed.

ghost use Rattle.std.specs.Prelude.{◌≡◌, ◌/◌, ◌%◌, IfOk, IfErr, OnErr};
ghost use Rattle.s360_words.specs.Storage.{Storage as StorageState};
ghost use Rattle.s360_channels.specs.Channels.{OnChannel, channel_at};
ghost use Rattle.s360_channels.specs.Packs.{ChangesPack, RefusedDetach, RefusedExchange, TakesOff};
ghost use Rattle.s360_channels.specs.Selectors.{across};

use crate::faults::{DetachFault, ExchangeFault};
use crate::selectors::Selectors;
use ckd_image::{Image, ImageStore};

impl<S: ImageStore> Selectors<S> {
    /// Takes the drive at an address off the channel of its high byte, and gives its image back, which holds the drive's volume, as
    /// `Channel::detach` does. It makes no call of a store and takes no memory.
    ///
    /// # Errors
    ///
    /// `NoChannel`, and what the channel refuses; nothing has changed.
    pub fn detach(&mut self, address: u16) -> Result<Image<S>, DetachFault>
        ensures detached { (s : StorageState) → IfOk result (λ image. OnChannel (address / 256) (TakesOff (address % 256) image) ⊥ (across self.old s)
            (across self.new s)) }
        ensures refused { (s : StorageState) → IfErr result (λ e. RefusedDetach (channel_at (address / 256) (across self.old s)) s
            (address % 256) e) }
        ensures stays { OnErr result (self.new ≡ self.old) }
        ensures same { self.new.size ≡ self.old.size }
    {
        let Some(place) = self.place((address / 256) as u8) else {
            return Err(DetachFault::NoChannel);
        };
        let Some(selector) = &mut self.list[place] else {
            return Err(DetachFault::NoChannel);
        };
        let taken = match selector.detach((address % 256) as u8) {
            Ok(image) => image,
            Err(fault) => return Err(DetachFault::Refused(fault)),
        };
        self.quiet = false;
        Ok(taken)
    }

    /// Changes the pack of the drive at an address, at the channel of its high byte, and gives back the one that it had, as
    /// `Channel::exchange` does. It makes no call of a store and takes no memory.
    ///
    /// # Errors
    ///
    /// `NoChannel`, and what the channel refuses; the image is handed back, and nothing has changed.
    pub fn exchange(
        &mut self,
        address: u16,
        image: Image<S>,
    ) -> Result<Image<S>, (ExchangeFault, Image<S>)>
        ensures exchanged { (s : StorageState) → IfOk result (λ before. OnChannel (address / 256) (ChangesPack (address % 256) image before)
            ⊥ (across self.old s) (across self.new s)) }
        ensures refused { (s : StorageState) → IfErr result (λ e. RefusedExchange (channel_at (address / 256) (across self.old s)) s
            (address % 256) image e.0) }
        ensures handed_back { IfErr result (λ e. e.1 ≡ image) }
        ensures stays { OnErr result (self.new ≡ self.old) }
        ensures same { self.new.size ≡ self.old.size }
    {
        let Some(place) = self.place((address / 256) as u8) else {
            return Err((ExchangeFault::NoChannel, image));
        };
        let Some(selector) = &mut self.list[place] else {
            return Err((ExchangeFault::NoChannel, image));
        };
        let before = match selector.exchange((address % 256) as u8, image) {
            Ok(before) => before,
            Err((fault, image)) => return Err((ExchangeFault::Refused(fault), image)),
        };
        self.quiet = false;
        Ok(before)
    }
}

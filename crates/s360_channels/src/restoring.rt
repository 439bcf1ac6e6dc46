//! Channels that become what they were between two programs, as they were saved.

ghost use Rattle.std.specs.Prelude.{◌≡◌, ◌/◌, ◌%◌, IfErr, OnOk, OnErr};
ghost use Rattle.s360_words.specs.Storage.{Storage as StorageState};
ghost use Rattle.s360_channels.specs.Channels.{OnChannel, channel_at};
ghost use Rattle.s360_channels.specs.Restores.{HasPend, PutsBack, RefusedPending, RefusedRestore};
ghost use Rattle.s360_channels.specs.Selectors.{across};

use crate::faults::{PendingFault, RestoreFault};
use crate::selectors::Selectors;
use ckd_image::ImageStore;
use s360_channel::SavedDrive;
use s360_words::Csw;

impl<S: ImageStore> Selectors<S> {
    /// Puts the drive at an address, at the channel of its high byte, where it was as it was saved, as `Channel::restore_drive` does. It
    /// makes no call of a store and takes no memory.
    ///
    /// # Errors
    ///
    /// `NoChannel`, and what the channel refuses; nothing has changed.
    pub fn restore_drive(&mut self, address: u16, saved: SavedDrive) -> Result<(), RestoreFault>
        ensures restored { (s : StorageState) → OnOk result (OnChannel (address / 256) (PutsBack (address % 256) saved) ⊥
            (across self.old s) (across self.new s)) }
        ensures refused { (s : StorageState) → IfErr result (λ e. RefusedRestore (channel_at (address / 256) (across self.old s)) s
            (address % 256) saved e) }
        ensures stays { OnErr result (self.new ≡ self.old) }
        ensures same { self.new.size ≡ self.old.size }
    {
        let Some(place) = self.place((address / 256) as u8) else {
            return Err(RestoreFault::NoChannel);
        };
        let Some(selector) = &mut self.list[place] else {
            return Err(RestoreFault::NoChannel);
        };
        match selector.restore_drive((address % 256) as u8, saved) {
            Ok(()) => {}
            Err(fault) => return Err(RestoreFault::Refused(fault)),
        }
        self.quiet = false;
        Ok(())
    }

    /// Has this channel status word pend for the device at an address, at the channel of its high byte, as `Channel::restore_pending`
    /// does.
    ///
    /// # Errors
    ///
    /// `NoChannel`, and what the channel refuses; nothing has changed.
    pub fn restore_pending(&mut self, address: u16, csw: Csw) -> Result<(), PendingFault>
        ensures pends { (s : StorageState) → OnOk result (OnChannel (address / 256) (HasPend (address % 256) csw) ⊥
            (across self.old s) (across self.new s)) }
        ensures refused { (s : StorageState) → IfErr result (λ e. RefusedPending (channel_at (address / 256) (across self.old s)) s
            (address % 256) csw e) }
        ensures stays { OnErr result (self.new ≡ self.old) }
        ensures same { self.new.size ≡ self.old.size }
    {
        let Some(place) = self.place((address / 256) as u8) else {
            return Err(PendingFault::NoChannel);
        };
        let Some(selector) = &mut self.list[place] else {
            return Err(PendingFault::NoChannel);
        };
        match selector.restore_pending((address % 256) as u8, csw) {
            Ok(()) => {}
            Err(fault) => return Err(PendingFault::Refused(fault)),
        }
        self.quiet = false;
        Ok(())
    }
}

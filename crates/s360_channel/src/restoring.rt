//! A channel becomes what one was between two programs, as it was saved.

ghost use Rattle.std.specs.Prelude.{◌≡◌, IfErr, OnOk, OnErr};
ghost use Rattle.s360_words.specs.Storage.{Storage as StorageState};
ghost use Rattle.s360_laws.specs.Machine.{Machine, device_at};
ghost use Rattle.s360_laws.specs.Soundness.{arm_owes, device_owes};
ghost use Rattle.s360_channel.specs.Channel.{StandsFor};
ghost use Rattle.s360_channel.specs.declared.subchannel.Subchannel.TheVariants.{Idle, Pending};
ghost use Rattle.s360_channel.specs.Restores.{RestoresDrive, WhyNotRestored, WhyNotPending, is_owed, with_pending};
ghost use Rattle.s360_channel.specs.Selector.{KeepsSelector, over};

use crate::channel::Channel;
use crate::faults::{PendingFault, RestoreFault};
use crate::saving::is_ending;
use crate::selector::Selector;
use crate::subchannel::Subchannel;
use attached_drives::SavedDrive;
use ckd_image::ImageStore;
use s360_laws::arm::Arm;
use s360_words::Csw;

impl<S: ImageStore> Selector<S> {
    /// Puts the drive with this low byte of an address where it was as it was saved, as `Channel::restore_drive`.
    ///
    /// # Errors
    ///
    /// Those of `Channel::restore_drive`; nothing has changed.
    pub fn restore_drive(&mut self, device: u8, saved: SavedDrive) -> Result<(), RestoreFault>
        ensures restored { (s : StorageState) (m : Machine) → StandsFor (over self.old s) m
            → OnOk result (RestoresDrive device saved m (over self.old s) (over self.new s)) }
        ensures refused { (s : StorageState) (m : Machine) → StandsFor (over self.old s) m
            → IfErr result (λ e. WhyNotRestored device saved m e) }
        ensures stays { OnErr result (self.new ≡ self.old) }
        ensures same { KeepsSelector self.old self.new }
    {
        let place = match self.free_place(device) {
            Ok(place) => place,
            Err(fault) => return Err(RestoreFault::Held(fault)),
        };
        if !self.drives.has_track(place, saved) {
            return Err(RestoreFault::NoSuchTrack);
        }
        self.drives.restore(place, saved);
        Ok(())
    }

    /// Has this channel status word pend for a device, as `Channel::restore_pending`.
    ///
    /// # Errors
    ///
    /// Those of `Channel::restore_pending`; nothing has changed.
    pub fn restore_pending(&mut self, device: u8, csw: Csw) -> Result<(), PendingFault>
        ensures pends { OnOk result (self.new ≡ record self.old { subchannel = Pending device csw }) }
        ensures stands { (s : StorageState) (m : Machine) → StandsFor (over self.old s) m
            → OnOk result (StandsFor (over self.new s) (with_pending device csw m)) }
        ensures refused { (s : StorageState) (m : Machine) → StandsFor (over self.old s) m
            → IfErr result (λ e. WhyNotPending device csw m e) }
        ensures stays { OnErr result (self.new ≡ self.old) }
        ensures same { KeepsSelector self.old self.new }
    {
        match self.subchannel {
            Subchannel::Idle => {}
            Subchannel::Working(_, _) | Subchannel::Pending(_, _) => return Err(
                PendingFault::NotIdle,
            ),
        }
        if !self.is_owed(device, csw) {
            return Err(PendingFault::NotOwed);
        }
        self.subchannel = Subchannel::Pending(device, csw);
        Ok(())
    }

    // Whether this channel status word may pend for a device: it has channel end; and either it has the device end, or the arm owes it.
    fn is_owed(&self, device: u8, csw: Csw) -> bool
        requires { self.now.subchannel ≡ Idle }
        ensures { (s : StorageState) (m : Machine) → StandsFor (over self.now s) m → result ≡ is_owed device csw m }
    {
        is_ending(csw, self.arm_of(device))
    }

    // What the arm of the drive with this address does; at rest, where there is none.
    fn arm_of(&self, device: u8) -> Arm
        requires { self.now.subchannel ≡ Idle }
        ensures { (s : StorageState) (m : Machine) → StandsFor (over self.now s) m → device_owes (device_at m device) ≡ arm_owes result }
    {
        match self.drives.place_of(device) {
            Some(place) => self.drives.arm(place),
            None => Arm::AtRest,
        }
    }
}

impl<S: ImageStore> Channel<S> {
    /// Puts the drive with this low byte of an address where it was as it was saved, between two programs: what its arm does, the
    /// cylinder, the head and the sense bytes. Its volume, every other drive and the subchannel stay. It makes no call of a store and
    /// takes no memory.
    ///
    /// # Errors
    ///
    /// `Held`, where `detach` would be refused, and `NoSuchTrack`, where the volume has no such cylinder or head, in this order;
    /// nothing has changed.
    pub fn restore_drive(&mut self, device: u8, saved: SavedDrive) -> Result<(), RestoreFault>
        ensures restored { (m : Machine) → StandsFor self.old m → OnOk result (RestoresDrive device saved m self.old self.new) }
        ensures refused { (m : Machine) → StandsFor self.old m → IfErr result (λ e. WhyNotRestored device saved m e) }
        ensures stays { OnErr result (self.new ≡ self.old) }
    {
        self.selector.restore_drive(device, saved)
    }

    /// Has this channel status word pend for the device with this low byte of an address, as behind the end of its program. Drives
    /// stay.
    ///
    /// # Errors
    ///
    /// `NotIdle`, where a program runs or a word pends already, and `NotOwed`, in this order; nothing has changed.
    pub fn restore_pending(&mut self, device: u8, csw: Csw) -> Result<(), PendingFault>
        ensures pends { OnOk result (self.new ≡ record self.old { subchannel = Pending device csw }) }
        ensures stands { (m : Machine) → StandsFor self.old m → OnOk result (StandsFor self.new (with_pending device csw m)) }
        ensures refused { (m : Machine) → StandsFor self.old m → IfErr result (λ e. WhyNotPending device csw m e) }
        ensures stays { OnErr result (self.new ≡ self.old) }
    {
        self.selector.restore_pending(device, csw)
    }
}

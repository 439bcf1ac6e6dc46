//! Drives come to a selector and leave it, and packs are changed. It needs no storage.

ghost use Rattle.std.specs.Prelude.{◌≡◌, ◌++◌, ◌∷◌, [], IfOk, IfErr, OnOk, OnErr};
ghost use Rattle.s360_words.specs.Storage.{Storage as StorageState};
ghost use Rattle.s360_laws.specs.Machine.{Machine};
ghost use Rattle.s360_channel.specs.Channel.{StandsFor, attached};
ghost use Rattle.attached_drives.specs.Drives.{new_attached};
ghost use Rattle.s360_channel.specs.Attaches.{RefusedAs, NotRefused};
ghost use Rattle.s360_channel.specs.Packs.{Detaches, Exchanges, IsFree, WhyHeld, moved_up, waits_for, why_stays, works_at};
ghost use Rattle.s360_channel.specs.Selector.{KeepsSelector, over};

use crate::faults::{AttachFault, DetachFault, ExchangeFault};
use crate::selector::Selector;
use crate::subchannel::Subchannel;
use ckd_image::{Image, ImageStore};
use s360_laws::arm::Arm;
use std::alloc::Global;

impl<S: ImageStore> Selector<S> {
    /// Attaches a drive that holds this image, as `Channel::attach`.
    ///
    /// # Errors
    ///
    /// Those of `Channel::attach`; the image is handed back, and nothing has changed.
    pub fn attach(
        &mut self,
        alloc: Global,
        device: u8,
        image: Image<S>,
    ) -> Result<(), (AttachFault, Image<S>)>
        ensures attached { OnOk result (self.new ≡ record self.old {
          drives = self.old.drives ++ new_attached device image ∷ [];
        }) }
        ensures stands { (s : StorageState) → OnOk result ((m : Machine) → StandsFor (over self.old s) m
            → StandsFor (over self.new s) (attached device image m)) }
        ensures refused { (s : StorageState) → IfErr result (λ e. RefusedAs device (over self.old s) e.0) }
        ensures not_taken { (s : StorageState) → OnOk result (NotRefused device (over self.old s)) }
        ensures stays { OnErr result (self.new ≡ self.old) }
        ensures handed_back { IfErr result (λ e. e.1 ≡ image) }
    {
        if self.drives.place_of(device).is_some() {
            return Err((AttachFault::UnitTaken, image));
        }
        if self.drives.len() == 8 {
            return Err((AttachFault::Full, image));
        }
        let Err((fault, image)) = self.drives.attach(alloc, device, image) else {
            return Ok(());
        };
        Err((AttachFault::OutOfMemory(fault), image))
    }

    /// Takes the drive with this low byte of an address off, as `Channel::detach`.
    ///
    /// # Errors
    ///
    /// Those of `Channel::detach`; nothing has changed.
    pub fn detach(&mut self, device: u8) -> Result<Image<S>, DetachFault>
        ensures detached { (s : StorageState) (m : Machine) → StandsFor (over self.old s) m
            → IfOk result (λ image. Detaches device m image (over self.old s) (over self.new s)) }
        ensures refused { (s : StorageState) (m : Machine) → StandsFor (over self.old s) m
            → IfErr result (λ e. why_stays device m ≡ Some e) }
        ensures stays { OnErr result (self.new ≡ self.old) }
        ensures same { KeepsSelector self.old self.new }
    {
        let place = self.free_place(device)?;
        move_up(place, &mut self.subchannel);
        Ok(self.drives.remove(place))
    }

    /// Changes the pack of the drive with this low byte of an address, as `Channel::exchange`.
    ///
    /// # Errors
    ///
    /// Those of `Channel::exchange`; the image is handed back, and nothing has changed.
    pub fn exchange(
        &mut self,
        device: u8,
        image: Image<S>,
    ) -> Result<Image<S>, (ExchangeFault, Image<S>)>
        ensures exchanged { (s : StorageState) (m : Machine) → StandsFor (over self.old s) m
            → IfOk result (λ before. Exchanges device m image before (over self.old s) (over self.new s)) }
        ensures refused { (s : StorageState) (m : Machine) → StandsFor (over self.old s) m
            → IfErr result (λ e. WhyHeld device image m e.0) }
        ensures stays { OnErr result (self.new ≡ self.old) }
        ensures handed_back { IfErr result (λ e. e.1 ≡ image) }
        ensures same { KeepsSelector self.old self.new }
    {
        let place = match self.free_place(device) {
            Ok(place) => place,
            Err(fault) => return Err((ExchangeFault::Held(fault), image)),
        };
        if !self.drives.fits(place, image.geometry()) {
            return Err((ExchangeFault::OtherPack, image));
        }
        Ok(self.drives.exchange(place, image))
    }

    /// The place of the drive with this address, if nothing is owed of it.
    pub(crate) fn free_place(&self, device: u8) -> Result<usize, DetachFault>
        ensures free { (s : StorageState) → IfOk result (λ place. IsFree device place (over self.now s)) }
        ensures refused { (s : StorageState) (m : Machine) → StandsFor (over self.now s) m
            → IfErr result (λ e. why_stays device m ≡ Some e) }
    {
        let Some(place) = self.drives.place_of(device) else {
            return Err(DetachFault::NoDrive);
        };
        if works_at(place, &self.subchannel) {
            return Err(DetachFault::ProgramRuns);
        }
        if waits_for(device, &self.subchannel) {
            return Err(DetachFault::EndingPends);
        }
        match self.drives.arm(place) {
            Arm::AtRest => Ok(place),
            Arm::InMotion => Err(DetachFault::DeviceEndOwed),
            Arm::Arrived => Err(DetachFault::DeviceEndOwed),
        }
    }
}

// Whether the program that runs is that of the drive at a place.
fn works_at(place: usize, subchannel: &Subchannel) -> bool
    ensures { result ≡ works_at place subchannel.now }
{
    match subchannel {
        Subchannel::Working(at, _) => *at == place,
        Subchannel::Idle | Subchannel::Pending(_, _) => false,
    }
}

// Whether the channel status word that pends is that of the drive with this address.
fn waits_for(device: u8, subchannel: &Subchannel) -> bool
    ensures { result ≡ waits_for device subchannel.now }
{
    match subchannel {
        Subchannel::Pending(pending, _) => *pending == device,
        Subchannel::Idle | Subchannel::Working(_, _) => false,
    }
}

// A program that runs at a place behind one that is taken out moves up.
fn move_up(place: usize, subchannel: &mut Subchannel)
    ensures { subchannel.new ≡ moved_up place subchannel.old }
{
    if let Subchannel::Working(at, _) = subchannel {
        if place < *at {
            *at -= 1;
        }
    }
}

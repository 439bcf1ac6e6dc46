//! Drives are taken off a channel, and packs are changed.

ghost use Rattle.std.specs.Prelude.{◌≡◌, IfOk, IfErr, OnErr, Some};
ghost use Rattle.s360_laws.specs.Machine.{Machine};
ghost use Rattle.s360_channel.specs.Channel.{StandsFor};
ghost use Rattle.s360_channel.specs.Packs.{Detaches, Exchanges, WhyHeld, why_stays};

use crate::channel::Channel;
use crate::faults::{DetachFault, ExchangeFault};
use ckd_image::{Image, ImageStore};

impl<S: ImageStore> Channel<S> {
    /// Takes the drive with this low byte of an address off the channel, and gives its image back, which holds the drive's
    /// volume. Every other drive and the subchannel stay; the drives that were attached later move up by one in the order of
    /// attachment. It makes no call of a store and takes no memory.
    ///
    /// # Errors
    ///
    /// `NoDrive`, `ProgramRuns`, `EndingPends` and `DeviceEndOwed`, in this order; nothing has changed.
    pub fn detach(&mut self, device: u8) -> Result<Image<S>, DetachFault>
        ensures detached { (m : Machine) → StandsFor self.old m
            → IfOk result (λ image. Detaches device m image self.old self.new) }
        ensures refused { (m : Machine) → StandsFor self.old m → IfErr result (λ e. why_stays device m ≡ Some e) }
        ensures stays { OnErr result (self.new ≡ self.old) }
    {
        self.selector.detach(device)
    }

    /// Changes the pack of the drive with this low byte of an address: it has this image from now on, and gives back the one that
    /// it had, which holds the drive's volume. The drive is as one that is attached: its arm is at rest, at cylinder 0 and head 0,
    /// with zero sense bytes. Every other drive, the order of attachment and the subchannel stay. It makes no call of a store and
    /// takes no memory.
    ///
    /// # Errors
    ///
    /// `Held`, where `detach` would be refused, and `OtherPack`, in this order; the image is handed back, and nothing has changed.
    pub fn exchange(
        &mut self,
        device: u8,
        image: Image<S>,
    ) -> Result<Image<S>, (ExchangeFault, Image<S>)>
        ensures exchanged { (m : Machine) → StandsFor self.old m
            → IfOk result (λ before. Exchanges device m image before self.old self.new) }
        ensures refused { (m : Machine) → StandsFor self.old m → IfErr result (λ e. WhyHeld device image m e.0) }
        ensures stays { OnErr result (self.new ≡ self.old) }
        ensures handed_back { IfErr result (λ e. e.1 ≡ image) }
    {
        self.selector.exchange(device, image)
    }
}

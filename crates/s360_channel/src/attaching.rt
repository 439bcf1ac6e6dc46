//! Drives are attached.

ghost use Rattle.std.specs.Prelude.{◌≡◌, ◌++◌, ◌∷◌, [], IfErr, OnOk, OnErr};
ghost use Rattle.s360_laws.specs.Machine.{Machine};
ghost use Rattle.s360_channel.specs.Channel.{StandsFor, attached};
ghost use Rattle.attached_drives.specs.Drives.{new_attached};
ghost use Rattle.s360_channel.specs.Attaches.{RefusedAs, NotRefused};

use crate::channel::Channel;
use crate::faults::AttachFault;
use ckd_image::{Image, ImageStore};
use std::alloc::Global;

impl<S: ImageStore> Channel<S> {
    /// Attaches a drive that holds this image, under this low byte of an address: its arm is at rest, at cylinder 0 and head
    /// 0, with zero sense bytes. It may be called at any time, also while a program runs; nothing else changes.
    ///
    /// It takes all the memory that the drive ever needs.
    ///
    /// # Errors
    ///
    /// `UnitTaken`, `Full` and `OutOfMemory`, in this order; the image is handed back, and nothing has changed.
    pub fn attach(
        &mut self,
        alloc: Global,
        device: u8,
        image: Image<S>,
    ) -> Result<(), (AttachFault, Image<S>)>
        ensures attached { OnOk result (self.new ≡ record self.old {
          drives = self.old.drives ++ new_attached device image ∷ [];
        }) }
        ensures stands { OnOk result ((m : Machine) → StandsFor self.old m
            → StandsFor self.new (attached device image m)) }
        ensures refused { IfErr result (λ e. RefusedAs device self.old e.0) }
        ensures not_taken { OnOk result (NotRefused device self.old) }
        ensures stays { OnErr result (self.new ≡ self.old) }
        ensures handed_back { IfErr result (λ e. e.1 ≡ image) }
    {
        self.selector.attach(alloc, device, image)
    }
}

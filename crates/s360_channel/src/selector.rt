//! A channel without a storage of its own.

ghost use Rattle.std.specs.Prelude.{◌≡◌, ◌<◌, ◌↔◌, [], length, map, IsOk, IfOk};
ghost use Rattle.s360_channel.specs.declared.subchannel.Subchannel.TheVariants.{Idle};
ghost use Rattle.attached_drives.specs.Drives.{AllRest};
ghost use Rattle.attached_drives.specs.Drives.{images_of};
ghost use Rattle.s360_channel.specs.Selector.{IsOver};

use crate::faults::NewFault;
use crate::subchannel::Subchannel;
use attached_drives::Drives;
use ckd_image::{Image, ImageStore};
use s360_storage::MainStorage;
use std::marker::Model;

/// A selector channel with its drives, to which storage is lent for each call that needs it. It asks of its caller that the
/// storage has the selector's size, and nothing else: what others store there between two calls is as if the processor had
/// stored it, also while a program runs.
#[derive(Drop)]
pub struct Selector<S: ImageStore> {
    pub(crate) number: u8,
    pub(crate) size: u32,
    pub(crate) subchannel: Subchannel,
    pub(crate) drives: Drives<S>,
}

impl<S: ImageStore> Model for Selector<S> {
    ghost use Rattle.s360_channel.specs.Selector.{SelectorState, IsSelector};

    ghost Value = { SelectorState };

    ghost view = { λ c. record { number = c.number; size = c.size; subchannel = c.subchannel; drives = c.drives } };

    ghost invariant = { λ c. IsSelector (record { number = c.number; size = c.size; subchannel = c.subchannel; drives = c.drives }) };
}

impl<S: ImageStore> Selector<S> {
    /// A selector with this number, 0 to 6, for storage of this size, with no drives.
    ///
    /// # Errors
    ///
    /// `BadNumber`.
    pub fn new(number: u8, size: u32) -> Result<Selector<S>, NewFault>
        ensures variant { IsOk result ↔ (number < 7) }
        ensures ok { IfOk result (λ c. c ≡ record { number = number; size = size; subchannel = Idle; drives = [] }) }
    {
        if number > 6 {
            return Err(NewFault::BadNumber);
        }
        let drives = Drives::new();
        Ok(Selector {
            number,
            size,
            subchannel: Subchannel::Idle,
            drives,
        })
    }

    /// The size of the storage that it is lent.
    pub fn size(&self) -> u32
        ensures { result ≡ self.now.size }
    {
        self.size
    }

    // What is known of it over a storage of its size; it is known of both as soon as they are read.
    pub(crate) fn is_over<M: MainStorage>(&self, storage: &M)
        requires { length (M.holds storage.now).bytes ≡ self.now.size }
        ensures { IsOver self.now (M.holds storage.now) }
    {
        let _number = self.number;
        let _size = storage.size();
    }

    /// Gives back the image of each drive with the low byte of its address, in the order of attachment, after a reset. Each holds
    /// its drive's volume.
    pub fn into_images(self) -> [Option<(u8, Image<S>)>; 8]
        requires { AllRest self.drives }
        ensures images { result ≡ images_of self.drives }
        ensures volumes { map (λ u. u.drive.image.slots) self.drives ≡ map (λ u. u.drive.state.volume.slots) self.drives }
    {
        let Selector {
            number: _,
            size: _,
            subchannel: _,
            drives,
        } = self;
        drives.into_images()
    }
}

//! A channel, and what comes out of it in the end.

ghost use Rattle.std.specs.Prelude.{◌≡◌, ◌<◌, ◌↔◌, [], IsOk, IfOk, IfErr};
ghost use Rattle.s360_laws.specs.Machine.{Machine};
ghost use Rattle.s360_channel.specs.declared.subchannel.Subchannel.TheVariants.{Idle};
ghost use Rattle.s360_channel.specs.Channel.{StandsFor};
ghost use Rattle.s360_channel.specs.Finishes.{Finishes};

use crate::faults::NewFault;
use crate::selector::Selector;
use ckd_image::{Image, ImageStore};
use s360_words::Storage;
use std::marker::Model;

/// A selector channel with its storage and its drives: a `Selector`, and the storage that each of its calls is lent.
///
/// It stands for a machine of the definitions: each call answers what the machine's event answers, and the channel stands
/// for the next machine afterwards. No call but `attach` and `copy` takes memory. Only `set_key` asks something of its caller: that the key
/// is below 16.
#[derive(Drop)]
pub struct Channel<S: ImageStore> {
    pub(crate) selector: Selector<S>,
    pub(crate) storage: Storage,
}

impl<S: ImageStore> Model for Channel<S> {
    ghost use Rattle.std.specs.Prelude.{◌≡◌, length};
    ghost use Rattle.s360_channel.specs.Channel.{ChannelState};
    ghost use Rattle.s360_channel.specs.Selector.{over};

    ghost Value = { ChannelState };

    ghost view = { λ c. over c.selector c.storage };

    ghost invariant = { λ c. length c.storage.bytes ≡ c.selector.size };
}

/// What a reset answers.
#[derive(Clone, Copy, Debug, PartialEq, Eq)]
pub struct Reset {
    /// Address, cylinder and head of a track that the program that was cut had written, and that could not be saved.
    pub unsaved: Option<(u16, u16, u16)>,
}

/// What a channel was made of, after its last reset.
#[derive(Drop)]
pub struct Finished<S: ImageStore> {
    /// The storage.
    pub storage: Storage,
    /// The image of each drive with the low byte of its address, in the order of attachment.
    pub images: [Option<(u8, Image<S>)>; 8],
    /// What the last reset answered.
    pub reset: Reset,
}

impl<S: ImageStore> Channel<S> {
    /// A channel with this number, 0 to 6, and this storage, with no drives.
    ///
    /// # Errors
    ///
    /// `BadNumber`, and the storage is handed back.
    pub fn new(number: u8, storage: Storage) -> Result<Channel<S>, (NewFault, Storage)>
        ensures variant { IsOk result ↔ (number < 7) }
        ensures ok { IfOk result (λ c. c ≡ record {
          number = number;
          storage = storage;
          subchannel = Idle;
          drives = [];
        }) }
        ensures err { IfErr result (λ e. e.1 ≡ storage) }
    {
        match Selector::new(number, storage.size()) {
            Ok(selector) => Ok(Channel { selector, storage }),
            Err(fault) => Err((fault, storage)),
        }
    }

    /// Resets the channel, and gives back what it was made of. It makes at most one call of a store, which saves a track
    /// that was written.
    pub fn finish(self) -> Finished<S>
        ensures { (m : Machine) → StandsFor self m → Finishes m self result.storage result.images result.reset.unsaved }
    {
        let Channel {
            mut selector,
            storage,
        } = self;
        let reset = selector.reset();
        Finished {
            storage,
            images: selector.into_images(),
            reset,
        }
    }
}

//! Several channels without a storage of their own.

ghost use Rattle.std.specs.Prelude.{◌≡◌, None, length, replicate};
ghost use Rattle.s360_channels.specs.Selectors.{AreOver};

use ckd_image::ImageStore;
use s360_channel::Selector;
use s360_storage::MainStorage;
use std::marker::Model;

/// Selector channels with the numbers 0 to 6, to which one main storage is lent for each call that needs it, as to a `Selector`.
///
/// It asks of its caller that the storage has their size, and nothing else. What others store there between two calls, and what one
/// channel stores for the others, is as if the processor had stored it.
#[derive(Drop)]
pub struct Selectors<S: ImageStore> {
    pub(crate) size: u32,
    pub(crate) list: [Option<Selector<S>>; 7],
    // It is known that no interruption pends at any channel: so a poll need not ask each. A call that may bring one takes that back.
    pub(crate) quiet: bool,
}

impl<S: ImageStore> Model for Selectors<S> {
    ghost use Rattle.s360_channels.specs.Selectors.{SelectorsState};
    ghost use Rattle.s360_channels.specs.Inside.{AllFit};

    ghost Value = { SelectorsState };

    ghost view = { λ c. record { size = c.size; channels = c.list } };

    ghost invariant = { λ c. AllFit c.size c.quiet c.list };
}

impl<S: ImageStore> Selectors<S> {
    /// No channels, for storage of this size. It takes no memory.
    pub fn new(size: u32) -> Selectors<S>
        ensures { result ≡ record { size = size; channels = replicate 7 None } }
    {
        Selectors {
            size,
            list: [None, None, None, None, None, None, None],
            quiet: true,
        }
    }

    /// The size of the storage that they are lent.
    pub fn size(&self) -> u32
        ensures { result ≡ self.now.size }
    {
        self.size
    }

    // What is known of each over a storage of their size; it is known as soon as both are read.
    pub(crate) fn are_over<M: MainStorage>(&self, storage: &M)
        requires { length (M.holds storage.now).bytes ≡ self.now.size }
        ensures { AreOver self.now (M.holds storage.now) }
    {
        let _own = self.size;
        let _size = storage.size();
    }
}

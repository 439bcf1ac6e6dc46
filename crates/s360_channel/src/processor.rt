//! What the processor does to storage, and what a channel shows.

ghost use Rattle.std.specs.Prelude.{◌≡◌, ◌<◌, is_ok, option_map};
ghost use Rattle.s360_laws.specs.Events as machine;
ghost use Rattle.s360_laws.specs.Machine.{Machine, part_of, storage_of};
ghost use Rattle.s360_channel.specs.Channel.{StandsFor};
ghost use Rattle.s360_channel.specs.Calls.{DoesQuietly, CallsNoStore};
ghost use Rattle.s360_channel.specs.Views.{view_of};

use crate::channel::Channel;
use crate::faults::OutsideStorage;
use crate::view::View;
use ckd_image::ImageStore;

impl<S: ImageStore> Channel<S> {
    /// The processor stores these bytes from an address on, also while a program runs.
    ///
    /// # Errors
    ///
    /// A byte would be outside storage; nothing has changed.
    pub fn poke(&mut self, at: u32, bytes: &[u8]) -> Result<(), OutsideStorage>
        ensures does { (m : Machine) → StandsFor self.old m
            → DoesQuietly (machine.Store at bytes.now) m (machine.WasKept (is_ok result)) self.new }
        ensures calls { CallsNoStore self.old self.new }
    {
        if self.storage.put(at, bytes) {
            Ok(())
        } else {
            Err(OutsideStorage)
        }
    }

    /// The processor sets the key, below 16, of the block of storage that has this address, also while a program runs.
    ///
    /// # Errors
    ///
    /// The address is outside storage; nothing has changed.
    pub fn set_key(&mut self, at: u32, key: u8) -> Result<(), OutsideStorage>
        requires { key < 16 }
        ensures does { (m : Machine) → StandsFor self.old m
            → DoesQuietly (machine.SetKey at key) m (machine.WasKept (is_ok result)) self.new }
        ensures calls { CallsNoStore self.old self.new }
    {
        if self.storage.set_key(at, key) {
            Ok(())
        } else {
            Err(OutsideStorage)
        }
    }

    /// These bytes of storage as they are now, also while a program runs; none where one of them is outside.
    pub fn peek(&self, at: u32, len: u32) -> Option<&[u8]>
        ensures bytes { option_map (λ bytes. bytes.now) result ≡ part_of self.now.storage at len }
        ensures does { (m : Machine) → StandsFor self.now m
            → DoesQuietly (machine.Show at len) m (machine.Shown (option_map (λ bytes. bytes.now) result)) self.now }
    {
        self.storage.slice(at, len)
    }

    /// The subchannel and the arms.
    pub fn state(&self) -> View
        ensures { (m : Machine) → StandsFor self.now m → result ≡ view_of m }
    {
        self.selector.state()
    }
}

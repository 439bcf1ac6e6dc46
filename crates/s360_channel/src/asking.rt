//! What an emulator asks of a channel, and a storage that several channels share.

ghost use Rattle.std.specs.Prelude.{◌≡◌, ℕ, length, OnOk, OnErr, option_map};
ghost use Rattle.s360_laws.specs.Machine.{Machine, storage_of};
ghost use Rattle.s360_channel.specs.Channel.{StandsFor};
ghost use Rattle.attached_drives.specs.Drives.{device_of};
ghost use Rattle.s360_channel.specs.Calls.{CallsNoStore};
ghost use Rattle.s360_channel.specs.Shares.{FindsAnother, finding, with_storage};
ghost use Rattle.s360_channel.specs.Views.{ShowsDrive, ShowsVolume, interrupts, key_in, attached_with};
ghost use Rattle.attached_drives.specs.Shown.{drive_seen};

use crate::channel::Channel;
use crate::faults::OtherSize;
use attached_drives::DriveView;
use ckd_image::{Image, ImageStore};
use s360_words::Storage;
use std::mem;

impl<S: ImageStore> Channel<S> {
    /// What is known of the drive with this low byte of an address, without a channel program. While its program runs that is
    /// where the arm is by now, and the sense so far; otherwise it is what the machine has.
    pub fn drive(&self, device: u8) -> Option<DriveView>
        ensures drive { result ≡ option_map (λ u. drive_seen (device_of u)) (attached_with device self.now.drives) }
        ensures shows { (m : Machine) → StandsFor self.now m → ShowsDrive device m result }
    {
        self.selector.drive(device)
    }

    /// The image of the drive with this low byte of an address, lent. While its program does not run it holds the drive's volume;
    /// a track that a running program wrote is in it once that is saved.
    pub fn image(&self, device: u8) -> Option<&Image<S>>
        ensures image { option_map (λ i. i.now) result
            ≡ option_map (λ u. u.drive.image) (attached_with device self.now.drives) }
        ensures shows { (m : Machine) → StandsFor self.now m → ShowsVolume device m (option_map (λ i. i.now) result) }
    {
        self.selector.image(device)
    }

    /// Storage as it is now, also while a program runs, lent.
    pub fn storage(&self) -> &Storage
        ensures storage { result.now ≡ self.now.storage }
        ensures shows { (m : Machine) → StandsFor self.now m → result.now ≡ storage_of m m.subchannel }
    {
        &self.storage
    }

    /// The key, below 16, of the block of storage that has this address; none outside storage.
    pub fn key(&self, at: u32) -> Option<u8>
        ensures key { result ≡ key_in self.now.storage at }
        ensures shows { (m : Machine) → StandsFor self.now m → result ≡ key_in (storage_of m m.subchannel) at }
    {
        self.storage.key(at)
    }

    /// Where the bytes of storage lie, for a processor that shares them without a copy. They stay there until the storage is
    /// exchanged or the channel is no more. What is written there between two calls is what the processor stores.
    pub fn storage_place(&mut self) -> *mut u8
        ensures { self.new ≡ self.old }
    {
        self.storage.as_mut_ptr()
    }

    /// Whether `interrupt` would give an interruption now.
    pub fn is_pending(&self) -> bool
        ensures { (m : Machine) → StandsFor self.now m → result ≡ interrupts m }
    {
        self.selector.is_pending()
    }

    /// Takes another storage of the same size in the place of this one, and gives this one back, bytes and keys, also while a
    /// program runs. Nothing is copied. So several channels share one storage: each finds it for a call. To a program that
    /// runs it is as if the processor had stored all of it between two units. It makes no call of a store.
    ///
    /// # Errors
    ///
    /// The storage is of another size; nothing has changed.
    pub fn exchange_storage(&mut self, storage: &mut Storage) -> Result<(), OtherSize>
        ensures found { OnOk result (self.new ≡ with_storage self.old storage.old) }
        ensures gives_back { OnOk result (storage.new ≡ self.old.storage) }
        ensures stands { (m : Machine) → StandsFor self.old m
            → OnOk result (StandsFor self.new (finding storage.old m)) }
        ensures other { OnErr result (length storage.old.bytes ≡ length self.old.storage.bytes → ⊥) }
        ensures stays { OnErr result (self.new ≡ self.old) }
        ensures handed_back { OnErr result (storage.new ≡ storage.old) }
    {
        if storage.size() != self.storage.size() {
            return Err(OtherSize);
        }
        mem::swap(&mut self.storage, storage);
        Ok(())
    }
}

/// The law of a shared storage: a channel that finds another storage of the same size stands for the machine whose processor
/// stored all of it.
pub fn finds_another()
    ensures { FindsAnother }
{}

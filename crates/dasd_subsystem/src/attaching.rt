//! Subsystems are made, and drives are attached to them.

ghost use Rattle.std.specs.Prelude.{◌≡◌, ◌/◌, ◌%◌, true, map, OnOk, OnErr, IfOk, IfErr};
ghost use Rattle.s360_words.specs.Storage.{Storage as StorageState, is_size};
ghost use Rattle.s360_channels.specs.Channels.{channel_at};
ghost use Rattle.s360_channels.specs.Packs.{RefusedDetach};
ghost use Rattle.s360_channels.specs.Selectors.{across};
ghost use Rattle.dasd_subsystem.specs.Attaching.{Attaches, AttachesImage, AttachesNew, Detaches, NotAttached, NotAttachedNew, Refuses};
ghost use Rattle.dasd_subsystem.specs.Making.{MadeLent, MadeOwn, NotMade, is_set};

use crate::files::Files;
use crate::making::{is_set, is_size, made_for};
use crate::mounting::{formatted, mounted};
use crate::refusal::{Refusal, of_attach};
use crate::subsystem::Subsystem;
use ckd_image::Image;
use ckd_track::DriveModel;
use dasd_files::VolumeFile;
use s360_channels::DetachFault;
use s360_words::{Storage, StorageFault};
use std::alloc::Global;

impl Subsystem {
    /// The channels of a set, without drives, over a storage of so many zero bytes, which is theirs. The set has the form of a
    /// system mask: bits 0 to 6, from the left, are channels 0 to 6.
    ///
    /// # Errors
    ///
    /// `BadChannels`, `BadSize` and `OutOfMemory`, in this order.
    pub fn new(alloc: Global, channels: u8, size: u32) -> Result<Subsystem, Refusal>
        ensures made { IfOk result (λ s. MadeOwn channels size s) }
        ensures allowed { OnOk result ((is_set channels ≡ true) × (is_size size ≡ true)) }
        ensures refused { IfErr result (λ e. NotMade channels size e) }
    {
        if !is_set(channels) {
            return Err(Refusal::BadChannels);
        }
        match Storage::new(alloc, size) {
            Ok(storage) => Ok(Subsystem {
                channels: made_for(channels, size),
                storage: Some(storage),
            }),
            Err(StorageFault::BadSize) => Err(Refusal::BadSize),
            Err(StorageFault::OutOfMemory) => Err(Refusal::OutOfMemory),
        }
    }

    /// The channels of a set, as `new` makes them, for storage of this size, which each call that needs one is lent. It takes no
    /// memory.
    ///
    /// # Errors
    ///
    /// `BadChannels` and `BadSize`, in this order.
    pub fn lent(channels: u8, size: u32) -> Result<Subsystem, Refusal>
        ensures made { IfOk result (λ s. MadeLent channels size s) }
        ensures allowed { OnOk result ((is_set channels ≡ true) × (is_size size ≡ true)) }
        ensures refused { IfErr result (λ e. NotMade channels size e) }
    {
        if !is_set(channels) {
            return Err(Refusal::BadChannels);
        }
        if !is_size(size) {
            return Err(Refusal::BadSize);
        }
        Ok(Subsystem {
            channels: made_for(channels, size),
            storage: None,
        })
    }

    /// Attaches a drive under an address, with the image that copies of these files, one to eight in their order, are.
    ///
    /// # Errors
    ///
    /// `NoChannel`, `NoFiles`, `TooManyFiles`, why the files are no image, `AddressTaken` and `Full`, in this order, and
    /// `OutOfMemory` wherever memory is taken: for the copies, and last for the drive. Nothing has changed.
    pub fn attach(&mut self, alloc: Global, address: u16, files: &[&[u8]]) -> Result<(), Refusal>
        ensures attached { (s : StorageState) → OnOk result (Attaches address (map (λ file. file.now) files.now) (across self.old.channels s)
            (across self.new.channels s)) }
        ensures refused { (s : StorageState) → IfErr result (λ e. NotAttached (channel_at (address / 256) (across self.old.channels s))
            (address % 256) (map (λ file. file.now) files.now) e) }
        ensures storage { self.new.storage ≡ self.old.storage }
        ensures stays { OnErr result (self.new ≡ self.old) }
    {
        if !self.channels.has((address / 256) as u8) {
            return Err(Refusal::NoChannel);
        }
        let copies = Files::copy_of(alloc, files)?;
        match self.attach_files(alloc, address, copies) {
            Ok(()) => Ok(()),
            Err((refusal, _)) => Err(refusal),
        }
    }

    /// Attaches a drive under an address, with the image that these files are. They are taken over as they are, and their changes are
    /// counted anew.
    ///
    /// # Errors
    ///
    /// Those of `attach`, in its order: why the files are no image, and `OutOfMemory`, where what keeps their changes or the drive
    /// found none. The files are handed back, and nothing has changed.
    pub fn attach_files(
        &mut self,
        alloc: Global,
        address: u16,
        files: Files,
    ) -> Result<(), (Refusal, Files)>
        ensures attached { (s : StorageState) → OnOk result (Attaches address files (across self.old.channels s) (across self.new.channels s)) }
        ensures refused { (s : StorageState) → IfErr result (λ e. NotAttached (channel_at (address / 256) (across self.old.channels s))
            (address % 256) files e.0) }
        ensures handed_back { IfErr result (λ e. e.1 ≡ files) }
        ensures storage { self.new.storage ≡ self.old.storage }
        ensures stays { OnErr result (self.new ≡ self.old) }
    {
        if !self.channels.has((address / 256) as u8) {
            return Err((Refusal::NoChannel, files));
        }
        let image = mounted(alloc, files)?;
        match attach_image(self, alloc, address, image) {
            Ok(()) => Ok(()),
            Err((refusal, image)) => Err((refusal, Files::of(image))),
        }
    }

    /// Takes the drive at an address off its channel, and gives back the files of its volume, with all that was written.
    ///
    /// # Errors
    ///
    /// Those of `Selectors::detach`; nothing has changed.
    pub fn detach_files(&mut self, address: u16) -> Result<Files, DetachFault>
        ensures detached { (s : StorageState) → IfOk result (λ files. Detaches address files (across self.old.channels s) (across self.new.channels s)) }
        ensures refused { (s : StorageState) → IfErr result (λ e. RefusedDetach (channel_at (address / 256) (across self.old.channels s)) s
            (address % 256) e) }
        ensures storage { self.new.storage ≡ self.old.storage }
        ensures stays { OnErr result (self.new ≡ self.old) }
    {
        match self.channels.detach(address) {
            Ok(image) => Ok(Files::of(image)),
            Err(fault) => Err(fault),
        }
    }

    /// Attaches a drive under an address, with a new volume of so many cylinders.
    ///
    /// # Errors
    ///
    /// `NoChannel`, `NoCylinders`, `AddressTaken` and `Full`, in this order, and `OutOfMemory` wherever memory is taken: for the
    /// volume, and last for the drive. Nothing has changed.
    pub fn attach_new(
        &mut self,
        alloc: Global,
        address: u16,
        model: DriveModel,
        cylinders: u16,
    ) -> Result<(), Refusal>
        ensures attached { (s : StorageState) → OnOk result (AttachesNew address model cylinders (across self.old.channels s) (across self.new.channels s)) }
        ensures refused { (s : StorageState) → IfErr result (λ e. NotAttachedNew (channel_at (address / 256) (across self.old.channels s))
            (address % 256) cylinders e) }
        ensures storage { self.new.storage ≡ self.old.storage }
        ensures stays { OnErr result (self.new ≡ self.old) }
    {
        if !self.channels.has((address / 256) as u8) {
            return Err(Refusal::NoChannel);
        }
        let image = formatted(alloc, model, cylinders)?;
        match attach_image(self, alloc, address, image) {
            Ok(()) => Ok(()),
            Err((refusal, _)) => Err(refusal),
        }
    }
}

// Attaches a drive that holds this image, or hands it back.
fn attach_image(
    subsystem: &mut Subsystem,
    alloc: Global,
    address: u16,
    image: Image<VolumeFile>,
) -> Result<(), (Refusal, Image<VolumeFile>)>
    ensures attached { (s : StorageState) → OnOk result (AttachesImage address image (across subsystem.old.channels s) (across subsystem.new.channels s)) }
    ensures storage { subsystem.new.storage ≡ subsystem.old.storage }
    ensures refused { (s : StorageState) → IfErr result (λ e. Refuses (channel_at (address / 256) (across subsystem.old.channels s)) (address % 256) e.0) }
    ensures handed_back { IfErr result (λ e. e.1 ≡ image) }
    ensures stays { OnErr result (subsystem.new ≡ subsystem.old) }
{
    match subsystem.channels.attach(alloc, address, image) {
        Ok(()) => Ok(()),
        Err((fault, image)) => Err((of_attach(fault), image)),
    }
}

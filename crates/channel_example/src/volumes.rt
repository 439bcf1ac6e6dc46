//! Volumes in memory, and a channel with drives that hold them.

use anyhow::Result;
use ckd_image::{Image, ImageStore, MemoryStore, image_len};
use ckd_track::DriveModel;
use s360_channel::Channel;
use s360_words::Storage;
use std::alloc::Global;

/// Channel 1 with storage of 65,536 bytes, and no drives.
pub(crate) fn new_channel<S: ImageStore>(alloc: Global) -> Result<Channel<S>> {
    match Channel::new(1, Storage::new(alloc, 65_536)?) {
        Ok(channel) => Ok(channel),
        Err((fault, _storage)) => Err(fault.into()),
    }
}

/// A new volume of a 2311 with so many cylinders.
pub(crate) fn new_volume(alloc: Global, cylinders: u16) -> Result<Image<MemoryStore>> {
    let store = MemoryStore::zeros(alloc, image_len(DriveModel::D2311, cylinders))?;
    match Image::format(store, DriveModel::D2311, cylinders) {
        Ok(image) => Ok(image),
        Err((fault, _store)) => Err(fault.into()),
    }
}

/// Attaches a drive that holds an image.
pub(crate) fn attach<S: ImageStore>(
    alloc: Global,
    channel: &mut Channel<S>,
    device: u8,
    image: Image<S>,
) -> Result<()> {
    match channel.attach(alloc, device, image) {
        Ok(()) => Ok(()),
        Err((fault, _image)) => Err(fault.into()),
    }
}

/// Attaches a drive that holds a new volume of so many cylinders.
pub(crate) fn attach_new(
    alloc: Global,
    channel: &mut Channel<MemoryStore>,
    device: u8,
    cylinders: u16,
) -> Result<()> {
    attach(alloc, channel, device, new_volume(alloc, cylinders)?)
}

/// The data of record 1 on the first track, in the file of a 2311.
pub(crate) fn record_1_in(file: &MemoryStore) -> &[u8] {
    file.bytes().get(541..549).unwrap_or(&[])
}

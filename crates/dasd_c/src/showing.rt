//! What is shown of channels, drives and their volumes.

ghost use Rattle.std.specs.Prelude.{◌≡◌, ◌/◌, ◌%◌, Some, length};
ghost use Rattle.s360_words.specs.Storage.{Storage as StorageState};
ghost use Rattle.s360_channels.specs.Channels.{channel_at};
ghost use Rattle.s360_channels.specs.Selectors.{across};
ghost use Rattle.subsystem_calls.specs.Shown.{ShowsDriveOf, ShowsStateOf};
ghost use Rattle.dasd_c.specs.Calls.{CallsAny};
ghost use Rattle.dasd_c.specs.Shown.{ShowsFileIn, ShowsFileOf};

use crate::handle::{Handle, put, take};
use ckd_image::{Image, ImageStore};
use dasd_files::VolumeFile;
use dasd_subsystem::{ShownChannel, ShownDrive};
use s360_channels::Selectors;
use std::alloc::Global;
use subsystem_calls::tell::{DONE, NO_CHANNEL, NO_DRIVE, NO_FILE, NOTHING_HELD, PROGRAM_RUNS};
use subsystem_calls::{is_at_work, show_channel, show_drive};

/// A file of a volume: where its bytes lie, how many there are, and a number that is another after each write that changes one.
#[repr(C)]
#[derive(Drop)]
pub struct File {
    pub at: *const u8,
    pub len: usize,
    pub changes: u64,
}

/// Shows a file of a drive's volume, where its program does not run.
#[unsafe(no_mangle)]
pub extern "C" fn dasd_show_file(
    handle: &mut Handle,
    alloc: Global,
    address: u16,
    file: u8,
    shown: &mut File,
) -> i32
    ensures { CallsAny handle.old.slot.held handle.new.slot.held result (λ old new. (new ≡ old) × ShowsFileOf old address file result shown.old shown.new) }
{
    let Some(subsystem) = take(handle, alloc) else {
        return NOTHING_HELD;
    };
    let code = show_file(&subsystem.channels, address, file, shown);
    put(handle, subsystem);
    code
}

fn show_file(channels: &Selectors<VolumeFile>, address: u16, file: u8, shown: &mut File) -> i32
    ensures { (s : StorageState) → ShowsFileOf (across channels.now s) address file result shown.old shown.new }
{
    if is_at_work(channels, address) {
        return PROGRAM_RUNS;
    }
    if !channels.has((address / 256) as u8) {
        return NO_CHANNEL;
    }
    match channels.image(address) {
        Some(image) => show_file_of(image, file, shown),
        None => NO_DRIVE,
    }
}

fn show_file_of(image: &Image<VolumeFile>, file: u8, shown: &mut File) -> i32
    ensures { ShowsFileIn (Some image.now) file result shown.old shown.new }
{
    match image.store(file as usize) {
        Some(store) => {
            *shown = as_file(store);
            DONE
        }
        None => NO_FILE,
    }
}

fn as_file(store: &VolumeFile) -> File
    ensures len { result.len ≡ length store.now.content }
    ensures changes { result.changes ≡ store.now.changes }
{
    File {
        at: store.as_ptr(),
        len: store.len() as usize,
        changes: store.changes(),
    }
}

/// Shows a drive.
#[unsafe(no_mangle)]
pub extern "C" fn dasd_show_drive(
    handle: &mut Handle,
    alloc: Global,
    address: u16,
    shown: &mut ShownDrive,
) -> i32
    ensures { CallsAny handle.old.slot.held handle.new.slot.held result
        (λ old new. (new ≡ old) × ShowsDriveOf (channel_at (address / 256) old) (address % 256) result shown.old shown.new) }
{
    let Some(subsystem) = take(handle, alloc) else {
        return NOTHING_HELD;
    };
    let code = show_drive(&subsystem.channels, address, shown);
    put(handle, subsystem);
    code
}

/// Shows a channel.
#[unsafe(no_mangle)]
pub extern "C" fn dasd_show_channel(
    handle: &mut Handle,
    alloc: Global,
    channel: u8,
    shown: &mut ShownChannel,
) -> i32
    ensures { CallsAny handle.old.slot.held handle.new.slot.held result
        (λ old new. (new ≡ old) × ShowsStateOf (channel_at channel old) old.storage result shown.old shown.new) }
{
    let Some(subsystem) = take(handle, alloc) else {
        return NOTHING_HELD;
    };
    let code = show_channel(&subsystem.channels, channel, shown);
    put(handle, subsystem);
    code
}

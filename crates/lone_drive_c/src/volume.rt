//! The volume's file is shown, and given back.

ghost use Rattle.std.specs.Prelude.{◌≡◌, Some, None, length};
ghost use Rattle.ckd_image.specs.Image.{IsFileAt};
ghost use Rattle.lone_drive_c.specs.Calls.{Holds};
ghost use Rattle.lone_drive_c.specs.Volume.{CopiesContent, CopiesFile, GivesBack, ShowsFile};

use crate::allowed::may;
use crate::handle::{Handle, put, take};
use crate::tell::{COMMAND_OPEN, DONE, NOT_SAVED, NOTHING_HELD, OTHER_LENGTH};
use ckd_drive::Drive;
use ckd_image::{Image, ImageStore};
use dasd_files::VolumeFile;
use std::alloc::Global;

/// The volume's file: where its bytes lie, how many there are, and a number that is another after each write that changes one.
#[repr(C)]
#[derive(Drop)]
pub struct File {
    pub at: *const u8,
    pub len: usize,
    pub changes: u64,
}

/// Shows the file of the volume, where no command is open and no track waits to be saved.
#[unsafe(no_mangle)]
pub extern "C" fn dasd_drive_show_file(handle: &mut Handle, alloc: Global, shown: &mut File) -> i32
    ensures does { Holds handle.old.slot.held handle.new.slot.held result (λ old new. (new ≡ old) × ShowsFile result shown.old shown.new old) }
    ensures untold { handle.old.slot.held ≡ None → shown.new ≡ shown.old }
{
    let Some(held) = take(handle, alloc) else {
        return NOTHING_HELD;
    };
    let code = show_file(&held.drive, shown);
    put(handle, held);
    code
}

fn show_file(drive: &Drive<VolumeFile>, shown: &mut File) -> i32
    ensures { ShowsFile result shown.old shown.new drive.now }
{
    if !may(drive).begin {
        return COMMAND_OPEN;
    }
    if drive.is_written() {
        return NOT_SAVED;
    }
    *shown = as_file(first_file(drive.image()));
    DONE
}

/// The first file of an image, which each has.
pub(crate) fn first_file(image: &Image<VolumeFile>) -> &VolumeFile
    ensures { IsFileAt image.now 0 (Some result.now.content) }
{
    match image.store(0) {
        Some(file) => file,
        None => unreachable!(),
    }
}

fn as_file(file: &VolumeFile) -> File
    ensures len { result.len ≡ length file.now.content }
    ensures changes { result.changes ≡ file.now.changes }
{
    File {
        at: file.as_ptr(),
        len: file.len() as usize,
        changes: file.changes(),
    }
}

/// Copies the file of the volume, and frees the drive, where no command is open and no track waits to be saved. The handle holds nothing
/// from then on.
#[unsafe(no_mangle)]
pub extern "C" fn dasd_drive_give_back(handle: &mut Handle, alloc: Global, into: &mut [u8]) -> i32
    ensures { GivesBack handle.old.slot.held handle.new.slot.held result into.old into.new }
{
    let Some(held) = take(handle, alloc) else {
        return NOTHING_HELD;
    };
    let code = copy_file(&held.drive, into);
    if code == DONE {
        drop(held);
    } else {
        put(handle, held);
    }
    code
}

fn copy_file(drive: &Drive<VolumeFile>, into: &mut [u8]) -> i32
    ensures { CopiesFile result into.old into.new drive.now }
{
    if !may(drive).begin {
        return COMMAND_OPEN;
    }
    if drive.is_written() {
        return NOT_SAVED;
    }
    copy(first_file(drive.image()).bytes(), into)
}

fn copy(bytes: &[u8], into: &mut [u8]) -> i32
    ensures { CopiesContent bytes.now result into.old into.new }
{
    if bytes.len() != into.len() {
        return OTHER_LENGTH;
    }
    into.copy_from_slice(bytes);
    DONE
}

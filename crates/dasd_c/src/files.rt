//! Files of a volume that no drive has: C fills and reads their bytes where they lie, and drives take them over and give them back.

ghost use Rattle.std.specs.Prelude.{◌≡◌, ◌==◌, Option, Some, None, IsSome, is_some, length, map, option_map, pos, replicate, if◌then◌else◌};
ghost use Rattle.s360_words.specs.Storage.{Storage as StorageState};
ghost use Rattle.s360_channels.specs.Selectors.{across};
ghost use Rattle.dasd_subsystem.specs.Attaching.{NotTaken};
ghost use Rattle.dasd_subsystem.specs.declared.refusal.Refusal.TheVariants as refusal;
ghost use Rattle.subsystem_calls.specs.Attaching.{TellsWhy};
ghost use Rattle.subsystem_calls.specs.Codes.{in_use, nothing_held, refusal_code};
ghost use Rattle.dasd_c.specs.Calls.{CallsAny};
ghost use Rattle.dasd_c.specs.Files.{AttachesFrom, AttachesHeld, DetachesHeld, DetachesInto, ShowsSpaceIn, ShowsSpaceOf};
ghost use Rattle.dasd_c.specs.declared.files.TheConstants.{FILES_HELD};

use crate::files_slot::FilesSlot;
use crate::handle::{Handle, moved, put, take};
use crate::storing::StoragePlace;
use box_parts::Parts;
use dasd_subsystem::{Files, Subsystem};
use std::alloc::Global;
use std::mem;
use subsystem_calls::tell::{
    DONE, IN_USE, NO_FILE, NO_MEMORY, NOTHING_HELD, of_detach, of_refusal,
};

/// The stamp of a handle that holds files.
pub const FILES_HELD: u64 = 0x4441_5344_4649_4C45;

/// What C holds of files that no drive has. All zero bytes is a handle that holds none.
#[repr(C)]
#[derive(Drop)]
pub struct FilesHandle {
    pub(crate) stamp: u64,
    pub(crate) slot: FilesSlot,
    ghost agrees: { is_some slot.held ≡ (stamp == FILES_HELD) },
}

// Takes the files out of the handle, which then holds none.
fn take_files(handle: &mut FilesHandle, alloc: Global) -> Option<Box<Files>>
    ensures taken { option_map (λ b. b.value) result ≡ handle.old.slot.held }
    ensures left { handle.new.slot.held ≡ None }
{
    if handle.stamp != FILES_HELD {
        return None;
    }
    let empty = FilesHandle {
        stamp: 0,
        slot: FilesSlot::empty(alloc),
    };
    let FilesHandle { stamp: _, slot } = mem::replace(handle, empty);
    Some(slot.into_parts().into_box())
}

// Puts files into the handle.
fn put_files(handle: &mut FilesHandle, files: Box<Files>)
    ensures { handle.new.slot.held ≡ Some files.value }
{
    *handle = FilesHandle {
        stamp: FILES_HELD,
        slot: FilesSlot::of_parts(Parts::of(files)),
    };
}

/// Takes the memory for files of so many bytes each, which are zero, where the handle holds nothing.
#[unsafe(no_mangle)]
pub extern "C" fn dasd_files_new(files: &mut FilesHandle, alloc: Global, lengths: &[usize]) -> i32
    ensures made { result ≡ pos 0 → files.new.slot.held ≡ Some (map (λ len. replicate len 0) lengths.now) }
    ensures stays { (result ≡ pos 0 → ⊥) → files.new.slot.held ≡ files.old.slot.held }
    ensures in_use { IsSome files.old.slot.held → result ≡ in_use }
    ensures refused { files.old.slot.held ≡ None → (result ≡ pos 0 → ⊥) → TellsWhy refusal_code (NotTaken (length lengths.now)) result }
{
    if files.stamp == FILES_HELD {
        return IN_USE;
    }
    match Files::new(alloc, lengths) {
        Ok(made) => hold_files(files, alloc, made),
        Err(refusal) => of_refusal(refusal),
    }
}

// Puts files on the heap, and into the handle; where there is no memory, the handle stays as it was.
fn hold_files(handle: &mut FilesHandle, alloc: Global, files: Files) -> i32
    ensures held { result ≡ pos 0 → handle.new.slot.held ≡ Some files }
    ensures stays { (result ≡ pos 0 → ⊥) → handle.new.slot.held ≡ handle.old.slot.held }
    ensures no_memory { (result ≡ pos 0 → ⊥) → result ≡ refusal_code refusal.OutOfMemory }
{
    match Box::new(alloc, files) {
        Ok(boxed) => {
            put_files(handle, boxed);
            DONE
        }
        Err(_) => NO_MEMORY,
    }
}

/// Shows where a file lies. Its bytes are C's to read and write, as long as the handle holds it.
#[unsafe(no_mangle)]
pub extern "C" fn dasd_files_show(
    files: &mut FilesHandle,
    alloc: Global,
    file: u8,
    shown: &mut StoragePlace,
) -> i32
    ensures shows { ShowsSpaceOf files.old.slot.held file result shown.old shown.new }
    ensures stays { files.new.slot.held ≡ files.old.slot.held }
{
    let Some(held) = take_files(files, alloc) else {
        return NOTHING_HELD;
    };
    let code = show(&held, file, shown);
    put_files(files, held);
    code
}

fn show(files: &Files, file: u8, shown: &mut StoragePlace) -> i32
    ensures { ShowsSpaceIn files.now file result shown.old shown.new }
{
    match files.get(file as usize) {
        Some(file) => {
            let at = file.as_ptr() as *mut u8;
            let len = file.bytes().len();
            *shown = StoragePlace { at, len };
            DONE
        }
        None => NO_FILE,
    }
}

/// Frees the files. The handle holds nothing from then on.
#[unsafe(no_mangle)]
pub extern "C" fn dasd_files_free(files: &mut FilesHandle, alloc: Global) -> i32
    ensures freed { files.new.slot.held ≡ None }
    ensures told { result ≡ (if is_some files.old.slot.held then pos 0 else nothing_held) }
{
    match take_files(files, alloc) {
        Some(held) => {
            drop(held);
            DONE
        }
        None => NOTHING_HELD,
    }
}

/// The same handle, which may so go to another thread.
pub fn crossed_files(handle: FilesHandle) -> FilesHandle
    ensures { result ≡ handle }
{
    moved(handle)
}

/// Attaches a drive under an address, with the image that the files of a handle are, which then holds none.
#[unsafe(no_mangle)]
pub extern "C" fn dasd_attach_files(
    handle: &mut Handle,
    alloc: Global,
    address: u16,
    files: &mut FilesHandle,
) -> i32
    ensures attaches { CallsAny handle.old.slot.held handle.new.slot.held result
        (λ old new. AttachesHeld files.old.slot.held files.new.slot.held address result old new) }
    ensures stays { handle.old.slot.held ≡ None → files.new.slot.held ≡ files.old.slot.held }
{
    let Some(mut subsystem) = take(handle, alloc) else {
        return NOTHING_HELD;
    };
    let code = attach_held(&mut subsystem, alloc, address, files);
    put(handle, subsystem);
    code
}

fn attach_held(
    subsystem: &mut Subsystem,
    alloc: Global,
    address: u16,
    files: &mut FilesHandle,
) -> i32
    ensures does { (s : StorageState) → AttachesHeld files.old.slot.held files.new.slot.held address result
        (across subsystem.old.channels s) (across subsystem.new.channels s) }
    ensures storage { subsystem.new.storage ≡ subsystem.old.storage }
{
    let Some(held) = take_files(files, alloc) else {
        return NOTHING_HELD;
    };
    attach_box(subsystem, alloc, address, held, files)
}

// Attaches a drive with these files, or puts them back, where the handle holds none.
fn attach_box(
    subsystem: &mut Subsystem,
    alloc: Global,
    address: u16,
    mut held: Box<Files>,
    handle: &mut FilesHandle,
) -> i32
    ensures does { (s : StorageState) → handle.old.slot.held ≡ None → AttachesFrom held.value handle.new.slot.held address result
        (across subsystem.old.channels s) (across subsystem.new.channels s) }
    ensures storage { subsystem.new.storage ≡ subsystem.old.storage }
{
    let files = mem::replace(&mut *held, Files::none());
    match subsystem.attach_files(alloc, address, files) {
        Ok(()) => DONE,
        Err((refusal, files)) => {
            *held = files;
            put_files(handle, held);
            of_refusal(refusal)
        }
    }
}

/// Takes a drive off its channel, and puts the files of its volume, with all that was written, into a handle that holds nothing.
#[unsafe(no_mangle)]
pub extern "C" fn dasd_detach_files(
    handle: &mut Handle,
    alloc: Global,
    address: u16,
    files: &mut FilesHandle,
) -> i32
    ensures detaches { CallsAny handle.old.slot.held handle.new.slot.held result
        (λ old new. DetachesHeld files.old.slot.held files.new.slot.held address result old new) }
    ensures stays { handle.old.slot.held ≡ None → files.new.slot.held ≡ files.old.slot.held }
{
    let Some(mut subsystem) = take(handle, alloc) else {
        return NOTHING_HELD;
    };
    let code = detach_held(&mut subsystem, alloc, address, files);
    put(handle, subsystem);
    code
}

fn detach_held(
    subsystem: &mut Subsystem,
    alloc: Global,
    address: u16,
    files: &mut FilesHandle,
) -> i32
    ensures does { (s : StorageState) → DetachesHeld files.old.slot.held files.new.slot.held address result
        (across subsystem.old.channels s) (across subsystem.new.channels s) }
    ensures storage { subsystem.new.storage ≡ subsystem.old.storage }
{
    if files.stamp == FILES_HELD {
        return IN_USE;
    }
    // the memory for them is taken first, so that none is wanted once the drive is off
    let Ok(room) = Box::new(alloc, Files::none()) else {
        return NO_MEMORY;
    };
    detach_into(subsystem, address, room, files)
}

fn detach_into(
    subsystem: &mut Subsystem,
    address: u16,
    mut room: Box<Files>,
    handle: &mut FilesHandle,
) -> i32
    ensures does { (s : StorageState) → DetachesInto handle.old.slot.held handle.new.slot.held address result
        (across subsystem.old.channels s) (across subsystem.new.channels s) }
    ensures storage { subsystem.new.storage ≡ subsystem.old.storage }
{
    match subsystem.detach_files(address) {
        Ok(files) => {
            *room = files;
            put_files(handle, room);
            DONE
        }
        Err(fault) => of_detach(fault),
    }
}

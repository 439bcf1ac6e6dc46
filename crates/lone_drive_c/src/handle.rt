//! The handle, and how a drive is taken out of it and put back.

ghost use Rattle.std.specs.Prelude.{◌≡◌, ◌==◌, Option, Some, None, IsSome, IfSome, is_some, option_map, pos, true, false, if◌then◌else◌};
ghost use Rattle.ckd_track.specs.Model.{model_numbered};
ghost use Rattle.lone_drive_c.specs.Making.{IsOver, NotMounted};
ghost use Rattle.lone_drive_c.specs.declared.refusal.NotMade.TheVariants as made;
ghost use Rattle.lone_drive_c.specs.Calls.{IsNewOf, TellsWhy, WhyNone};
ghost use Rattle.lone_drive_c.specs.Codes.{nothing_held, in_use, made_code};
ghost use Rattle.lone_drive_c.specs.declared.handle.TheConstants.{HELD};

use crate::LoneDrive;
use crate::slot::Slot;
use crate::tell::{BAD_MODEL, DONE, IN_USE, NO_MEMORY, NOTHING_HELD, of_not_made};
use box_parts::Parts;
use ckd_track::DriveModel;
use std::alloc::Global;
use std::marker::Send;
use std::mem;

/// The stamp of a handle that holds a drive.
pub const HELD: u64 = 0x4C4F_4E45_4452_4956;

/// What C holds of a drive. All zero bytes is a handle that holds none.
#[repr(C)]
#[derive(Drop)]
pub struct Handle {
    pub(crate) stamp: u64,
    pub(crate) slot: Slot,
    ghost agrees: { is_some slot.held ≡ (stamp == HELD) },
}

/// Takes the drive out of the handle, which then holds none.
pub(crate) fn take(handle: &mut Handle, alloc: Global) -> Option<Box<LoneDrive>>
    ensures taken { option_map (λ b. b.value) result ≡ handle.old.slot.held }
    ensures left { handle.new.slot.held ≡ None }
{
    if handle.stamp != HELD {
        return None;
    }
    let empty = Handle {
        stamp: 0,
        slot: Slot::empty(alloc),
    };
    let Handle { stamp: _, slot } = mem::replace(handle, empty);
    Some(slot.into_parts().into_box())
}

/// Puts a drive into the handle.
pub(crate) fn put(handle: &mut Handle, drive: Box<LoneDrive>)
    ensures { handle.new.slot.held ≡ Some drive.value }
{
    *handle = Handle {
        stamp: HELD,
        slot: Slot::of_parts(Parts::of(drive)),
    };
}

/// Puts a drive on the heap, and into the handle; where there is no memory, the handle stays as it was.
pub(crate) fn hold(handle: &mut Handle, alloc: Global, drive: LoneDrive) -> i32
    ensures held { result ≡ pos 0 → handle.new.slot.held ≡ Some drive }
    ensures stays { (result ≡ pos 0 → ⊥) → handle.new.slot.held ≡ handle.old.slot.held }
    ensures no_memory { (result ≡ pos 0 → ⊥) → result ≡ made_code made.OutOfMemory }
{
    match Box::new(alloc, drive) {
        Ok(boxed) => {
            put(handle, boxed);
            DONE
        }
        Err(_) => NO_MEMORY,
    }
}

/// Makes a drive over the volume that a copy of this file holds, where the handle holds nothing.
#[unsafe(no_mangle)]
pub extern "C" fn dasd_drive_attach(handle: &mut Handle, alloc: Global, file: &[u8]) -> i32
    ensures made { result ≡ pos 0 → IfSome handle.new.slot.held (λ d. IsOver file.now d.drive) }
    ensures held { result ≡ pos 0 → IsSome handle.new.slot.held }
    ensures stays { (result ≡ pos 0 → ⊥) → handle.new.slot.held ≡ handle.old.slot.held }
    ensures in_use { IsSome handle.old.slot.held → result ≡ in_use }
    ensures refused { handle.old.slot.held ≡ None → (result ≡ pos 0 → ⊥) → TellsWhy (NotMounted file.now) result }
{
    if handle.stamp == HELD {
        return IN_USE;
    }
    match LoneDrive::mount(alloc, file) {
        Ok(made) => hold(handle, alloc, made),
        Err(why) => of_not_made(why),
    }
}

/// Makes a drive of this model, 2311 or 2314, over a new volume of so many cylinders, where the handle holds nothing.
#[unsafe(no_mangle)]
pub extern "C" fn dasd_drive_attach_new(
    handle: &mut Handle,
    alloc: Global,
    model: u16,
    cylinders: u16,
) -> i32
    ensures made { result ≡ pos 0 → IfSome handle.new.slot.held (λ d. IsNewOf (model_numbered model) cylinders d.drive) }
    ensures held { result ≡ pos 0 → IsSome handle.new.slot.held }
    ensures stays { (result ≡ pos 0 → ⊥) → handle.new.slot.held ≡ handle.old.slot.held }
    ensures in_use { IsSome handle.old.slot.held → result ≡ in_use }
    ensures refused { handle.old.slot.held ≡ None → (result ≡ pos 0 → ⊥) → WhyNone (model_numbered model) cylinders result }
{
    if handle.stamp == HELD {
        return IN_USE;
    }
    let Some(model) = DriveModel::numbered(model) else {
        return BAD_MODEL;
    };
    match LoneDrive::format(alloc, model, cylinders) {
        Ok(made) => hold(handle, alloc, made),
        Err(why) => of_not_made(why),
    }
}

/// Frees the drive, and its volume with all that was written. The handle holds nothing from then on.
#[unsafe(no_mangle)]
pub extern "C" fn dasd_drive_free(handle: &mut Handle, alloc: Global) -> i32
    ensures freed { handle.new.slot.held ≡ None }
    ensures told { result ≡ (if is_some handle.old.slot.held then pos 0 else nothing_held) }
{
    match take(handle, alloc) {
        Some(drive) => {
            drop(drive);
            DONE
        }
        None => NOTHING_HELD,
    }
}

fn moved<T: Send>(value: T) -> T
    ensures { result ≡ value }
{
    value
}

/// The same handle, which may so go to another thread.
pub fn crossed(handle: Handle) -> Handle
    ensures { result ≡ handle }
{
    moved(handle)
}

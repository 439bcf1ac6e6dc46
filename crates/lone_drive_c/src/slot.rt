//! A place for a drive that C holds.

ghost use Rattle.std.specs.Prelude.{◌≡◌, Option, Some, None, IsSome};
ghost use Rattle.lone_drive_c.specs.declared.drive.LoneDrive.{LoneDrive};
ghost use Rattle.box_parts.specs.Slot.{slot_owns};
ghost use Rattle.lone_drive_c.specs.contracts.drive.LoneDrive.{the_row};

use crate::LoneDrive;
use box_parts::Parts;
use std::alloc::Global;
use std::marker::{Model, Send};

/// A place for a drive: empty, or its box. To C it is a pointer that only this library reads.
#[repr(C)]
#[derive(Drop)]
pub struct Slot {
    ptr: *mut u8,
    alloc: Global,
    pub ghost held: { Option LoneDrive },
}

impl Model for Slot {
    ghost also_owns = { λ s. slot_owns the_row s.alloc s.ptr s.held };
}

// It may go to another thread: it owns nothing, or the box of a drive, which may.
unsafe impl Send for Slot {}

impl Slot {
    /// No drive.
    pub fn empty(alloc: Global) -> Slot
        ensures { result.held ≡ None }
    {
        Slot {
            ptr: std::ptr::null_mut(),
            alloc,
        }
    }

    /// The drive of these parts of its box.
    pub fn of_parts(parts: Parts<LoneDrive, Global>) -> Slot
        ensures { result.held ≡ Some parts.value }
    {
        let Parts { ptr, alloc } = parts;
        Slot {
            ptr: ptr as *mut u8,
            alloc,
        }
    }

    /// The parts of the box that is here.
    pub fn into_parts(self) -> Parts<LoneDrive, Global>
        requires { IsSome self.held }
        ensures { Some result.value ≡ self.held }
    {
        let Slot { ptr, alloc } = self;
        Parts {
            ptr: ptr as *mut LoneDrive,
            alloc,
        }
    }
}

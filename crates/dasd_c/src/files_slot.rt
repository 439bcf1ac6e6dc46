//! A place for files that C holds.

ghost use Rattle.std.specs.Prelude.{◌≡◌, List, ℕ, Option, Some, None, IsSome};
ghost use Rattle.box_parts.specs.Slot.{slot_owns};
ghost use Rattle.dasd_subsystem.specs.contracts.files.Files.{the_row};

use box_parts::Parts;
use dasd_subsystem::Files;
use std::alloc::Global;
use std::marker::{Model, Send};

/// A place for files: empty, or their box. To C it is a pointer that only this library reads.
#[repr(C)]
#[derive(Drop)]
pub struct FilesSlot {
    ptr: *mut u8,
    alloc: Global,
    pub ghost held: { Option (List (List ℕ)) },
}

impl Model for FilesSlot {
    ghost also_owns = { λ s. slot_owns the_row s.alloc s.ptr s.held };
}

// It may go to another thread: it owns nothing, or the box of files, which may.
unsafe impl Send for FilesSlot {}

impl FilesSlot {
    /// No files.
    pub fn empty(alloc: Global) -> FilesSlot
        ensures { result.held ≡ None }
    {
        FilesSlot {
            ptr: std::ptr::null_mut(),
            alloc,
        }
    }

    /// The files of these parts of their box.
    pub fn of_parts(parts: Parts<Files, Global>) -> FilesSlot
        ensures { result.held ≡ Some parts.value }
    {
        let Parts { ptr, alloc } = parts;
        FilesSlot {
            ptr: ptr as *mut u8,
            alloc,
        }
    }

    /// The parts of the box that is here.
    pub fn into_parts(self) -> Parts<Files, Global>
        requires { IsSome self.held }
        ensures { Some result.value ≡ self.held }
    {
        let FilesSlot { ptr, alloc } = self;
        Parts {
            ptr: ptr as *mut Files,
            alloc,
        }
    }
}

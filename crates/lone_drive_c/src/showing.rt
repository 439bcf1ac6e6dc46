//! What is shown of a drive.

ghost use Rattle.std.specs.Prelude.{◌≡◌, None};
ghost use Rattle.lone_drive_c.specs.Calls.{Holds};
ghost use Rattle.lone_drive_c.specs.Shown.{Shows, ShowsNext, drive_shown, next_shown};

use crate::handle::{Handle, put, take};
use crate::tell::{DONE, NOTHING_HELD, of_phase};
use ckd_drive::{Drive, Phase};
use dasd_files::VolumeFile;
use std::alloc::Global;

/// How many bytes of the command have passed, and how many more may by what the last look allowed.
#[repr(C)]
#[derive(Clone, Copy)]
pub struct Next {
    pub passed: usize,
    pub left: usize,
}

/// Says what the drive wants next: the number of its phase, and bytes.
#[unsafe(no_mangle)]
pub extern "C" fn dasd_drive_next(handle: &mut Handle, alloc: Global, next: &mut Next) -> i32
    ensures does { Holds handle.old.slot.held handle.new.slot.held result (λ old new. (new ≡ old) × ShowsNext result next.new old) }
    ensures untold { handle.old.slot.held ≡ None → next.new ≡ next.old }
{
    let Some(held) = take(handle, alloc) else {
        return NOTHING_HELD;
    };
    let code = show_next(&held.drive, next);
    put(handle, held);
    code
}

fn show_next(drive: &Drive<VolumeFile>, next: &mut Next) -> i32
    ensures { ShowsNext result next.new drive.now }
{
    let phase = drive.phase();
    *next = as_next(phase);
    of_phase(phase)
}

/// What is shown of a command that is so far.
pub(crate) fn as_next(phase: Phase) -> Next
    ensures { result ≡ next_shown phase }
{
    match phase {
        Phase::Idle | Phase::Over | Phase::Looking => Next { passed: 0, left: 0 },
        Phase::Gives { passed, left } => Next { passed, left },
        Phase::Takes { passed, left } => Next { passed, left },
    }
}

/// What a drive tells beside the command at hand.
#[repr(C)]
#[derive(Clone, Copy)]
pub struct Seen {
    pub model: u16,
    pub cylinders: u16,
    pub cylinder: u16,
    pub head: u16,
    pub written: u8,
    pub sense: [u8; 6],
    pub reserved: u8,
}

/// Shows the drive.
#[unsafe(no_mangle)]
pub extern "C" fn dasd_drive_show(handle: &mut Handle, alloc: Global, shown: &mut Seen) -> i32
    ensures does { Holds handle.old.slot.held handle.new.slot.held result (λ old new. (new ≡ old) × Shows result shown.new old) }
    ensures untold { handle.old.slot.held ≡ None → shown.new ≡ shown.old }
{
    let Some(held) = take(handle, alloc) else {
        return NOTHING_HELD;
    };
    *shown = as_seen(&held.drive);
    put(handle, held);
    DONE
}

fn as_seen(drive: &Drive<VolumeFile>) -> Seen
    ensures { result ≡ drive_shown drive.now }
{
    let geometry = drive.geometry();
    Seen {
        model: geometry.model.number(),
        cylinders: geometry.cylinders,
        cylinder: drive.cylinder(),
        head: drive.head(),
        written: drive.is_written() as u8,
        sense: drive.sense(),
        reserved: 0,
    }
}

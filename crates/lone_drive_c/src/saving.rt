//! What a drive is between two programs becomes bytes, and a drive becomes it.

ghost use Rattle.std.specs.Prelude.{◌≡◌, None, false, length, true};
ghost use Rattle.ckd_command.specs.Drive.{is_written};
ghost use Rattle.ckd_drive.specs.Work.{is_idle};
ghost use Rattle.lone_drive_c.specs.Calls.{Holds};
ghost use Rattle.lone_drive_c.specs.Saving.{BeginsBetween, PutsBack, RestoresUnless, SavedIsRestored, TellsRestored, TellsSaved, Writes, are_first, is_between, saved_bytes, why_none};

use crate::allowed::may;
use crate::handle::{Handle, put, take};
use crate::tell::{
    COMMAND_OPEN, DONE, NO_ROOM, NO_SAVED_STATE, NO_TRACK, NOT_SAVED, NOTHING_HELD, OTHER_VERSION,
    PROGRAM_RUNS, SAVED_LENGTH,
};
use byteorder::{BigEndian, ByteOrder};
use ckd_command::{Lap, Registers};
use ckd_drive::Drive;
use ckd_position::Position;
use ckd_sense::{SeekPermission, Sense, WritePermission};
use dasd_files::VolumeFile;
use std::alloc::Global;

/// How many bytes a saved drive has.
const SAVED: usize = 15;

/// Saves what the drive is between two programs, beside its volume, in the first bytes of these.
#[unsafe(no_mangle)]
pub extern "C" fn dasd_drive_save(
    handle: &mut Handle,
    alloc: Global,
    into: &mut [u8],
    written: &mut usize,
) -> i32
    ensures does { Holds handle.old.slot.held handle.new.slot.held result
        (λ old new. (new ≡ old) × TellsSaved result into.old into.new written.old written.new old) }
    ensures bytes { handle.old.slot.held ≡ None → into.new ≡ into.old }
    ensures untold { handle.old.slot.held ≡ None → written.new ≡ written.old }
{
    let Some(held) = take(handle, alloc) else {
        return NOTHING_HELD;
    };
    let code = save(&held.drive, into, written);
    put(handle, held);
    code
}

fn save(drive: &Drive<VolumeFile>, into: &mut [u8], written: &mut usize) -> i32
    ensures { TellsSaved result into.old into.new written.old written.new drive.now }
{
    if !may(drive).begin {
        return COMMAND_OPEN;
    }
    if drive.is_written() {
        return NOT_SAVED;
    }
    if !is_between(drive) {
        return PROGRAM_RUNS;
    }
    write(*drive.registers(), into, written)
}

// Whether the drive remembers nothing of a program.
fn is_between(drive: &Drive<VolumeFile>) -> bool
    ensures { result ≡ is_between drive.now.state }
{
    are_first(drive.registers()) && drive.unsaved().is_none()
}

fn are_first(r: &Registers) -> bool
    ensures { result ≡ are_first r.now }
{
    matches!(r.position, Position::AtIndex)
        && matches!(r.lap, Lap::First)
        && matches!(r.file_mask.writes, WritePermission::InhibitHomeAddressAndR0)
        && matches!(r.file_mask.seeks, SeekPermission::PermitAllSeeks)
        && !r.mask_set
        && r.credit.is_none()
}

fn write(registers: Registers, into: &mut [u8], written: &mut usize) -> i32
    ensures { Writes result into.old into.new written.old written.new registers }
{
    if into.len() < SAVED {
        return NO_ROOM;
    }
    into[..SAVED].copy_from_slice(&saved_bytes(registers));
    *written = SAVED;
    DONE
}

fn saved_bytes(r: Registers) -> [u8; 15]
    ensures bytes { result ≡ saved_bytes r }
    ensures len { length result ≡ 15 }
{
    [
        b'D',
        b'A',
        b'S',
        b'D',
        b'D',
        b'R',
        b'I',
        b'V',
        1,
        (r.cylinder / 256) as u8,
        (r.cylinder % 256) as u8,
        (r.head / 256) as u8,
        (r.head % 256) as u8,
        (r.sense.0 / 256) as u8,
        (r.sense.0 % 256) as u8,
    ]
}

/// Makes the drive what was saved in these bytes. Its volume stays.
#[unsafe(no_mangle)]
pub extern "C" fn dasd_drive_restore(handle: &mut Handle, alloc: Global, from: &[u8]) -> i32
    ensures { Holds handle.old.slot.held handle.new.slot.held result (λ old new. TellsRestored result from.now old new) }
{
    let Some(mut held) = take(handle, alloc) else {
        return NOTHING_HELD;
    };
    let code = restore(&mut held.drive, from);
    put(handle, held);
    code
}

fn restore(drive: &mut Drive<VolumeFile>, from: &[u8]) -> i32
    ensures { TellsRestored result from.now drive.old drive.new }
{
    if !may(drive).begin {
        return COMMAND_OPEN;
    }
    if drive.is_written() {
        return NOT_SAVED;
    }
    restore_saved(drive, from)
}

fn restore_saved(drive: &mut Drive<VolumeFile>, from: &[u8]) -> i32
    requires idle { is_idle drive.old.work ≡ true }
    requires saved { is_written drive.old.state ≡ false }
    ensures { RestoresUnless (why_none from.now) result from.now drive.old drive.new }
{
    if from.len() < 9 || from[..8] != b"DASDDRIV"[..] {
        return NO_SAVED_STATE;
    }
    if from[8] != 1 {
        return OTHER_VERSION;
    }
    if from.len() != SAVED {
        return SAVED_LENGTH;
    }
    put_back(drive, from)
}

fn put_back(drive: &mut Drive<VolumeFile>, from: &[u8]) -> i32
    requires idle { is_idle drive.old.work ≡ true }
    requires saved { is_written drive.old.state ≡ false }
    requires size { length from.now ≡ 15 }
    ensures { PutsBack result from.now drive.old drive.new }
{
    let cylinder = BigEndian::read_u16(&from[9..11]);
    let head = BigEndian::read_u16(&from[11..13]);
    let sense = Sense(BigEndian::read_u16(&from[13..15]));
    match drive.restore(cylinder, head, sense) {
        Ok(()) => DONE,
        Err(_) => NO_TRACK,
    }
}

/// What a save wrote makes another drive the one that was saved, over its own volume. After a program's beginning a save is not refused for
/// what a program left.
pub fn what_is_saved_is_restored()
    ensures restored { SavedIsRestored }
    ensures begun { BeginsBetween }
{}

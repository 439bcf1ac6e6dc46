//! Which tracks of the volume's file were written, for who saves them.

ghost use Rattle.std.specs.Prelude.{◌≡◌, None, false, true};
ghost use Rattle.ckd_command.specs.Drive.{is_written};
ghost use Rattle.ckd_drive.specs.Work.{is_idle};
ghost use Rattle.lone_drive_c.specs.Calls.{Holds};
ghost use Rattle.lone_drive_c.specs.Changed.{TellsChanged, TellsNextOf};

use crate::allowed::may;
use crate::handle::{Handle, put, take};
use crate::tell::{COMMAND_OPEN, NOT_SAVED, NOTHING_HELD};
use crate::volume::first_file;
use ckd_drive::Drive;
use dasd_files::{ShownTrack, VolumeFile, tell_next};
use std::alloc::Global;

/// Shows the next track of the volume's file, from the one that `track.next` names on, that may have been written since the file's number of
/// changes was this one: 1, or 0 where there is none.
#[unsafe(no_mangle)]
pub extern "C" fn dasd_drive_next_changed(
    handle: &mut Handle,
    alloc: Global,
    since: u64,
    track: &mut ShownTrack,
) -> i32
    ensures does { Holds handle.old.slot.held handle.new.slot.held result
        (λ old new. (new ≡ old) × TellsChanged since result track.old track.new old) }
    ensures untold { handle.old.slot.held ≡ None → track.new ≡ track.old }
{
    let Some(held) = take(handle, alloc) else {
        return NOTHING_HELD;
    };
    let code = show_next(&held.drive, since, track);
    put(handle, held);
    code
}

fn show_next(drive: &Drive<VolumeFile>, since: u64, track: &mut ShownTrack) -> i32
    ensures { TellsChanged since result track.old track.new drive.now }
{
    if !may(drive).begin {
        return COMMAND_OPEN;
    }
    if drive.is_written() {
        return NOT_SAVED;
    }
    tell_of(drive, since, track)
}

fn tell_of(drive: &Drive<VolumeFile>, since: u64, track: &mut ShownTrack) -> i32
    requires idle { is_idle drive.now.work ≡ true }
    requires saved { is_written drive.now.state ≡ false }
    ensures { TellsNextOf since result track.old track.new drive.now }
{
    let size = drive.geometry().track_size;
    tell_next(first_file(drive.image()), size, since, track)
}

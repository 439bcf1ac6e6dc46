//! Which tracks of a volume's file were written, for who saves them.

ghost use Rattle.std.specs.Prelude.{◌≡◌};
ghost use Rattle.subsystem_calls.specs.Saving.{TellsNextOf};
ghost use Rattle.dasd_c.specs.Calls.{CallsAny};

use crate::handle::{Handle, put, take};
use dasd_files::ShownTrack;
use std::alloc::Global;
use subsystem_calls::show_next_changed;
use subsystem_calls::tell::NOTHING_HELD;

/// Shows the next track of a file of a drive's volume, from the one that `track.next` names on, that may have been written since the file's
/// number of changes was this one: 1, or 0 where there is none. The program that runs on the drive's channel is not the drive's.
#[unsafe(no_mangle)]
pub extern "C" fn dasd_next_changed(
    handle: &mut Handle,
    alloc: Global,
    address: u16,
    file: u8,
    since: u64,
    track: &mut ShownTrack,
) -> i32
    ensures { CallsAny handle.old.slot.held handle.new.slot.held result
        (λ old new. (new ≡ old) × TellsNextOf old address file since result track.old track.new) }
{
    let Some(subsystem) = take(handle, alloc) else {
        return NOTHING_HELD;
    };
    let code = show_next_changed(&subsystem.channels, address, file, since, track);
    put(handle, subsystem);
    code
}

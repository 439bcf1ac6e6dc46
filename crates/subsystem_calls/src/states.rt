//! What channels are between two programs is saved as bytes, and restored.

ghost use Rattle.std.specs.Prelude.{◌≡◌, length};
ghost use Rattle.s360_channels.specs.Saves.{all_saved};
ghost use Rattle.dasd_subsystem.specs.Saving.{restored_by};
ghost use Rattle.subsystem_calls.specs.States.{TellsRestored, TellsSaved, restore_code};

use crate::tell::{DONE, NO_ROOM, PROGRAM_RUNS};
use dasd_subsystem::{RestoreRefusal, Subsystem};
use s360_channel::SavedFault as Why;
use s360_channels::SavedFault;
use saved_state::{BytesFault, LENGTH};

/// Saves all that the channels are between two programs, beside main storage and volumes, in the first bytes of these.
pub fn save(subsystem: &Subsystem, into: &mut [u8], written: &mut usize) -> i32
    ensures { TellsSaved (all_saved subsystem.now.channels.channels) result into.old into.new written.old written.new }
{
    let Some(bytes) = subsystem.saved() else {
        return PROGRAM_RUNS;
    };
    if into.len() < LENGTH {
        return NO_ROOM;
    }
    into[..LENGTH].copy_from_slice(bytes.as_slice());
    *written = LENGTH;
    DONE
}

/// Restores the channels as they were saved in these bytes, or none of them.
pub fn restore(subsystem: &mut Subsystem, from: &[u8]) -> i32
    ensures told { TellsRestored (restored_by from.now subsystem.old.channels) result subsystem.old.channels subsystem.new.channels }
    ensures storage { subsystem.new.storage ≡ subsystem.old.storage }
{
    match subsystem.restore(from) {
        Ok(()) => DONE,
        Err(refusal) => of_restore(refusal),
    }
}

// Why channels are not restored.
fn of_restore(refusal: RestoreRefusal) -> i32
    ensures { result ≡ restore_code refusal }
{
    match refusal {
        RestoreRefusal::Bytes(BytesFault::NotSaved) => -40,
        RestoreRefusal::Bytes(BytesFault::OtherVersion) => -41,
        RestoreRefusal::Bytes(BytesFault::OtherLength) => -42,
        RestoreRefusal::Bytes(BytesFault::OtherSum) => -43,
        RestoreRefusal::Bytes(BytesFault::NotSound) => -44,
        RestoreRefusal::Channels(SavedFault::OtherChannels) => -45,
        RestoreRefusal::Channels(SavedFault::Refused(Why::ProgramRuns)) => PROGRAM_RUNS,
        RestoreRefusal::Channels(SavedFault::Refused(Why::OtherDrives)) => -46,
        RestoreRefusal::Channels(SavedFault::Refused(Why::NoSuchTrack)) => -47,
        RestoreRefusal::Channels(SavedFault::Refused(Why::NotOwed)) => -27,
    }
}

//! What is shown of a channel program while it runs, between two units.

ghost use Rattle.std.specs.Prelude.{◌≡◌, option_map};
ghost use Rattle.s360_words.specs.Storage.{Storage as StorageState};
ghost use Rattle.s360_channels.specs.Channels.{channel_at};
ghost use Rattle.s360_channels.specs.Selectors.{across};
ghost use Rattle.subsystem_calls.specs.Watching.{ShowsProgramOf, ShowsRegistersOf};

use crate::sized::{tell_program, tell_registers};
use crate::tell::{DONE, NO_CHANNEL, NO_PROGRAM};
use dasd_files::VolumeFile;
use dasd_subsystem::{ShownProgram, ShownRegisters};
use s360_channels::Selectors;

/// Shows the program that runs on a channel, in a struct of so many bytes.
pub fn show_program(channels: &Selectors<VolumeFile>, number: u8, shown: &mut [u8]) -> i32
    ensures { (s : StorageState) → ShowsProgramOf (channel_at number (across channels.now s)) s result shown.old shown.new }
{
    if !channels.has(number) {
        return NO_CHANNEL;
    }
    match channels.program(number) {
        Some(program) => {
            tell_program(shown, &ShownProgram::of(program));
            DONE
        }
        None => NO_PROGRAM,
    }
}

/// Shows what the drive of the program that runs on a channel remembers beside its volume, in a struct of so many bytes.
pub fn show_registers(channels: &Selectors<VolumeFile>, number: u8, shown: &mut [u8]) -> i32
    ensures { (s : StorageState) → ShowsRegistersOf (channel_at number (across channels.now s)) s result shown.old shown.new }
{
    if !channels.has(number) {
        return NO_CHANNEL;
    }
    match channels.drive_at_work(number) {
        Some(drive) => {
            tell_registers(shown, &ShownRegisters::of(drive.registers()));
            DONE
        }
        None => NO_PROGRAM,
    }
}

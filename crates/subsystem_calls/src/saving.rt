//! Which tracks of a volume's file were written, for who saves them.

ghost use Rattle.std.specs.Prelude.{◌≡◌, ◌/◌, ◌%◌, Some};
ghost use Rattle.s360_words.specs.Storage.{Storage as StorageState};
ghost use Rattle.s360_channels.specs.Selectors.{across};
ghost use Rattle.subsystem_calls.specs.Saving.{TellsNextIn, TellsNextOf};

use crate::showing::is_at_work;
use crate::tell::{NO_CHANNEL, NO_DRIVE, NO_FILE, PROGRAM_RUNS};
use ckd_image::Image;
use dasd_files::{ShownTrack, VolumeFile, tell_next};
use s360_channels::Selectors;

/// Shows the next track of a file of a drive's volume, from the one that `track.next` names on, that may have been written since the file's
/// number of changes was this one: 1, or 0 where there is none. The program that runs on the drive's channel is not the drive's.
pub fn show_next_changed(
    channels: &Selectors<VolumeFile>,
    address: u16,
    file: u8,
    since: u64,
    track: &mut ShownTrack,
) -> i32
    ensures { (s : StorageState) → TellsNextOf (across channels.now s) address file since result track.old track.new }
{
    if is_at_work(channels, address) {
        return PROGRAM_RUNS;
    }
    if !channels.has((address / 256) as u8) {
        return NO_CHANNEL;
    }
    match channels.image(address) {
        Some(image) => next_in(image, file, since, track),
        None => NO_DRIVE,
    }
}

fn next_in(image: &Image<VolumeFile>, file: u8, since: u64, track: &mut ShownTrack) -> i32
    ensures { TellsNextIn (Some image.now) file since result track.old track.new }
{
    match image.store(file as usize) {
        Some(store) => tell_next(store, image.geometry().track_size, since, track),
        None => NO_FILE,
    }
}

//! What is shown of channels and drives.

ghost use Rattle.std.specs.Prelude.{◌≡◌, ◌/◌, ◌%◌, Some, length};
ghost use Rattle.s360_words.specs.Storage.{Storage as StorageState};
ghost use Rattle.s360_channels.specs.Channels.{channel_at};
ghost use Rattle.s360_channels.specs.Selectors.{across};
ghost use Rattle.subsystem_calls.specs.Shown.{ShowsDriveOf, ShowsStateOf, WorksAt, is_working};

use crate::tell::{DONE, NO_CHANNEL, NO_DRIVE};
use dasd_files::VolumeFile;
use dasd_subsystem::{ShownChannel, ShownDrive};
use s360_channel::SubchannelView;
use s360_channels::Selectors;

/// Whether the program that runs on the channel of an address is that of its drive.
pub fn is_at_work(channels: &Selectors<VolumeFile>, address: u16) -> bool
    ensures { (s : StorageState) → WorksAt result s (address % 256) (channel_at (address / 256) (across channels.now s)) }
{
    match channels.state((address / 256) as u8) {
        Some(view) => is_working(view.subchannel, (address % 256) as u8),
        None => false,
    }
}

fn is_working(subchannel: SubchannelView, device: u8) -> bool
    ensures { result ≡ is_working device subchannel }
{
    match subchannel {
        SubchannelView::Idle => false,
        SubchannelView::Working(working, _) => working == device,
        SubchannelView::Pending(_, _) => false,
    }
}

/// Shows the drive at an address.
pub fn show_drive(channels: &Selectors<VolumeFile>, address: u16, shown: &mut ShownDrive) -> i32
    ensures { (s : StorageState) → ShowsDriveOf (channel_at (address / 256) (across channels.now s)) (address % 256) result shown.old shown.new }
{
    if !channels.has((address / 256) as u8) {
        return NO_CHANNEL;
    }
    match channels.drive(address) {
        Some(drive) => {
            *shown = ShownDrive::of(drive);
            DONE
        }
        None => NO_DRIVE,
    }
}

/// Shows a channel.
pub fn show_channel(channels: &Selectors<VolumeFile>, number: u8, shown: &mut ShownChannel) -> i32
    ensures { (s : StorageState) → ShowsStateOf (channel_at number (across channels.now s)) s result shown.old shown.new }
{
    match channels.state(number) {
        Some(state) => {
            *shown = ShownChannel::of(state);
            DONE
        }
        None => NO_CHANNEL,
    }
}

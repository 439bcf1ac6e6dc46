//! What is shown of a channel, its program, its drives and their volumes.

ghost use Rattle.std.specs.Prelude.{◌≡◌, ◌/◌, ◌%◌, is_some, option_map};
ghost use Rattle.s360_words.specs.Storage.{Storage as StorageState};
ghost use Rattle.s360_channels.specs.Asked.{ShowsAt, ShowsDriveAtWorkAt, ShowsProgramAt, drive_at, image_at};
ghost use Rattle.s360_channels.specs.Channels.{channel_at, numbered};
ghost use Rattle.s360_channels.specs.Selectors.{across};

use crate::selectors::Selectors;
use ckd_drive::Drive;
use ckd_image::{Image, ImageStore};
use s360_channel::{DriveView, View, Watched};

impl<S: ImageStore> Selectors<S> {
    /// Whether there is a channel with this number.
    pub fn has(&self, number: u8) -> bool
        ensures { result ≡ is_some (numbered number self.now.channels) }
    {
        self.selector(number).is_some()
    }

    /// The subchannel and the arms of the channel with this number, as `Channel::state` shows them; none where there is no such
    /// channel.
    pub fn state(&self, number: u8) -> Option<View>
        ensures { (s : StorageState) → ShowsAt result s (channel_at number (across self.now s)) }
    {
        Some(self.selector(number)?.state())
    }

    /// The program that runs at the channel with this number, between two units, as `Channel::program` shows it over the shared
    /// storage; none where none runs, and where there is no such channel.
    pub fn program(&self, number: u8) -> Option<Watched>
        ensures { (s : StorageState) → ShowsProgramAt result s (channel_at number (across self.now s)) }
    {
        self.selector(number)?.program()
    }

    /// The drive of the program that runs at the channel with this number, lent, as `Channel::drive_at_work` lends it; none where
    /// none runs, and where there is no such channel.
    pub fn drive_at_work(&self, number: u8) -> Option<&Drive<S>>
        ensures { (s : StorageState) → ShowsDriveAtWorkAt (option_map (λ d. d.now) result) s (channel_at number (across self.now s)) }
    {
        self.selector(number)?.drive_at_work()
    }

    /// What is known of the drive at an address without a channel program, as `Channel::drive` says it; none where there is no
    /// such channel or drive.
    pub fn drive(&self, address: u16) -> Option<DriveView>
        ensures { (s : StorageState) → result ≡ drive_at (address % 256) (channel_at (address / 256) (across self.now s)) }
    {
        self.selector((address / 256) as u8)?
            .drive((address % 256) as u8)
    }

    /// The image of the drive at an address, lent, as `Channel::image` lends it; none where there is no such channel or drive.
    pub fn image(&self, address: u16) -> Option<&Image<S>>
        ensures { (s : StorageState) → option_map (λ i. i.now) result ≡ image_at (address % 256) (channel_at (address / 256) (across self.now s)) }
    {
        self.selector((address / 256) as u8)?
            .image((address % 256) as u8)
    }
}

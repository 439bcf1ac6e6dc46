//! What a selector shows of itself, whatever storage it is lent.

ghost use Rattle.std.specs.Prelude.{◌≡◌, option_map};
ghost use Rattle.s360_words.specs.Storage.{Storage as StorageState};
ghost use Rattle.s360_laws.specs.Events as machine;
ghost use Rattle.s360_laws.specs.Machine.{Machine};
ghost use Rattle.s360_laws.specs.Seen.{answer_seen};
ghost use Rattle.s360_laws.specs.declared.answers.Answer.TheVariants as answer;
ghost use Rattle.s360_channel.specs.Channel.{StandsFor};
ghost use Rattle.attached_drives.specs.Drives.{device_of};
ghost use Rattle.s360_channel.specs.Calls.{DoesQuietly};
ghost use Rattle.s360_channel.specs.Selector.{over};
ghost use Rattle.s360_channel.specs.Views.{ShowsDrive, ShowsVolume, attached_with, interrupts, subchannel_seen, view_of};
ghost use Rattle.attached_drives.specs.Shown.{drive_seen};
ghost use Rattle.s360_channel.specs.Watched.{ShowsProgram, ShowsDriveAtWork};

use crate::selector::Selector;
use crate::subchannel::Subchannel;
use crate::view::{SubchannelView, View, Watched};
use attached_drives::DriveView;
use ckd_drive::Drive;
use ckd_image::{Image, ImageStore};
use s360_laws::Condition;

impl<S: ImageStore> Selector<S> {
    /// Test Channel, as `Channel::tch`.
    pub fn tch(&self) -> Condition<()>
        ensures { (s : StorageState) (m : Machine) → StandsFor (over self.now s) m
            → DoesQuietly machine.Tch m (answer_seen (answer.Tch result)) (over self.now s) }
    {
        match self.subchannel {
            Subchannel::Idle => Condition::Zero,
            Subchannel::Working(_, _) => Condition::Two,
            Subchannel::Pending(_, _) => Condition::Stored(()),
        }
    }

    /// Whether `interrupt` would give an interruption now.
    pub fn is_pending(&self) -> bool
        ensures { (s : StorageState) (m : Machine) → StandsFor (over self.now s) m → result ≡ interrupts m }
    {
        match &self.subchannel {
            Subchannel::Idle => self.drives.lowest_arrived().is_some(),
            Subchannel::Working(_, running) => running.interruption_asked(),
            Subchannel::Pending(_, _) => true,
        }
    }

    /// The subchannel and the arms.
    pub fn state(&self) -> View
        ensures { (s : StorageState) (m : Machine) → StandsFor (over self.now s) m → result ≡ view_of m }
    {
        View {
            subchannel: self.subchannel_shown(),
            drives: self.drives.shown(),
        }
    }

    pub(crate) fn subchannel_shown(&self) -> SubchannelView
        ensures { (s : StorageState) (m : Machine) → StandsFor (over self.now s) m
            → result ≡ subchannel_seen m m.subchannel }
    {
        match &self.subchannel {
            Subchannel::Idle => SubchannelView::Idle,
            Subchannel::Working(place, running) => {
                SubchannelView::Working(self.drives.device(*place), running.interruption_asked())
            }
            Subchannel::Pending(device, csw) => SubchannelView::Pending(*device, *csw),
        }
    }

    /// What is known of the drive with this low byte of an address, as `Channel::drive`.
    pub fn drive(&self, device: u8) -> Option<DriveView>
        ensures drive { result ≡ option_map (λ u. drive_seen (device_of u)) (attached_with device self.now.drives) }
        ensures shows { (s : StorageState) (m : Machine) → StandsFor (over self.now s) m → ShowsDrive device m result }
    {
        let Some(place) = self.drives.place_of(device) else {
            return None;
        };
        Some(self.drives.seen(place))
    }

    /// The image of the drive with this low byte of an address, lent, as `Channel::image`.
    pub fn image(&self, device: u8) -> Option<&Image<S>>
        ensures image { option_map (λ i. i.now) result
            ≡ option_map (λ u. u.drive.image) (attached_with device self.now.drives) }
        ensures shows { (s : StorageState) (m : Machine) → StandsFor (over self.now s) m
            → ShowsVolume device m (option_map (λ i. i.now) result) }
    {
        let Some(place) = self.drives.place_of(device) else {
            return None;
        };
        Some(self.drives.drive(place).image())
    }

    /// The program that runs, between two units, as `Channel::program`.
    pub fn program(&self) -> Option<Watched>
        ensures { (s : StorageState) (m : Machine) → StandsFor (over self.now s) m → ShowsProgram m result }
    {
        match &self.subchannel {
            Subchannel::Working(place, running) => Some(Watched {
                device: self.drives.device(*place),
                program: running.view(),
            }),
            Subchannel::Idle | Subchannel::Pending(_, _) => None,
        }
    }

    /// The drive of the program that runs, lent, as `Channel::drive_at_work`.
    pub fn drive_at_work(&self) -> Option<&Drive<S>>
        ensures { (s : StorageState) (m : Machine) → StandsFor (over self.now s) m
            → ShowsDriveAtWork m (option_map (λ d. d.now) result) }
    {
        match &self.subchannel {
            Subchannel::Working(place, _) => Some(self.drives.drive(*place)),
            Subchannel::Idle | Subchannel::Pending(_, _) => None,
        }
    }
}

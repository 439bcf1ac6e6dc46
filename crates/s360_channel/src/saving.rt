//! All of a channel between two programs is saved as a value, and put back.

ghost use Rattle.std.specs.Prelude.{◌≡◌, None, Some, length, filter, is_some};
ghost use Rattle.s360_words.specs.Storage.{Storage as StorageState};
ghost use Rattle.s360_laws.specs.Machine.{Machine};
ghost use Rattle.s360_channel.specs.Channel.{StandsFor};
ghost use Rattle.s360_channel.specs.Returns.{WhatWasSavedComesBack, machine_saved};
ghost use Rattle.s360_channel.specs.Saves.{is_ending, is_ending_of, machine_back, may_pend, owes, put_back, saved_of, subchannel_back, why_not_back};
ghost use Rattle.attached_drives.specs.Saved.{entry};
ghost use Rattle.s360_channel.specs.Selector.{KeepsSelector, over};

use crate::faults::SavedFault;
use crate::selector::Selector;
use crate::subchannel::Subchannel;
use attached_drives::{Drives, SavedDrive, entry};
use ckd_image::ImageStore;
use s360_laws::arm::Arm;
use s360_words::{Csw, UnitStatus};

/// All of a channel between two programs, beside main storage and the volumes.
#[derive(Clone, Copy, PartialEq, Eq)]
pub struct SavedChannel {
    /// The channel status word that pends, behind the low byte of its device's address.
    pub pending: Option<(u8, Csw)>,
    /// The drives, in the order of attachment, each behind the low byte of its address.
    pub drives: [Option<(u8, SavedDrive)>; 8],
}

impl SavedChannel {
    // What was saved of the drive with this address.
    pub(crate) fn entry(&self, device: u8) -> Option<SavedDrive>
        ensures { result ≡ entry device self.now.drives }
    {
        entry(device, &self.drives)
    }

    // How many drives were saved.
    fn count(&self) -> usize
        ensures { result ≡ length (filter is_some self.now.drives) }
    {
        count(&self.drives)
    }
}

impl<S: ImageStore> Selector<S> {
    /// All of the selector between two programs; none while one runs.
    pub fn saved(&self) -> Option<SavedChannel>
        ensures saved { result ≡ saved_of self.now }
        ensures shows { (s : StorageState) (m : Machine) → StandsFor (over self.now s) m → result ≡ machine_saved m }
    {
        self.all_saved()
    }

    // The same, as it is kept.
    fn all_saved(&self) -> Option<SavedChannel>
        ensures { result ≡ saved_of self.now }
    {
        let pending = match &self.subchannel {
            Subchannel::Idle => None,
            Subchannel::Working(_, _) => return None,
            Subchannel::Pending(device, csw) => Some((*device, *csw)),
        };
        Some(SavedChannel {
            pending,
            drives: self.drives.saved(),
        })
    }

    /// Why it can't be put back as it was saved, if it can't.
    pub fn why_not_back(&self, saved: &SavedChannel) -> Option<SavedFault>
        ensures { result ≡ why_not_back saved.now self.now }
    {
        if let Subchannel::Working(_, _) = &self.subchannel {
            return Some(SavedFault::ProgramRuns);
        }
        if saved.count() != self.drives.len() || !self.drives.are_saved(&saved.drives) {
            return Some(SavedFault::OtherDrives);
        }
        if !self.drives.have_tracks(&saved.drives) {
            return Some(SavedFault::NoSuchTrack);
        }
        if !may_pend(&self.drives, saved) {
            return Some(SavedFault::NotOwed);
        }
        None
    }

    /// Puts it back as it was saved: its subchannel, and of each drive the arm, the cylinder, the head and the sense bytes. Volumes
    /// stay. It makes no call of a store and takes no memory.
    pub fn put_back(&mut self, saved: &SavedChannel)
        requires { why_not_back saved.now self.old ≡ None }
        ensures becomes { self.new ≡ put_back saved.now self.old }
        ensures stands { (s : StorageState) (m : Machine) → StandsFor (over self.old s) m
            → StandsFor (over self.new s) (machine_back saved.now m) }
        ensures same { KeepsSelector self.old self.new }
    {
        self.drives.put_back(&saved.drives);
        self.subchannel = subchannel_back(saved.pending);
    }
}

// The subchannel: available, or this word pends.
fn subchannel_back(pending: Option<(u8, Csw)>) -> Subchannel
    ensures { result ≡ subchannel_back pending }
{
    match pending {
        None => Subchannel::Idle,
        Some((device, csw)) => Subchannel::Pending(device, csw),
    }
}

// How many of these places hold an entry.
fn count(entries: &[Option<(u8, SavedDrive)>]) -> usize
    ensures { result ≡ length (filter is_some entries.now) }
{
    entries.iter().filter(|place| place.is_some()).count()
}

// Whether the word that is to pend is that of an attached drive, and its ending.
fn may_pend<S: ImageStore>(drives: &Drives<S>, saved: &SavedChannel) -> bool
    ensures { result ≡ may_pend saved.now.pending saved.now.drives drives.now }
{
    match saved.pending {
        None => true,
        Some((device, csw)) => {
            drives.place_of(device).is_some() && is_ending_of(csw, saved.entry(device))
        }
    }
}

fn is_ending_of(csw: Csw, saved: Option<SavedDrive>) -> bool
    ensures { result ≡ is_ending_of csw saved }
{
    match saved {
        None => false,
        Some(drive) => is_ending(csw, drive.arm),
    }
}

/// Whether a channel status word is an ending beside an arm: it has channel end; and either it has the device end, or the arm owes it.
pub(crate) fn is_ending(csw: Csw, arm: Arm) -> bool
    ensures { result ≡ is_ending csw arm }
{
    let ends_channel = csw.unit.0 & UnitStatus::CHANNEL_END.0 != 0;
    let ends_device = csw.unit.0 & UnitStatus::DEVICE_END.0 != 0;
    ends_channel && ends_device != owes(arm)
}

// Whether an arm owes a device end.
fn owes(arm: Arm) -> bool
    ensures { result ≡ owes arm }
{
    match arm {
        Arm::AtRest => false,
        Arm::InMotion | Arm::Arrived => true,
    }
}

/// Law: what was saved of a machine makes it of any other with the same channel, storage, addresses and volumes. So a channel that is put
/// back stands for the machine that was saved.
pub fn what_was_saved_comes_back()
    ensures { WhatWasSavedComesBack }
{}

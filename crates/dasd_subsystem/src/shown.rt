//! What a C program is shown of a channel and of a drive: numbers in the place of names.

ghost use Rattle.std.specs.Prelude.{◌≡◌};
ghost use Rattle.dasd_subsystem.specs.Shown.{ShowsState, arm_shown, drive_shown, drives_shown, number_of_arm, numbers_of, unit_shown};

use ckd_track::DriveModel;
use s360_channel::{DriveView, SubchannelView, View};
use s360_laws::arm::Arm;

/// What is known of a drive without a channel program.
#[repr(C)]
#[derive(Clone, Copy)]
pub struct ShownDrive {
    /// 2311 or 2314.
    pub model: u16,
    /// The cylinders of its volume.
    pub cylinders: u16,
    /// The cylinder where its arm is, or where it goes.
    pub cylinder: u16,
    /// Its head.
    pub head: u16,
    /// What its arm does: 0 at rest, 1 in motion, 2 arrived.
    pub arm: u8,
    /// Its sense bytes.
    pub sense: [u8; 6],
    /// 0.
    pub reserved: u8,
}

impl ShownDrive {
    /// What is shown of this.
    pub fn of(drive: DriveView) -> ShownDrive
        ensures { result ≡ drive_shown drive }
    {
        let sense = drive.sense;
        ShownDrive {
            model: drive.model.number(),
            cylinders: drive.cylinders,
            cylinder: drive.cylinder,
            head: drive.head,
            arm: number_of_arm(drive.arm),
            sense,
            reserved: 0,
        }
    }
}

/// A channel as it is shown.
#[repr(C)]
#[derive(Clone, Copy)]
pub struct ShownChannel {
    /// Its subchannel: 0 available, 1 a program runs, 2 its channel status word pends.
    pub subchannel: u8,
    /// The device that has the subchannel.
    pub device: u8,
    /// Whether a word of the program asked for an interruption, 1 or 0.
    pub asked: u8,
    /// How many drives are attached.
    pub drives: u8,
    /// The low bytes of their addresses, in the order of attachment.
    pub units: [u8; 8],
    /// What their arms do: 0 at rest, 1 in motion, 2 arrived.
    pub arms: [u8; 8],
}

impl ShownChannel {
    /// What is shown of this.
    pub fn of(view: View) -> ShownChannel
        ensures { ShowsState result view }
    {
        let (subchannel, device, asked) = seen(view.subchannel);
        ShownChannel {
            subchannel,
            device,
            asked,
            drives: count_of(&view.drives),
            units: view.drives.map(unit_of),
            arms: view.drives.map(arm_of),
        }
    }
}

// How many drives are attached.
fn count_of(drives: &[Option<(u8, Arm)>; 8]) -> u8
    ensures { result ≡ drives_shown drives.now }
{
    let mut count = 0;
    for drive in drives {
        if drive.is_some() {
            count += 1;
        }
    }
    count
}

fn unit_of(drive: Option<(u8, Arm)>) -> u8
    ensures { result ≡ unit_shown drive }
{
    match drive {
        Some((unit, _)) => unit,
        None => 0,
    }
}

fn arm_of(drive: Option<(u8, Arm)>) -> u8
    ensures { result ≡ arm_shown drive }
{
    match drive {
        Some((_, arm)) => number_of_arm(arm),
        None => 0,
    }
}

/// The number of a subchannel, the device that has it, and whether its program asked for an interruption.
pub fn seen(subchannel: SubchannelView) -> (u8, u8, u8)
    ensures { result ≡ numbers_of subchannel }
{
    match subchannel {
        SubchannelView::Idle => (0, 0, 0),
        SubchannelView::Working(device, asked) => (1, device, asked as u8),
        SubchannelView::Pending(device, _) => (2, device, 0),
    }
}

fn number_of_arm(arm: Arm) -> u8
    ensures { result ≡ number_of_arm arm }
{
    match arm {
        Arm::AtRest => 0,
        Arm::InMotion => 1,
        Arm::Arrived => 2,
    }
}

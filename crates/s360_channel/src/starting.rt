//! Start I/O: the first unit of a program, and what it leaves.

ghost use Rattle.std.specs.Prelude.{◌≡◌, length, map, Some, if◌then◌else◌};
ghost use Rattle.s360_words.specs.Storage.{changed, status_stored};
ghost use Rattle.ckd_command.specs.Drive.{drive_of};
ghost use Rattle.s360_laws.specs.Starts.{first};
ghost use Rattle.s360_laws.specs.Status.{busy_device_end, no_channel_status, with_interruption};
ghost use Rattle.s360_laws.specs.Events as machine;
ghost use Rattle.s360_laws.specs.Machine.{Machine, start_of, started, start_device};
ghost use Rattle.s360_laws.specs.declared.arm.Arm.TheVariants.{InMotion, AtRest};
ghost use Rattle.s360_laws.specs.Seen.{condition_seen, status_seen, answer_seen};
ghost use Rattle.s360_laws.specs.declared.answers.Answer.TheVariants as answer;
ghost use Rattle.s360_laws.specs.declared.status.Condition.TheVariants.{Stored};
ghost use Rattle.s360_program.specs.Advances.{Rests};
ghost use Rattle.s360_storage.specs.Kept.{KeepsStorage};
ghost use Rattle.s360_channel.specs.Channel.{StandsFor};
ghost use Rattle.attached_drives.specs.Drives.{device_of};
ghost use Rattle.s360_channel.specs.Calls.{DoesQuietly, CallsNoStore};
ghost use Rattle.s360_channel.specs.Nexts.{DoesAt};
ghost use Rattle.s360_channel.specs.Selector.{KeepsSelector, over};
ghost use Rattle.attached_drives.specs.DriveCalls.{DriveIs};
ghost use Rattle.s360_channel.specs.declared.subchannel.Subchannel.TheVariants.{Idle};

use crate::selector::Selector;
use crate::subchannel::Subchannel;
use attached_drives::Drives;
use ckd_image::ImageStore;
use s360_laws::arm::Arm;
use s360_laws::{Condition, Status};
use s360_program::laws::accepted_stands;
use s360_program::program::Start;
use s360_storage::MainStorage;
use s360_words::{ChannelStatus, UnitStatus};

impl<S: ImageStore> Selector<S> {
    /// Start I/O at an input/output address, over this storage, as `Channel::sio`.
    pub fn sio<M: MainStorage>(&mut self, storage: &mut M, address: u16) -> Condition<Status>
        requires size { length (M.holds storage.old).bytes ≡ self.old.size }
        ensures does { (m : Machine) → StandsFor (over self.old (M.holds storage.old)) m
            → DoesQuietly (machine.Sio address) m (answer_seen (answer.Sio address result)) (over self.new (M.holds storage.new)) }
        ensures calls { CallsNoStore (over self.old (M.holds storage.old)) (over self.new (M.holds storage.new)) }
        ensures same { KeepsSelector self.old self.new }
        ensures keeps { KeepsStorage (M.holds storage.old) (M.holds storage.new) }
        ensures place { M.place storage.new ≡ M.place storage.old }
    {
        self.is_over(storage);
        if address / 256 != self.number as u16 {
            return Condition::Three;
        }
        let Subchannel::Idle = self.subchannel else {
            return Condition::Two;
        };
        let device = (address % 256) as u8;
        let Some(place) = self.drives.place_of(device) else {
            return Condition::Three;
        };
        start_device(place, storage, &mut self.subchannel, &mut self.drives)
    }
}

// The drive at a place is started, or its arm keeps it busy.
fn start_device<S: ImageStore, M: MainStorage>(
    place: usize,
    storage: &mut M,
    subchannel: &mut Subchannel,
    drives: &mut Drives<S>,
) -> Condition<Status>
    requires idle { subchannel.old ≡ Idle }
    requires rests { DriveIs place Rests drives.old }
    ensures does { DoesAt place (λ u m. start_device u.device m (Some (device_of u)))
        (condition_seen status_seen result) (M.holds storage.old) drives.old (M.holds storage.new) subchannel.new drives.new }
    ensures images { map (λ u. u.drive.image) drives.new ≡ map (λ u. u.drive.image) drives.old }
    ensures keeps { KeepsStorage (M.holds storage.old) (M.holds storage.new) }
    ensures place { M.place storage.new ≡ M.place storage.old }
{
    match drives.arm(place) {
        Arm::InMotion => status_stored(UnitStatus::BUSY, ChannelStatus(0), storage),
        Arm::Arrived => {
            drives.set_arm(place, Arm::AtRest);
            status_stored(busy_device_end(), ChannelStatus(0), storage)
        }
        Arm::AtRest => start_program(place, storage, subchannel, drives),
    }
}

// The drive at a place does the first unit of the program that the channel address word leads to.
#[tactic(auto, using(crate::proofs::Started::started_images))]
fn start_program<S: ImageStore, M: MainStorage>(
    place: usize,
    storage: &mut M,
    subchannel: &mut Subchannel,
    drives: &mut Drives<S>,
) -> Condition<Status>
    requires idle { subchannel.old ≡ Idle }
    requires rests { DriveIs place Rests drives.old }
    ensures does { DoesAt place (λ u m. started u.device m (first (start_of m (drive_of u.drive.state))))
        (condition_seen status_seen result) (M.holds storage.old) drives.old (M.holds storage.new) subchannel.new drives.new }
    ensures images { map (λ u. u.drive.image) drives.new ≡ map (λ u. u.drive.image) drives.old }
    ensures keeps { KeepsStorage (M.holds storage.old) (M.holds storage.new) }
    ensures place { M.place storage.new ≡ M.place storage.old }
{
    accepted_stands();
    let caw = storage.caw_word();
    match drives.start(place, caw, storage) {
        Start::Bad => status_stored(UnitStatus(0), ChannelStatus::PROGRAM_CHECK, storage),
        Start::Rejected => status_stored(UnitStatus::UNIT_CHECK, ChannelStatus(0), storage),
        Start::Immediate(told, asked) => {
            drives.set_arm(place, arm_after(told.motion));
            status_stored(told.unit, interruption_told(asked), storage)
        }
        Start::Accepted(running) => {
            *subchannel = Subchannel::Working(place, running);
            Condition::Zero
        }
    }
}

// Unit status and channel status are stored, and reported with code 1.
fn status_stored<M: MainStorage>(
    unit: UnitStatus,
    channel: ChannelStatus,
    storage: &mut M,
) -> Condition<Status>
    ensures answer { result ≡ Stored (record { unit = unit; channel = channel }) }
    ensures storage { M.holds storage.new ≡ changed (status_stored unit.0 channel.0) (M.holds storage.old) }
    ensures keeps { KeepsStorage (M.holds storage.old) (M.holds storage.new) }
    ensures place { M.place storage.new ≡ M.place storage.old }
{
    storage.put_status(unit, channel);
    Condition::Stored(Status { unit, channel })
}

// Busy, and the device end that was owed.
fn busy_device_end() -> UnitStatus
    ensures { result ≡ busy_device_end }
{
    UnitStatus(UnitStatus::BUSY.0 | UnitStatus::DEVICE_END.0)
}

// What the arm does after the end of a program.
fn arm_after(motion: bool) -> Arm
    ensures { result ≡ (if motion then InMotion else AtRest) }
{
    if motion { Arm::InMotion } else { Arm::AtRest }
}

// The channel status of an ending that nothing disturbed: whether an interruption was asked for and not taken.
fn interruption_told(asked: bool) -> ChannelStatus
    ensures { result ≡ with_interruption asked no_channel_status }
{
    if asked {
        ChannelStatus::PROGRAM_CONTROLLED_INTERRUPTION
    } else {
        ChannelStatus(0)
    }
}

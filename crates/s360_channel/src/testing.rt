//! Test I/O: what pends is stored, and is over.

ghost use Rattle.std.specs.Prelude.{◌≡◌, length, map};
ghost use Rattle.s360_words.specs.Storage.{changed, csw_stored};
ghost use Rattle.s360_laws.specs.Events as machine;
ghost use Rattle.s360_laws.specs.Machine.{Machine, test_device, device_at, csw_of_unit};
ghost use Rattle.s360_laws.specs.Seen.{condition_seen, csw_seen, answer_seen};
ghost use Rattle.s360_laws.specs.declared.answers.Answer.TheVariants as answer;
ghost use Rattle.s360_laws.specs.declared.status.Condition.TheVariants.{Stored};
ghost use Rattle.s360_storage.specs.Kept.{KeepsStorage};
ghost use Rattle.s360_channel.specs.Channel.{StandsFor};
ghost use Rattle.s360_channel.specs.Calls.{DoesQuietly, CallsNoStore};
ghost use Rattle.s360_channel.specs.Nexts.{DoesIdle};
ghost use Rattle.s360_channel.specs.Selector.{KeepsSelector, over};
ghost use Rattle.s360_channel.specs.declared.subchannel.Subchannel.TheVariants.{Idle};

use crate::selector::Selector;
use crate::subchannel::Subchannel;
use attached_drives::Drives;
use ckd_image::ImageStore;
use s360_laws::Condition;
use s360_laws::arm::Arm;
use s360_storage::MainStorage;
use s360_words::{ChannelStatus, Csw, UnitStatus};

impl<S: ImageStore> Selector<S> {
    /// Test I/O at an input/output address, over this storage, as `Channel::tio`.
    pub fn tio<M: MainStorage>(&mut self, storage: &mut M, address: u16) -> Condition<Csw>
        requires size { length (M.holds storage.old).bytes ≡ self.old.size }
        ensures does { (m : Machine) → StandsFor (over self.old (M.holds storage.old)) m
            → DoesQuietly (machine.Tio address) m (answer_seen (answer.Tio address result)) (over self.new (M.holds storage.new)) }
        ensures calls { CallsNoStore (over self.old (M.holds storage.old)) (over self.new (M.holds storage.new)) }
        ensures same { KeepsSelector self.old self.new }
        ensures keeps { KeepsStorage (M.holds storage.old) (M.holds storage.new) }
        ensures place { M.place storage.new ≡ M.place storage.old }
    {
        self.is_over(storage);
        if address / 256 != self.number as u16 {
            return Condition::Three;
        }
        let device = (address % 256) as u8;
        match &self.subchannel {
            Subchannel::Idle => test_device(device, storage, &mut self.drives),
            Subchannel::Working(_, _) => Condition::Two,
            Subchannel::Pending(pending, csw) => {
                if device != *pending {
                    return Condition::Two;
                }
                let csw = *csw;
                self.subchannel = Subchannel::Idle;
                csw_stored(csw, storage)
            }
        }
    }
}

// Test I/O at a device while the channel is available.
fn test_device<S: ImageStore, M: MainStorage>(
    device: u8,
    storage: &mut M,
    drives: &mut Drives<S>,
) -> Condition<Csw>
    ensures does { DoesIdle (λ m. test_device device m (device_at m device)) (condition_seen csw_seen result)
        (M.holds storage.old) drives.old (M.holds storage.new) Idle drives.new }
    ensures images { map (λ u. u.drive.image) drives.new ≡ map (λ u. u.drive.image) drives.old }
    ensures keeps { KeepsStorage (M.holds storage.old) (M.holds storage.new) }
    ensures place { M.place storage.new ≡ M.place storage.old }
{
    let Some(place) = drives.place_of(device) else {
        return Condition::Three;
    };
    match drives.arm(place) {
        Arm::InMotion => csw_stored(csw_of_unit(UnitStatus::BUSY), storage),
        Arm::Arrived => {
            drives.set_arm(place, Arm::AtRest);
            csw_stored(csw_of_unit(UnitStatus::DEVICE_END), storage)
        }
        Arm::AtRest => Condition::Zero,
    }
}

// A channel status word is stored, and reported with code 1.
fn csw_stored<M: MainStorage>(csw: Csw, storage: &mut M) -> Condition<Csw>
    ensures answer { result ≡ Stored csw }
    ensures storage { M.holds storage.new ≡ changed (csw_stored csw) (M.holds storage.old) }
    ensures keeps { KeepsStorage (M.holds storage.old) (M.holds storage.new) }
    ensures place { M.place storage.new ≡ M.place storage.old }
{
    storage.put_csw(csw);
    Condition::Stored(csw)
}

/// A channel status word in which only unit status is not zero.
pub(crate) fn csw_of_unit(unit: UnitStatus) -> Csw
    ensures { result ≡ csw_of_unit unit }
{
    Csw {
        key: 0,
        address: 0,
        unit,
        channel: ChannelStatus(0),
        count: 0,
    }
}

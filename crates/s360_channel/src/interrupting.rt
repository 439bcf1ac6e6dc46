//! Arms that arrive, and interruptions.

ghost use Rattle.std.specs.Prelude.{◌≡◌, ◌+◌, ◌*◌, length, map, filter};
ghost use Rattle.s360_words.specs.Storage.{Storage as StorageState, changed, csw_stored};
ghost use Rattle.s360_laws.specs.Events as machine;
ghost use Rattle.s360_laws.specs.Machine.{Machine, interrupt_device, lowest, has_arrived};
ghost use Rattle.s360_channel.specs.declared.subchannel.Subchannel.TheVariants.{Idle};
ghost use Rattle.s360_storage.specs.Kept.{KeepsStorage};
ghost use Rattle.s360_channel.specs.Channel.{StandsFor};
ghost use Rattle.s360_channel.specs.Calls.{DoesQuietly, CallsNoStore};
ghost use Rattle.s360_channel.specs.Nexts.{DoesOn, TakesProgram};
ghost use Rattle.s360_channel.specs.Selector.{KeepsSelector, over};

use crate::selector::Selector;
use crate::subchannel::Subchannel;
use crate::testing::csw_of_unit;
use attached_drives::Drives;
use ckd_image::ImageStore;
use s360_laws::arm::Arm;
use s360_program::laws::{stands_after_change, stands_after_interruption};
use s360_program::program::Running;
use s360_storage::MainStorage;
use s360_words::{Csw, UnitStatus};

impl<S: ImageStore> Selector<S> {
    /// The arm of the drive at an input/output address arrives, if it moves, as `Channel::arrive`.
    pub fn arrive(&mut self, address: u16) -> bool
        ensures does { (s : StorageState) (m : Machine) → StandsFor (over self.old s) m
            → DoesQuietly (machine.Arrive address) m (machine.HasArrived result) (over self.new s) }
        ensures calls { (s : StorageState) → CallsNoStore (over self.old s) (over self.new s) }
        ensures same { KeepsSelector self.old self.new }
    {
        if address / 256 != self.number as u16 {
            return false;
        }
        let Some(place) = self.drives.place_of((address % 256) as u8) else {
            return false;
        };
        match self.drives.arm(place) {
            Arm::InMotion => {
                self.drives.set_arm(place, Arm::Arrived);
                true
            }
            Arm::AtRest => false,
            Arm::Arrived => false,
        }
    }

    /// The processor takes an interruption, over this storage, as `Channel::interrupt`.
    pub fn interrupt<M: MainStorage>(&mut self, storage: &mut M) -> Option<(u16, Csw)>
        requires size { length (M.holds storage.old).bytes ≡ self.old.size }
        ensures does { (m : Machine) → StandsFor (over self.old (M.holds storage.old)) m
            → DoesQuietly machine.Interrupt m (machine.Interrupted result) (over self.new (M.holds storage.new)) }
        ensures calls { CallsNoStore (over self.old (M.holds storage.old)) (over self.new (M.holds storage.new)) }
        ensures same { KeepsSelector self.old self.new }
        ensures keeps { KeepsStorage (M.holds storage.old) (M.holds storage.new) }
        ensures place { M.place storage.new ≡ M.place storage.old }
    {
        self.is_over(storage);
        stands_after_interruption();
        stands_after_change();
        match &mut self.subchannel {
            Subchannel::Idle => interrupt_device(self.number, storage, &mut self.drives),
            Subchannel::Working(place, running) => {
                let device = self.drives.device(*place);
                interrupt_program(self.number, device, storage, running)
            }
            Subchannel::Pending(device, csw) => {
                let (device, csw) = (*device, *csw);
                self.subchannel = Subchannel::Idle;
                Some(interrupted(self.number, device, csw, storage))
            }
        }
    }
}

// The device end of the lowest address whose arm has arrived.
fn interrupt_device<S: ImageStore, M: MainStorage>(
    number: u8,
    storage: &mut M,
    drives: &mut Drives<S>,
) -> Option<(u16, Csw)>
    ensures does { DoesOn number (λ m. interrupt_device m (lowest (filter has_arrived m.devices)))
        (machine.Interrupted result) (M.holds storage.old) drives.old (M.holds storage.new) Idle drives.new }
    ensures images { map (λ u. u.drive.image) drives.new ≡ map (λ u. u.drive.image) drives.old }
    ensures keeps { KeepsStorage (M.holds storage.old) (M.holds storage.new) }
    ensures place { M.place storage.new ≡ M.place storage.old }
{
    let device = drives.lowest_arrived()?;
    let place = drives.place_of(device)?;
    drives.set_arm(place, Arm::AtRest);
    let csw = csw_of_unit(UnitStatus::DEVICE_END);
    Some(interrupted(number, device, csw, storage))
}

// The interruption that a word of the running program asked for.
fn interrupt_program<M: MainStorage>(
    number: u8,
    device: u8,
    storage: &mut M,
    running: &mut Running,
) -> Option<(u16, Csw)>
    ensures takes { TakesProgram number device result running.old running.new (M.holds storage.old) (M.holds storage.new) }
    ensures keeps { KeepsStorage (M.holds storage.old) (M.holds storage.new) }
    ensures place { M.place storage.new ≡ M.place storage.old }
{
    let csw = running.take_pci()?;
    Some(interrupted(number, device, csw, storage))
}

// The channel status word is stored, and reported with the address.
fn interrupted<M: MainStorage>(number: u8, device: u8, csw: Csw, storage: &mut M) -> (u16, Csw)
    ensures told { result ≡ (256 * number + device, csw) }
    ensures storage { M.holds storage.new ≡ changed (csw_stored csw) (M.holds storage.old) }
    ensures keeps { KeepsStorage (M.holds storage.old) (M.holds storage.new) }
    ensures place { M.place storage.new ≡ M.place storage.old }
{
    storage.put_csw(csw);
    (256 * number as u16 + device as u16, csw)
}

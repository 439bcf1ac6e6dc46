//! Programs that end, by themselves or by a cut; halts and resets.

ghost use Rattle.std.specs.Prelude.{◌≡◌, ◌<◌, ◌+◌, ◌*◌, length, is_some, position, option_map};
ghost use Rattle.s360_words.specs.Storage.{Storage as StorageState};
ghost use Rattle.s360_storage.specs.Kept.{KeepsStorage};
ghost use Rattle.s360_laws.specs.Events as machine;
ghost use Rattle.s360_laws.specs.Machine.{Machine};
ghost use Rattle.s360_laws.specs.Seen.{answer_seen};
ghost use Rattle.s360_laws.specs.declared.answers.Answer.TheVariants as answer;
ghost use Rattle.s360_channel.specs.Channel.{StandsFor};
ghost use Rattle.attached_drives.specs.Drives.{AllRest, is_at};
ghost use Rattle.s360_channel.specs.Calls.{Does, CallsAtMost};
ghost use Rattle.s360_channel.specs.Ends.{IsOver, MayBeCut, CutsProgram, LosesProgram, halted_idle, storage_halted};
ghost use Rattle.s360_channel.specs.Selector.{KeepsSelector, over};

use crate::channel::Reset;
use crate::selector::Selector;
use crate::subchannel::Subchannel;
use attached_drives::Drives;
use ckd_image::ImageStore;
use s360_laws::arm::Arm;
use s360_laws::{Condition, Status};
use s360_storage::MainStorage;
use s360_words::{ChannelStatus, Csw, UnitStatus};
use std::mem;

impl<S: ImageStore> Selector<S> {
    /// Halt I/O at an input/output address, over this storage, as `Channel::hio`.
    pub fn hio<M: MainStorage>(&mut self, storage: &mut M, address: u16) -> Condition<Status>
        requires size { length (M.holds storage.old).bytes ≡ self.old.size }
        ensures does { (m : Machine) → StandsFor (over self.old (M.holds storage.old)) m
            → Does (machine.Hio address) m (answer_seen (answer.Hio address result)) (over self.old (M.holds storage.old))
            (over self.new (M.holds storage.new)) }
        ensures calls { CallsAtMost 1 (over self.old (M.holds storage.old)) (over self.new (M.holds storage.new)) }
        ensures same { KeepsSelector self.old self.new }
        ensures keeps { KeepsStorage (M.holds storage.old) (M.holds storage.new) }
        ensures place { M.place storage.new ≡ M.place storage.old }
    {
        self.is_over(storage);
        if address / 256 != self.number as u16 {
            return Condition::Three;
        }
        match self.subchannel {
            Subchannel::Idle => halt_device((address % 256) as u8, storage, &self.drives),
            Subchannel::Working(_, _) => {
                cut_program(&mut self.subchannel, &mut self.drives);
                Condition::Two
            }
            Subchannel::Pending(_, _) => Condition::Zero,
        }
    }

    /// Resets the selector and its drives, as `Channel::reset`. It needs no storage.
    pub fn reset(&mut self) -> Reset
        ensures does { (s : StorageState) (m : Machine) → StandsFor (over self.old s) m
            → Does machine.Reset m (machine.WasReset result.unsaved) (over self.old s) (over self.new s) }
        ensures calls { (s : StorageState) → CallsAtMost 1 (over self.old s) (over self.new s) }
        ensures rests { AllRest self.new.drives }
        ensures same { KeepsSelector self.old self.new }
    {
        let unsaved = lose_program(self.number, &mut self.subchannel, &mut self.drives);
        self.drives.reset();
        Reset { unsaved }
    }
}

/// The program of the drive at a place is over: its channel status word pends, and the arm moves or rests.
pub(crate) fn end_program<S: ImageStore>(
    place: usize,
    csw: Csw,
    motion: bool,
    subchannel: &mut Subchannel,
    drives: &mut Drives<S>,
)
    requires { place < length drives.old }
    ensures { IsOver place csw motion drives.old drives.new subchannel.new }
{
    let device = drives.device(place);
    drives.set_arm(place, if motion { Arm::InMotion } else { Arm::AtRest });
    *subchannel = Subchannel::Pending(device, csw);
}

// The program that runs, if one does, is cut, and is over.
fn cut_program<S: ImageStore>(subchannel: &mut Subchannel, drives: &mut Drives<S>)
    requires { MayBeCut subchannel.old drives.old }
    ensures { CutsProgram subchannel.old drives.old drives.new subchannel.new }
{
    match mem::replace(subchannel, Subchannel::Idle) {
        Subchannel::Working(place, running) => {
            let (csw, motion, _) = drives.cut(place, running);
            end_program(place, csw, motion, subchannel, drives);
        }
        other => *subchannel = other,
    }
}

// Halt I/O at a device while the channel is available.
fn halt_device<S: ImageStore, M: MainStorage>(
    device: u8,
    storage: &mut M,
    drives: &Drives<S>,
) -> Condition<Status>
    ensures answer { result ≡ halted_idle (is_some (position (is_at device) drives.now)) }
    ensures storage { M.holds storage.new ≡ storage_halted (is_some (position (is_at device) drives.now)) (M.holds storage.old) }
    ensures keeps { KeepsStorage (M.holds storage.old) (M.holds storage.new) }
    ensures place { M.place storage.new ≡ M.place storage.old }
{
    if drives.place_of(device).is_none() {
        return Condition::Three;
    }
    let (unit, channel) = (UnitStatus(0), ChannelStatus(0));
    storage.put_status(unit, channel);
    Condition::Stored(Status { unit, channel })
}

// The program that runs, if one does, is cut and lost, and the subchannel is available. Answers the address, cylinder and
// head of a track that could not be saved.
fn lose_program<S: ImageStore>(
    number: u8,
    subchannel: &mut Subchannel,
    drives: &mut Drives<S>,
) -> Option<(u16, u16, u16)>
    requires { MayBeCut subchannel.old drives.old }
    ensures idle { subchannel.new ≡ Subchannel.Idle }
    ensures lost { LosesProgram subchannel.old number drives.old drives.new result }
{
    match mem::replace(subchannel, Subchannel::Idle) {
        Subchannel::Working(place, running) => {
            let device = drives.device(place);
            let (_, _, unsaved) = drives.cut(place, running);
            unsaved_at(number, device, unsaved)
        }
        _ => None,
    }
}

// Address, cylinder and head of a track that was not saved.
fn unsaved_at(number: u8, device: u8, track: Option<(u16, u16)>) -> Option<(u16, u16, u16)>
    ensures { result ≡ option_map (λ t. (256 * number + device, t.0, t.1)) track }
{
    let (cylinder, head) = track?;
    Some((number as u16 * 256 + device as u16, cylinder, head))
}

//! A command looks for its area, and its bytes are then ready to pass.

ghost use Rattle.std.specs.Prelude.{◌≡◌, Some, ◌<◌, List, ℕ};
ghost use Rattle.ckd_command.specs.declared.tables.Aim.TheVariants.{Next, NoArea};
ghost use Rattle.ckd_command.specs.Tables.{aim, action_of};
ghost use Rattle.ckd_drive.specs.declared.answers.DriveStage.TheVariants as stage;
ghost use Rattle.ckd_drive.specs.Work.{answer_of_look};
ghost use Rattle.ckd_drive.specs.Invariant.{HalfDone, Stands, work_of, own_track, remaining, AreaOf, IsFirstPlace, ReadsWhole};
ghost use Rattle.ckd_drive.specs.Passing.{first_progress};
ghost use Rattle.ckd_drive.specs.Jobs.{half_done, parts_held, Sees, LooksTo};
ghost use Rattle.ckd_command.specs.declared.registers.Registers.{Registers};
ghost use Rattle.ckd_track.specs.Model.{heads_of};
ghost use Rattle.ckd_track.specs.Track.{track_of};
ghost use Rattle.ckd_command.specs.declared.tables.Action.TheVariants.{NoTransfer};

use crate::answers::{DriveStage, Look};
use crate::job::Job;
use crate::transfer;
use crate::transfer::{OpenTransfer, Transfer};
use ckd_command::{Action, Aim, LookOutcome, Mark, Opened, Registers, add_cause, sight_of, tables};
use ckd_image::ImageStore;
use ckd_position::Kind;
use ckd_sense::Command::{
    ReadCountKeyAndData, ReadData, SearchIdEqual, Seek, WriteCountKeyAndData, WriteData,
};
use ckd_sense::{Command, Sense};
use ckd_slot::{TrackBuffer, Window};
use std::cmp::Ordering;

// A command of this action has just found the place of its bytes.
fn ready(action: Action, progress: &mut OpenTransfer, place: Transfer) -> DriveStage
    ensures ready { progress.new ≡ first_progress action place }
    ensures passing { result ≡ stage.Passing }
{
    let left = transfer::remaining(action, &place, 0);
    progress.moved = 0;
    progress.left = left;
    progress.place = place;
    DriveStage::Passing
}

/// All the bytes may pass that are known to be left.
pub(crate) fn make_ready(action: Action, progress: &mut OpenTransfer)
    ensures { progress.new ≡ record progress.old { left = remaining action progress.old.place progress.old.moved } }
{
    progress.left = transfer::remaining(action, &progress.place, progress.moved);
}

/// What a look answers that came to this stage, with so many bytes that may pass.
pub(crate) fn looked(stage: DriveStage, left: usize) -> Look
    ensures { (h : HalfDone) → h.progress.left ≡ left → result ≡ answer_of_look (work_of stage h) }
{
    match stage {
        DriveStage::Idle | DriveStage::Ended | DriveStage::InMotion | DriveStage::Failed =>
            Look::Failed,
        DriveStage::Looking => Look::Passed,
        DriveStage::Passing => Look::Ready(left),
    }
}

// The place of a command that works on no area.
#[inline(always)]
fn place_without_area(
    opened: &Opened,
    registers: &Registers,
    command: Command,
    progress: &mut OpenTransfer,
) -> DriveStage
    requires command { command ≡ opened.now.command }
    requires aim { aim opened.now.command ≡ NoArea }
    requires transfers { action_of opened.now.command ≡ NoTransfer → ⊥ }
    ensures first { (slot : List ℕ) → IsFirstPlace slot opened.now registers.now progress.new.place }
    ensures ready { progress.new ≡ first_progress (action_of opened.now.command) progress.new.place }
    ensures passing { result ≡ stage.Passing }
{
    let action = tables::action_of(command);
    let place = match action {
        Action::GiveSense => Transfer::Sense(registers.sense.to_bytes()),
        _ => Transfer::Field([0; 8]),
    };
    ready(action, progress, place)
}

// The place of a command whose area is this, or which makes its record behind it.
#[inline(always)]
fn place_on(
    buffer: &TrackBuffer,
    opened: &Opened,
    command: Command,
    progress: &mut OpenTransfer,
) -> DriveStage
    requires command { command ≡ opened.now.command }
    requires aim { aim opened.now.command ≡ NoArea → ⊥ }
    requires readable { ReadsWhole (action_of opened.now.command) (track_of buffer.now) }
    requires there { AreaOf (track_of buffer.now) opened.now }
    ensures first { (r : Registers) → IsFirstPlace buffer.now opened.now r progress.new.place }
    ensures ready { progress.new ≡ first_progress (action_of opened.now.command) progress.new.place }
    ensures passing { result ≡ stage.Passing }
{
    let action = tables::action_of(command);
    if matches!(action, Action::WriteHomeAddress | Action::Format) {
        return ready(action, progress, Transfer::Field([0; 8]));
    }
    let (window, no_data) = match opened.area {
        Some(area) => buffer.part(tables::extent(command), area),
        None => (Window { start: 0, len: 0 }, false),
    };
    let place = match action {
        Action::Search => Transfer::Search(window, Ordering::Equal),
        Action::Read => Transfer::Read(window, no_data),
        _ => Transfer::Fill(window, no_data),
    };
    ready(action, progress, place)
}

impl<S: ImageStore> Job<S> {
    // The command looks at the track under the arm, which is at hand, for the next area of this kind.
    #[tactic(auto, unfolding(ckd_command::specs::Commands::sight))]
    #[inline(always)]
    fn look_at(&mut self, command: Command, kind: Kind) -> LookOutcome
        requires head { self.old.registers.head < heads_of self.old.cache.image.geometry.model }
        requires command { command ≡ self.old.opened.command }
        requires aim { aim self.old.opened.command ≡ Next kind }
        requires held { self.old.cache.held ≡ Some (own_track (half_done self.old)) }
        ensures { Sees self.old result self.new }
    {
        let geometry = self.cache.geometry();
        let buffer = self.cache.buffer();
        let reads_whole = !matches!(tables::action_of(command), Action::WriteHomeAddress);
        if reads_whole && !buffer.is_readable() {
            add_cause(&mut self.registers, Sense::UNREADABLE_TRACK);
            return LookOutcome::Missed;
        }
        let next = buffer.next_area(self.registers.position, kind);
        sight_of(geometry, &self.opened, &mut self.registers, next)
    }

    // The look of this command at the track under the arm, which is at hand.
    #[inline(always)]
    fn look_at_hand(&mut self, mark: &mut Mark, command: Command, kind: Kind) -> DriveStage
        requires stands { Stands (parts_held self.old mark.old stage.Looking) }
        requires command { command ≡ self.old.opened.command }
        requires aim { aim self.old.opened.command ≡ Next kind }
        requires held { self.old.cache.held ≡ Some (own_track (half_done self.old)) }
        ensures looks { LooksTo self.old mark.old self.new mark.new result }
        ensures loads { self.new.cache.image.loads ≡ self.old.cache.image.loads }
    {
        match self.look_at(command, kind) {
            LookOutcome::Found(area) => {
                self.opened.area = Some(area);
                place_on(
                    self.cache.buffer(),
                    &self.opened,
                    command,
                    &mut self.progress,
                )
            }
            LookOutcome::IndexPassed => DriveStage::Looking,
            LookOutcome::NextHead => {
                let (cylinder, head) = (self.registers.cylinder, self.registers.head + 1);
                match self.leave(mark, cylinder, head) {
                    Ok(()) => DriveStage::Looking,
                    Err(_) => DriveStage::Failed,
                }
            }
            LookOutcome::Missed => DriveStage::Failed,
        }
    }

    // The look for the next area of this kind, which loads the track under the arm where it is not at hand.
    #[inline(always)]
    fn look_for_next(&mut self, mark: &mut Mark, command: Command, kind: Kind) -> DriveStage
        requires stands { Stands (parts_held self.old mark.old stage.Looking) }
        requires command { command ≡ self.old.opened.command }
        requires aim { aim self.old.opened.command ≡ Next kind }
        ensures { LooksTo self.old mark.old self.new mark.new result }
    {
        let track = self
            .cache
            .geometry()
            .track_at(self.registers.cylinder, self.registers.head);
        match self.cache.hold(track) {
            Ok(()) => self.look_at_hand(mark, command, kind),
            Err(_) => {
                add_cause(&mut self.registers, Sense::STORE_FAULT);
                DriveStage::Failed
            }
        }
    }

    // A command that has not looked yet looks.
    #[inline(always)]
    fn look_here(&mut self, mark: &mut Mark, command: Command) -> DriveStage
        requires stands { Stands (parts_held self.old mark.old stage.Looking) }
        requires command { command ≡ self.old.opened.command }
        ensures { LooksTo self.old mark.old self.new mark.new result }
    {
        match tables::aim_of(command) {
            Aim::NoArea => place_without_area(
                &self.opened,
                &self.registers,
                command,
                &mut self.progress,
            ),
            Aim::Credited => place_on(
                self.cache.buffer(),
                &self.opened,
                command,
                &mut self.progress,
            ),
            Aim::Next(kind) => self.look_for_next(mark, command, kind),
        }
    }

    // The same, of a command that is not a common one.
    #[inline(never)]
    fn look_elsewhere(&mut self, mark: &mut Mark) -> DriveStage
        requires { Stands (parts_held self.old mark.old stage.Looking) }
        ensures { LooksTo self.old mark.old self.new mark.new result }
    {
        let command = self.opened.command;
        self.look_here(mark, command)
    }

    /// A command that has not looked yet looks, and this is the stage that it comes to.
    // The commonest commands by themselves: what they look for is then known as the crate is compiled.
    #[inline(always)]
    pub(crate) fn look(&mut self, mark: &mut Mark) -> DriveStage
        requires { Stands (parts_held self.old mark.old stage.Looking) }
        ensures { LooksTo self.old mark.old self.new mark.new result }
    {
        match self.opened.command {
            SearchIdEqual => self.look_here(mark, SearchIdEqual),
            ReadData => self.look_here(mark, ReadData),
            ReadCountKeyAndData => self.look_here(mark, ReadCountKeyAndData),
            WriteCountKeyAndData => self.look_here(mark, WriteCountKeyAndData),
            WriteData => self.look_here(mark, WriteData),
            Seek => self.look_here(mark, Seek),
            _ => self.look_elsewhere(mark),
        }
    }
}

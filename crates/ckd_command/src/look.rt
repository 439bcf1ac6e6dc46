//! What a look at a track leads to, as far as the registers go (component descriptions of the 2841 and the 2314,
//! 'Multiple-Track Operation' and 'No Record Found').

ghost use Rattle.std.specs.Prelude.{◌≡◌, ◌<◌};
ghost use Rattle.ckd_track.specs.Model.{heads_of};
ghost use Rattle.ckd_command.specs.Commands.{turned, next_head, sight_of, at_index, with_cause};
ghost use Rattle.ckd_command.specs.Answers.{Missed, seen_as, SeenStays};
ghost use Rattle.ckd_command.specs.declared.begin.Opened.{Opened};

use crate::begin::{Opened, add_cause, to_index};
use crate::registers::{Lap, Registers};
use ckd_position::{Area, Next, Position};
use ckd_sense::Sense;
use ckd_track::Geometry;

/// What a look at the track under the arm leads to, beside what the drive remembers then.
#[derive(Clone, Copy)]
pub enum LookOutcome {
    /// This area is found.
    Found(Area),
    /// The index passed, and the looks go on at the index of the same track.
    IndexPassed,
    /// The index passed, and the looks go on at the index of the next head's track, for which the arm has still to leave this one.
    NextHead,
    /// The command ends: the sense says why.
    Missed,
}

// The command ends for this cause, with the track at its index.
fn missed(registers: &mut Registers, cause: Sense) -> LookOutcome
    ensures stays { SeenStays result registers.old registers.new }
    ensures seen { (o : Opened) → seen_as result o registers.new ≡ Missed (with_cause (at_index registers.old) cause) }
{
    to_index(registers);
    add_cause(registers, cause);
    LookOutcome::Missed
}

// The index passes on the same track.
fn turned(registers: &mut Registers) -> LookOutcome
    ensures stays { SeenStays result registers.old registers.new }
    ensures seen { (o : Opened) → seen_as result o registers.new ≡ turned registers.old registers.old.lap }
{
    match registers.lap {
        Lap::First => {
            registers.position = Position::AtIndex;
            registers.lap = Lap::Second;
            LookOutcome::IndexPassed
        }
        Lap::Second => missed(registers, Sense::NO_RECORD_FOUND),
    }
}

// The index passes, and a command with the multi-track bit goes on at the next head.
fn next_head(geometry: Geometry, registers: &mut Registers) -> LookOutcome
    requires { registers.old.head < heads_of geometry.model }
    ensures seen { (o : Opened) → seen_as result o registers.new ≡ next_head geometry registers.old }
    ensures stays { SeenStays result registers.old registers.new }
{
    if !registers.file_mask.head_change() {
        return missed(registers, Sense::HEAD_CHANGE_NOT_ALLOWED);
    }
    if registers.head + 1 == geometry.model.heads() {
        return missed(registers, Sense::END_OF_CYLINDER);
    }
    LookOutcome::NextHead
}

/// What a look leads to that found this area next, or none behind the position, beside what the drive remembers then.
#[inline(always)]
pub fn sight_of(
    geometry: Geometry,
    opened: &Opened,
    registers: &mut Registers,
    next: Next,
) -> LookOutcome
    requires { registers.old.head < heads_of geometry.model }
    ensures seen { seen_as result opened.now registers.new ≡ sight_of geometry opened.now registers.old next }
    ensures stays { SeenStays result registers.old registers.new }
{
    match next {
        Next::Found(area) => LookOutcome::Found(area),
        Next::IndexPassed if opened.multi_track => next_head(geometry, registers),
        Next::IndexPassed => turned(registers),
    }
}

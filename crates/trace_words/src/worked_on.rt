//! What a command worked on, by what was seen of it.

ghost use Rattle.std.specs.Prelude.{◌≡◌, Some};
ghost use Rattle.std.specs.Fmt.{WritesOnOk};
ghost use Rattle.trace_words.specs.Tracks.{outcome_text, mask_text, worked_on_text, writes_text, seeks_text};

use crate::line::TraceLine;
use crate::met::Met;
use crate::passed::Passed;
use ckd_command::{Action, tables};
use ckd_sense::{Command, FileMask, SeekPermission, WritePermission};
use std::fmt;

/// How many bytes a seek address has.
const SEEK_ADDRESS: u32 = 6;

/// What a command worked on, and what came of it.
#[derive(Clone, Copy)]
pub enum WorkedOn {
    /// Nothing that is known.
    Nothing,
    /// An area of the track, and what a search came to there.
    Area(Met, Outcome),
    /// The area behind which a record was made.
    Behind(Met),
    /// A cylinder and a head.
    Place(u16, u16),
    /// A file mask.
    Mask(FileMask),
}

/// What a search came to.
#[derive(Clone, Copy)]
pub enum Outcome {
    /// It was none, or is not over.
    NoOutcome,
    /// All bytes that were compared are equal.
    Equal,
    /// They are not.
    Unequal,
    /// The track's bytes are greater.
    High,
    /// They are not.
    NotHigh,
    /// The track's bytes are equal or greater.
    EqualOrHigh,
    /// They are less.
    Low,
}

impl fmt::Display for WorkedOn {
    ghost output = { λ w. Some (worked_on_text w) };

    fn fmt<W: fmt::Write>(&self, f: &mut fmt::Formatter<W>) -> fmt::Result {
        match self {
            WorkedOn::Nothing => Ok(()),
            WorkedOn::Area(met, outcome) => write!(f, "{met}{outcome}"),
            WorkedOn::Behind(met) => write!(f, "behind {met}"),
            WorkedOn::Place(cylinder, head) => write!(f, "cylinder {cylinder} head {head}"),
            WorkedOn::Mask(mask) => write_mask(f, *mask),
        }
    }
}

impl fmt::Display for Outcome {
    ghost output = { λ o. Some (outcome_text o) };

    fn fmt<W: fmt::Write>(&self, f: &mut fmt::Formatter<W>) -> fmt::Result {
        f.write_str(match self {
            Outcome::NoOutcome => "",
            Outcome::Equal => " equal",
            Outcome::Unequal => " unequal",
            Outcome::High => " high",
            Outcome::NotHigh => " not high",
            Outcome::EqualOrHigh => " equal or high",
            Outcome::Low => " low",
        })
    }
}

// Writes what a file mask does not allow.
fn write_mask<W: fmt::Write>(f: &mut fmt::Formatter<W>, mask: FileMask) -> fmt::Result
    ensures { WritesOnOk W.write_str_gives f.old result (mask_text mask) f.new }
{
    let writes = writes_text(mask.writes);
    let seeks = seeks_text(mask.seeks);
    write!(f, "{writes}; {seeks}")
}

fn writes_text(writes: WritePermission) -> &'static str
    ensures { result.now ≡ writes_text writes }
{
    match writes {
        WritePermission::InhibitHomeAddressAndR0 => "no write of HA, R0",
        WritePermission::InhibitAllWrites => "no write",
        WritePermission::InhibitFormatWrites => "no formatting write",
        WritePermission::PermitAllWrites => "all writes",
    }
}

fn seeks_text(seeks: SeekPermission) -> &'static str
    ensures { result.now ≡ seeks_text seeks }
{
    match seeks {
        SeekPermission::PermitAllSeeks => "all seeks",
        SeekPermission::PermitSeekCylinderAndHead => "no Seek",
        SeekPermission::PermitSeekHead => "Seek Head only",
        SeekPermission::InhibitAllSeeks => "no seek",
    }
}

/// What a command has met that is not over.
pub fn worked_on_so_far(line: &TraceLine, met: Option<Met>) -> WorkedOn {
    match (met, line.command()) {
        (Some(met), Some(Command::WriteR0 | Command::WriteCountKeyAndData)) => {
            WorkedOn::Behind(met)
        }
        (Some(met), _) => WorkedOn::Area(met, Outcome::NoOutcome),
        (None, _) => WorkedOn::Nothing,
    }
}

/// What a command came to that is over: the area that it met, and a search's outcome there; where the arm stands, if that is known; or
/// the mask. A search of no bytes has no outcome, and a seek of too few has moved nothing.
pub fn worked_on_at_end(
    line: &TraceLine,
    met: Option<Met>,
    passed: &Passed,
    satisfied: bool,
    place: Option<(u16, u16)>,
) -> WorkedOn {
    match (line.command(), place, met) {
        (None, _, _) => WorkedOn::Nothing,
        (Some(Command::Seek | Command::SeekCylinder | Command::SeekHead), _, _)
            if passed.count < SEEK_ADDRESS => { WorkedOn::Nothing }
        (
            Some(Command::Seek | Command::SeekCylinder | Command::SeekHead | Command::Recalibrate),
            place,
            _,
        ) => place_of(place),
        (Some(Command::SetFileMask), _, _) => mask_of(passed),
        (Some(command), _, Some(met))
            if passed.count > 0 && matches!(tables::action_of(command), Action::Search) => {
            WorkedOn::Area(met, outcome_of(command, satisfied))
        }
        _ => worked_on_so_far(line, met),
    }
}

// Where the arm stands, if that is known.
fn place_of(place: Option<(u16, u16)>) -> WorkedOn {
    match place {
        Some((cylinder, head)) => WorkedOn::Place(cylinder, head),
        None => WorkedOn::Nothing,
    }
}

// The mask that the first byte of its command has set, if that took one.
fn mask_of(passed: &Passed) -> WorkedOn {
    if passed.count > 0 {
        WorkedOn::Mask(FileMask::from_byte(passed.first[0]))
    } else {
        WorkedOn::Nothing
    }
}

// What a search comes to, by whether it is satisfied.
fn outcome_of(command: Command, satisfied: bool) -> Outcome {
    match (command, satisfied) {
        (Command::SearchIdHigh | Command::SearchKeyHigh, true) => Outcome::High,
        (Command::SearchIdHigh | Command::SearchKeyHigh, false) => Outcome::NotHigh,
        (Command::SearchIdEqualOrHigh | Command::SearchKeyEqualOrHigh, true) =>
            Outcome::EqualOrHigh,
        (Command::SearchIdEqualOrHigh | Command::SearchKeyEqualOrHigh, false) => Outcome::Low,
        (_, true) => Outcome::Equal,
        (_, false) => Outcome::Unequal,
    }
}

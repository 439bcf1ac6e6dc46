//! What the channel reports of a program's end, beside what the drive reports (Principles of Operation, Input/Output Operations:
//! 'Channel Status Conditions').

ghost use Rattle.std.specs.Prelude.{◌≡◌};
ghost use Rattle.s360_laws.specs.Endings.{csw_at};
ghost use Rattle.s360_laws.specs.Status.{beside, with_interruption};
ghost use Rattle.s360_program.specs.Place.{place_of};
ghost use Rattle.s360_program.specs.Steps.{status_of, condition_for, chains_after};

use crate::place::Place;
use bitflags::Flags;
use s360_words::{Ccw, ChannelStatus, Csw, UnitStatus};

/// What the channel itself has to report.
#[derive(Clone, Copy, PartialEq, Eq)]
pub(crate) enum ChannelCondition {
    /// Nothing.
    Clear,
    /// The count and the drive's length differ.
    IncorrectLength,
    /// The program is in error.
    ProgramCheck,
    /// A byte of storage may not be stored into with the program's key.
    ProtectionCheck,
}

impl ChannelCondition {
    /// How the length of a command is reported: incorrect length is not reported beside unit check.
    pub(crate) fn of_length(incorrect: bool, unit: UnitStatus) -> ChannelCondition
        ensures { result ≡ condition_for incorrect unit }
    {
        if incorrect && !unit.intersects(UnitStatus::UNIT_CHECK) {
            ChannelCondition::IncorrectLength
        } else {
            ChannelCondition::Clear
        }
    }

    /// The channel status of this condition.
    pub(crate) fn status(self) -> ChannelStatus
        ensures { result ≡ status_of self }
    {
        match self {
            ChannelCondition::Clear => ChannelStatus(0),
            ChannelCondition::IncorrectLength => ChannelStatus::INCORRECT_LENGTH,
            ChannelCondition::ProgramCheck => ChannelStatus::PROGRAM_CHECK,
            ChannelCondition::ProtectionCheck => ChannelStatus::PROTECTION_CHECK,
        }
    }

    /// The same beside the unit status of the program's end.
    pub(crate) fn beside(self, unit: UnitStatus) -> ChannelStatus
        ensures { result ≡ beside unit (status_of self) }
    {
        if unit.intersects(UnitStatus::UNIT_CHECK) && self == ChannelCondition::IncorrectLength {
            ChannelStatus(0)
        } else {
            self.status()
        }
    }
}

/// Whether the next command follows: the word asks for it, and neither the unit status nor the channel's condition stops it.
pub(crate) fn chains(ccw: Ccw, unit: UnitStatus, condition: ChannelCondition) -> bool
    ensures { result ≡ chains_after ccw unit condition }
{
    ccw.chains_command()
        && !(unit.intersects(UnitStatus::UNIT_CHECK) || unit.intersects(UnitStatus::UNIT_EXCEPTION))
        && condition == ChannelCondition::Clear
}

/// An interruption that was asked for and not taken is reported with the ending.
pub(crate) fn with_interruption(asked: bool, status: ChannelStatus) -> ChannelStatus
    ensures { result ≡ with_interruption asked status }
{
    if asked {
        ChannelStatus(ChannelStatus::PROGRAM_CONTROLLED_INTERRUPTION.0 | status.0)
    } else {
        status
    }
}

/// The channel status word at a place: its command address is that of the last word plus 8, and its count what is left there.
pub(crate) fn csw_at(key: u8, place: &Place, unit: UnitStatus, channel: ChannelStatus) -> Csw
    ensures { result ≡ csw_at key (place_of place.now) unit channel }
{
    Csw {
        key,
        address: (place.last % (1 << 24) + 8) % (1 << 24),
        unit,
        channel,
        count: place.residual,
    }
}

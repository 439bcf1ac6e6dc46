//! The commands as tables (component descriptions of the 2841 and the 2314, the sections of the commands).

ghost use Rattle.std.specs.Prelude.{◌≡◌};
ghost use Rattle.ckd_command.specs.Tables.{aim, credited, credit_of_search, action_of, extent_of, is_search, comparison, area_left, ends_with_data, is_giving};

use crate::registers::Credit;
use ckd_position::{Area, AreaBytes, Compare, Kind, RecordPart};
use ckd_sense::Command;

/// What a command works on.
#[derive(Clone, Copy)]
pub enum Aim {
    /// No area of the track.
    NoArea,
    /// The next area of this kind behind the position.
    Next(Kind),
    /// The area that the sequence credit names.
    Credited,
}

/// What a command does with the bytes that pass.
#[derive(Clone, Copy)]
pub enum Action {
    /// None pass.
    NoTransfer,
    /// It takes a seek address, and moves the arm to its cylinder and head.
    SeekCylinderAndHead,
    /// It takes a seek address, and takes its head.
    SeekHead,
    /// It takes the mask byte.
    SetFileMask,
    /// It gives the sense bytes.
    GiveSense,
    /// It compares them with the area.
    Search,
    /// It gives those of the area.
    Read,
    /// It takes a home address, and removes all records.
    WriteHomeAddress,
    /// It takes count, key and data of a new record, and removes all records behind it.
    Format,
    /// It puts them in the place of those of the area.
    Update,
}

/// What a command works on.
#[inline(always)]
pub fn aim_of(command: Command) -> Aim
    ensures { result ≡ aim command }
{
    match command {
        Command::SearchHomeAddressEqual | Command::ReadHomeAddress | Command::WriteHomeAddress => {
            Aim::Next(Kind::HomeAddress)
        }
        Command::SearchIdEqual | Command::SearchIdHigh | Command::SearchIdEqualOrHigh => Aim::Next(
            Kind::AnyCount,
        ),
        Command::SearchKeyEqual | Command::SearchKeyHigh | Command::SearchKeyEqualOrHigh =>
            Aim::Next(Kind::Key),
        Command::ReadIpl => Aim::Next(Kind::FirstData),
        Command::ReadR0 => Aim::Next(Kind::FirstCount),
        Command::ReadCount | Command::ReadCountKeyAndData => Aim::Next(Kind::LaterCount),
        Command::ReadData => Aim::Next(Kind::Data),
        Command::ReadKeyAndData => Aim::Next(Kind::KeyAndData),
        Command::WriteR0
        | Command::WriteCountKeyAndData
        | Command::WriteData
        | Command::WriteKeyAndData => Aim::Credited,
        Command::NoOperation
        | Command::Recalibrate
        | Command::Seek
        | Command::SeekCylinder
        | Command::SeekHead
        | Command::SetFileMask
        | Command::Sense => Aim::NoArea,
    }
}

/// What a command does with the bytes that pass.
#[inline(always)]
pub fn action_of(command: Command) -> Action
    ensures { result ≡ action_of command }
{
    match command {
        Command::NoOperation | Command::Recalibrate => Action::NoTransfer,
        Command::Seek | Command::SeekCylinder => Action::SeekCylinderAndHead,
        Command::SeekHead => Action::SeekHead,
        Command::SetFileMask => Action::SetFileMask,
        Command::Sense => Action::GiveSense,
        Command::SearchHomeAddressEqual
        | Command::SearchIdEqual
        | Command::SearchIdHigh
        | Command::SearchIdEqualOrHigh
        | Command::SearchKeyEqual
        | Command::SearchKeyHigh
        | Command::SearchKeyEqualOrHigh => Action::Search,
        Command::ReadIpl
        | Command::ReadHomeAddress
        | Command::ReadR0
        | Command::ReadCount
        | Command::ReadData
        | Command::ReadKeyAndData
        | Command::ReadCountKeyAndData => Action::Read,
        Command::WriteHomeAddress => Action::WriteHomeAddress,
        Command::WriteR0 | Command::WriteCountKeyAndData => Action::Format,
        Command::WriteData | Command::WriteKeyAndData => Action::Update,
    }
}

/// Which bytes of its area a command gives, compares or replaces.
#[inline(always)]
pub fn extent(command: Command) -> AreaBytes
    ensures { result ≡ extent_of command }
{
    match command {
        Command::SearchHomeAddressEqual => AreaBytes::CylinderAndHead,
        Command::ReadHomeAddress => AreaBytes::HomeAddress,
        Command::SearchIdEqual | Command::SearchIdHigh | Command::SearchIdEqualOrHigh =>
            AreaBytes::Identifier,
        Command::SearchKeyEqual | Command::SearchKeyHigh | Command::SearchKeyEqualOrHigh =>
            AreaBytes::Key,
        Command::ReadIpl | Command::ReadData | Command::WriteData => AreaBytes::Data,
        Command::ReadCount => AreaBytes::Count,
        Command::ReadKeyAndData | Command::WriteKeyAndData => AreaBytes::KeyAndData,
        Command::ReadR0 | Command::ReadCountKeyAndData => AreaBytes::CountKeyAndData,
        _ => AreaBytes::Nothing,
    }
}

/// The area behind which a command with this credit makes its record, or which it writes.
#[inline(always)]
pub fn credited(command: Command, credit: Option<Credit>) -> Option<Area>
    ensures { result ≡ credited command credit }
{
    match (command, credit) {
        (Command::WriteR0, Some(Credit::EqualHomeAddress)) => Some(Area::HomeAddress),
        (Command::WriteR0, Some(Credit::WroteHomeAddress)) => Some(Area::HomeAddress),
        (Command::WriteCountKeyAndData, Some(Credit::EqualId(i))) => Some(Area::Of(
            RecordPart::Data,
            i,
        )),
        (Command::WriteCountKeyAndData, Some(Credit::EqualKey(i))) => Some(Area::Of(
            RecordPart::Data,
            i,
        )),
        (Command::WriteCountKeyAndData, Some(Credit::WroteRecord(i))) => Some(Area::Of(
            RecordPart::Data,
            i,
        )),
        (Command::WriteData, Some(Credit::EqualId(i))) => Some(Area::Of(RecordPart::Data, i)),
        (Command::WriteData, Some(Credit::EqualKey(i))) => Some(Area::Of(RecordPart::Data, i)),
        (Command::WriteKeyAndData, Some(Credit::EqualId(i))) => Some(Area::Of(RecordPart::Data, i)),
        _ => None,
    }
}

/// The credit that a search leaves which found its whole area equal.
#[inline(always)]
pub fn credit_of_search(command: Command, area: Option<Area>) -> Option<Credit>
    ensures { result ≡ credit_of_search command area }
{
    match (command, area) {
        (Command::SearchHomeAddressEqual, Some(Area::HomeAddress)) => Some(
            Credit::EqualHomeAddress,
        ),
        (Command::SearchIdEqual, Some(Area::Of(_, i))) => Some(Credit::EqualId(i)),
        (Command::SearchKeyEqual, Some(Area::Of(_, i))) => Some(Credit::EqualKey(i)),
        _ => None,
    }
}

/// Whether a command is a search.
#[inline(always)]
pub fn is_search(action: Action) -> bool
    ensures { result ≡ is_search action }
{
    matches!(action, Action::Search)
}

/// What a search asks of its area.
#[inline(always)]
pub fn comparison(command: Command) -> Compare
    ensures { result ≡ comparison command }
{
    match command {
        Command::SearchIdHigh | Command::SearchKeyHigh => Compare::High,
        Command::SearchIdEqualOrHigh | Command::SearchKeyEqualOrHigh => Compare::EqualOrHigh,
        _ => Compare::Equal,
    }
}

/// The area at which the position is left by a command that worked on this one.
#[inline(always)]
pub fn area_left(extent: AreaBytes, area: Area) -> Area
    ensures { result ≡ area_left extent area }
{
    match (extent, area) {
        (AreaBytes::CountKeyAndData, Area::Of(_, i)) => Area::Of(RecordPart::Data, i),
        _ => area,
    }
}

/// Whether the bytes end with a record's data.
#[inline(always)]
pub fn ends_with_data(extent: AreaBytes) -> bool
    ensures { result ≡ ends_with_data extent }
{
    matches!(
        extent,
        AreaBytes::Data | AreaBytes::KeyAndData | AreaBytes::CountKeyAndData
    )
}

/// Whether the drive gives the bytes.
#[inline(always)]
pub fn is_giving(action: Action) -> bool
    ensures { result ≡ is_giving action }
{
    matches!(action, Action::GiveSense | Action::Read)
}

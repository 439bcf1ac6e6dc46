//! How a command closes, as far as the registers go (component descriptions of the 2841 and the 2314, the sections
//! of the commands).

ghost use Rattle.std.specs.Prelude.{◌≡◌, ◌+◌, ◌≤◌, length, slice_range};
ghost use Rattle.ckd_command.specs.Commands.{command_end, fails, at_end, search_ends, area_ends, format_ends, home_address_ends, set_file_mask, seek_head};
ghost use Rattle.ckd_command.specs.Commands.{seek_cylinder_and_head, own_home_address, number};
ghost use Rattle.ckd_command.specs.Answers.{closed_as, ClosedStays};

use crate::begin::{Opened, add_cause};
use crate::registers::{Credit, Registers};
use crate::tables;
use ckd_position::{Area, Position, RecordPart};
use ckd_sense::{FileMask, Sense};
use ckd_track::Geometry;
use s360_words::UnitStatus;

/// How a command ends, as the channel sees it.
#[derive(Clone, Copy)]
pub struct DriveEnding {
    /// The unit status.
    pub unit: UnitStatus,
    /// Whether the arm still moves.
    pub motion: bool,
}

impl DriveEnding {
    /// Channel end and device end: the arm stays.
    pub const ENDED: DriveEnding = DriveEnding {
        unit: CHANNEL_AND_DEVICE_END,
        motion: false,
    };

    /// Channel end alone: the arm still moves.
    pub const IN_MOTION: DriveEnding = DriveEnding {
        unit: UnitStatus(0x08),
        motion: true,
    };

    /// Channel end, device end and unit check: the sense bytes say why.
    pub const FAILED: DriveEnding = DriveEnding {
        unit: END_WITH_UNIT_CHECK,
        motion: false,
    };
}

/// How a command closes, beside what it wrote and what the drive remembers then.
#[derive(Clone, Copy)]
pub enum Closed {
    /// With this unit status, and the arm stays.
    Stays(UnitStatus),
    /// The arm or the head has still to leave the track, which is saved first, for this cylinder and head; it then ends so.
    Moves(u16, u16, DriveEnding),
}

/// Channel end and device end.
pub const CHANNEL_AND_DEVICE_END: UnitStatus = UnitStatus(0x0C);

// Channel end, device end and unit check.
const END_WITH_UNIT_CHECK: UnitStatus = UnitStatus(0x0E);

const END_WITH_UNIT_EXCEPTION: UnitStatus = UnitStatus(0x0D);

const END_WITH_STATUS_MODIFIER: UnitStatus = UnitStatus(0x4C);

/// The command ends in unit check, for this cause.
pub fn close_in_unit_check(registers: &mut Registers, cause: Sense) -> Closed
    ensures closes { closed_as result registers.new ≡ command_end (fails registers.old cause) }
    ensures stays { ClosedStays result registers.old registers.new }
{
    add_cause(registers, cause);
    Closed::Stays(END_WITH_UNIT_CHECK)
}

/// The registers where a command ends on its area.
pub fn end_at_area(opened: &Opened, registers: &mut Registers)
    ensures { registers.new ≡ at_end opened.now registers.old }
{
    if let Some(area) = opened.area {
        registers.position = Position::At(tables::area_left(tables::extent(opened.command), area));
    }
}

/// A search closes.
#[inline(always)]
pub fn close_search(
    opened: &Opened,
    registers: &mut Registers,
    satisfied: bool,
    whole: bool,
) -> Closed
    ensures closes { closed_as result registers.new
        ≡ command_end (search_ends opened.now registers.old satisfied whole) }
    ensures stays { ClosedStays result registers.old registers.new }
{
    end_at_area(opened, registers);
    if !satisfied {
        return Closed::Stays(CHANNEL_AND_DEVICE_END);
    }
    registers.credit = if whole {
        tables::credit_of_search(opened.command, opened.area)
    } else {
        None
    };
    Closed::Stays(END_WITH_STATUS_MODIFIER)
}

/// A read or an update closes, or a command that works on no area.
#[inline(always)]
pub fn close_area(opened: &Opened, registers: &mut Registers, no_data: bool) -> Closed
    ensures closes { closed_as result registers.new ≡ command_end (area_ends opened.now registers.old no_data) }
    ensures stays { ClosedStays result registers.old registers.new }
{
    end_at_area(opened, registers);
    if no_data && tables::ends_with_data(tables::extent(opened.command)) {
        Closed::Stays(END_WITH_UNIT_EXCEPTION)
    } else {
        Closed::Stays(CHANNEL_AND_DEVICE_END)
    }
}

/// A formatting write closes that made this record.
pub fn close_format(registers: &mut Registers, new: usize) -> Closed
    ensures closes { closed_as result registers.new ≡ command_end (format_ends registers.old new) }
    ensures stays { ClosedStays result registers.old registers.new }
{
    registers.position = Position::At(Area::Of(RecordPart::Data, new));
    registers.credit = Some(Credit::WroteRecord(new));
    Closed::Stays(CHANNEL_AND_DEVICE_END)
}

/// Write Home Address closes that changed the track.
pub fn close_home_address(opened: &Opened, registers: &mut Registers) -> Closed
    ensures closes { closed_as result registers.new ≡ command_end (home_address_ends opened.now registers.old) }
    ensures stays { ClosedStays result registers.old registers.new }
{
    end_at_area(opened, registers);
    registers.credit = Some(Credit::WroteHomeAddress);
    Closed::Stays(CHANNEL_AND_DEVICE_END)
}

/// Set File Mask closes with these bytes, one or none.
pub fn close_set_file_mask(registers: &mut Registers, bytes: &[u8]) -> Closed
    ensures closes { closed_as result registers.new ≡ command_end (set_file_mask registers.old bytes.now) }
    ensures stays { ClosedStays result registers.old registers.new }
{
    let Some(byte) = bytes.first() else {
        return Closed::Stays(CHANNEL_AND_DEVICE_END);
    };
    registers.file_mask = FileMask::from_byte(*byte);
    registers.mask_set = true;
    Closed::Stays(CHANNEL_AND_DEVICE_END)
}

// A big-endian number of two bytes at this place.
fn number_at(bytes: &[u8], at: usize) -> u16
    requires { at + 2 ≤ length bytes.now }
    ensures { result ≡ number (slice_range bytes.now at (at + 2)) }
{
    let pair = &bytes[at..at + 2];
    u16::from_be_bytes([pair[0], pair[1]])
}

/// Seek and Seek Cylinder close with a whole address.
pub fn close_seek(geometry: Geometry, registers: &mut Registers, address: &[u8]) -> Closed
    requires { length address.now ≡ 6 }
    ensures closes { closed_as result registers.new
        ≡ command_end (seek_cylinder_and_head geometry registers.old address.now) }
    ensures stays { ClosedStays result registers.old registers.new }
{
    let cylinder = number_at(address, 2);
    let head = number_at(address, 4);
    if number_at(address, 0) != 0
        || cylinder >= geometry.cylinders
        || head >= geometry.model.heads()
    {
        return close_in_unit_check(registers, Sense::SEEK_ADDRESS_OUTSIDE);
    }
    Closed::Moves(cylinder, head, DriveEnding::IN_MOTION)
}

/// Seek Head closes with a whole address.
pub fn close_seek_head(geometry: Geometry, registers: &mut Registers, address: &[u8]) -> Closed
    requires { length address.now ≡ 6 }
    ensures closes { closed_as result registers.new ≡ command_end (seek_head geometry registers.old address.now) }
    ensures stays { ClosedStays result registers.old registers.new }
{
    let head = number_at(address, 4);
    if head >= geometry.model.heads() {
        return close_in_unit_check(registers, Sense::SEEK_ADDRESS_OUTSIDE);
    }
    Closed::Moves(registers.cylinder, head, DriveEnding::ENDED)
}

/// The home address of the track under the arm, as Write Home Address must give it.
pub fn own_home_address(registers: Registers) -> [u8; 5]
    ensures { result ≡ own_home_address registers }
{
    let [cylinder_high, cylinder_low] = registers.cylinder.to_be_bytes();
    let [head_high, head_low] = registers.head.to_be_bytes();
    [0, cylinder_high, cylinder_low, head_high, head_low]
}

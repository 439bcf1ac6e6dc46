//! A command closes, by its bytes that have passed.

ghost use Rattle.std.specs.Prelude.{◌≡◌, ◌≤◌, true, length};
ghost use Rattle.ckd_command.specs.Tables.{action_of};
ghost use Rattle.ckd_command.specs.Commands.{command_end, whole_field, at_end, fails};
ghost use Rattle.ckd_command.specs.Answers.{closed_as, ClosedStays};
ghost use Rattle.ckd_sense.specs.declared.sense_bytes.TheConstants.Sense.{WRONG_HOME_ADDRESS};
ghost use Rattle.ckd_drive.specs.Work.{settled_mark, owed_mark};
ghost use Rattle.ckd_drive.specs.Invariant.{field_size, closes_by};
ghost use Rattle.ckd_drive.specs.Passing.{field_ends, MovedInField, mark_left, is_due, Works};
ghost use Rattle.ckd_drive.specs.Jobs.{half_done, ClosesTo};

use crate::job::Job;
use crate::transfer::{Transfer, WrittenArea};
use ckd_command::{
    Action, CHANNEL_AND_DEVICE_END, Closed, Mark, Opened, Registers, close_area, close_format,
    close_home_address, close_in_unit_check, close_search, close_seek, close_seek_head,
    close_set_file_mask, end_at_area, tables,
};
use ckd_image::ImageStore;
use ckd_sense::Sense;
use ckd_slot::Window;
use ckd_track::Geometry;

/// The mark of a track that a command leaves whose arm stays.
#[inline(always)]
pub(crate) fn mark_left(place: &Transfer, mark: Mark) -> Mark
    ensures { result ≡ mark_left place.now mark }
{
    match place {
        Transfer::Filled(_, _) => Mark::Written,
        _ => mark,
    }
}

/// The mark of a track that is saved, if it was written.
pub(crate) fn settled_mark(mark: Mark) -> Mark
    ensures { result ≡ settled_mark mark }
{
    match mark {
        Mark::Written => Mark::Saved,
        _ => mark,
    }
}

/// The mark of the track as a program begins: one that is written stays to be saved.
pub(crate) fn owed_mark(mark: Mark) -> Mark
    ensures { result ≡ owed_mark mark }
{
    match mark {
        Mark::Written => Mark::Written,
        _ => Mark::Saved,
    }
}

// How Write Home Address closes where the track is as it was.
fn home_address_ends(opened: &Opened, registers: &mut Registers, bytes: &[u8]) -> Closed
    ensures closes { closed_as result registers.new
        ≡ command_end (whole_field (at_end opened.now registers.old) bytes.now 5
        (fails (at_end opened.now registers.old) WRONG_HOME_ADDRESS)) }
    ensures stays { ClosedStays result registers.old registers.new }
{
    end_at_area(opened, registers);
    if bytes.is_empty() {
        return Closed::Stays(CHANNEL_AND_DEVICE_END);
    }
    if bytes.len() < 5 {
        return close_in_unit_check(registers, Sense::FIELD_CUT_SHORT);
    }
    close_in_unit_check(registers, Sense::WRONG_HOME_ADDRESS)
}

// How a command closes that takes a field which must come whole, where these bytes of it came and the track is as it was.
fn field_ends(
    geometry: Geometry,
    opened: &Opened,
    registers: &mut Registers,
    bytes: &[u8],
) -> Closed
    requires { length bytes.now ≤ field_size (action_of opened.now.command) }
    ensures closes { closed_as result registers.new
        ≡ command_end (field_ends (action_of opened.now.command) geometry opened.now registers.old bytes.now) }
    ensures stays { ClosedStays result registers.old registers.new }
{
    match tables::action_of(opened.command) {
        Action::SeekCylinderAndHead if bytes.len() == 6 => close_seek(geometry, registers, bytes),
        Action::SeekHead if bytes.len() == 6 => close_seek_head(geometry, registers, bytes),
        Action::Format if bytes.len() == 8 => {
            close_in_unit_check(registers, Sense::RECORD_DOES_NOT_FIT)
        }
        Action::SetFileMask => close_set_file_mask(registers, bytes),
        Action::WriteHomeAddress => home_address_ends(opened, registers, bytes),
        Action::SeekCylinderAndHead | Action::SeekHead | Action::Format if !bytes.is_empty() => {
            close_in_unit_check(registers, Sense::FIELD_CUT_SHORT)
        }
        _ => Closed::Stays(CHANNEL_AND_DEVICE_END),
    }
}

// How a command closes that has written.
fn written_ends(opened: &Opened, registers: &mut Registers, written: WrittenArea) -> Closed
    ensures closes { closed_as result registers.new ≡ closes_by registers.old opened.now written }
    ensures stays { ClosedStays result registers.old registers.new }
{
    match written {
        WrittenArea::HomeAddress => close_home_address(opened, registers),
        WrittenArea::Record(number) => close_format(registers, number),
        WrittenArea::Area(no_data) => close_area(opened, registers, no_data),
    }
}

impl<S: ImageStore> Job<S> {
    // A new record of which no byte came behind its count area is made with zeros.
    // By itself, since few records are left so.
    #[inline(never)]
    fn close_due(&mut self) -> Closed
        requires works { Works (half_done self.old) }
        requires due { is_due self.old.progress.place ≡ true }
        ensures { ClosesTo self.old result self.new }
    {
        let Transfer::Due(_, number, _) = self.progress.place else {
            unreachable!();
        };
        self.make(&[]);
        close_format(&mut self.registers, number)
    }

    /// How the command closes, as far as it is known by the place of its bytes and by how many have passed. A new record that is
    /// due is made before.
    #[inline(always)]
    pub(crate) fn close(&mut self) -> Closed
        requires moved { MovedInField (action_of self.old.opened.command) self.old.progress.moved self.old.progress.place }
        requires works { Works (half_done self.old) }
        ensures { ClosesTo self.old result self.new }
    {
        let geometry = self.cache.geometry();
        let moved = self.progress.moved;
        let opened = &self.opened;
        let registers = &mut self.registers;
        match &self.progress.place {
            Transfer::Sense(_) => close_area(opened, registers, false),
            Transfer::Read(_, no_data)
            | Transfer::Fill(_, no_data)
            | Transfer::Filled(_, WrittenArea::Area(no_data)) => close_area(
                opened, registers, *no_data,
            ),
            Transfer::Filled(_, written) => written_ends(opened, registers, *written),
            Transfer::Search(window, so_far) => {
                let satisfied = moved > 0 && tables::comparison(opened.command).accepts(*so_far);
                close_search(opened, registers, satisfied, window.len == 0)
            }
            Transfer::Field(field) => field_ends(geometry, opened, registers, &field[..moved]),
            Transfer::Due(_, _, _) => self.close_due(),
        }
    }
}

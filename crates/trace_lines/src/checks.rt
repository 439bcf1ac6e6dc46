//! The sense bytes behind a unit check, and why it came, with the numbers that show it.

use crate::seen::Seen;
use crate::trace::{Leave, Trace};
use ckd_command::tables::credited;
use ckd_sense::{Command, Sense};
use ckd_track::last_charge;
use s360_channel::DriveView;
use trace_words::{NoPlace, NoRoom, Remark, SenseReason, cause_of, of_bare_track};

impl Trace {
    /// The sense bytes of a drive, and why.
    pub(crate) fn tell_sense(&mut self, code: u8, seen: &Seen) {
        let Some(drive) = seen.drive else {
            return;
        };
        self.fails = true;
        let [first, second, _, _, _, _] = drive.sense;
        let sense = Sense(u16::from_be_bytes([first, second]));
        self.text.line(&Remark::Sense(sense));
        let reason = match self.by_numbers(code, sense, &drive) {
            Some(reason) => reason,
            None => SenseReason::Cause(code, sense),
        };
        self.text.line(&Remark::UnitCheck(reason));
    }

    // The reason by numbers that were seen, if there are such.
    fn by_numbers(&self, code: u8, sense: Sense, drive: &DriveView) -> Option<SenseReason> {
        let command = Command::decode(code)?.command;
        let cause = cause_of(sense)?;
        if cause == Sense::SEEK_ADDRESS_OUTSIDE {
            return Some(SenseReason::NoPlace(self.no_place(command, drive)));
        }
        if cause == Sense::RECORD_DOES_NOT_FIT {
            return self.no_room(drive);
        }
        if cause == Sense::OUT_OF_SEQUENCE {
            return self.too_few(command);
        }
        if cause == Sense::INVALID_COMMAND {
            return self.argument(command, drive);
        }
        if cause == Sense::NO_RECORD_FOUND && self.passed.has_turned {
            return Some(SenseReason::BareTrack(of_bare_track(command)?));
        }
        None
    }

    // Where a seek was to go, and which places the volume has.
    fn no_place(&self, command: Command, drive: &DriveView) -> NoPlace {
        let (bin, cylinder, head) = self.passed.seek_address();
        NoPlace {
            has_cylinder: command != Command::SeekHead,
            bin,
            cylinder,
            head,
            last_cylinder: drive.cylinders.saturating_sub(1),
            last_head: drive.model.heads().saturating_sub(1),
        }
    }

    // What a new record takes of its track, and what is left of that.
    fn no_room(&self, drive: &DriveView) -> Option<SenseReason> {
        let Leave::Room(left) = self.leave else {
            return None;
        };
        let (key, data) = self.passed.lengths();
        Some(SenseReason::NoRoom(NoRoom {
            key,
            data,
            takes: last_charge(drive.model, key, data),
            left,
        }))
    }

    // That the search right before compared too few bytes, after which this command could have written.
    fn too_few(&self, command: Command) -> Option<SenseReason> {
        let Leave::TooFew(missed, compared) = self.leave else {
            return None;
        };
        let _ = credited(command, Some(missed))?;
        Some(SenseReason::TooFew(compared))
    }

    // That too few bytes came of an argument, or which home address the track has.
    fn argument(&self, command: Command, drive: &DriveView) -> Option<SenseReason> {
        let size = argument_size(command)?;
        Some(if self.passed.count < size {
            SenseReason::Argument(self.passed.count, size)
        } else {
            SenseReason::HomeAddress(drive.cylinder, drive.head)
        })
    }
}

// How many bytes a command takes before it does anything, if it takes an argument of one size.
fn argument_size(command: Command) -> Option<u32> {
    match command {
        Command::Seek | Command::SeekCylinder | Command::SeekHead => Some(6),
        Command::WriteHomeAddress => Some(5),
        Command::WriteR0 | Command::WriteCountKeyAndData => Some(8),
        _ => None,
    }
}

//! What is seen of a channel at one moment.

use crate::stored::Stored;
use bitflags::Flags;
use ckd_command::{Credit, Registers};
use ckd_drive::Drive;
use ckd_image::ImageStore;
use ckd_position::{Area, Position};
use s360_channel::{DriveView, SubchannelView, Watched};
use s360_laws::Answer;
use s360_program::view::{AtWork, ProgramView};
use s360_trace::Moment;
use s360_words::{Csw, UnitStatus};

/// What a channel shows of itself at a moment.
#[derive(Clone, Copy)]
pub struct Shown<'a> {
    /// The program that runs, and what its drive shows.
    pub program: Option<Watched>,
    /// That drive.
    pub work: Option<Work<'a>>,
    /// The ending that pends, and the low byte of its drive's address.
    pub ended: Option<(u8, Csw)>,
}

/// The ending that pends at a subchannel, with the low byte of its drive's address.
pub fn ending_of(subchannel: SubchannelView) -> Option<(u8, Csw)> {
    match subchannel {
        SubchannelView::Pending(device, csw) => Some((device, csw)),
        _ => None,
    }
}

/// What is seen.
#[derive(Clone, Copy)]
pub(crate) struct Seen<'a> {
    /// What storage has of what is looked for there.
    pub(crate) storage: Stored,
    /// The program that runs, and what its drive shows.
    pub(crate) program: Option<ProgramView>,
    pub(crate) work: Option<Work<'a>>,
    /// The ending that pends, where no program runs.
    pub(crate) ended: Option<Csw>,
    /// The drive of the program that runs or ended, or of the start that was made; else that of the program before.
    pub(crate) device: Option<u8>,
    pub(crate) drive: Option<DriveView>,
}

/// What the drive shows at which a program runs.
#[derive(Clone, Copy)]
pub struct Work<'a> {
    pub(crate) registers: Stood,
    /// Whether a command is at work.
    pub(crate) is_open: bool,
    /// The area at which that works, once it has found it; or the last that passed, where no command works.
    pub(crate) area: Option<Area>,
    pub(crate) slot: Option<&'a [u8]>,
}

/// Where a drive's arm stands in a program, and what the command just before left.
#[derive(Clone, Copy)]
pub(crate) struct Stood {
    pub(crate) cylinder: u16,
    pub(crate) head: u16,
    pub(crate) credit: Option<Credit>,
}

impl Stood {
    /// What registers say of it.
    fn of(registers: &Registers) -> Stood {
        Stood {
            cylinder: registers.cylinder,
            head: registers.head,
            credit: registers.credit,
        }
    }
}

/// How far a program had come at a look.
#[derive(Clone, Copy)]
pub(crate) struct Went {
    /// Where the last word was whose fetch was tried, and where the next is.
    pub(crate) last: u32,
    pub(crate) next: u32,
    pub(crate) at_work: AtWork,
}

impl Went {
    /// So far the program that runs has come.
    pub(crate) fn of(running: Option<ProgramView>) -> Option<Went> {
        let program = running?;
        Some(Went {
            last: program.last,
            next: program.next,
            at_work: program.at_work,
        })
    }
}

impl<'a> Work<'a> {
    /// What this drive shows.
    pub fn of<S: ImageStore>(drive: &'a Drive<S>) -> Work<'a> {
        let registers = drive.registers();
        let area = match (drive.command(), registers.position) {
            (Some(opened), _) => opened.area,
            (None, Position::At(area)) => Some(area),
            (None, Position::AtIndex) => None,
        };
        Work {
            registers: Stood::of(registers),
            is_open: drive.command().is_some(),
            area,
            slot: drive.slot(),
        }
    }
}

impl<'a> Shown<'a> {
    /// The program that runs.
    pub(crate) fn running(&self) -> Option<ProgramView> {
        Some(self.program?.program)
    }

    /// The drive of which a look asks what is known, where the last program was that of this one; and the ending that is told with it.
    pub(crate) fn of_drive(&self, moment: Moment, before: Option<u8>) -> (Option<u8>, Option<Csw>) {
        match (self.program, moment, self.ended) {
            (Some(watched), _, _) => (Some(watched.device), None),
            (None, Moment::Behind(_, Answer::Sio(address, _)), _) => {
                (Some((*address % 256) as u8), None)
            }
            (None, _, Some((device, csw))) => (Some(device), Some(csw)),
            (None, _, None) => (before, None),
        }
    }
}

/// Where a drive's arm stands or goes to behind a command that has not failed.
pub(crate) fn place_in(drive: Option<DriveView>, unit: UnitStatus) -> Option<(u16, u16)> {
    match drive {
        Some(drive) if !has_unit_check(unit) => Some((drive.cylinder, drive.head)),
        _ => None,
    }
}

/// Whether unit check is on.
pub(crate) fn has_unit_check(unit: UnitStatus) -> bool {
    unit.contains(UnitStatus::UNIT_CHECK)
}

//! How a program ends (Principles of Operation, Input/Output Operations: 'Conclusion of Input/Output Operations').

ghost use Rattle.std.specs.Prelude.{◌≡◌, false, [], Some};
ghost use Rattle.ckd_command.specs.Drive.{is_written, unsaved};
ghost use Rattle.s360_laws.specs.Endings.{ending};
ghost use Rattle.ckd_drive.specs.Work.{passed_of, fault_met, CallsStore, Reports};
ghost use Rattle.s360_program.specs.Advances.{IsEnding};
ghost use Rattle.s360_program.specs.Place.{place_of};
ghost use Rattle.s360_program.specs.Steps.{Settles, status_of, closed_with, told_of};

use crate::conditions::{ChannelCondition, csw_at, with_interruption};
use crate::run::{Ended, Run};
use ckd_command::DriveEnding;
use ckd_drive::Drive;
use ckd_image::ImageStore;
use s360_words::{Csw, UnitStatus};

/// Ends a program whose last command ended so: the drive saves the track that was written.
// Out of the way of the units that go on, which it made slower.
#[inline(never)]
pub(crate) fn end_program<S: ImageStore>(
    run: &mut Run,
    drive_ending: DriveEnding,
    condition: ChannelCondition,
    drive: &mut Drive<S>,
)
    requires { passed_of drive.old.work ≡ [] }
    ensures { Settles (closed_with drive.old.state drive_ending) run.old.key (place_of run.old.place) condition
        (told_of run.new) drive.old drive.new }
{
    let unit = match drive.settle() {
        Ok(()) => drive_ending.unit,
        Err(_) => UnitStatus(drive_ending.unit.0 | UnitStatus::UNIT_CHECK.0),
    };
    let channel = with_interruption(run.place.interruption, condition.beside(unit));
    run.ended = Ended {
        unit,
        channel,
        motion: drive_ending.motion,
    };
}

/// The channel status word of a program that ended so, where it stands, and whether the arm still moves.
#[inline(always)]
pub(crate) fn told(run: &Run) -> (Csw, bool)
    ensures { result ≡ told_of run.now }
{
    let ended = run.ended;
    let csw = csw_at(run.key, &run.place, ended.unit, ended.channel);
    (csw, ended.motion)
}

//! The first command of a program, as Start I/O begins it (Principles of Operation, Input/Output Operations: 'Start I/O').

ghost use Rattle.std.specs.Prelude.{Bool, ◌≡◌, ◌<◌, ◌≤◌, ◌^◌, true, false, None};
ghost use Rattle.s360_words.specs.Storage.{Storage as StorageState};
ghost use Rattle.ckd_command.specs.Drive.{is_written, unsaved};
ghost use Rattle.ckd_drive.specs.Work.{is_idle, may_end, immediate_ending, Over};
ghost use Rattle.s360_program.specs.Starting.{FirstBegun, ImmediateDone, StartsQuietly};

use crate::place::Place;
use crate::run::{Comes, NOT_ENDED, Run};
use ckd_command::DriveEnding;
use ckd_drive::{Begun, Drive};
use ckd_image::ImageStore;
use s360_words::Ccw;

/// What the first command comes to.
#[derive(Clone, Copy)]
pub(crate) enum First {
    /// The drive rejects it.
    Rejected,
    /// It is over at once, and no other follows; and whether an interruption was asked for.
    Immediate(DriveEnding, bool),
    /// The program runs.
    Accepted(Run),
}

/// Begins the first command, whose word is at this place.
pub(crate) fn first_command<S: ImageStore>(
    key: u8,
    place: Place,
    ccw: Ccw,
    drive: &mut Drive<S>,
) -> First
    requires idle { is_idle drive.old.work ≡ true }
    requires unwritten { is_written drive.old.state ≡ false }
    requires saved { unsaved drive.old.state ≡ None }
    requires key { key < 16 }
    requires next { place.next ≤ 2 ^ 24 }
    requires last { place.last ≤ 2 ^ 24 }
    requires address { ccw.address < 2 ^ 24 }
    requires count { (0 < place.residual) × (place.residual < 2 ^ 16) }
    ensures begun { (s : StorageState) → FirstBegun key s ccw place result drive.old drive.new }
    ensures quiet { StartsQuietly drive.old drive.new }
{
    match drive.begin(ccw.code) {
        Begun::Rejected => First::Rejected,
        Begun::Started => First::Accepted(Run {
            key,
            place,
            comes: Comes::Look,
            ccw,
            address: 0,
            ended: NOT_ENDED,
        }),
        Begun::Immediate => immediate(key, place, ccw, drive),
    }
}

// An immediate command: the next one follows, or the program is over.
fn immediate<S: ImageStore>(key: u8, place: Place, ccw: Ccw, drive: &mut Drive<S>) -> First
    requires may { may_end drive.old.work ≡ true }
    requires unwritten { is_written drive.old.state ≡ false }
    requires key { key < 16 }
    requires next { place.next ≤ 2 ^ 24 }
    requires last { place.last ≤ 2 ^ 24 }
    ensures { (motion : Bool) → drive.old.work ≡ Over (immediate_ending motion)
        → ImmediateDone key ccw place motion result drive.old drive.new }
{
    let ending = drive.end();
    if ccw.chains_command() {
        return First::Accepted(Run {
            key,
            place,
            comes: Comes::NextCommand,
            ccw,
            address: 0,
            ended: NOT_ENDED,
        });
    }
    let _ = drive.settle();
    First::Immediate(ending, place.interruption)
}

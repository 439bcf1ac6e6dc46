//! The numbers by which a call says what came of it. 0 and above: it was done. They are those of `enum dasd_fault` and of
//! `enum dasd_drive_fault`.

ghost use Rattle.std.specs.Prelude.{◌≡◌, pos};
ghost use Rattle.lone_drive_c.specs.Codes.{begun_code, begun_number, look_code, made_code, phase_code, settled_code};

use crate::NotMade;
use ckd_drive::{Begun, Look, Phase};
use ckd_image::{MountFault, StoreFault};

/// It was done.
pub(crate) const DONE: i32 = 0;

/// The handle holds nothing.
pub(crate) const NOTHING_HELD: i32 = -1;

/// The handle holds something already.
pub(crate) const IN_USE: i32 = -2;

/// Memory was refused.
pub(crate) const NO_MEMORY: i32 = -3;

/// A drive's model is 2311 or 2314.
pub(crate) const BAD_MODEL: i32 = -8;

/// A volume has at least one cylinder.
pub(crate) const NO_CYLINDERS: i32 = -9;

/// The drive remembers something of a program.
pub(crate) const PROGRAM_RUNS: i32 = -17;

/// What is to be written has more bytes than there is room for.
pub(crate) const NO_ROOM: i32 = -24;

/// The bytes are no saved drive.
pub(crate) const NO_SAVED_STATE: i32 = -40;

/// They are a saved drive of another version.
pub(crate) const OTHER_VERSION: i32 = -41;

/// They are a saved drive that is cut short, or too long.
pub(crate) const SAVED_LENGTH: i32 = -42;

/// The drive was saved at a track that its volume does not have.
pub(crate) const NO_TRACK: i32 = -47;

/// A command is open.
pub(crate) const COMMAND_OPEN: i32 = -48;

/// No command works.
pub(crate) const NO_COMMAND: i32 = -49;

/// There is no command that may end now.
pub(crate) const NO_END: i32 = -50;

/// The drive gives no bytes now.
pub(crate) const GIVES_NONE: i32 = -51;

/// The drive takes no bytes now.
pub(crate) const TAKES_NONE: i32 = -52;

/// So many bytes may not pass now.
pub(crate) const TOO_MANY: i32 = -53;

/// Bytes of the command have passed.
pub(crate) const BYTES_PASSED: i32 = -54;

/// The track under the arm was written, and is not saved.
pub(crate) const NOT_SAVED: i32 = -55;

/// The volume's file has another length.
pub(crate) const OTHER_LENGTH: i32 = -56;

/// The command of a word is still open.
pub(crate) const STAYS_OPEN: i32 = 256;

/// The unit status of a command that was not begun: channel end, device end and unit check.
pub(crate) const FAILED: i32 = 0x0E;

/// Why there is no drive.
pub(crate) fn of_not_made(why: NotMade) -> i32
    ensures { result ≡ made_code why }
{
    match why {
        NotMade::NoCylinders => NO_CYLINDERS,
        NotMade::OutOfMemory => NO_MEMORY,
        NotMade::Mount(MountFault::NotCkdP370) => -32,
        NotMade::Mount(MountFault::Compressed) => -33,
        NotMade::Mount(MountFault::DeviceType) => -34,
        NotMade::Mount(MountFault::Heads) => -35,
        NotMade::Mount(MountFault::TrackSize) => -36,
        NotMade::Mount(MountFault::Split) => -37,
        NotMade::Mount(MountFault::Length) => -38,
        NotMade::Mount(MountFault::StoreFault) => -39,
    }
}

/// What a command code led to.
pub(crate) fn of_begun(begun: Begun) -> i32
    ensures { result ≡ begun_code begun }
{
    match begun {
        Begun::Rejected => 0,
        Begun::Immediate => 1,
        Begun::Started => 2,
    }
}

/// The same as a word's number.
pub(crate) fn number_of_begun(begun: Begun) -> u8
    ensures { result ≡ begun_number begun }
{
    match begun {
        Begun::Rejected => 0,
        Begun::Immediate => 1,
        Begun::Started => 2,
    }
}

/// What a look led to.
pub(crate) fn of_look(look: Look) -> i32
    ensures { result ≡ look_code look }
{
    match look {
        Look::Failed => 0,
        Look::Passed => 1,
        Look::Ready(_) => 2,
    }
}

/// How far a command is.
pub(crate) fn of_phase(phase: Phase) -> i32
    ensures { result ≡ phase_code phase }
{
    match phase {
        Phase::Idle => 0,
        Phase::Over => 1,
        Phase::Looking => 2,
        Phase::Gives { .. } => 3,
        Phase::Takes { .. } => 4,
    }
}

/// Whether a written track could be saved.
pub(crate) fn of_settled(settled: Result<(), StoreFault>) -> i32
    ensures { result ≡ settled_code settled }
{
    match settled {
        Ok(()) => DONE,
        Err(_) => 1,
    }
}

//! What a drive allows, by the phase that it reports.

ghost use Rattle.std.specs.Prelude.{◌≡◌};
ghost use Rattle.lone_drive_c.specs.Phases.{may_at, may_now, without_bytes};

use ckd_drive::{Drive, Phase};
use dasd_files::VolumeFile;

/// What a drive allows.
#[derive(Clone, Copy)]
pub struct Allowance {
    /// To begin a command or a program, to clear the sense bytes, and to ask for the volume.
    pub begin: bool,
    /// To look for the area of a command.
    pub look: bool,
    /// To end a command.
    pub end: bool,
    /// To settle.
    pub settle: bool,
    /// To give so many bytes.
    pub give: Option<usize>,
    /// To take so many bytes.
    pub take: Option<usize>,
}

/// What the drive allows now.
pub(crate) fn may(drive: &Drive<VolumeFile>) -> Allowance
    ensures { result ≡ may_now drive.now.work }
{
    may_at(drive.phase())
}

fn may_at(phase: Phase) -> Allowance
    ensures { result ≡ may_at phase }
{
    match phase {
        Phase::Idle => without_bytes(true, false, false),
        Phase::Over => without_bytes(false, false, true),
        Phase::Looking => without_bytes(false, true, false),
        Phase::Gives { passed, left } => Allowance {
            begin: false,
            look: true,
            end: true,
            settle: passed == 0,
            give: Some(left),
            take: None,
        },
        Phase::Takes { passed, left } => Allowance {
            begin: false,
            look: true,
            end: true,
            settle: passed == 0,
            give: None,
            take: Some(left),
        },
    }
}

fn without_bytes(begin: bool, look: bool, end: bool) -> Allowance
    ensures { result ≡ without_bytes begin look end }
{
    Allowance {
        begin,
        look,
        end,
        settle: true,
        give: None,
        take: None,
    }
}

//! What a drive answers, and the stages of a command by which it does.

use ckd_position::Area;
use thiserror::Error;

/// What a command code led to.
#[derive(Clone, Copy, Debug, PartialEq, Eq)]
pub enum Begun {
    /// The command is not begun: the sense bytes say why.
    Rejected,
    /// The command is over, and waits for its end.
    Immediate,
    /// The command works.
    Started,
}

/// What a look at the track under the arm led to.
#[derive(Clone, Copy, Debug, PartialEq, Eq)]
pub enum Look {
    /// The area is found: so many more bytes may pass.
    Ready(usize),
    /// The index passed.
    Passed,
    /// The command is over, and waits for its end: the sense bytes say why.
    Failed,
}

/// The volume of a drive has no track at this cylinder and head.
#[derive(Clone, Copy, Debug, PartialEq, Eq, Error)]
#[error("the volume has no such track")]
pub struct NoSuchTrack;

/// How far a command is, and so what may be called next. Other calls than those named wait: whoever makes one breaks
/// its condition.
#[derive(Clone, Copy, Debug, PartialEq, Eq)]
pub enum Phase {
    /// No command is open: `begin`, `begin_program`, `clear_sense` and `settle`, and `into_image` where no track is written.
    Idle,
    /// A command is over: `end`, or `settle` in its place.
    Over,
    /// A command works, and its area is not found yet, or the index passed: `look`, or `settle` to cut it; or `end_whole`,
    /// where `whole_read` lent its bytes.
    Looking,
    /// A command works, and the drive gives bytes: `give` of no more than are left, `look` and `end`; or `settle` to cut it,
    /// where none has passed.
    Gives {
        /// How many bytes have passed.
        passed: usize,
        /// How many more may pass by the last look.
        left: usize,
    },
    /// A command works, and the drive takes bytes: `take` of no more than are left, `look` and `end`; or `settle` to cut it,
    /// where none has passed.
    Takes {
        /// How many bytes have passed.
        passed: usize,
        /// How many more may pass by the last look.
        left: usize,
    },
}

/// How a read ends whose bytes pass at once.
#[derive(Clone, Copy, Debug)]
pub struct WholeRead {
    /// The area behind which it leaves the track.
    pub area: Area,
    /// Whether its bytes are those of a record's data, and there are none.
    pub no_data: bool,
}

/// What a drive does.
#[derive(Clone, Copy)]
pub enum DriveStage {
    /// Nothing.
    Idle,
    /// A command is over, and waits for its end.
    Ended,
    /// A command is over with the arm in motion, and waits for its end.
    InMotion,
    /// A command has failed, as the sense bytes report, and waits for its end.
    Failed,
    /// A command looks for its area.
    Looking,
    /// A command has found its area, and its bytes pass.
    Passing,
}

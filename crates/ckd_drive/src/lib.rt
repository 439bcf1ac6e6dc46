//! One drive over an image: a command, begun, looked for, given or taken in pieces of any length, and ended or cut, is
//! one change of the drive's state.
#![tactic(auto)]

mod answers;
mod begin;
mod close;
mod copying;
mod drive;
mod job;
mod laws;
mod look;
mod restoring;
mod search;
mod transfer;
mod view;
mod whole;

pub use crate::answers::{Begun, Look, NoSuchTrack, Phase, WholeRead};
pub use crate::drive::Drive;
pub use crate::laws::{each_call_tells, each_trail_tells};

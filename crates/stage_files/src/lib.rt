//! For the stage of calls: its lines and what their operands spell, how answers are spelled, and files in memory, over which it
//! makes stores that are watched and fail at the calls asked for.
#![tactic(auto)]

mod files;
mod kinds;
mod line;
mod said;
mod store;
mod watch;

pub use crate::files::{File, Files, NO_FILE, Stores};
pub use crate::kinds::{
    AT, BYTE, DEVICE, DIGITS, HALF, KEY, Kind, NUMBER, NUMBER_OR_NONE, Range, SMALL, WIDE,
};
pub use crate::line::{Line, Verb, find};
pub use crate::said::{MEMORY, No, OUTSIDE, Said, WRONG, Word, yes};
pub use crate::store::{FileStore, Watched};

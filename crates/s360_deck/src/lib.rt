//! Decks: texts whose lines are the events of a channel, and the lines of its answers.
#![tactic(auto)]

mod counted_reading;
mod counted_runs;
mod counted_writing;
mod digits;
mod driving;
mod fault;
pub mod laws;
mod lines;
mod parsing;
mod passes;
mod reading;
mod runs;
mod serial_lists;
mod spelling;
mod texts;
mod watched_driving;
mod watched_runs;
mod writing;

pub use crate::counted_reading::read_text;
pub use crate::counted_runs::run_counted;
pub use crate::digits::{bytes_of_digits, number};
pub use crate::fault::{DeckFault, ReadFault};
pub use crate::lines::AnswerLine;
pub use crate::parsing::{event_name, parse, split_at_line_feed, without_carriage_return};
pub use crate::runs::{RunFault, run};
pub use crate::serial_lists::serial;
pub use crate::spelling::EventName;
pub use crate::texts::run_text;
pub use crate::watched_runs::{run_text_watched, run_watched};
pub use s360_channel::drive;
pub use s360_laws::{Answer, Event};

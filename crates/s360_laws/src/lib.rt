//! The machine as definitions in `specs/`: one channel program at one drive, unit by unit, and a selector channel and its drives, event by
//! event; the laws of both; and the events and answers as values, as a deck spells and prints them.
#![tactic(auto)]

mod answers;
pub mod arm;
pub mod condition;
mod events;
pub mod laws;
pub mod run_laws;
mod status;

pub use crate::answers::{Answer, push_answer};
pub use crate::events::{Event, ShowCount, StorageKey};
pub use crate::status::{Condition, Status};

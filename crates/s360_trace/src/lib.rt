//! A list of events at a channel, watched: what happens is told between units, and is what happens without a watcher.
#![tactic(auto)]

mod watching;

pub use crate::watching::{Moment, Watcher, drive, watch_event};

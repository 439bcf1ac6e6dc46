//! What a C program links that has a channel of its own: one drive over a volume's file in memory, behind a handle that the program owns.
//! `c/dasd_drive.h` is its header.
//!
//! No call asks anything of its caller but what C's types say: each pointer leads to a value that no other argument lies in.
#![tactic(auto)]

mod allowed;
mod changed;
mod commands;
mod copying;
mod drive;
mod handle;
mod passing;
mod refusal;
mod saving;
mod showing;
mod slot;
mod tell;
mod volume;
mod whole;

pub use crate::drive::LoneDrive;
pub use crate::refusal::NotMade;
pub use crate::saving::what_is_saved_is_restored;

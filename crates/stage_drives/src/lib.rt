//! For the stage of calls: what stands alone on it. A drive, a program at it and in a storage, an image, a slot, and the tables
//! of the manuals.
#![tactic(auto)]

mod alone;
mod drive;
mod image;
mod program;
mod shown;
mod slot;
mod slot_writes;
mod storage;
mod tables;
mod verbs;

pub use crate::alone::{Alone, put};
pub use crate::shown::{say_geometry, say_program, say_registers};
pub use crate::storage::{say_key, say_peek};

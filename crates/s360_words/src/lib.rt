//! The words of a channel program, and main storage with its storage keys, as the Principles of
//! Operation of the IBM System/360 lay them down.
#![tactic(auto)]

mod flags;
mod main_storage;
mod words;

pub use crate::flags::{CcwFlags, ChannelStatus, UnitStatus};
pub use crate::main_storage::{BLOCK_SIZE, MAX_SIZE, MIN_SIZE, Storage, StorageFault};
pub use crate::words::{CAW_ADDRESS, CSW_ADDRESS, Caw, Ccw, Csw};

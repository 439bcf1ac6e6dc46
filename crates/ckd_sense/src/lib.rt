//! Command codes, file masks and sense bytes of the 2841 with the 2311 and of the 2314.
#![tactic(auto)]

mod commands;
mod masks;
mod sense_bytes;

pub use crate::commands::{Command, CommandCode};
pub use crate::masks::{FileMask, Permit, SeekPermission, WritePermission};
pub use crate::sense_bytes::{Sense, each_cause_has_its_bytes};

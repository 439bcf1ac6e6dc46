//! A volume's file in memory: a store that counts its changes.
#![tactic(auto)]

mod copying;
mod parts;
mod tracks;
mod volume_file;

pub use crate::tracks::{ShownTrack, slot_size, tell_next, watch_slots};
pub use crate::volume_file::VolumeFile;

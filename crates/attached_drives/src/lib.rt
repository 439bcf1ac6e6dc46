//! Up to eight drives that are attached to a channel, in the order in which they were attached.
#![tactic(auto)]

mod attached_drive;
mod copying;
mod drives;
mod drives_saved;
mod view;

pub use crate::drives::Drives;
pub use crate::drives_saved::{SavedDrive, entry};
pub use crate::view::DriveView;

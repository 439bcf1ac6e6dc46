//! The bytes of channels between two programs as they are saved: for a file, from which they may come back in another process, or from a stranger.
#![tactic(auto)]

mod checksum;
mod faults;
mod laws;
mod reading;
mod writing;

pub use crate::faults::BytesFault;
pub use crate::laws::what_is_written_is_read;
pub use crate::reading::from_bytes;
pub use crate::writing::{LENGTH, to_bytes};

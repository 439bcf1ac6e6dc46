//! What `dasd` prints of volumes: their tracks and records, and the tracks that can't be read; and how far it
//! has come with a large one.
#![tactic(auto)]

mod checks;
mod fault;
mod forms;
mod lists;
mod objects;
mod pieces;
mod progress;
mod reading;
mod text;
mod walks;

pub use crate::checks::check;
pub use crate::fault::VolumeFault;
pub use crate::forms::{Form, Style};
pub use crate::lists::{Listing, list, list_part};
pub use crate::progress::{Progress, Stage, is_large};
pub use crate::reading::SlotReader;
pub use crate::text::{Hexadecimal, PrintedAddress, Reason};
pub use crate::walks::{EachTrack, Range, Tracks, VolumeTrack, all_tracks, each_track};

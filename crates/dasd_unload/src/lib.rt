//! Data sets and members of partitioned ones, unloaded from a volume: one to a writer or to a new file, or all of them to the files of a
//! folder, with a text that describes them. The files are behind a trait, so that nothing here touches a host.
#![tactic(auto)]

mod entries;
mod fault;
mod forms;
mod names;
mod parts;
mod report;
mod sets;
mod texts;
mod tracks;
mod volumes;

pub use crate::fault::UnloadFault;
pub use crate::parts::{End, SetPart};
pub use crate::sets::{BlockForm, WantedSet, unload_set};
pub use crate::tracks::{WantedTracks, unload_tracks};
pub use crate::volumes::{WantedVolume, unload_volume};

//! The hash of what a volume says: home addresses, counts, keys and data of all tracks, without what stands behind end marks; and the hashes
//! of what its data sets and their members say.
#![tactic(auto)]

mod blocks;
mod items;
mod laws;
mod libraries;
mod lines;
mod message;
mod printing;
mod set_laws;
mod sets;
mod tracks;
mod volumes;

pub use crate::blocks::BlocksHash;
pub use crate::items::HashesForm;
pub use crate::laws::message_is_what_they_say;
pub use crate::lines::{HashForm, line_of, write_path};
pub use crate::message::Message;
pub use crate::printing::print_hashes;
pub use crate::set_laws::message_is_what_blocks_say;
pub use crate::volumes::{VolumeHash, hash_volume};

//! What a volume of OS/360 or DOS/360 says of itself: its label, the control blocks of its volume table of contents, its data sets with
//! their extents, its free tracks, and what is wrong with any of them.
#![tactic(auto)]

mod blocks;
mod chains;
mod checks;
mod claims;
mod findings;
mod reading;
mod runs;
mod sets;
mod tracks;

pub use crate::blocks::{Block, find_block};
pub use crate::chains::{Chain, ChainFault, LONGEST_CHAIN, follow_chain};
pub use crate::checks::check_contents;
pub use crate::findings::{Finding, Problem};
pub use crate::reading::{Contents, Found, read_contents};
pub use crate::sets::{DataSet, FreeSpace, data_set_of, find, free_tracks, is_data_set};
pub use crate::tracks::{tracks_free, tracks_owned, tracks_used};

//! How far a turn of a track has come: its areas in the order in which they pass, the next one of a kind, and the
//! comparisons of a search.
#![tactic(auto)]

mod areas;
mod comparisons;
mod extents;
mod looks;

pub use crate::areas::{Area, Kind, Next, Position, RecordPart};
pub use crate::comparisons::{Compare, compared, verdict};
pub use crate::extents::AreaBytes;
pub use crate::looks::next_area;

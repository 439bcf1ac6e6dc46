//! The blocks of a data set or of a member of a partitioned one, block after block over extents and tracks, as they stand or as
//! lines of text.
#![tactic(auto)]

mod alternates;
mod blocks;
mod members;
mod names;
mod raw;
mod stops;
mod texts;
mod tracks;
mod walks;

pub use crate::blocks::ExtractedForm;
pub use crate::members::{Members, directory_of, find_member, member_of, read_members};
pub use crate::names::{data_set_name, member_name};
pub use crate::raw::copy_tracks;
pub use crate::stops::{Cause, Stop};
pub use crate::walks::{Source, extract};

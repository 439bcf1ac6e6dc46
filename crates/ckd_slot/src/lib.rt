//! The slot of one track at hand, with a table of where its records stand; and an image with it: loaded when it is first wanted,
//! written in place, saved late.
#![tactic(auto)]

mod buffer;
mod cache;
mod charges;
mod copying;
mod windows;

pub use crate::buffer::TrackBuffer;
pub use crate::cache::TrackCache;
pub use crate::windows::Window;

//! A box as its pointer and its allocator, for a place that keeps a pointer alone, as a handle that C holds.
#![tactic(auto)]

mod parts;

pub use crate::parts::Parts;

//! Bytes and counts that only contracts read: they take no memory, and what is done to them does nothing at run time.
#![tactic(auto)]

mod counts;
mod traces;

pub use crate::counts::Count;
pub use crate::traces::Trace;

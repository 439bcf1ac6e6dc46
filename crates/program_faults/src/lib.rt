//! Why `dasd` did not do what it was asked: the faults of all commands as one type, with their texts and statuses.
#![tactic(auto)]

mod fault;

pub use crate::fault::{ProgramFault, of_volume};

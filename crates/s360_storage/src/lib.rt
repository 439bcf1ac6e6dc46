//! Main storage as a channel uses it: owned, or lent for a call by who keeps its bytes.
#![tactic(auto)]

mod lent;
mod main_storage;

pub use crate::lent::{Lent, LentFault};
pub use crate::main_storage::MainStorage;

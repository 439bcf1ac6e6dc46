//! A save of several files as one: after a crash at any moment, whatever call failed, a reader finds all its changes or none.
#![tactic(auto)]

mod changes;
mod faults;
mod host;
mod laws;
mod log;
mod opening;
mod saving;

pub use crate::changes::{Change, FileId, Journal, JournalFile};
pub use crate::faults::{HostFault, SaveFault};
pub use crate::host::Host;
pub use crate::laws::{next_begins, read_while_written, something_is_left};
pub use crate::log::{Call, CallLog};
pub use crate::opening::{Found, open, overlay};
pub use crate::saving::{finish, save};

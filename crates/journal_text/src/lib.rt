//! The bytes of a journal.
//!
//! Eight bytes of tag and version, the number of bytes of the body, its SHA-256, and the body: the files, the changes, and what the host
//! adds. Numbers have eight bytes, the high one first; before bytes stands their number.
#![tactic(auto)]

mod faults;
mod reading;
mod writing;

pub use crate::faults::JournalFault;
pub use crate::reading::read_journal;
pub use crate::writing::journal_bytes;

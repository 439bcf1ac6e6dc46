//! A reader or a writer of which contracts know what passed, and how often a call failed; writes of whole texts; and numbers, bytes and
//! counts in digits, in a fixed room. Nothing here takes memory.
#![tactic(auto)]

mod counted;
mod digits;
mod quantities;
mod writing;

pub use crate::counted::Counted;
pub use crate::digits::{put_bytes, put_decimal, put_hexadecimal};
pub use crate::quantities::Quantity;
pub use crate::writing::{WriteFault, flush_all, write_flushed, write_whole};

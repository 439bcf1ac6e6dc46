//! What `dasd vtoc` shows of each data set beside the line of its table, and the members of a library that is named.
#![tactic(auto)]

mod fault;
mod indicators;
mod libraries;
mod long;
mod printing;
mod sections;

pub use crate::fault::MemberListFault;
pub use crate::libraries::print_library;
pub use crate::sections::{DetailForm, print_sections};

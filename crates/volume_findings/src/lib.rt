//! All that is wrong with what a volume of OS/360 or DOS/360 holds: with its label, its table of contents and its free tracks, and with the
//! directories, members and blocks of its data sets; and what `dasd check --contents` prints of it.
#![tactic(auto)]

mod ends;
mod findings;
mod libraries;
mod lines;
mod printing;
mod sets;

pub use crate::findings::{DataFault, DataFinding};
pub use crate::printing::print_findings;

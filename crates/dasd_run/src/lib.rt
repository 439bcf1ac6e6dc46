//! What `dasd` does with its words: a deck is run over the volumes that they name, and each command prints what it did. It is
//! over a reader, a writer and files behind a trait, so that nothing here touches a host.
#![tactic(auto)]

mod archive;
mod changes;
mod commands;
mod decks;
mod details;
mod explain;
mod folders;
mod hash;
mod host;
mod labels;
mod list;
mod loads;
mod members;
mod printed_paths;
mod reaches;
mod recovery;
mod remarks;
mod runs;
mod saves;
mod strict;
mod traces;
mod unload;
mod vtoc;
mod whole;
mod words;

pub use crate::commands::{Ending, answer, obey};
pub use crate::host::{Host, HostParts, obey_with};
pub use crate::runs::{Disks, build, finish};
pub use program_faults::ProgramFault;

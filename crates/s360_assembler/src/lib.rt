//! Channel programs in words: a text of labels, mnemonics and constants, and the deck that it is.
#![tactic(auto)]

mod assembling;
mod constants;
mod deck;
mod fault;
mod fields;
mod files;
mod numbers;
mod parts;
mod statements;
mod symbols;

pub use crate::assembling::assemble;
pub use crate::fault::{AssemblyFault, Cause};
pub use crate::files::{LoadableFile, files_named};
pub use crate::parts::word_bytes;

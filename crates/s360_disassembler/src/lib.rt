//! A deck in words: labels, mnemonics and constants, which are assembled to the same events.
#![tactic(auto)]

mod events;
mod pieces;
mod word_lines;
mod words;

pub use crate::words::{DisassemblyFault, disassemble};

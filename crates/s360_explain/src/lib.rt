//! Channel status words, sense bytes and channel command words in words: a line for each bit that is on, for the command, and for
//! what else they say, with what usually causes it. No image and no channel: what is given is a number that somebody has noted.
#![tactic(auto)]

mod bits;
mod causes;
mod commands;
pub mod laws;
mod lines;
mod mnemonics;
mod names;
mod pasted;
mod text;

pub use crate::bits::{Field, name_of};
pub use crate::causes::cause_text;
pub use crate::commands::{Code, code_name, code_of, command_name};
pub use crate::lines::{Line, Lines, of_ccw, of_csw, of_ending, of_sense, of_status, of_traced};
pub use crate::mnemonics::{code_named, word_of};
pub use crate::names::{ChannelNames, SenseNames, UnitNames};
pub use crate::pasted::{Pasted, of_pasted, read_pasted};

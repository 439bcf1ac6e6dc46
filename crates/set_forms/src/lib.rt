//! The text that says of the data sets in a folder what their labels and directories say: a line for each, and behind it one for each
//! entry of its directory. Pure functions over text and values, which know no files.
#![tactic(auto)]

mod details;
mod entries;
mod fault;
mod forms;
pub mod laws;
mod lines;
mod names;
mod numbers;
mod parsing;
mod sets;
mod words;

pub use crate::fault::{FormLineFault, TextFault};
pub use crate::forms::{EntryForm, FormLine, Note, SetDetails, SetForm, is_partitioned};
pub use crate::lines::write_form;
pub use crate::parsing::parse;

/// The name of the file in which the text stands beside the files of the data sets. No data set has a file of this name, since theirs have
/// no small letters.
pub const FILE_NAME: &str = "data_sets.txt";

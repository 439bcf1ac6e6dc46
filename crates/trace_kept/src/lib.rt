//! A trace between two looks, and on its way to a writer: what a program keeps of words, areas and bytes itself, in plain numbers of known
//! widths, of which all zero are nothing; the round of lines that comes again and is told once; and of all lines those that are asked for.
#![tactic(auto)]

mod kept;
mod last_lines;
pub mod laws;
mod output;
mod rounds;
mod selected;

pub use crate::kept::{
    KeptArea, KeptBytes, KeptLine, KeptWord, NO_WORD, credit_of, device_of, number_of,
    number_of_credit, one_more,
};
pub use crate::output::{TraceFault, TraceOutput, TracedLines};

//! How what a volume of OS/360 or DOS/360 says is printed: its label, its data sets, its free tracks and what is wrong with them, in
//! lines for people and as objects of JSON.
#![tactic(auto)]

mod lines;
mod objects;
mod words;

pub use crate::lines::write_lines;
pub use crate::objects::write_objects;
pub use crate::words::Broken;

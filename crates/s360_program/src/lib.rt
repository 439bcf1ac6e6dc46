//! One channel program at one drive, after its start: what it does, unit by unit, and how it is cut.
#![tactic(auto)]

mod conditions;
mod copying;
mod endings;
pub mod laws;
mod moving;
mod place;
pub mod program;
mod rounds;
mod run;
mod slices;
mod starting;
mod units;
pub mod view;
mod whole;

//! A trace of channel programs: a line for each channel command word that was fetched, and one for each event, from what is seen of
//! a channel between two units.
#![tactic(auto)]

mod checks;
mod credits;
mod ends;
mod kept;
mod seen;
mod starts;
mod stored;
mod trace;
mod tracer;

pub use crate::kept::KeptTrace;
pub use crate::seen::{Shown, Work, ending_of};
pub use crate::trace::Trace;
pub use crate::tracer::Tracer;
pub use trace_kept::{TraceFault, TracedLines};

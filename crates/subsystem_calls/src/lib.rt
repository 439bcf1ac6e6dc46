//! Calls of a subsystem as C makes them, once it was taken out of its handle: over which main storage a call is made, what it does, and the
//! numbers and bytes by which C is told what came of it; and looks at a channel, for a trace that is taken by calls, of which the caller
//! keeps what is needed between two of them as plain numbers.
#![tactic(auto)]

mod attaching;
mod calling;
mod fault;
mod happened;
mod instructions;
mod looking;
mod saving;
mod showing;
mod sized;
mod states;
mod storing;
pub mod tell;
mod told;
mod turns;
mod watching;

pub use crate::attaching::{attach, attach_new, detach};
pub use crate::calling::{Call, over_lent, over_own};
pub use crate::fault::LookFault;
pub use crate::instructions::{Hio, Sio, Tio, tch};
pub use crate::looking::look;
pub use crate::saving::show_next_changed;
pub use crate::showing::{is_at_work, show_channel, show_drive};
pub use crate::sized::tell_progress;
pub use crate::states::{restore, save};
pub use crate::storing::{key, peek, poke, set_key};
pub use crate::told::ToldMoment;
pub use crate::turns::{Interrupt, arrive, is_pending};
pub use crate::watching::{show_program, show_registers};
pub use trace_lines::KeptTrace;

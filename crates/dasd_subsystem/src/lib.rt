//! Channels over one main storage, with drives whose volumes are in memory, as one value, for a program that can't hold them itself; and
//! what such a program is shown of them.
#![tactic(auto)]

mod attaching;
mod copying;
mod files;
mod glances;
mod making;
mod mounting;
mod refusal;
mod saving;
mod shown;
mod subsystem;
mod until;
mod watched;

pub use crate::files::Files;
pub use crate::glances::Glance;
pub use crate::mounting::check;
pub use crate::refusal::Refusal;
pub use crate::saving::RestoreRefusal;
pub use crate::shown::{ShownChannel, ShownDrive, seen};
pub use crate::subsystem::Subsystem;
pub use crate::until::{Counts, RunProgress, Until, Wanted, run_until};
pub use crate::watched::{ShownProgram, ShownRegisters};

//! Several selector channels, numbers 0 to 6, over one main storage, which they are lent for each call.
#![tactic(auto)]

mod adding;
mod asking;
mod copying;
mod ending;
mod faults;
mod interrupting;
pub mod laws;
mod packs;
mod places;
mod restoring;
mod saving;
mod selectors;
mod showing;
mod turns;

pub use crate::ending::Removed;
pub use crate::faults::{
    AddFault, AttachFault, DetachFault, ExchangeFault, PendingFault, RestoreFault, SavedFault,
};
pub use crate::interrupting::is_open;
pub use crate::selectors::Selectors;

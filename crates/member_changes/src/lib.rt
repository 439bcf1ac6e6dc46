//! Members of a library (partitioned data set) that are deleted or renamed in the blocks of its directory alone, as the macro STOW does it: what
//! the entries and the blocks become, where the blocks are, and whether the directory says afterwards what it should. Functions over bytes and
//! slots, which know no image.
#![tactic(auto)]

mod blocks;
mod confirms;
mod entries;
mod laws;
mod libraries;
mod names;
mod places;
mod plans;
mod refusal;

pub use crate::confirms::is_confirmed;
pub use crate::entries::EntryChange;
pub use crate::laws::changes_are_read;
pub use crate::libraries::{last_track, library_extents};
pub use crate::names::new_member_name;
pub use crate::places::{BlockPlace, push_places, write_block};
pub use crate::plans::{DirectoryPlan, plan_change};
pub use crate::refusal::{MemberRefusal, PlanFault};

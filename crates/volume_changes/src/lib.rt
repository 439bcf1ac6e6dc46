//! What is changed of a volume with a label and a table of contents: which records have another key and other data behind a change of a name,
//! of the label, or a deletion; whether the volume says what it should behind that; and why a volume is not changed so. Functions over
//! slots and over what a volume says, which know no image.
#![tactic(auto)]

mod blocks;
mod confirms;
mod free_blocks;
mod labels;
mod names;
mod plans;
mod refusal;
mod renames;
mod runs;
mod space;

pub use crate::blocks::{BlockChange, write_block};
pub use crate::confirms::is_confirmed;
pub use crate::labels::{LabelFields, serial_change, write_label};
pub use crate::names::new_set_name;
pub use crate::plans::{DeletionPlan, PlanFault, plan_deletion};
pub use crate::refusal::ChangeRefusal;
pub use crate::renames::{find_set, plan_rename};
pub use crate::space::{open_marks, plan_taking};

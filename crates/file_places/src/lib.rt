//! Where files and their journals lie, new files under hidden names, and the lines about both.
#![tactic(auto)]

mod drafts;
mod known;
mod leftovers;
mod notes;
mod places;

pub use crate::drafts::{NAME_BEGIN, create_beside, make_file};
pub use crate::known::{is_same, wrong};
pub use crate::leftovers::clear_folder;
pub use crate::notes::{Notes, Told};
pub use crate::places::{
    beside, folder_of, from_folder, home_of, is_free, name_of, sync_folder, sync_names,
};

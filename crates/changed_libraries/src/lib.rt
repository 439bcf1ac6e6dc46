//! A volume in files, a member of a library of which is deleted or renamed in the blocks of the library's directory alone. The files are read
//! whole, and those that changed are saved as a run saves them.
#![tactic(auto)]

mod directories;
mod fault;
mod images;
mod lines;
mod saves;

pub use crate::fault::MemberFault;
pub use crate::images::{MemberChange, change_member};
pub use crate::saves::{MemberName, NewMemberName, delete_member, rename_member};

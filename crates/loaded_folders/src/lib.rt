//! Data sets of a folder, and members of a library, that are put onto a volume in files. A folder has a text that says of each data set what
//! its label and its directory say; a library gets one member more, and is put onto the volume anew. It is done in memory, and the files of
//! the volume that changed are saved once.
#![tactic(auto)]

mod added;
mod blocks;
mod entries;
mod fault;
mod folder;
mod images;
mod lines;
mod member_entries;
mod member_fault;
mod member_images;
mod member_saves;
mod names;
mod old;
mod saves;
mod sets;

pub use crate::added::{AddedMember, OldLibrary};
pub use crate::fault::{FolderEntryFault, FolderFault, FolderRefusal, Uncarried};
pub use crate::member_fault::{NewMemberFault, NewMemberRefusal};
pub use crate::member_images::add_member;
pub use crate::member_saves::{NewMemberFile, load_member};
pub use crate::saves::{NewFolder, load_folder};

//! The records of data sets and libraries as tracks: the blocks that a file has, the lines of a text in EBCDIC, the blocks of a directory and
//! the members of a library, each as records, and the tracks that they take, with their keys. Pure functions over bytes.
#![tactic(auto)]

mod addresses;
mod appending;
mod block_faults;
mod blocks;
mod codes;
mod cut_records;
mod directories;
mod directory_faults;
mod entries;
mod last_places;
mod libraries;
mod library_directories;
mod library_faults;
mod line_records;
mod member_records;
mod records;
mod slots;
mod text_faults;
mod text_laws;
mod text_lines;
mod tracks;
mod user_data;

pub use crate::block_faults::{BlockFault, DescribedFault, block_fault};
pub use crate::blocks::{Blocks, Cut, cut_of};
pub use crate::cut_records::block_records;
pub use crate::directories::{DIRECTORY_BLOCK, blocks_needed, write_directory};
pub use crate::directory_faults::{EntryFault, RefusedEntry, refused_entry};
pub use crate::entries::NewEntry;
pub use crate::last_places::{LastPlace, last_place};
pub use crate::libraries::{MemberEntry, MemberNote, NewLibrary, NewMember};
pub use crate::library_directories::{directory_fault, library_directory};
pub use crate::library_faults::LibraryFault;
pub use crate::line_records::text_records;
pub use crate::member_records::library_records;
pub use crate::records::{NewRecord, goes_on};
pub use crate::slots::load_track;
pub use crate::text_faults::{TextLineFault, TextRecordsFault};
pub use crate::text_laws::text_is_printed;
pub use crate::tracks::{RecordPlace, place_of, tracks_needed};

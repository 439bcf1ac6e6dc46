//! Partitioned data sets: one read into memory, the entries of its directory with their user data and each of its members once; and their
//! members listed, each with where it begins, its user data and how many bytes its blocks have.
#![tactic(auto)]

mod blocks;
mod contents;
mod directories;
mod entries;
mod laws;
mod libraries;
mod lines;
mod listed_blocks;
mod listed_members;
mod members;
mod notes;
mod report;

pub use crate::contents::{LibraryContents, LibraryReadFault, ReadEntry, ReadNote};
pub use crate::directories::{PlacedEntry, placed_entries, user_data};
pub use crate::laws::{entries_are_those_of_the_directory, number_is_where_they_begin};
pub use crate::libraries::read_library;
pub use crate::lines::MembersForm;
pub use crate::listed_members::{Library, list_members};
pub use crate::report::Report;

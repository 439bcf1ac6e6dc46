//! Data sets and libraries that are put onto a volume: the blocks of a file, the lines of a text, or the files of members with a directory.
//! Tracks that are no data set's get the records, and the table of contents the control block. A data set goes into files too: those of the
//! volume are read whole, and those that changed are saved as a run saves them.
#![tactic(auto)]

mod confirms;
mod contents;
mod fault;
mod images;
mod libraries;
mod library_fault;
mod library_images;
mod lines;
mod members;
mod place_fault;
mod placed_images;
mod placing;
mod plans;
mod saves;
mod space;
mod tables;
mod volumes;

pub use crate::contents::{
    KeptLabel, LoadedSet, NewSetForm, SourceForm, label_of, layout_of_set, new_label, text_bytes,
};
pub use crate::fault::{
    ContentFault, LoadFault, LoadRefusal, NO_MEMORY, Unmade, of_file, of_placing, refused,
};
pub use crate::images::load_image;
pub use crate::libraries::LoadedLibrary;
pub use crate::library_images::load_library;
pub use crate::place_fault::{PlaceFault, PlaceRefusal};
pub use crate::placed_images::place_records;
pub use crate::plans::{PlacedSet, SetLabel};
pub use crate::saves::{NewSet, load_set};
pub use crate::volumes::{SoundVolume, judge, position_of};

//! Labels and control blocks of the volumes of OS/360 and DOS/360, as they stand in records, and what stands inside the data sets: directories
//! of partitioned ones, relative track addresses, the records of blocks, and record formats. Pure functions over bytes, which know no image.
#![tactic(auto)]

mod addresses;
mod blocks;
mod directories;
mod ebcdic;
mod extents;
mod fields;
mod labels;
mod layouts;
mod lines;
mod names;
mod records;
pub mod splits;

pub use crate::addresses::{TrackPlace, is_run, is_split, track_in, track_of, tracks_of_extent};
pub use crate::blocks::{
    BlockKind, ContentsBlock, DATA_LENGTH, DataSetBlock, KEY_LENGTH, block_kind, contents_block,
    data_set_block,
};
pub use crate::directories::{
    DIRECTORY_BLOCK, Directory, DirectoryEntry, DirectoryFault, DirectoryStep, directory_step,
    read_directory,
};
pub use crate::ebcdic::{character, shown_character};
pub use crate::extents::{
    ExtentsBlock, FreeSpaceBlock, IndexesBlock, extents_block, free_space_block, has_key_of,
    indexes_block,
};
pub use crate::fields::{Date, Extent, FreeTracks, RecordAddress, RelativeAddress, TrackAddress};
pub use crate::labels::{VolumeLabel, volume_label};
pub use crate::layouts::{AttributeFault, Layout, RecordAttributes, is_longer, layout_given};
pub use crate::lines::without_blanks;
pub use crate::names::safe_name;
pub use crate::records::{Piece, RecordFault, RecordForm, Segment, next_record, record_form};

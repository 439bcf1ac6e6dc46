//! What a system utility writes on a new volume: the loader's records, the volume label, and an empty table of contents; and the control
//! block of a new data set, with the tracks that it gets and what the table says behind that. Pure functions over bytes.
#![tactic(auto)]

mod blocks;
mod extents;
mod free_space;
mod labels;
mod records;
mod runs;
mod set_blocks;
mod slots;
mod tables;
mod texts;

pub use crate::blocks::{contents_data, free_pieces, free_space_key};
pub use crate::extents::extent_of_run;
pub use crate::free_space::{run_bytes, run_of};
pub use crate::labels::{NewLabel, TableFault, blocks_on, free_blocks, table_fault};
pub use crate::records::{loader_data, volume_data};
pub use crate::runs::{free_run, is_taken};
pub use crate::set_blocks::{
    KeptFields, NewDataSet, data_set_data, fields_of, new_fields, record_bytes, updated_contents,
};
pub use crate::slots::spell_labelled_track;
pub use crate::tables::{fill_block, free_block};
pub use crate::texts::{owner_of, serial_of};

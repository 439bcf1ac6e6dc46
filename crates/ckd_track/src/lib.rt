//! Tracks of count-key-data disks: the slots that spell them, their records, and what records take.
#![tactic(auto)]

mod charges;
mod fault;
mod geometries;
mod index;
mod model;
mod view;
mod walk;
mod writes;

pub use crate::charges::{
    capacity_behind, charge, fits, fits_behind, last_charge, r0_charge, used,
};
pub use crate::fault::SlotFault;
pub use crate::geometries::Geometry;
pub use crate::index::index_slot;
pub use crate::model::DriveModel;
pub use crate::view::{TrackView, read_slot, view_at};
pub use crate::walk::{COUNT_LENGTH, RECORDS_START, body_length, data_length, key_length, lengths};
pub use crate::writes::{
    clear_area, data_offset_of, end_offset_of, format_record, overwrite, put_data, put_end_mark,
    put_home_address, put_key_data, put_record, write_ha,
};

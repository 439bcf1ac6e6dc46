//! One command of a count-key-data disk: what it makes of what the drive remembers and of the track under the arm. It knows no
//! image and no store; faults of a store are inputs of the definitions in `specs/`.
//!
//! Items are named from the root, but for the functions of `tables`, which are asked by that module's name: `tables::extent(command)`.
#![tactic(auto)]

mod begin;
mod close;
mod look;
mod registers;
pub mod tables;

pub use crate::begin::{
    CommandStart, Opened, add_cause, begin_command, first_registers, move_to, start_program,
};
pub use crate::close::{
    CHANNEL_AND_DEVICE_END, Closed, DriveEnding, close_area, close_format, close_home_address,
    close_in_unit_check, close_search, close_seek, close_seek_head, close_set_file_mask,
    end_at_area, own_home_address,
};
pub use crate::look::{LookOutcome, sight_of};
pub use crate::registers::{Credit, Lap, Mark, Registers};
pub use crate::tables::{Action, Aim};

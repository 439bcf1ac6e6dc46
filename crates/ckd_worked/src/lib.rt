//! Commands of a drive with what they come to, worked out by hand from the component descriptions of the 2841 and the 2314. Each function
//! here does nothing: its clauses are such vectors, and the checker computes each of them over the definitions of a command.
//!
//! The drive is a 2311 with two cylinders. At cylinder 0, head 0 it has behind R0 a record with a key of two bytes and four bytes of
//! data, one with neither, and one with a key and data again; at head 1 records without data; at head 9, the last one, R0 alone. What
//! is seen of a command is what was reported, the sense bytes, the last area that passed, and the credit for the next command.
#![tactic(auto, unfolding(ckd_command::specs::Commands::beginning, ckd_command::specs::Commands::sight, ckd_command::specs::Commands::area_bytes, ckd_command::specs::Commands::length_after, ckd_command::specs::Commands::closing, ckd_track::specs::Track::track_of, ckd_track::specs::Track::records_from, ckd_track::specs::Track::slot_of,))]

pub mod faults;
pub mod masks_and_sense;
pub mod reads;
pub mod searches;
pub mod seeks;
pub mod turns;
pub mod writes;

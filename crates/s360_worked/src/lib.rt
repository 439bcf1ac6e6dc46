//! Channel programs and lists of events with what they come to, worked out by hand from the component descriptions of
//! the 2841 and the 2314 and from the Principles of Operation (Input/Output Operations). Each function here does
//! nothing: its clauses are such vectors, and the checker computes each of them over the definitions of a drive, of a
//! channel program and of the serial machine.
//!
//! A new drive has one new cylinder. A written drive has two; the tracks that are not new are at heads 0 to 3 of cylinder 0:
//! three records of 80 bytes; a record without data; and two records whose data begins with a channel command word. The first
//! unit of a program is the one in which Start I/O fetches its first word; where events are given, it is not among the
//! units that their steps report.
#![tactic(auto, unfolding(ckd_command::specs::Commands::beginning, ckd_command::specs::Commands::sight, ckd_command::specs::Commands::area_bytes, ckd_command::specs::Commands::length_after, ckd_command::specs::Commands::closing, ckd_track::specs::Track::track_of, ckd_track::specs::Track::records_from, ckd_track::specs::Track::slot_of,))]

pub mod chaining;
pub mod channel;
pub mod instructions;
pub mod lengths_and_cuts;
pub mod program_controlled_interruption;
pub mod reads_and_searches;
pub mod store_faults;
pub mod transfers;
pub mod words_and_places;
pub mod writes;

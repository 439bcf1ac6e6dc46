//! What a C program links: channels with their drives behind a handle that the program owns. `c/dasd.h` is its header.
//!
//! No call asks anything of its caller but what C's types say: each pointer leads to a value that no other argument lies in.
#![tactic(auto)]

mod attaching;
mod calling;
mod copying;
mod files;
mod files_slot;
mod handle;
mod instructions;
mod saving;
mod showing;
mod slot;
mod states;
mod storing;
mod tracing;
mod turns;
mod until;
mod watching;

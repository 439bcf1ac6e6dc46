//! The channel: one subchannel, up to eight drives, and a storage, which it owns (`Channel`) or is lent for each call (`Selector`).
//! It answers the processor's input/output instructions and lets the program that was accepted run, unit by unit.
#![tactic(auto)]

mod asking;
mod attaching;
mod changes;
mod channel;
mod copying;
mod driving;
mod ending;
mod events_at;
mod faults;
mod instructions;
mod interrupting;
mod packs;
mod processor;
mod restoring;
mod saving;
mod selector;
mod showing;
mod starting;
mod subchannel;
mod testing;
mod turns;
mod units;
mod view;
mod watching;

pub use crate::asking::finds_another;
pub use crate::channel::{Channel, Finished, Reset};
pub use crate::driving::drive;
pub use crate::faults::{
    AttachFault, DetachFault, ExchangeFault, NewFault, OtherSize, OutsideStorage, PendingFault,
    RestoreFault, SavedFault,
};
pub use crate::saving::{SavedChannel, what_was_saved_comes_back};
pub use crate::selector::Selector;
pub use crate::view::{RunOn, SubchannelView, View, Watched};
pub use attached_drives::{DriveView, SavedDrive};

//! Why a slot spells no whole track.

use thiserror::Error;

/// Why a slot spells no whole track, with an offset in the slot.
#[derive(Clone, Copy, Debug, PartialEq, Eq, Error)]
pub enum SlotFault {
    /// The records end at this offset, and fewer than eight bytes are left for the end mark.
    #[error("no end at {0}")]
    NoEnd(usize),
    /// The record whose count area stands at this offset runs over the slot's end.
    #[error("record past end at {0}")]
    RecordPastEnd(usize),
}

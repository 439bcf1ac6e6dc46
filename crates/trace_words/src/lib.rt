//! The words of a trace: the line of a channel command word in its columns, the line of an event, what a command met, and why it failed.
//! What is told is given as values; when it is told, `trace_lines` says.
#![tactic(auto)]

mod columns;
mod events;
mod line;
mod met;
mod numbers;
mod passed;
mod reasons;
mod remarks;
mod text;
mod worked_on;

pub use crate::events::EventLine;
pub use crate::line::{Behind, CHAINED, NotTaken, Onward, SKIPS, ToldLine, TraceLine, just};
pub use crate::met::{Met, count_in, key_in, room_behind};
pub use crate::passed::Passed;
pub use crate::reasons::{
    BareTrack, CheckReason, Compared, NoPlace, NoRoom, SenseReason, cause_of, of_bare_track,
};
pub use crate::remarks::{CreditUse, Remark};
pub use crate::text::{ROOM, Text};
pub use crate::worked_on::{Outcome, WorkedOn, worked_on_at_end, worked_on_so_far};

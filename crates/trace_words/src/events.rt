//! The line of an event and of its answer.

ghost use Rattle.std.specs.Prelude.{◌≡◌, ◌+◌, ◌%◌, ◌^◌, Some};
ghost use Rattle.std.specs.Fmt.{WritesOnOk};
ghost use Rattle.trace_words.specs.Events.{event_text, status_text, csw_text, has_ended, ended_text, other_word_text, last_word, code_text, started_text, halted_text, tested_text};
ghost use Rattle.trace_words.specs.Events.{channel_text, other_text, lost_text};

use crate::numbers::{DeviceAddress, KeyDigit, StorageAddress};
use s360_explain::{ChannelNames, UnitNames};
use s360_laws::{Answer, Condition, Status};
use s360_words::{ChannelStatus, Csw, UnitStatus};
use std::fmt;

const BUSY: &str = "CC 2, the channel is busy";

const NO_DEVICE: &str = "CC 3, no such device";

/// An answer in words; of a program's channel status word also of which word the residual count is, where that was another than the
/// last, and that word is known.
#[derive(Clone, Copy)]
pub struct EventLine<'a> {
    /// The answer.
    pub answer: &'a Answer,
    /// The last word that was taken and has a count.
    pub counted: Option<u32>,
}

impl fmt::Display for EventLine<'_> {
    ghost output = { λ l. Some (event_text l.answer.now l.counted) };

    fn fmt<W: fmt::Write>(&self, f: &mut fmt::Formatter<W>) -> fmt::Result {
        match self.answer {
            Answer::Sio(address, condition) => {
                write!(f, "SIO {} ", DeviceAddress(*address))?;
                write_started(f, condition)
            }
            Answer::Hio(address, condition) => {
                write!(f, "HIO {} ", DeviceAddress(*address))?;
                write_halted(f, condition)
            }
            Answer::Tio(address, condition) => {
                write!(f, "TIO {} ", DeviceAddress(*address))?;
                write_tested(f, condition, self.counted)
            }
            Answer::Interrupt(Some((address, csw))) => {
                write!(f, "INT {} ", DeviceAddress(*address))?;
                write_csw(f, *csw, self.counted)
            }
            answer => write_other(f, answer),
        }
    }
}

// Writes what is neither an instruction for a device nor an interruption.
fn write_other<W: fmt::Write>(f: &mut fmt::Formatter<W>, answer: &Answer) -> fmt::Result
    ensures { WritesOnOk W.write_str_gives f.old result (other_text answer.now) f.new }
{
    match answer {
        Answer::Tch(condition) => f.write_str(channel_tested(condition)),
        Answer::Step(done) => write!(f, "STEP {done}"),
        Answer::Run(done) => write!(f, "RUN {done}"),
        Answer::Arrive(address, true) => {
            write!(
                f,
                "ARRIVE {}: the arm has come to rest",
                DeviceAddress(*address)
            )
        }
        Answer::Arrive(address, false) => {
            write!(
                f,
                "ARRIVE {}: no arm was in motion",
                DeviceAddress(*address)
            )
        }
        Answer::Reset(Some((address, cylinder, head))) => {
            write_lost(f, *address, *cylinder, *head)
        }
        Answer::Reset(None) => f.write_str("RESET"),
        // the others have no line: nothing happens that a program sees
        _ => f.write_str("INT none"),
    }
}

// Writes that a reset has lost the track of a drive.
fn write_lost<W: fmt::Write>(
    f: &mut fmt::Formatter<W>,
    address: u16,
    cylinder: u16,
    head: u16,
) -> fmt::Result
    ensures { WritesOnOk W.write_str_gives f.old result (lost_text address cylinder head) f.new }
{
    write!(f, "RESET; {}", DeviceAddress(address))?;
    write!(f, " has lost the track of cylinder {cylinder}")?;
    write!(f, " head {head}")
}

// A condition code of Test Channel.
fn channel_tested(condition: &Condition<()>) -> &'static str
    ensures { result.now ≡ channel_text condition.now }
{
    match condition {
        Condition::Zero => "TCH CC 0, available",
        Condition::Stored(()) => "TCH CC 1, an interruption is pending",
        Condition::Two => "TCH CC 2, a program runs",
        Condition::Three => "TCH CC 3, not operational",
    }
}

// Writes a condition code of Start I/O.
#[tactic(auto, unfolding(crate::specs::Events::started_text))]
fn write_started<W: fmt::Write>(
    f: &mut fmt::Formatter<W>,
    condition: &Condition<Status>,
) -> fmt::Result
    ensures { WritesOnOk W.write_str_gives f.old result (started_text condition.now) f.new }
{
    write_code(f, condition, "CC 0, started", BUSY)
}

// Writes a condition code of Halt I/O.
#[tactic(auto, unfolding(crate::specs::Events::halted_text))]
fn write_halted<W: fmt::Write>(
    f: &mut fmt::Formatter<W>,
    condition: &Condition<Status>,
) -> fmt::Result
    ensures { WritesOnOk W.write_str_gives f.old result (halted_text condition.now) f.new }
{
    write_code(
        f,
        condition,
        "CC 0, an interruption is pending",
        "CC 2, the program is cut",
    )
}

// Writes a condition code of Start I/O or Halt I/O.
#[tactic(auto, unfolding(crate::specs::Events::code_text))]
fn write_code<W: fmt::Write>(
    f: &mut fmt::Formatter<W>,
    condition: &Condition<Status>,
    zero: &str,
    two: &str,
) -> fmt::Result
    ensures { WritesOnOk W.write_str_gives f.old result (code_text zero.now two.now condition.now) f.new }
{
    match condition {
        Condition::Zero => f.write_str(zero),
        Condition::Stored(status) => {
            f.write_str("CC 1, status stored: ")?;
            write_status(f, status.unit, status.channel)
        }
        Condition::Two => f.write_str(two),
        Condition::Three => f.write_str(NO_DEVICE),
    }
}

// Writes a condition code of Test I/O.
#[tactic(auto, unfolding(crate::specs::Events::tested_text))]
fn write_tested<W: fmt::Write>(
    f: &mut fmt::Formatter<W>,
    condition: &Condition<Csw>,
    counted: Option<u32>,
) -> fmt::Result
    ensures { WritesOnOk W.write_str_gives f.old result (tested_text condition.now counted) f.new }
{
    match condition {
        Condition::Zero => f.write_str("CC 0, available"),
        Condition::Stored(csw) => {
            f.write_str("CC 1, CSW stored: ")?;
            write_csw(f, *csw, counted)
        }
        Condition::Two => f.write_str(BUSY),
        Condition::Three => f.write_str(NO_DEVICE),
    }
}

// Writes unit status and channel status, by their bits.
#[tactic(auto, unfolding(crate::specs::Events::status_text))]
fn write_status<W: fmt::Write>(
    f: &mut fmt::Formatter<W>,
    unit: UnitStatus,
    channel: ChannelStatus,
) -> fmt::Result
    ensures { WritesOnOk W.write_str_gives f.old result (status_text unit.0 channel.0) f.new }
{
    let (units, channels) = (UnitNames(unit), ChannelNames(channel));
    match (unit.0, channel.0) {
        (0, 0) => f.write_str("none"),
        (0, _) => write!(f, "{channels}"),
        (_, 0) => write!(f, "{units}"),
        _ => write!(f, "{units}; {channels}"),
    }
}

// Writes a channel status word, by its bits: of one that no program has left, the status alone.
#[tactic(auto, unfolding(crate::specs::Events::csw_text))]
fn write_csw<W: fmt::Write>(
    f: &mut fmt::Formatter<W>,
    csw: Csw,
    counted: Option<u32>,
) -> fmt::Result
    ensures { WritesOnOk W.write_str_gives f.old result (csw_text csw counted) f.new }
{
    write_status(f, csw.unit, csw.channel)?;
    if has_ended(csw.unit, csw.channel) {
        return write_ended(f, csw, counted);
    }
    Ok(())
}

// Whether a program has left a channel status word.
fn has_ended(unit: UnitStatus, channel: ChannelStatus) -> bool
    ensures { result ≡ has_ended unit.0 channel.0 }
{
    channel.0 != 0 || unit.0 & 0x08 != 0
}

// Writes what a program has left.
#[tactic(auto, unfolding(crate::specs::Events::ended_text))]
fn write_ended<W: fmt::Write>(
    f: &mut fmt::Formatter<W>,
    csw: Csw,
    counted: Option<u32>,
) -> fmt::Result
    ensures { WritesOnOk W.write_str_gives f.old result (ended_text csw counted) f.new }
{
    let last = last_word(csw.address);
    let count = csw.count;
    let of = OtherWord { counted, last };
    write!(f, "; last word {}", StorageAddress(last))?;
    write!(f, "; residual count {count}{of}")?;
    write!(f, "; key {}", KeyDigit(csw.key))
}

// Where the last word stands, by the command address of a channel status word.
fn last_word(address: u32) -> u32
    ensures { result ≡ last_word address }
{
    ((u64::from(address) + 0x00FF_FFF8) % 0x0100_0000) as u32
}

// The word whose count a residual count is, where that is another than the last.
#[derive(Clone, Copy)]
struct OtherWord {
    counted: Option<u32>,
    last: u32,
}

impl fmt::Display for OtherWord {
    ghost output = { λ w. Some (other_word_text w.counted w.last) };

    fn fmt<W: fmt::Write>(&self, f: &mut fmt::Formatter<W>) -> fmt::Result {
        match self.counted {
            Some(at) if at != self.last => write!(f, " of {}", StorageAddress(at)),
            _ => Ok(()),
        }
    }
}

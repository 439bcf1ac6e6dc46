//! The lines that say what a number means.

ghost use Rattle.std.specs.Prelude.{◌≡◌, ◌+◌, ◌≤◌, ◌<◌, ◌++◌, ◌∷◌, [], length};
ghost use Rattle.s360_explain.specs.Bits.{bits_of};
ghost use Rattle.s360_explain.specs.Lines.{lines_of_bits, bit_lines, field_lines, status_lines, ending_lines, is_of_no_program, csw_lines, sense_lines};
ghost use Rattle.s360_explain.specs.Lines.{traced_lines, ccw_lines, cause_line, has_nonzero};

use crate::bits::{Field, name_of, named_bits};
use crate::causes::{cause_text, hint_text, is_reported};
use crate::commands::{Code, code_of, command_name};
use crate::text::{bit_text, command_text};
use arrayvec::ArrayVec;
use ckd_sense::CommandCode;
use s360_words::{Ccw, ChannelStatus, Csw, UnitStatus};
use std::fmt;

/// A line of an explanation.
#[derive(Clone, Copy)]
pub enum Line {
    /// The protection key of a channel program.
    Key(u8),
    /// The command address of a channel status word: 8 more than where the last word stands.
    NextWord(u32),
    /// No program has left a channel status word.
    NoProgram,
    /// A field as a number; its bits stand behind it.
    Number(Field, u16),
    /// A bit of a field that is on.
    Bit(Field, u16),
    /// How many bytes of the last word's count did not pass.
    Residual(u16),
    /// What sense bytes 0 and 1 are reported so for.
    Cause(u16),
    /// Sense bytes 0 and 1 are not reported so for one cause.
    NoCause,
    /// Sense byte 0 was given alone.
    FirstByte,
    /// Sense bytes 2 to 5 are not zeros.
    Further,
    /// A command code.
    Command(u8, Code),
    /// Where a transfer in channel goes.
    Target(u32),
    /// The data address of a channel command word.
    Address(u32),
    /// A bit of a channel command word is on that must be zero.
    Reserved,
    /// How many bytes a channel command word asks for.
    Count(u16),
}

impl Default for Line {
    fn default() -> Line {
        Line::FirstByte
    }
}

/// The lines that say what a number means.
pub type Lines = ArrayVec<Line, 24>;

// A line for a bit of a field, if it is on in a number.
fn put_bit(lines: &mut Lines, field: Field, number: u16, bit: u16)
    requires { length lines.old.items < 24 }
    ensures items { lines.new.items ≡ lines.old.items ++ lines_of_bits field number (bit ∷ []) }
    ensures size { length lines.new.items ≤ length lines.old.items + 1 }
{
    if number & bit != 0 {
        lines.push(Line::Bit(field, bit));
    }
}

// A line for each bit of a field that is on in a number.
#[tactic(auto, using(crate::proofs::Lists::one_more))]
fn put_bits(lines: &mut Lines, field: Field, number: u16)
    requires { length lines.old.items + length (bits_of field) ≤ 24 }
    ensures items { lines.new.items ≡ lines.old.items ++ bit_lines field number }
    ensures size { length lines.new.items ≤ length lines.old.items + length (bits_of field) }
{
    let named = named_bits(field);
    for bit in named {
        put_bit(lines, field, number, *bit);
    }
}

// A field, and then its bits.
#[tactic(auto, unfolding(crate::specs::Lines::field_lines))]
fn put_field(lines: &mut Lines, field: Field, number: u16)
    requires { length lines.old.items + length (bits_of field) + 1 ≤ 24 }
    ensures items { lines.new.items ≡ lines.old.items ++ field_lines field number }
    ensures size { length lines.new.items ≤ length lines.old.items + length (bits_of field) + 1 }
{
    lines.push(Line::Number(field, number));
    put_bits(lines, field, number);
}

// Unit status and channel status.
fn put_status(lines: &mut Lines, unit: UnitStatus, channel: ChannelStatus)
    requires { length lines.old.items + 18 ≤ 24 }
    ensures items { lines.new.items ≡ lines.old.items ++ status_lines unit.0 channel.0 }
    ensures size { length lines.new.items ≤ length lines.old.items + 18 }
{
    put_field(lines, Field::UnitStatus, u16::from(unit.0));
    put_field(lines, Field::ChannelStatus, u16::from(channel.0));
}

/// What bytes 4 and 5 of a channel status word say, which Start I/O and Halt I/O store with condition code 1.
pub fn of_status(unit: UnitStatus, channel: ChannelStatus) -> Lines
    ensures { result.items ≡ status_lines unit.0 channel.0 }
{
    let mut lines = Lines::new();
    put_status(&mut lines, unit, channel);
    lines
}

/// What the second half of a channel status word says.
pub fn of_ending(unit: UnitStatus, channel: ChannelStatus, count: u16) -> Lines
    ensures { result.items ≡ ending_lines unit.0 channel.0 count }
{
    let mut lines = Lines::new();
    put_status(&mut lines, unit, channel);
    lines.push(Line::Residual(count));
    lines
}

// Whether no program has left a channel status word: a drive was busy, or its device end came by itself.
fn is_of_no_program(csw: &Csw) -> bool
    ensures { result ≡ is_of_no_program csw.now }
{
    csw.key == 0
        && csw.address == 0
        && csw.channel.0 == 0
        && csw.count == 0
        && csw.unit.0 & 0x08 == 0
}

/// What a channel status word says.
#[tactic(auto, unfolding(crate::specs::Lines::csw_lines))]
pub fn of_csw(csw: Csw) -> Lines
    ensures { result.items ≡ csw_lines csw }
{
    let mut lines = Lines::new();
    if is_of_no_program(&csw) {
        lines.push(Line::NoProgram);
        put_status(&mut lines, csw.unit, csw.channel);
        return lines;
    }
    lines.push(Line::Key(csw.key));
    lines.push(Line::NextWord(csw.address));
    put_status(&mut lines, csw.unit, csw.channel);
    lines.push(Line::Residual(csw.count));
    lines
}

/// What one to six sense bytes say, and what they are reported for together. No bytes say nothing.
pub fn of_sense(bytes: &[u8]) -> Lines
    ensures { result.items ≡ sense_lines bytes.now }
{
    let mut lines = Lines::new();
    match bytes {
        [] => {}
        [first] => {
            put_field(&mut lines, Field::SenseBytes, u16::from(*first) * 256);
            lines.push(Line::FirstByte);
        }
        [first, second, rest @ ..] => {
            let sense = u16::from(*first) * 256 + u16::from(*second);
            put_field(&mut lines, Field::SenseBytes, sense);
            lines.push(cause_of(sense));
            if has_nonzero(rest) {
                lines.push(Line::Further);
            }
        }
    }
    lines
}

// What sense bytes 0 and 1 are reported for together.
#[tactic(auto, unfolding(crate::specs::Lines::cause_line))]
fn cause_of(sense: u16) -> Line
    ensures { result ≡ cause_line sense }
{
    if is_reported(sense) {
        Line::Cause(sense)
    } else {
        Line::NoCause
    }
}

// Whether a byte is not zero.
fn has_nonzero(bytes: &[u8]) -> bool
    ensures { result ≡ has_nonzero bytes.now }
{
    for byte in bytes {
        if *byte != 0 {
            return true;
        }
    }
    false
}

/// What a channel command word says.
pub fn of_ccw(ccw: Ccw) -> Lines
    ensures { result.items ≡ ccw_lines ccw }
{
    let mut lines = Lines::new();
    lines.push(Line::Command(ccw.code, code_of(ccw.code)));
    if ccw.is_transfer() {
        lines.push(Line::Target(ccw.address));
        return lines;
    }
    lines.push(Line::Address(ccw.address));
    put_field(&mut lines, Field::CcwFlags, u16::from(ccw.flags.0));
    if ccw.has_reserved_flags() {
        lines.push(Line::Reserved);
    }
    lines.push(Line::Count(ccw.count));
    lines
}

/// What a word of a trace says, whose flags are not told there, and the unit status behind it.
pub fn of_traced(ccw: Ccw, unit: UnitStatus) -> Lines
    ensures { result.items ≡ traced_lines ccw unit.0 }
{
    let mut lines = Lines::new();
    lines.push(Line::Command(ccw.code, code_of(ccw.code)));
    if ccw.is_transfer() {
        lines.push(Line::Target(ccw.address));
        return lines;
    }
    lines.push(Line::Address(ccw.address));
    lines.push(Line::Count(ccw.count));
    put_field(&mut lines, Field::UnitStatus, u16::from(unit.0));
    lines
}

impl fmt::Display for Line {
    fn fmt<W: fmt::Write>(&self, f: &mut fmt::Formatter<W>) -> fmt::Result {
        match *self {
            Line::Number(field, number) => Heading(field, number).fmt(f),
            Line::Bit(field, bit) => write!(
                f,
                "  {}: {}",
                name_of(field, bit),
                bit_text(field, bit)
            ),
            Line::Cause(sense) => { write!(f, "cause: {}{}", cause_text(sense), hint_text(sense)) }
            Line::Command(code, kind) => CommandLine(code, kind).fmt(f),
            Line::NextWord(next) => write_next_word(f, next),
            Line::Target(address) => write_target(f, address),
            Line::Key(_) | Line::Residual(_) | Line::Address(_) | Line::Count(_) => {
                write_number(f, *self)
            }
            line => f.write_str(remark(line)),
        }
    }
}

// The command address of a channel status word.
fn write_next_word<W: fmt::Write>(f: &mut fmt::Formatter<W>, next: u32) -> fmt::Result {
    let last = next.wrapping_sub(8) & 0x00FF_FFFF;
    write!(f, "address {next:06X}: the last word is at {last:06X}")
}

// Where a transfer in channel goes.
fn write_target<W: fmt::Write>(f: &mut fmt::Formatter<W>, address: u32) -> fmt::Result {
    write!(f, "goes to {address:06X}, which ")?;
    f.write_str(if address % 8 != 0 {
        "is no multiple of 8: program check"
    } else {
        "must be a multiple of 8; flags and count do not count"
    })
}

// A key, an address or a count.
fn write_number<W: fmt::Write>(f: &mut fmt::Formatter<W>, line: Line) -> fmt::Result {
    match line {
        Line::Key(key) => write!(f, "key {key:X}"),
        Line::Residual(count) => write!(
            f,
            "residual count {count}: so many bytes of the last word's count did not pass"
        ),
        Line::Address(address) => write!(f, "data address {address:06X}"),
        Line::Count(0) => f.write_str("count 0: program check"),
        Line::Count(count) => write!(f, "count {count}"),
        _ => Ok(()),
    }
}

// A line without a number.
fn remark(line: Line) -> &'static str {
    match line {
        Line::NoProgram => "no program has left it: key, address and residual count are of none",
        Line::NoCause =>
            "no single cause of these drives: two at once, as with a track that could not be saved, or those of other drives",
        Line::FirstByte => "byte 1 is not given, and may say more",
        Line::Further => "bytes 2 to 5 are not zeros, as those of these drives are",
        _ => "  a bit that must be zero is on: program check",
    }
}

// A field as a number.
#[derive(Clone, Copy)]
struct Heading(Field, u16);

impl fmt::Display for Heading {
    fn fmt<W: fmt::Write>(&self, f: &mut fmt::Formatter<W>) -> fmt::Result {
        let name = match self.0 {
            Field::UnitStatus => "unit status",
            Field::ChannelStatus => "channel status",
            Field::CcwFlags => "flags",
            Field::SenseBytes => return write!(f, "sense {:04X}", self.1),
        };
        write!(f, "{name} {:02X}", self.1)
    }
}

// A command code.
#[derive(Clone, Copy)]
struct CommandLine(u8, Code);

impl fmt::Display for CommandLine {
    fn fmt<W: fmt::Write>(&self, f: &mut fmt::Formatter<W>) -> fmt::Result {
        write!(f, "command {:02X}", self.0)?;
        match self.1 {
            Code::Transfer => f.write_str(
                " Transfer In Channel: the next word is fetched elsewhere",
            ),
            Code::Invalid => f.write_str(
                ": no channel takes it, program check, but after chain data",
            ),
            Code::Unknown => f.write_str(": the drive has no such command"),
            Code::Drive(
                CommandCode {
                    command,
                    multi_track,
                },
            ) => {
                let on = if multi_track {
                    ", on to the next head"
                } else {
                    ""
                };
                write!(
                    f,
                    " {}{on}: {}",
                    command_name(command),
                    command_text(command)
                )
            }
        }
    }
}

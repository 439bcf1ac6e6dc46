//! What a trace tells in lines of their own, beside those of words and of events.

ghost use Rattle.std.specs.Prelude.{◌≡◌, Some};
ghost use Rattle.std.specs.Fmt.{WritesOnOk};
ghost use Rattle.trace_words.specs.Remarks.{remark_text, credit_text, credit_use_text, key_text, filled_text, no_credit_text, sense_text};

use crate::numbers::Bytes;
use crate::reasons::{CheckReason, Compared, SenseReason};
use ckd_command::Credit;
use ckd_sense::Sense;
use s360_explain::{ChannelNames, SenseNames};
use s360_words::ChannelStatus;
use std::fmt;

/// How many bytes of a key are shown.
const SHOWN_OF_KEY: usize = 8;

/// A line of its own.
#[derive(Clone, Copy)]
pub enum Remark<'a> {
    /// The word below asks for an interruption.
    AsksForInterruption,
    /// The command has looked to the end of the track, and goes on from the index.
    IndexPasses,
    /// The command goes on at this head.
    NextHead(u16),
    /// What becomes of a credit.
    Credit(CreditUse, Credit),
    /// A search that was satisfied leaves none: it compared so many bytes.
    NoCredit(Compared),
    /// The key of the record of this number, which a search has met.
    Key(usize, &'a [u8]),
    /// A write has filled so many bytes with zeros.
    Filled(u32),
    /// Sense bytes 0 and 1.
    Sense(Sense),
    /// Why a command ended in unit check.
    UnitCheck(SenseReason),
    /// The record that was met has no data.
    UnitException,
    /// Why the channel ended a program, or did not begin it.
    Check(ChannelStatus, CheckReason),
}

/// What becomes of a credit.
#[derive(Clone, Copy)]
pub enum CreditUse {
    /// The command above leaves it.
    Leaves,
    /// The command below needs it.
    Uses,
    /// It is lost.
    TakesAway,
}

impl fmt::Display for Remark<'_> {
    ghost output = { λ r. Some (remark_text r) };

    fn fmt<W: fmt::Write>(&self, f: &mut fmt::Formatter<W>) -> fmt::Result {
        match self {
            Remark::AsksForInterruption => f.write_str("        asks for an interruption"),
            Remark::IndexPasses => f.write_str("        the index passes"),
            Remark::NextHead(head) => write!(f, "        the next head: {head}"),
            Remark::Credit(becomes, credit) => {
                write!(f, "        {becomes}: {}", PrintedCredit(*credit))
            }
            Remark::NoCredit(compared) => write_no_credit(f, compared),
            Remark::Key(number, key) => write_key(f, *number, key),
            Remark::Filled(number) => write_filled(f, *number),
            Remark::Sense(sense) => write_sense(f, *sense),
            Remark::UnitCheck(reason) => write!(f, "    {reason}"),
            Remark::UnitException => f.write_str(
                "    unit exception: the record has no data, as at the end of a file",
            ),
            Remark::Check(channel, reason) => {
                let names = ChannelNames(*channel);
                write!(f, "    {names}: {reason}")
            }
        }
    }
}

impl fmt::Display for CreditUse {
    ghost output = { λ u. Some (credit_use_text u) };

    fn fmt<W: fmt::Write>(&self, f: &mut fmt::Formatter<W>) -> fmt::Result {
        f.write_str(match self {
            CreditUse::Leaves => "leaves a credit",
            CreditUse::Uses => "uses the credit",
            CreditUse::TakesAway => "takes the credit away",
        })
    }
}

// For what a credit gives leave.
#[derive(Clone, Copy)]
struct PrintedCredit(Credit);

impl fmt::Display for PrintedCredit {
    ghost output = { λ c. Some (credit_text c.0) };

    fn fmt<W: fmt::Write>(&self, f: &mut fmt::Formatter<W>) -> fmt::Result {
        match self.0 {
            Credit::EqualHomeAddress => f.write_str("home address, found equal"),
            Credit::WroteHomeAddress => f.write_str("home address, written"),
            Credit::EqualId(number) => write!(f, "R{number}, whose ID was found equal"),
            Credit::EqualKey(number) => write!(f, "R{number}, whose key was found equal"),
            Credit::WroteRecord(number) => write!(f, "R{number}, written"),
        }
    }
}

// Writes that a search leaves no credit.
fn write_no_credit<W: fmt::Write>(f: &mut fmt::Formatter<W>, compared: &Compared) -> fmt::Result
    ensures { WritesOnOk W.write_str_gives f.old result (no_credit_text compared.now) f.new }
{
    if compared.count == 1 {
        write!(f, "        leaves no credit: {compared} was compared")
    } else {
        write!(f, "        leaves no credit: {compared} were compared")
    }
}

// Writes the first bytes of a record's key.
fn write_key<W: fmt::Write>(f: &mut fmt::Formatter<W>, number: usize, key: &[u8]) -> fmt::Result
    ensures { WritesOnOk W.write_str_gives f.old result (key_text number key.now) f.new }
{
    if key.len() <= SHOWN_OF_KEY {
        return write!(f, "        the key of R{number}: {}", Bytes(key));
    }
    let first = Bytes(&key[..SHOWN_OF_KEY]);
    write!(f, "        the key of R{number}: {first}..")
}

// Writes how many bytes were filled with zeros.
fn write_filled<W: fmt::Write>(f: &mut fmt::Formatter<W>, number: u32) -> fmt::Result
    ensures { WritesOnOk W.write_str_gives f.old result (filled_text number) f.new }
{
    if number == 1 {
        return f.write_str("        fills the other byte with a zero");
    }
    write!(f, "        fills the other {number} bytes with zeros")
}

// Writes sense bytes 0 and 1, and their bits by name.
fn write_sense<W: fmt::Write>(f: &mut fmt::Formatter<W>, sense: Sense) -> fmt::Result
    ensures { WritesOnOk W.write_str_gives f.old result (sense_text sense) f.new }
{
    let bytes = sense.0.to_be_bytes();
    let bytes = Bytes(&bytes);
    let names = SenseNames(sense);
    write!(f, "    sense {bytes}: {names}")
}

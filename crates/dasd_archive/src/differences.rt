//! What differs of two tracks.

ghost use Rattle.std.specs.Prelude.{◌≡◌, [], ◌∷◌, Some, codes};
ghost use Rattle.std.specs.List.{concat};
ghost use Rattle.std.specs.Fmt.{WritesOnOk, decimal};
ghost use Rattle.dasd_volumes.specs.Lines.{bytes_text, fault_text};
ghost use Rattle.dasd_archive.specs.Compare.{difference_text};

use ckd_track::SlotFault;
use dasd_volumes::{Hexadecimal, Reason};
use std::fmt;

/// What differs of a track of two volumes. A record is named by its place on the track, R0 being 0; offsets are in bytes.
#[derive(Clone, Copy)]
pub enum Difference {
    /// The home addresses.
    HomeAddress([u8; 5], [u8; 5]),
    /// The number of records.
    Records(usize, usize),
    /// The identifiers of a record.
    Identifier(usize, [u8; 5], [u8; 5]),
    /// The key areas of a record, from an offset on.
    Key(usize, usize),
    /// The data areas of a record, from an offset on.
    Contents(usize, usize),
    /// What stands behind the end marks, from an offset behind them on.
    BehindEnd(usize),
    /// Only the second volume's track can be read.
    FirstUnreadable(SlotFault),
    /// Only the first volume's track can be read.
    SecondUnreadable(SlotFault),
    /// Neither can be read, and the slots differ from an offset on.
    Unreadable(usize),
}

impl fmt::Display for Difference {
    ghost output = { λ d. Some (difference_text d) };

    fn fmt<W: fmt::Write>(&self, f: &mut fmt::Formatter<W>) -> fmt::Result {
        match self {
            Difference::HomeAddress(one, other) => write_home_addresses(f, one, other),
            Difference::Records(one, other) => write!(f, "records {one} and {other}"),
            Difference::Identifier(i, one, other) => write_identifiers(f, *i, one, other),
            Difference::Key(i, at) => write_area(f, *i, " key from ", *at),
            Difference::Contents(i, at) => write_area(f, *i, " data from ", *at),
            Difference::BehindEnd(at) => write_offset(f, "after the end mark from ", *at),
            Difference::FirstUnreadable(fault) => {
                write_unreadable(f, "unreadable in the first: ", *fault)
            }
            Difference::SecondUnreadable(fault) => {
                write_unreadable(f, "unreadable in the second: ", *fault)
            }
            Difference::Unreadable(at) => write_offset(f, "unreadable in both, bytes from ", *at),
        }
    }
}

// Two home addresses.
fn write_home_addresses<W: fmt::Write>(
    f: &mut fmt::Formatter<W>,
    one: &[u8; 5],
    other: &[u8; 5],
) -> fmt::Result
    ensures { WritesOnOk W.write_str_gives f.old result
        (concat (codes "home address " ∷ bytes_text one.now ∷ codes " and " ∷ bytes_text other.now ∷ [])) f.new }
{
    write!(
        f,
        "home address {} and {}",
        Hexadecimal(one),
        Hexadecimal(other)
    )
}

// The identifiers of a record.
fn write_identifiers<W: fmt::Write>(
    f: &mut fmt::Formatter<W>,
    i: usize,
    one: &[u8; 5],
    other: &[u8; 5],
) -> fmt::Result
    ensures { WritesOnOk W.write_str_gives f.old result
        (concat (codes "record " ∷ decimal i ∷ codes " identifier " ∷ bytes_text one.now ∷ codes " and "
        ∷ bytes_text other.now ∷ [])) f.new }
{
    write!(
        f,
        "record {i} identifier {} and {}",
        Hexadecimal(one),
        Hexadecimal(other)
    )
}

// From where on an area of a record differs.
fn write_area<W: fmt::Write>(
    f: &mut fmt::Formatter<W>,
    i: usize,
    area: &str,
    at: usize,
) -> fmt::Result
    ensures { WritesOnOk W.write_str_gives f.old result
        (concat (codes "record " ∷ decimal i ∷ area.now ∷ decimal at ∷ codes " on" ∷ [])) f.new }
{
    write!(f, "record {i}{area}{at} on")
}

// From where on something differs.
fn write_offset<W: fmt::Write>(f: &mut fmt::Formatter<W>, before: &str, at: usize) -> fmt::Result
    ensures { WritesOnOk W.write_str_gives f.old result (concat (before.now ∷ decimal at ∷ codes " on" ∷ [])) f.new }
{
    write!(f, "{before}{at} on")
}

// Why a track can't be read.
fn write_unreadable<W: fmt::Write>(
    f: &mut fmt::Formatter<W>,
    before: &str,
    fault: SlotFault,
) -> fmt::Result
    ensures { WritesOnOk W.write_str_gives f.old result (concat (before.now ∷ fault_text fault ∷ [])) f.new }
{
    write!(f, "{before}{}", Reason(fault))
}

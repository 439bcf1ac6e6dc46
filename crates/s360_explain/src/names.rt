//! The bits that are on, by their names in one line.

ghost use Rattle.std.specs.Prelude.{◌≡◌, ◌++◌, Some};
ghost use Rattle.std.specs.Fmt.{WritesOnOk};
ghost use Rattle.s360_explain.specs.Names.{listed_name, name_separator, separator_at, names_text};
ghost use Rattle.s360_explain.specs.declared.bits.Field.TheVariants.{UnitStatus, ChannelStatus, SenseBytes};

use crate::bits::{Field, name_of, named_bits};
use crate::text::short_name;
use ckd_sense::Sense;
use s360_words::{ChannelStatus, UnitStatus};
use std::fmt;

/// Unit status, by the short names of its bits, with blanks between.
#[derive(Clone, Copy)]
pub struct UnitNames(pub UnitStatus);

impl fmt::Display for UnitNames {
    ghost output = { λ n. Some (names_text UnitStatus n.0.0) };

    fn fmt<W: fmt::Write>(&self, f: &mut fmt::Formatter<W>) -> fmt::Result {
        write_names(f, Field::UnitStatus, u16::from(self.0.0))
    }
}

/// Channel status, by the names of its bits, with commas between.
#[derive(Clone, Copy)]
pub struct ChannelNames(pub ChannelStatus);

impl fmt::Display for ChannelNames {
    ghost output = { λ n. Some (names_text ChannelStatus n.0.0) };

    fn fmt<W: fmt::Write>(&self, f: &mut fmt::Formatter<W>) -> fmt::Result {
        write_names(f, Field::ChannelStatus, u16::from(self.0.0))
    }
}

/// Sense bytes 0 and 1, by the names of their bits, with commas between.
#[derive(Clone, Copy)]
pub struct SenseNames(pub Sense);

impl fmt::Display for SenseNames {
    ghost output = { λ n. Some (names_text SenseBytes n.0.0) };

    fn fmt<W: fmt::Write>(&self, f: &mut fmt::Formatter<W>) -> fmt::Result {
        write_names(f, Field::SenseBytes, self.0.0)
    }
}

// Writes the names of the bits of a field that are on in a number.
fn write_names<W: fmt::Write>(f: &mut fmt::Formatter<W>, field: Field, number: u16) -> fmt::Result
    ensures { WritesOnOk W.write_str_gives f.old result (names_text field number) f.new }
{
    let named = named_bits(field);
    let mut is_first = true;
    for bit in named {
        if number & *bit == 0 {
            continue;
        }
        write_name(f, is_first, field, *bit)?;
        is_first = false;
    }
    Ok(())
}

// Writes the name of a bit, behind what stands between it and the one before, if it is not the first.
fn write_name<W: fmt::Write>(
    f: &mut fmt::Formatter<W>,
    is_first: bool,
    field: Field,
    bit: u16,
) -> fmt::Result
    ensures { WritesOnOk W.write_str_gives f.old result (separator_at is_first field ++ listed_name field bit) f.new }
{
    f.write_str(if is_first { "" } else { name_separator(field) })?;
    f.write_str(listed_name(field, bit))
}

// The name of a bit where others stand beside it.
fn listed_name(field: Field, bit: u16) -> &'static str
    ensures { result.now ≡ listed_name field bit }
{
    match field {
        Field::UnitStatus => short_name(bit),
        field => name_of(field, bit),
    }
}

// What stands between two names.
fn name_separator(field: Field) -> &'static str
    ensures { result.now ≡ name_separator field }
{
    match field {
        Field::UnitStatus => " ",
        _ => ", ",
    }
}

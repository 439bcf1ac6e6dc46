//! The named bits of words and of sense bytes, and their names.

ghost use Rattle.std.specs.Prelude.{◌≡◌};
ghost use Rattle.s360_explain.specs.Bits.{bits_of, rows_of, IsNamed};
ghost use Rattle.s360_explain.specs.Names.{bit_name, name_in, unit_names, channel_names, flag_names, sense_names};
ghost use Rattle.s360_words.specs.Flags.{ccw_flags, unit_status_bits, channel_status_bits};
ghost use Rattle.ckd_sense.specs.SenseBytes.{sense_bits};

/// A field whose bits have names.
#[derive(Clone, Copy)]
pub enum Field {
    /// The unit status of a channel status word.
    UnitStatus,
    /// The channel status of a channel status word.
    ChannelStatus,
    /// The flags of a channel command word.
    CcwFlags,
    /// Sense bytes 0 and 1, of which byte 0 is the high half.
    SenseBytes,
}

const STATUS_BITS: &[u16] = &[0x80, 0x40, 0x20, 0x10, 0x08, 0x04, 0x02, 0x01];

const FLAG_BITS: &[u16] = &[0x80, 0x40, 0x20, 0x10, 0x08];

const SENSE_BITS: &[u16] = &[
    0x8000, 0x4000, 0x2000, 0x1000, 0x0800, 0x0400, 0x0200, 0x0100, 0x0080, 0x0040, 0x0020, 0x0010,
    0x0008, 0x0004, 0x0002, 0x0001,
];

/// The bits of a field that have names, from the left.
pub(crate) fn named_bits<'a>(field: Field) -> &'a [u16]
    ensures { result.now ≡ bits_of field }
{
    match field {
        Field::UnitStatus | Field::ChannelStatus => STATUS_BITS,
        Field::CcwFlags => FLAG_BITS,
        Field::SenseBytes => SENSE_BITS,
    }
}

/// The name of a bit of a field, in small letters: that of the table of its field, with blanks and hyphens between its words; of
/// a bit that has no name, `no name`.
pub fn name_of(field: Field, bit: u16) -> &'static str
    ensures named { IsNamed (rows_of field) bit result.now }
    ensures name { result.now ≡ bit_name field bit }
{
    match field {
        Field::UnitStatus => unit_name(bit),
        Field::ChannelStatus => channel_name(bit),
        Field::CcwFlags => flag_name(bit),
        Field::SenseBytes => sense_name(bit),
    }
}

/// What is said in place of the name of a bit that has none.
pub(crate) const NO_NAME: &str = "no name";

// 'Unit Status Conditions'.
fn unit_name(bit: u16) -> &'static str
    ensures named { IsNamed unit_status_bits bit result.now }
    ensures name { result.now ≡ name_in unit_names bit }
{
    match bit {
        0x80 => "attention",
        0x40 => "status modifier",
        0x20 => "control unit end",
        0x10 => "busy",
        0x08 => "channel end",
        0x04 => "device end",
        0x02 => "unit check",
        0x01 => "unit exception",
        _ => NO_NAME,
    }
}

// 'Channel Status Conditions'.
fn channel_name(bit: u16) -> &'static str
    ensures named { IsNamed channel_status_bits bit result.now }
    ensures name { result.now ≡ name_in channel_names bit }
{
    match bit {
        0x80 => "program-controlled interruption",
        0x40 => "incorrect length",
        0x20 => "program check",
        0x10 => "protection check",
        0x08 => "channel data check",
        0x04 => "channel control check",
        0x02 => "interface control check",
        0x01 => "chaining check",
        _ => NO_NAME,
    }
}

// 'Channel Command Word'.
fn flag_name(bit: u16) -> &'static str
    ensures named { IsNamed ccw_flags bit result.now }
    ensures name { result.now ≡ name_in flag_names bit }
{
    match bit {
        0x80 => "chain data",
        0x40 => "chain command",
        0x20 => "suppress length indication",
        0x10 => "skip",
        0x08 => "program-controlled interruption",
        _ => NO_NAME,
    }
}

// Component descriptions, 'Sense'.
fn sense_name(bit: u16) -> &'static str
    ensures named { IsNamed sense_bits bit result.now }
    ensures name { result.now ≡ name_in sense_names bit }
{
    match bit {
        0x8000 => "command reject",
        0x4000 => "intervention required",
        0x2000 => "bus out check",
        0x1000 => "equipment check",
        0x0800 => "data check",
        0x0400 => "overrun",
        0x0200 => "track condition check",
        0x0100 => "seek check",
        0x0080 => "data check in count area",
        0x0040 => "track overrun",
        0x0020 => "end of cylinder",
        0x0010 => "invalid sequence",
        0x0008 => "no record found",
        0x0004 => "file protected",
        0x0002 => "missing address marker",
        0x0001 => "overflow incomplete",
        _ => NO_NAME,
    }
}

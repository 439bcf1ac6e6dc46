//! The indicators of a data set, in its format 1 block (IBM System/360 Operating System, System Control Blocks, 'Data Set Control Block',
//! format 1, DS1DSIND).

ghost use Rattle.std.specs.Prelude.{◌≡◌};
ghost use Rattle.volume_details.specs.Indicators.{is_last_volume, protection_of, type_text};

use volume_contents::Block;

/// Where they stand in the data of the block.
const INDICATORS: usize = 49;

/// The bit of the last volume of a data set.
const LAST_VOLUME: u8 = 0x80;

/// The bit of a data set that a password protects.
const PROTECTED: u8 = 0x10;

/// The bit of one that may be read without it.
const WRITES_ALONE: u8 = 0x04;

/// What a password is needed for.
#[derive(Clone, Copy)]
pub(crate) enum Protection {
    /// For nothing.
    None,
    /// To write, and not to read.
    Writes,
    /// To read and to write.
    All,
}

/// Whether a volume is the last of those of a data set, by its format 1 block.
pub(crate) fn is_last_volume(block: &Block) -> bool
    ensures { result ≡ is_last_volume block.now }
{
    block.bytes[INDICATORS] & LAST_VOLUME != 0
}

/// What a password is needed for, by the format 1 block.
pub(crate) fn protection_of(block: &Block) -> Protection
    ensures { result ≡ protection_of block.now }
{
    let indicators = block.bytes[INDICATORS];
    if indicators & PROTECTED == 0 {
        return Protection::None;
    }
    if indicators & WRITES_ALONE == 0 {
        return Protection::All;
    }
    Protection::Writes
}

/// The type of an extent, in words.
pub(crate) fn type_text(kind: u8) -> &'static str
    ensures { result.now ≡ type_text kind }
{
    match kind {
        0x01 => "data",
        0x02 => "overflow",
        0x04 => "index",
        0x40 => "user labels",
        0x80 => "shared cylinders",
        0x81 => "whole cylinders",
        _ => "of an unknown type",
    }
}

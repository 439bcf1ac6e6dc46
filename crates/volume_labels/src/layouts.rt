//! Record formats and lengths that somebody gives for a data set, whose label may have none.

ghost use Rattle.std.specs.Prelude.{◌≡◌};
ghost use Rattle.volume_labels.specs.Layouts.{layout_bits, contradicts, either, fixed_layout, variable_layout, layout_of, layout_given, is_longer};

use crate::{RecordForm, record_form};
use thiserror::Error;

/// The bits of a record format that say how records lie in blocks: fixed, variable or undefined; blocked; standard or spanned (IBM
/// System/360 Operating System, System Control Blocks, 'Data Set Control Block', format 1, DS1RECFM).
const LAYOUT: u8 = 0xD8;

/// The bit of a record format that says that a block has several records.
const BLOCKED: u8 = 0x10;

/// The length of a descriptor word, in bytes.
const DESCRIPTOR: u16 = 4;

/// What a label says of a data set's records and blocks, or what somebody gives.
#[derive(Clone, Copy)]
pub struct RecordAttributes {
    /// The record format, as the bits of a label; the two high ones are 0 where there is none.
    pub format: u8,
    /// The length of its records, in bytes, with the descriptor word of one of variable length; 0 where none is said.
    pub record_length: u16,
    /// The length of its longest block, in bytes; 0 where none is said.
    pub block_length: u16,
}

/// How records lie in the blocks of a data set.
#[derive(Clone, Copy)]
pub struct Layout {
    /// The form of the records.
    pub form: RecordForm,
    /// The length of the longest block, in bytes; 0 is any.
    pub longest: u16,
}

/// Why nothing is known of a data set's records by what somebody gives.
#[derive(Clone, Copy, Debug, PartialEq, Eq, Error)]
pub enum AttributeFault {
    /// The record format that is given is none.
    #[error("no record format")]
    NoFormat,
    /// A record length is given for records of undefined length.
    #[error("records of undefined length have no record length")]
    UndefinedLength,
    /// Neither the label nor who gives the format says how long the records are of which a block has several.
    #[error("no record length")]
    NoRecordLength,
    /// No blocks of this length have records of this length.
    #[error("record length and block length contradict each other")]
    Lengths,
    /// The label has another record format.
    #[error("the label has another record format")]
    OtherFormat,
    /// The label has another record length.
    #[error("the label has another record length")]
    OtherRecordLength,
    /// The label has another block length.
    #[error("the label has another block length")]
    OtherBlockLength,
}

// The bits of a format that say how records lie in blocks.
fn layout_bits(format: u8) -> u8
    ensures { result ≡ layout_bits format }
{
    format & LAYOUT
}

// Whether two lengths are there, and differ.
fn contradicts(said: u16, given: u16) -> bool
    ensures { result ≡ contradicts said given }
{
    said != 0 && given != 0 && said != given
}

// The length that is given, or the one that is said where none is.
fn either(said: u16, given: u16) -> u16
    ensures { result ≡ either said given }
{
    if given == 0 { said } else { given }
}

// Fixed records: a block has several, or is one.
fn fixed_layout(blocked: bool, size: u16, block: u16) -> Result<Layout, AttributeFault>
    ensures { result ≡ fixed_layout blocked size block }
{
    if !blocked {
        if contradicts(size, block) {
            return Err(AttributeFault::Lengths);
        }
        let longest = either(block, size);
        let form = RecordForm::Fixed(longest);
        return Ok(Layout { form, longest });
    }
    if size == 0 {
        return Err(AttributeFault::NoRecordLength);
    }
    if block % size != 0 {
        return Err(AttributeFault::Lengths);
    }
    let form = RecordForm::Fixed(size);
    Ok(Layout {
        form,
        longest: block,
    })
}

// Variable records, each whole in its block.
fn variable_layout(size: u16, block: u16) -> Result<Layout, AttributeFault>
    ensures { result ≡ variable_layout size block }
{
    if size != 0 && block != 0 && u32::from(block) < u32::from(size) + u32::from(DESCRIPTOR) {
        return Err(AttributeFault::Lengths);
    }
    let form = RecordForm::Variable;
    Ok(Layout {
        form,
        longest: block,
    })
}

// Records of this format, with these lengths.
fn layout_of(format: u8, size: u16, block: u16) -> Result<Layout, AttributeFault>
    ensures { result ≡ layout_of format size block }
{
    let longest = block;
    match record_form(format, size) {
        None => Err(AttributeFault::NoFormat),
        Some(RecordForm::Fixed(_)) => fixed_layout(format & BLOCKED != 0, size, block),
        Some(RecordForm::Variable) => variable_layout(size, block),
        Some(form) => Ok(Layout { form, longest }),
    }
}

/// How records lie in the blocks of a data set whose label says this, by what somebody gives: what the label has not is as it is given.
///
/// # Errors
///
/// What is given contradicts itself or the label, or a length is missing that is needed: the first of these, in the order of the tests.
pub fn layout_given(
    label: RecordAttributes,
    given: RecordAttributes,
) -> Result<Layout, AttributeFault>
    ensures { result ≡ layout_given label given }
{
    if given.format / 64 == 3 && given.record_length != 0 {
        return Err(AttributeFault::UndefinedLength);
    }
    if label.format / 64 != 0 && layout_bits(label.format) != layout_bits(given.format) {
        return Err(AttributeFault::OtherFormat);
    }
    if contradicts(label.record_length, given.record_length) {
        return Err(AttributeFault::OtherRecordLength);
    }
    if contradicts(label.block_length, given.block_length) {
        return Err(AttributeFault::OtherBlockLength);
    }
    let size = either(label.record_length, given.record_length);
    let block = either(label.block_length, given.block_length);
    layout_of(given.format, size, block)
}

/// Whether a block is longer than those of its data set are.
pub fn is_longer(longest: u16, length: usize) -> bool
    ensures { result ≡ is_longer longest length }
{
    longest != 0 && usize::from(longest) < length
}

//! The fields of a line.

ghost use Rattle.std.specs.Prelude.{◌≡◌, ◌≤◌, take, length, false, position, IfOk};
ghost use Rattle.s360_assembler.specs.declared.fields.Quoting.TheVariants.{Outside};
ghost use Rattle.s360_assembler.specs.Fields.{quoting_behind, raised_byte, raised, word_length, gap_length, label_of, operation_of};
ghost use Rattle.s360_assembler.specs.Fields.{operation_at, operation_length, operands_of, operands_at, operands_length, remark_of};
ghost use Rattle.s360_assembler.specs.Fields.{is_printing, is_byte};
ghost use Rattle.s360_deck.specs.Deck.{is_blank};

use std::alloc::{AllocError, Global};

/// How a byte of a text is read.
#[derive(Clone, Copy)]
pub enum Quoting {
    /// As all else.
    Outside,
    /// Right after the letter C or after a text: an apostrophe begins a text here, or goes on with it.
    Letter,
    /// Within the apostrophes of a text.
    Text,
    /// Within other apostrophes.
    Digits,
}

impl Quoting {
    // How a byte is written, and how the byte behind it is read.
    fn read(self, byte: u8) -> (u8, Quoting)
        ensures raised { result.0 ≡ raised_byte self byte }
        ensures behind { result.1 ≡ quoting_behind self byte }
    {
        let ends = byte == b'\'' || byte == b'\n';
        let capital = byte.to_ascii_uppercase();
        match self {
            Quoting::Text if byte == b'\'' => (byte, Quoting::Letter),
            Quoting::Text if ends => (byte, Quoting::Outside),
            Quoting::Text => (byte, Quoting::Text),
            Quoting::Digits if ends => (capital, Quoting::Outside),
            Quoting::Digits => (capital, Quoting::Digits),
            Quoting::Letter if byte == b'\'' => (capital, Quoting::Text),
            Quoting::Outside if byte == b'\'' => (capital, Quoting::Digits),
            _ if byte == b'C' || byte == b'c' => (capital, Quoting::Letter),
            _ => (capital, Quoting::Outside),
        }
    }
}

/// The text with capitals for small letters, but within `C'..'`.
pub(crate) fn raised(alloc: Global, text: &[u8]) -> Result<Vec<u8>, AllocError>
    ensures { IfOk result (λ capitals. capitals.items ≡ raised Outside text.now) }
{
    let mut capitals = Vec::with_capacity(alloc, text.len())?;
    let mut quoting = Quoting::Outside;
    for byte in text {
        let (written, behind) = quoting.read(*byte);
        capitals.push(written)?;
        quoting = behind;
    }
    Ok(capitals)
}

/// The fields of a line.
#[derive(Clone, Copy)]
pub(crate) struct Fields<'a> {
    /// What the line begins with, if that is no blank.
    pub(crate) label: &'a [u8],
    /// The operation.
    pub(crate) operation: &'a [u8],
    /// At which byte it begins.
    pub(crate) operation_at: usize,
    /// The operands.
    pub(crate) operands: &'a [u8],
    /// At which byte they begin.
    pub(crate) operands_at: usize,
    /// What stands behind them.
    pub(crate) remark: &'a [u8],
}

/// The fields of a line.
pub(crate) fn fields_of(line: &[u8]) -> Fields<'_>
    ensures label { result.label.now ≡ label_of line.now }
    ensures operation { result.operation.now ≡ operation_of line.now }
    ensures operation_at { result.operation_at ≡ operation_at line.now }
    ensures inside { result.operation_at ≤ length line.now }
    ensures operands { result.operands.now ≡ operands_of line.now }
    ensures operands_at { result.operands_at ≡ operands_at line.now }
    ensures end { result.operands_at ≤ length line.now }
    ensures remark { result.remark.now ≡ remark_of line.now }
{
    let label = word_length(line);
    let operation_at = label + gap_length(&line[label..]);
    let text = &line[operation_at..];
    let operation = operation_length(text);
    let behind = operation_at + operation;
    let operands_at = behind + gap_length(&line[behind..]);
    let operands = first_operands(&line[operands_at..]);
    Fields {
        label: &line[..label],
        operation: &text[..operation],
        operation_at,
        operands,
        operands_at,
        remark: &line[operands_at + operands.len()..],
    }
}

fn position_of_blank(text: &[u8]) -> Option<usize>
    ensures { result ≡ position is_blank text.now }
{
    text.iter().position(|byte| *byte == b' ' || *byte == b'\t')
}

fn position_of_printing(text: &[u8]) -> Option<usize>
    ensures { result ≡ position is_printing text.now }
{
    text.iter()
        .position(|byte| !(*byte == b' ' || *byte == b'\t'))
}

/// Where a byte stands first.
pub(crate) fn position_of(wanted: u8, text: &[u8]) -> Option<usize>
    ensures { result ≡ position (is_byte wanted) text.now }
{
    text.iter().position(|byte| *byte == wanted)
}

// How many bytes stand before the first blank.
fn word_length(text: &[u8]) -> usize
    ensures value { result ≡ word_length text.now }
    ensures inside { result ≤ length text.now }
{
    match position_of_blank(text) {
        Some(at) => at,
        None => text.len(),
    }
}

// How many blanks a text begins with.
fn gap_length(text: &[u8]) -> usize
    ensures value { result ≡ gap_length text.now }
    ensures inside { result ≤ length text.now }
{
    match position_of_printing(text) {
        Some(at) => at,
        None => text.len(),
    }
}

// How many bytes stand before the first blank; or, where an apostrophe stands first, as far as the second one.
fn operation_length(text: &[u8]) -> usize
    ensures value { result ≡ operation_length text.now }
    ensures inside { result ≤ length text.now }
{
    let [b'\'', name @ ..] = text else {
        return word_length(text);
    };
    match position_of(b'\'', name) {
        Some(at) => at + 2,
        None => text.len(),
    }
}

// What stands before the first blank that is not within apostrophes.
fn first_operands(text: &[u8]) -> &[u8]
    ensures operands { result.now ≡ take (operands_length false text.now) text.now }
    ensures inside { length result.now ≤ length text.now }
{
    let mut is_quoted = false;
    let mut at = 0;
    for byte in text {
        if (*byte == b' ' || *byte == b'\t') && !is_quoted {
            return &text[..at];
        }
        if *byte == b'\'' {
            is_quoted = !is_quoted;
        }
        at += 1;
    }
    text
}

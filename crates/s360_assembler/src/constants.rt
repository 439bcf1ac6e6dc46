//! Constants and areas of storage, as operands spell them.

ghost use Rattle.std.specs.Prelude.{◌≡◌, ◌≤◌, ◌<◌, option_map, length, position, IfSome, false};
ghost use Rattle.s360_assembler.specs.Constants.{ebcdic_of, ebcdic_text, character_bytes, is_no_digit, digits_length, times_of, unit_of, decimal_bytes};
ghost use Rattle.s360_assembler.specs.Constants.{bytes_of_kind, letter_and_text, repeated, constant_of, bytes_between};
ghost use Rattle.s360_assembler.specs.Constants.{boundary_of_kind, boundary_of_unit, length_of_unit, area_of};

use arrayvec::ArrayVec;
use byteorder::{BigEndian, ByteOrder};
use s360_deck::{bytes_of_digits, number};
use volume_labels::character;

/// The bytes of a constant.
pub(crate) type Bytes = ArrayVec<u8, 128>;

/// What the address of a statement is a multiple of.
#[derive(Clone, Copy)]
pub enum Boundary {
    /// One byte.
    Byte,
    /// Two bytes.
    Halfword,
    /// Four bytes.
    Fullword,
    /// Eight bytes.
    Doubleword,
}

impl Boundary {
    /// The bytes between two places of it.
    pub fn bytes(self) -> u32
        ensures value { result ≡ bytes_between self }
        ensures some { 1 ≤ result }
        ensures few { result ≤ 8 }
    {
        match self {
            Boundary::Byte => 1,
            Boundary::Halfword => 2,
            Boundary::Fullword => 4,
            Boundary::Doubleword => 8,
        }
    }
}

// The byte of a printing character of ASCII in EBCDIC.
fn ebcdic_of(wanted: u8) -> Option<u8>
    ensures { result ≡ ebcdic_of wanted }
{
    if wanted < 32 || 126 < wanted {
        return None;
    }
    let mut byte: u16 = 0;
    while byte < 256 {
        if character(byte as u8) == wanted {
            return Some(byte as u8);
        }
        byte += 1;
    }
    None
}

// A text between apostrophes in EBCDIC. An apostrophe in it is written twice.
fn ebcdic_text(text: &[u8]) -> Option<ArrayVec<u8, 256>>
    requires { length text.now ≤ 256 }
    ensures { option_map (λ v. v.items) result ≡ ebcdic_text false text.now }
{
    let mut bytes = ArrayVec::new();
    let mut half = false;
    for character in text {
        let is_apostrophe = *character == b'\'';
        if half && !is_apostrophe {
            return None;
        }
        half = is_apostrophe && !half;
        if !half {
            bytes.push(ebcdic_of(*character)?);
        }
    }
    if half { None } else { Some(bytes) }
}

// The bytes of `C'..'`: at most 128.
fn character_bytes(text: &[u8]) -> Option<Bytes>
    ensures { option_map (λ v. v.items) result ≡ character_bytes text.now }
{
    if text.len() > 256 {
        return None;
    }
    let bytes = ebcdic_text(text)?;
    if bytes.len() > 128 {
        return None;
    }
    Some(row_of(bytes.as_slice()))
}

fn position_of_no_digit(text: &[u8]) -> Option<usize>
    ensures { result ≡ position is_no_digit text.now }
{
    text.iter().position(|byte| !byte.is_ascii_digit())
}

// How many decimal digits a text begins with.
fn digits_length(text: &[u8]) -> usize
    ensures value { result ≡ digits_length text.now }
    ensures inside { result ≤ length text.now }
{
    match position_of_no_digit(text) {
        Some(at) => at,
        None => text.len(),
    }
}

// The number in front of a constant; 1 where there is none.
fn times_of(text: &[u8]) -> Option<u32>
    ensures value { result ≡ times_of text.now }
    ensures bound { IfSome result (λ times. times < 268435456) }
{
    let digits = digits_length(text);
    if digits == 0 {
        return Some(1);
    }
    Some(number(&text[..digits], 10, 1, 7)? as u32)
}

/// What stands behind the number.
pub(crate) fn unit_of(text: &[u8]) -> &[u8]
    ensures { result.now ≡ unit_of text.now }
{
    &text[digits_length(text)..]
}

/// Bytes in a row.
pub(crate) fn row_of(bytes: &[u8]) -> Bytes
    requires { length bytes.now ≤ 128 }
    ensures { result.items ≡ bytes.now }
{
    let mut row = ArrayVec::new();
    row.try_extend_from_slice(bytes).unwrap();
    row
}

// A number in four bytes.
fn word_bytes(digits: &[u8]) -> Option<Bytes>
    ensures { option_map (λ v. v.items) result ≡ decimal_bytes 4 4294967295 digits.now }
{
    let value = number(digits, 10, 1, 10)?;
    if value > 4_294_967_295 {
        return None;
    }
    let mut bytes = [0; 4];
    BigEndian::write_u32(&mut bytes, value as u32);
    Some(row_of(&bytes))
}

// A number in two bytes.
fn halfword_bytes(digits: &[u8]) -> Option<Bytes>
    ensures { option_map (λ v. v.items) result ≡ decimal_bytes 2 65535 digits.now }
{
    let value = number(digits, 10, 1, 10)?;
    if value > 65_535 {
        return None;
    }
    let mut bytes = [0; 2];
    BigEndian::write_u16(&mut bytes, value as u16);
    Some(row_of(&bytes))
}

/// The letter of a unit, and what stands in its apostrophes.
pub(crate) fn letter_and_text(unit: &[u8]) -> Option<(u8, &[u8])>
    ensures { option_map (λ parts. (parts.0, parts.1.now)) result ≡ letter_and_text unit.now }
{
    match unit {
        [letter, b'\'', text @ .., b'\''] => Some((*letter, text)),
        _ => None,
    }
}

// What a text in apostrophes is behind this letter.
fn bytes_of_kind(letter: u8, text: &[u8]) -> Option<Bytes>
    ensures { option_map (λ v. v.items) result ≡ bytes_of_kind letter text.now }
{
    match letter {
        b'X' if 2 <= text.len() && text.len() <= 256 => bytes_of_digits(text),
        b'C' => character_bytes(text),
        b'F' => word_bytes(text),
        b'H' => halfword_bytes(text),
        _ => None,
    }
}

// So many times these bytes, 1 to 128 in all.
#[tactic(auto, using(crate::proofs::Rows::one_more_fits))]
fn repeated(times: u32, bytes: &[u8]) -> Option<Bytes>
    requires { length bytes.now ≤ 128 }
    ensures { option_map (λ v. v.items) result ≡ repeated times bytes.now }
{
    let size = u64::from(times) * bytes.len() as u64;
    if size < 1 || 128 < size {
        return None;
    }
    let mut all = ArrayVec::new();
    let mut done = 0;
    while done < times {
        all.try_extend_from_slice(bytes).unwrap();
        done += 1;
    }
    Some(all)
}

/// The bytes of a constant: 1 to 128.
pub(crate) fn constant_of(text: &[u8]) -> Option<Bytes>
    ensures { option_map (λ v. v.items) result ≡ constant_of text.now }
{
    let times = times_of(text)?;
    let (letter, inner) = letter_and_text(unit_of(text))?;
    let bytes = bytes_of_kind(letter, inner)?;
    repeated(times, bytes.as_slice())
}

// The boundary of a kind.
fn boundary_of_kind(letter: u8) -> Boundary
    ensures { result ≡ boundary_of_kind letter }
{
    match letter {
        b'D' => Boundary::Doubleword,
        b'F' | b'A' => Boundary::Fullword,
        b'H' => Boundary::Halfword,
        _ => Boundary::Byte,
    }
}

/// The boundary that a unit stands on.
pub(crate) fn boundary_of_unit(unit: &[u8]) -> Boundary
    ensures { result ≡ boundary_of_unit unit.now }
{
    match unit {
        [letter, ..] => boundary_of_kind(*letter),
        [] => Boundary::Byte,
    }
}

// A length behind X or C.
fn length_of_unit(unit: &[u8]) -> Option<u32>
    ensures { result ≡ length_of_unit unit.now }
{
    match unit {
        [b'X' | b'C', b'L', digits @ ..] => Some(number(digits, 10, 1, 6)? as u32),
        _ => None,
    }
}

/// How many bytes an area has.
pub(crate) fn area_of(text: &[u8]) -> Option<u32>
    ensures { result ≡ area_of text.now }
{
    let unit = unit_of(text);
    if let [letter] = unit {
        if matches!(*letter, b'X' | b'C' | b'H' | b'F' | b'D') {
            return Some(times_of(text)? * boundary_of_kind(*letter).bytes());
        }
    }
    if digits_length(text) > 0 {
        return None;
    }
    length_of_unit(unit)
}

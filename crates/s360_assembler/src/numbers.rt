//! Numbers, addresses and flags as operands spell them.

ghost use Rattle.std.specs.Prelude.{◌≡◌, ◌≤◌, length, position, IfSome, true};
ghost use Rattle.std.specs.List.{slice_split, list_all};
ghost use Rattle.s360_assembler.specs.Numbers.{number_in, number_to, is_letter, is_letter_or_digit, is_symbol, padded, base_of, is_sign};
ghost use Rattle.s360_assembler.specs.Numbers.{displaced, address_of, counted_from, flag_of, is_plus, flags_behind, flags_of};

use crate::fields::position_of;
use s360_deck::number;

/// What an address is counted from.
#[derive(Clone, Copy)]
pub enum Base {
    /// Nothing: it is a number.
    Nothing,
    /// The place of its own statement.
    Here,
    /// The place of this label, with blanks behind it.
    Label([u8; 8]),
}

/// An address as an operand says it.
#[derive(Clone, Copy)]
pub struct Address {
    /// What it is counted from.
    pub base: Base,
    /// How many bytes behind that.
    pub plus: u32,
    /// How many bytes before that.
    pub minus: u32,
}

/// A number: `X'..'` with one to six hexadecimal digits, or one to eight decimal digits.
pub(crate) fn number_in(text: &[u8]) -> Option<u32>
    ensures { result ≡ number_in text.now }
{
    match text {
        [b'X', b'\'', digits @ .., b'\''] => Some(number(digits, 16, 1, 6)? as u32),
        _ => Some(number(text, 10, 1, 8)? as u32),
    }
}

/// A number of at most so much.
pub(crate) fn number_to(most: u32, text: &[u8]) -> Option<u32>
    ensures value { result ≡ number_to most text.now }
    ensures bound { IfSome result (λ value. value ≤ most) }
{
    let value = number_in(text)?;
    (value <= most).then_some(value)
}

fn is_letter(byte: u8) -> bool
    ensures { result ≡ is_letter byte }
{
    byte.is_ascii_uppercase() || byte == b'#' || byte == b'$' || byte == b'@'
}

/// Whether a text is a symbol: one to eight letters and digits, the first a letter.
pub(crate) fn is_symbol(text: &[u8]) -> bool
    ensures value { result ≡ is_symbol text.now }
    ensures short { result ≡ true → length text.now ≤ 8 }
{
    let [first, ..] = text else {
        return false;
    };
    text.len() <= 8 && is_letter(*first) && are_letters_and_digits(text)
}

fn are_letters_and_digits(text: &[u8]) -> bool
    ensures { result ≡ list_all is_letter_or_digit text.now }
{
    for byte in text {
        if !is_letter(*byte) && !byte.is_ascii_digit() {
            return false;
        }
    }
    true
}

/// A symbol with blanks behind it.
pub(crate) fn padded(text: &[u8]) -> [u8; 8]
    requires { length text.now ≤ 8 }
    ensures { result ≡ padded text.now }
{
    let mut symbol = [b' '; 8];
    symbol[..text.len()].copy_from_slice(text);
    symbol
}

// What an address is counted from.
fn base_of(text: &[u8]) -> Option<Base>
    ensures { result ≡ base_of text.now }
{
    if text == &b"*"[..] {
        return Some(Base::Here);
    }
    if !is_symbol(text) {
        return None;
    }
    Some(Base::Label(padded(text)))
}

// So many bytes behind a base, or before it.
fn displaced(sign: u8, base: Base, number: u32) -> Address
    ensures { result ≡ displaced sign base number }
{
    if sign == b'-' {
        return Address {
            base,
            plus: 0,
            minus: number,
        };
    }
    Address {
        base,
        plus: number,
        minus: 0,
    }
}

fn position_of_sign(text: &[u8]) -> Option<usize>
    ensures { result ≡ position is_sign text.now }
{
    text.iter().position(|byte| *byte == b'+' || *byte == b'-')
}

/// An address: a number; or a symbol or an asterisk, and behind it perhaps a sign and a number.
pub(crate) fn address_of(text: &[u8]) -> Option<Address>
    ensures { result ≡ address_of text.now }
{
    match number_in(text) {
        Some(number) => Some(displaced(b'+', Base::Nothing, number)),
        None => counted_from(text),
    }
}

// An address that is no number.
fn counted_from(text: &[u8]) -> Option<Address>
    ensures { result ≡ counted_from text.now (position is_sign text.now) }
{
    let Some(at) = position_of_sign(text) else {
        return Some(displaced(b'+', base_of(text)?, 0));
    };
    let base = base_of(&text[..at])?;
    let number = number_in(&text[at + 1..])?;
    Some(displaced(text[at], base, number))
}

fn flag_of(word: &[u8]) -> Option<u8>
    ensures { result ≡ flag_of word.now }
{
    match word {
        b"CD" => Some(0x80),
        b"CC" => Some(0x40),
        b"SLI" => Some(0x20),
        b"SKIP" => Some(0x10),
        b"PCI" => Some(0x08),
        _ => None,
    }
}

// The flags of these names, with plus signs between them.
fn named_flags(text: &[u8]) -> Option<u8>
    ensures { result ≡ flags_behind 0 (slice_split is_plus text.now) }
{
    let mut flags = 0;
    let mut rest = text;
    while let Some(at) = position_of(b'+', rest) {
        flags |= flag_of(&rest[..at])?;
        rest = &rest[at + 1..];
    }
    Some(flags | flag_of(rest)?)
}

/// The flags of a channel command word: none; a number to 255; or their names, with plus signs between them.
pub(crate) fn flags_of(text: &[u8]) -> Option<u8>
    ensures { result ≡ flags_of text.now }
{
    if text.is_empty() {
        return Some(0);
    }
    match number_to(255, text) {
        Some(number) => Some(number as u8),
        None => named_flags(text),
    }
}

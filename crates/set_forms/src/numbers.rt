//! Numbers in digits, and days. Letters are capitals.

ghost use Rattle.std.specs.Prelude.{◌≡◌, ◌≤◌, ◌<◌, length, option_map, IfSome};
ghost use Rattle.set_forms.specs.Numbers.{number_of, digit_of, byte_of, bytes_of, three_of, day_of, day_text, zeros, year_of};

use arrayvec::{ArrayString, ArrayVec};
use counted_io::put_decimal;
use volume_labels::Date;

/// The number that a word spells: one to ten decimal digits, and no more than `most`.
#[tactic(auto, unfolding(crate::specs::Numbers::number_of))]
pub(crate) fn number(word: &[u8], most: u32) -> Option<u32>
    ensures value { result ≡ number_of most word.now }
    ensures within { IfSome result (λ n. n ≤ most) }
{
    if word.is_empty() || word.len() > 10 {
        return None;
    }
    let mut value: u64 = 0;
    for digit in word {
        if !digit.is_ascii_digit() {
            return None;
        }
        value = 10 * value + u64::from(*digit - b'0');
    }
    if value > u64::from(most) {
        return None;
    }
    Some(value as u32)
}

// The value of a hexadecimal digit.
fn digit_of(character: u8) -> Option<u8>
    ensures value { result ≡ digit_of character }
    ensures below { IfSome result (λ value. value < 16) }
{
    match character {
        b'0'..=b'9' => Some(character - b'0'),
        b'A'..=b'F' => Some(character - b'A' + 10),
        _ => None,
    }
}

/// The byte that two hexadecimal digits spell.
pub(crate) fn byte_of(high: u8, low: u8) -> Option<u8>
    ensures { result ≡ byte_of high low }
{
    let high = digit_of(high)?;
    let low = digit_of(low)?;
    Some(16 * high + low)
}

/// The three bytes that six hexadecimal digits spell.
pub(crate) fn three_of(digits: &[u8]) -> Option<[u8; 3]>
    ensures { result ≡ three_of digits.now }
{
    let [a, b, c, d, e, f] = digits else {
        return None;
    };
    let high = byte_of(*a, *b)?;
    let middle = byte_of(*c, *d)?;
    let low = byte_of(*e, *f)?;
    Some([high, middle, low])
}

/// The bytes that pairs of hexadecimal digits spell, at most 62 of them.
pub(crate) fn bytes_of(digits: &[u8]) -> Option<ArrayVec<u8, 62>>
    requires { length digits.now ≤ 124 }
    ensures { option_map (λ v. v.items) result ≡ bytes_of digits.now }
{
    let mut bytes = ArrayVec::new();
    let mut rest = digits;
    while let [high, low, behind @ ..] = rest {
        let byte = byte_of(*high, *low)?;
        bytes.push(byte);
        rest = behind;
    }
    rest.is_empty().then_some(bytes)
}

/// A day: the year and the day of it, or a hyphen for none.
#[tactic(auto, unfolding(crate::specs::Numbers::day_text))]
pub(crate) fn day_word(date: Date) -> ArrayString<32>
    ensures { result.bytes ≡ day_text date }
{
    let mut word = ArrayString::new();
    if date.year == 0 && date.day == 0 {
        word.push_str("-");
        return word;
    }
    put_decimal(&mut word, 1900 + u32::from(date.year));
    word.push_str("-");
    word.push_str(zeros(date.day));
    put_decimal(&mut word, u32::from(date.day));
    word
}

// The zeros before a number of fewer than three digits.
fn zeros(number: u16) -> &'static str
    ensures text { result.now ≡ zeros number }
    ensures few { length result.now ≤ 2 }
{
    match number {
        0..=9 => "00",
        10..=99 => "0",
        _ => "",
    }
}

// The year of four digits, from 1900 on.
fn year_of(digits: &[u8]) -> Option<u8>
    ensures { result ≡ year_of digits.now }
{
    let year = number(digits, 2155)?;
    if year < 1900 {
        return None;
    }
    Some((year - 1900) as u8)
}

/// The day that a word spells.
#[tactic(auto, unfolding(crate::specs::Numbers::day_of))]
pub(crate) fn day_of(word: &[u8]) -> Option<Date>
    ensures { result ≡ day_of word.now }
{
    if word == &b"-"[..] {
        return Some(Date { year: 0, day: 0 });
    }
    if word.len() < 5 || word[4] != b'-' {
        return None;
    }
    let year = year_of(&word[..4])?;
    let day = number(&word[5..], 65535)? as u16;
    Some(Date { year, day })
}

//! Numbers in digits. Letters are capitals.

ghost use Rattle.std.specs.Prelude.{◌≡◌, ◌^◌, ◌≤◌, ◌<◌, option_map, length, IfSome};
ghost use Rattle.s360_deck.specs.Digits.{digit_of, number_of, device_address_of, storage_address_of, key_of, count_within, run_units_of, bytes_of};

use arrayvec::ArrayVec;
use s360_laws::{ShowCount, StorageKey};

/// An input/output address: three hexadecimal digits.
pub(crate) fn device_address(word: &[u8]) -> Option<u16>
    ensures { result ≡ device_address_of word.now }
{
    let address = number(word, 16, 3, 3)?;
    Some(address as u16)
}

/// A storage address: one to six hexadecimal digits.
pub(crate) fn storage_address(word: &[u8]) -> Option<u32>
    ensures { result ≡ storage_address_of word.now }
{
    let address = number(word, 16, 1, 6)?;
    Some(address as u32)
}

/// A storage key: one hexadecimal digit.
pub(crate) fn storage_key(word: &[u8]) -> Option<StorageKey>
    ensures { result ≡ key_of word.now }
{
    let key = number(word, 16, 1, 1)?;
    Some(StorageKey::new(key as u8))
}

/// How many bytes are shown: 1 to 32.
pub(crate) fn show_count(word: &[u8]) -> Option<ShowCount>
    ensures { result ≡ count_within 1 32 word.now }
{
    let bytes = count(word, 1, 32)?;
    Some(ShowCount::new(bytes as u8))
}

/// A number of one to five decimal digits, from `least` to `most`.
pub(crate) fn count(word: &[u8], least: u16, most: u16) -> Option<u16>
    ensures value { result ≡ count_within least most word.now }
    ensures within { IfSome result (λ n. n ≤ most) }
{
    let value = number(word, 10, 1, 5)?;
    if value < u64::from(least) || u64::from(most) < value {
        return None;
    }
    Some(value as u16)
}

/// The units of a run: one to ten decimal digits, from 1 to 4,294,967,295.
pub(crate) fn run_units(word: &[u8]) -> Option<u32>
    ensures { result ≡ run_units_of word.now }
{
    let value = number(word, 10, 1, 10)?;
    if value < 1 || 4_294_967_295 < value {
        return None;
    }
    Some(value as u32)
}

/// The bytes that pairs of hexadecimal digits, capitals, spell; of none, no bytes.
pub fn bytes_of_digits(digits: &[u8]) -> Option<ArrayVec<u8, 128>>
    requires { length digits.now ≤ 256 }
    ensures { option_map (λ v. v.items) result ≡ bytes_of digits.now }
{
    let mut bytes = ArrayVec::new();
    let mut rest = digits;
    while let [high, low, behind @ ..] = rest {
        let high = digit(*high, 16)?;
        let low = digit(*low, 16)?;
        bytes.push((16 * high + low) as u8);
        rest = behind;
    }
    rest.is_empty().then_some(bytes)
}

// The value of a digit, 0 to 9 or A to F, if the base has it.
fn digit(byte: u8, base: u32) -> Option<u32>
    requires { base ≤ 16 }
    ensures value { result ≡ digit_of base byte }
    ensures below { IfSome result (λ value. value < base) }
{
    let value = match byte {
        b'0'..=b'9' => byte - b'0',
        b'A'..=b'F' => byte - b'A' + 10,
        _ => return None,
    };
    (u32::from(value) < base).then_some(u32::from(value))
}

/// The number that a word of `least` to `most` digits spells, of a base of at most 16. Letters are capitals.
pub fn number(word: &[u8], base: u32, least: usize, most: usize) -> Option<u64>
    requires base { base ≤ 16 }
    requires most { most ≤ 10 }
    ensures value { result ≡ number_of base least most word.now }
    ensures bound { IfSome result (λ value. value < 16 ^ most) }
{
    if word.len() < least || most < word.len() {
        return None;
    }
    let mut value: u64 = 0;
    for byte in word {
        let next = digit(*byte, base)?;
        value = u64::from(base) * value + u64::from(next);
    }
    Some(value)
}

//! The words of organisations and record formats.

ghost use Rattle.std.specs.Prelude.{◌≡◌, ◌≤◌, ◌+◌, ◌++◌, length};
ghost use Rattle.std.specs.Option.{option_copied};
ghost use Rattle.set_forms.specs.Words.{organisation_text, organisation_of, organisation_bits, quoted, bits_text, form_letter, form_of, flag_of};
ghost use Rattle.set_forms.specs.Words.{letter_if, is_lettered, letters_behind, lettered, format_letters, format_text, format_bits, format_of, byte_in};

use crate::numbers::byte_of;
use arrayvec::ArrayString;
use counted_io::put_bytes;

/// A word.
type Word = ArrayString<16>;

// The word of these letters.
fn word_of(letters: &str) -> Word
    requires { length letters.now ≤ 16 }
    ensures { result.bytes ≡ letters.now }
{
    let mut word = ArrayString::new();
    word.push_str(letters);
    word
}

/// The word of these bits, in hexadecimal digits: as X'91'.
pub(crate) fn bits_word(bytes: &[u8]) -> Word
    requires { length bytes.now ≤ 2 }
    ensures { result.bytes ≡ bits_text bytes.now }
{
    let mut word = ArrayString::new();
    word.push_str("X'");
    put_bytes(&mut word, bytes);
    word.push_str("'");
    word
}

// The digits of a word of bits.
fn quoted(word: &[u8]) -> Option<&[u8]>
    ensures { option_copied result ≡ quoted word.now }
{
    let len = word.len();
    if len < 3 || !(word[0] == b'X' && word[1] == b'\'' && word[len - 1] == b'\'') {
        return None;
    }
    Some(&word[2..len - 1])
}

/// The word of an organisation: PS, PO, DA or IS, or its bits.
#[tactic(auto, unfolding(crate::specs::Words::organisation_text))]
pub(crate) fn organisation_word(bits: u16) -> Word
    ensures { result.bytes ≡ organisation_text bits }
{
    match bits {
        0x4000 => word_of("PS"),
        0x0200 => word_of("PO"),
        0x2000 => word_of("DA"),
        0x8000 => word_of("IS"),
        _ => bits_word(&[(bits / 256) as u8, (bits % 256) as u8]),
    }
}

// The two bytes of an organisation, in digits.
fn organisation_bits(digits: &[u8]) -> Option<u16>
    ensures { result ≡ organisation_bits digits.now }
{
    let [a, b, c, d] = digits else {
        return None;
    };
    let high = byte_of(*a, *b)?;
    let low = byte_of(*c, *d)?;
    Some(256 * u16::from(high) + u16::from(low))
}

/// The organisation that a word says.
#[tactic(auto, unfolding(crate::specs::Words::organisation_of))]
pub(crate) fn organisation_of(word: &[u8]) -> Option<u16>
    ensures { result ≡ organisation_of word.now }
{
    match word {
        b"PS" => Some(0x4000),
        b"PO" => Some(0x0200),
        b"DA" => Some(0x2000),
        b"IS" => Some(0x8000),
        _ => organisation_bits(quoted(word)?),
    }
}

// Whether letters say all bits of a record format.
fn is_lettered(format: u8) -> bool
    ensures { result ≡ is_lettered format }
{
    format & 0xC0 != 0 && format & 0x01 == 0
}

// The letter of the form of records.
fn form_letter(format: u8) -> &'static str
    ensures letter { result.now ≡ form_letter format }
    ensures one { length result.now ≤ 1 }
{
    match format / 64 {
        2 => "F",
        1 => "V",
        _ => "U",
    }
}

// The letter of a flag that a record format has goes to the end of its word.
fn put_letter(word: &mut Word, format: u8, flag: u8, letter: &str)
    requires { length word.old.bytes + length letter.now ≤ 16 }
    ensures text { word.new.bytes ≡ word.old.bytes ++ letter_if format flag letter.now }
    ensures size { length word.new.bytes ≤ length word.old.bytes + length letter.now }
{
    if format & flag != 0 {
        word.push_str(letter);
    }
}

// A record format in letters.
fn format_letters(format: u8) -> Word
    ensures { result.bytes ≡ format_letters format }
{
    let mut word = word_of(form_letter(format));
    put_letter(&mut word, format, 0x10, "B");
    put_letter(&mut word, format, 0x08, "S");
    put_letter(&mut word, format, 0x20, "T");
    put_letter(&mut word, format, 0x04, "A");
    put_letter(&mut word, format, 0x02, "M");
    word
}

/// The word of a record format: letters, as job control has them, or its bits where letters don't say them all.
#[tactic(auto, unfolding(crate::specs::Words::format_text))]
pub(crate) fn format_word(format: u8) -> Word
    ensures { result.bytes ≡ format_text format }
{
    if is_lettered(format) {
        return format_letters(format);
    }
    bits_word(&[format])
}

// The bits of a form.
fn form_of(letter: u8) -> Option<u8>
    ensures { result ≡ form_of letter }
{
    match letter {
        b'F' => Some(0x80),
        b'V' => Some(0x40),
        b'U' => Some(0xC0),
        _ => None,
    }
}

// The bit of a flag.
fn flag_of(letter: u8) -> Option<u8>
    ensures { result ≡ flag_of letter }
{
    match letter {
        b'B' => Some(0x10),
        b'S' => Some(0x08),
        b'T' => Some(0x20),
        b'A' => Some(0x04),
        b'M' => Some(0x02),
        _ => None,
    }
}

// A record format with the flags of letters.
fn letters_behind(form: u8, letters: &[u8]) -> Option<u8>
    ensures { result ≡ letters_behind form letters.now }
{
    let mut format = form;
    for letter in letters {
        format |= flag_of(*letter)?;
    }
    Some(format)
}

// The record format that letters say.
fn lettered(word: &[u8]) -> Option<u8>
    ensures { result ≡ lettered word.now }
{
    let [form, letters @ ..] = word else {
        return None;
    };
    letters_behind(form_of(*form)?, letters)
}

// The byte of a record format, in digits.
fn format_bits(digits: &[u8]) -> Option<u8>
    ensures { result ≡ format_bits digits.now }
{
    let [high, low] = digits else {
        return None;
    };
    byte_of(*high, *low)
}

/// The byte of a word of bits.
pub(crate) fn byte_in(word: &[u8]) -> Option<u8>
    ensures { result ≡ byte_in word.now }
{
    format_bits(quoted(word)?)
}

/// The record format that a word says.
#[tactic(auto, unfolding(crate::specs::Words::format_of))]
pub(crate) fn format_of(word: &[u8]) -> Option<u8>
    ensures { result ≡ format_of word.now }
{
    match quoted(word) {
        Some(digits) => format_bits(digits),
        None => lettered(word),
    }
}

//! The names in a label, in EBCDIC.

ghost use Rattle.std.specs.Prelude.{◌≡◌, ◌≤◌, IsTrue, length, replicate};
ghost use Rattle.std.specs.List.{list_all};
ghost use Rattle.new_labels.specs.Texts.{name_characters, is_name_character, is_serial, is_owner, IsSpelled, MakesField, Encodes};

use crate::records::BLANK;

/// The characters of a name, a blank as the last one.
const CHARACTERS: [u8; 41] = *b"ABCDEFGHIJKLMNOPQRSTUVWXYZ0123456789#@$- ";

/// The same in EBCDIC.
const CODES: [u8; 41] = [
    0xC1, 0xC2, 0xC3, 0xC4, 0xC5, 0xC6, 0xC7, 0xC8, 0xC9, 0xD1, 0xD2, 0xD3, 0xD4, 0xD5, 0xD6, 0xD7,
    0xD8, 0xD9, 0xE2, 0xE3, 0xE4, 0xE5, 0xE6, 0xE7, 0xE8, 0xE9, 0xF0, 0xF1, 0xF2, 0xF3, 0xF4, 0xF5,
    0xF6, 0xF7, 0xF8, 0xF9, 0x7B, 0x7C, 0x5B, 0x60, 0x40,
];

// The characters are those of the definitions.
fn characters_are_known()
    ensures { CHARACTERS ≡ name_characters }
{}

/// A volume's serial number in EBCDIC, with blanks behind it: 1 to 6 letters, digits, and `#`, `@`, `$` and `-`. None is a text of another
/// form.
pub fn serial_of(text: &str) -> Option<[u8; 6]>
    ensures { MakesField (is_serial text.now) text.now result }
{
    let bytes = text.as_bytes();
    if bytes.is_empty() || bytes.len() > 6 || bytes.contains(&b' ') {
        return None;
    }
    let mut field = [BLANK; 6];
    if put_name(&mut field, bytes) {
        Some(field)
    } else {
        None
    }
}

/// An owner's name in EBCDIC, with blanks behind it: at most 10 of the characters of a serial number and blanks. None is a text of another
/// form.
pub fn owner_of(text: &str) -> Option<[u8; 10]>
    ensures { MakesField (is_owner text.now) text.now result }
{
    let bytes = text.as_bytes();
    if bytes.len() > 10 {
        return None;
    }
    let mut field = [BLANK; 10];
    if put_name(&mut field, bytes) {
        Some(field)
    } else {
        None
    }
}

// Writes a name into a field of blanks, and answers whether it has only the characters that it may have. Where not, the field has some of
// them.
fn put_name(field: &mut [u8], text: &[u8]) -> bool
    requires room { length text.now ≤ length field.old }
    requires blanks { field.old ≡ replicate (length field.old) 0x40 }
    ensures answer { result ≡ list_all is_name_character text.now }
    ensures spelled { IsTrue result → IsSpelled text.now field.new }
{
    for i in 0..text.len() {
        let Some(code) = encoded(text[i]) else {
            return false;
        };
        field[i] = code;
    }
    true
}

// A character in EBCDIC; none is one that no name may have.
fn encoded(character: u8) -> Option<u8>
    ensures { Encodes character result }
{
    for i in 0..CHARACTERS.len() {
        if CHARACTERS[i] == character {
            return Some(CODES[i]);
        }
    }
    None
}

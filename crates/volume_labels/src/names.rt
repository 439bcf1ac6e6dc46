//! Names of files that are made of the names of data sets and members.

ghost use Rattle.std.specs.Prelude.{◌≡◌, ◌<◌, ◌++◌, IfOk, OnOk, true, false};
ghost use Rattle.std.specs.List.{flat_map};
ghost use Rattle.std.specs.String.{string_bytes};
ghost use Rattle.volume_labels.specs.Names.{is_plain, digit, byte_name, safe_name_of};

use crate::character;
use crate::lines::without_blanks;
use std::alloc::{AllocError, Global};

// Whether a character stands for itself in the name of a file.
fn is_plain(character: u8) -> bool
    ensures { result ≡ is_plain character }
{
    character.is_ascii_uppercase()
        || character.is_ascii_digit()
        || character == b'.'
        || character == b'-'
        || character == b'_'
        || character == b'@'
        || character == b'#'
        || character == b'$'
}

// A hexadecimal digit, in capitals.
fn digit(number: u8) -> u8
    requires { number < 16 }
    ensures { result ≡ digit number }
{
    if number < 10 {
        b'0' + number
    } else {
        b'A' + (number - 10)
    }
}

// Appends a byte as it stands in the name of a file.
fn push_byte(name: &mut String, byte: u8, is_first: bool) -> Result<(), AllocError>
    ensures { OnOk result (string_bytes name.new ≡ string_bytes name.old ++ byte_name is_first byte) }
{
    let character = character(byte);
    if is_plain(character) && !(is_first && character == b'.') {
        return name.push(char::from(character));
    }
    name.push('%')?;
    name.push(char::from(digit(byte / 16)))?;
    name.push(char::from(digit(byte % 16)))
}

// Appends bytes behind the first one.
fn push_rest(name: &mut String, bytes: &[u8]) -> Result<(), AllocError>
    ensures { OnOk result (string_bytes name.new ≡ string_bytes name.old ++ flat_map (byte_name false) bytes.now) }
{
    for i in 0..bytes.len() {
        push_byte(name, bytes[i], false)?;
    }
    Ok(())
}

/// The name of a file for a name in EBCDIC with blanks behind it: capital letters, digits and `.-_@#$` stand for themselves, each
/// other byte is a percent sign and two hexadecimal digits, and so is a period at the front. A name of blanks alone is that of
/// one blank. So it is never empty, never begins with a period, and has no character by which it could name another folder.
///
/// # Errors
///
/// There is no memory for it.
pub fn safe_name(alloc: Global, name: &[u8]) -> Result<String, AllocError>
    ensures { IfOk result (λ made. string_bytes made ≡ safe_name_of name.now) }
{
    let mut made = String::new(alloc);
    let kept = without_blanks(name);
    if kept.is_empty() {
        push_byte(&mut made, 0x40, true)?;
        return Ok(made);
    }
    push_byte(&mut made, kept[0], true)?;
    push_rest(&mut made, &kept[1..])?;
    Ok(made)
}

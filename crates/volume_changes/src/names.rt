//! The names that a data set may be given.

ghost use Rattle.std.specs.Prelude.{◌≡◌};
ghost use Rattle.volume_changes.specs.Names.{is_letter, is_further, are_simple_names, is_set_name, MakesName};

use dasd_extract::data_set_name;

/// The most characters of a simple name.
const SIMPLE_NAME: usize = 8;

// Whether a character may begin a simple name.
fn is_letter(character: u8) -> bool
    ensures { result ≡ is_letter character }
{
    character.is_ascii_uppercase() || character == b'#' || character == b'@' || character == b'$'
}

// Whether a character may stand behind the first one of a simple name.
fn is_further(character: u8) -> bool
    ensures { result ≡ is_further character }
{
    is_letter(character) || character.is_ascii_digit() || character == b'-'
}

// Whether characters are simple names that are joined by periods, where so many characters of the first one stand before them.
fn are_simple_names(before: usize, text: &[u8]) -> bool
    ensures { result ≡ are_simple_names before text.now }
{
    let [character, more @ ..] = text else {
        return before > 0;
    };
    if *character == b'.' {
        return before > 0 && are_simple_names(0, more);
    }
    if before == 0 {
        return is_letter(*character) && are_simple_names(1, more);
    }
    before < SIMPLE_NAME && is_further(*character) && are_simple_names(before + 1, more)
}

/// A name for a data set in EBCDIC (code page 037), with blanks behind it: simple names of 1 to 8 characters that are joined by periods, 44
/// characters at most. A simple name begins with a capital letter, `#`, `@` or `$`, and has of these, digits and hyphens behind that (IBM
/// System/360 Operating System, Job Control Language Reference, GC28-6704, 'Data Set Names'). None is a text of another form.
pub fn new_set_name(text: &str) -> Option<[u8; 44]>
    ensures { MakesName text.now result }
{
    if !are_simple_names(0, text.as_bytes()) {
        return None;
    }
    data_set_name(text)
}

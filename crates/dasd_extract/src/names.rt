//! The names of data sets and of members, as somebody writes them.

ghost use Rattle.std.specs.Prelude.{◌≡◌, IfSome, is_some, length, true};
ghost use Rattle.volume_labels.specs.Ebcdic.{character_of};
ghost use Rattle.dasd_extract.specs.Names.{Names, IsBlank, is_ascii, is_name};

use volume_labels::character;

/// The length of a data set's name, in bytes, with the blanks behind it.
const DATA_SET_NAME: usize = 44;

/// The length of a member's name, in bytes, with the blanks behind it.
const MEMBER_NAME: usize = 8;

/// A blank in EBCDIC.
const BLANK: u8 = 0x40;

// The byte of EBCDIC that is a character of ASCII.
fn byte_of(wanted: u8) -> Option<u8>
    ensures byte { IfSome result (λ byte. character_of byte ≡ wanted) }
    ensures exact { is_some result ≡ is_ascii wanted }
{
    if wanted >= 128 {
        return None;
    }
    for number in 0..256u16 {
        let byte = number as u8;
        if character(byte) == wanted {
            return Some(byte);
        }
    }
    None
}

// Puts a text of ASCII into a name of blanks, if it has a character and no more than the name has room for.
fn put_name(name: &mut [u8], text: &[u8]) -> bool
    requires blanks { IsBlank 0 name.old }
    ensures size { length name.new ≡ length name.old }
    ensures text { result ≡ true → Names text.now name.new }
    ensures exact { result ≡ is_name (length name.old) text.now }
{
    if text.is_empty() || text.len() > name.len() {
        return false;
    }
    for i in 0..text.len() {
        match byte_of(text[i]) {
            Some(byte) => name[i] = byte,
            None => return false,
        }
    }
    true
}

/// The name of a data set in EBCDIC (code page 037), with blanks behind it. None is a text that no volume has as a name: one without
/// characters, of more than 44, or with one that is none of ASCII's.
pub fn data_set_name(text: &str) -> Option<[u8; 44]>
    ensures named { IfSome result (Names text.now) }
    ensures exact { is_some result ≡ is_name 44 text.now }
{
    let mut name = [BLANK; DATA_SET_NAME];
    put_name(&mut name, text.as_bytes()).then_some(name)
}

/// The name of a member, likewise, of at most 8 characters.
pub fn member_name(text: &str) -> Option<[u8; 8]>
    ensures named { IfSome result (Names text.now) }
    ensures exact { is_some result ≡ is_name 8 text.now }
{
    let mut name = [BLANK; MEMBER_NAME];
    put_name(&mut name, text.as_bytes()).then_some(name)
}

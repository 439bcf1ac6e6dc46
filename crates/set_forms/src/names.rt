//! Names, as those of files spell them.

ghost use Rattle.std.specs.Prelude.{◌≡◌, ◌≤◌, Some, None, if◌then◌else◌, length, replicate, option_map, IfSome};
ghost use Rattle.set_forms.specs.Names.{plain_byte, byte_before, left_behind, name_bytes, name_of};

use crate::numbers::byte_of;
use arrayvec::ArrayVec;

/// The length of a data set's name, in bytes, with the blanks behind it.
const DATA_SET_NAME: usize = 44;

/// The length of a member's name, in bytes, with the blanks behind it.
const MEMBER_NAME: usize = 8;

/// The most characters that spell a name: three for each byte.
const SPELLED_NAME: usize = 132;

/// A blank in EBCDIC.
const BLANK: u8 = 0x40;

// The byte of EBCDIC of a character that stands for itself.
fn plain_byte(character: u8) -> Option<u8>
    ensures { result ≡ plain_byte character }
{
    match character {
        b'A'..=b'I' => Some(character + 0x80),
        b'J'..=b'R' => Some(character + 0x87),
        b'S'..=b'Z' => Some(character + 0x8F),
        b'0'..=b'9' => Some(character + 0xC0),
        b'.' => Some(0x4B),
        b'-' => Some(0x60),
        b'_' => Some(0x6D),
        b'@' => Some(0x7C),
        b'#' => Some(0x7B),
        b'$' => Some(0x5B),
        _ => None,
    }
}

// The byte that a character spells, with the digits behind a percent sign, and what stands behind these.
fn byte_before(character: u8, behind: &[u8]) -> Option<(u8, &[u8])>
    ensures spelled { option_map (λ p. p.0) result ≡ byte_before character behind.now }
    ensures left { IfSome result (λ p. p.1.now ≡ left_behind character behind.now) }
{
    if character != b'%' {
        return Some((plain_byte(character)?, behind));
    }
    let [high, low, behind @ ..] = behind else {
        return None;
    };
    Some((byte_of(*high, *low)?, behind))
}

// The bytes that the characters of a name spell.
fn name_bytes(word: &[u8]) -> Option<ArrayVec<u8, SPELLED_NAME>>
    requires { length word.now ≤ 132 }
    ensures { option_map (λ v. v.items) result ≡ name_bytes word.now }
{
    let mut bytes = ArrayVec::new();
    let mut rest = word;
    while let [character, behind @ ..] = rest {
        let (byte, behind) = byte_before(*character, behind)?;
        bytes.push(byte);
        rest = behind;
    }
    Some(bytes)
}

// Puts the name that a word spells into one of blanks, if it spells one that is no longer.
#[tactic(auto, unfolding(crate::specs::Names::name_of))]
fn put_name(name: &mut [u8], word: &[u8]) -> bool
    requires { name.old ≡ replicate (length name.old) 64 }
    ensures { (if result then Some name.new else None) ≡ name_of (length name.old) word.now }
{
    if word.len() > SPELLED_NAME {
        return false;
    }
    let Some(bytes) = name_bytes(word) else {
        return false;
    };
    let len = bytes.len();
    if len == 0 || len > name.len() {
        return false;
    }
    name[..len].copy_from_slice(bytes.as_slice());
    true
}

/// The name of a data set, in EBCDIC and with blanks behind it, that a word spells.
pub(crate) fn data_set_name(word: &[u8]) -> Option<[u8; 44]>
    ensures { result ≡ name_of 44 word.now }
{
    let mut name = [BLANK; DATA_SET_NAME];
    put_name(&mut name, word).then_some(name)
}

/// The name of a member, likewise.
pub(crate) fn member_name(word: &[u8]) -> Option<[u8; 8]>
    ensures { result ≡ name_of 8 word.now }
{
    let mut name = [BLANK; MEMBER_NAME];
    put_name(&mut name, word).then_some(name)
}

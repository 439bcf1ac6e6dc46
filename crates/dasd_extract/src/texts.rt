//! Bytes of EBCDIC are written as text.

ghost use Rattle.std.specs.Prelude.{◌≡◌, ◌+◌, ◌*◌, ◌≤◌, [], ◌∷◌, ◌++◌, true, length, map, take, encode_utf8, OnOk};
ghost use Rattle.std.specs.List.{list_all};
ghost use Rattle.std.specs.Io.KnownBytes.{Appends};
ghost use Rattle.arrayvec.specs.ArrayVec.{array_vec_len};
ghost use Rattle.volume_labels.specs.Ebcdic.{character_of};
ghost use Rattle.dasd_extract.specs.Blocks.{is_control, is_printing, text_character, text_of};

use arrayvec::ArrayVec;
use std::io;
use std::io::Write;
use volume_labels::character;

/// How many characters are made before they are written.
const CHUNK: usize = 128;

/// The bytes that they have room for: each is at most three in UTF-8.
const ROOM: usize = 384;

/// Writes bytes of EBCDIC as text.
pub(crate) fn write_text<W: Write>(writer: &mut W, bytes: &[u8]) -> io::Result<()>
    ensures { OnOk result (Appends (W.contents writer.old) (W.contents writer.new) (text_of bytes.now)) }
{
    let mut rest = bytes;
    while !rest.is_empty() {
        let (chunk, behind) = rest.split_at(rest.len().min(CHUNK));
        write_chunk(writer, chunk)?;
        rest = behind;
    }
    Ok(())
}

/// Writes bytes of EBCDIC as text, and a line feed behind it.
pub(crate) fn write_text_line<W: Write>(writer: &mut W, bytes: &[u8]) -> io::Result<()>
    ensures { OnOk result (Appends (W.contents writer.old) (W.contents writer.new) (text_of bytes.now ++ 10 ∷ [])) }
{
    if bytes.len() < CHUNK {
        let mut line = [b' '; CHUNK];
        if translate(&mut line, bytes) {
            line[bytes.len()] = b'\n';
            return writer.write_all(&line[..=bytes.len()]);
        }
    }
    write_text(writer, bytes)?;
    writer.write_all(b"\n")
}

// Writes a few bytes as text. Most texts are printing characters of ASCII alone, which are bytes of UTF-8 as they are.
fn write_chunk<W: Write>(writer: &mut W, bytes: &[u8]) -> io::Result<()>
    requires { length bytes.now ≤ 128 }
    ensures { OnOk result (Appends (W.contents writer.old) (W.contents writer.new) (text_of bytes.now)) }
{
    let mut characters = [b' '; CHUNK];
    if translate(&mut characters, bytes) {
        writer.write_all(&characters[..bytes.len()])
    } else {
        write_each(writer, bytes)
    }
}

// Puts the character of each byte into the room, from its front on; whether all there are printing ones of ASCII, and so are the text.
fn translate(characters: &mut [u8; CHUNK], bytes: &[u8]) -> bool
    requires { length bytes.now ≤ 128 }
    ensures { result ≡ true → take (length bytes.now) characters.new ≡ text_of bytes.now }
{
    look_up(characters, bytes);
    are_printing(characters)
}

// Puts the character of each byte into the room, from its front on.
fn look_up(characters: &mut [u8; CHUNK], bytes: &[u8])
    requires { length bytes.now ≤ 128 }
    ensures { take (length bytes.now) characters.new ≡ map character_of bytes.now }
{
    for i in 0..bytes.len() {
        characters[i] = character(bytes[i]);
    }
}

// Whether all are printing ones of ASCII. It looks at each, so that it takes no branch for one.
fn are_printing(characters: &[u8; CHUNK]) -> bool
    ensures { result ≡ list_all is_printing characters.now }
{
    let mut printing = true;
    for i in 0..CHUNK {
        printing &= is_printing(characters[i]);
    }
    printing
}

// Whether a character is a printing one of ASCII.
fn is_printing(character: u8) -> bool
    ensures { result ≡ is_printing character }
{
    character >= 32 && character < 127
}

// Writes a few bytes as text, a character after another.
fn write_each<W: Write>(writer: &mut W, bytes: &[u8]) -> io::Result<()>
    requires { length bytes.now ≤ 128 }
    ensures { OnOk result (Appends (W.contents writer.old) (W.contents writer.new) (text_of bytes.now)) }
{
    let mut text: ArrayVec<u8, ROOM> = ArrayVec::new();
    for byte in bytes {
        put_character(&mut text, *byte);
    }
    writer.write_all(text.as_slice())
}

// A byte as a character of text.
fn put_character(text: &mut ArrayVec<u8, ROOM>, byte: u8)
    requires { array_vec_len text.old + 3 ≤ 384 }
    ensures text { text.new.items ≡ text.old.items ++ encode_utf8 (text_character byte) }
    ensures size { array_vec_len text.new ≤ array_vec_len text.old + 3 }
{
    let character = character(byte);
    if is_control(character) {
        put_replacement(text);
    } else {
        put_latin(text, character);
    }
}

// Whether a character controls a terminal or a file.
fn is_control(character: u8) -> bool
    ensures { result ≡ is_control character }
{
    character < 32 || (character >= 127 && character < 160)
}

// What stands for a character that is no text.
fn put_replacement(text: &mut ArrayVec<u8, ROOM>)
    requires { array_vec_len text.old + 3 ≤ 384 }
    ensures text { text.new.items ≡ text.old.items ++ encode_utf8 0xFFFD }
    ensures size { array_vec_len text.new ≤ array_vec_len text.old + 3 }
{
    text.push(0xEF);
    text.push(0xBF);
    text.push(0xBD);
}

// A character of the first 256.
fn put_latin(text: &mut ArrayVec<u8, ROOM>, character: u8)
    requires { array_vec_len text.old + 3 ≤ 384 }
    ensures text { text.new.items ≡ text.old.items ++ encode_utf8 character }
    ensures size { array_vec_len text.new ≤ array_vec_len text.old + 3 }
{
    if character < 128 {
        text.push(character);
        return;
    }
    text.push(0xC0 + character / 64);
    text.push(0x80 + character % 64);
}

//! Lines of bytes, in hexadecimal and in EBCDIC.

ghost use Rattle.std.specs.Prelude.{◌≡◌, ◌+◌, ◌*◌, ◌<◌, ◌≤◌, [], ◌∷◌, ◌++◌, true, length, codes, OnOk};
ghost use Rattle.std.specs.List.{concat};
ghost use Rattle.std.specs.Fmt.{digit_glyph};
ghost use Rattle.std.specs.Io.KnownBytes.{Appends};
ghost use Rattle.arrayvec.specs.ArrayVec.{array_vec_len};
ghost use Rattle.dasd_volumes.specs.Lines.{hexadecimal};
ghost use Rattle.dasd_archive.specs.Dump.{spaced_text, blanks_text, shown_text, row_line, rows_text};

use arrayvec::ArrayVec;
use std::io;
use std::io::Write;
use volume_labels::shown_character;

/// The bytes of one line.
const ROW: usize = 16;

/// The characters of a line of sixteen bytes.
const LINE: usize = 80;

/// Writes bytes, sixteen to a line.
pub(crate) fn write_rows<W: Write>(writer: &mut W, letter: u8, bytes: &[u8]) -> io::Result<()>
    requires { length bytes.now < 65536 }
    ensures { OnOk result (Appends (W.contents writer.old) (W.contents writer.new) (rows_text (letter ∷ []) bytes.now)) }
{
    for i in 0..(bytes.len() + 15) / ROW {
        write_row(writer, letter, bytes, i)?;
    }
    Ok(())
}

// Writes a line of at most sixteen bytes.
fn write_row<W: Write>(writer: &mut W, letter: u8, bytes: &[u8], i: usize) -> io::Result<()>
    requires inside { 16 * i < length bytes.now }
    requires short { length bytes.now < 65536 }
    ensures { OnOk result (Appends (W.contents writer.old) (W.contents writer.new) (row_line (letter ∷ []) bytes.now i)) }
{
    let from = ROW * i;
    let to = (from + ROW).min(bytes.len());
    let row = &bytes[from..to];
    let mut line: ArrayVec<u8, LINE> = ArrayVec::new();
    put_front(&mut line, letter, from as u32);
    put_spaced(&mut line, row);
    put_blanks(&mut line, ROW - row.len());
    put(&mut line, b" ");
    put_characters(&mut line, row);
    put(&mut line, b"\n");
    writer.write_all(line.as_slice())
}

// How a line begins: a letter, and the offset of its first byte in six digits.
fn put_front(line: &mut ArrayVec<u8, LINE>, letter: u8, offset: u32)
    requires room { array_vec_len line.old + 14 ≤ 80 }
    requires short { offset < 65536 }
    ensures text { line.new.items ≡ line.old.items
        ++ concat (codes "    " ∷ (letter ∷ []) ∷ codes " " ∷ hexadecimal 6 offset ∷ codes "  " ∷ []) }
    ensures size { array_vec_len line.new ≡ array_vec_len line.old + 14 }
{
    put(line, b"    ");
    line.push(letter);
    put(line, b" 00");
    put_byte(line, (offset / 256) as u8);
    put_byte(line, (offset % 256) as u8);
    put(line, b"  ");
}

// These bytes.
fn put(line: &mut ArrayVec<u8, LINE>, bytes: &[u8])
    requires { array_vec_len line.old + length bytes.now ≤ 80 }
    ensures text { line.new.items ≡ line.old.items ++ bytes.now }
    ensures size { array_vec_len line.new ≡ array_vec_len line.old + length bytes.now }
{
    for byte in bytes {
        line.push(*byte);
    }
}

// A byte in its two digits.
fn put_byte(line: &mut ArrayVec<u8, LINE>, byte: u8)
    requires { array_vec_len line.old + 2 ≤ 80 }
    ensures text { line.new.items ≡ line.old.items ++ hexadecimal 2 byte }
    ensures size { array_vec_len line.new ≡ array_vec_len line.old + 2 }
{
    line.push(digit(byte / 16));
    line.push(digit(byte % 16));
}

// A digit, 0 to 9 or A to F.
fn digit(number: u8) -> u8
    requires { number < 16 }
    ensures { result ≡ digit_glyph true number }
{
    match number {
        0..=9 => b'0' + number,
        _ => b'A' - 10 + number,
    }
}

// Bytes in their digits, each with a blank behind it.
fn put_spaced(line: &mut ArrayVec<u8, LINE>, row: &[u8])
    requires { array_vec_len line.old + 3 * length row.now ≤ 80 }
    ensures text { line.new.items ≡ line.old.items ++ spaced_text row.now }
    ensures size { array_vec_len line.new ≡ array_vec_len line.old + 3 * length row.now }
{
    for byte in row {
        put_byte(line, *byte);
        line.push(b' ');
    }
}

// The place of so many bytes that are not there.
fn put_blanks(line: &mut ArrayVec<u8, LINE>, absent: usize)
    requires { array_vec_len line.old + 3 * absent ≤ 80 }
    ensures text { line.new.items ≡ line.old.items ++ blanks_text absent }
    ensures size { array_vec_len line.new ≡ array_vec_len line.old + 3 * absent }
{
    for i in 0..absent {
        put(line, b"   ");
    }
}

// Bytes as characters of EBCDIC.
fn put_characters(line: &mut ArrayVec<u8, LINE>, row: &[u8])
    requires { array_vec_len line.old + length row.now ≤ 80 }
    ensures text { line.new.items ≡ line.old.items ++ shown_text row.now }
    ensures size { array_vec_len line.new ≡ array_vec_len line.old + length row.now }
{
    for byte in row {
        line.push(shown_character(*byte));
    }
}

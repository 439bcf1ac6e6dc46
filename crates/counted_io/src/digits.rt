//! Numbers in digits, at the end of a line.

ghost use Rattle.std.specs.Prelude.{◌≡◌, ◌+◌, ◌*◌, ◌≤◌, ◌<◌, ◌^◌, ◌++◌, true, length};
ghost use Rattle.std.specs.Fmt.{decimal, digit_glyph};
ghost use Rattle.counted_io.specs.Text.{hexadecimal, bytes_text};

use arrayvec::ArrayString;
use itoa::Buffer;

/// The number in decimal digits goes to the end of the line, which has room for the ten that a `u32` may have.
pub fn put_decimal<const N: usize>(line: &mut ArrayString<N>, number: u32)
    requires { length line.old.bytes + 10 ≤ N }
    ensures text { line.new.bytes ≡ line.old.bytes ++ decimal number }
    ensures size { length line.new.bytes ≤ length line.old.bytes + 10 }
{
    line.push_str(Buffer::new().format(number));
}

/// The number in hexadecimal digits, capitals, goes to the end of the line, with zeros in front of it up to a width of at most
/// eight. The line has room for the eight digits that a `u32` may have.
pub fn put_hexadecimal<const N: usize>(line: &mut ArrayString<N>, width: usize, number: u32)
    requires width { width ≤ 8 }
    requires room { length line.old.bytes + 8 ≤ N }
    ensures text { line.new.bytes ≡ line.old.bytes ++ hexadecimal width number }
    ensures size { length line.new.bytes ≤ length line.old.bytes + 8 }
{
    let mut digits = ArrayString::new();
    put_digits(&mut digits, width, number, 8);
    line.push_str(digits.as_str());
}

/// These bytes go to the end of the line, each in two hexadecimal digits, capitals. The line has room for them.
pub fn put_bytes<const N: usize>(line: &mut ArrayString<N>, bytes: &[u8])
    requires { length line.old.bytes + 2 * length bytes.now ≤ N }
    ensures text { line.new.bytes ≡ line.old.bytes ++ bytes_text bytes.now }
    ensures size { length line.new.bytes ≤ length line.old.bytes + 2 * length bytes.now }
{
    for byte in bytes {
        put_byte(line, *byte);
    }
}

// A byte in its two digits.
fn put_byte<const N: usize>(line: &mut ArrayString<N>, byte: u8)
    requires { length line.old.bytes + 2 ≤ N }
    ensures text { line.new.bytes ≡ line.old.bytes ++ hexadecimal 2 byte }
    ensures size { length line.new.bytes ≤ length line.old.bytes + 2 }
{
    line.push(glyph(u32::from(byte / 16)));
    line.push(glyph(u32::from(byte % 16)));
}

// The digits of a number that has at most `most`, and zeros in front of them up to the width.
fn put_digits(digits: &mut ArrayString<8>, width: usize, number: u32, most: usize)
    requires width { width ≤ most }
    requires some { 0 < most }
    requires number { number < 16 ^ most }
    requires room { length digits.old.bytes + most ≤ 8 }
    ensures text { digits.new.bytes ≡ digits.old.bytes ++ hexadecimal width number }
    ensures size { length digits.new.bytes ≤ length digits.old.bytes + most }
{
    if number < 16 && width < 2 {
        digits.push(glyph(number % 16));
        return;
    }
    put_digits(digits, width.saturating_sub(1), number / 16, most - 1);
    digits.push(glyph(number % 16));
}

// A digit, 0 to 9 or A to F.
fn glyph(digit: u32) -> char
    requires { digit < 16 }
    ensures glyph { result ≡ digit_glyph true digit }
    ensures ascii { result < 128 }
{
    match digit {
        0..=9 => char::from(b'0' + digit as u8),
        _ => char::from(b'A' - 10 + digit as u8),
    }
}

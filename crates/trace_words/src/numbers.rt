//! Addresses, keys and bytes in hexadecimal digits.

ghost use Rattle.std.specs.Prelude.{◌≤◌, Some};
ghost use Rattle.std.specs.Fmt.{WritesOnOk};
ghost use Rattle.counted_io.specs.Text.{hexadecimal, bytes_text};
ghost use Rattle.trace_words.specs.Numbers.{storage_address, device_address, key_digit};

use arrayvec::ArrayString;
use counted_io::put_hexadecimal;
use std::fmt;

/// An address in storage, in six digits.
#[derive(Clone, Copy)]
pub(crate) struct StorageAddress(pub(crate) u32);

impl fmt::Display for StorageAddress {
    ghost output = { λ a. Some (hexadecimal 6 a.0) };

    fn fmt<W: fmt::Write>(&self, f: &mut fmt::Formatter<W>) -> fmt::Result {
        write_hexadecimal(f, 6, self.0)
    }
}

/// An input/output address, in three digits.
#[derive(Clone, Copy)]
pub(crate) struct DeviceAddress(pub(crate) u16);

impl fmt::Display for DeviceAddress {
    ghost output = { λ a. Some (hexadecimal 3 a.0) };

    fn fmt<W: fmt::Write>(&self, f: &mut fmt::Formatter<W>) -> fmt::Result {
        write_hexadecimal(f, 3, u32::from(self.0))
    }
}

/// A protection key, in its digit.
#[derive(Clone, Copy)]
pub(crate) struct KeyDigit(pub(crate) u8);

impl fmt::Display for KeyDigit {
    ghost output = { λ k. Some (hexadecimal 1 k.0) };

    fn fmt<W: fmt::Write>(&self, f: &mut fmt::Formatter<W>) -> fmt::Result {
        write_hexadecimal(f, 1, u32::from(self.0))
    }
}

/// Bytes, each in two digits.
#[derive(Clone, Copy)]
pub(crate) struct Bytes<'a>(pub(crate) &'a [u8]);

impl fmt::Display for Bytes<'_> {
    ghost output = { λ b. Some (bytes_text b.0.now) };

    fn fmt<W: fmt::Write>(&self, f: &mut fmt::Formatter<W>) -> fmt::Result {
        for byte in self.0 {
            write_hexadecimal(f, 2, u32::from(*byte))?;
        }
        Ok(())
    }
}

// Writes a number, with zeros in front of it up to a width.
fn write_hexadecimal<W: fmt::Write>(
    f: &mut fmt::Formatter<W>,
    width: usize,
    number: u32,
) -> fmt::Result
    requires { width ≤ 8 }
    ensures { WritesOnOk W.write_str_gives f.old result (hexadecimal width number) f.new }
{
    let mut digits: ArrayString<8> = ArrayString::new();
    put_hexadecimal(&mut digits, width, number);
    f.write_str(digits.as_str())
}

//! Numbers and bytes as the lines print them.

ghost use Rattle.std.specs.Prelude.{◌≡◌, ◌≤◌, Some, length};
ghost use Rattle.std.specs.Fmt.{WritesOnOk};
ghost use Rattle.dasd_volumes.specs.Lines.{bytes_text, address_text, fault_text};

use arrayvec::ArrayString;
use ckd_track::SlotFault;
use counted_io::put_bytes;
use std::fmt;

/// So many bytes are spelled at once.
const PIECE: usize = 32;

/// Bytes in hexadecimal digits, in capitals.
#[derive(Clone, Copy)]
pub struct Hexadecimal<'a>(pub &'a [u8]);

impl fmt::Display for Hexadecimal<'_> {
    ghost output = { λ h. Some (bytes_text h.0.now) };

    fn fmt<W: fmt::Write>(&self, f: &mut fmt::Formatter<W>) -> fmt::Result {
        let bytes = self.0;
        for i in 0..bytes.len().div_ceil(PIECE) {
            let from = PIECE * i;
            let to = from + PIECE.min(bytes.len() - from);
            write_digits(f, &bytes[from..to])?;
        }
        Ok(())
    }
}

// Writes the digits of a piece at once: a write for each byte takes several times as long.
fn write_digits<W: fmt::Write>(f: &mut fmt::Formatter<W>, piece: &[u8]) -> fmt::Result
    requires { length piece.now ≤ 32 }
    ensures { WritesOnOk W.write_str_gives f.old result (bytes_text piece.now) f.new }
{
    let mut digits: ArrayString<64> = ArrayString::new();
    put_bytes(&mut digits, piece);
    f.write_str(digits.as_str())
}

/// Cylinder and head of a track, four hexadecimal digits each.
#[derive(Clone, Copy)]
pub struct PrintedAddress {
    /// The cylinder.
    pub cylinder: u16,
    /// The head.
    pub head: u16,
}

impl fmt::Display for PrintedAddress {
    ghost output = { λ a. Some (address_text a.cylinder a.head) };

    fn fmt<W: fmt::Write>(&self, f: &mut fmt::Formatter<W>) -> fmt::Result {
        let cylinder = self.cylinder;
        let head = self.head;
        write!(f, "{cylinder:04X} {head:04X}")
    }
}

/// Why a slot spells no track.
#[derive(Clone, Copy)]
pub struct Reason(pub SlotFault);

impl fmt::Display for Reason {
    ghost output = { λ r. Some (fault_text r.0) };

    fn fmt<W: fmt::Write>(&self, f: &mut fmt::Formatter<W>) -> fmt::Result {
        match self.0 {
            SlotFault::NoEnd(0) => f.write_str("not in the file"),
            SlotFault::NoEnd(offset) => write!(f, "no end at {offset}"),
            SlotFault::RecordPastEnd(offset) => write!(f, "record past end at {offset}"),
        }
    }
}

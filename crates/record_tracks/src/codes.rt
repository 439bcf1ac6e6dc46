//! Characters in EBCDIC.

ghost use Rattle.std.specs.Prelude.{◌≡◌};
ghost use Rattle.dasd_extract.specs.Blocks.{is_control};
ghost use Rattle.record_tracks.specs.Codes.{IsTable, code_of};

use volume_labels::character;

/// For each character below 256 the byte of EBCDIC (code page 037) that is it.
pub(crate) fn table() -> [Option<u8>; 256]
    ensures { IsTable result }
{
    let mut table = [None; 256];
    for number in 0..256u16 {
        let byte = number as u8;
        let place = usize::from(character(byte));
        if table[place].is_none() {
            table[place] = Some(byte);
        }
    }
    table
}

/// The byte of EBCDIC that is a character, by that table; none has one that code page 037 lacks, or that controls a terminal or a file.
pub(crate) fn code(table: &[Option<u8>; 256], character: char) -> Option<u8>
    requires { IsTable table.now }
    ensures { result ≡ code_of character }
{
    let number = u32::from(character);
    if number >= 256 {
        return None;
    }
    if is_control(number) {
        return None;
    }
    table[number as usize]
}

// Whether a character controls a terminal or a file.
fn is_control(number: u32) -> bool
    ensures { result ≡ is_control number }
{
    number < 32 || (number >= 127 && number < 160)
}

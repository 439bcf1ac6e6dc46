//! Lines of text.

ghost use Rattle.std.specs.Prelude.{◌≡◌};
ghost use Rattle.std.specs.List.{list_all};
ghost use Rattle.volume_labels.specs.Lines.{is_blank, without_blanks};

/// A blank in EBCDIC.
const BLANK: u8 = 0x40;

/// How many bytes are looked at at once.
const ROW: usize = 8;

/// Bytes without the blanks of EBCDIC at their end.
pub fn without_blanks(bytes: &[u8]) -> &[u8]
    ensures { result.now ≡ without_blanks bytes.now }
{
    let mut kept = bytes.len();
    while kept >= ROW && are_blank(&bytes[kept - ROW..kept]) {
        kept -= ROW;
    }
    while kept > 0 && bytes[kept - 1] == BLANK {
        kept -= 1;
    }
    &bytes[..kept]
}

// Whether all bytes are blanks. It looks at each, so that it takes no branch for one.
fn are_blank(bytes: &[u8]) -> bool
    ensures { result ≡ list_all is_blank bytes.now }
{
    let mut blank = true;
    for byte in bytes {
        blank &= *byte == BLANK;
    }
    blank
}

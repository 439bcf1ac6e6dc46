//! The volume and the extents of a data set, at the end of its line.

ghost use Rattle.std.specs.Prelude.{◌≡◌, bytes_eq, map, OnOk};
ghost use Rattle.std.specs.Io.KnownBytes.{Appends};
ghost use Rattle.set_forms.specs.Forms.{closed, details_words};
ghost use Rattle.set_forms.specs.Parsing.{details_of, details_read};

use crate::fault::FormLineFault;
use crate::forms::SetDetails;
use crate::numbers::number;
use crate::words::{bits_word, byte_in};
use std::io;
use std::io::Write;

/// Writes the volume and the extents of a data set, if they are to be told, and ends the line.
pub(crate) fn write_details<W: Write>(writer: &mut W, details: Option<SetDetails>) -> io::Result<()>
    ensures { OnOk result (Appends (W.contents writer.old) (W.contents writer.new) (closed (details_words details))) }
{
    let Some(SetDetails { volume, extents }) = details else {
        return writeln!(writer);
    };
    let extents = bits_word(&[extents]);
    let extents = extents.as_str();
    writeln!(writer, " volume {volume} extents {extents}")
}

// What the values of these words say.
fn details_of(volume: &[u8], extents: &[u8]) -> Option<SetDetails>
    ensures { result ≡ details_of volume.now extents.now }
{
    let volume = number(volume, 65535)? as u16;
    let extents = byte_in(extents)?;
    Some(SetDetails { volume, extents })
}

/// What the words at the end of a data set's line say, if there are some.
pub(crate) fn read_details(words: &[&[u8]]) -> Result<Option<SetDetails>, FormLineFault>
    ensures { result ≡ details_read (map (λ w. w.now) words.now) }
{
    match words {
        [] => Ok(None),
        [key, volume, other, extents] if key == &&b"volume"[..] && other == &&b"extents"[..] => {
            match details_of(volume, extents) {
                Some(details) => Ok(Some(details)),
                None => Err(FormLineFault::Details),
            }
        }
        _ => Err(FormLineFault::Details),
    }
}

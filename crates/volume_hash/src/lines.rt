//! The line of a hash.

ghost use Rattle.std.specs.Prelude.{◌≡◌, Some, IfOk, OnOk, codes};
ghost use Rattle.std.specs.Fmt.{WritesOnOk};
ghost use Rattle.std.specs.Io.KnownBytes.{Appends};
ghost use Rattle.hex.specs.Hex.{encode_lower};
ghost use Rattle.volume_hash.specs.Lines.{escaped, path_text, unreadable_kind, volume_kind, volume_line, volume_object, line_or_object};

use crate::volumes::VolumeHash;
use counted_io::Quantity;
use std::alloc::{AllocError, Global};
use std::io::Write;
use std::{fmt, io};

/// How the hash of a volume is printed.
#[derive(Clone, Copy)]
pub struct HashForm<'a> {
    /// The path of the volume: as it was typed; of an object as a string of JSON, with its quotes.
    pub path: &'a str,
    /// Whether the line is an object of JSON.
    pub json: bool,
}

/// The line of a volume's hash, or its object.
///
/// # Errors
///
/// There is no memory for it.
pub fn line_of(alloc: Global, form: HashForm, hash: VolumeHash) -> Result<Vec<u8>, AllocError>
    ensures { IfOk result (λ line. line.items ≡ line_or_object form.entry.path.now form.entry.json (encode_lower hash.digest) hash.unreadable) }
{
    let digits = hex::encode(alloc, hash.digest)?;
    let mut line = Vec::new(alloc);
    match write_hash(&mut line, form, digits.as_str(), hash.unreadable) {
        Ok(()) => Ok(line),
        Err(_) => Err(AllocError),
    }
}

// The line or the object of a hash.
fn write_hash<W: Write>(
    writer: &mut W,
    form: HashForm,
    digits: &str,
    unreadable: u32,
) -> io::Result<()>
    ensures { OnOk result (Appends (W.contents writer.old) (W.contents writer.new) (line_or_object form.entry.path.now form.entry.json digits.now unreadable)) }
{
    if form.json {
        return write_object(writer, form.path, digits, unreadable);
    }
    write_line(writer, form.path, digits, unreadable)
}

// The object of a hash.
fn write_object<W: Write>(
    writer: &mut W,
    path: &str,
    digits: &str,
    unreadable: u32,
) -> io::Result<()>
    ensures { OnOk result (Appends (W.contents writer.old) (W.contents writer.new) (volume_object path.now digits.now unreadable)) }
{
    writeln!(
        writer,
        "{{\"path\":{path},\"hash\":\"{digits}\",\"unreadable\":{unreadable}}}"
    )
}

// The line of a hash.
fn write_line<W: Write>(writer: &mut W, path: &str, digits: &str, unreadable: u32) -> io::Result<()>
    ensures { OnOk result (Appends (W.contents writer.old) (W.contents writer.new) (volume_line path.now digits.now unreadable)) }
{
    let kind = Kind { unreadable };
    write!(writer, "{digits}  {kind} ")?;
    write_path(writer, path.as_bytes())?;
    writer.write_all(b"\n")
}

// What was hashed: a volume, and how many of its tracks can't be read.
#[derive(Clone, Copy)]
struct Kind {
    unreadable: u32,
}

impl fmt::Display for Kind {
    ghost output = { λ k. Some (volume_kind k.unreadable) };

    fn fmt<W: fmt::Write>(&self, f: &mut fmt::Formatter<W>) -> fmt::Result {
        match self.unreadable {
            0 => f.write_str("volume"),
            unreadable => write_unreadable(f, unreadable),
        }
    }
}

// A volume with so many tracks that can't be read.
fn write_unreadable<W: fmt::Write>(f: &mut fmt::Formatter<W>, unreadable: u32) -> fmt::Result
    ensures { WritesOnOk W.write_str_gives f.old result (unreadable_kind unreadable) f.new }
{
    let tracks = Quantity::new(unreadable as u64, "unreadable track", "unreadable tracks");
    write!(f, "volume with {tracks}")
}

/// Writes a path, in which no byte ends the line.
pub fn write_path<W: Write>(writer: &mut W, path: &[u8]) -> io::Result<()>
    ensures { OnOk result (Appends (W.contents writer.old) (W.contents writer.new) (path_text path.now)) }
{
    for byte in path {
        write_escaped(writer, *byte)?;
    }
    Ok(())
}

// A byte of a path.
fn write_escaped<W: Write>(writer: &mut W, byte: u8) -> io::Result<()>
    ensures { OnOk result (Appends (W.contents writer.old) (W.contents writer.new) (escaped byte)) }
{
    match byte {
        b'\n' => writer.write_all(b"\\n"),
        b'\r' => writer.write_all(b"\\r"),
        b'\\' => writer.write_all(b"\\\\"),
        _ => writer.write_all(&[byte]),
    }
}

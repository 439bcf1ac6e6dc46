//! Bytes are written whole.

ghost use Rattle.std.specs.Prelude.{[], OnOk};
ghost use Rattle.counted_io.specs.Streams.{seen_by, WritesWhole, IsFlushed};

use crate::counted::Counted;
use std::io::Write;
use thiserror::Error;

/// A write failed, or took no byte; or a flush failed.
#[derive(Clone, Copy, Debug, Error)]
#[error("write fault")]
pub struct WriteFault;

/// Writes all these bytes. It goes on where a write takes some of them.
///
/// # Errors
///
/// A write failed, or took no byte: it is the last, and the first bytes may be written.
pub fn write_whole<W: Write>(writer: &mut Counted<W>, bytes: &[u8]) -> Result<(), WriteFault>
    ensures { WritesWhole result (seen_by W.contents writer.old) (seen_by W.contents writer.new) bytes.now }
{
    let mut rest = bytes;
    while !rest.is_empty() {
        let Ok(count) = writer.write(rest) else {
            return Err(WriteFault);
        };
        if count == 0 {
            return Err(WriteFault);
        }
        rest = &rest[count..];
    }
    Ok(())
}

/// Flushes what was written; no byte more is.
///
/// # Errors
///
/// The flush failed.
pub fn flush_all<W: Write>(writer: &mut Counted<W>) -> Result<(), WriteFault>
    ensures written { WritesWhole result (seen_by W.contents writer.old) (seen_by W.contents writer.new) [] }
    ensures flushed { OnOk result (IsFlushed (seen_by W.contents writer.new)) }
{
    match writer.flush() {
        Ok(()) => Ok(()),
        Err(_) => Err(WriteFault),
    }
}

/// Writes all these bytes, and flushes them.
///
/// # Errors
///
/// A write failed, or took no byte, or the flush failed: it is the last call, and the first bytes may be written.
pub fn write_flushed<W: Write>(writer: &mut Counted<W>, bytes: &[u8]) -> Result<(), WriteFault>
    ensures written { WritesWhole result (seen_by W.contents writer.old) (seen_by W.contents writer.new) bytes.now }
    ensures flushed { OnOk result (IsFlushed (seen_by W.contents writer.new)) }
{
    match write_whole(writer, bytes) {
        Ok(()) => flush_all(writer),
        Err(fault) => Err(fault),
    }
}

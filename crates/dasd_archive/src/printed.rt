//! Lines that were made in memory are printed.

ghost use Rattle.std.specs.Prelude.{◌≡◌, IfErr, OnOk};
ghost use Rattle.counted_io.specs.Streams.{seen_by, IsFlushed};
ghost use Rattle.dasd_volumes.specs.Printing.{PrintsBytes, CountsWrites};

use counted_io::{Counted, WriteFault, write_flushed, write_whole};
use dasd_volumes::VolumeFault;
use std::io::Write;

/// Prints these lines as a whole.
///
/// # Errors
///
/// A write failed: the first bytes may be printed.
pub(crate) fn print_lines<W: Write>(
    writer: &mut Counted<W>,
    lines: &[u8],
) -> Result<(), VolumeFault>
    ensures lines { PrintsBytes result lines.now (seen_by W.contents writer.old) (seen_by W.contents writer.new) }
    ensures writes { CountsWrites result (seen_by W.contents writer.old) (seen_by W.contents writer.new) }
    ensures fault { IfErr result (λ e. e ≡ VolumeFault.Write) }
{
    match write_whole(writer, lines) {
        Ok(()) => Ok(()),
        Err(WriteFault) => Err(VolumeFault::Write),
    }
}

/// Prints these lines as a whole, and leaves nothing held back.
///
/// # Errors
///
/// A write failed, or the flush: the first bytes may be printed.
pub(crate) fn print_flushed<W: Write>(
    writer: &mut Counted<W>,
    lines: &[u8],
) -> Result<(), VolumeFault>
    ensures lines { PrintsBytes result lines.now (seen_by W.contents writer.old) (seen_by W.contents writer.new) }
    ensures writes { CountsWrites result (seen_by W.contents writer.old) (seen_by W.contents writer.new) }
    ensures fault { IfErr result (λ e. e ≡ VolumeFault.Write) }
    ensures flushed { OnOk result (IsFlushed (seen_by W.contents writer.new)) }
{
    match write_flushed(writer, lines) {
        Ok(()) => Ok(()),
        Err(WriteFault) => Err(VolumeFault::Write),
    }
}

//! Lines that were made in memory are written.

ghost use Rattle.std.specs.Prelude.{◌≡◌, OnOk, IfErr};
ghost use Rattle.counted_io.specs.Streams.{seen_by, Takes, TakesFront, IsFlushed};
ghost use Rattle.dasd_volumes.specs.Printing.{CountsWrites};

use counted_io::{Counted, WriteFault, write_flushed};
use dasd_volumes::VolumeFault;
use library_contents::Report;
use std::io::Write;

/// Writes the lines of a report, and flushes them.
pub(crate) fn print_report<W: Write>(
    writer: &mut Counted<W>,
    report: &Report,
) -> Result<(), VolumeFault>
    ensures text { OnOk result (Takes (seen_by W.contents writer.old) (seen_by W.contents writer.new) report.now.text.items) }
    ensures front { IfErr result (λ _. TakesFront (seen_by W.contents writer.old) (seen_by W.contents writer.new) report.now.text.items) }
    ensures fault { IfErr result (λ e. e ≡ VolumeFault.Write) }
    ensures writes { CountsWrites result (seen_by W.contents writer.old) (seen_by W.contents writer.new) }
    ensures flushed { OnOk result (IsFlushed (seen_by W.contents writer.new)) }
{
    match write_flushed(writer, report.text.as_slice()) {
        Ok(()) => Ok(()),
        Err(WriteFault) => Err(VolumeFault::Write),
    }
}

//! Numbers that somebody has noted, in words.

ghost use Rattle.std.specs.Prelude.{OnOk};
ghost use Rattle.counted_io.specs.Streams.{seen_by, IsFlushed};

use crate::commands::Ending;
use counted_io::Counted;
use dasd_jobs::JobFault;
use dasd_words::Noted;
use program_faults::ProgramFault;
use s360_explain::{of_ccw, of_csw, of_ending, of_pasted, of_sense, of_status};
use s360_words::{Ccw, Csw};
use std::io::Write;

/// Prints what a number means.
pub(crate) fn explain<W: Write>(
    writer: &mut Counted<W>,
    noted: Noted,
) -> Result<Ending, ProgramFault>
    ensures { OnOk result (IsFlushed (seen_by W.contents writer.new)) }
{
    let lines = match noted {
        Noted::Csw(bytes) => of_csw(Csw::from_bytes(bytes)),
        Noted::Ending(bytes) => {
            let [unit, channel, high, low] = bytes;
            let csw = Csw::from_bytes([0, 0, 0, 0, unit, channel, high, low]);
            of_ending(csw.unit, csw.channel, csw.count)
        }
        Noted::Status(bytes) => {
            let [unit, channel] = bytes;
            let csw = Csw::from_bytes([0, 0, 0, 0, unit, channel, 0, 0]);
            of_status(csw.unit, csw.channel)
        }
        Noted::Sense(bytes) => of_sense(bytes.as_slice()),
        Noted::Ccw(bytes) => of_ccw(Ccw::from_bytes(bytes)),
        Noted::Line(pasted) => of_pasted(pasted),
    };
    for line in lines.as_slice() {
        if writeln!(writer, "{line}").is_err() {
            return Err(ProgramFault::Job(JobFault::Write));
        }
    }
    match writer.flush() {
        Ok(()) => Ok(Ending::Done),
        Err(_) => Err(ProgramFault::Job(JobFault::Write)),
    }
}

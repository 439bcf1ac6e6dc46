//! A deck is run between a reader and a writer whose failures are counted.

ghost use Rattle.std.specs.Prelude.{OnOk};
ghost use Rattle.counted_io.specs.Streams.{seen_by, IsFlushed};
ghost use Rattle.s360_deck.specs.CountedRuns.{CountedRuns};
ghost use Rattle.s360_deck.specs.Runs.{StaysUnlessRun};

use crate::counted_reading::read_text;
use crate::runs::RunFault;
use crate::texts::{of_read, run_text};
use ckd_image::ImageStore;
use counted_io::Counted;
use s360_channel::Channel;
use std::alloc::Global;
use std::io::{Read, Write};

/// Runs a deck as `run` does, over a reader and a writer whose failures are counted, so that its faults are exact.
///
/// # Errors
///
/// A read fault comes exactly where a read failed or the text has more than 1,048,576 bytes; a write fault exactly where a write
/// failed, or took no byte, or the last flush failed.
pub fn run_counted<R: Read, W: Write, S: ImageStore>(
    alloc: Global,
    reader: &mut Counted<R>,
    writer: &mut Counted<W>,
    channel: &mut Channel<S>,
) -> Result<(), RunFault>
    ensures runs { CountedRuns result (seen_by R.remaining reader.old) (seen_by R.remaining reader.new) channel.old
        channel.new
        (seen_by W.contents writer.old) (seen_by W.contents writer.new) }
    ensures no_event { StaysUnlessRun result channel.old channel.new }
    ensures nothing_written { StaysUnlessRun result writer.old writer.new }
    ensures flushed { OnOk result (IsFlushed (seen_by W.contents writer.new)) }
{
    match read_text(alloc, reader) {
        Ok(text) => run_text(alloc, text.as_slice(), writer, channel),
        Err(fault) => Err(of_read(fault)),
    }
}

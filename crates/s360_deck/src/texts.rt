//! A deck is run from its text.

ghost use Rattle.std.specs.Prelude.{◌≡◌, OnOk};
ghost use Rattle.counted_io.specs.Streams.{seen_by, IsFlushed};
ghost use Rattle.s360_deck.specs.CountedRuns.{run_fault};
ghost use Rattle.s360_deck.specs.Runs.{StaysUnlessRun};
ghost use Rattle.s360_deck.specs.Texts.{RunsText};

use crate::counted_writing::write_counted;
use crate::driving::drive_text;
use crate::fault::{DeckFault, ReadFault};
use crate::reading::DECK_LENGTH;
use crate::runs::RunFault;
use ckd_image::ImageStore;
use counted_io::{Counted, WriteFault};
use s360_channel::Channel;
use std::alloc::Global;
use std::io::Write;

/// Runs the deck that a text is, as `run_counted` does with what it has read.
///
/// # Errors
///
/// A read fault comes exactly where the text has more than 1,048,576 bytes; a write fault exactly where a write failed, or took no
/// byte, or the last flush failed.
pub fn run_text<W: Write, S: ImageStore>(
    alloc: Global,
    text: &[u8],
    writer: &mut Counted<W>,
    channel: &mut Channel<S>,
) -> Result<(), RunFault>
    ensures runs { RunsText result text.now channel.old channel.new
        (seen_by W.contents writer.old) (seen_by W.contents writer.new) }
    ensures no_event { StaysUnlessRun result channel.old channel.new }
    ensures nothing_written { StaysUnlessRun result writer.old writer.new }
    ensures flushed { OnOk result (IsFlushed (seen_by W.contents writer.new)) }
{
    if text.len() > DECK_LENGTH {
        return Err(RunFault::Read);
    }
    let answers = match drive_text(alloc, channel, text) {
        Ok(answers) => answers,
        Err(fault) => return Err(RunFault::Deck(fault)),
    };
    match write_counted(writer, answers.as_slice()) {
        Ok(()) => Ok(()),
        Err(WriteFault) => Err(RunFault::Write),
    }
}

/// What the fault of a text that was not read is to a run.
pub(crate) fn of_read(fault: ReadFault) -> RunFault
    ensures { result ≡ run_fault fault }
{
    match fault {
        ReadFault::OutOfMemory => RunFault::Deck(DeckFault::OutOfMemory),
        ReadFault::Failed | ReadFault::TooLong => RunFault::Read,
    }
}

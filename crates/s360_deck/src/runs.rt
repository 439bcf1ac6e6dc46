//! A deck is read whole, parsed whole and driven whole; then its answers are written, one line each.

ghost use Rattle.s360_deck.specs.Runs.{Runs, Spells, StaysUnlessRun};

use crate::fault::DeckFault;
use crate::parsing::parse;
use crate::reading::read_deck;
use crate::writing::write_answers;
use ckd_image::ImageStore;
use s360_channel::{Channel, drive};
use s360_laws::Event;
use std::alloc::Global;
use std::io::{Read, Write};
use thiserror::Error;

/// Why a deck was not run, or its answers were not all written.
#[derive(Clone, Copy, Debug, PartialEq, Eq, Error)]
pub enum RunFault {
    /// The text is no deck, or there is no memory for it, for its events or for their answers.
    #[error(transparent)]
    Deck(DeckFault),
    /// A read failed, or the text has more than 1,048,576 bytes.
    #[error("read fault")]
    Read,
    /// A write failed, or took no byte.
    #[error("write fault")]
    Write,
}

/// Runs a deck of at most 1,048,576 bytes at a channel: it is read whole, parsed whole and driven whole, and then the line of
/// each answer is written. It reads at most 1,048,577 times.
///
/// # Errors
///
/// With a write fault all events have run, and the first bytes of the lines may be written. With every other fault no event
/// has run, and nothing is written.
pub fn run<R: Read, W: Write, S: ImageStore>(
    alloc: Global,
    reader: &mut R,
    writer: &mut W,
    channel: &mut Channel<S>,
) -> Result<(), RunFault>
    ensures runs { Runs result (R.remaining reader.old) (R.remaining reader.new) channel.old channel.new
        (W.contents writer.old) (W.contents writer.new) }
    ensures no_event { StaysUnlessRun result channel.old channel.new }
    ensures nothing_written { StaysUnlessRun result writer.old writer.new }
{
    let text = read_deck(alloc, reader)?;
    let events = read_events(alloc, text.as_slice())?;
    let Ok(answers) = drive(alloc, channel, events.as_slice()) else {
        return Err(RunFault::Deck(DeckFault::OutOfMemory));
    };
    write_answers(writer, answers.as_slice())
}

/// The events that a text spells.
pub(crate) fn read_events(alloc: Global, text: &[u8]) -> Result<Vec<Event>, RunFault>
    ensures { Spells result text.now }
{
    match parse(alloc, text) {
        Ok(events) => Ok(events),
        Err(fault) => Err(RunFault::Deck(fault)),
    }
}

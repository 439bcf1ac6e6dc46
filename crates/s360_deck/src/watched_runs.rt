//! A deck is run as ever, and watched.

ghost use Rattle.std.specs.Prelude.{OnOk};
ghost use Rattle.s360_laws.specs.Machine.{Machine};
ghost use Rattle.s360_channel.specs.Channel.{StandsFor};
ghost use Rattle.counted_io.specs.Streams.{seen_by, IsFlushed};
ghost use Rattle.s360_deck.specs.CountedRuns.{CountedRuns};
ghost use Rattle.s360_deck.specs.Runs.{StaysUnlessRun};
ghost use Rattle.s360_deck.specs.Texts.{RunsText};
ghost use Rattle.s360_deck.specs.Watched.{WatchesRun, WatchesText};

use crate::counted_reading::read_text;
use crate::counted_writing::write_counted;
use crate::reading::DECK_LENGTH;
use crate::runs::RunFault;
use crate::texts::of_read;
use crate::watched_driving::drive_text_watched;
use ckd_image::ImageStore;
use counted_io::{Counted, WriteFault};
use s360_channel::Channel;
use s360_trace::Watcher;
use std::alloc::Global;
use std::io::{Read, Write};

/// Runs a deck as `run_counted` does, with the same promise; the watcher looks at the channel before and behind each event, and
/// behind each unit of a program.
///
/// # Errors
///
/// Those of `run_counted`.
#[tactic(auto, using(crate::proofs::CountedRan::is_unread, crate::proofs::CountedRan::is_read_whole))]
pub fn run_watched<R: Read, W: Write, S: ImageStore, V: Watcher>(
    alloc: Global,
    reader: &mut Counted<R>,
    writer: &mut Counted<W>,
    channel: &mut Channel<S>,
    watcher: &mut V,
) -> Result<(), RunFault>
    ensures runs { CountedRuns result (seen_by R.remaining reader.old) (seen_by R.remaining reader.new) channel.old
        channel.new
        (seen_by W.contents writer.old) (seen_by W.contents writer.new) }
    ensures no_event { StaysUnlessRun result channel.old channel.new }
    ensures nothing_written { StaysUnlessRun result writer.old writer.new }
    ensures watched { (m : Machine) → StandsFor channel.old m
        → WatchesRun V.sees result (seen_by R.remaining reader.old) (seen_by R.remaining reader.new) channel.old channel.new
        watcher.old watcher.new }
    ensures flushed { OnOk result (IsFlushed (seen_by W.contents writer.new)) }
{
    match read_text(alloc, reader) {
        Ok(text) => run_text_watched(alloc, text.as_slice(), writer, channel, watcher),
        Err(fault) => Err(of_read(fault)),
    }
}

/// Runs the deck that a text is as `run_text` does, with the same promise, and watched as by `run_watched`.
///
/// # Errors
///
/// Those of `run_text`.
pub fn run_text_watched<W: Write, S: ImageStore, V: Watcher>(
    alloc: Global,
    text: &[u8],
    writer: &mut Counted<W>,
    channel: &mut Channel<S>,
    watcher: &mut V,
) -> Result<(), RunFault>
    ensures runs { RunsText result text.now channel.old channel.new
        (seen_by W.contents writer.old) (seen_by W.contents writer.new) }
    ensures no_event { StaysUnlessRun result channel.old channel.new }
    ensures nothing_written { StaysUnlessRun result writer.old writer.new }
    ensures watched { (m : Machine) → StandsFor channel.old m
        → WatchesText V.sees result text.now channel.old channel.new watcher.old watcher.new }
    ensures flushed { OnOk result (IsFlushed (seen_by W.contents writer.new)) }
{
    if text.len() > DECK_LENGTH {
        return Err(RunFault::Read);
    }
    let answers = match drive_text_watched(alloc, channel, text, watcher) {
        Ok(answers) => answers,
        Err(fault) => return Err(RunFault::Deck(fault)),
    };
    match write_counted(writer, answers.as_slice()) {
        Ok(()) => Ok(()),
        Err(WriteFault) => Err(RunFault::Write),
    }
}

//! A deck is read and run, and its faults are told in more words.

ghost use Rattle.std.specs.Prelude.{◌≡◌, IfOk, IfErr, OnOk, OnErr, option_map};
ghost use Rattle.counted_io.specs.Streams.{seen_by, IsFlushed};
ghost use Rattle.s360_deck.specs.Runs.{StaysUnlessRun};
ghost use Rattle.s360_deck.specs.Texts.{RunsText};
ghost use Rattle.dasd_run.specs.Decks.{ReadsDeck, NotRead};

use crate::remarks::{Remark, first_word};
use crate::runs::Disks;
use counted_io::Counted;
use dasd_jobs::{FileFault, ImageFiles};
use dasd_words::operand_rule;
use s360_deck::{DeckFault, ReadFault, RunFault, read_text, run_text, run_text_watched};
use std::alloc::Global;
use std::io::{Read, Write};
use trace_lines::Tracer;

/// The most bytes of a deck, and one more.
const PAST_DECK: usize = 1_048_577;

/// The text of the deck: all that the reader has, or else the bytes of the file at this path; of a file that is too long its first
/// bytes, one more than a deck may have.
///
/// # Errors
///
/// It can't be read, or the reader has more than a deck may have, or there is no memory.
pub(crate) fn read_deck<F: ImageFiles, R: Read>(
    alloc: Global,
    files: &mut F,
    reader: &mut Counted<R>,
    deck: Option<&str>,
) -> Result<Vec<u8>, RunFault>
    ensures kept { F.written files.new ≡ F.written files.old }
    ensures read { IfOk result (λ text. ReadsDeck (option_map (λ path. path.now) deck.entry)
        (seen_by R.remaining reader.old) (seen_by R.remaining reader.new) text.items (F.opened files.old) (F.opened files.new)) }
    ensures not_read { IfErr result (λ fault. NotRead fault (option_map (λ path. path.now) deck.entry)
        (seen_by R.remaining reader.old) (seen_by R.remaining reader.new)) }
    ensures none { OnErr result (F.opened files.new ≡ F.opened files.old) }
{
    let Some(path) = deck else {
        return read_input(alloc, files, reader);
    };
    match files.read(alloc, path, PAST_DECK) {
        Ok(text) => Ok(text),
        Err(FileFault::OutOfMemory) => Err(RunFault::Deck(DeckFault::OutOfMemory)),
        Err(_) => Err(RunFault::Read),
    }
}

// All that the reader has, if it is no more than a deck may have.
fn read_input<F: ImageFiles, R: Read>(
    alloc: Global,
    files: &mut F,
    reader: &mut Counted<R>,
) -> Result<Vec<u8>, RunFault>
    ensures kept { F.written files.new ≡ F.written files.old }
    ensures read { IfOk result (λ text. ReadsDeck None
        (seen_by R.remaining reader.old) (seen_by R.remaining reader.new) text.items (F.opened files.old) (F.opened files.new)) }
    ensures not_read { IfErr result (λ fault. NotRead fault None
        (seen_by R.remaining reader.old) (seen_by R.remaining reader.new)) }
    ensures none { OnErr result (F.opened files.new ≡ F.opened files.old) }
{
    match read_text(alloc, reader) {
        Ok(text) => Ok(text),
        Err(ReadFault::OutOfMemory) => Err(RunFault::Deck(DeckFault::OutOfMemory)),
        Err(ReadFault::Failed) => {
            files.remark(&Remark::NoDeck);
            Err(RunFault::Read)
        }
        Err(ReadFault::TooLong) => {
            files.remark(&Remark::LongDeck);
            Err(RunFault::Read)
        }
    }
}

/// Runs the deck that this text is, with the same promise whether it is traced or not.
///
/// # Errors
///
/// What stopped it. No event has run, but with a write fault, which comes exactly where a write failed or the last flush.
pub(crate) fn run_deck<W: Write, T: Write + Drop>(
    alloc: Global,
    writer: &mut Counted<W>,
    text: &[u8],
    channel: &mut Disks,
    tracer: &mut Option<Tracer<T>>,
) -> Result<(), RunFault>
    ensures runs { RunsText result text.now channel.old channel.new (seen_by W.contents writer.old) (seen_by W.contents writer.new) }
    ensures no_event { StaysUnlessRun result channel.old channel.new }
    ensures nothing_written { StaysUnlessRun result writer.old writer.new }
    ensures flushed { OnOk result (IsFlushed (seen_by W.contents writer.new)) }
{
    match tracer {
        Some(tracer) => run_text_watched(alloc, text, writer, channel, tracer),
        None => run_text(alloc, text, writer, channel),
    }
}

/// Says more of a fault of the deck that this text is.
pub(crate) fn tell_fault<F: ImageFiles>(files: &mut F, text: &[u8], run: Result<(), RunFault>)
    ensures kept { F.written files.new ≡ F.written files.old }
    ensures same { F.opened files.new ≡ F.opened files.old }
{
    let remark = match run {
        Err(RunFault::Read) => Remark::LongDeck,
        Err(RunFault::Deck(DeckFault::Unknown(line))) => {
            Remark::NoEvent(line, first_word(text, line))
        }
        Err(RunFault::Deck(DeckFault::Operand(line))) => {
            Remark::Operand(line, operand_rule(first_word(text, line)))
        }
        Err(RunFault::Deck(DeckFault::LineTooLong(line))) => Remark::LongLine(line),
        Err(RunFault::Deck(DeckFault::OutOfMemory) | RunFault::Write) | Ok(()) => return,
    };
    files.remark(&remark);
}

//! Channel programs in words.

ghost use Rattle.std.specs.Prelude.{◌≡◌, option_map, IfOk, IfErr};
ghost use Rattle.counted_io.specs.Streams.{seen_by};
ghost use Rattle.dasd_run.specs.Words.{source_name, MakesDeck, AssemblesText, PrintsOwnWords, PrintsWords, WithText};

use crate::commands::{Ending, tell};
use crate::decks::read_deck;
use crate::host::Host;
use crate::loads::load_files;
use counted_io::Counted;
use dasd_jobs::{ImageFiles, Progress, Traces};
use program_faults::ProgramFault;
use s360_assembler::{AssemblyFault, assemble, files_named};
use s360_deck::RunFault;
use s360_disassembler::{DisassemblyFault, disassemble};
use std::alloc::Global;
use std::io::{Read, Write};

/// The most bytes of a text or of a deck.
const MOST_BYTES: usize = 1_048_576;

// What a text is called whose lines are told of.
fn source_name(alloc: Global, path: Option<&str>) -> Result<String, ProgramFault>
    ensures name { IfOk result (λ name. name.bytes.items ≡ source_name (option_map (λ path. path.now) path.entry)) }
    ensures fault { IfErr result (λ e. e ≡ ProgramFault.OutOfMemory) }
{
    Ok(path.unwrap_or("standard input").to_string(alloc)?)
}

// The deck of a text, with the files that it names, as far as they can be read.
fn deck_of<F: ImageFiles>(
    alloc: Global,
    files: &mut F,
    text: &[u8],
) -> Result<Vec<u8>, AssemblyFault>
    ensures kept { F.written files.new ≡ F.written files.old }
    ensures made { MakesDeck result text.now (F.opened files.old) (F.opened files.new) }
{
    let Ok(names) = files_named(alloc, text) else {
        return Err(AssemblyFault::OutOfMemory);
    };
    let loaded = load_files(alloc, files, names.as_slice())?;
    assemble(alloc, loaded.as_slice(), text)
}

// Prints the deck of a text.
fn print_deck<F: ImageFiles, W: Write>(
    alloc: Global,
    files: &mut F,
    writer: &mut Counted<W>,
    path: Option<&str>,
    text: &[u8],
) -> Result<Ending, ProgramFault>
    ensures kept { F.written files.new ≡ F.written files.old }
    ensures assembles { AssemblesText result (option_map (λ path. path.now) path.entry) text.now
        (F.opened files.old) (F.opened files.new)
        (seen_by W.contents writer.old) (seen_by W.contents writer.new) }
{
    if text.len() > MOST_BYTES {
        return Err(ProgramFault::Run(RunFault::Read));
    }
    let fault = match deck_of(alloc, files, text) {
        Ok(deck) => return tell(writer, deck.as_slice()),
        Err(fault) => fault,
    };
    if fault == AssemblyFault::OutOfMemory {
        return Err(ProgramFault::OutOfMemory);
    }
    Err(ProgramFault::Assembly(source_name(alloc, path)?, fault))
}

// Prints the words of a deck.
fn print_words<W: Write>(
    alloc: Global,
    writer: &mut Counted<W>,
    path: Option<&str>,
    deck: &[u8],
) -> Result<Ending, ProgramFault>
    ensures { PrintsOwnWords result (option_map (λ path. path.now) path.entry) deck.now
        (seen_by W.contents writer.old) (seen_by W.contents writer.new) }
{
    if deck.len() > MOST_BYTES {
        return Err(ProgramFault::Run(RunFault::Read));
    }
    match disassemble(alloc, deck) {
        Ok(words) => tell(writer, words.as_slice()),
        Err(DisassemblyFault::OutOfMemory) => Err(ProgramFault::OutOfMemory),
        Err(fault) => Err(ProgramFault::Disassembly(source_name(alloc, path)?, fault)),
    }
}

/// Prints the deck of a text in words, of the file at this path or of the reader, and of the files that it loads.
///
/// # Errors
///
/// It can't be read, it is wrong, its files have more bytes than a deck may have, or there is no memory: nothing is printed. A write
/// fault comes exactly where a write failed, or the flush.
pub(crate) fn assemble_text<F: Traces, R: Read, W: Write, P: Progress>(
    host: &mut Host<F, R, W, P>,
    path: Option<&str>,
) -> Result<Ending, ProgramFault>
    ensures { WithText AssemblesText result (option_map (λ path. path.now) path.entry) host.old host.new }
{
    let text = read_deck(host.alloc, &mut host.files, &mut host.reader, path)?;
    print_deck(
        host.alloc,
        &mut host.files,
        &mut host.writer,
        path,
        text.as_slice(),
    )
}

/// Prints a deck in words, the one of the file at this path or of the reader.
///
/// # Errors
///
/// It can't be read, it is no deck, or there is no memory: nothing is printed. A write fault comes exactly where a write failed, or the
/// flush.
pub(crate) fn disassemble_deck<F: Traces, R: Read, W: Write, P: Progress>(
    host: &mut Host<F, R, W, P>,
    path: Option<&str>,
) -> Result<Ending, ProgramFault>
    ensures { WithText PrintsWords result (option_map (λ path. path.now) path.entry) host.old host.new }
{
    let deck = read_deck(host.alloc, &mut host.files, &mut host.reader, path)?;
    print_words(host.alloc, &mut host.writer, path, deck.as_slice())
}

//! A text in words is assembled, in two passes over its lines.

ghost use Rattle.std.specs.Prelude.{◌≡◌, ◌≤◌, [], IfOk, ◌<◌};
ghost use Rattle.s360_deck.specs.Deck.{lines_of};
ghost use Rattle.s360_assembler.specs.Parts.{seen};
ghost use Rattle.s360_assembler.specs.Assembled.{told, symbols_behind, deck_behind, new_deck, assembled, Writes, IsAssembled, HasSymbols};

use crate::deck::{Deck, add_part, close};
use crate::fault::{AssemblyFault, Cause, Mistake};
use crate::fields::{fields_of, raised};
use crate::files::LoadableFile;
use crate::parts::part_of;
use crate::statements::statement_of;
use crate::symbols::{Symbol, location_behind, note_line};
use s360_deck::{split_at_line_feed, without_carriage_return};
use std::alloc::Global;

/// The most bytes of a deck.
const DECK_LENGTH: usize = 1_048_576;

/// What the second pass knows: the files that may be loaded, and the symbols.
#[derive(Clone, Copy)]
struct Known<'a> {
    files: &'a [LoadableFile],
    symbols: &'a [Symbol],
}

// The fault of a line.
fn told(number: usize, mistake: Mistake) -> AssemblyFault
    ensures { result ≡ told number mistake }
{
    match mistake.cause {
        Cause::OutOfMemory => AssemblyFault::OutOfMemory,
        Cause::TooLong => AssemblyFault::TooLong,
        cause => AssemblyFault::At(number, mistake.column, cause),
    }
}

// The symbols of a text's lines.
fn symbols_of(
    alloc: Global,
    files: &[LoadableFile],
    text: &[u8],
) -> Result<Vec<Symbol>, AssemblyFault>
    ensures { HasSymbols (symbols_behind files.now [] 0 1 (lines_of text.now)) result }
{
    let mut symbols = Vec::new(alloc);
    let mut here = 0;
    let mut number = 1;
    let mut rest = text;
    while !rest.is_empty() {
        let (line, behind) = split_at_line_feed(rest);
        match note_line(files, &mut symbols, here, without_carriage_return(line)) {
            Ok(next) => here = next,
            Err(mistake) => return Err(told(number, mistake)),
        }
        rest = behind;
        number += 1;
    }
    Ok(symbols)
}

// What a line that may stand from here on makes of a deck, and the location behind it.
fn write_line(
    alloc: Global,
    known: &Known,
    deck: &mut Deck,
    here: u32,
    line: &[u8],
) -> Result<u32, Mistake>
    requires { here ≤ 16777216 }
    ensures writes { Writes result known.now.files.now known.now.symbols.now (seen deck.old) (seen deck.new) here line.now }
    ensures bound { IfOk result (λ location. location ≤ 16777216) }
{
    let statement = statement_of(known.files, line)?;
    let column = fields_of(line).operands_at + 1;
    let next = match location_behind(known.symbols, here, &statement) {
        Ok(next) => next,
        Err(cause) => return Err(Mistake { column, cause }),
    };
    let part = match part_of(known.symbols, here, line, statement) {
        Ok(part) => part,
        Err(cause) => return Err(Mistake { column, cause }),
    };
    match add_part(alloc, known.files, deck, part) {
        Ok(()) if deck.text.len() > DECK_LENGTH => Err(Mistake {
            column,
            cause: Cause::TooLong,
        }),
        Ok(()) => Ok(next),
        Err(cause) => Err(Mistake { column, cause }),
    }
}

// The deck of a text's lines.
fn deck_of(alloc: Global, known: &Known, text: &[u8]) -> Result<Vec<u8>, AssemblyFault>
    ensures { IsAssembled (deck_behind known.now.files.now known.now.symbols.now new_deck 0 1 (lines_of text.now)) result }
{
    let mut deck = Deck {
        text: Vec::new(alloc),
        stored: 0,
        next: 0,
    };
    let mut here = 0;
    let mut number = 1;
    let mut rest = text;
    while !rest.is_empty() {
        let (line, behind) = split_at_line_feed(rest);
        match write_line(alloc, known, &mut deck, here, without_carriage_return(line)) {
            Ok(next) => here = next,
            Err(mistake) => return Err(told(number, mistake)),
        }
        rest = behind;
        number += 1;
    }
    if close(&mut deck).is_err() {
        return Err(AssemblyFault::OutOfMemory);
    }
    let Deck {
        text,
        stored: _,
        next: _,
    } = deck;
    Ok(text)
}

/// The deck of a text in words, which may load these files.
///
/// # Errors
///
/// The first faulty line of the first pass, which looks for labels; or else of the second, which makes the deck: with its column and
/// what is wrong. Or the deck gets more bytes than a deck may have; or there is no memory.
pub fn assemble(
    alloc: Global,
    files: &[LoadableFile],
    text: &[u8],
) -> Result<Vec<u8>, AssemblyFault>
    ensures { IsAssembled (assembled files.now text.now) result }
{
    let Ok(capitals) = raised(alloc, text) else {
        return Err(AssemblyFault::OutOfMemory);
    };
    let symbols = symbols_of(alloc, files, capitals.as_slice())?;
    let known = Known {
        files,
        symbols: symbols.as_slice(),
    };
    let deck = deck_of(alloc, &known, capitals.as_slice())?;
    if deck.len() > DECK_LENGTH {
        return Err(AssemblyFault::TooLong);
    }
    Ok(deck)
}

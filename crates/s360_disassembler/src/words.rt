//! A deck in words.

ghost use Rattle.std.specs.Prelude.{◌≡◌, true, Ok, IfOk, IfErr};
ghost use Rattle.s360_deck.specs.Deck.{events_of};
ghost use Rattle.s360_disassembler.specs.Words.{AreWordsOfEvents, NotDisassembled, Disassembles};

use crate::events::are_same;
use crate::pieces::{Piece, pieces_of};
use crate::word_lines::{
    Line, Place, constant_line, event_line, origin_line, pointer_line, word_line, written,
};
use s360_assembler::{AssemblyFault, assemble};
use s360_deck::{DeckFault, parse};
use s360_laws::Event;
use std::alloc::{AllocError, Global};
use std::collections::BTreeMap;
use thiserror::Error;

/// Why a deck is not put into words.
#[derive(Clone, Copy, Debug, PartialEq, Eq, Error)]
pub enum DisassemblyFault {
    /// There is no memory.
    #[error("out of memory")]
    OutOfMemory,
    /// The text is no deck.
    #[error(transparent)]
    Deck(DeckFault),
    /// The words that were found are not those of the deck.
    #[error("the words are not those of the deck")]
    OtherDeck,
}

/// What is known of an address that a word has.
#[derive(Clone, Copy)]
pub(crate) struct Mark {
    /// Whether a statement stands there.
    is_place: bool,
    /// Whether one that stands there has its label.
    is_labelled: bool,
}

/// The addresses that words have.
pub(crate) type Marks = BTreeMap<u32, Mark>;

// Notes the addresses that the words of these bytes have.
fn note_references(
    alloc: Global,
    marks: &mut Marks,
    at: u32,
    bytes: &[u8],
) -> Result<(), AllocError> {
    let pieces = pieces_of(alloc, at, bytes)?;
    for (_, piece) in pieces.as_slice() {
        let address = match piece {
            Piece::Word(word) => word.address,
            Piece::Pointer(address) => *address,
            _ => continue,
        };
        marks.insert(
            address,
            Mark {
                is_place: false,
                is_labelled: false,
            },
        )?;
    }
    Ok(())
}

// Notes where the statements of these bytes stand.
fn note_places(alloc: Global, marks: &mut Marks, at: u32, bytes: &[u8]) -> Result<(), AllocError> {
    let pieces = pieces_of(alloc, at, bytes)?;
    for (place, _) in pieces.as_slice() {
        if let Some(mark) = marks.get_mut(place) {
            mark.is_place = true;
        }
    }
    Ok(())
}

// All addresses that words have, with the statements that stand there.
fn marks_of(alloc: Global, events: &[Event]) -> Result<Marks, AllocError> {
    let mut marks = BTreeMap::new(alloc);
    for event in events {
        if let Event::Store(at, bytes) = event {
            note_references(alloc, &mut marks, *at, bytes.as_slice())?;
        }
    }
    for event in events {
        if let Event::Store(at, bytes) = event {
            note_places(alloc, &mut marks, *at, bytes.as_slice())?;
        }
    }
    Ok(marks)
}

// An address, with whether it has a label.
fn place_of(marks: &Marks, address: u32) -> Place {
    let has_label = match marks.get(&address) {
        Some(mark) => mark.is_place,
        None => false,
    };
    Place { address, has_label }
}

// Whether the statement at this place has its label, which the first one there has.
fn takes_label(marks: &mut Marks, place: u32) -> bool {
    let Some(mark) = marks.get_mut(&place) else {
        return false;
    };
    let takes = mark.is_place && !mark.is_labelled;
    if takes {
        mark.is_labelled = true;
    }
    takes
}

/// The most bytes of storage.
const STORAGE: u64 = 16_777_216;

// One line more.
fn add(
    alloc: Global,
    words: &mut Vec<u8>,
    label: Option<u32>,
    line: Line,
) -> Result<(), AllocError> {
    let text = written(alloc, label, &line)?;
    words.extend_from_slice(text.as_str().trim_end().as_bytes())?;
    words.extend_from_slice(b"\n")
}

// The line of a piece of storage.
fn line_of(alloc: Global, marks: &Marks, piece: Piece) -> Result<Line, AllocError> {
    match piece {
        Piece::Word(word) => word_line(alloc, word, place_of(marks, word.address)),
        Piece::Pointer(address) => pointer_line(alloc, place_of(marks, address)),
        Piece::Run(times, byte) => constant_line(alloc, times, &[byte]),
        Piece::Bytes(bytes) => constant_line(alloc, 1, bytes),
    }
}

// The lines of bytes that are stored.
fn add_stored(
    alloc: Global,
    words: &mut Vec<u8>,
    marks: &mut Marks,
    at: u32,
    bytes: &[u8],
) -> Result<(), AllocError> {
    add(alloc, words, None, origin_line(alloc, at)?)?;
    let pieces = pieces_of(alloc, at, bytes)?;
    for (place, piece) in pieces.as_slice() {
        let label = takes_label(marks, *place).then_some(*place);
        add(alloc, words, label, line_of(alloc, marks, *piece)?)?;
    }
    Ok(())
}

// The words of events. Bytes that go past the largest storage, as no statement does, are an event like others.
fn words_of(alloc: Global, events: &[Event]) -> Result<Vec<u8>, AllocError> {
    let mut marks = marks_of(alloc, events)?;
    let mut words = Vec::new(alloc);
    for event in events {
        match event {
            Event::Store(at, bytes) if u64::from(*at) + bytes.len() as u64 <= STORAGE => {
                add_stored(alloc, &mut words, &mut marks, *at, bytes.as_slice())?;
            }
            other => add(alloc, &mut words, None, event_line(alloc, other)?)?,
        }
    }
    Ok(words)
}

// The events of a deck.
fn events_of(alloc: Global, deck: &[u8]) -> Result<Vec<Event>, DisassemblyFault>
    ensures ok { IfOk result (λ events. events_of deck.now ≡ Ok events.items) }
    ensures err { IfErr result (λ fault. NotDisassembled fault deck.now) }
{
    let fault = match parse(alloc, deck) {
        Ok(events) => return Ok(events),
        Err(DeckFault::OutOfMemory) => return Err(DisassemblyFault::OutOfMemory),
        Err(DeckFault::Unknown(line)) => DeckFault::Unknown(line),
        Err(DeckFault::Operand(line)) => DeckFault::Operand(line),
        Err(DeckFault::LineTooLong(line)) => DeckFault::LineTooLong(line),
    };
    Err(DisassemblyFault::Deck(fault))
}

// Whether these words, assembled, are a deck of these events.
fn are_words_of(alloc: Global, words: &[u8], events: &[Event]) -> Result<bool, AllocError>
    ensures { IfOk result (λ are. are ≡ true → AreWordsOfEvents events.now words.now) }
{
    let again = match assemble(alloc, &[], words) {
        Ok(again) => again,
        Err(AssemblyFault::OutOfMemory) => return Err(AllocError),
        Err(_) => return Ok(false),
    };
    match parse(alloc, again.as_slice()) {
        Ok(found) => Ok(are_same(found.as_slice(), events)),
        Err(DeckFault::OutOfMemory) => Err(AllocError),
        Err(_) => Ok(false),
    }
}

/// The words of a deck. They are assembled again before they are answered.
///
/// # Errors
///
/// The text is no deck; or there is no memory; or the words that were found are not those of the deck, which is not known to happen.
pub fn disassemble(alloc: Global, deck: &[u8]) -> Result<Vec<u8>, DisassemblyFault>
    ensures { Disassembles deck.now result }
{
    let events = events_of(alloc, deck)?;
    let Ok(words) = words_of(alloc, events.as_slice()) else {
        return Err(DisassemblyFault::OutOfMemory);
    };
    match are_words_of(alloc, words.as_slice(), events.as_slice()) {
        Ok(true) => Ok(words),
        Ok(false) => Err(DisassemblyFault::OtherDeck),
        Err(_) => Err(DisassemblyFault::OutOfMemory),
    }
}

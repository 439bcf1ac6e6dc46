//! A deck in the making.

ghost use Rattle.std.specs.Prelude.{◌≡◌, ◌≤◌, ◌+◌, ◌/◌, ◌++◌, codes, take, drop, length, is_ok, Ok, IfOk, IfErr, OnOk};
ghost use Rattle.counted_io.specs.Text.{hexadecimal, bytes_text};
ghost use Rattle.s360_deck.specs.Deck.{events_of};
ghost use Rattle.s360_assembler.specs.Parts.{closed, with_bytes, with_pieces, with_file, with_event, with_part, seen, Makes};

use crate::fault::Cause;
use crate::files::{LoadableFile, bytes_at};
use crate::parts::DeckPart;
use arrayvec::{ArrayString, ArrayVec};
use counted_io::{put_bytes, put_hexadecimal};
use s360_deck::{DeckFault, parse};
use std::alloc::Global;

/// The most bytes of a `STORE`.
const STORE_LENGTH: usize = 128;

/// The bytes of the largest storage.
const STORAGE: usize = 16_777_216;

/// A deck so far.
#[derive(Drop)]
pub struct Deck {
    /// Its text.
    pub text: Vec<u8>,
    /// How many bytes the `STORE` has whose line is not done; 0 where there is none.
    pub stored: usize,
    /// Where that one goes on.
    pub next: u64,
}

// Bytes more at the end of a text.
fn add(text: &mut Vec<u8>, bytes: &[u8]) -> Result<(), Cause>
    ensures ok { OnOk result (text.new.items ≡ text.old.items ++ bytes.now) }
    ensures err { IfErr result (λ why. why ≡ Cause.OutOfMemory) }
{
    match text.extend_from_slice(bytes) {
        Ok(()) => Ok(()),
        Err(_) => Err(Cause::OutOfMemory),
    }
}

/// Ends the line of a `STORE` that is not done.
pub(crate) fn close(deck: &mut Deck) -> Result<(), Cause>
    ensures ok { OnOk result (seen deck.new ≡ closed (seen deck.old)) }
    ensures err { IfErr result (λ why. why ≡ Cause.OutOfMemory) }
{
    if deck.stored == 0 {
        return Ok(());
    }
    add(&mut deck.text, b"\n")?;
    deck.stored = 0;
    Ok(())
}

// A word of bytes more behind a `STORE`.
fn add_word(text: &mut Vec<u8>, bytes: &[u8]) -> Result<(), Cause>
    requires { length bytes.now ≤ 128 }
    ensures ok { OnOk result (text.new.items ≡ text.old.items ++ (codes " " ++ bytes_text bytes.now)) }
    ensures err { IfErr result (λ why. why ≡ Cause.OutOfMemory) }
{
    let mut word = ArrayString::<257>::new();
    word.push_str(" ");
    put_bytes(&mut word, bytes);
    add(text, word.as_str().as_bytes())
}

// The beginning of a `STORE`.
fn begin_store(text: &mut Vec<u8>, at: u32) -> Result<(), Cause>
    ensures ok { OnOk result (text.new.items ≡ text.old.items ++ (codes "STORE " ++ hexadecimal 6 at)) }
    ensures err { IfErr result (λ why. why ≡ Cause.OutOfMemory) }
{
    let mut word = ArrayString::<14>::new();
    word.push_str("STORE ");
    put_hexadecimal(&mut word, 6, at);
    add(text, word.as_str().as_bytes())
}

// Bytes in storage, in the `STORE` whose line is not done.
fn go_on(deck: &mut Deck, bytes: &[u8]) -> Result<(), Cause>
    requires room { deck.old.stored + length bytes.now ≤ 128 }
    requires place { deck.old.next ≤ 4294967296 }
    ensures ok { OnOk result (seen deck.new ≡ record {
      text = deck.old.text.items ++ (codes " " ++ bytes_text bytes.now);
      stored = deck.old.stored + length bytes.now;
      next = deck.old.next + length bytes.now;
    }) }
    ensures err { IfErr result (λ why. why ≡ Cause.OutOfMemory) }
{
    add_word(&mut deck.text, bytes)?;
    deck.stored += bytes.len();
    deck.next += bytes.len() as u64;
    Ok(())
}

// Bytes in storage.
fn add_bytes(deck: &mut Deck, at: u32, bytes: &[u8]) -> Result<(), Cause>
    requires { length bytes.now ≤ 128 }
    ensures { Makes result (Ok (with_bytes (seen deck.old) at bytes.now)) (seen deck.new) }
{
    if bytes.is_empty() {
        return Ok(());
    }
    let room = STORE_LENGTH - bytes.len();
    if deck.stored > 0 && u64::from(at) == deck.next && deck.stored <= room {
        return go_on(deck, bytes);
    }
    close(deck)?;
    begin_store(&mut deck.text, at)?;
    deck.next = u64::from(at);
    go_on(deck, bytes)
}

// A piece of at most 128 bytes, and what stands behind it.
fn split_piece(bytes: &[u8]) -> (&[u8], &[u8])
    ensures piece { result.0.now ≡ take 128 bytes.now }
    ensures short { length result.0.now ≤ 128 }
    ensures behind { result.1.now ≡ drop 128 bytes.now }
{
    if bytes.len() <= STORE_LENGTH {
        return (bytes, &[]);
    }
    bytes.split_at(STORE_LENGTH)
}

// Bytes in storage, 128 at a time.
fn add_pieces(deck: &mut Deck, at: u32, bytes: &[u8]) -> Result<(), Cause>
    requires { at + length bytes.now ≤ 16777216 }
    ensures { Makes result (Ok (with_pieces ((length bytes.now + 127) / 128) (seen deck.old) at bytes.now)) (seen deck.new) }
{
    let mut rest = bytes;
    let mut place = at;
    let mut left = (bytes.len() + 127) / 128;
    while left > 0 {
        let (piece, behind) = split_piece(rest);
        add_bytes(deck, place, piece)?;
        place += 128;
        rest = behind;
        left -= 1;
    }
    Ok(())
}

// The bytes of a file in storage.
fn add_file(deck: &mut Deck, at: u32, bytes: &[u8]) -> Result<(), Cause>
    ensures { Makes result (with_file (seen deck.old) at bytes.now) (seen deck.new) }
{
    if bytes.len() > STORAGE || at as usize + bytes.len() > STORAGE {
        return Err(Cause::Outside);
    }
    add_pieces(deck, at, bytes)
}

// The line of an event, if it is one of a deck.
fn add_line(alloc: Global, deck: &mut Deck, line: &[u8]) -> Result<(), Cause>
    ensures { Makes result (with_event (seen deck.old) line.now) (seen deck.new) }
{
    match parse(alloc, line) {
        Ok(_) => {}
        Err(DeckFault::OutOfMemory) => return Err(Cause::OutOfMemory),
        Err(_) => return Err(Cause::Event),
    }
    close(deck)?;
    add(&mut deck.text, line)?;
    add(&mut deck.text, b"\n")
}

/// What a statement makes of a deck.
///
/// # Errors
///
/// The line of an event is none of a deck; or a file goes past the end of the largest storage; or there is no memory.
pub(crate) fn add_part(
    alloc: Global,
    files: &[LoadableFile],
    deck: &mut Deck,
    part: DeckPart,
) -> Result<(), Cause>
    ensures { Makes result (with_part files.now (seen deck.old) part) (seen deck.new) }
{
    match part {
        DeckPart::Line(line) => add_line(alloc, deck, line.as_slice()),
        DeckPart::End => close(deck),
        DeckPart::Bytes(at, bytes) => add_bytes(deck, at, bytes.as_slice()),
        DeckPart::File(at, file) => add_file(deck, at, bytes_at(files, file)),
    }
}

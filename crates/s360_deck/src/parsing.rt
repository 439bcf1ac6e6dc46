//! The events of a deck, line by line.

ghost use Rattle.std.specs.Prelude.{◌≡◌, ◌==◌, ◌<◌, ◌≤◌, ◌∷◌, [], map, option_map, length, OnOk, IfErr};
ghost use Rattle.std.specs.List.{before_first, after_first, position};
ghost use Rattle.s360_deck.specs.Digits.{stored_bytes_of};
ghost use Rattle.s360_deck.specs.Deck.{lines_of, without_return, is_blank, is_empty, words_of, name_of, only, two_of, device_address_in, units_in};
ghost use Rattle.s360_deck.specs.Deck.{run_units_in, joined, store_of, set_key_of, show_of, event_of, is_comment, words_read, line_read, fault_at, appended};
ghost use Rattle.s360_deck.specs.Deck.{events_of, events_behind, IsRead};

use crate::digits::{
    bytes_of_digits, count, device_address, run_units, show_count, storage_address, storage_key,
};
use crate::fault::DeckFault;
use crate::spelling::{EventName, LineFault};
use arrayvec::ArrayVec;
use s360_laws::Event;
use std::alloc::Global;

/// The most bytes of a line, without LF and a CR before it.
const LINE_LENGTH: usize = 512;

/// The most words of a line: each but the last has a space or a tab behind it.
const MOST_WORDS: usize = 256;

// The words of a line.
pub(crate) type Words<'a> = ArrayVec<&'a [u8], MOST_WORDS>;

/// How many units a run does at most whose line does not say it.
const RUN_UNITS: u32 = 16_777_216;

/// Reads a deck. Each line ends with LF, which the last may lack; one CR at a line's end is dropped. A line has the name of
/// an event and its operands, separated by spaces and tabs, in capitals or small letters; or no word, or a comment that
/// begins with an asterisk.
///
/// # Errors
///
/// The first faulty line is reported: too long, an unknown event or a bad operand, in this order. Memory may run out
/// before a faulty line is come to.
pub fn parse(alloc: Global, text: &[u8]) -> Result<Vec<Event>, DeckFault>
    ensures { IsRead (events_of text.now) result }
{
    match text.to_ascii_uppercase(alloc) {
        Ok(capitals) => parse_capitals(alloc, capitals.as_slice()),
        Err(_) => Err(DeckFault::OutOfMemory),
    }
}

// Reads a deck in capitals.
fn parse_capitals<'a>(alloc: Global, text: &'a [u8]) -> Result<Vec<Event>, DeckFault>
    ensures { IsRead (events_behind [] 1 (lines_of text.now)) result }
{
    let mut events = Vec::new(alloc);
    let mut words: Words<'a> = Words::new();
    let mut rest = text;
    let mut number = 1;
    while !rest.is_empty() {
        let (line, behind) = split_at_line_feed(rest);
        match read_line(&mut words, line) {
            Ok(event) => append(&mut events, event)?,
            Err(fault) => return Err(told_on(fault, number)),
        }
        rest = behind;
        number += 1;
    }
    Ok(events)
}

// One event more, if there is one.
fn append(events: &mut Vec<Event>, event: Option<Event>) -> Result<(), DeckFault>
    ensures ok { OnOk result (events.new.items ≡ appended events.old.items event) }
    ensures err { IfErr result (λ fault. fault ≡ DeckFault.OutOfMemory) }
{
    match event {
        None => Ok(()),
        Some(event) => events.push(event).map_err(|_| DeckFault::OutOfMemory),
    }
}

// The fault of a line, by its number.
pub(crate) fn told_on(fault: LineFault, number: usize) -> DeckFault
    ensures { result ≡ fault_at number fault }
{
    match fault {
        LineFault::TooLong => DeckFault::LineTooLong(number),
        LineFault::Unknown => DeckFault::Unknown(number),
        LineFault::Operand => DeckFault::Operand(number),
    }
}

/// What stands before and behind the first line feed, or all and nothing where there is none.
pub fn split_at_line_feed(text: &[u8]) -> (&[u8], &[u8])
    ensures before { result.0.now ≡ before_first (λ b. b == 10) text.now }
    ensures after { result.1.now ≡ after_first (λ b. b == 10) text.now }
    ensures lines { 0 < length text.now → lines_of text.now ≡ result.0.now ∷ lines_of result.1.now }
    ensures shorter { 0 < length text.now → length result.1.now < length text.now }
{
    match position_of_line_feed(text) {
        Some(at) => (&text[..at], &text[at + 1..]),
        None => (text, &text[text.len()..]),
    }
}

fn position_of_line_feed(text: &[u8]) -> Option<usize>
    ensures { result ≡ position (λ b. b == 10) text.now }
{
    text.iter().position(|b| *b == b'\n')
}

// The event that a line spells, if it spells one. It takes no memory: the line's words take the place of those of another.
pub(crate) fn read_line<'a>(
    words: &mut Words<'a>,
    line: &'a [u8],
) -> Result<Option<Event>, LineFault>
    ensures { result ≡ line_read line.now }
{
    let body = without_carriage_return(line);
    if body.len() > LINE_LENGTH {
        return Err(LineFault::TooLong);
    }
    find_words(words, body);
    read_words(words.as_slice())
}

/// A line without the carriage return at its end, if it has one.
pub fn without_carriage_return(line: &[u8]) -> &[u8]
    ensures { result.now ≡ without_return line.now }
{
    match line {
        [body @ .., b'\r'] => body,
        _ => line,
    }
}

// The words of a line, in the place of those of another.
fn find_words<'a>(words: &mut Words<'a>, line: &'a [u8])
    requires { length line.now ≤ 512 }
    ensures { map (λ w. w.now) words.new.items ≡ words_of line.now }
{
    words.clear();
    let found = line
        .split(|byte| *byte == b' ' || *byte == b'\t')
        .filter(|word| !word.is_empty());
    for word in found {
        words.push(word);
    }
}

// The event that these words spell, if they spell one.
fn read_words(words: &[&[u8]]) -> Result<Option<Event>, LineFault>
    ensures { result ≡ words_read (map (λ w. w.now) words.now) }
{
    let [first, operands @ ..] = words else {
        return Ok(None);
    };
    if begins_comment(first) {
        return Ok(None);
    }
    let Some(name) = event_name(first) else {
        return Err(LineFault::Unknown);
    };
    match event(name, operands) {
        Some(event) => Ok(Some(event)),
        None => Err(LineFault::Operand),
    }
}

fn begins_comment(word: &[u8]) -> bool
    ensures { result ≡ is_comment word.now }
{
    match word {
        [first, ..] => *first == b'*',
        [] => false,
    }
}

/// The event of this name, in capitals.
pub fn event_name(word: &[u8]) -> Option<EventName>
    ensures { result ≡ name_of word.now }
{
    if word == &b"ARRIVE"[..] {
        return Some(EventName::Arrive);
    }
    match word {
        b"SIO" => Some(EventName::Sio),
        b"TIO" => Some(EventName::Tio),
        b"HIO" => Some(EventName::Hio),
        b"TCH" => Some(EventName::Tch),
        b"STEP" => Some(EventName::Step),
        b"RUN" => Some(EventName::Run),
        b"INT" => Some(EventName::Int),
        b"RESET" => Some(EventName::Reset),
        b"STORE" => Some(EventName::Store),
        b"KEY" => Some(EventName::Key),
        b"SHOW" => Some(EventName::Show),
        _ => None,
    }
}

// The event of this name and these operands.
fn event(name: EventName, operands: &[&[u8]]) -> Option<Event>
    ensures { result ≡ event_of name (map (λ w. w.now) operands.now) }
{
    match name {
        EventName::Sio => Some(Event::Sio(only_device_address(operands)?)),
        EventName::Tio => Some(Event::Tio(only_device_address(operands)?)),
        EventName::Hio => Some(Event::Hio(only_device_address(operands)?)),
        EventName::Tch => operands.is_empty().then_some(Event::Tch),
        EventName::Step => Some(Event::Step(only_units(operands)?)),
        EventName::Run => Some(Event::Run(most_units(operands)?)),
        EventName::Arrive => Some(Event::Arrive(only_device_address(operands)?)),
        EventName::Int => operands.is_empty().then_some(Event::Interrupt),
        EventName::Reset => operands.is_empty().then_some(Event::Reset),
        EventName::Store => store(operands),
        EventName::Key => set_key(operands),
        EventName::Show => show(operands),
    }
}

// The one operand that there is.
fn only_word<'a>(operands: &[&'a [u8]]) -> Option<&'a [u8]>
    ensures { option_map (λ w. w.now) result ≡ only (map (λ w. w.now) operands.now) }
{
    match operands {
        [word] => Some(*word),
        _ => None,
    }
}

fn only_device_address(operands: &[&[u8]]) -> Option<u16>
    ensures { result ≡ device_address_in (map (λ w. w.now) operands.now) }
{
    device_address(only_word(operands)?)
}

fn only_units(operands: &[&[u8]]) -> Option<u16>
    ensures { result ≡ units_in (map (λ w. w.now) operands.now) }
{
    count(only_word(operands)?, 0, 65535)
}

// How many units a run does at most.
fn most_units(operands: &[&[u8]]) -> Option<u32>
    ensures { result ≡ run_units_in (map (λ w. w.now) operands.now) }
{
    if operands.is_empty() {
        return Some(RUN_UNITS);
    }
    run_units(only_word(operands)?)
}

// A storage address, and bytes in one word or in several.
fn store(operands: &[&[u8]]) -> Option<Event>
    ensures { result ≡ store_of (map (λ w. w.now) operands.now) }
{
    let [address, digits @ ..] = operands else {
        return None;
    };
    let at = storage_address(address)?;
    Some(Event::Store(at, stored_bytes(digits)?))
}

// 1 to 128 bytes, whose digits may stand in several words.
fn stored_bytes(words: &[&[u8]]) -> Option<ArrayVec<u8, 128>>
    ensures { option_map (λ v. v.items) result ≡ stored_bytes_of (joined (map (λ w. w.now) words.now)) }
{
    let mut digits: ArrayVec<u8, 256> = ArrayVec::new();
    for word in words {
        digits.try_extend_from_slice(word).ok()?;
    }
    if digits.len() < 2 {
        return None;
    }
    bytes_of_digits(digits.as_slice())
}

// A storage address and a key.
fn set_key(operands: &[&[u8]]) -> Option<Event>
    ensures { result ≡ two_of set_key_of (map (λ w. w.now) operands.now) }
{
    let [address, key] = operands else {
        return None;
    };
    let at = storage_address(address)?;
    Some(Event::Key(at, storage_key(key)?))
}

// A storage address and how many bytes from there on.
fn show(operands: &[&[u8]]) -> Option<Event>
    ensures { result ≡ two_of show_of (map (λ w. w.now) operands.now) }
{
    let [address, bytes] = operands else {
        return None;
    };
    let at = storage_address(address)?;
    Some(Event::Show(at, show_count(bytes)?))
}

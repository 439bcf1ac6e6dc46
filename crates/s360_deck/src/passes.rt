//! The two passes over the text of a deck that is not kept as a list of events: each line is checked before any event happens, and
//! spelled again when it does.

ghost use Rattle.std.specs.Prelude.{◌≡◌, ◌<◌, ◌∷◌, [], length, IfSome, IfNone};
ghost use Rattle.s360_deck.specs.Deck.{lines_of, events_behind, count_in, events_in_lines};

use crate::fault::DeckFault;
use crate::parsing::{Words, read_line, split_at_line_feed, told_on};
use s360_laws::Event;

// How many events a text in capitals spells. It takes no memory.
pub(crate) fn count_events<'a>(text: &'a [u8]) -> Result<usize, DeckFault>
    ensures { result ≡ count_in (events_behind [] 1 (lines_of text.now)) }
{
    let mut words: Words<'a> = Words::new();
    let mut rest = text;
    let mut number = 1;
    let mut count = 0;
    while !rest.is_empty() {
        let (line, behind) = split_at_line_feed(rest);
        match read_line(&mut words, line) {
            Ok(event) => count += usize::from(event.is_some()),
            Err(fault) => return Err(told_on(fault, number)),
        }
        rest = behind;
        number += 1;
    }
    Ok(count)
}

// The next event that a text in capitals spells, and the lines behind its own. It takes no memory, and goes past lines that spell none.
pub(crate) fn next_event<'a>(words: &mut Words<'a>, text: &'a [u8]) -> Option<(Event, &'a [u8])>
    ensures next { IfSome result (λ found. events_in_lines (lines_of text.now) ≡ found.0 ∷ events_in_lines (lines_of found.1.now)) }
    ensures none { IfNone result (events_in_lines (lines_of text.now) ≡ []) }
    ensures shorter { IfSome result (λ found. length found.1.now < length text.now) }
{
    let mut rest = text;
    while !rest.is_empty() {
        let (line, behind) = split_at_line_feed(rest);
        if let Ok(Some(event)) = read_line(words, line) {
            return Some((event, behind));
        }
        rest = behind;
    }
    None
}

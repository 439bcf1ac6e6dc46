//! The events of a deck happen at a channel one after another, and no list of them is kept.

ghost use Rattle.std.specs.Prelude.{◌≡◌, ◌≤◌, [], map, length, Ok, Err, IfOk, IfErr, OnErr, vec_capacity};
ghost use Rattle.s360_laws.specs.Machine.{Machine};
ghost use Rattle.s360_laws.specs.Seen.{event_seen, answer_seen};
ghost use Rattle.s360_laws.specs.Answered.{AllAnswered};
ghost use Rattle.s360_channel.specs.Channel.{StandsFor};
ghost use Rattle.s360_channel.specs.Lists.{Follows};
ghost use Rattle.s360_deck.specs.Deck.{lines_of, events_of, events_in_lines, IsRead};
ghost use Rattle.s360_deck.specs.Texts.{HasRun};

use crate::fault::DeckFault;
use crate::parsing::Words;
use crate::passes::{count_events, next_event};
use ckd_image::ImageStore;
use s360_channel::Channel;
use s360_laws::{Answer, push_answer};
use std::alloc::Global;

/// A text in capitals that is a deck, and the room for the answers to its events.
#[derive(Drop)]
pub(crate) struct CheckedDeck {
    /// The text.
    pub(crate) capitals: Vec<u8>,
    /// No answer yet.
    pub(crate) answers: Vec<Answer>,
}

/// Drives a channel through the events of the deck that a text is, as `drive` does through a list of them. Each line is read twice: all
/// lines before any event happens, and each again when its own does.
///
/// # Errors
///
/// Those of `parse`, or there is no room for the answers, which is taken first: no event has happened.
pub(crate) fn drive_text<S: ImageStore>(
    alloc: Global,
    channel: &mut Channel<S>,
    text: &[u8],
) -> Result<Vec<Answer>, DeckFault>
    requires { length text.now ≤ 1048576 }
    ensures runs { IfOk result (λ answers. HasRun text.now channel.old channel.new answers.items) }
    ensures faulty { IfErr result (λ fault. IsRead (events_of text.now) (Err fault)) }
    ensures refused { OnErr result (channel.new ≡ channel.old) }
{
    let CheckedDeck {
        capitals,
        mut answers,
    } = check_deck(alloc, text)?;
    react_to_all(channel, capitals.as_slice(), &mut answers);
    Ok(answers)
}

/// Checks each line of a text, and takes the room for all answers.
///
/// # Errors
///
/// Those of `parse`, or there is no room for the answers.
pub(crate) fn check_deck(alloc: Global, text: &[u8]) -> Result<CheckedDeck, DeckFault>
    ensures deck { IfOk result (λ deck. events_of text.now ≡ Ok (events_in_lines (lines_of deck.capitals.items))) }
    ensures none { IfOk result (λ deck. deck.answers.items ≡ []) }
    ensures room { IfOk result (λ deck. length (events_in_lines (lines_of deck.capitals.items)) ≤ vec_capacity deck.answers) }
    ensures faulty { IfErr result (λ fault. IsRead (events_of text.now) (Err fault)) }
{
    let Ok(capitals) = text.to_ascii_uppercase(alloc) else {
        return Err(DeckFault::OutOfMemory);
    };
    let count = count_events(capitals.as_slice())?;
    match Vec::with_capacity(alloc, count) {
        Ok(answers) => Ok(CheckedDeck { capitals, answers }),
        Err(_) => Err(DeckFault::OutOfMemory),
    }
}

// Each event that a text in capitals spells happens and is answered. It takes no memory.
fn react_to_all<'a, S: ImageStore>(
    channel: &mut Channel<S>,
    text: &'a [u8],
    answers: &mut Vec<Answer>,
)
    requires none { answers.old.items ≡ [] }
    requires room { length (events_in_lines (lines_of text.now)) ≤ vec_capacity answers.old }
    ensures follows { (m : Machine) → StandsFor channel.old m
        → Follows m (map event_seen (events_in_lines (lines_of text.now))) (map answer_seen answers.new.items) channel.old channel.new }
    ensures answered { AllAnswered (events_in_lines (lines_of text.now)) answers.new.items }
{
    let mut words: Words<'a> = Words::new();
    let mut rest = text;
    while let Some((event, behind)) = next_event(&mut words, rest) {
        push_answer(answers, channel.react(&event));
        rest = behind;
    }
}

//! The events of a deck happen at a channel as ever, and are watched.

ghost use Rattle.std.specs.Prelude.{◌≡◌, ◌≤◌, [], map, length, Ok, Err, IfOk, IfErr, OnErr, vec_capacity};
ghost use Rattle.s360_laws.specs.Machine.{Machine};
ghost use Rattle.s360_laws.specs.Seen.{event_seen, answer_seen};
ghost use Rattle.s360_laws.specs.Answered.{AllAnswered};
ghost use Rattle.s360_channel.specs.Channel.{StandsFor};
ghost use Rattle.s360_channel.specs.Lists.{Follows};
ghost use Rattle.s360_trace.specs.Looks.{AllWatched};
ghost use Rattle.s360_deck.specs.Deck.{lines_of, events_of, events_in_lines, IsRead};
ghost use Rattle.s360_deck.specs.Texts.{HasRun};
ghost use Rattle.s360_deck.specs.Watched.{WatchesDeck};

use crate::driving::{CheckedDeck, check_deck};
use crate::fault::DeckFault;
use crate::parsing::Words;
use crate::passes::next_event;
use ckd_image::ImageStore;
use s360_channel::Channel;
use s360_laws::{Answer, push_answer};
use s360_trace::{Watcher, watch_event};
use std::alloc::Global;

/// Drives a channel through the events of the deck that a text is as `drive_text` does, with the same promise; the watcher looks at the
/// channel before and behind each event, and behind each unit of a program.
///
/// # Errors
///
/// Those of `drive_text`: the watcher is told nothing.
pub(crate) fn drive_text_watched<S: ImageStore, V: Watcher>(
    alloc: Global,
    channel: &mut Channel<S>,
    text: &[u8],
    watcher: &mut V,
) -> Result<Vec<Answer>, DeckFault>
    requires { length text.now ≤ 1048576 }
    ensures runs { IfOk result (λ answers. HasRun text.now channel.old channel.new answers.items) }
    ensures watched { (m : Machine) → StandsFor channel.old m
        → IfOk result (λ answers. WatchesDeck V.sees text.now channel.old channel.new watcher.old watcher.new) }
    ensures faulty { IfErr result (λ fault. IsRead (events_of text.now) (Err fault)) }
    ensures refused { OnErr result (channel.new ≡ channel.old) }
    ensures unseen { OnErr result (watcher.new ≡ watcher.old) }
{
    let CheckedDeck {
        capitals,
        mut answers,
    } = check_deck(alloc, text)?;
    watch_all(channel, capitals.as_slice(), watcher, &mut answers);
    Ok(answers)
}

// Each event that a text in capitals spells happens, is watched and is answered. It takes no memory.
fn watch_all<'a, S: ImageStore, V: Watcher>(
    channel: &mut Channel<S>,
    text: &'a [u8],
    watcher: &mut V,
    answers: &mut Vec<Answer>,
)
    requires none { answers.old.items ≡ [] }
    requires room { length (events_in_lines (lines_of text.now)) ≤ vec_capacity answers.old }
    ensures follows { (m : Machine) → StandsFor channel.old m
        → Follows m (map event_seen (events_in_lines (lines_of text.now))) (map answer_seen answers.new.items) channel.old channel.new }
    ensures answered { AllAnswered (events_in_lines (lines_of text.now)) answers.new.items }
    ensures watched { (m : Machine) → StandsFor channel.old m
        → AllWatched V.sees (events_in_lines (lines_of text.now)) answers.new.items channel.old channel.new watcher.old watcher.new }
{
    let mut words: Words<'a> = Words::new();
    let mut rest = text;
    while let Some((event, behind)) = next_event(&mut words, rest) {
        push_answer(answers, watch_event(channel, &event, watcher));
        rest = behind;
    }
}

//! A list of events at a channel, with looks between its units.

ghost use Rattle.std.specs.Prelude.{◌≡◌, ◌≤◌, map, true, IfOk, OnErr};
ghost use Rattle.s360_laws.specs.Events as machine;
ghost use Rattle.s360_laws.specs.Machine.{Machine, is_working};
ghost use Rattle.s360_laws.specs.Seen.{event_seen, answer_seen};
ghost use Rattle.s360_laws.specs.Answered.{AllAnswered, IsAnswered};
ghost use Rattle.s360_channel.specs.Channel.{ChannelState, StandsFor};
ghost use Rattle.s360_channel.specs.Lists.{Follows};
ghost use Rattle.s360_trace.specs.Happens.{Happens};
ghost use Rattle.s360_trace.specs.Looks.{Look, AllWatched, IsDone, IsWatched, SeesUnits, SeesWithin, look_at};

use ckd_image::ImageStore;
use s360_channel::{Channel, SubchannelView};
use s360_laws::{Answer, Event, push_answer};
use std::alloc::{AllocError, Global};

/// When a watcher looks.
#[derive(Clone, Copy)]
pub enum Moment<'a> {
    /// This event is about to happen.
    Before(&'a Event),
    /// A unit of the program has been done, and perhaps it was its last.
    Unit,
    /// This event has happened, and was answered so.
    Behind(&'a Event, &'a Answer),
}

/// Who watches a channel. It is lent the channel as it stands, and can change nothing of it.
pub trait Watcher {
    /// What a look makes of it: the watcher before, when it looks, the channel as it stands, and the watcher behind the look. One that
    /// says nothing of this is told all the same.
    ghost sees: { Self → Look → ChannelState → Self → Type 0 } = { λ _ _ _ _. Unit {0} };

    /// Looks at a channel.
    fn look<S: ImageStore>(&mut self, moment: Moment, channel: &Channel<S>)
        ensures { sees self.old (look_at moment.entry) channel.now self.new };
}

/// Drives a channel through a list of events, and answers each, as `s360_channel::drive` does; the watcher looks before each
/// event, behind each unit of a program, and behind each event.
///
/// A step that is watched is so many steps of one unit. How the units of a program are cut into steps does not matter: so the
/// answers and the channel are those of the list that nobody watches, and the promise is the same.
///
/// # Errors
///
/// The room for all answers is taken first; where there is none, no event has happened.
pub fn drive<S: ImageStore, W: Watcher>(
    alloc: Global,
    channel: &mut Channel<S>,
    events: &[Event],
    watcher: &mut W,
) -> Result<Vec<Answer>, AllocError>
    ensures follows { (m : Machine) → StandsFor channel.old m
        → IfOk result (λ answers. Follows m (map event_seen events.now) (map answer_seen answers.items) channel.old channel.new) }
    ensures answered { IfOk result (λ answers. AllAnswered events.now answers.items) }
    ensures watched { (m : Machine) → StandsFor channel.old m
        → IfOk result (λ answers. AllWatched W.sees events.now answers.items channel.old channel.new watcher.old watcher.new) }
    ensures refused { OnErr result (channel.new ≡ channel.old) }
    ensures unseen { OnErr result (watcher.new ≡ watcher.old) }
{
    let mut answers = Vec::with_capacity(alloc, events.len())?;
    for event in events {
        push_answer(&mut answers, watch_event(channel, event, watcher));
    }
    Ok(answers)
}

/// Does what an event asks, and answers it, as `Channel::react` does; the watcher looks before the event, behind each unit of a
/// program, and behind the event. It takes no memory.
pub fn watch_event<S: ImageStore, W: Watcher>(
    channel: &mut Channel<S>,
    event: &Event,
    watcher: &mut W,
) -> Answer
    ensures happens { IsDone (event_seen event.now) (answer_seen result) channel.old channel.new }
    ensures watched { (m : Machine) → StandsFor channel.old m
        → IsWatched W.sees event.now result channel.old channel.new watcher.old watcher.new }
    ensures answered { IsAnswered event.now result }
{
    watcher.look(Moment::Before(event), channel);
    let answer = react(channel, event, watcher);
    watcher.look(Moment::Behind(event, &answer), channel);
    answer
}

// Does what an event asks, and answers it.
fn react<S: ImageStore, W: Watcher>(
    channel: &mut Channel<S>,
    event: &Event,
    watcher: &mut W,
) -> Answer
    ensures happens { (m : Machine) → StandsFor channel.old m
        → Happens (event_seen event.now) m (answer_seen result) channel.old channel.new }
    ensures within { (m : Machine) → StandsFor channel.old m
        → SeesWithin W.sees (event_seen event.now) (answer_seen result) channel.old channel.new watcher.old watcher.new }
    ensures answered { IsAnswered event.now result }
{
    match event {
        Event::Step(units) => Answer::Step(step(channel, u32::from(*units), watcher) as u16),
        Event::Run(units) => Answer::Run(step(channel, *units, watcher)),
        _ => channel.react(event),
    }
}

// A step, unit by unit, until the program ends.
fn step<S: ImageStore, W: Watcher>(channel: &mut Channel<S>, units: u32, watcher: &mut W) -> u32
    ensures happens { (m : Machine) → StandsFor channel.old m
        → Happens (machine.StepBy units) m (machine.Stepped result) channel.old channel.new }
    ensures within { (m : Machine) → StandsFor channel.old m
        → SeesUnits W.sees result channel.old channel.new watcher.old watcher.new }
    ensures most { result ≤ units }
{
    let mut done = 0;
    for _ in 0..units {
        if !runs(channel) {
            return done;
        }
        done += unit(channel);
        watcher.look(Moment::Unit, channel);
    }
    done
}

// One unit of the program that runs.
fn unit<S: ImageStore>(channel: &mut Channel<S>) -> u32
    ensures happens { (m : Machine) → StandsFor channel.old m
        → Happens (machine.StepBy 1) m (machine.Stepped result) channel.old channel.new }
    ensures one { (m : Machine) → StandsFor channel.old m → is_working m.subchannel ≡ true → result ≡ 1 }
    ensures most { result ≤ 1 }
{
    u32::from(channel.step(1))
}

// Whether a program runs.
fn runs<S: ImageStore>(channel: &Channel<S>) -> bool
    ensures { (m : Machine) → StandsFor channel.now m → result ≡ is_working m.subchannel }
{
    matches!(channel.state().subchannel, SubchannelView::Working(_, _))
}

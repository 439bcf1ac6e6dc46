//! Lists of events at a channel.

ghost use Rattle.std.specs.Prelude.{◌≡◌, map, IfOk, OnErr};
ghost use Rattle.s360_laws.specs.Machine.{Machine};
ghost use Rattle.s360_laws.specs.Seen.{event_seen, answer_seen};
ghost use Rattle.s360_channel.specs.Channel.{StandsFor};
ghost use Rattle.s360_laws.specs.Answered.{AllAnswered};
ghost use Rattle.s360_channel.specs.Lists.{Follows};

use crate::channel::Channel;
use ckd_image::ImageStore;
use s360_laws::{Answer, Event, push_answer};
use std::alloc::{AllocError, Global};

/// Drives a channel through a list of events, and answers each.
///
/// Whatever the list: no start is accepted while a program runs; each accepted program's channel end and device end are each
/// stored at most once, and pend until then or a reset; and where no store fails, answers, storage and images are those of the
/// accepted programs run one after another, each cut at its counted unit. Where a store fails the answers go on by the same
/// definitions, and the event that met the failure reports it.
///
/// # Errors
///
/// The room for all answers is taken first; where there is none, no event has happened.
pub fn drive<S: ImageStore>(
    alloc: Global,
    channel: &mut Channel<S>,
    events: &[Event],
) -> Result<Vec<Answer>, AllocError>
    ensures follows { (m : Machine) → StandsFor channel.old m
        → IfOk result (λ answers. Follows m (map event_seen events.now) (map answer_seen answers.items) channel.old channel.new) }
    ensures answered { IfOk result (λ answers. AllAnswered events.now answers.items) }
    ensures refused { OnErr result (channel.new ≡ channel.old) }
{
    let mut answers = Vec::with_capacity(alloc, events.len())?;
    for event in events {
        push_answer(&mut answers, channel.react(event));
    }
    Ok(answers)
}

//! Events and answers as lines.

use crate::channel::answered;
use s360_laws::{Answer, Event};
use stage_files::{Said, Word};

/// Events as lines of a deck, with a bar behind each.
pub(crate) fn say_events(events: &[Event], said: &mut Said) {
    for event in events {
        say_event(event, said);
        said.put("|");
    }
}

// An event as a line of a deck.
fn say_event(event: &Event, said: &mut Said) {
    match event {
        Event::Sio(address) => say_device("SIO", *address, said),
        Event::Tio(address) => say_device("TIO", *address, said),
        Event::Hio(address) => say_device("HIO", *address, said),
        Event::Arrive(address) => say_device("ARRIVE", *address, said),
        event => say_other(event, said),
    }
}

fn say_device(name: &str, address: u16, said: &mut Said) {
    said.answer(name, &[Word::Device(address)]);
}

fn say_other(event: &Event, said: &mut Said) {
    match event {
        Event::Interrupt => said.put("INT"),
        Event::Reset => said.put("RESET"),
        Event::Step(units) => say_units("STEP", *units as u64, said),
        Event::Run(units) => say_units("RUN", *units as u64, said),
        Event::Store(at, bytes) => said.answer(
            "STORE",
            &[Word::Hex(*at as u64), Word::Digits(bytes.as_slice())],
        ),
        Event::Key(at, key) => say_place("KEY", *at, key.get() as u64, said),
        Event::Show(at, count) => say_place("SHOW", *at, count.get() as u64, said),
        _ => said.put("TCH"),
    }
}

fn say_units(name: &str, units: u64, said: &mut Said) {
    said.answer(name, &[Word::Number(units)]);
}

fn say_place(name: &str, at: u32, number: u64, said: &mut Said) {
    said.answer(name, &[Word::Hex(at as u64), Word::Number(number)]);
}

/// Answers as the lines of a deck, with a bar behind each.
pub(crate) fn say_answers(answers: &[Answer], said: &mut Said) {
    for answer in answers {
        answered(answer, said);
        said.put("|");
    }
}

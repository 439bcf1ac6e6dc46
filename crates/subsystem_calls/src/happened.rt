//! What has happened at a moment, with what its call has stored.

use crate::told::ToldMoment;
use s360_laws::{Answer, Condition, Event, Status};
use s360_storage::MainStorage;
use s360_words::{CSW_ADDRESS, Csw};

/// What happens at a moment.
#[derive(Drop)]
pub(crate) enum Happened {
    /// An event is about to.
    Before(Event),
    /// A unit was done.
    Unit,
    /// An event has, and was answered so.
    Behind(Event, Answer),
    /// The trace ends.
    End,
}

/// What happens at a moment of which main storage is told behind it.
pub(crate) fn what_happened<M: MainStorage>(told: &ToldMoment, storage: &M) -> Happened {
    let address = told.address;
    match told.what {
        0 => Happened::Before(Event::Sio(address)),
        1 => Happened::Unit,
        2 => Happened::Behind(
            Event::Sio(address),
            Answer::Sio(address, condition(told.answer, status_in(storage))),
        ),
        3 => Happened::Behind(
            Event::Tio(address),
            Answer::Tio(address, condition(told.answer, csw_in(storage))),
        ),
        4 => Happened::Behind(
            Event::Hio(address),
            Answer::Hio(address, condition(told.answer, status_in(storage))),
        ),
        5 => Happened::Behind(Event::Tch, Answer::Tch(condition(told.answer, ()))),
        _ => beside(told, storage),
    }
}

// The same of what is no instruction.
fn beside<M: MainStorage>(told: &ToldMoment, storage: &M) -> Happened {
    let (address, units) = (told.address, told.answer);
    match told.what {
        6 => stepped(u16::try_from(units).unwrap_or(u16::MAX)),
        7 => Happened::Behind(Event::Run(units), Answer::Run(units)),
        8 => Happened::Behind(
            Event::Arrive(address),
            Answer::Arrive(address, told.answer == 1),
        ),
        9 => Happened::Behind(
            Event::Interrupt,
            Answer::Interrupt(interruption(told, csw_in(storage))),
        ),
        10 => Happened::Behind(Event::Reset, Answer::Reset(lost(told))),
        _ => Happened::End,
    }
}

fn stepped(units: u16) -> Happened {
    Happened::Behind(Event::Step(units), Answer::Step(units))
}

// What an instruction answers with this condition code, and with what it has stored.
fn condition<T: Drop>(code: u32, stored: T) -> Condition<T> {
    match code {
        0 => Condition::Zero,
        1 => Condition::Stored(stored),
        2 => Condition::Two,
        _ => Condition::Three,
    }
}

fn interruption(told: &ToldMoment, csw: Csw) -> Option<(u16, Csw)> {
    if told.answer == 1 {
        Some((told.address, csw))
    } else {
        None
    }
}

fn lost(told: &ToldMoment) -> Option<(u16, u16, u16)> {
    if told.answer == 1 {
        Some((told.address, told.cylinder, told.head))
    } else {
        None
    }
}

// The status that an instruction has stored.
fn status_in<M: MainStorage>(storage: &M) -> Status {
    let csw = csw_in(storage);
    Status {
        unit: csw.unit,
        channel: csw.channel,
    }
}

// The channel status word that stands in storage.
fn csw_in<M: MainStorage>(storage: &M) -> Csw {
    Csw::from_bytes(csw_bytes(storage).unwrap_or([0; 8]))
}

fn csw_bytes<M: MainStorage>(storage: &M) -> Option<[u8; 8]> {
    storage.slice(CSW_ADDRESS, 8)?.try_into().ok()
}

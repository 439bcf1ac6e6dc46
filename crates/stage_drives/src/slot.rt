//! A slot, as it is read, and what records are charged.

use crate::alone::Alone;
use ckd_track::{
    Geometry, TrackView, charge, fits, index_slot, last_charge, r0_charge, read_slot, used, view_at,
};
use stage_files::{Line, MEMORY, Said, Word, yes};
use std::alloc::Global;
use std::mem;

/// What a slot is asked.
#[derive(Clone, Copy)]
pub(crate) enum Asks {
    Slot,
    Parts,
    Index,
    Indexed,
    Used,
    Fits,
}

impl Alone {
    /// Does what a line of the slot asks.
    pub(crate) fn ask_slot(&mut self, alloc: Global, asks: Asks, line: &mut Line) {
        let slot = self.slot.as_slice();
        match asks {
            Asks::Slot => {
                mem::swap(&mut self.slot, &mut line.bytes);
                line.said.ok();
            }
            Asks::Index => index(alloc, slot, false, &mut line.said),
            Asks::Indexed => index(alloc, slot, true, &mut line.said),
            asks => {
                match read_slot(slot) {
                    Ok(view) => ask_view(&view, asks, line),
                    Err(_) if matches!(asks, Asks::Fits) => line.said.no("the slot is not read"),
                    Err(fault) => line.said.refused(&fault),
                }
            }
        }
    }
}

fn ask_view(view: &TrackView, asks: Asks, line: &mut Line) {
    match asks {
        Asks::Parts => say_parts(view, &mut line.said),
        Asks::Used => {
            let used = used(line.model, view);
            line.said.answer("USED", &[Word::Number(used as u64)]);
        }
        _ => say_fits(view, line),
    }
}

/// The record behind which another is to stand; none where that is to be the only one.
pub(crate) fn record_before(line: &Line, at: usize) -> Option<usize> {
    match line.size(at) {
        usize::MAX => None,
        record => Some(record),
    }
}

// The parts of a track.
fn say_parts(view: &TrackView, said: &mut Said) {
    said.answer(
        "PARTS",
        &[
            Word::Number(view.len() as u64),
            Word::Text("HOME"),
            Word::Spelled(view.ha()),
        ],
    );
    for i in 0..view.len() {
        said.answer(
            ";",
            &[
                Word::Spelled(view.count_of(i)),
                Word::Spelled(view.key_of(i)),
                Word::Spelled(view.data_of(i)),
            ],
        );
    }
}

// The table of the places of a slot's records, or their parts by it.
fn index(alloc: Global, slot: &[u8], shows_parts: bool, said: &mut Said) {
    if slot.len() > 65_536 {
        return said.no("a slot has no more than 65536 bytes");
    }
    let Ok(mut table) = vec![in alloc; 7u32; slot.len() / 8 + 1] else {
        return said.no(MEMORY);
    };
    let records = match index_slot(slot, table.as_mut_slice()) {
        Ok(records) => records,
        Err(fault) => return said.refused(&fault),
    };
    if shows_parts {
        return say_parts(&view_at(slot, &table.as_slice()[..records]), said);
    }
    said.answer("INDEX", &[Word::Number(records as u64)]);
    said.debug(&table.as_slice().get(..=records).unwrap_or(&[]));
}

// Whether a record with these lengths fits behind another, or as the only one.
fn say_fits(view: &TrackView, line: &mut Line) {
    let after = record_before(line, 1);
    if let Some(record) = after {
        if view.len() <= record {
            return line.said.no("no such record");
        }
    }
    let fits = fits(line.model, view, after, line.byte(2), line.half(3));
    line.said.answer("FITS", &[yes(fits)]);
}

/// What models, tracks and records are like.
#[derive(Clone, Copy)]
pub(crate) enum Measures {
    Model,
    Track,
    Charge,
}

impl Measures {
    /// Says it.
    pub(crate) fn say(self, line: &mut Line) {
        match self {
            Measures::Model => say_model(line),
            Measures::Track => say_track(line),
            Measures::Charge => say_charge(line),
        }
    }
}

fn say_model(line: &mut Line) {
    let model = line.model;
    line.said.answer(
        "MODEL HEADS",
        &[
            Word::Number(model.heads() as u64),
            Word::Text("CAPACITY"),
            Word::Number(model.capacity() as u64),
            Word::Text("SLOTS"),
            Word::Number(model.slot_size() as u64),
        ],
    );
}

// The number of a track, and how many there are.
fn say_track(line: &mut Line) {
    let geometry = Geometry::new(line.model, line.half(1));
    let (cylinder, head) = (line.half(2), line.half(3));
    if cylinder >= geometry.cylinders || head >= geometry.model.heads() {
        return line.said.no("no such track");
    }
    line.said.answer(
        "TRACK",
        &[
            Word::Number(geometry.track_at(cylinder, head) as u64),
            Word::Text("OF"),
            Word::Number(geometry.tracks() as u64),
        ],
    );
}

fn say_charge(line: &mut Line) {
    let (model, key, data) = (line.model, line.byte(1), line.half(2));
    line.said.answer(
        "CHARGE",
        &[
            Word::Number(charge(model, key, data) as u64),
            Word::Text("LAST"),
            Word::Number(last_charge(model, key, data) as u64),
            Word::Text("FIRST"),
            Word::Number(r0_charge(model, key, data) as u64),
        ],
    );
}

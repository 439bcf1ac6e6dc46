//! What several channels show.

use crate::channels::{Several, Shows};
use crate::shown::{say_drive, say_image, say_state, say_view};
use s360_channels::Selectors;
use stage_drives::{say_key, say_peek};
use stage_files::{FileStore, Line, Said, Word, yes};

/// Shows what is asked of the channels.
pub(crate) fn show(channels: &Several, shows: Shows, line: &mut Line) {
    match shows {
        Shows::Peek => say_peek(
            channels.storage.slice(line.wide(0), line.wide(1)),
            &mut line.said,
        ),
        Shows::Key => say_key(channels.storage.key(line.wide(0)), &mut line.said),
        Shows::Unit => say_drive(channels.selectors.drive(line.half(0)), &mut line.said),
        Shows::Image => say_image(channels.selectors.image(line.half(0)), &mut line.said),
        shows => show_one(&channels.selectors, shows, line.byte(0), &mut line.said),
    }
}

// What is shown by a mask, or by the number of a channel.
fn show_one(channels: &Selectors<FileStore>, shows: Shows, number: u8, said: &mut Said) {
    match shows {
        Shows::Pending => said.answer("PENDING", &[yes(channels.is_pending(number))]),
        Shows::PendingAt => said.answer("PENDING", &[yes(channels.is_pending_at(number))]),
        Shows::Has => said.answer("HAS", &[yes(channels.has(number))]),
        Shows::First => say_first(channels.first_pending(number), said),
        Shows::State => show_state(channels, number, said),
        _ => say_view(channels.program(number), said),
    }
}

// The channel whose interruption would be taken.
fn say_first(number: Option<u8>, said: &mut Said) {
    match number {
        Some(number) => said.answer("FIRST", &[Word::Number(number as u64)]),
        None => said.put("FIRST NONE"),
    }
}

fn show_state(channels: &Selectors<FileStore>, number: u8, said: &mut Said) {
    match channels.state(number) {
        Some(state) => say_state(&state, said),
        None => said.put("NONE"),
    }
}

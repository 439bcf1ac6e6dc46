//! The blocks of one track.

ghost use Rattle.std.specs.Prelude.{◌≡◌, ◌+◌, ◌<◌, ◌==◌, length, position, IfOk};
ghost use Rattle.ckd_track.specs.Track.{track_of, record_in};
ghost use Rattle.dasd_extract.specs.Written.{Writes};
ghost use Rattle.dasd_extract.specs.Blocks.{number_of};
ghost use Rattle.dasd_extract.specs.Walk.{first_block, blocks_from, blocks_or_none, slot_written};

use crate::blocks::{ExtractedForm, number_of, write_block};
use crate::stops::{Cause, Stop, stop_at};
use ckd_track::{TrackView, read_slot};
use std::io;
use std::io::Write;

/// What is written of a track: how, which track of the data set it is, and the number of its first block.
#[derive(Clone, Copy)]
pub(crate) struct Part {
    pub(crate) form: ExtractedForm,
    pub(crate) track: u32,
    pub(crate) number: u8,
}

// The first record of this number.
fn position_of(view: &TrackView, number: u8) -> Option<usize>
    ensures { result ≡ position (λ r. number_of r == number) view.now.records }
{
    for i in 0..view.len() {
        if number_of(view, i) == number {
            return Some(i);
        }
    }
    None
}

// Which record the blocks begin with; number 0 is what stands before the first block.
fn first_block(view: &TrackView, number: u8) -> Option<usize>
    ensures { result ≡ first_block number view.now }
{
    if number == 0 {
        return Some(1);
    }
    position_of(view, number)
}

// Writes the blocks of a track from a record on.
fn write_from<W: Write>(
    writer: &mut W,
    form: ExtractedForm,
    track: u32,
    view: &TrackView,
    first: usize,
) -> io::Result<Option<Stop>>
    ensures { IfOk result (Writes (blocks_from form track view.now first) (W.contents writer.old) (W.contents writer.new)) }
{
    for k in 0..view.len().saturating_sub(first) {
        match write_block(writer, form, track, view, first + k) {
            Ok(Some(stop)) => return Ok(Some(stop)),
            Ok(None) => {}
            Err(fault) => return Err(fault),
        }
    }
    Ok(None)
}

// Writes the blocks of a track that can be read, from that of a number on.
fn write_readable<W: Write>(
    writer: &mut W,
    part: Part,
    view: &TrackView,
) -> io::Result<Option<Stop>>
    ensures { IfOk result (Writes (blocks_or_none part.form part.track part.number view.now (first_block part.number view.now)) (W.contents writer.old)
        (W.contents writer.new)) }
{
    let Part {
        form,
        track,
        number,
    } = part;
    match first_block(view, number) {
        Some(first) => write_from(writer, form, track, view, first),
        None => {
            let cause = Cause::NoBlock(number);
            Ok(Some(stop_at(track, cause)))
        }
    }
}

/// Writes the blocks of the track in a slot, from that of a number on.
pub(crate) fn write_slot<W: Write>(
    writer: &mut W,
    part: Part,
    slot: &[u8],
) -> io::Result<Option<Stop>>
    ensures { IfOk result (Writes (slot_written part.form part.track part.number (track_of slot.now)) (W.contents writer.old) (W.contents writer.new)) }
{
    match read_slot(slot) {
        Ok(view) => write_readable(writer, part, &view),
        Err(fault) => {
            let track = part.track;
            let cause = Cause::Unreadable(fault);
            Ok(Some(stop_at(track, cause)))
        }
    }
}

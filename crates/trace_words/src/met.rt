//! What a command met on its track.

ghost use Rattle.std.specs.Prelude.{Some};
ghost use Rattle.std.specs.Fmt.{WritesOnOk};
ghost use Rattle.trace_words.specs.Tracks.{met_text, record_text, count_text};

use crate::numbers::Bytes;
use ckd_position::Area;
use ckd_track::{DriveModel, capacity_behind, lengths, read_slot};
use std::fmt;

/// An area, with the eight count bytes of its record where they were seen.
#[derive(Clone, Copy)]
pub struct Met {
    /// The area.
    pub area: Area,
    /// The count area of its record.
    pub count: Option<[u8; 8]>,
}

/// The record of the area, and its identifier, key length and data length where they are known.
impl fmt::Display for Met {
    ghost output = { λ m. Some (met_text m) };

    fn fmt<W: fmt::Write>(&self, f: &mut fmt::Formatter<W>) -> fmt::Result {
        match self.area {
            Area::HomeAddress => f.write_str("home address"),
            Area::Of(_, number) => write_record(f, number, &self.count),
        }
    }
}

// Writes the place of a record, and what its count area says, where that was seen.
fn write_record<W: fmt::Write>(
    f: &mut fmt::Formatter<W>,
    number: usize,
    count: &Option<[u8; 8]>,
) -> fmt::Result
    ensures { WritesOnOk W.write_str_gives f.old result (record_text number count.now) f.new }
{
    write!(f, "R{number}")?;
    match count {
        Some(count) => write_count(f, count),
        None => Ok(()),
    }
}

// Writes what a count area says.
fn write_count<W: fmt::Write>(f: &mut fmt::Formatter<W>, count: &[u8; 8]) -> fmt::Result
    ensures { WritesOnOk W.write_str_gives f.old result (count_text count.now) f.new }
{
    let (key, data) = lengths(count);
    let identifier = Bytes(&count[..5]);
    write!(f, " {identifier} KL {key} DL {data}")
}

/// The record of an area, if it is a record's.
pub fn record_of(area: Area) -> Option<usize> {
    match area {
        Area::HomeAddress => None,
        Area::Of(_, number) => Some(number),
    }
}

/// The count area of an area's record on the track that a slot spells.
pub fn count_in(slot: &[u8], area: Area) -> Option<[u8; 8]> {
    let number = record_of(area)?;
    let Ok(track) = read_slot(slot) else {
        return None;
    };
    if number >= track.len() {
        return None;
    }
    track.count_of(number).first_chunk::<8>().copied()
}

/// The key of an area's record on the track that a slot spells, with the record's number, if it has one there.
pub fn key_in<'a>(slot: &'a [u8], area: Area) -> Option<(usize, &'a [u8])> {
    let number = record_of(area)?;
    let Ok(track) = read_slot(slot) else {
        return None;
    };
    if number >= track.len() {
        return None;
    }
    Some((number, track.key_of(number)))
}

/// What the records of the track that a slot spells leave of it behind this one, where others follow them.
pub fn room_behind(slot: &[u8], number: usize, model: DriveModel) -> Option<u32> {
    let Ok(track) = read_slot(slot) else {
        return None;
    };
    if number >= track.len() {
        return None;
    }
    capacity_behind(model, &track, Some(model.capacity()), 0, number + 1)
}

//! The next area of a kind.

ghost use Rattle.std.specs.Prelude.{◌≡◌, ◌<◌, length};
ghost use Rattle.ckd_track.specs.Track.{record_in};
ghost use Rattle.ckd_position.specs.Areas.{IfFound, IsOnTrack, has_key, is_behind, next_of_kind};
ghost use Rattle.ckd_position.specs.Looks.{part_on, records_begun, key_record, data_record, next_key_from};

use crate::areas::{Area, Kind, Next, Position, RecordPart};
use ckd_track::TrackView;

/// The next area of this kind behind the position, on the same turn of the track.
///
/// A position that the track does not have lies where it would: behind a record that is not there nothing follows.
#[inline(always)]
#[tactic(auto, using(crate::proofs::NextOfKind::next_areas))]
pub fn next_area(view: &TrackView, position: Position, kind: Kind) -> Next
    ensures next { result ≡ next_of_kind view.now position kind }
    ensures on_track { IfFound result (IsOnTrack view.now) }
{
    match kind {
        Kind::HomeAddress => match position {
            Position::AtIndex => Next::Found(Area::HomeAddress),
            Position::At(_) => Next::IndexPassed,
        },
        Kind::AnyCount => part_of(view, RecordPart::Count, records_begun(view, position)),
        Kind::FirstCount => match records_begun(view, position) {
            0 => part_of(view, RecordPart::Count, 0),
            _ => Next::IndexPassed,
        },
        Kind::LaterCount => part_of(
            view,
            RecordPart::Count,
            records_begun(view, position).max(1),
        ),
        Kind::Key => next_key(view, key_record(view, position)),
        Kind::Data => part_of(view, RecordPart::Data, data_record(view, position)),
        Kind::KeyAndData => part_of(view, RecordPart::Data, key_record(view, position)),
        Kind::FirstData => {
            if is_first_data_behind(position) {
                part_of(view, RecordPart::Data, 1)
            } else {
                Next::IndexPassed
            }
        }
    }
}

/// How many of the track's records have begun to pass.
fn records_begun(view: &TrackView, position: Position) -> usize
    ensures { result ≡ records_begun view.now position }
{
    match position {
        Position::At(Area::Of(_, number)) if number < view.len() => number + 1,
        Position::At(Area::Of(_, _)) => view.len(),
        _ => 0,
    }
}

/// The record of which no more than the count area has passed: the one whose count area passed last, or else the first
/// one behind record 0.
fn key_record(view: &TrackView, position: Position) -> usize
    ensures { result ≡ key_record view.now position }
{
    match position {
        Position::At(Area::Of(RecordPart::Count, number)) => number,
        _ => records_begun(view, position).max(1),
    }
}

/// The record whose data area has not passed: the one whose count or key area passed last, or else the first one behind
/// record 0.
fn data_record(view: &TrackView, position: Position) -> usize
    ensures { result ≡ data_record view.now position }
{
    match position {
        Position::At(Area::Of(RecordPart::Count | RecordPart::Key, number)) => number,
        _ => records_begun(view, position).max(1),
    }
}

/// Whether the data area of record 1 lies behind the position, if the track has that record.
fn is_first_data_behind(position: Position) -> bool
    ensures { result ≡ is_behind position (Area.Of RecordPart.Data 1) }
{
    match position {
        Position::At(Area::Of(RecordPart::Data, number)) => number == 0,
        Position::At(Area::Of(RecordPart::Count | RecordPart::Key, number)) => number <= 1,
        Position::At(Area::HomeAddress) | Position::AtIndex => true,
    }
}

/// This part of the record of this number, if the track has that record.
fn part_of(view: &TrackView, part: RecordPart, number: usize) -> Next
    ensures next { result ≡ part_on view.now part number }
    ensures on_track { IfFound result (IsOnTrack view.now) }
{
    if number < view.len() {
        Next::Found(Area::Of(part, number))
    } else {
        Next::IndexPassed
    }
}

/// Whether a record of the track has a key area.
fn has_key(view: &TrackView, number: usize) -> bool
    requires { number < length view.now.records }
    ensures { result ≡ has_key (record_in view.now number) }
{
    !view.key_of(number).is_empty()
}

/// The key area of the first record that has one, from this record on.
// In line, since a search for a key asks it for each record that it passes by.
#[inline(always)]
#[tactic(auto, using(crate::proofs::Walk::next_key_here, crate::proofs::Walk::next_key_later, crate::proofs::Walk::no_key_past))]
fn next_key(view: &TrackView, from: usize) -> Next
    ensures next { result ≡ next_key_from view.now from }
    ensures on_track { IfFound result (IsOnTrack view.now) }
{
    for number in from..view.len() {
        if has_key(view, number) {
            return Next::Found(Area::Of(RecordPart::Key, number));
        }
    }
    Next::IndexPassed
}

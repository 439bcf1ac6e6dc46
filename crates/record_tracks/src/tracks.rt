//! How many records a track has room for, and on which track each of them stands.

ghost use Rattle.std.specs.Prelude.{◌≡◌, ◌≤◌, ◌+◌, ◌<◌, drop, length, All};
ghost use Rattle.dasd_extract.specs.declared.blocks.ExtractedForm.{ExtractedForm};
ghost use Rattle.record_tracks.specs.Records.{all_areas, RecordGoesOn};
ghost use Rattle.record_tracks.specs.Tracks.{fitting_on, Takes, StandsAt};
ghost use Rattle.record_tracks.specs.ReadBack.{IsReadBack, IsReadAsData};

use crate::records::{NewRecord, charge_for, last_charge_for};
use ckd_track::DriveModel;

/// Where a record stands.
#[derive(Clone, Copy)]
pub struct RecordPlace {
    /// Its track, the first being 0.
    pub track: usize,
    /// Its number on the track, the first being 1.
    pub number: u8,
}

/// How many records go on a track from one of them on.
pub(crate) fn fitting(model: DriveModel, blocks: &[NewRecord], from: usize) -> usize
    requires each { All (RecordGoesOn model) blocks.now }
    requires number { from ≤ length blocks.now }
    ensures count { result ≡ fitting_on model (drop from (all_areas blocks.now)) }
    ensures within { from + result ≤ length blocks.now }
{
    let mut taken = 0;
    let left = blocks.len() - from;
    for k in 0..left {
        let block = blocks[from + k];
        if taken + last_charge_for(model, block) > model.capacity() {
            return k;
        }
        taken += charge_for(model, block);
    }
    left
}

/// How many tracks the records take: each track has as many as it has room for, as a drive of this model would find it at Write Count, Key
/// and Data.
pub fn tracks_needed(model: DriveModel, blocks: &[NewRecord]) -> usize
    requires each { All (RecordGoesOn model) blocks.now }
    ensures tracks { Takes model (all_areas blocks.now) result }
    ensures read { IsReadBack model (all_areas blocks.now) }
    ensures stored { (form : ExtractedForm) → IsReadAsData form model (all_areas blocks.now) }
{
    let mut next = 0;
    let mut tracks = 0;
    while next < blocks.len() {
        next += fitting(model, blocks, next);
        tracks += 1;
    }
    tracks
}

/// Where a record stands: on which of the tracks, and with which number.
pub fn place_of(model: DriveModel, blocks: &[NewRecord], number: usize) -> RecordPlace
    requires each { All (RecordGoesOn model) blocks.now }
    requires number { number < length blocks.now }
    ensures { StandsAt model (all_areas blocks.now) number result.track result.number }
{
    let mut next = 0;
    let mut track = 0;
    let mut behind = fitting(model, blocks, 0);
    while behind <= number {
        next = behind;
        behind += fitting(model, blocks, next);
        track += 1;
    }
    RecordPlace {
        track,
        number: (number + 1 - next) as u8,
    }
}

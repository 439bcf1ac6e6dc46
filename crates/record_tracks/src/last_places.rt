//! Where the records of a data set end.

ghost use Rattle.std.specs.Prelude.{◌≡◌, ◌≤◌, ◌-◌, length, take, All};
ghost use Rattle.record_tracks.specs.Records.{all_areas, RecordGoesOn, balance_behind};
ghost use Rattle.record_tracks.specs.Tracks.{left_behind, StandsAt};

use crate::records::{NewRecord, balance_behind};
use crate::tracks::{RecordPlace, place_of};
use ckd_track::DriveModel;

/// Where the last of some records stands, and what is left behind it: what the label of a data set says of its last block.
#[derive(Clone, Copy)]
pub struct LastPlace {
    /// Its track, the first being 0.
    pub track: usize,
    /// Its number on the track, the first being 1; 0 where there is no record.
    pub number: u8,
    /// How many bytes of the track's capacity are left behind it.
    pub balance: u16,
}

/// Where the last of the first records stands, as many as that: on which of the tracks, with which number, and how many bytes that track has
/// left behind it. Of none of them that is what stands before the first: number 0 of the first track, which has its whole capacity left.
pub fn last_place(model: DriveModel, records: &[NewRecord], count: usize) -> LastPlace
    requires each { All (RecordGoesOn model) records.now }
    requires count { count ≤ length records.now }
    ensures track { count ≡ 0 → result.track ≡ 0 }
    ensures number { count ≡ 0 → result.number ≡ 0 }
    ensures place { 1 ≤ count → StandsAt model (all_areas records.now) (count - 1) result.track result.number }
    ensures balance { result.balance ≡ balance_behind model (take result.number (left_behind model (all_areas records.now) result.track)) }
{
    if count == 0 {
        return LastPlace {
            track: 0,
            number: 0,
            balance: balance_behind(model, &[]),
        };
    }
    let RecordPlace { track, number } = place_of(model, records, count - 1);
    let first = count - usize::from(number);
    LastPlace {
        track,
        number,
        balance: balance_behind(model, &records[first..count]),
    }
}

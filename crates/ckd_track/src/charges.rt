//! What records take of a track's capacity.
//!
//! A key length (KL) is a number of bytes from 0 to 255, a data length (DL) one from 0 to 65,535. Charges are in bytes.

ghost use Rattle.std.specs.Prelude.{◌≡◌, ◌≤◌, ◌<◌, ◌+◌, ◌-◌, ◌^◌, List, min, length, take, IsTrue};
ghost use Rattle.std.specs.Option.{ForSome};
ghost use Rattle.ckd_track.specs.Model.{capacity_of};
ghost use Rattle.ckd_track.specs.Track.{Record, record_in};
ghost use Rattle.ckd_track.specs.Changes.{kept_records};
ghost use Rattle.ckd_track.specs.Charges.{key_overhead_of, charge_of, last_charge_of, r0_charge_of, charge_at, capacity_left, used_of, has_room, LeavesRoom};
ghost use Rattle.ckd_track.specs.Charges.{IsNoEndMark};

use crate::model::DriveModel;
use crate::view::TrackView;
use crate::walk::{RECORDS_START, lengths};

/// What a key area adds to a record's charge.
fn key_overhead(model: DriveModel, kl: u8) -> u32
    ensures { result ≡ key_overhead_of model kl }
{
    match model {
        _ if kl == 0 => 0,
        DriveModel::D2311 => 20,
        DriveModel::D2314 => 45,
    }
}

/// What a record takes that others follow on its track.
pub fn charge(model: DriveModel, kl: u8, dl: u16) -> u32
    ensures { result ≡ charge_of model kl dl }
{
    let body = u32::from(kl) + u32::from(dl);
    match model {
        DriveModel::D2311 => 61 + key_overhead(model, kl) + body * 537 / 512,
        DriveModel::D2314 => 101 + key_overhead(model, kl) + body * 2137 / 2048,
    }
}

/// What the last record of a track takes.
pub fn last_charge(model: DriveModel, kl: u8, dl: u16) -> u32
    ensures { result ≡ last_charge_of model kl dl }
{
    u32::from(kl) + u32::from(dl) + key_overhead(model, kl)
}

/// What record 0 takes, also where it is the last: its charge less that of the usual record 0, which has no key and
/// eight bytes of data, and never below 0.
pub fn r0_charge(model: DriveModel, kl: u8, dl: u16) -> u32
    ensures { result ≡ r0_charge_of model kl dl }
{
    charge(model, kl, dl).saturating_sub(charge(model, 0, 8))
}

/// What record `i` of a track takes, where others follow it.
fn kept_charge(model: DriveModel, view: &TrackView, i: usize) -> u32
    requires { i < length view.now.records }
    ensures { result ≡ charge_at model i (record_in view.now i) }
{
    let (kl, dl) = lengths(view.count_of(i));
    if i == 0 {
        r0_charge(model, kl, dl)
    } else {
        charge(model, kl, dl)
    }
}

/// What the first `to` records of a track leave of the capacity, where others follow them, worked out from what the first
/// `from` leave; `None` where they take more.
#[tactic(auto, using(crate::proofs::ChargeLaws::none_behind))]
pub fn capacity_behind(
    model: DriveModel,
    view: &TrackView,
    left: Option<u32>,
    from: usize,
    to: usize,
) -> Option<u32>
    requires order { from ≤ to }
    requires there { to ≤ length view.now.records }
    requires left { left ≡ capacity_left model (take from view.now.records) }
    ensures { result ≡ capacity_left model (take to view.now.records) }
{
    let mut rest = left?;
    for i in from..to {
        rest = rest.checked_sub(kept_charge(model, view, i))?;
    }
    Some(rest)
}

/// Whether what so many kept records leave of the capacity is enough for a new record with these lengths: as the last one,
/// or as R0 where none is kept.
pub fn fits_behind(model: DriveModel, kept: usize, left: Option<u32>, kl: u8, dl: u16) -> bool
    ensures { (rs : List Record) → length rs ≡ kept → left ≡ capacity_left model rs → result ≡ has_room model rs kl dl }
{
    let Some(left) = left else {
        return false;
    };
    if kept == 0 {
        return r0_charge(model, kl, dl) <= left;
    }
    last_charge(model, kl, dl) <= left
}

/// What the records of a track take together, the last one as last and R0 by its own rule; 0 where there is none, and
/// `u32::MAX` where they take more.
pub fn used(model: DriveModel, view: &TrackView) -> u32
    ensures { result ≡ min (used_of model view.now.records) (2 ^ 32 - 1) }
{
    let Some(last) = view.len().checked_sub(1) else {
        return 0;
    };
    let mut used: u32 = 0;
    for i in 0..last {
        used = used.saturating_add(kept_charge(model, view, i));
    }
    let (kl, dl) = lengths(view.count_of(last));
    let new = if last == 0 {
        r0_charge(model, kl, dl)
    } else {
        last_charge(model, kl, dl)
    };
    used.saturating_add(new)
}

/// Whether a track has room for a new record with these lengths: behind record `after`, with records 0 to `after` kept
/// and those behind it gone, or as the only record, R0, where `after` is `None`.
///
/// What the kept records take, R0 by its own rule and the others as not last, and what the new one takes as the last,
/// or as R0, is then together at most the model's capacity.
pub fn fits(model: DriveModel, view: &TrackView, after: Option<usize>, kl: u8, dl: u16) -> bool
    requires { ForSome after (λ i. i < length view.now.records) }
    ensures value { result ≡ has_room model (kept_records after view.now) kl dl }

    // A slot that has 37 bytes more than the capacity then has room for the changed track.
    ensures room { IsTrue result → LeavesRoom (capacity_of model + 37) after kl dl view.now }
    // Eight bytes FF, the end mark, never fit.
    ensures no_end_mark { IsTrue result → IsNoEndMark kl dl }
{
    // what the changed track is spelled in begins with the home address
    prove!(view.ha().len() == RECORDS_START);
    match after {
        None => r0_charge(model, kl, dl) <= model.capacity(),
        Some(last) => {
            prove!(last < view.len());
            let left = capacity_behind(model, view, Some(model.capacity()), 0, last + 1);
            fits_behind(model, last + 1, left, kl, dl)
        }
    }
}

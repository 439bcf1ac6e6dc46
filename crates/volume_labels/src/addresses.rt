//! Relative track addresses over the extents of a data set.

ghost use Rattle.std.specs.Prelude.{◌≡◌, ◌<◌, ◌≤◌, ◌+◌, ◌-◌, ◌*◌, true};
ghost use Rattle.volume_labels.specs.Addresses.{is_unused, is_split, is_in_order, is_run, number_of_track, heads_in, tracks_of_extent, split_track, track_in};
ghost use Rattle.volume_labels.specs.Addresses.{track_of, step_over};

use crate::{Extent, TrackAddress};

/// The type of an extent that shares its cylinders with others (IBM System/360 Operating System, System Control Blocks, 'Data Set
/// Control Block', DS1EXT1).
const SPLIT: u8 = 0x80;

/// Where a track of a data set is on its volume.
#[derive(Clone, Copy)]
pub enum TrackPlace {
    /// The number of the track on the volume, cylinder by cylinder and head by head. A volume need not have such a track.
    Track(u32),
    /// The extents have fewer tracks.
    PastEnd,
    /// An extent before it names a head that the drive has not, or ends before it begins: a split one in its cylinders or in its heads.
    BadExtent,
}

// What an extent makes of a search: an answer, or how many tracks are left to pass.
#[derive(Clone, Copy)]
enum Step {
    Found(TrackPlace),
    Left(u32),
}

// Whether an extent gives no tracks to the relative addresses: there is none, or it holds user labels.
fn is_unused(extent: Extent) -> bool
    ensures { result ≡ is_unused extent }
{
    extent.kind == 0 || extent.kind == 0x40
}

// The number of a track on its volume.
fn number_of_track(heads: u8, track: TrackAddress) -> u32
    ensures value { result ≡ number_of_track heads track }
    ensures limit { result < 16777216 + 65536 }
{
    track.cylinder as u32 * heads as u32 + track.head as u32
}

/// Whether an extent shares its cylinders with others, and has of each the heads from its first one to its last one.
pub fn is_split(extent: Extent) -> bool
    ensures { result ≡ is_split extent }
{
    extent.kind == SPLIT
}

// Whether an extent does not end before it begins.
fn is_in_order(heads: u8, extent: Extent) -> bool
    ensures { result ≡ is_in_order heads extent }
{
    let Extent { first, last, .. } = extent;
    if is_split(extent) {
        return first.cylinder <= last.cylinder && first.head <= last.head;
    }
    number_of_track(heads, first) <= number_of_track(heads, last)
}

/// Whether an extent is a run of tracks of a drive with so many heads, or one on each of its cylinders.
pub fn is_run(heads: u8, extent: Extent) -> bool
    ensures { result ≡ is_run heads extent }
{
    extent.first.head < heads as u16
        && extent.last.head < heads as u16
        && is_in_order(heads, extent)
}

// How many heads of each cylinder a split extent has.
fn heads_in(extent: Extent) -> u32
    requires order { extent.first.head ≤ extent.last.head }
    ensures value { result ≡ heads_in extent }
{
    extent.last.head as u32 + 1 - extent.first.head as u32
}

/// How many tracks an extent has.
pub fn tracks_of_extent(heads: u8, extent: Extent) -> u32
    requires { is_run heads extent ≡ true }
    ensures { result ≡ tracks_of_extent heads extent }
{
    let Extent { first, last, .. } = extent;
    if is_split(extent) {
        return (last.cylinder as u32 + 1 - first.cylinder as u32) * heads_in(extent);
    }
    number_of_track(heads, last) + 1 - number_of_track(heads, first)
}

// Track n of a split extent.
fn split_track(extent: Extent, n: u32) -> TrackAddress
    requires order { extent.first.head ≤ extent.last.head }
    requires within { n < (extent.last.cylinder + 1 - extent.first.cylinder) * heads_in extent }
    ensures { result ≡ split_track extent n }
{
    let heads = heads_in(extent);
    TrackAddress {
        cylinder: extent.first.cylinder + (n / heads) as u16,
        head: extent.first.head + (n % heads) as u16,
    }
}

/// The number on the volume of track n of an extent, from 0 on.
pub fn track_in(heads: u8, extent: Extent, n: u32) -> u32
    requires run { is_run heads extent ≡ true }
    requires within { n < tracks_of_extent heads extent }
    ensures { result ≡ track_in heads extent n }
{
    if is_split(extent) {
        return number_of_track(heads, split_track(extent, n));
    }
    number_of_track(heads, extent.first) + n
}

// Passes over an extent.
fn step_over(heads: u8, extent: Extent, left: u32) -> Step
    ensures { result ≡ step_over heads extent left }
{
    if is_unused(extent) {
        return Step::Left(left);
    }
    if !is_run(heads, extent) {
        return Step::Found(TrackPlace::BadExtent);
    }
    let tracks = tracks_of_extent(heads, extent);
    if left < tracks {
        Step::Found(TrackPlace::Track(track_in(heads, extent, left)))
    } else {
        Step::Left(left - tracks)
    }
}

/// Where a track of a data set is on a volume of a drive with so many heads: its tracks are numbered from 0 on over its extents,
/// in the order that these are given (IBM System/360 Operating System, Data Management Services, 'Relative Track Address').
pub fn track_of(heads: u8, extents: &[Extent], relative: u32) -> TrackPlace
    ensures { result ≡ track_of heads extents.now relative }
{
    let mut left = relative;
    for extent in extents {
        match step_over(heads, *extent, left) {
            Step::Found(place) => return place,
            Step::Left(less) => left = less,
        }
    }
    TrackPlace::PastEnd
}

//! Units of a channel program until something happens for which its caller waits, and what they came to.

ghost use Rattle.std.specs.Prelude.{◌≡◌, ◌+◌, ◌<◌, ◌≤◌, None, length};
ghost use Rattle.s360_storage.specs.Kept.{KeepsStorage};
ghost use Rattle.s360_channels.specs.Channels.{OnChannel};
ghost use Rattle.s360_channels.specs.Selectors.{across};
ghost use Rattle.dasd_subsystem.specs.Shown.{numbers_of};
ghost use Rattle.dasd_subsystem.specs.Until.{AreFew, UntilTo, byte_of, happened, is_any, no_counts, nothing, told_of, until_of, with_unit};
ghost use Rattle.dasd_subsystem.specs.Until.{bit, with_stored};

use crate::glances::{
    Glance, asks, changes_cylinder, changes_track, crossed, moves_byte, passes_index, stores_byte,
};
use crate::shown::seen;
use crate::watched::place_of;
use ckd_image::ImageStore;
use s360_channel::SubchannelView;
use s360_channels::Selectors;
use s360_storage::MainStorage;

/// What a caller waits for, and what of it happened in a unit.
#[derive(Clone, Copy)]
pub struct Until {
    /// An interruption was asked for, where none was that is not yet taken.
    pub asked: bool,
    /// The arm is at another cylinder.
    pub cylinder: bool,
    /// The arm is at another cylinder, or another head is selected.
    pub track: bool,
}

impl Until {
    /// The bits of a byte: 1 an interruption, 2 another cylinder, 4 another track; none where another bit is on.
    pub fn of_byte(byte: u8) -> Option<Until>
        ensures { result ≡ until_of byte }
    {
        if byte >= 8 {
            return None;
        }
        Some(Until {
            asked: byte % 2 == 1,
            cylinder: byte / 2 % 2 == 1,
            track: byte / 4 == 1,
        })
    }

    fn byte(self) -> u8
        ensures { result ≡ byte_of self }
    {
        bit(1, self.asked) + bit(2, self.cylinder) + bit(4, self.track)
    }

    fn nothing() -> Until
        ensures { result ≡ nothing }
    {
        Until {
            asked: false,
            cylinder: false,
            track: false,
        }
    }

    fn is_any(self) -> bool
        ensures { result ≡ is_any self }
    {
        self.asked || self.cylinder || self.track
    }

    // What of this happened in a unit.
    fn happened(self, before: &Glance, behind: &Glance) -> Until
        ensures { result ≡ happened self before.now behind.now }
    {
        Until {
            asked: self.asked && asks(before, behind),
            cylinder: self.cylinder && changes_cylinder(before, behind),
            track: self.track && changes_track(before, behind),
        }
    }
}

fn bit(weight: u8, on: bool) -> u8
    ensures bit { result ≡ bit weight on }
    ensures most { result ≤ weight }
{
    if on { weight } else { 0 }
}

/// What units came to.
#[derive(Clone, Copy)]
pub struct Counts {
    /// How many cylinders the arm crossed, in all its moves.
    pub cylinders: u64,
    /// How many units were done.
    pub units: u32,
    /// How many bytes moved between drive and channel.
    pub bytes: u32,
    /// How often the index passed.
    pub indexes: u32,
    /// How many bytes were stored.
    pub stored: u32,
    /// The lowest address that was stored into.
    pub low: u32,
    /// The highest.
    pub high: u32,
}

impl Counts {
    fn none() -> Counts
        ensures { result ≡ no_counts }
    {
        Counts {
            cylinders: 0,
            units: 0,
            bytes: 0,
            indexes: 0,
            stored: 0,
            low: 0,
            high: 0,
        }
    }

    // A unit more.
    fn add(&mut self, before: &Glance, behind: &Glance)
        requires few { AreFew self.old }
        requires more { self.old.units < 4294967295 }
        ensures adds { self.new ≡ with_unit self.old before.now behind.now }
        ensures few { AreFew self.new }
        ensures units { self.new.units ≡ self.old.units + 1 }
    {
        self.cylinders += u64::from(crossed(before, behind));
        self.units += 1;
        self.bytes += u32::from(bit(1, moves_byte(before, behind)));
        self.indexes += u32::from(bit(1, passes_index(before, behind)));
        if stores_byte(before, behind) {
            self.store(place_of(before.work));
        }
    }

    fn store(&mut self, address: u32)
        requires { self.old.stored < 4294967295 }
        ensures { self.new ≡ with_stored self.old address }
    {
        if self.stored == 0 || address < self.low {
            self.low = address;
        }
        if self.stored == 0 || self.high < address {
            self.high = address;
        }
        self.stored += 1;
    }
}

/// What came of units: how many were done and what they came to, the subchannel behind them, and why they ended there.
#[repr(C)]
#[derive(Clone, Copy)]
pub struct RunProgress {
    /// How many cylinders the arm crossed, in all its moves.
    pub cylinders: u64,
    /// How many units were done.
    pub units: u32,
    /// How many bytes moved between drive and channel.
    pub bytes: u32,
    /// How often the index passed.
    pub indexes: u32,
    /// How many of the bytes were stored into main storage.
    pub stored: u32,
    /// The lowest address that was stored into; 0 where none was.
    pub low: u32,
    /// The highest.
    pub high: u32,
    /// The subchannel: 0 available, 1 the program goes on, 2 it has ended.
    pub subchannel: u8,
    /// The low byte of its device's address.
    pub device: u8,
    /// Whether an interruption is asked for and not yet taken, 1 or 0.
    pub asked: u8,
    /// The bits of what happened in the last unit, of what was waited for.
    pub stopped: u8,
    /// 0.
    pub reserved: [u8; 4],
}

fn told(counts: &Counts, subchannel: SubchannelView, stopped: Until) -> RunProgress
    ensures { result ≡ told_of counts.now (numbers_of subchannel) stopped }
{
    let (subchannel, device, asked) = seen(subchannel);
    RunProgress {
        cylinders: counts.cylinders,
        units: counts.units,
        bytes: counts.bytes,
        indexes: counts.indexes,
        stored: counts.stored,
        low: counts.low,
        high: counts.high,
        subchannel,
        device,
        asked,
        stopped: stopped.byte(),
        reserved: [0, 0, 0, 0],
    }
}

/// Units of a channel's program, and behind which it ends.
#[derive(Clone, Copy)]
pub struct Wanted {
    /// The number of the channel.
    pub channel: u8,
    /// How many units are done at most.
    pub units: u32,
    /// What is waited for.
    pub until: Until,
}

/// Lets the program of a channel do units until one of them is what its caller waits for, until it ends, or until so many are done; none
/// where there is no such channel.
pub fn run_until<S: ImageStore, M: MainStorage>(
    channels: &mut Selectors<S>,
    storage: &mut M,
    wanted: Wanted,
) -> Option<RunProgress>
    requires size { length (M.holds storage.old).bytes ≡ channels.old.size }
    ensures does { OnChannel wanted.channel (UntilTo wanted result) (result ≡ None) (across channels.old (M.holds storage.old))
        (across channels.new (M.holds storage.new)) }
    ensures same { channels.new.size ≡ channels.old.size }
    ensures keeps { KeepsStorage (M.holds storage.old) (M.holds storage.new) }
    ensures place { M.place storage.new ≡ M.place storage.old }
{
    let Some(mut before) = Glance::first(channels, wanted.channel) else {
        return None;
    };
    let mut counts = Counts::none();
    let mut stopped = Until::nothing();
    for _ in 0..wanted.units {
        if !before.runs() || stopped.is_any() {
            return Some(told(&counts, before.subchannel, stopped));
        }
        let Some(behind) = Glance::behind(channels, storage, wanted.channel) else {
            return None;
        };
        counts.add(&before, &behind);
        stopped = wanted.until.happened(&before, &behind);
        before = behind;
    }
    Some(told(&counts, before.subchannel, stopped))
}

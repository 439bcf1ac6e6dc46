//! What is seen of a channel between two units of its program, and what a unit did, by what is seen before it and behind it.

ghost use Rattle.std.specs.Prelude.{◌≡◌, None, length, option_map};
ghost use Rattle.s360_words.specs.Storage.{Storage as StorageState};
ghost use Rattle.s360_storage.specs.Kept.{KeepsStorage};
ghost use Rattle.s360_channels.specs.Channels.{OnChannel, channel_at};
ghost use Rattle.s360_channels.specs.Selectors.{across};
ghost use Rattle.dasd_subsystem.specs.Glances.{SeesAt, SeesWorkAt, UnitTo, asks, changes_cylinder, changes_track, crossed, cylinder_in};
ghost use Rattle.dasd_subsystem.specs.Glances.{gives_in, has_unit_check, head_in, is_asked, is_looking, moves_byte, passed_in, passes_index};
ghost use Rattle.dasd_subsystem.specs.Glances.{runs, senses_index, stores_byte, work_seen, phase_seen};

use crate::shown::seen;
use crate::watched::word_of;
use bitflags::Flags;
use ckd_drive::{Drive, Phase};
use ckd_image::ImageStore;
use s360_channel::{DriveView, SubchannelView, Watched};
use s360_channels::Selectors;
use s360_program::view::AtWork;
use s360_storage::MainStorage;
use s360_words::UnitStatus;

/// What is seen of a channel between two units.
#[derive(Clone, Copy)]
pub struct Glance {
    /// The subchannel.
    pub subchannel: SubchannelView,
    /// What the next unit of its program does; a fetch, where none runs.
    pub work: AtWork,
    /// How far the drive at work is with its command.
    pub phase: Phase,
    /// The drive of the device that has the subchannel.
    pub drive: Option<DriveView>,
}

impl Glance {
    /// What is seen of the channel with this number; none where there is no such channel.
    pub(crate) fn first<S: ImageStore>(channels: &Selectors<S>, number: u8) -> Option<Glance>
        ensures { (s : StorageState) → SeesAt result s (channel_at number (across channels.now s)) }
    {
        let view = channels.state(number)?;
        Some(glance_at(channels, number, view.subchannel))
    }

    /// What is seen of it behind a unit more, if its program runs.
    pub(crate) fn behind<S: ImageStore, M: MainStorage>(
        channels: &mut Selectors<S>,
        storage: &mut M,
        number: u8,
    ) -> Option<Glance>
        requires size { length (M.holds storage.old).bytes ≡ channels.old.size }
        ensures does { OnChannel number (UnitTo result) (result ≡ None) (across channels.old (M.holds storage.old))
            (across channels.new (M.holds storage.new)) }
        ensures same { channels.new.size ≡ channels.old.size }
        ensures keeps { KeepsStorage (M.holds storage.old) (M.holds storage.new) }
        ensures place { M.place storage.new ≡ M.place storage.old }
    {
        let ran = channels.run_on(storage, number, 1)?;
        Some(glance_at(channels, number, ran.subchannel))
    }

    /// Whether its program runs.
    pub(crate) fn runs(&self) -> bool
        ensures { result ≡ runs self.now.subchannel }
    {
        match self.subchannel {
            SubchannelView::Working(_, _) => true,
            SubchannelView::Idle | SubchannelView::Pending(_, _) => false,
        }
    }

    fn cylinder(&self) -> u16
        ensures { result ≡ cylinder_in self.now.drive }
    {
        match &self.drive {
            Some(drive) => drive.cylinder,
            None => 0,
        }
    }

    fn head(&self) -> u16
        ensures { result ≡ head_in self.now.drive }
    {
        match &self.drive {
            Some(drive) => drive.head,
            None => 0,
        }
    }
}

// The rest of what is seen of a channel whose subchannel this is.
fn glance_at<S: ImageStore>(
    channels: &Selectors<S>,
    number: u8,
    subchannel: SubchannelView,
) -> Glance
    ensures work { (s : StorageState) → SeesWorkAt result s (channel_at number (across channels.now s)) }
    ensures subchannel { result.subchannel ≡ subchannel }
{
    let (_, device, _) = seen(subchannel);
    let address = u16::from(number) * 256 + u16::from(device);
    Glance {
        subchannel,
        work: work_seen(channels.program(number)),
        phase: phase_seen(channels.drive_at_work(number)),
        drive: channels.drive(address),
    }
}

fn work_seen(program: Option<Watched>) -> AtWork
    ensures { result ≡ work_seen program }
{
    match program {
        Some(seen) => seen.program.at_work,
        None => AtWork::Fetching,
    }
}

fn phase_seen<S: ImageStore>(drive: Option<&Drive<S>>) -> Phase
    ensures { result ≡ phase_seen (option_map (λ d. d.now) drive.entry) }
{
    match drive {
        Some(drive) => drive.phase(),
        None => Phase::Idle,
    }
}

/// Whether a unit moved a byte.
pub(crate) fn moves_byte(before: &Glance, behind: &Glance) -> bool
    ensures { result ≡ moves_byte before.now behind.now }
{
    passed_in(before.phase) < passed_in(behind.phase)
}

fn passed_in(phase: Phase) -> usize
    ensures { result ≡ passed_in phase }
{
    match phase {
        Phase::Gives { passed, .. } => passed,
        Phase::Takes { passed, .. } => passed,
        Phase::Idle | Phase::Over | Phase::Looking => 0,
    }
}

/// Whether it was stored.
pub(crate) fn stores_byte(before: &Glance, behind: &Glance) -> bool
    ensures { result ≡ stores_byte before.now behind.now }
{
    moves_byte(before, behind) && gives_in(behind.phase) && !word_of(before.work).skips()
}

fn gives_in(phase: Phase) -> bool
    ensures { result ≡ gives_in phase }
{
    match phase {
        Phase::Gives { .. } => true,
        Phase::Idle | Phase::Over | Phase::Looking | Phase::Takes { .. } => false,
    }
}

/// Whether the index passed.
pub(crate) fn passes_index(before: &Glance, behind: &Glance) -> bool
    ensures { result ≡ passes_index before.now behind.now }
{
    is_looking(before.work)
        && (is_looking(behind.work)
            || (has_unit_check(behind.subchannel) && senses_index(&behind.drive)))
}

fn is_looking(work: AtWork) -> bool
    ensures { result ≡ is_looking work }
{
    match work {
        AtWork::Looking(_) => true,
        AtWork::Fetching | AtWork::Moving(_, _) => false,
    }
}

fn has_unit_check(subchannel: SubchannelView) -> bool
    ensures { result ≡ has_unit_check subchannel }
{
    match subchannel {
        SubchannelView::Pending(_, csw) => csw.unit.intersects(UnitStatus::UNIT_CHECK),
        SubchannelView::Idle | SubchannelView::Working(_, _) => false,
    }
}

fn senses_index(drive: &Option<DriveView>) -> bool
    ensures { result ≡ senses_index drive.now }
{
    match drive {
        Some(drive) => drive.sense[1] & 0x2C != 0,
        None => false,
    }
}

/// How many cylinders the arm crossed.
pub(crate) fn crossed(before: &Glance, behind: &Glance) -> u16
    ensures { result ≡ crossed before.now behind.now }
{
    before.cylinder().abs_diff(behind.cylinder())
}

/// Whether the arm is at another cylinder.
pub(crate) fn changes_cylinder(before: &Glance, behind: &Glance) -> bool
    ensures { result ≡ changes_cylinder before.now behind.now }
{
    before.cylinder() != behind.cylinder()
}

/// Whether the track under the arm is another one.
pub(crate) fn changes_track(before: &Glance, behind: &Glance) -> bool
    ensures { result ≡ changes_track before.now behind.now }
{
    changes_cylinder(before, behind) || before.head() != behind.head()
}

/// Whether a unit asked for an interruption, where none was that is not yet taken.
pub(crate) fn asks(before: &Glance, behind: &Glance) -> bool
    ensures { result ≡ asks before.now behind.now }
{
    is_asked(behind.subchannel) && !is_asked(before.subchannel)
}

fn is_asked(subchannel: SubchannelView) -> bool
    ensures { result ≡ is_asked subchannel }
{
    match subchannel {
        SubchannelView::Working(_, asked) => asked,
        SubchannelView::Idle | SubchannelView::Pending(_, _) => false,
    }
}

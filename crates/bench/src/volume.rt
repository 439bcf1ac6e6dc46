//! A drive over a volume in memory, and what commands at it came to.

ghost use Rattle.std.specs.Prelude.{◌≡◌, true, length};
ghost use Rattle.ckd_drive.specs.Work.{is_idle};
ghost use Rattle.s360_program.specs.Advances.{Rests};

use crate::commands::{find, give, give_up, take, take_record};
use crate::tally::Tally;
use ckd_drive::Drive;
use ckd_image::{Image, MemoryStore, image_len};
use ckd_track::DriveModel;
use s360_words::UnitStatus;
use std::alloc::Global;

/// A drive between two commands.
#[derive(Drop)]
pub(crate) struct Disk {
    drive: Drive<MemoryStore>,
    tally: Tally,
    ghost idle: { is_idle drive.work ≡ true },
}

impl Disk {
    /// A new volume of a 2314 with so many cylinders: each track has its home address and R0.
    pub(crate) fn new(alloc: Global, cylinders: u16) -> Option<Disk> {
        let model = DriveModel::D2314;
        let store = MemoryStore::zeros(alloc, image_len(model, cylinders)).ok()?;
        let image = Image::format(store, model, cylinders).ok()?;
        let drive = Drive::new(alloc, image).ok()?;
        Some(Disk {
            drive,
            tally: Tally::default(),
        })
    }

    /// What the commands came to since the tally was last reset.
    pub(crate) fn tally(&self) -> Tally {
        self.tally
    }

    /// Begins a new tally.
    pub(crate) fn reset_tally(&mut self) {
        self.tally = Tally::default();
    }

    /// Begins a channel program.
    pub(crate) fn begin_program(&mut self) {
        self.drive.begin_program();
    }

    /// Ends a channel program: the track is saved if it was written.
    pub(crate) fn end_program(&mut self) {
        let _ = self.drive.settle();
    }

    /// The drive, with nothing left to be saved.
    pub(crate) fn into_drive(self) -> Drive<MemoryStore>
        ensures { Rests result }
    {
        let Disk {
            mut drive,
            tally: _,
        } = self;
        let _ = drive.settle();
        drive
    }

    /// A read, or a command that no bytes are passed to: as many bytes are given as `into` has room for.
    pub(crate) fn read(&mut self, code: u8, into: &mut [u8])
        ensures { length into.new ≡ length into.old }
    {
        if !find(&mut self.drive, code) {
            give_up(&mut self.drive);
            self.tally.add(UnitStatus::UNIT_CHECK, 0);
            return;
        }
        let moved = give(&mut self.drive, into);
        let ending = self.drive.end();
        self.tally.add(ending.unit, moved);
    }

    /// A command that takes bytes: all of these at once, as far as it wants them.
    pub(crate) fn write(&mut self, code: u8, bytes: &[u8]) {
        if !find(&mut self.drive, code) {
            give_up(&mut self.drive);
            self.tally.add(UnitStatus::UNIT_CHECK, 0);
            return;
        }
        let moved = take(&mut self.drive, bytes);
        let ending = self.drive.end();
        self.tally.add(ending.unit, moved);
    }

    /// A formatting write: the count area, and then key and data at once.
    pub(crate) fn format(&mut self, code: u8, count: [u8; 8], body: &[u8]) {
        if !find(&mut self.drive, code) {
            give_up(&mut self.drive);
            self.tally.add(UnitStatus::UNIT_CHECK, 0);
            return;
        }
        let moved = take_record(&mut self.drive, &count, body);
        let ending = self.drive.end();
        self.tally.add(ending.unit, moved);
    }
}

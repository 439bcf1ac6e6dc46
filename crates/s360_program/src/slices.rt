//! Bytes of a read under way: where all units that are asked for are such bytes, they pass by themselves. So a program that is asked for
//! few units at a time goes on where it stood by little more than the copy of its bytes.

ghost use Rattle.std.specs.Prelude.{◌≡◌, true};
ghost use Rattle.s360_program.specs.declared.run.Step.TheVariants as step;
ghost use Rattle.s360_program.specs.Steps.{Fits, IsStep, AreOfRead};

use crate::moving::{admits_all, left_to_give};
use crate::run::{Comes, Run};
use ckd_drive::Drive;
use ckd_image::ImageStore;
use s360_storage::MainStorage;

impl Run {
    /// Whether so many units are bytes of the read under way that are stored, each of them.
    #[inline(always)]
    pub(crate) fn is_within_read<S: ImageStore, M: MainStorage>(
        &self,
        units: u32,
        storage: &M,
        drive: &Drive<S>,
    ) -> bool
        requires { Fits self.now drive.now }
        ensures { result ≡ true → AreOfRead self.now units (M.holds storage.now) drive.now }
    {
        let Comes::Bytes = self.comes else {
            return false;
        };
        if units == 0 || units > u32::from(self.place.residual) || self.ccw.skips() {
            return false;
        }
        let Some(left) = left_to_give(drive) else {
            return false;
        };
        units as usize <= left && admits_all(storage, self.address, units as u16, self.key)
    }

    /// Does so many units, each of which is a byte of the read under way.
    // In line and without a loop, since a program that is cut often does little else.
    #[inline(always)]
    pub(crate) fn pass_read_bytes<S: ImageStore, M: MainStorage>(
        &mut self,
        units: u32,
        storage: &mut M,
        drive: &mut Drive<S>,
    )
        requires fits { Fits self.old drive.old }
        requires of_read { AreOfRead self.old units (M.holds storage.old) drive.old }
        ensures step { IsStep self.old (M.holds storage.old) drive.old units (step.Units units) self.new
            (M.holds storage.new) drive.new }
        ensures place { M.place storage.new ≡ M.place storage.old }
        ensures image { drive.new.image ≡ drive.old.image }
    {
        let bytes = &drive.next_bytes()[..units as usize];
        let _ = storage.store(self.address, bytes, self.key);
        drive.pass(units as usize);
        self.place.residual -= units as u16;
        self.address += units;
    }
}

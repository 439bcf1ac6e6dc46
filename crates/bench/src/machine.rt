//! A drive beside a storage, at which whole channel programs run.

ghost use Rattle.s360_program.specs.Advances.{Rests};
ghost use Rattle.s360_program.specs.Stands.{Stands};

use crate::programs::{MOST_CALLS, Machine, Program, SIZE};
use crate::tally::ProgramTally;
use crate::volume::Disk;
use ckd_drive::Drive;
use ckd_image::MemoryStore;
use s360_program::program::{Running, Start};
use s360_words::{Csw, Storage};
use std::alloc::Global;

/// A drive between two programs, and a storage.
#[derive(Drop)]
pub(crate) struct DriveMachine {
    storage: Storage,
    drive: Drive<MemoryStore>,
    units: u16,
    tally: ProgramTally,
    ghost rests: { Rests drive },
}

impl DriveMachine {
    /// The drive of a disk, beside a storage of zeros; programs are asked for so many units at a time.
    pub(crate) fn new(alloc: Global, disk: Disk, units: u16) -> Option<DriveMachine> {
        let storage = Storage::new(alloc, SIZE).ok()?;
        Some(DriveMachine {
            storage,
            drive: disk.into_drive(),
            units,
            tally: ProgramTally::default(),
        })
    }
}

impl Machine for DriveMachine {
    fn store(&mut self, at: u32, bytes: &[u8]) {
        self.storage.put(at, bytes);
    }

    fn run(&mut self, program: &Program) {
        let start = Running::start(program.caw(), &self.storage, &mut self.drive);
        let ending = match start {
            Start::Bad | Start::Rejected | Start::Immediate(_, _) => None,
            Start::Accepted(running) => Some(finish(
                running,
                self.units,
                &mut self.storage,
                &mut self.drive,
            )),
        };
        self.tally.add(program, ending);
    }

    fn tally(&self) -> ProgramTally {
        self.tally
    }
}

// Has a program go on to its end, so many units at a time; after too many calls it is cut.
fn finish(
    mut running: Running,
    units: u16,
    storage: &mut Storage,
    drive: &mut Drive<MemoryStore>,
) -> Csw
    requires { Stands running drive.old }
    ensures { Rests drive.new }
{
    for _ in 0..MOST_CALLS {
        let advance = running.advance(units, storage, drive);
        if let Some((csw, _)) = advance.ending {
            return csw;
        }
    }
    let (csw, _, _) = running.cut(drive);
    csw
}

//! A channel with one drive, at which whole channel programs run.

use crate::programs::{MOST_CALLS, Machine, Program, SIZE};
use crate::tally::ProgramTally;
use crate::volume::Disk;
use ckd_image::MemoryStore;
use s360_channel::Channel;
use s360_laws::Condition;
use s360_words::{Csw, Storage};
use std::alloc::Global;

/// The number of the channel, the low byte of the drive's address, and both.
const NUMBER: u8 = 1;

const DEVICE: u8 = 0x90;

const ADDRESS: u16 = 0x0190;

/// Where the channel address word stands.
const CAW_ADDRESS: u32 = 72;

/// A channel with one drive.
#[derive(Drop)]
pub(crate) struct ChannelMachine {
    channel: Channel<MemoryStore>,
    units: u16,
    tally: ProgramTally,
}

impl ChannelMachine {
    /// The volume of a disk at a channel with a storage of zeros; programs are asked for so many units at a time.
    pub(crate) fn new(alloc: Global, disk: Disk, units: u16) -> Option<ChannelMachine> {
        let storage = Storage::new(alloc, SIZE).ok()?;
        let mut channel = Channel::new(NUMBER, storage).ok()?;
        let image = disk.into_drive().into_image();
        channel.attach(alloc, DEVICE, image).ok()?;
        Some(ChannelMachine {
            channel,
            units,
            tally: ProgramTally::default(),
        })
    }

    // Starts a program, has it go on to its end, and takes the channel status word, if it pends by then.
    fn finish(&mut self, program: &Program) -> Option<Csw> {
        self.store(CAW_ADDRESS, &program.caw().to_be_bytes());
        let Condition::Zero = self.channel.sio(ADDRESS) else {
            return None;
        };
        for _ in 0..MOST_CALLS {
            if self.channel.step(self.units) < self.units {
                break;
            }
        }
        match self.channel.tio(ADDRESS) {
            Condition::Stored(csw) => Some(csw),
            Condition::Zero | Condition::Two | Condition::Three => None,
        }
    }
}

impl Machine for ChannelMachine {
    fn store(&mut self, at: u32, bytes: &[u8]) {
        let _ = self.channel.poke(at, bytes);
    }

    fn run(&mut self, program: &Program) {
        let ending = self.finish(program);
        self.tally.add(program, ending);
    }

    fn tally(&self) -> ProgramTally {
        self.tally
    }
}

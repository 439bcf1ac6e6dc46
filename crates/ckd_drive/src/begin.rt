//! A drive begins a command, and its arm leaves a track for another.

ghost use Rattle.std.specs.Prelude.{◌≡◌, ℕ, None, OnOk, OnErr};
ghost use Rattle.ckd_command.specs.Commands.{with_cause};
ghost use Rattle.ckd_drive.specs.declared.answers.DriveStage.TheVariants as stage;
ghost use Rattle.ckd_drive.specs.Invariant.{Stands};
ghost use Rattle.ckd_drive.specs.Jobs.{half_done, parts_held, BeginsBy, Starts};
ghost use Rattle.ckd_drive.specs.Calls.{Leaves, Loses, begun_at};
ghost use Rattle.ckd_sense.specs.declared.sense_bytes.TheConstants.Sense.{STORE_FAULT};
ghost use Rattle.ckd_command.specs.Answers.{moved_to};
ghost use Rattle.ckd_slot.specs.Cache.{after_save};

use crate::answers::{Begun, DriveStage};
use crate::job::Job;
use ckd_command::{CommandStart, Mark, Opened, Registers, add_cause, begin_command, move_to};
use ckd_image::{ImageStore, StoreFault};
use ckd_sense::Sense;

// The bit of a code by which a search or a read goes on at the next head.
const MULTI_TRACK: u8 = 0x80;

// A track is lost whose saving failed.
fn lose(registers: &mut Registers)
    ensures { registers.new ≡ with_cause (record registers.old { credit = None }) STORE_FAULT }
{
    registers.credit = None;
    add_cause(registers, Sense::STORE_FAULT);
}

/// What a begin answers that came to this stage.
pub(crate) fn begun(stage: DriveStage) -> Begun
    ensures { result ≡ begun_at stage }
{
    match stage {
        DriveStage::Idle => Begun::Rejected,
        DriveStage::Ended | DriveStage::InMotion | DriveStage::Failed => Begun::Immediate,
        DriveStage::Looking | DriveStage::Passing => Begun::Started,
    }
}

impl<S: ImageStore> Job<S> {
    /// Saves the track if it was written. Where that fails, the track is lost.
    #[inline(always)]
    pub(crate) fn save(&mut self, mark: &mut Mark) -> Result<(), StoreFault>
        ensures saves { OnOk result (self.new ≡ record self.old { cache = after_save self.old.cache }) }
        ensures stays { OnOk result (mark.new ≡ mark.old) }
        ensures loses { OnErr result (Loses (half_done self.old) (half_done self.new) mark.new) }
    {
        if let Err(fault) = self.cache.save() {
            lose(&mut self.registers);
            *mark = Mark::Lost;
            return Err(fault);
        }
        Ok(())
    }

    /// Leaves the track for another, which stands at its index; it is saved first if it was written. Where the saving
    /// fails, the track is lost and the arm stays.
    // By itself, since few commands leave the track.
    #[inline(never)]
    pub(crate) fn leave(
        &mut self,
        mark: &mut Mark,
        cylinder: u16,
        head: u16,
    ) -> Result<(), StoreFault>
        ensures leaves { OnOk result (Leaves (half_done self.old) (half_done self.new) mark.new
            (moved_to self.old.registers cylinder head)) }
        ensures loses { OnErr result (Loses (half_done self.old) (half_done self.new) mark.new) }
    {
        self.save(mark)?;
        move_to(&mut self.registers, cylinder, head);
        *mark = Mark::Saved;
        Ok(())
    }

    // An idle drive starts the command that this code leads to, which is that of any code asked for that equals it.
    #[inline(always)]
    fn start_here(&mut self, mark: &mut Mark, code: u8) -> DriveStage
        requires idle { Stands (parts_held self.old mark.old stage.Idle) }
        requires well { BeginsBy code self.old }
        ensures { (asked : ℕ) → asked ≡ code → Starts asked self.old mark.old self.new mark.new result }
    {
        match begin_command(code, &mut self.registers) {
            CommandStart::Rejected => DriveStage::Idle,
            CommandStart::Immediate => DriveStage::Ended,
            CommandStart::Works(next) => {
                self.opened = next;
                DriveStage::Looking
            }
            CommandStart::ToCylinderZero(next) => match self.leave(mark, 0, 0) {
                Err(_) => DriveStage::Idle,
                Ok(()) => match next {
                    None => DriveStage::InMotion,
                    Some(next) => {
                        self.opened = next;
                        DriveStage::Looking
                    }
                },
            },
        }
    }

    // The same, of a code that is not a common one.
    #[inline(never)]
    fn start_elsewhere(&mut self, mark: &mut Mark, code: u8) -> DriveStage
        requires idle { Stands (parts_held self.old mark.old stage.Idle) }
        requires well { BeginsBy code self.old }
        ensures { Starts code self.old mark.old self.new mark.new result }
    {
        self.start_here(mark, code)
    }

    /// An idle drive starts the command that this code leads to, and this is the stage that it comes to.
    // The commonest codes by themselves: what they lead to is then known as the crate is compiled.
    #[inline(always)]
    pub(crate) fn start(&mut self, mark: &mut Mark, code: u8) -> DriveStage
        requires idle { Stands (parts_held self.old mark.old stage.Idle) }
        requires well { BeginsBy code self.old }
        ensures { Starts code self.old mark.old self.new mark.new result }
    {
        match code {
            0x05 => self.start_here(mark, 0x05),
            0x06 => self.start_here(mark, 0x06),
            0x07 => self.start_here(mark, 0x07),
            0x86 => self.start_here(mark, 0x86),
            0x1D => self.start_here(mark, 0x1D),
            0x1E => self.start_here(mark, 0x1E),
            0x31 => self.start_here(mark, 0x31),
            0xB1 => self.start_here(mark, 0xB1),
            _ => self.start_rarer(mark, code),
        }
    }

    // The same, of a code that is none of these: the other reads that go over whole cylinders are known too.
    // Told from the rest by the code without its multi-track bit, so that the commonest codes are told by no more tests than without them.
    #[inline(always)]
    fn start_rarer(&mut self, mark: &mut Mark, code: u8) -> DriveStage
        requires idle { Stands (parts_held self.old mark.old stage.Idle) }
        requires well { BeginsBy code self.old }
        ensures { Starts code self.old mark.old self.new mark.new result }
    {
        match code % MULTI_TRACK {
            0x0E | 0x12 | 0x1E => match code {
                0x0E => self.start_here(mark, 0x0E),
                0x12 => self.start_here(mark, 0x12),
                0x8E => self.start_here(mark, 0x8E),
                0x92 => self.start_here(mark, 0x92),
                0x9E => self.start_here(mark, 0x9E),
                _ => self.start_elsewhere(mark, code),
            },
            _ => self.start_elsewhere(mark, code),
        }
    }
}

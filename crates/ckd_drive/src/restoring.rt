//! A drive becomes what one was between two programs.

ghost use Rattle.std.specs.Prelude.{◌≡◌, false, true, is_ok, OnOk, OnErr};
ghost use Rattle.ckd_command.specs.Drive.{is_written};
ghost use Rattle.ckd_drive.specs.Work.{has_track, is_idle, restored};

use crate::answers::{DriveStage, NoSuchTrack};
use crate::drive::Drive;
use ckd_command::{Mark, first_registers};
use ckd_image::ImageStore;
use ckd_sense::Sense;

impl<S: ImageStore> Drive<S> {
    /// Puts the drive where one stood between two programs: the arm at this cylinder, this head selected, and these sense bytes. Its
    /// volume stays. It makes no call of a store and takes no memory.
    ///
    /// # Errors
    ///
    /// The volume has no such cylinder or head; nothing has changed.
    pub fn restore(&mut self, cylinder: u16, head: u16, sense: Sense) -> Result<(), NoSuchTrack>
        requires idle { is_idle self.old.work ≡ true }
        requires saved { is_written self.old.state ≡ false }
        ensures restored { OnOk result (self.new ≡ restored cylinder head sense self.old) }
        ensures variant { is_ok result ≡ has_track self.old.state.volume.geometry cylinder head }
        ensures stays { OnErr result (self.new ≡ self.old) }
    {
        let geometry = self.geometry();
        if cylinder >= geometry.cylinders || head >= geometry.model.heads() {
            return Err(NoSuchTrack);
        }
        let mut registers = first_registers();
        registers.cylinder = cylinder;
        registers.head = head;
        registers.sense = sense;
        self.job.registers = registers;
        self.mark = Mark::Saved;
        self.stage = DriveStage::Idle;
        Ok(())
    }
}

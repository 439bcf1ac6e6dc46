//! What is seen of a drive while a command is half done. Nothing here changes it, takes memory or calls a store.

ghost use Rattle.std.specs.Prelude.{◌≡◌, IfSome, option_map};
ghost use Rattle.ckd_command.specs.Drive.{slot_under};
ghost use Rattle.ckd_drive.specs.Work.{command_of};

use crate::answers::{DriveStage, Phase};
use crate::drive::Drive;
use ckd_command::{Opened, Registers};
use ckd_image::ImageStore;

impl<S: ImageStore> Drive<S> {
    /// All that the drive remembers beside its volume, lent: cylinder and head, the last area that passed on this turn of the
    /// track, and which turn it is, the file mask, the credit of the command just before, and the sense so far.
    pub fn registers(&self) -> &Registers
        ensures { result.now ≡ self.now.state.registers }
    {
        &self.job.registers
    }

    /// The command that works, lent, with the area that it found, once it has found it; none where no command works.
    pub fn command(&self) -> Option<&Opened>
        ensures { option_map (λ o. o.now) result ≡ command_of self.now.work }
    {
        match self.stage {
            DriveStage::Looking | DriveStage::Passing => Some(&self.job.opened),
            DriveStage::Idle | DriveStage::Ended | DriveStage::InMotion | DriveStage::Failed =>
                None,
        }
    }

    /// The slot of the track under the arm, lent, if it is at hand. While a command takes bytes none is shown, since what it
    /// wrote of an area is no change of the volume yet.
    pub fn slot(&self) -> Option<&[u8]>
        ensures { IfSome result (λ slot. slot.now ≡ slot_under self.now.state) }
    {
        if let Phase::Takes { .. } = self.phase() {
            return None;
        }
        let r = &self.job.registers;
        let track = self.job.cache.geometry().track_at(r.cylinder, r.head);
        let Some(buffer) = self.job.cache.at_hand(track) else {
            return None;
        };
        Some(buffer.bytes())
    }
}

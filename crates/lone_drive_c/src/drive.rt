//! A drive alone.

ghost use Rattle.std.specs.Prelude.{◌≡◌, ◌<◌, IfOk, IfErr, OnOk};
ghost use Rattle.ckd_drive.specs.Work.{new_drive};
ghost use Rattle.lone_drive_c.specs.Making.{IsOver, NotMounted, NotFormatted, new_volume};

use crate::refusal::NotMade;
use ckd_drive::Drive;
use ckd_image::{Image, image_len};
use ckd_track::{DriveModel, Geometry};
use dasd_files::{VolumeFile, slot_size, watch_slots};
use std::alloc::Global;

/// A drive over a volume in one file, which is in memory.
#[derive(Drop)]
pub struct LoneDrive {
    /// The drive.
    pub drive: Drive<VolumeFile>,
}

impl LoneDrive {
    /// A drive over the volume that a copy of this file holds, whose tracks are watched.
    ///
    /// # Errors
    ///
    /// Why the file is no image; and `OutOfMemory`, for the copy, and last for the drive.
    pub fn mount(alloc: Global, file: &[u8]) -> Result<LoneDrive, NotMade>
        ensures made { IfOk result (λ d. IsOver file.now d.drive) }
        ensures refused { IfErr result (λ e. NotMounted file.now e) }
    {
        let Ok(mut copy) = VolumeFile::copy_of(alloc, file) else {
            return Err(NotMade::OutOfMemory);
        };
        if watch_slots(alloc, &mut copy, slot_size(file)).is_err() {
            return Err(NotMade::OutOfMemory);
        }
        match Image::mount(copy.counting_all_writes()) {
            Ok(image) => over(alloc, image),
            Err((fault, _)) => Err(NotMade::Mount(fault)),
        }
    }

    /// A drive over a new volume of so many cylinders.
    ///
    /// # Errors
    ///
    /// `NoCylinders`; and `OutOfMemory`, for the volume, and last for the drive.
    pub fn format(alloc: Global, model: DriveModel, cylinders: u16) -> Result<LoneDrive, NotMade>
        ensures made { IfOk result (λ d. d.drive ≡ new_drive (new_volume model cylinders)) }
        ensures some { OnOk result (0 < cylinders) }
        ensures refused { IfErr result (λ e. NotFormatted cylinders e) }
    {
        if cylinders == 0 {
            return Err(NotMade::NoCylinders);
        }
        let Ok(mut file) = VolumeFile::zeros(alloc, image_len(model, cylinders)) else {
            return Err(NotMade::OutOfMemory);
        };
        let size = Geometry::new(model, cylinders).track_size;
        if watch_slots(alloc, &mut file, size).is_err() {
            return Err(NotMade::OutOfMemory);
        }
        match Image::format(file.counting_all_writes(), model, cylinders) {
            Ok(image) => over(alloc, image),
            Err((fault, _)) => Err(NotMade::Mount(fault)),
        }
    }

    /// A second drive that is as this one is, also in the middle of a command, over a copy of its volume.
    ///
    /// # Errors
    ///
    /// `OutOfMemory`. This drive stays in any case.
    pub fn copy(&self, alloc: Global) -> Result<LoneDrive, NotMade>
        ensures copied { IfOk result (λ d. d ≡ self.now) }
        ensures refused { IfErr result (λ e. e ≡ NotMade.OutOfMemory) }
    {
        match self.drive.copy(alloc) {
            Ok(drive) => Ok(LoneDrive { drive }),
            Err(_) => Err(NotMade::OutOfMemory),
        }
    }
}

// A drive over an image.
fn over(alloc: Global, image: Image<VolumeFile>) -> Result<LoneDrive, NotMade>
    ensures made { IfOk result (λ d. d.drive ≡ new_drive image) }
    ensures refused { IfErr result (λ e. e ≡ NotMade.OutOfMemory) }
{
    match Drive::new(alloc, image) {
        Ok(drive) => Ok(LoneDrive { drive }),
        Err(_) => Err(NotMade::OutOfMemory),
    }
}

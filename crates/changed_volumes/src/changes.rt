//! A volume in files that is changed in memory and saved.

ghost use Rattle.std.specs.Prelude.{◌≡◌, map, IfOk, IfErr};
ghost use Rattle.changed_volumes.specs.Changes.{Changing, IsSameImage, IsNotDone};
ghost use Rattle.changed_volumes.specs.Files.{ChangesFiles};

use crate::fault::ChangeFault;
use crate::images::{VolumeChange, change_image};
use crate::saves::{ChangedVolume, save_plan};
use ckd_image::Image;
use ckd_track::Geometry;
use dasd_files::VolumeFile;
use dasd_jobs::{ImageFiles, read_image, write_back};
use std::alloc::Global;
use volume_changes::ChangeRefusal;

/// What is changed of the volume of an image in memory.
pub trait ImageChange {
    /// What is told of a volume that was changed.
    type Answer: Drop;

    /// Why a volume is not changed.
    type Refusal: Drop;

    // what it makes of the slots of a volume, and why it is refused
    ghost changing: { Self → Changing Self.Answer Self.Refusal };

    /// Changes the volume of an image.
    ///
    /// # Errors
    ///
    /// The volume is not changed so, there is no memory, or a slot in memory can't be read or written: the image then holds any bytes in its
    /// slots.
    fn change(
        &self,
        alloc: Global,
        image: &mut Image<VolumeFile>,
    ) -> Result<Self::Answer, ChangeFault<Self::Refusal>>
        ensures same { IsSameImage image.old image.new }
        ensures made { IfOk result (λ answer. (changing self.now).makes image.old.geometry image.old.slots answer image.new.slots) }
        ensures refused { IfErr result (λ e. IsNotDone e (λ r. (changing self.now).refuses r image.old.geometry image.old.slots)) };
}

impl ImageChange for VolumeChange {
    ghost use Rattle.changed_volumes.specs.Changes.{changing, changed_by};

    type Answer = Geometry;

    type Refusal = ChangeRefusal;

    ghost changing = { λ change. changing (changed_by change) };

    fn change(
        &self,
        alloc: Global,
        image: &mut Image<VolumeFile>,
    ) -> Result<Geometry, ChangeFault> {
        let geometry = image.geometry();
        change_image(alloc, image, self)?;
        Ok(geometry)
    }
}

/// Changes the volume in files, saves those of them that changed, and answers what the change does. The files are locked and read whole before.
///
/// # Errors
///
/// The files are not read, the volume is not changed so, or there is no memory: no file is written. Or a file can't be saved: none
/// is written.
pub fn change_files<F: ImageFiles, C: ImageChange>(
    alloc: Global,
    files: &mut F,
    volume: &ChangedVolume,
    change: &C,
) -> Result<C::Answer, ChangeFault<C::Refusal>>
    ensures { ChangesFiles result (C.changing change.now) (map (λ path. path.now) volume.now.paths.now)
        (F.opened files.old) (F.opened files.new) (F.written files.old) (F.written files.new) }
{
    files.plan_saving(save_plan(volume));
    let mut image = match read_image(alloc, files, volume.paths) {
        Ok(image) => image,
        Err(fault) => return Err(ChangeFault::Job(fault)),
    };
    let answer = match change.change(alloc, &mut image) {
        Ok(answer) => answer,
        Err(fault) => return Err(fault),
    };
    match write_back(alloc, files, volume.paths, image) {
        Ok(()) => Ok(answer),
        Err(fault) => Err(ChangeFault::Save(fault)),
    }
}

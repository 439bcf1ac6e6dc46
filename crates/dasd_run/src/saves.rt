//! What a run writes back at its end.

ghost use Rattle.std.specs.Prelude.{◌≡◌, slice_index_or, slice_set, zip, OnOk};
ghost use Rattle.dasd_jobs.specs.Back.{IsWritten};
ghost use Rattle.dasd_jobs.specs.Written.{files_of};
ghost use Rattle.dasd_run.specs.Saves.{paths_of, SavesAll};

use ckd_image::Image;
use dasd_files::VolumeFile;
use dasd_jobs::{ImageFiles, JobFault, NewFile, begin_changed, of_write};
use dasd_words::{Volume, VolumeSource};
use program_faults::ProgramFault;
use std::alloc::Global;

/// The image of a drive, and the address that it had.
pub(crate) type GivenImage = Option<(u8, Image<VolumeFile>)>;

/// Saves these volumes as one: writes the files of them that were changed, each whole and in the order of the volumes. The image of a
/// volume is the one that stands at its place; a volume without one has nothing to write.
///
/// # Errors
///
/// A file can't be written: none is.
pub(crate) fn save_all<F: ImageFiles>(
    alloc: Global,
    files: &mut F,
    volumes: &[Volume],
    images: &mut [GivenImage],
) -> Result<(), ProgramFault>
    ensures saves { SavesAll result (zip volumes.now images.old) (F.written files.old) (F.written files.new) }
    ensures same { F.opened files.new ≡ F.opened files.old }
{
    let mut new = Vec::new(alloc);
    for i in 0..volumes.len() {
        if let Some((_, image)) = take_image(images, i) {
            match begin_volume(alloc, files, &volumes[i], image, &mut new) {
                Ok(()) => {}
                Err(fault) => return Err(ProgramFault::Save(fault)),
            }
        }
    }
    match files.put_all(new) {
        Ok(()) => Ok(()),
        Err(fault) => Err(ProgramFault::Save(of_write(fault))),
    }
}

// Takes out the image at a place, if there is one.
fn take_image(images: &mut [GivenImage], place: usize) -> GivenImage
    ensures taken { result ≡ slice_index_or images.old place None }
    ensures others { images.new ≡ slice_set images.old place None }
{
    if place < images.len() {
        images[place].take()
    } else {
        None
    }
}

// Begins new files for those of one volume that were changed.
fn begin_volume<'a, F: ImageFiles>(
    alloc: Global,
    files: &mut F,
    volume: &Volume<'a>,
    image: Image<VolumeFile>,
    new: &mut Vec<NewFile<'a, F::Draft>>,
) -> Result<(), JobFault>
    ensures begins { OnOk result (IsWritten (paths_of volume.now.source) image
        (files_of F.Draft.content new.old.items) (files_of F.Draft.content new.new.items)) }
    ensures kept { F.written files.new ≡ F.written files.old }
    ensures same { F.opened files.new ≡ F.opened files.old }
{
    match &volume.source {
        VolumeSource::Files(paths) => { begin_changed(alloc, files, paths.as_slice(), image, new) }
        VolumeSource::New { .. } => begin_changed(alloc, files, &[], image, new),
    }
}

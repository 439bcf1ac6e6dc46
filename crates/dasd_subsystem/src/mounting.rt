//! Files become an image.

ghost use Rattle.std.specs.Prelude.{◌≡◌, ◌<◌, [], length, map, replicate, slice_set, IfOk, IfErr, OnOk, All, IsSome};
ghost use Rattle.ckd_track.specs.Geometry.{new_geometry};
ghost use Rattle.ckd_image.specs.Files.{each, file_at, held};
ghost use Rattle.ckd_image.specs.Image.{HoldsImage};
ghost use Rattle.ckd_image.specs.Layout.{image_length};
ghost use Rattle.dasd_files.specs.Files.{file_of};
ghost use Rattle.dasd_files.specs.Tracks.{by_slots, slot_size};
ghost use Rattle.dasd_subsystem.specs.Attaching.{AreFew, AreImage, NotFormatted, NotMounted, new_volume};

use crate::files::{Files, few};
use crate::refusal::Refusal;
use ckd_image::{Image, image_len};
use ckd_track::{DriveModel, Geometry};
use dasd_files::{VolumeFile, slot_size, watch_slots};
use std::alloc::{AllocError, Global};

/// Whether these files, in their order, are an image.
///
/// # Errors
///
/// `NoFiles`, `TooManyFiles`, `OutOfMemory` and why they are none, in this order.
pub fn check(alloc: Global, files: &[&[u8]]) -> Result<(), Refusal>
    ensures image { OnOk result (AreImage (map (λ file. file.now) files.now)) }
    ensures refused { IfErr result (λ e. NotMounted (map (λ file. file.now) files.now) e) }
{
    let copies = Files::copy_of(alloc, files)?;
    match mounted(alloc, copies) {
        Ok(_) => Ok(()),
        Err((refusal, _)) => Err(refusal),
    }
}

/// The image that these files are. Their changes are counted anew, and what is written is kept from now on.
pub(crate) fn mounted(alloc: Global, files: Files) -> Result<Image<VolumeFile>, (Refusal, Files)>
    ensures image { IfOk result (λ i. HoldsImage files i) }
    ensures few { OnOk result (AreFew files) }
    ensures refused { IfErr result (λ e. NotMounted files e.0) }
    ensures kept { IfErr result (λ e. e.1 ≡ files) }
{
    let Files { mut held } = files;
    if let Err(refusal) = few(held.len()) {
        return Err((refusal, Files { held }));
    }
    if all_anew(alloc, held.as_mut_slice()).is_err() {
        return Err((Refusal::OutOfMemory, Files { held }));
    }
    match Image::mount_files(held) {
        Ok(image) => Ok(image),
        Err((fault, held)) => Err((Refusal::Mount(fault), Files { held })),
    }
}

// Each of these files begins anew.
fn all_anew(alloc: Global, files: &mut [Option<VolumeFile>]) -> Result<(), AllocError>
    requires there { All IsSome files.old }
    ensures there { All IsSome files.new }
    ensures contents { each (λ f. f.content) files.new ≡ each (λ f. f.content) files.old }
{
    for place in 0..files.len() {
        anew_at(alloc, files, place)?;
    }
    Ok(())
}

// The file at this place does.
fn anew_at(alloc: Global, files: &mut [Option<VolumeFile>], place: usize) -> Result<(), AllocError>
    requires exists { place < length files.old }
    requires there { IsSome (file_at files.old place) }
    ensures files { files.new ≡ slice_set files.old place (file_at files.new place) }
    ensures there { IsSome (file_at files.new place) }
    ensures content { held (λ f. f.content) [] (file_at files.new place) ≡ held (λ f. f.content) [] (file_at files.old place) }
{
    match &mut files[place] {
        Some(file) => anew(alloc, file),
        None => unreachable!(),
    }
}

// A file begins anew, and keeps what is written from now on.
fn anew(alloc: Global, file: &mut VolumeFile) -> Result<(), AllocError>
    ensures slots { OnOk result (file.new ≡ by_slots (slot_size file.old.content) (file_of file.old.content)) }
    ensures content { file.new.content ≡ file.old.content }
{
    file.begin_anew();
    let size = slot_size(file.bytes());
    watch_slots(alloc, file, size)
}

/// The image of a new volume of so many cylinders.
pub(crate) fn formatted(
    alloc: Global,
    model: DriveModel,
    cylinders: u16,
) -> Result<Image<VolumeFile>, Refusal>
    ensures image { IfOk result (λ i. i ≡ new_volume model cylinders) }
    ensures some { OnOk result (0 < cylinders) }
    ensures refused { IfErr result (λ e. NotFormatted cylinders e) }
{
    if cylinders == 0 {
        return Err(Refusal::NoCylinders);
    }
    let Ok(file) = zeros(alloc, model, cylinders) else {
        return Err(Refusal::OutOfMemory);
    };
    match Image::format(file, model, cylinders) {
        Ok(image) => Ok(image),
        Err((fault, _)) => Err(Refusal::Mount(fault)),
    }
}

// A file of zeros for a new volume, which keeps what is written from now on.
fn zeros(alloc: Global, model: DriveModel, cylinders: u16) -> Result<VolumeFile, AllocError>
    ensures slots { let g = new_geometry model cylinders in
        IfOk result (λ f. f ≡ by_slots g.track_size (file_of (replicate (image_length g) 0))) }
    ensures same { let g = new_geometry model cylinders in
        IfOk result (λ f. f ≡ record (file_of (replicate (image_length g) 0)) { parts = f.parts }) }
{
    let file = VolumeFile::zeros(alloc, image_len(model, cylinders))?;
    let mut file = file.counting_all_writes();
    watch_slots(alloc, &mut file, Geometry::new(model, cylinders).track_size)?;
    Ok(file)
}

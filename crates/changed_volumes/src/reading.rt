//! The volume of an image in memory, read where it lies.

ghost use Rattle.std.specs.Prelude.{◌≡◌, ◌∷◌, [], IfOk, IfSome};
ghost use Rattle.ckd_image.specs.Image.{HoldsImage};
ghost use Rattle.changed_volumes.specs.Reading.{known, image_of};

use ckd_image::{Image, ImageStore, StoreFault};
use ckd_track::Geometry;
use dasd_files::VolumeFile;
use dasd_volumes::SlotReader;
use ghost_data::Count;
use std::alloc::{AllocError, Global};
use std::marker::Model;

/// The bytes of a file, lent to be read: each write fails.
#[derive(Drop)]
pub struct LentFile<'a> {
    bytes: &'a [u8],
    refused: Count,
}

impl<'a> Model for LentFile<'a> {
    ghost use Rattle.ckd_image.specs.Store.{Stored};

    ghost Value = { Stored };

    ghost view = { λ f. record { content = f.bytes.now; origin = f.bytes.now; failures = f.refused } };
}

impl<'a> LentFile<'a> {
    /// A file of these bytes.
    fn new(bytes: &'a [u8]) -> LentFile<'a>
        ensures { result.content ≡ bytes.now }
    {
        LentFile {
            bytes,
            refused: Count::new(),
        }
    }
}

impl<'a> ImageStore for LentFile<'a> {
    ghost content = { λ f. f.content };

    ghost origin = { λ f. f.origin };

    ghost failures = { λ f. f.failures };

    fn len(&self) -> u64 {
        self.bytes.len() as u64
    }

    fn read_at(&mut self, at: u64, into: &mut [u8]) -> Result<(), StoreFault> {
        let rest = &self.bytes[at as usize..];
        into.copy_from_slice(&rest[..into.len()]);
        Ok(())
    }

    fn write_at(&mut self, _at: u64, _bytes: &[u8]) -> Result<(), StoreFault> {
        self.refused = self.refused.next();
        Err(StoreFault)
    }
}

/// A reader of the volume of an image in memory, which stays as it is.
#[derive(Drop)]
pub enum HeldVolume<'a> {
    /// The image is in one file, which is lent.
    Lent(Image<LentFile<'a>>),
    /// It is in several files, of which this is a copy.
    Copied(Image<VolumeFile>),
}

impl<'a> HeldVolume<'a> {
    /// A reader of the volume of an image. It takes no memory where that is in one file.
    ///
    /// # Errors
    ///
    /// There is no memory for a copy of the files.
    #[tactic(auto, using(crate::proofs::OnlyFile::same_geometry, crate::proofs::OnlyFile::same_slots))]
    pub fn of(alloc: Global, image: &'a Image<VolumeFile>) -> Result<HeldVolume<'a>, AllocError>
        ensures geometry { IfOk result (λ held. (image_of held).geometry ≡ image.now.geometry) }
        ensures slots { IfOk result (λ held. (image_of held).slots ≡ image.now.slots) }
    {
        if let Some(bytes) = only_file(image) {
            if let Ok(lent) = Image::mount(LentFile::new(bytes)) {
                return Ok(HeldVolume::Lent(lent));
            }
        }
        Ok(HeldVolume::Copied(image.copy(alloc)?))
    }
}

// The bytes of the file of an image that is in one.
#[tactic(auto, using(crate::proofs::OnlyFile::is_only))]
fn only_file<'a>(image: &'a Image<VolumeFile>) -> Option<&'a [u8]>
    ensures { IfSome result (λ bytes. HoldsImage (bytes.now ∷ []) image.now) }
{
    let file = image.store(0)?;
    match image.store(1) {
        Some(_) => None,
        None => Some(file.bytes()),
    }
}

impl<'a> SlotReader for HeldVolume<'a> {
    ghost volume = { λ held. known (image_of held) };

    ghost failures = { λ held. (image_of held).failures };

    fn geometry(&self) -> Geometry {
        match self {
            HeldVolume::Lent(image) => image.geometry(),
            HeldVolume::Copied(image) => image.geometry(),
        }
    }

    // All tracks are there.
    fn load(&mut self, track: u32, slot: &mut [u8]) -> Result<usize, StoreFault> {
        match self {
            HeldVolume::Lent(image) => image.load(track, slot)?,
            HeldVolume::Copied(image) => image.load(track, slot)?,
        }
        Ok(slot.len())
    }
}

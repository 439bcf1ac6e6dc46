//! Files of a volume that no drive has.

ghost use Rattle.std.specs.Prelude.{◌≡◌, ◌+◌, ◌<◌, ◌≤◌, ◌∷◌, ◌++◌, [], length, map, replicate, option_map, slice_get, IfOk, IfErr, OnOk, All, IsSome};
ghost use Rattle.arrayvec.specs.ArrayVec.{array_vec_len};
ghost use Rattle.ckd_image.specs.Files.{each};
ghost use Rattle.ckd_image.specs.Image.{HoldsImage};
ghost use Rattle.dasd_subsystem.specs.Attaching.{NotTaken};

use crate::refusal::Refusal;
use arrayvec::ArrayVec;
use ckd_image::Image;
use dasd_files::VolumeFile;
use std::alloc::Global;
use std::marker::Model;

/// The files of a volume, up to eight in their order, which no drive has: a contract sees their bytes.
#[derive(Drop)]
pub struct Files {
    pub(crate) held: ArrayVec<Option<VolumeFile>, 8>,
}

impl Model for Files {
    ghost use Rattle.std.specs.Prelude.{List, ℕ, All, IsSome};
    ghost use Rattle.ckd_image.specs.Files.{each};

    ghost Value = { List (List ℕ) };

    ghost view = { λ f. each (λ v. v.content) f.held.items };

    ghost invariant = { λ f. All IsSome f.held.items };
}

impl Files {
    /// No files. It takes no memory.
    pub fn none() -> Files
        ensures { result ≡ [] }
    {
        Files {
            held: ArrayVec::new(),
        }
    }

    /// Files of so many zero bytes each.
    ///
    /// # Errors
    ///
    /// `NoFiles`, `TooManyFiles` and `OutOfMemory`, in this order.
    pub fn new(alloc: Global, lengths: &[usize]) -> Result<Files, Refusal>
        ensures zeros { IfOk result (λ files. files ≡ map (λ len. replicate len 0) lengths.now) }
        ensures few { OnOk result ((0 < length lengths.now) × (length lengths.now ≤ 8)) }
        ensures refused { IfErr result (λ e. NotTaken (length lengths.now) e) }
    {
        few(lengths.len())?;
        let mut held: ArrayVec<Option<VolumeFile>, 8> = ArrayVec::new();
        for len in lengths {
            let Ok(file) = VolumeFile::zeros(alloc, *len as u64) else {
                return Err(Refusal::OutOfMemory);
            };
            append(&mut held, file.counting_all_writes());
        }
        Ok(Files { held })
    }

    /// Files of copies of these bytes.
    ///
    /// # Errors
    ///
    /// `NoFiles`, `TooManyFiles` and `OutOfMemory`, in this order.
    pub(crate) fn copy_of(alloc: Global, files: &[&[u8]]) -> Result<Files, Refusal>
        ensures copies { IfOk result (λ copies. copies ≡ map (λ file. file.now) files.now) }
        ensures refused { IfErr result (λ e. NotTaken (length files.now) e) }
    {
        few(files.len())?;
        let mut held: ArrayVec<Option<VolumeFile>, 8> = ArrayVec::new();
        for bytes in files {
            let Ok(file) = VolumeFile::copy_of(alloc, *bytes) else {
                return Err(Refusal::OutOfMemory);
            };
            append(&mut held, file.counting_all_writes());
        }
        Ok(Files { held })
    }

    /// The files that hold this image, with all that was written. It takes no memory.
    pub(crate) fn of(image: Image<VolumeFile>) -> Files
        ensures { HoldsImage result image }
    {
        Files {
            held: image.into_stores(),
        }
    }

    /// A file, by its place among them; none behind the last one.
    pub fn get(&self, place: usize) -> Option<&VolumeFile>
        ensures { option_map (λ f. f.now.content) result ≡ slice_get self.now place }
    {
        if place >= self.held.len() {
            return None;
        }
        self.held.as_slice()[place].as_ref()
    }
}

/// Whether a volume has so many files.
pub(crate) fn few(count: usize) -> Result<(), Refusal>
    ensures few { IfOk result (λ u. (0 < count) × (count ≤ 8)) }
    ensures refused { IfErr result (λ e. NotTaken count e) }
{
    if count == 0 {
        return Err(Refusal::NoFiles);
    }
    if count > 8 {
        return Err(Refusal::TooManyFiles);
    }
    Ok(())
}

// One file more.
fn append(files: &mut ArrayVec<Option<VolumeFile>, 8>, file: VolumeFile)
    requires room { array_vec_len files.old < 8 }
    requires there { All IsSome files.old.items }
    ensures there { All IsSome files.new.items }
    ensures count { length files.new.items ≡ length files.old.items + 1 }
    ensures contents { each (λ f. f.content) files.new.items ≡ each (λ f. f.content) files.old.items ++ file.content ∷ [] }
{
    files.push(Some(file));
}

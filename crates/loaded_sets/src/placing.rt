//! The records of a library on a volume.

ghost use Rattle.std.specs.Prelude.{◌≡◌, All, IfOk, IfErr};
ghost use Rattle.record_tracks.specs.Library.{MemberGoesOn};
ghost use Rattle.changed_volumes.specs.Changes.{IsSameImage};
ghost use Rattle.loaded_sets.specs.Volumes.{labelled};
ghost use Rattle.loaded_sets.specs.LibraryParts.{IsNamed, IsNotNamed};

use crate::libraries::NamedLibrary;
use crate::library_fault::of_library;
use crate::{LoadFault, NO_MEMORY, PlacedSet, SoundVolume, of_placing, place_records};
use ckd_image::Image;
use dasd_files::VolumeFile;
use record_tracks::{library_directory, library_records};
use std::alloc::Global;

/// Puts a library with its records onto such a volume, and answers how many tracks it has.
///
/// # Errors
///
/// The library has no directory, or the volume has no place for it; or there is no memory.
pub(crate) fn put_named(
    alloc: Global,
    image: &mut Image<VolumeFile>,
    volume: &SoundVolume,
    named: &NamedLibrary,
) -> Result<u32, LoadFault>
    requires geometry { volume.now.geometry ≡ image.old.geometry }
    requires members { All (MemberGoesOn volume.now.geometry.model) named.now.library.members.now }
    ensures same { IsSameImage image.old image.new }
    ensures named { IfOk result (λ tracks. IsNamed (labelled volume.now) named.now image.old.slots tracks image.new.slots) }
    ensures fault { IfErr result (λ e. IsNotNamed e (labelled volume.now) named.now image.old.slots) }
{
    let directory = match library_directory(alloc, volume.geometry.model, &named.library) {
        Ok(directory) => directory,
        Err(fault) => return Err(of_library(fault)),
    };
    let Ok(records) = library_records(alloc, directory.as_slice(), named.library.members) else {
        return Err(NO_MEMORY);
    };
    let placed = PlacedSet {
        name: named.name,
        label: named.label,
        records: records.as_slice(),
        last: records.len(),
    };
    match place_records(alloc, image, volume, &placed) {
        Ok(tracks) => Ok(tracks),
        Err(fault) => Err(of_placing(fault)),
    }
}

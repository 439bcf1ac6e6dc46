//! An image in memory whose volume gets a library.

ghost use Rattle.std.specs.Prelude.{◌≡◌, None, IfOk, IfErr};
ghost use Rattle.std.specs.List.{position};
ghost use Rattle.volume_contents.specs.Sets.{has_name};
ghost use Rattle.record_tracks.specs.BlockFaults.{IsCutFor};
ghost use Rattle.changed_volumes.specs.Changes.{IsSameImage};
ghost use Rattle.loaded_sets.specs.Volumes.{labelled};
ghost use Rattle.loaded_sets.specs.LoadedLibraries.{Loaded, IsNotLoaded};
ghost use Rattle.loaded_sets.specs.LibraryParts.{member_blocks, IsPut, IsNotPut, IsSet, IsNotSet};

use crate::libraries::{LoadedLibrary, MemberBlocks, NamedLibrary, cut_in};
use crate::members::{Measure, all_records, new_members, text_members, text_slices};
use crate::placing::put_named;
use crate::{
    ContentFault, LoadFault, LoadRefusal, NO_MEMORY, SoundVolume, SourceForm, judge, label_of,
    layout_of_set, of_placing, position_of, refused,
};
use changed_volumes::read_said;
use ckd_image::Image;
use dasd_files::VolumeFile;
use record_tracks::NewLibrary;
use std::alloc::Global;

/// Puts a library onto the volume of an image in memory, and answers how many tracks it has. Its tracks are the first ones free that have
/// room for its directory and its members, one behind another. A member whose file has no bytes has its end of file alone.
///
/// # Errors
///
/// The first of these, in this order: the volume gets no data set; a data set of it has the name; the format and the lengths are those of
/// no data set; the text of a member has no records; the bytes of a member are no blocks of such a data set; the library has no directory;
/// the volume has no place for it. Or there is no memory. The image then holds any bytes in the slots of those tracks and of the table of
/// contents.
pub fn load_library(
    alloc: Global,
    image: &mut Image<VolumeFile>,
    library: &LoadedLibrary,
) -> Result<u32, LoadFault>
    ensures same { IsSameImage image.old image.new }
    ensures loaded { IfOk result (λ tracks. Loaded library.now image.old.geometry image.old.slots tracks image.new.slots) }
    ensures fault { IfErr result (λ e. IsNotLoaded e library.now image.old.geometry image.old.slots) }
{
    let geometry = image.geometry();
    let mut contents = match read_said(alloc, image) {
        Ok(contents) => contents,
        Err(fault) => return Err(fault),
    };
    let volume = match judge(alloc, geometry, &mut contents) {
        Ok(volume) => volume,
        Err(fault) => return Err(of_placing(fault)),
    };
    put_library(alloc, image, &volume, library)
}

// Puts a library onto such a volume, unless a data set of it has the name.
fn put_library(
    alloc: Global,
    image: &mut Image<VolumeFile>,
    volume: &SoundVolume,
    library: &LoadedLibrary,
) -> Result<u32, LoadFault>
    requires geometry { volume.now.geometry ≡ image.old.geometry }
    ensures same { IsSameImage image.old image.new }
    ensures put { IfOk result (λ tracks. IsPut (labelled volume.now) library.now image.old.slots tracks image.new.slots) }
    ensures fault { IfErr result (λ e. IsNotPut e (labelled volume.now) library.now image.old.slots) }
{
    match position_of(volume.blocks, &library.name) {
        None => put_new(alloc, image, volume, library),
        Some(_) => Err(refused(LoadRefusal::NameTaken)),
    }
}

// The same of a library whose name no data set of the volume has.
fn put_new(
    alloc: Global,
    image: &mut Image<VolumeFile>,
    volume: &SoundVolume,
    library: &LoadedLibrary,
) -> Result<u32, LoadFault>
    requires geometry { volume.now.geometry ≡ image.old.geometry }
    requires free { position (has_name library.now.name) volume.now.blocks.now ≡ None }
    ensures same { IsSameImage image.old image.new }
    ensures put { IfOk result (λ tracks. IsPut (labelled volume.now) library.now image.old.slots tracks image.new.slots) }
    ensures fault { IfErr result (λ e. IsNotPut e (labelled volume.now) library.now image.old.slots) }
{
    let layout = match layout_of_set(&library.form) {
        Ok(layout) => layout,
        Err(fault) => return Err(refused(LoadRefusal::Content(ContentFault::Attributes(fault)))),
    };
    let cut = cut_in(library.source, layout);
    match library.source {
        SourceForm::Blocks | SourceForm::WithLengths => {
            let blocks = MemberBlocks {
                layout,
                cut,
                members: library.members,
            };
            put_blocks(alloc, image, volume, library, blocks)
        }
        SourceForm::Text => {
            let texts = text_members(alloc, layout, library.members)?;
            let Ok(slices) = text_slices(alloc, texts.as_slice()) else {
                return Err(NO_MEMORY);
            };
            let blocks = MemberBlocks {
                layout,
                cut,
                members: slices.as_slice(),
            };
            put_blocks(alloc, image, volume, library, blocks)
        }
    }
}

// Puts a library whose members have these blocks onto such a volume.
fn put_blocks(
    alloc: Global,
    image: &mut Image<VolumeFile>,
    volume: &SoundVolume,
    library: &LoadedLibrary,
    blocks: MemberBlocks,
) -> Result<u32, LoadFault>
    requires geometry { volume.now.geometry ≡ image.old.geometry }
    requires cut { IsCutFor blocks.layout blocks.cut }
    ensures same { IsSameImage image.old image.new }
    ensures set { IfOk result (λ tracks. IsSet (labelled volume.now) library.now (member_blocks blocks.entry) image.old.slots tracks
        image.new.slots) }
    ensures fault { IfErr result (λ e. IsNotSet e (labelled volume.now) library.now (member_blocks blocks.entry) image.old.slots) }
{
    let MemberBlocks {
        layout,
        cut,
        members,
    } = blocks;
    let measure = Measure {
        model: volume.geometry.model,
        layout,
        key_length: library.form.key_length,
    };
    let records = all_records(alloc, measure, cut, members)?;
    let Ok(members) = new_members(alloc, records.as_slice()) else {
        return Err(NO_MEMORY);
    };
    let named = NamedLibrary {
        name: library.name,
        label: label_of(&library.form, library.kept, layout),
        library: NewLibrary {
            directory_blocks: library.directory_blocks,
            entries: library.entries,
            members: members.as_slice(),
        },
    };
    put_named(alloc, image, volume, &named)
}

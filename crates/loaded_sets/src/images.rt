//! An image in memory whose volume gets a data set.

ghost use Rattle.std.specs.Prelude.{◌≡◌, None, IfOk, IfErr};
ghost use Rattle.std.specs.List.{position};
ghost use Rattle.volume_contents.specs.Sets.{has_name};
ghost use Rattle.record_tracks.specs.Blocks.{AreBlocks};
ghost use Rattle.record_tracks.specs.BlockFaults.{IsCutFor, block_fault_of};
ghost use Rattle.changed_volumes.specs.Changes.{IsSameImage};
ghost use Rattle.loaded_sets.specs.Volumes.{labelled};
ghost use Rattle.loaded_sets.specs.Loaded.{Loaded, IsNotLoaded};
ghost use Rattle.loaded_sets.specs.Parts.{file_blocks, IsPut, IsNotPut, IsSet, IsNotSet};

use crate::contents::{LoadedSet, SourceForm, label_of, layout_of_set, text_bytes};
use crate::fault::{
    ContentFault, LoadFault, LoadRefusal, NO_MEMORY, of_placing, of_unmade, refused,
};
use crate::{PlacedSet, SoundVolume, judge, place_records, position_of};
use changed_volumes::read_said;
use ckd_image::Image;
use dasd_files::VolumeFile;
use record_tracks::{Blocks, Cut, block_fault, block_records, cut_of};
use std::alloc::Global;
use volume_labels::Layout;

/// The blocks of a data set, and how its records lie in them.
#[derive(Clone, Copy)]
pub(crate) struct FileBlocks<'a> {
    /// How its records lie in its blocks.
    pub(crate) layout: Layout,
    /// The bytes of its blocks, and how they are told apart.
    pub(crate) blocks: Blocks<'a>,
}

/// Puts a data set onto the volume of an image in memory, and answers how many tracks it has. Its tracks are the first ones free that have
/// room for it, one behind another.
///
/// # Errors
///
/// The volume does not get it, or there is no memory: the image then holds any bytes in the slots of those tracks and of the table of
/// contents.
pub fn load_image(
    alloc: Global,
    image: &mut Image<VolumeFile>,
    set: &LoadedSet,
) -> Result<u32, LoadFault>
    ensures same { IsSameImage image.old image.new }
    ensures loaded { IfOk result (λ tracks. Loaded set.now image.old.geometry image.old.slots tracks image.new.slots) }
    ensures fault { IfErr result (λ e. IsNotLoaded e set.now image.old.geometry image.old.slots) }
{
    let geometry = image.geometry();
    let mut contents = match read_said(alloc, image) {
        Ok(contents) => contents,
        Err(fault) => return Err(fault),
    };
    let volume = match judge(alloc, geometry, &mut contents) {
        Ok(volume) => volume,
        Err(fault) => return Err(of_placing(fault)),
    };
    put_set(alloc, image, &volume, set)
}

// Puts a data set onto such a volume, unless one of it has the name.
fn put_set(
    alloc: Global,
    image: &mut Image<VolumeFile>,
    volume: &SoundVolume,
    set: &LoadedSet,
) -> Result<u32, LoadFault>
    requires geometry { volume.now.geometry ≡ image.old.geometry }
    ensures same { IsSameImage image.old image.new }
    ensures put { IfOk result (λ tracks. IsPut (labelled volume.now) set.now image.old.slots tracks image.new.slots) }
    ensures fault { IfErr result (λ e. IsNotPut e (labelled volume.now) set.now image.old.slots) }
{
    match position_of(volume.blocks, &set.name) {
        None => put_new(alloc, image, volume, set),
        Some(_) => Err(refused(LoadRefusal::NameTaken)),
    }
}

// The same of a data set whose name none of the volume has.
fn put_new(
    alloc: Global,
    image: &mut Image<VolumeFile>,
    volume: &SoundVolume,
    set: &LoadedSet,
) -> Result<u32, LoadFault>
    requires geometry { volume.now.geometry ≡ image.old.geometry }
    requires free { position (has_name set.now.name) volume.now.blocks.now ≡ None }
    ensures same { IsSameImage image.old image.new }
    ensures put { IfOk result (λ tracks. IsPut (labelled volume.now) set.now image.old.slots tracks image.new.slots) }
    ensures fault { IfErr result (λ e. IsNotPut e (labelled volume.now) set.now image.old.slots) }
{
    let layout = match layout_of_set(&set.form) {
        Ok(layout) => layout,
        Err(fault) => return Err(refused(LoadRefusal::Content(ContentFault::Attributes(fault)))),
    };
    let cut = cut_of(layout);
    match set.source {
        SourceForm::Blocks => put_blocks(
            alloc,
            image,
            volume,
            set,
            of_bytes(layout, set.bytes, cut),
        ),
        SourceForm::WithLengths => {
            put_blocks(
                alloc,
                image,
                volume,
                set,
                of_bytes(layout, set.bytes, Cut::WithLengths),
            )
        }
        SourceForm::Text => {
            let records = match text_bytes(alloc, layout, set.bytes) {
                Ok(records) => records,
                Err(fault) => return Err(of_unmade(fault)),
            };
            put_blocks(
                alloc,
                image,
                volume,
                set,
                of_bytes(layout, records.as_slice(), cut),
            )
        }
    }
}

// Bytes that are cut so, as the blocks of a data set of this layout.
fn of_bytes<'a>(layout: Layout, bytes: &'a [u8], cut: Cut) -> FileBlocks<'a>
    ensures layout { result.layout ≡ layout }
    ensures bytes { result.blocks.bytes.now ≡ bytes.entry.now }
    ensures cut { result.blocks.cut ≡ cut }
{
    FileBlocks {
        layout,
        blocks: Blocks { bytes, cut },
    }
}

// Puts a data set with these blocks onto such a volume.
fn put_blocks(
    alloc: Global,
    image: &mut Image<VolumeFile>,
    volume: &SoundVolume,
    set: &LoadedSet,
    file: FileBlocks,
) -> Result<u32, LoadFault>
    requires geometry { volume.now.geometry ≡ image.old.geometry }
    requires cut { IsCutFor file.layout file.blocks.cut }
    ensures same { IsSameImage image.old image.new }
    ensures set { IfOk result (λ tracks. IsSet (labelled volume.now) set.now (file_blocks file.entry) image.old.slots tracks image.new.slots) }
    ensures fault { IfErr result (λ e. IsNotSet e (labelled volume.now) set.now (file_blocks file.entry) image.old.slots) }
{
    let FileBlocks { layout, blocks } = file;
    match block_fault(volume.geometry.model, layout, set.form.key_length, blocks) {
        None => put_records(alloc, image, volume, set, file),
        Some(fault) => Err(refused(LoadRefusal::Content(ContentFault::Blocks(fault)))),
    }
}

// The same of blocks that have no fault.
fn put_records(
    alloc: Global,
    image: &mut Image<VolumeFile>,
    volume: &SoundVolume,
    set: &LoadedSet,
    file: FileBlocks,
) -> Result<u32, LoadFault>
    requires geometry { volume.now.geometry ≡ image.old.geometry }
    requires fits { block_fault_of volume.now.geometry.model file.layout set.now.form.key_length file.blocks.cut file.blocks.bytes.now ≡ None }
    requires blocks { AreBlocks volume.now.geometry.model file.blocks.cut file.blocks.bytes.now }
    ensures same { IsSameImage image.old image.new }
    ensures set { IfOk result (λ tracks. IsSet (labelled volume.now) set.now (file_blocks file.entry) image.old.slots tracks image.new.slots) }
    ensures fault { IfErr result (λ e. IsNotSet e (labelled volume.now) set.now (file_blocks file.entry) image.old.slots) }
{
    let FileBlocks { layout, blocks } = file;
    let Ok(records) = block_records(alloc, blocks) else {
        return Err(NO_MEMORY);
    };
    let placed = PlacedSet {
        name: set.name,
        label: label_of(&set.form, set.kept, layout),
        records: records.as_slice(),
        last: records.len() - 1,
    };
    match place_records(alloc, image, volume, &placed) {
        Ok(tracks) => Ok(tracks),
        Err(fault) => Err(of_placing(fault)),
    }
}

//! An image in memory whose volume is changed.

ghost use Rattle.std.specs.Prelude.{◌≡◌, ◌<◌, length, slice_set, fold, Ok, IfOk, IfErr, OnOk};
ghost use Rattle.ckd_track.specs.Geometry.{tracks_of};
ghost use Rattle.volume_contents.specs.Contents.{contents_of, slot_at, SaysOf};
ghost use Rattle.volume_changes.specs.Blocks.{changed};
ghost use Rattle.volume_changes.specs.Labels.{relabelled_slot};
ghost use Rattle.volume_changes.specs.Volumes.{said_in, serial_in, rename_of, slots_behind, relabelled_with};
ghost use Rattle.changed_volumes.specs.Changes.{IsSameImage, IsRefused, IsHinderedBy, changed_by};

use crate::deletions::delete;
use crate::fault::{ChangeFault, NO_MEMORY, NO_SLOT, of_reading};
use crate::reading::HeldVolume;
use ckd_image::{Image, StoreFault};
use dasd_files::VolumeFile;
use dasd_jobs::JobFault;
use std::alloc::Global;
use volume_changes::{
    BlockChange, ChangeRefusal, LabelFields, plan_rename, serial_change, write_block, write_label,
};
use volume_contents::{Block, Contents, read_contents};

/// What is changed of a volume. Names are in EBCDIC, with blanks behind them.
#[derive(Clone, Copy)]
pub enum VolumeChange {
    /// The data set of the first name gets the second.
    Rename([u8; 44], [u8; 44]),
    /// The volume label says this.
    Relabel(LabelFields),
    /// The data set of the name is deleted.
    Delete([u8; 44]),
}

/// Changes the volume of an image in memory.
///
/// # Errors
///
/// The volume is not changed so, or there is no memory; the image then holds what it held, but for a slot that could not be written, or
/// those that were.
pub fn change_image(
    alloc: Global,
    image: &mut Image<VolumeFile>,
    change: &VolumeChange,
) -> Result<(), ChangeFault>
    ensures same { IsSameImage image.old image.new }
    ensures slots { OnOk result (changed_by change.now image.old.geometry image.old.slots ≡ Ok image.new.slots) }
    ensures refused { IfErr result (λ e. IsRefused e (changed_by change.now image.old.geometry image.old.slots)) }
{
    let contents = read_said(alloc, image)?;
    let Ok(mut slot) = vec![in alloc; 0u8; image.geometry().track_size as usize] else {
        return Err(NO_MEMORY);
    };
    let slot = slot.as_mut_slice();
    match change {
        VolumeChange::Rename(old, new) => rename(image, slot, &contents, (old, *new)),
        VolumeChange::Relabel(fields) => relabel(alloc, image, slot, &contents, fields),
        VolumeChange::Delete(name) => delete(alloc, image, slot, contents, name),
    }
}

/// What the volume of an image says of itself.
///
/// # Errors
///
/// There is no memory, or a slot in memory is not read.
pub fn read_said<R: Drop>(
    alloc: Global,
    image: &Image<VolumeFile>,
) -> Result<Contents, ChangeFault<R>>
    ensures says { IfOk result (SaysOf (contents_of image.now.geometry image.now.slots)) }
    ensures fault { IfErr result IsHinderedBy }
{
    let Ok(mut volume) = HeldVolume::of(alloc, image) else {
        return Err(ChangeFault::Job(JobFault::OutOfMemory));
    };
    match read_contents(alloc, &mut volume) {
        Ok(contents) => Ok(contents),
        Err(fault) => Err(of_reading(fault)),
    }
}

// Gives a data set another name.
fn rename(
    image: &mut Image<VolumeFile>,
    slot: &mut [u8],
    contents: &Contents,
    names: (&[u8; 44], [u8; 44]),
) -> Result<(), ChangeFault>
    requires size { length slot.old ≡ image.old.geometry.track_size }
    ensures same { IsSameImage image.old image.new }
    ensures slots { OnOk result (slots_behind image.old.geometry image.old.slots (rename_of (said_in contents.now) names.entry.0.now names.entry.1)
        ≡ Ok image.new.slots) }
    ensures refused { IfErr result (λ e. IsRefused e
        (slots_behind image.old.geometry image.old.slots (rename_of (said_in contents.now) names.entry.0.now names.entry.1))) }
{
    let (old, new) = names;
    match plan_rename(contents, &old[..], new) {
        Ok(change) => write_change(image, slot, &change),
        Err(refusal) => Err(ChangeFault::Refused(refusal)),
    }
}

/// Writes a control block in the place of another one, by this slot, which is that of a track of the image.
///
/// # Errors
///
/// A slot in memory can't be read or written.
pub fn write_change(
    image: &mut Image<VolumeFile>,
    slot: &mut [u8],
    change: &BlockChange,
) -> Result<(), ChangeFault>
    requires size { length slot.old ≡ image.old.geometry.track_size }
    ensures same { IsSameImage image.old image.new }
    ensures slots { OnOk result (image.new.slots ≡ changed image.old.geometry change.now image.old.slots) }
    ensures fault { IfErr result (λ e. e ≡ ChangeFault.Job JobFault.Store) }
    ensures size { length slot.new ≡ length slot.old }
{
    let geometry = image.geometry();
    let at = change.block.address.track;
    if at.cylinder >= geometry.cylinders || at.head >= geometry.model.heads() {
        return Ok(());
    }
    let track = geometry.track_at(at.cylinder, at.head);
    if image.load(track, slot).is_err() {
        return Err(NO_SLOT);
    }
    write_block(slot, change);
    save(image, track, slot)
}

// Saves the slot of a track.
fn save(image: &mut Image<VolumeFile>, track: u32, slot: &[u8]) -> Result<(), ChangeFault>
    requires exists { track < tracks_of image.old.geometry }
    requires size { length slot.now ≡ image.old.geometry.track_size }
    ensures same { IsSameImage image.old image.new }
    ensures slots { OnOk result (image.new.slots ≡ slice_set image.old.slots track slot.now) }
    ensures fault { IfErr result (λ e. e ≡ ChangeFault.Job JobFault.Store) }
{
    match image.save(track, slot) {
        Ok(()) => Ok(()),
        Err(_) => Err(NO_SLOT),
    }
}

// Writes fields into the label, and a serial number into the blocks of the data sets.
fn relabel(
    alloc: Global,
    image: &mut Image<VolumeFile>,
    slot: &mut [u8],
    contents: &Contents,
    fields: &LabelFields,
) -> Result<(), ChangeFault>
    requires size { length slot.old ≡ image.old.geometry.track_size }
    ensures same { IsSameImage image.old image.new }
    ensures slots { OnOk result (relabelled_with fields.now image.old.geometry image.old.slots contents.now.found.blocks.items contents.now.label
        ≡ Ok image.new.slots) }
    ensures refused { IfErr result (λ e. IsRefused e
        (relabelled_with fields.now image.old.geometry image.old.slots contents.now.found.blocks.items contents.now.label)) }
{
    let Some(label) = contents.label else {
        return Err(ChangeFault::Refused(ChangeRefusal::NoLabel));
    };
    write_fields(alloc, image, slot, fields)?;
    let (old, new) = (label.serial, fields.serial);
    write_serials(image, slot, contents.found.blocks.as_slice(), old, new)
}

// Writes fields into the label.
fn write_fields(
    alloc: Global,
    image: &mut Image<VolumeFile>,
    slot: &mut [u8],
    fields: &LabelFields,
) -> Result<(), ChangeFault>
    requires size { length slot.old ≡ image.old.geometry.track_size }
    ensures same { IsSameImage image.old image.new }
    ensures slots { OnOk result (image.new.slots ≡ slice_set image.old.slots 0 (relabelled_slot fields.now (slot_at image.old.slots 0))) }
    ensures fault { IfErr result IsHinderedBy }
    ensures size { length slot.new ≡ length slot.old }
{
    let _geometry = image.geometry();
    if image.load(0, slot).is_err() {
        return Err(NO_SLOT);
    }
    if write_label(alloc, slot, fields).is_err() {
        return Err(NO_MEMORY);
    }
    save(image, 0, slot)
}

// Writes a serial number, where one is given, into the blocks of the data sets that began on the volume of the first one.
fn write_serials(
    image: &mut Image<VolumeFile>,
    slot: &mut [u8],
    blocks: &[Block],
    old: [u8; 6],
    new: Option<[u8; 6]>,
) -> Result<(), ChangeFault>
    requires size { length slot.old ≡ image.old.geometry.track_size }
    ensures same { IsSameImage image.old image.new }
    ensures slots { OnOk result (image.new.slots ≡ fold (serial_in image.old.geometry old new) image.old.slots blocks.now) }
    ensures fault { IfErr result (λ e. e ≡ ChangeFault.Job JobFault.Store) }
{
    for block in blocks {
        write_serial(image, slot, block, old, new)?;
    }
    Ok(())
}

// Writes it into one of them.
fn write_serial(
    image: &mut Image<VolumeFile>,
    slot: &mut [u8],
    block: &Block,
    old: [u8; 6],
    new: Option<[u8; 6]>,
) -> Result<(), ChangeFault>
    requires size { length slot.old ≡ image.old.geometry.track_size }
    ensures same { IsSameImage image.old image.new }
    ensures slots { OnOk result (image.new.slots ≡ serial_in image.old.geometry old new image.old.slots block.now) }
    ensures fault { IfErr result (λ e. e ≡ ChangeFault.Job JobFault.Store) }
    ensures size { length slot.new ≡ length slot.old }
{
    let Some(new) = new else {
        return Ok(());
    };
    match serial_change(block, old, new) {
        Some(change) => write_change(image, slot, &change),
        None => Ok(()),
    }
}

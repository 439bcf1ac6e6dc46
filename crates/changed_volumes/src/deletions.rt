//! A data set of the volume of an image in memory that is deleted.

ghost use Rattle.std.specs.Prelude.{◌≡◌, length, string_bytes, true, Ok, IfOk, IfErr, OnOk};
ghost use Rattle.std.specs.List.{position};
ghost use Rattle.volume_contents.specs.Contents.{contents_of, SaysOf};
ghost use Rattle.volume_contents.specs.Sets.{has_name};
ghost use Rattle.volume_changes.specs.Volumes.{said_in};
ghost use Rattle.volume_changes.specs.Plans.{deletion_of, IsPlanned};
ghost use Rattle.volume_changes.specs.Deletions.{all_changed, confirmed, is_confirmed, deleted_by};
ghost use Rattle.changed_volumes.specs.Changes.{IsSameImage, IsRefused, IsHinderedBy};
ghost use Rattle.changed_volumes.specs.Files.{deleted_text, extents_at};

use crate::changes::ImageChange;
use crate::fault::{ChangeFault, NO_MEMORY};
use crate::images::{read_said, write_change};
use crate::lines::deleted_text;
use ckd_image::Image;
use dasd_files::VolumeFile;
use dasd_jobs::JobFault;
use std::alloc::{AllocError, Global};
use volume_changes::{
    BlockChange, ChangeRefusal, DeletionPlan, PlanFault, is_confirmed, plan_deletion,
};
use volume_contents::{Block, Contents, find};

/// A data set that is deleted, and what is said of it.
#[derive(Clone, Copy)]
pub(crate) struct SetDeletion<'a> {
    /// Its name as it was asked for.
    pub(crate) name: &'a str,
    /// Its name in EBCDIC, with blanks after it.
    pub(crate) of_set: [u8; 44],
}

impl<'a> ImageChange for SetDeletion<'a> {
    ghost use Rattle.changed_volumes.specs.Files.{deleting};

    type Answer = String;

    type Refusal = ChangeRefusal;

    ghost changing = { λ d. deleting d.name.now d.of_set };

    fn change(&self, alloc: Global, image: &mut Image<VolumeFile>) -> Result<String, ChangeFault> {
        let contents = read_said(alloc, image)?;
        let Ok(text) = text_of(
            alloc,
            self.name,
            contents.found.blocks.as_slice(),
            &self.of_set,
        ) else {
            return Err(NO_MEMORY);
        };
        let Ok(mut slot) = vec![in alloc; 0u8; image.geometry().track_size as usize] else {
            return Err(NO_MEMORY);
        };
        delete(alloc, image, slot.as_mut_slice(), contents, &self.of_set)?;
        Ok(text)
    }
}

// What is said of the first data set of a name that is deleted.
fn text_of(
    alloc: Global,
    name: &str,
    blocks: &[Block],
    of_set: &[u8; 44],
) -> Result<String, AllocError>
    ensures { IfOk result (λ text. string_bytes text
        ≡ deleted_text name.now (extents_at blocks.now (position (has_name of_set.now) blocks.now))) }
{
    match find(alloc, blocks, &of_set[..])? {
        Some(set) => deleted_text(alloc, name, set.extents.as_slice()),
        None => deleted_text(alloc, name, &[]),
    }
}

/// Deletes a data set of the volume of an image that says this, by a slot of its size.
///
/// # Errors
///
/// The data set is not deleted, or there is no memory; the image then holds any bytes in the slots of its table of contents.
pub(crate) fn delete(
    alloc: Global,
    image: &mut Image<VolumeFile>,
    slot: &mut [u8],
    contents: Contents,
    name: &[u8; 44],
) -> Result<(), ChangeFault>
    requires size { length slot.old ≡ image.old.geometry.track_size }
    ensures same { IsSameImage image.old image.new }
    ensures slots { OnOk result (deleted_by image.old.geometry contents.found.blocks.items image.old.slots
        (deletion_of image.old.geometry (said_in contents) name.now) ≡ Ok image.new.slots) }
    ensures refused { IfErr result (λ e. IsRefused e (deleted_by image.old.geometry contents.found.blocks.items image.old.slots
        (deletion_of image.old.geometry (said_in contents) name.now))) }
{
    let mut contents = contents;
    let plan = plan_on(alloc, image, &mut contents, name)?;
    write_changes(image, slot, plan.changes.as_slice())?;
    confirm(alloc, image, contents.found.blocks.as_slice(), &plan)
}

// What is deleted with the data set.
fn plan_on(
    alloc: Global,
    image: &Image<VolumeFile>,
    contents: &mut Contents,
    name: &[u8; 44],
) -> Result<DeletionPlan, ChangeFault>
    ensures planned { IfOk result (λ plan. deletion_of image.now.geometry (said_in contents.old) name.now
        ≡ Ok (record { changes = plan.changes.items; marks = plan.marks.items })) }
    ensures refused { IfErr result (λ e. IsRefused e (deletion_of image.now.geometry (said_in contents.old) name.now)) }
    ensures blocks { contents.new.found.blocks ≡ contents.old.found.blocks }
{
    match plan_deletion(alloc, image.geometry(), contents, &name[..]) {
        Ok(plan) => Ok(plan),
        Err(PlanFault::Refused(refusal)) => Err(ChangeFault::Refused(refusal)),
        Err(PlanFault::OutOfMemory) => Err(NO_MEMORY),
    }
}

// Writes changes, one after another.
fn write_changes(
    image: &mut Image<VolumeFile>,
    slot: &mut [u8],
    changes: &[BlockChange],
) -> Result<(), ChangeFault>
    requires size { length slot.old ≡ image.old.geometry.track_size }
    ensures same { IsSameImage image.old image.new }
    ensures slots { OnOk result (image.new.slots ≡ all_changed image.old.geometry changes.now image.old.slots) }
    ensures fault { IfErr result (λ e. e ≡ ChangeFault.Job JobFault.Store) }
{
    for change in changes {
        write_change(image, slot, change)?;
    }
    Ok(())
}

// Looks whether the volume says behind them what it should.
fn confirm(
    alloc: Global,
    image: &Image<VolumeFile>,
    before: &[Block],
    plan: &DeletionPlan,
) -> Result<(), ChangeFault>
    ensures confirmed { OnOk result (is_confirmed image.now.geometry before.now
        (record { changes = plan.now.changes.items; marks = plan.now.marks.items }) (contents_of image.now.geometry image.now.slots) ≡ true) }
    ensures refused { IfErr result (λ e. IsRefused e (confirmed image.now.geometry before.now
        (record { changes = plan.now.changes.items; marks = plan.now.marks.items }) image.now.slots)) }
{
    let mut after = read_said(alloc, image)?;
    match is_confirmed(alloc, image.geometry(), before, plan, &mut after) {
        Ok(true) => Ok(()),
        Ok(false) => Err(ChangeFault::Refused(ChangeRefusal::Unconfirmed)),
        Err(_) => Err(NO_MEMORY),
    }
}

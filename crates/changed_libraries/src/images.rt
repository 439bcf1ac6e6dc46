//! An image in memory, of whose volume a member of a library is changed.

ghost use Rattle.std.specs.Prelude.{◌≡◌, true, Ok, Err, IfOk, IfErr, OnOk};
ghost use Rattle.record_tracks.specs.Entries.{all_contents};
ghost use Rattle.changed_volumes.specs.Changes.{IsSameImage, IsNotDone, IsHinderedBy};
ghost use Rattle.member_changes.specs.Libraries.{directory_on};
ghost use Rattle.member_changes.specs.Places.{places_up_to, all_written};
ghost use Rattle.member_changes.specs.Volumes.{reads_back, confirmed, with_plan, with_directory, library_changed, member_changed};

use crate::directories::{DirectoryBlocks, find_places, put_blocks, read_directory};
use crate::fault::{MemberFault, NO_MEMORY, of_planning};
use changed_volumes::{ImageChange, read_said};
use ckd_image::Image;
use dasd_files::VolumeFile;
use member_changes::{
    DirectoryPlan, EntryChange, MemberRefusal, is_confirmed, library_extents, plan_change,
};
use record_tracks::NewEntry;
use std::alloc::Global;
use volume_labels::Extent;

/// A change of a member of a library.
#[derive(Clone, Copy)]
pub struct MemberChange {
    /// The name of the library, in EBCDIC, with blanks after it.
    pub library: [u8; 44],
    /// What is changed of the entries of its directory.
    pub change: EntryChange,
}

/// Changes a member of a library of the volume of an image in memory, in the blocks of the library's directory alone: these keep their places
/// and their number, and every other record stays.
///
/// # Errors
///
/// The first of these, in this order: the volume has no label, no table of contents or no data set of the name; that is not partitioned; its
/// directory is not whole, or on alternate tracks; it has no entry of the name; an entry has the new name; its blocks can't have the entries
/// that are left, or have no room for them; or it would not say afterwards what it should. Or there is no memory. The image then holds any
/// bytes in the slots of the directory.
pub fn change_member(
    alloc: Global,
    image: &mut Image<VolumeFile>,
    change: &MemberChange,
) -> Result<(), MemberFault>
    ensures same { IsSameImage image.old image.new }
    ensures slots { OnOk result (member_changed change.now.library change.now.change image.old.geometry image.old.slots ≡ Ok image.new.slots) }
    ensures refused { IfErr result (λ e. IsNotDone e (λ r. member_changed change.now.library change.now.change image.old.geometry image.old.slots
        ≡ Err r)) }
{
    let contents = read_said(alloc, image)?;
    let extents = match library_extents(alloc, &contents, &change.library[..]) {
        Ok(extents) => extents,
        Err(fault) => return Err(of_planning(fault)),
    };
    change_library(alloc, image, extents.as_slice(), &change.change)
}

// Changes a member of the library with these extents.
fn change_library(
    alloc: Global,
    image: &mut Image<VolumeFile>,
    extents: &[Extent],
    change: &EntryChange,
) -> Result<(), MemberFault>
    ensures same { IsSameImage image.old image.new }
    ensures slots { OnOk result (library_changed change.now image.old.geometry image.old.slots extents.now ≡ Ok image.new.slots) }
    ensures refused { IfErr result (λ e. IsNotDone e (λ r. library_changed change.now image.old.geometry image.old.slots extents.now ≡ Err r)) }
{
    let directory = read_directory(alloc, image, extents)?;
    change_directory(alloc, image, extents, &directory, change)
}

// Changes an entry of its directory, which was read.
fn change_directory(
    alloc: Global,
    image: &mut Image<VolumeFile>,
    extents: &[Extent],
    directory: &DirectoryBlocks,
    change: &EntryChange,
) -> Result<(), MemberFault>
    ensures same { IsSameImage image.old image.new }
    ensures slots { OnOk result (with_directory change.now extents.now image.old.geometry image.old.slots
        (record { bytes = directory.now.bytes.items; last = directory.now.last }) ≡ Ok image.new.slots) }
    ensures refused { IfErr result (λ e. IsNotDone e (λ r. with_directory change.now extents.now image.old.geometry image.old.slots
        (record { bytes = directory.now.bytes.items; last = directory.now.last }) ≡ Err r)) }
{
    match plan_change(alloc, directory.bytes.as_slice(), change) {
        Ok(plan) => write_plan(alloc, image, extents, directory.last, &plan),
        Err(fault) => Err(of_planning(fault)),
    }
}

// Writes what the directory is to have, and looks whether it is read so.
fn write_plan(
    alloc: Global,
    image: &mut Image<VolumeFile>,
    extents: &[Extent],
    last: u32,
    plan: &DirectoryPlan,
) -> Result<(), MemberFault>
    ensures same { IsSameImage image.old image.new }
    ensures slots { OnOk result (with_plan extents.now last image.old.geometry image.old.slots
        (record { entries = all_contents plan.now.entries.items; blocks = plan.now.blocks.items }) ≡ Ok image.new.slots) }
    ensures refused { IfErr result (λ e. IsNotDone e (λ r. with_plan extents.now last image.old.geometry image.old.slots
        (record { entries = all_contents plan.now.entries.items; blocks = plan.now.blocks.items }) ≡ Err r)) }
{
    write_blocks(alloc, image, extents, last, plan.blocks.as_slice())?;
    confirm(alloc, image, extents, plan.entries.as_slice())
}

// Writes the blocks of the directory.
fn write_blocks(
    alloc: Global,
    image: &mut Image<VolumeFile>,
    extents: &[Extent],
    last: u32,
    blocks: &[u8],
) -> Result<(), MemberFault>
    ensures same { IsSameImage image.old image.new }
    ensures slots { OnOk result (image.new.slots ≡ all_written image.old.geometry (places_up_to extents.now image.old.geometry image.old.slots last)
        blocks.now image.old.slots) }
    ensures fault { IfErr result IsHinderedBy }
{
    let Ok(mut slot) = vec![in alloc; 0u8; image.geometry().track_size as usize] else {
        return Err(NO_MEMORY);
    };
    let slot = slot.as_mut_slice();
    let places = find_places(alloc, image, slot, extents, last)?;
    put_blocks(image, slot, places.as_slice(), blocks)
}

// Looks whether the directory has these entries, read again.
fn confirm(
    alloc: Global,
    image: &Image<VolumeFile>,
    extents: &[Extent],
    entries: &[NewEntry],
) -> Result<(), MemberFault>
    ensures confirmed { OnOk result (reads_back (all_contents entries.now) (directory_on extents.now image.now.geometry image.now.slots) ≡ true) }
    ensures refused { IfErr result (λ e. IsNotDone e (λ r. confirmed extents.now (all_contents entries.now) image.now.geometry image.now.slots
        ≡ Err r)) }
{
    let directory = match read_directory(alloc, image, extents) {
        Ok(directory) => directory,
        Err(MemberFault::Refused(_)) => return Err(MemberFault::Refused(
            MemberRefusal::Unconfirmed,
        )),
        Err(fault) => return Err(fault),
    };
    match is_confirmed(alloc, directory.bytes.as_slice(), entries) {
        Ok(true) => Ok(()),
        Ok(false) => Err(MemberFault::Refused(MemberRefusal::Unconfirmed)),
        Err(_) => Err(NO_MEMORY),
    }
}

impl ImageChange for MemberChange {
    ghost use Rattle.changed_libraries.specs.Changes.{changing};

    type Answer = ();

    type Refusal = MemberRefusal;

    ghost changing = { λ change. changing change.library change.change };

    fn change(&self, alloc: Global, image: &mut Image<VolumeFile>) -> Result<(), MemberFault> {
        change_member(alloc, image, self)
    }
}

//! An image in memory, a library of whose volume gets a member.

ghost use Rattle.std.specs.Prelude.{◌≡◌, Ok, OnOk, IfOk, IfErr, length};
ghost use Rattle.changed_volumes.specs.declared.images.VolumeChange.TheVariants.{Delete};
ghost use Rattle.changed_volumes.specs.Changes.{IsSameImage, changed_by};
ghost use Rattle.loaded_folders.specs.Added.{Added, IsNotAdded};
ghost use Rattle.loaded_folders.specs.MemberParts.{MakesBlocks, IsNotMade, IsNotDeleted, PutsLibrary, IsNotPut};

use crate::added::{AddedMember, OldLibrary};
use crate::blocks::member_blocks;
use crate::member_entries::{member_entries, names_member, note_list, with_entry, with_member};
use crate::member_fault::{
    NO_MEMORY, NewMemberFault, NewMemberRefusal, of_deletion, of_loading, of_unmade, refused,
};
use crate::old::read_old;
use changed_volumes::{VolumeChange, change_image};
use ckd_image::Image;
use ckd_track::DriveModel;
use dasd_files::VolumeFile;
use loaded_sets::{LoadedLibrary, SourceForm, load_library};
use std::alloc::Global;

/// Puts a member into a library of the volume of an image in memory, and answers how many tracks the library has then. The library is written
/// anew: its data set is deleted, and its entries and members are put onto the volume, under the same name, with as many tracks at least and a
/// directory of the same size, with the new member behind the others and its entry where its name belongs. Its label says what it said, with
/// its days, its password and its secondary allocation, but for its place and its last block. Tracks and addresses may be others then.
///
/// # Errors
///
/// The first of these, in this order: nothing is put onto the volume at all; it has no data set of the name; that has no directory; the
/// library is not whole; a member of it has the name; an entry of it leads to a note list, whose addresses would be wrong; the file has no
/// blocks for it; the data set is not deleted; the library with the member
/// is not put onto the volume, as where its directory has too few blocks. Or there is no memory. The image then holds any bytes.
pub fn add_member(
    alloc: Global,
    image: &mut Image<VolumeFile>,
    added: &AddedMember,
) -> Result<u32, NewMemberFault>
    ensures same { IsSameImage image.old image.new }
    ensures added { IfOk result (λ tracks. Added added.now image.old.geometry image.old.slots tracks image.new.slots) }
    ensures fault { IfErr result (λ e. IsNotAdded e added.now image.old.geometry image.old.slots) }
{
    let model = image.geometry().model;
    let old = match read_old(alloc, image, &added.library) {
        Ok(old) => old,
        Err(fault) => return Err(fault),
    };
    let blocks = match new_blocks(alloc, model, &old, added) {
        Ok(blocks) => blocks,
        Err(fault) => return Err(fault),
    };
    match delete_old(alloc, image, added.library) {
        Ok(()) => put_new(alloc, image, &old, added, blocks.as_slice()),
        Err(fault) => Err(fault),
    }
}

// The blocks of a member's file in such a library, no member of which has the name, and no entry a note list.
fn new_blocks(
    alloc: Global,
    model: DriveModel,
    old: &OldLibrary,
    added: &AddedMember,
) -> Result<Vec<u8>, NewMemberFault>
    ensures blocks { IfOk result (λ blocks. MakesBlocks added.now model old.now blocks.items) }
    ensures fault { IfErr result (λ e. IsNotMade e added.now model old.now) }
{
    let entries = old.contents.entries.as_slice();
    if names_member(entries, &added.name) {
        return Err(refused(NewMemberRefusal::NameTaken));
    }
    if let Some(number) = note_list(entries) {
        return Err(refused(NewMemberRefusal::NoteList(number)));
    }
    match member_blocks(alloc, model, &old.form, added) {
        Ok(blocks) => Ok(blocks),
        Err(fault) => Err(of_unmade(fault)),
    }
}

// Deletes the data set of a library.
fn delete_old(
    alloc: Global,
    image: &mut Image<VolumeFile>,
    library: [u8; 44],
) -> Result<(), NewMemberFault>
    ensures same { IsSameImage image.old image.new }
    ensures slots { OnOk result (changed_by (Delete library) image.old.geometry image.old.slots ≡ Ok image.new.slots) }
    ensures fault { IfErr result (λ e. IsNotDeleted e library image.old.geometry image.old.slots) }
{
    match change_image(alloc, image, &VolumeChange::Delete(library)) {
        Ok(()) => Ok(()),
        Err(fault) => Err(of_deletion(fault)),
    }
}

// Puts a library onto the volume of an image, with a member of these blocks.
fn put_new(
    alloc: Global,
    image: &mut Image<VolumeFile>,
    old: &OldLibrary,
    added: &AddedMember,
    blocks: &[u8],
) -> Result<u32, NewMemberFault>
    ensures same { IsSameImage image.old image.new }
    ensures puts { IfOk result (λ tracks. PutsLibrary added.now old.now blocks.now image.old.geometry image.old.slots tracks image.new.slots) }
    ensures fault { IfErr result (λ e. IsNotPut e added.now old.now blocks.now image.old.geometry image.old.slots) }
{
    let read = old.contents.entries.as_slice();
    let number = old.contents.members.len();
    let Ok(kept) = with_entry(alloc, read, added.name, number) else {
        return Err(NO_MEMORY);
    };
    let Ok(entries) = member_entries(alloc, kept.as_slice()) else {
        return Err(NO_MEMORY);
    };
    let Ok(members) = with_member(alloc, old.contents.members.as_slice(), blocks) else {
        return Err(NO_MEMORY);
    };
    let library = LoadedLibrary {
        name: added.library,
        form: old.form,
        kept: old.kept,
        source: SourceForm::WithLengths,
        directory_blocks: old.directory_blocks,
        entries: entries.as_slice(),
        members: members.as_slice(),
    };
    match load_library(alloc, image, &library) {
        Ok(tracks) => Ok(tracks),
        Err(fault) => Err(of_loading(fault)),
    }
}

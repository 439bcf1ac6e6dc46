//! The members of a partitioned data set, in the order of its directory.

ghost use Rattle.std.specs.Prelude.{◌≡◌, ◌≢◌, OnOk, IfErr};
ghost use Rattle.dasd_volumes.specs.Reading.{IsRead};
ghost use Rattle.library_contents.specs.Report.{AddsOf};
ghost use Rattle.library_contents.specs.Lines.{shown};
ghost use Rattle.library_contents.specs.ListedMembers.{user_data, member_lines, entries_lines, library_lines};

use crate::lines::{Listed, MembersForm, Wrong, add_end, add_heading, add_member, add_wrong};
use crate::listed_blocks::read_blocks;
use crate::report::Report;
use dasd_extract::{self as source, directory_of, member_of};
use dasd_volumes::{SlotReader, VolumeFault};
use std::alloc::Global;
use volume_labels::{DirectoryEntry, DirectoryStep, Extent, directory_step, safe_name};

/// A partitioned data set, and how its members are listed.
#[derive(Clone, Copy)]
pub struct Library<'a> {
    /// How they are listed.
    pub form: MembersForm<'a>,
    /// Its extents, in order.
    pub extents: &'a [Extent],
}

/// An entry of a directory, with its user data.
#[derive(Clone, Copy)]
struct Member<'a> {
    entry: DirectoryEntry,
    user: &'a [u8],
}

/// Adds a line for each member of a library, in the order of its directory, with where it begins and how much it has; behind one whose
/// blocks end before an end of file, a line that says so; and behind them what is wrong with the directory. One member's blocks are in
/// memory at a time.
///
/// # Errors
///
/// There is no memory for a line or for blocks, or a read fails.
pub fn list_members<V: SlotReader>(
    alloc: Global,
    volume: &mut V,
    report: &mut Report,
    library: Library,
) -> Result<(), VolumeFault>
    ensures lines { OnOk result (AddsOf (V.volume volume.old) report.old report.new
        (library_lines (shown library.entry.form) library.entry.extents.now)) }
    ensures fault { IfErr result (λ e. e ≢ VolumeFault.Write) }
    ensures volume { IsRead result (V.volume volume.old) (V.volume volume.new) (V.failures volume.old) (V.failures volume.new) }
{
    if let Err(fault) = add_heading(report, library.form) {
        return Err(fault);
    }
    let directory = match read_blocks(alloc, volume, directory_of(library.extents)) {
        Ok(directory) => directory,
        Err(fault) => return Err(fault),
    };
    let bytes = directory.bytes.as_slice();
    if let Err(fault) = list_entries(alloc, volume, report, library, bytes) {
        return Err(fault);
    }
    add_end(report, library.form, None, directory.stop)
}

// The lines of the entries in the blocks of a directory, and of what is wrong behind them.
fn list_entries<V: SlotReader>(
    alloc: Global,
    volume: &mut V,
    report: &mut Report,
    library: Library,
    bytes: &[u8],
) -> Result<(), VolumeFault>
    ensures lines { OnOk result (AddsOf (V.volume volume.old) report.old report.new
        (entries_lines (shown library.entry.form) library.entry.extents.now bytes.now)) }
    ensures fault { IfErr result (λ e. e ≢ VolumeFault.Write) }
    ensures volume { IsRead result (V.volume volume.old) (V.volume volume.new) (V.failures volume.old) (V.failures volume.new) }
{
    let mut at = 0;
    for _ in 0..bytes.len() {
        match directory_step(bytes, at) {
            DirectoryStep::Entry(entry, next) => {
                let user = user_data(bytes, entry, next);
                let member = Member { entry, user };
                if let Err(fault) = list_member(alloc, volume, report, library, member) {
                    return Err(fault);
                }
                at = next;
            }
            DirectoryStep::Skip(next) => at = next,
            DirectoryStep::End => return Ok(()),
            DirectoryStep::Fault(fault) => {
                return add_wrong(report, library.form, None, Wrong::Directory(fault));
            }
        }
    }
    Ok(())
}

// The user data of an entry, which ends where the next one begins.
fn user_data<'a>(bytes: &'a [u8], entry: DirectoryEntry, next: usize) -> &'a [u8]
    ensures { result.now ≡ user_data bytes.now entry next }
{
    if next > bytes.len() {
        return &[];
    }
    let first = next.saturating_sub(usize::from(entry.user_bytes));
    &bytes[first..next]
}

// The line of a member, and that of its end, if that is no end of file.
fn list_member<V: SlotReader>(
    alloc: Global,
    volume: &mut V,
    report: &mut Report,
    library: Library,
    member: Member,
) -> Result<(), VolumeFault>
    ensures lines { OnOk result (AddsOf (V.volume volume.old) report.old report.new
        (member_lines (shown library.entry.form) library.entry.extents.now member.entry.entry member.entry.user.now)) }
    ensures fault { IfErr result (λ e. e ≢ VolumeFault.Write) }
    ensures volume { IsRead result (V.volume volume.old) (V.volume volume.new) (V.failures volume.old) (V.failures volume.new) }
{
    let Member { entry, user } = member;
    let wanted = member_of(library.extents, entry, source::ExtractedForm::Raw);
    let blocks = match read_blocks(alloc, volume, wanted) {
        Ok(blocks) => blocks,
        Err(fault) => return Err(fault),
    };
    let Ok(name) = safe_name(alloc, &entry.name) else {
        return Err(VolumeFault::OutOfMemory);
    };
    let bytes = blocks.bytes.as_slice();
    let listed = Listed {
        entry,
        name: name.as_str(),
        user,
        bytes: bytes.len(),
    };
    if let Err(fault) = add_member(report, library.form, listed) {
        return Err(fault);
    }
    add_end(report, library.form, Some(name.as_str()), blocks.stop)
}

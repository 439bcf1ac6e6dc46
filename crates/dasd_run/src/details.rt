//! More of what a volume holds than its table says, and the members of its libraries.

ghost use Rattle.counted_io.specs.Streams.{seen_by};
ghost use Rattle.volume_details.specs.Sections.{shown_by};
ghost use Rattle.dasd_run.specs.Details.{PrintsDetails, ListsDetails, ListsMembers};
ghost use Rattle.dasd_run.specs.Outside.{Looks};

use crate::commands::{Ending, worse};
use crate::host::Host;
use crate::printed_paths::{path_if, quoted};
use crate::reaches::with_reach;
use crate::vtoc::{checked_contents, held_ending, write_contents};
use counted_io::Counted;
use dasd_jobs::{Progress, SlotReader, Traces, open_volume};
use dasd_words::{DetailedVolume, ListedLibrary};
use program_faults::ProgramFault;
use std::alloc::Global;
use std::io::{Read, Write};
use volume_details::{DetailForm, print_library, print_sections};

/// Prints what the volume of these files holds, and behind it a section for each data set of which there is more to show; and says whether
/// something is wrong with it.
///
/// # Errors
///
/// There is no memory, or the files hold no volume, or it can't be read; or a write failed, or the flush, and exactly then it is a write
/// fault.
pub(crate) fn list_details<F: Traces, R: Read, W: Write, P: Progress>(
    host: &mut Host<F, R, W, P>,
    asked: &DetailedVolume,
) -> Result<Ending, ProgramFault>
    ensures looks { Looks host.old host.new }
    ensures lists { ListsDetails result asked.now host.old host.new }
{
    let paths = asked.volume.paths.as_slice();
    let path = quoted(host.alloc, paths)?;
    let json = path_if(asked.volume.json, path.as_str());
    let view = DetailForm {
        json,
        members: asked.members,
        is_long: asked.is_long,
    };
    let mut volume = open_volume(host.alloc, &mut host.files, paths, asked.volume.as_far)?;
    let reach = volume.reach();
    let printed = print_details(host.alloc, &mut volume, &mut host.writer, view);
    with_reach(reach, printed)
}

// Prints what a volume holds, and then its sections.
fn print_details<V: SlotReader, W: Write>(
    alloc: Global,
    volume: &mut V,
    writer: &mut Counted<W>,
    view: DetailForm,
) -> Result<Ending, ProgramFault>
    ensures { PrintsDetails result (shown_by view.entry) (V.volume volume.old) (seen_by W.contents writer.old) (seen_by W.contents writer.new) }
{
    let geometry = volume.geometry();
    let contents = checked_contents(alloc, volume)?;
    write_contents(alloc, writer, view.json, geometry, &contents)?;
    let is_wrong = print_sections(alloc, volume, writer, view, &contents)?;
    Ok(worse(held_ending(&contents), is_wrong))
}

/// Prints the members of a partitioned data set of the volume of these files, and says whether something is wrong with them.
///
/// # Errors
///
/// There is no memory, or the files hold no volume, or it has no such data set, or one that is not partitioned, or it can't be read, before
/// anything is printed; or a write failed, or the flush, and exactly then it is a write fault.
pub(crate) fn list_library<F: Traces, R: Read, W: Write, P: Progress>(
    host: &mut Host<F, R, W, P>,
    asked: &ListedLibrary,
) -> Result<Ending, ProgramFault>
    ensures looks { Looks host.old host.new }
    ensures lists { ListsMembers result asked.now host.old host.new }
{
    let paths = asked.volume.paths.as_slice();
    let path = quoted(host.alloc, paths)?;
    let name = asked.name;
    let json = path_if(asked.volume.json, path.as_str());
    let mut volume = open_volume(host.alloc, &mut host.files, paths, asked.volume.as_far)?;
    let is_wrong = print_library(host.alloc, &mut volume, &mut host.writer, name, json)?;
    Ok(worse(Ending::Done, is_wrong))
}

//! The members of a library that is named.

ghost use Rattle.std.specs.Prelude.{◌≡◌, ◌≢◌, OnOk, IfOk, IfErr};
ghost use Rattle.std.specs.Option.{option_copied};
ghost use Rattle.counted_io.specs.Streams.{seen_by, IsFlushed};
ghost use Rattle.dasd_unload.specs.Asked.{SetOf};
ghost use Rattle.dasd_volumes.specs.Printing.{PrintsText, CountsWrites};
ghost use Rattle.library_contents.specs.Lines.{shown};
ghost use Rattle.library_contents.specs.ListedMembers.{library_lines};
ghost use Rattle.library_contents.specs.Report.{printed};
ghost use Rattle.volume_details.specs.Libraries.{ListsLibrary};
ghost use Rattle.volume_details.specs.Sections.{TellsWrong};

use crate::fault::{MemberListFault, of_volume};
use crate::printing::print_report;
use crate::sections::is_partitioned;
use counted_io::Counted;
use dasd_extract::data_set_name;
use dasd_volumes::{SlotReader, VolumeFault};
use library_contents::{Library, MembersForm, Report, list_members};
use std::alloc::Global;
use std::io::Write;
use volume_contents::{DataSet, find, read_contents};
use volume_labels::safe_name;

/// Prints the members of the first data set that has a name, in the order of its directory, with where each begins, its user data and how
/// many bytes its blocks have; as objects of JSON, where there are the paths of the volume for them, as a string of it with its quotes. It
/// says whether something is wrong with members or with the directory.
///
/// # Errors
///
/// There is no such data set, or it is not partitioned, or there is no memory, or a read fails: nothing is printed. Or a write failed, or
/// the flush, and exactly then it is a write fault.
pub fn print_library<V: SlotReader, W: Write>(
    alloc: Global,
    volume: &mut V,
    writer: &mut Counted<W>,
    name: &str,
    json: Option<&str>,
) -> Result<bool, MemberListFault>
    ensures lists { ListsLibrary result name.now (option_copied json.entry) (V.volume volume.old)
        (seen_by W.contents writer.old) (seen_by W.contents writer.new) }
{
    let set = match find_set(alloc, volume, name) {
        Ok(Some(set)) => set,
        Ok(None) => return Err(MemberListFault::NoDataSet),
        Err(fault) => return Err(of_volume(fault)),
    };
    if !is_partitioned(&set.block) {
        return Err(MemberListFault::NotPartitioned);
    }
    let Ok(safe) = safe_name(alloc, &set.block.name) else {
        return Err(MemberListFault::OutOfMemory);
    };
    let form = MembersForm {
        json,
        margin: "",
        name: safe.as_str(),
    };
    let extents = set.extents.as_slice();
    match print_members(alloc, volume, writer, Library { form, extents }) {
        Ok(is_wrong) => Ok(is_wrong),
        Err(fault) => Err(of_volume(fault)),
    }
}

// The first data set that has a name, if there is one.
fn find_set<V: SlotReader>(
    alloc: Global,
    volume: &mut V,
    name: &str,
) -> Result<Option<DataSet>, VolumeFault>
    ensures found { IfOk result (SetOf name.now (V.volume volume.old)) }
    ensures fault { IfErr result (λ e. e ≢ VolumeFault.Write) }
    ensures kept { V.volume volume.new ≡ V.volume volume.old }
{
    let Some(name) = data_set_name(name) else {
        return Ok(None);
    };
    let contents = match read_contents(alloc, volume) {
        Ok(contents) => contents,
        Err(fault) => return Err(fault),
    };
    match find(alloc, contents.found.blocks.as_slice(), &name) {
        Ok(found) => Ok(found),
        Err(_) => Err(VolumeFault::OutOfMemory),
    }
}

// Prints the members of a library, whose lines are made in memory.
fn print_members<V: SlotReader, W: Write>(
    alloc: Global,
    volume: &mut V,
    writer: &mut Counted<W>,
    library: Library,
) -> Result<bool, VolumeFault>
    ensures lines { PrintsText result (λ g slots. printed (library_lines (shown library.entry.form) library.entry.extents.now g slots)) (V.volume volume.old)
        (seen_by W.contents writer.old) (seen_by W.contents writer.new) }
    ensures wrong { IfOk result (TellsWrong (library_lines (shown library.entry.form) library.entry.extents.now) (V.volume volume.old)) }
    ensures writes { CountsWrites result (seen_by W.contents writer.old) (seen_by W.contents writer.new) }
    ensures none { IfErr result (λ e. e ≢ VolumeFault.Write → writer.new ≡ writer.old) }
    ensures flushed { OnOk result (IsFlushed (seen_by W.contents writer.new)) }
{
    let mut report = Report::new(alloc);
    if let Err(fault) = list_members(alloc, volume, &mut report, library) {
        return Err(fault);
    }
    match print_report(writer, &report) {
        Ok(()) => Ok(report.is_wrong),
        Err(fault) => Err(fault),
    }
}

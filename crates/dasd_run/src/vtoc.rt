//! What a volume holds: its label, its data sets, and what is wrong with them.

ghost use Rattle.std.specs.Prelude.{◌≡◌, ◌≢◌, length, IfOk, IfErr, OnOk, OnErr};
ghost use Rattle.std.specs.Option.{option_copied};
ghost use Rattle.counted_io.specs.Streams.{seen_by, Takes, TakesFront, IsFlushed};
ghost use Rattle.dasd_volumes.specs.Printing.{CountsWrites};
ghost use Rattle.dasd_run.specs.Ended.{counted_ending};
ghost use Rattle.dasd_run.specs.Held.{SaysAll, PrintsHeld, ListsContents, contents_text};
ghost use Rattle.dasd_run.specs.Outside.{Looks};

use crate::commands::{Ending, worse};
use crate::host::Host;
use crate::printed_paths::{path_if, quoted};
use crate::reaches::with_reach;
use ckd_track::Geometry;
use counted_io::Counted;
use dasd_contents::{write_lines, write_objects};
use dasd_jobs::{JobFault, Progress, SlotReader, Traces, open_volume};
use dasd_volumes::VolumeFault;
use dasd_words::PrintedVolume;
use program_faults::ProgramFault;
use std::alloc::Global;
use std::io::{Read, Write};
use volume_contents::{Contents, check_contents, read_contents};

/// Prints what the volume of these files holds, and says whether something is wrong with it.
///
/// # Errors
///
/// There is no memory, or the files hold no volume, or it can't be read, before anything is printed; or a write failed, or the flush, and
/// exactly then it is a write fault.
pub(crate) fn list_contents<F: Traces, R: Read, W: Write, P: Progress>(
    host: &mut Host<F, R, W, P>,
    asked: &PrintedVolume,
) -> Result<Ending, ProgramFault>
    ensures looks { Looks host.old host.new }
    ensures lists { ListsContents result asked.now host.old host.new }
{
    let paths = asked.paths.as_slice();
    let path = quoted(host.alloc, paths)?;
    let json = path_if(asked.json, path.as_str());
    let mut volume = open_volume(host.alloc, &mut host.files, paths, asked.as_far)?;
    let reach = volume.reach();
    let printed = print_contents(host.alloc, &mut volume, &mut host.writer, json);
    with_reach(reach, printed)
}

// Prints what a volume holds, in lines, or in objects where they have its paths; and says whether something is wrong with it.
fn print_contents<V: SlotReader, W: Write>(
    alloc: Global,
    volume: &mut V,
    writer: &mut Counted<W>,
    json: Option<&str>,
) -> Result<Ending, ProgramFault>
    ensures { PrintsHeld result (option_copied json.entry) (V.volume volume.old) (seen_by W.contents writer.old) (seen_by W.contents writer.new) }
{
    let geometry = volume.geometry();
    let contents = checked_contents(alloc, volume)?;
    write_contents(alloc, writer, json, geometry, &contents)?;
    Ok(held_ending(&contents))
}

/// Prints what a volume says of itself, in lines, or in objects where they have its paths.
pub(crate) fn write_contents<W: Write>(
    alloc: Global,
    writer: &mut Counted<W>,
    json: Option<&str>,
    geometry: Geometry,
    contents: &Contents,
) -> Result<(), VolumeFault>
    ensures text { OnOk result (Takes (seen_by W.contents writer.old) (seen_by W.contents writer.new)
        (contents_text (option_copied json.entry) geometry contents.now)) }
    ensures front { OnErr result (TakesFront (seen_by W.contents writer.old) (seen_by W.contents writer.new)
        (contents_text (option_copied json.entry) geometry contents.now)) }
    ensures writes { CountsWrites result (seen_by W.contents writer.old) (seen_by W.contents writer.new) }
    ensures flushed { OnOk result (IsFlushed (seen_by W.contents writer.new)) }
{
    match json {
        Some(path) => write_objects(alloc, writer, path, geometry, contents),
        None => write_lines(alloc, writer, geometry, contents),
    }
}

/// How the program ends, by what is wrong with a volume.
pub(crate) fn held_ending(contents: &Contents) -> Ending
    ensures { result ≡ counted_ending (length contents.now.found.findings.items) }
{
    worse(Ending::Done, contents.found.findings.as_slice().len() > 0)
}

/// What a volume says of itself, with all that is wrong.
pub(crate) fn checked_contents<V: SlotReader>(
    alloc: Global,
    volume: &mut V,
) -> Result<Contents, ProgramFault>
    ensures says { IfOk result (SaysAll (V.volume volume.old)) }
    ensures kept { V.volume volume.new ≡ V.volume volume.old }
    ensures fault { IfErr result (λ e. e ≢ ProgramFault.Job JobFault.Write) }
{
    let mut contents = read_contents(alloc, volume)?;
    check_contents(alloc, volume.geometry(), &mut contents)?;
    Ok(contents)
}

//! A list of a part of a volume.

ghost use Rattle.std.specs.Prelude.{◌≡◌, IfSome, IfNone};
ghost use Rattle.counted_io.specs.Streams.{seen_by};
ghost use Rattle.dasd_run.specs.Answers.{ListsPart};
ghost use Rattle.dasd_run.specs.Outside.{Looks};
ghost use Rattle.dasd_run.specs.Printed.{asked_cylinders, asked_list, HasCylinders, PrintsPart, TakesMemoryFirst};

use crate::archive::{range, style};
use crate::commands::Ending;
use crate::host::Host;
use crate::printed_paths::quoted;
use crate::reaches::with_reach;
use ckd_track::Geometry;
use counted_io::Counted;
use dasd_jobs::{Progress, SlotReader, Traces, open_volume};
use dasd_volumes::{Form, Listing, Range};
use dasd_words::{ListedPart, Numbers, PrintedVolume};
use program_faults::ProgramFault;
use std::alloc::Global;
use std::io::{Read, Write};

/// Prints a part of the volume of these files.
///
/// # Errors
///
/// There is no memory, or the files hold no volume, or it has no such part, before a line is printed; or what stopped the list, behind
/// the lines that are printed. A write fault comes exactly where a write failed, or the last flush.
pub(crate) fn list_part<F: Traces, R: Read, W: Write, P: Progress>(
    host: &mut Host<F, R, W, P>,
    asked: &PrintedVolume,
    part: ListedPart,
) -> Result<Ending, ProgramFault>
    ensures looks { Looks host.old host.new }
    ensures lists { ListsPart result asked.now part host.old host.new }
    ensures memory { TakesMemoryFirst result host.old.printed host.new.printed }
{
    let paths = asked.paths.as_slice();
    let path = quoted(host.alloc, paths)?;
    let form = Form {
        style: style(asked.json),
        path: path.as_str(),
    };
    let mut volume = open_volume(host.alloc, &mut host.files, paths, asked.as_far)?;
    let reach = volume.reach();
    let listed = list_opened(host.alloc, &mut volume, &mut host.writer, form, part);
    with_reach(reach, listed)
}

// Prints a part of a volume.
fn list_opened<V: SlotReader, W: Write>(
    alloc: Global,
    volume: &mut V,
    writer: &mut Counted<W>,
    form: Form,
    part: ListedPart,
) -> Result<Ending, ProgramFault>
    ensures part { PrintsPart result (HasCylinders part.cylinders) (asked_list form.entry.style form.entry.path.now part)
        (V.volume volume.old) (seen_by W.contents writer.old) (seen_by W.contents writer.new) }
    ensures memory { TakesMemoryFirst result (seen_by W.contents writer.old) (seen_by W.contents writer.new) }
{
    let Some(cylinders) = cylinders_of(volume.geometry(), part.cylinders) else {
        return Err(ProgramFault::NoTrack);
    };
    let listing = Listing {
        form,
        cylinders,
        used_only: part.used_only,
    };
    dasd_volumes::list_part(alloc, volume, writer, listing)?;
    Ok(Ending::Done)
}

// The cylinders that words ask for, or all, if a volume of this geometry has them.
fn cylinders_of(geometry: Geometry, asked: Option<Numbers>) -> Option<Range>
    ensures cylinders { IfSome result (λ found. found ≡ asked_cylinders asked geometry) }
    ensures exist { IfSome result (λ found. HasCylinders asked geometry) }
    ensures none { IfNone result (HasCylinders asked geometry → ⊥) }
{
    let cylinders = match asked {
        Some(numbers) => range(numbers),
        None => Range {
            first: 0,
            last: geometry.cylinders.saturating_sub(1),
        },
    };
    if cylinders.first > cylinders.last || cylinders.last >= geometry.cylinders {
        return None;
    }
    Some(cylinders)
}

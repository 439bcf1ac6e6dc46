//! A check of what the volume of files holds.

ghost use Rattle.std.specs.Prelude.{◌≡◌};
ghost use Rattle.std.specs.Option.{option_copied};
ghost use Rattle.counted_io.specs.Streams.{seen_by};
ghost use Rattle.dasd_run.specs.Outside.{Looks};
ghost use Rattle.dasd_run.specs.Whole.{PrintsFound, ChecksContents};

use crate::commands::{Ending, worse};
use crate::host::Host;
use crate::printed_paths::{path_if, quoted};
use crate::reaches::with_reach;
use counted_io::Counted;
use dasd_jobs::{Progress, SlotReader, Traces, open_volume};
use dasd_words::PrintedVolume;
use program_faults::ProgramFault;
use std::alloc::Global;
use std::io::{Read, Write};
use volume_findings::print_findings;

/// Prints all that is wrong with what the volume of these files holds, and says whether something is.
///
/// # Errors
///
/// There is no memory, or the files hold no volume, or it can't be read, before anything is printed; or a write failed, or the flush, and
/// exactly then it is a write fault.
pub(crate) fn check_contents<F: Traces, R: Read, W: Write, P: Progress>(
    host: &mut Host<F, R, W, P>,
    asked: &PrintedVolume,
) -> Result<Ending, ProgramFault>
    ensures looks { Looks host.old host.new }
    ensures checks { ChecksContents result asked.now host.old host.new }
{
    let paths = asked.paths.as_slice();
    let path = quoted(host.alloc, paths)?;
    let json = path_if(asked.json, path.as_str());
    let mut volume = open_volume(host.alloc, &mut host.files, paths, asked.as_far)?;
    let reach = volume.reach();
    let checked = check_opened(host.alloc, &mut volume, &mut host.writer, json);
    with_reach(reach, checked)
}

// Prints all that is wrong with what a volume holds, and says whether something is.
fn check_opened<V: SlotReader, W: Write>(
    alloc: Global,
    volume: &mut V,
    writer: &mut Counted<W>,
    json: Option<&str>,
) -> Result<Ending, ProgramFault>
    ensures { PrintsFound result (option_copied json.entry) (V.volume volume.old) (seen_by W.contents writer.old) (seen_by W.contents writer.new) }
{
    let is_wrong = print_findings(alloc, volume, writer, json)?;
    Ok(worse(Ending::Done, is_wrong))
}

//! A strict check of the volume of files.

ghost use Rattle.counted_io.specs.Streams.{seen_by};
ghost use Rattle.dasd_volumes.specs.Printing.{CountsWrites};
ghost use Rattle.dasd_archive.specs.Reports.{PrintsFindings};
ghost use Rattle.dasd_run.specs.Outside.{Looks};
ghost use Rattle.dasd_run.specs.Strict.{found_in, ChecksWhole, ChecksStrictly};

use crate::archive::style;
use crate::commands::{Ending, worse};
use crate::host::Host;
use crate::printed_paths::quoted;
use ckd_image::HEADER_LENGTH;
use counted_io::Counted;
use dasd_archive::{FileHeader, FindingForm, FindingStyle, Tally, check_headers, check_strict};
use dasd_jobs::{Progress, SlotReader, Traces, open_volume};
use dasd_volumes::VolumeFault;
use dasd_words::StrictCheck;
use program_faults::ProgramFault;
use std::alloc::Global;
use std::io::{Read, Write};

/// Prints all that is found on the volume of these files, and says whether there is an error.
///
/// # Errors
///
/// There is no memory, or the files hold no volume, or a header can't be read, before a line is printed; or what stopped the check,
/// behind the lines that are printed. A write fault comes exactly where a write failed, or the last flush.
pub(crate) fn check_strictly<F: Traces, R: Read, W: Write, P: Progress>(
    host: &mut Host<F, R, W, P>,
    asked: &StrictCheck,
) -> Result<Ending, ProgramFault>
    ensures looks { Looks host.old host.new }
    ensures checks { ChecksStrictly result asked.now host.old host.new }
{
    let paths = asked.volume.paths.as_slice();
    let path = quoted(host.alloc, paths)?;
    let form = FindingForm {
        style: FindingStyle {
            style: style(asked.volume.json),
            with_notes: asked.with_notes,
        },
        path: path.as_str(),
    };
    let mut volume = open_volume(host.alloc, &mut host.files, paths, asked.volume.as_far)?;
    let heads = volume.read_headers(host.alloc)?;
    let heads = heads.as_slice();
    check_opened(host.alloc, &mut volume, &mut host.writer, form, heads)
}

// Prints what is found of these headers and of a volume, and says whether there is an error.
fn check_opened<V: SlotReader, W: Write>(
    alloc: Global,
    volume: &mut V,
    writer: &mut Counted<W>,
    form: FindingForm,
    heads: &[[u8; HEADER_LENGTH]],
) -> Result<Ending, ProgramFault>
    ensures { ChecksWhole result form.entry.style form.entry.path.now heads.now (V.volume volume.old)
        (seen_by W.contents writer.old) (seen_by W.contents writer.new) }
{
    let mut tally = Tally::new();
    check_heads(alloc, writer, &mut tally, form, heads)?;
    let counted = check_strict(alloc, volume, writer, form, tally)?;
    Ok(worse(Ending::Done, counted.errors > 0))
}

// Prints what is found of these headers, the first of which is number 1, and counts it.
fn check_heads<W: Write>(
    alloc: Global,
    writer: &mut Counted<W>,
    tally: &mut Tally,
    form: FindingForm,
    heads: &[[u8; HEADER_LENGTH]],
) -> Result<(), VolumeFault>
    ensures found { PrintsFindings result form.entry.style form.entry.path.now (found_in heads.now)
        (seen_by W.contents writer.old) (seen_by W.contents writer.new) tally.old tally.new }
    ensures writes { CountsWrites result (seen_by W.contents writer.old) (seen_by W.contents writer.new) }
{
    for i in 0..heads.len() {
        let header = FileHeader {
            file: (i + 1).min(255) as u8,
            bytes: &heads[i],
        };
        check_headers(alloc, writer, tally, form, header)?;
    }
    Ok(())
}

//! The hashes of a volume, of its data sets and of their members are printed.

ghost use Rattle.std.specs.Prelude.{◌≡◌, ◌≢◌, ◌==◌, IfOk, IfErr, OnOk};
ghost use Rattle.hex.specs.Hex.{encode_lower};
ghost use Rattle.counted_io.specs.Streams.{seen_by, IsFlushed};
ghost use Rattle.dasd_volumes.specs.Printing.{PrintsText, CountsWrites};
ghost use Rattle.dasd_volumes.specs.Reading.{IsRead};
ghost use Rattle.volume_hash.specs.Lines.{line_or_object};
ghost use Rattle.volume_hash.specs.SetLines.{shown};
ghost use Rattle.volume_hash.specs.Prints.{IsReportOf, TellsWhole};
ghost use Rattle.volume_hash.specs.Sets.{asks_sets, hashes_text};

use crate::items::{HashesForm, Report};
use crate::sets::add_contents;
use crate::{VolumeHash, hash_volume, line_of};
use counted_io::{Counted, WriteFault, write_flushed};
use dasd_volumes::{SlotReader, VolumeFault};
use std::alloc::Global;
use std::io::Write;

/// Prints the hash of what a volume says, and behind it those of its data sets and of their members that are asked for, in the order of
/// the volume table of contents and of directories; and answers whether all of it is whole: each track can be read, and nothing is wrong
/// with the table of contents, with a directory or with where blocks end, of what is asked for. The lines are made in memory, and written
/// from there.
///
/// # Errors
///
/// There is no memory, and nothing is printed; a read of the volume failed, and nothing is printed; or a write failed, or the flush, and
/// exactly then it is a write fault. What was printed are the first bytes of the lines.
pub fn print_hashes<V: SlotReader, W: Write>(
    alloc: Global,
    volume: &mut V,
    writer: &mut Counted<W>,
    form: HashesForm,
) -> Result<bool, VolumeFault>
    ensures whole { let f = shown form.entry.path.now form.entry.json form.entry.sets form.entry.members in
        IfOk result (TellsWhole f (V.volume volume.old)) }
    ensures lines { let f = shown form.entry.path.now form.entry.json form.entry.sets form.entry.members in
        PrintsText result (hashes_text f) (V.volume volume.old) (seen_by W.contents writer.old) (seen_by W.contents writer.new) }
    ensures writes { CountsWrites result (seen_by W.contents writer.old) (seen_by W.contents writer.new) }
    ensures none { IfErr result (λ e. e ≡ VolumeFault.OutOfMemory → writer.new ≡ writer.old) }
    ensures unread { IfErr result (λ e. e ≡ VolumeFault.Store → writer.new ≡ writer.old) }
    ensures volume { IsRead result (V.volume volume.old) (V.volume volume.new) (V.failures volume.old) (V.failures volume.new) }
    ensures flushed { OnOk result (IsFlushed (seen_by W.contents writer.new)) }
{
    let report = match report_of(alloc, volume, form) {
        Ok(report) => report,
        Err(fault) => return Err(fault),
    };
    match write_flushed(writer, report.lines.as_slice()) {
        Ok(()) => Ok(report.is_whole),
        Err(WriteFault) => Err(VolumeFault::Write),
    }
}

// The lines of a volume's hash, and of those of its data sets and members that are asked for; and whether all of it is whole.
fn report_of<V: SlotReader>(
    alloc: Global,
    volume: &mut V,
    form: HashesForm,
) -> Result<Report, VolumeFault>
    ensures report { let f = shown form.entry.path.now form.entry.json form.entry.sets form.entry.members in
        IfOk result (IsReportOf f (V.volume volume.old)) }
    ensures fault { IfErr result (λ e. e ≢ VolumeFault.Write) }
    ensures volume { IsRead result (V.volume volume.old) (V.volume volume.new) (V.failures volume.old) (V.failures volume.new) }
{
    let hash = match hash_volume(alloc, volume) {
        Ok(hash) => hash,
        Err(fault) => return Err(fault),
    };
    let mut report = match volume_report(alloc, form, hash) {
        Ok(report) => report,
        Err(fault) => return Err(fault),
    };
    if !asks_sets(form) {
        return Ok(report);
    }
    match add_contents(alloc, volume, &mut report, form) {
        Ok(()) => Ok(report),
        Err(fault) => Err(fault),
    }
}

// Whether data sets have lines.
fn asks_sets(form: HashesForm) -> bool
    ensures { result ≡ asks_sets (shown form.entry.path.now form.entry.json form.entry.sets form.entry.members) }
{
    form.sets || form.members
}

// The line of a volume's hash, and whether all of its tracks can be read.
fn volume_report(alloc: Global, form: HashesForm, hash: VolumeHash) -> Result<Report, VolumeFault>
    ensures lines { IfOk result (λ r. r.lines.items ≡ line_or_object form.entry.path.now form.entry.json (encode_lower hash.digest) hash.unreadable) }
    ensures whole { IfOk result (λ r. r.is_whole ≡ (hash.unreadable == 0)) }
    ensures fault { IfErr result (λ e. e ≡ VolumeFault.OutOfMemory) }
{
    let line = crate::HashForm {
        path: form.path,
        json: form.json,
    };
    match line_of(alloc, line, hash) {
        Ok(lines) => Ok(Report {
            lines,
            is_whole: hash.unreadable == 0,
        }),
        Err(_) => Err(VolumeFault::OutOfMemory),
    }
}

//! A strict check of a volume.

ghost use Rattle.std.specs.Prelude.{◌≡◌, ◌≢◌, List, IfOk, IfErr, OnOk};
ghost use Rattle.counted_io.specs.Streams.{seen_by, IsFlushed};
ghost use Rattle.dasd_volumes.specs.Printing.{PrintsText, PrintsBytes, CountsWrites};
ghost use Rattle.dasd_volumes.specs.Reading.{IsRead};
ghost use Rattle.dasd_archive.specs.declared.findings.StrictFinding.{StrictFinding};
ghost use Rattle.dasd_archive.specs.Reports.{tally_line, tally_of, PrintsFindings};
ghost use Rattle.dasd_archive.specs.Strict.{strict_text, findings_in_header, Adds};

use crate::printed::{print_flushed, print_lines};
use crate::reports::{FindingForm, Tally, write_tally};
use crate::tracks::{CheckedTrack, check_header, check_track};
use ckd_image::HEADER_LENGTH;
use counted_io::Counted;
use dasd_volumes::{EachTrack, SlotReader, VolumeFault, VolumeTrack, all_tracks, each_track};
use std::alloc::Global;
use std::io::Write;

/// The header of a file of an image.
#[derive(Clone, Copy)]
pub struct FileHeader<'a> {
    /// Which file it is of; the first is number 1.
    pub file: u8,
    /// Its bytes.
    pub bytes: &'a [u8; HEADER_LENGTH],
}

// A strict check of tracks: how what is found is written and how much it is, and a table of records and the lines of one track.
#[derive(Drop)]
struct CheckedTracks<'a> {
    form: FindingForm<'a>,
    tally: Tally,
    table: Vec<u32>,
    lines: Vec<u8>,
}

/// Prints what is found of the header of a file of an image, and counts it. The line is made in memory, and written from there.
///
/// # Errors
///
/// There is no memory for the line; or a write failed, and exactly then it is a write fault. What was printed are the first bytes of
/// the line.
pub fn check_headers<W: Write>(
    alloc: Global,
    writer: &mut Counted<W>,
    tally: &mut Tally,
    form: FindingForm,
    header: FileHeader,
) -> Result<(), VolumeFault>
    ensures found { PrintsFindings result form.entry.style form.entry.path.now (findings_in_header header.entry.file header.entry.bytes.now)
        (seen_by W.contents writer.old) (seen_by W.contents writer.new) tally.old tally.new }
    ensures writes { CountsWrites result (seen_by W.contents writer.old) (seen_by W.contents writer.new) }
    ensures fault { IfErr result (λ e. e ≢ VolumeFault.Store) }
{
    let mut lines = Vec::new(alloc);
    let FileHeader { file, bytes } = header;
    if check_header(&mut lines, tally, form, file, bytes).is_err() {
        return Err(VolumeFault::OutOfMemory);
    }
    print_lines(writer, lines.as_slice())
}

/// Prints what a reader of the drive would trip over on a volume, and what is unusual or worth to know: each finding with its
/// severity and its place, but for notes where they are left out; and then how many there are of each severity, with those that were
/// found before, which it answers. What is found of a track is made lines in memory, and written from there.
///
/// # Errors
///
/// There is no memory for a slot, for a table of its records or for the lines of a track; a read of the volume failed; or a write
/// failed, or the last flush, and exactly then it is a write fault. What was printed are the first bytes of the text.
pub fn check_strict<V: SlotReader, W: Write>(
    alloc: Global,
    volume: &mut V,
    writer: &mut Counted<W>,
    form: FindingForm,
    tally: Tally,
) -> Result<Tally, VolumeFault>
    ensures counts { (earlier : List StrictFinding) → tally ≡ tally_of earlier
        → IfOk result (λ t. Adds earlier (V.volume volume.old) t) }
    ensures lines { (earlier : List StrictFinding) → tally ≡ tally_of earlier
        → PrintsText result (strict_text form.entry.style form.entry.path.now earlier) (V.volume volume.old)
        (seen_by W.contents writer.old) (seen_by W.contents writer.new) }
    ensures writes { CountsWrites result (seen_by W.contents writer.old) (seen_by W.contents writer.new) }
    ensures volume { IsRead result (V.volume volume.old) (V.volume volume.new) (V.failures volume.old) (V.failures volume.new) }
    ensures flushed { OnOk result (IsFlushed (seen_by W.contents writer.new)) }
{
    let geometry = volume.geometry();
    let size = geometry.track_size as usize;
    let (Ok(mut slot), Ok(table)) = (vec![in alloc; 0u8; size], vec![in alloc; 0u32; size]) else {
        return Err(VolumeFault::OutOfMemory);
    };
    let mut check = CheckedTracks {
        form,
        tally,
        table,
        lines: Vec::new(alloc),
    };
    let slot = slot.as_mut_slice();
    if let Err(fault) = each_track(&mut check, volume, writer, all_tracks(geometry), slot) {
        return Err(fault);
    }
    let tally = check.tally;
    match print_tally(writer, form, tally, &mut check.lines) {
        Ok(()) => Ok(tally),
        Err(fault) => Err(fault),
    }
}

// Prints the last line, and leaves nothing held back.
fn print_tally<W: Write>(
    writer: &mut Counted<W>,
    form: FindingForm,
    tally: Tally,
    lines: &mut Vec<u8>,
) -> Result<(), VolumeFault>
    ensures lines { PrintsBytes result (tally_line form.entry.style.style form.entry.path.now tally)
        (seen_by W.contents writer.old) (seen_by W.contents writer.new) }
    ensures writes { CountsWrites result (seen_by W.contents writer.old) (seen_by W.contents writer.new) }
    ensures fault { IfErr result (λ e. e ≢ VolumeFault.Store) }
    ensures flushed { OnOk result (IsFlushed (seen_by W.contents writer.new)) }
{
    lines.clear();
    if write_tally(lines, form, tally).is_err() {
        return Err(VolumeFault::OutOfMemory);
    }
    print_flushed(writer, lines.as_slice())
}

impl<'a> EachTrack for CheckedTracks<'a> {
    ghost use Rattle.std.specs.Prelude.{◌≡◌, length};
    ghost use Rattle.dasd_archive.specs.Reports.{finding_lines, CountsUp};
    ghost use Rattle.dasd_archive.specs.Strict.{findings_in_track};

    ghost text = { λ c track. finding_lines c.form.style c.form.path.now (findings_in_track track) };

    ghost IsKnown = { λ c. Unit {0} };

    ghost IsFor = { λ g c. length c.table.items ≡ g.track_size };

    ghost Notes = { λ before track now. CountsUp before.tally now.tally (findings_in_track track) };

    ghost Keeps = { λ before now. Unit {0} };

    ghost failures = { λ c. 0 };

    ghost WantsMemory = { Unit {0} };

    fn track<W: Write>(
        &mut self,
        writer: &mut Counted<W>,
        track: VolumeTrack,
        slot: &[u8],
    ) -> Result<(), VolumeFault> {
        let track = CheckedTrack {
            form: self.form,
            place: track,
        };
        self.lines.clear();
        let table = self.table.as_mut_slice();
        if check_track(&mut self.lines, &mut self.tally, &track, slot, table).is_err() {
            return Err(VolumeFault::OutOfMemory);
        }
        print_lines(writer, self.lines.as_slice())
    }

    ghost still = { λ x. tt };

    ghost kept = { λ a b c first next. tt };
}

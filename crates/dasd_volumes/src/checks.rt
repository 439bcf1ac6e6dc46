//! The tracks of a volume that can't be read.

ghost use Rattle.std.specs.Prelude.{◌≡◌, ◌≢◌, ◌<◌, false, length, IfOk, IfErr, OnOk};
ghost use Rattle.counted_io.specs.Streams.{seen_by, WritesWhole, IsFlushed};
ghost use Rattle.ckd_track.specs.Track.{track_of};
ghost use Rattle.dasd_volumes.specs.Printing.{PrintsText, CountsWrites, CountsFindings};
ghost use Rattle.dasd_volumes.specs.Reading.{IsRead};
ghost use Rattle.dasd_volumes.specs.Volumes.{IsTrack};
ghost use Rattle.dasd_volumes.specs.Checks.{findings_at, finding_line, number_line, lines_in, check_text, NumberIn};

use crate::fault::VolumeFault;
use crate::pieces::{LINE, put_address, put_fault};
use crate::progress::{Progress, Stage, is_large};
use crate::reading::SlotReader;
use crate::text::PrintedAddress;
use crate::walks::{EachTrack, VolumeTrack, all_tracks, each_track};
use arrayvec::ArrayString;
use ckd_track::{Geometry, SlotFault, read_slot};
use counted_io::{Counted, WriteFault, put_decimal, write_flushed};
use std::alloc::Global;
use std::io::Write;

// A check of tracks: where it is shown how far it has come, and how many tracks can't be read.
#[derive(Drop)]
struct CheckedTracks<'a, P> {
    progress: &'a mut P,
    findings: u32,
}

/// Prints each track of a volume that can't be read, with why, and then how many there are, which it answers. Of a
/// large volume it shows each cylinder, before its first track is read. Nothing is shown while a line is written, nor
/// behind the call.
///
/// # Errors
///
/// There is no memory for a slot, before anything is printed; a read of the volume failed; or a write failed, or a flush, and exactly
/// then it is a write fault. What was printed are the first bytes of the text.
pub fn check<V: SlotReader, W: Write, P: Progress>(
    alloc: Global,
    volume: &mut V,
    writer: &mut Counted<W>,
    progress: &mut P,
) -> Result<u32, VolumeFault>
    ensures number { IfOk result (NumberIn (V.volume volume.old)) }
    ensures lines { PrintsText result check_text (V.volume volume.old) (seen_by W.contents writer.old) (seen_by W.contents writer.new) }
    ensures writes { CountsWrites result (seen_by W.contents writer.old) (seen_by W.contents writer.new) }
    ensures none { IfErr result (λ e. e ≡ VolumeFault.OutOfMemory → writer.new ≡ writer.old) }
    ensures volume { IsRead result (V.volume volume.old) (V.volume volume.new) (V.failures volume.old) (V.failures volume.new) }
    ensures cleared { P.is_shown progress.new ≡ false }
    ensures flushed { OnOk result (IsFlushed (seen_by W.contents writer.new)) }
{
    progress.clear();
    let Ok(mut slot) = vec![in alloc; 0u8; volume.geometry().track_size as usize] else {
        return Err(VolumeFault::OutOfMemory);
    };
    let checked = check_tracks(volume, writer, progress, slot.as_mut_slice());
    progress.clear();
    match checked {
        Ok(findings) => match write_number(writer, progress, findings) {
            Ok(()) => Ok(findings),
            Err(WriteFault) => Err(VolumeFault::Write),
        },
        Err(fault) => Err(fault),
    }
}

// The lines of the tracks that can't be read, each of which is loaded into the slot; and how many they are.
fn check_tracks<V: SlotReader, W: Write, P: Progress>(
    volume: &mut V,
    writer: &mut Counted<W>,
    progress: &mut P,
    slot: &mut [u8],
) -> Result<u32, VolumeFault>
    requires size { length slot.old ≡ (V.volume volume.old).geometry.track_size }
    ensures number { IfOk result (NumberIn (V.volume volume.old)) }
    ensures lines { PrintsText result lines_in (V.volume volume.old) (seen_by W.contents writer.old) (seen_by W.contents writer.new) }
    ensures writes { CountsWrites result (seen_by W.contents writer.old) (seen_by W.contents writer.new) }
    ensures memory { IfErr result (λ e. e ≢ VolumeFault.OutOfMemory) }
    ensures volume { IsRead result (V.volume volume.old) (V.volume volume.new) (V.failures volume.old) (V.failures volume.new) }
{
    let geometry = volume.geometry();
    show_cylinder(progress, geometry, 0);
    let mut check = CheckedTracks {
        progress,
        findings: 0,
    };
    match each_track(&mut check, volume, writer, all_tracks(geometry), slot) {
        Ok(()) => Ok(check.findings),
        Err(fault) => Err(fault),
    }
}

impl<'a, P: Progress> EachTrack for CheckedTracks<'a, P> {
    ghost use Rattle.std.specs.Prelude.{◌≡◌, refl};
    ghost use Rattle.std.proofs.Common.{◌∙◌};
    ghost use Rattle.dasd_volumes.specs.Checks.{finding_lines, findings_in_track, CountsFinding};

    ghost text = { λ c track. finding_lines (findings_in_track track) };

    ghost IsKnown = { λ c. Unit {0} };

    ghost IsFor = { λ g c. Unit {0} };

    ghost Notes = { λ before track now. CountsFinding before.findings track now.findings };

    ghost Keeps = { λ before now. now.progress.ghost_name ≡ before.progress.ghost_name };

    ghost failures = { λ c. 0 };

    ghost WantsMemory = { ⊥ };

    fn track<W: Write>(
        &mut self,
        writer: &mut Counted<W>,
        track: VolumeTrack,
        slot: &[u8],
    ) -> Result<(), VolumeFault> {
        match check_track(writer, self.progress, track, slot) {
            Ok(found) => {
                self.findings = self.findings.saturating_add(found);
                show_next(self.progress, track);
                Ok(())
            }
            Err(WriteFault) => Err(VolumeFault::Write),
        }
    }

    ghost still = { λ x. refl };

    ghost kept = { λ a b c first next. next ∙ first };
}

// Shows a cylinder of a large volume.
fn show_cylinder<P: Progress>(progress: &mut P, geometry: Geometry, cylinder: u16)
    requires { cylinder < geometry.cylinders }
{
    if is_large(geometry) {
        progress.show(Stage::Checking(cylinder + 1, geometry.cylinders));
    }
}

// Shows the next cylinder of a large volume, behind the last track of one.
fn show_next<P: Progress>(progress: &mut P, track: VolumeTrack)
    requires { IsTrack track }
{
    let VolumeTrack {
        geometry,
        cylinder,
        head,
    } = track;
    if head + 1 == geometry.model.heads() && cylinder + 1 < geometry.cylinders {
        show_cylinder(progress, geometry, cylinder + 1);
    }
}

// The line of a track that can't be read; and whether it is one.
fn check_track<W: Write, P: Progress>(
    writer: &mut Counted<W>,
    progress: &mut P,
    track: VolumeTrack,
    slot: &[u8],
) -> Result<u32, WriteFault>
    ensures number { IfOk result (λ n. n ≡ length (findings_at track.cylinder track.head (track_of slot.now))) }
    ensures lines { CountsFindings result (seen_by W.contents writer.old) (seen_by W.contents writer.new)
        (findings_at track.cylinder track.head (track_of slot.now)) }
{
    let VolumeTrack { cylinder, head, .. } = track;
    let Err(fault) = read_slot(slot) else {
        return Ok(0);
    };
    progress.clear();
    write_finding(writer, progress, PrintedAddress { cylinder, head }, fault)?;
    Ok(1)
}

// The line of a track that can't be read, which is seen at once. Nothing is shown meanwhile.
fn write_finding<W: Write, P: Progress>(
    writer: &mut Counted<W>,
    _progress: &P,
    address: PrintedAddress,
    fault: SlotFault,
) -> Result<(), WriteFault>
    requires { P.is_shown _progress.now ≡ false }
    ensures { WritesWhole result (seen_by W.contents writer.old) (seen_by W.contents writer.new)
        (finding_line (record { cylinder = address.cylinder; head = address.head; fault = fault })) }
{
    let mut line: ArrayString<LINE> = ArrayString::new();
    put_address(&mut line, address);
    line.push_str(" ");
    put_fault(&mut line, fault);
    line.push_str("\n");
    write_flushed(writer, line.as_bytes())
}

// The last line of a check. Nothing is shown meanwhile.
fn write_number<W: Write, P: Progress>(
    writer: &mut Counted<W>,
    _progress: &P,
    findings: u32,
) -> Result<(), WriteFault>
    requires { P.is_shown _progress.now ≡ false }
    ensures written { WritesWhole result (seen_by W.contents writer.old) (seen_by W.contents writer.new) (number_line findings) }
    ensures flushed { OnOk result (IsFlushed (seen_by W.contents writer.new)) }
{
    let mut line: ArrayString<LINE> = ArrayString::new();
    put_decimal(&mut line, findings);
    line.push_str(" findings\n");
    write_flushed(writer, line.as_bytes())
}

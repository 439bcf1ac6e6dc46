//! A comparison of two volumes.

ghost use Rattle.std.specs.Prelude.{◌≡◌, ◌≢◌, ◌+◌, ◌<◌, ◌≤◌, length, take, OnOk, IfOk, IfErr};
ghost use Rattle.std.specs.Io.KnownBytes.{Appends};
ghost use Rattle.counted_io.specs.Streams.{seen_by, IsFlushed};
ghost use Rattle.ckd_image.specs.Store.{Counts};
ghost use Rattle.ckd_track.specs.Geometry.{track_at};
ghost use Rattle.dasd_volumes.specs.Printing.{PrintsBytes, CountsWrites};
ghost use Rattle.dasd_volumes.specs.Reading.{IsRead, IsSlotOf};
ghost use Rattle.dasd_archive.specs.Compare.{comparison_form, track_lines, changed, changed_in, number_line, compare_text};
ghost use Rattle.dasd_archive.specs.Compare.{PrintsBoth, NumberOfBoth};
ghost use Rattle.dasd_volumes.specs.Volumes.{IsTrack};

use crate::compared::{DifferenceForm, compare_track};
use crate::printed::{print_flushed, print_lines};
use ckd_image::StoreFault;
use counted_io::{Counted, Quantity};
use dasd_volumes::{
    EachTrack, PrintedAddress, SlotReader, Style, VolumeFault, VolumeTrack, all_tracks, each_track,
};
use std::alloc::Global;
use std::io;
use std::io::Write;

/// How the lines of a comparison are written: their style, the paths of the two volumes as strings of JSON with their quotes,
/// and whether each difference has a line.
#[derive(Clone, Copy)]
pub struct Comparison<'a> {
    /// The style.
    pub style: Style,
    /// The first volume's path, in quotes.
    pub path: &'a str,
    /// The second volume's path, in quotes.
    pub other: &'a str,
    /// Whether each difference has a line; if not, only tracks are counted.
    pub lists: bool,
}

// The slot of a track on the second volume, and the lines of what differs of a track.
#[derive(Drop)]
struct Room {
    slot: Vec<u8>,
    lines: Vec<u8>,
}

// A comparison of tracks with those of a second volume, and how many of them differ.
#[derive(Drop)]
struct ComparedTracks<'a, U> {
    form: Comparison<'a>,
    other: &'a mut U,
    room: &'a mut Room,
    differing: u32,
}

/// Prints what differs of two volumes of one geometry, track by track, and how many tracks differ, which it answers. The lines of a
/// track are made in memory, and written from there.
///
/// # Errors
///
/// There is no memory for two slots or for the lines of a track; a read of one of the volumes failed, and exactly then it is a fault of
/// the store; or a write failed, or the last flush, and exactly then it is a write fault. What was printed are the first bytes of the
/// text, also before a read that failed.
pub fn compare<V: SlotReader, U: SlotReader, W: Write>(
    alloc: Global,
    one: &mut V,
    other: &mut U,
    writer: &mut Counted<W>,
    form: Comparison,
) -> Result<u32, VolumeFault>
    requires { (U.volume other.old).geometry ≡ (V.volume one.old).geometry }
    ensures number { IfOk result (NumberOfBoth changed_in (V.volume one.old) (U.volume other.old)) }
    ensures lines { PrintsBoth result (compare_text form.entry.style form.entry.path.now form.entry.other.now form.entry.lists)
        (V.volume one.old) (U.volume other.old) (seen_by W.contents writer.old) (seen_by W.contents writer.new) }
    ensures writes { CountsWrites result (seen_by W.contents writer.old) (seen_by W.contents writer.new) }
    ensures volume { IsRead result (V.volume one.old) (V.volume one.new)
        (V.failures one.old + U.failures other.old) (V.failures one.new + U.failures other.new) }
    ensures other_kept { U.volume other.new ≡ U.volume other.old }
    ensures flushed { OnOk result (IsFlushed (seen_by W.contents writer.new)) }
{
    let geometry = one.geometry();
    let size = geometry.track_size as usize;
    let (Ok(mut slot), Ok(other_slot)) = (vec![in alloc; 0u8; size], vec![in alloc; 0u8; size])
    else {
        return Err(VolumeFault::OutOfMemory);
    };
    let mut room = Room {
        slot: other_slot,
        lines: Vec::new(alloc),
    };
    let mut beside = ComparedTracks {
        form,
        other,
        room: &mut room,
        differing: 0,
    };
    let slot = slot.as_mut_slice();
    if let Err(fault) = each_track(&mut beside, one, writer, all_tracks(geometry), slot) {
        return Err(fault);
    }
    let differing = beside.differing;
    match print_number(writer, &form, differing, &mut room.lines) {
        Ok(()) => Ok(differing),
        Err(fault) => Err(fault),
    }
}

// Prints the last line, and leaves nothing held back.
fn print_number<W: Write>(
    writer: &mut Counted<W>,
    form: &Comparison,
    differing: u32,
    lines: &mut Vec<u8>,
) -> Result<(), VolumeFault>
    ensures lines { PrintsBytes result (number_line (comparison_form form.now) differing)
        (seen_by W.contents writer.old) (seen_by W.contents writer.new) }
    ensures writes { CountsWrites result (seen_by W.contents writer.old) (seen_by W.contents writer.new) }
    ensures fault { IfErr result (λ e. e ≢ VolumeFault.Store) }
    ensures flushed { OnOk result (IsFlushed (seen_by W.contents writer.new)) }
{
    lines.clear();
    if write_number(lines, form, differing).is_err() {
        return Err(VolumeFault::OutOfMemory);
    }
    print_flushed(writer, lines.as_slice())
}

// The last line.
fn write_number<W: Write>(writer: &mut W, form: &Comparison, differing: u32) -> io::Result<()>
    ensures { OnOk result (Appends (W.contents writer.old) (W.contents writer.new)
        (number_line (comparison_form form.now) differing)) }
{
    let path = form.path;
    let other = form.other;
    match form.style {
        Style::Text => {
            let tracks = Quantity::new(differing as u64, "track differs", "tracks differ");
            writeln!(writer, "{tracks}")
        }
        Style::Json => writeln!(
            writer,
            "{{\"path\":{path},\"other\":{other},\"tracks_differ\":{differing}}}"
        ),
    }
}

impl<'a, U: SlotReader> EachTrack for ComparedTracks<'a, U> {
    ghost use Rattle.std.specs.Prelude.{◌≡◌, List, ℕ, Some, length, refl};
    ghost use Rattle.std.proofs.Common.{◌∙◌};
    ghost use Rattle.dasd_archive.specs.Compare.{comparison_form, lines_beside, known_slots};
    ghost use Rattle.dasd_archive.specs.Beside.{CountsTrack};

    ghost text = { λ b. lines_beside (comparison_form b.form) (known_slots (U.volume b.other.now).slots) };

    ghost IsKnown = { λ b. (slots : List (List ℕ)) × ((U.volume b.other.now).slots ≡ Some slots) };

    ghost IsFor = { λ g b. ((U.volume b.other.now).geometry ≡ g) × (length b.room.now.slot.items ≡ g.track_size) };

    ghost Notes = { λ before track now. CountsTrack (U.volume before.other.now) before.differing track (U.volume now.other.now) now.differing };

    ghost Keeps = { λ before now. (now.other.ghost_name ≡ before.other.ghost_name) × (U.volume now.other.now ≡ U.volume before.other.now) };

    ghost failures = { λ b. U.failures b.other.now };

    ghost WantsMemory = { Unit {0} };

    fn track<W: Write>(
        &mut self,
        writer: &mut Counted<W>,
        track: VolumeTrack,
        slot: &[u8],
    ) -> Result<(), VolumeFault> {
        let form = DifferenceForm {
            form: self.form,
            address: address_of(track),
        };
        let room = &mut *self.room;
        let Ok(held) = load_beside(self.other, track, room) else {
            return Err(VolumeFault::Store);
        };
        match print_track(writer, &form, slot, room, held) {
            Ok(found) => {
                self.differing = self.differing.saturating_add(found);
                Ok(())
            }
            Err(fault) => Err(fault),
        }
    }

    ghost still = { λ x. (refl, refl) };

    ghost kept = { λ a b c first next. (next.0 ∙ first.0, next.1 ∙ first.1) };
}

// Where a track of a volume is.
fn address_of(track: VolumeTrack) -> PrintedAddress
    ensures { result ≡ record { cylinder = track.cylinder; head = track.head } }
{
    let VolumeTrack { cylinder, head, .. } = track;
    PrintedAddress { cylinder, head }
}

// Reads the slot of a track of the second volume, and says how many of its bytes there are.
fn load_beside<U: SlotReader>(
    other: &mut U,
    track: VolumeTrack,
    room: &mut Room,
) -> Result<usize, StoreFault>
    requires exists { IsTrack track }
    requires same { (U.volume other.old).geometry ≡ track.geometry }
    requires size { length room.old.slot.items ≡ track.geometry.track_size }
    ensures within { IfOk result (λ held. held ≤ length room.new.slot.items) }
    ensures slot { IfOk result (λ held. IsSlotOf (U.volume other.old) (track_at track.geometry track.cylinder track.head)
        (take held room.new.slot.items)) }
    ensures kept { U.volume other.new ≡ U.volume other.old }
    ensures counted { Counts (U.failures other.old) (U.failures other.new) result }
    ensures size { length room.new.slot.items ≡ length room.old.slot.items }
{
    let number = track.geometry.track_at(track.cylinder, track.head);
    other.load(number, room.slot.as_mut_slice())
}

// Prints the lines of a track, which are made in memory; and answers whether it differs from the one in the room, of whose slot there
// are so many bytes.
fn print_track<W: Write>(
    writer: &mut Counted<W>,
    form: &DifferenceForm,
    slot: &[u8],
    room: &mut Room,
    held: usize,
) -> Result<u32, VolumeFault>
    requires within { held ≤ length room.old.slot.items }
    ensures number { IfOk result (λ n. n ≡ length (changed slot.now (take held room.old.slot.items))) }
    ensures few { IfOk result (λ n. n ≤ 1) }
    ensures lines { PrintsBytes result
        (track_lines form.now slot.now (take held room.old.slot.items))
        (seen_by W.contents writer.old) (seen_by W.contents writer.new) }
    ensures writes { CountsWrites result (seen_by W.contents writer.old) (seen_by W.contents writer.new) }
    ensures fault { IfErr result (λ e. e ≢ VolumeFault.Store) }
    ensures size { length room.new.slot.items ≡ length room.old.slot.items }
{
    room.lines.clear();
    let other = &room.slot.as_slice()[..held];
    let Ok(differing) = compare_track(&mut room.lines, form, slot, other) else {
        return Err(VolumeFault::OutOfMemory);
    };
    match print_lines(writer, room.lines.as_slice()) {
        Ok(()) => Ok(differing),
        Err(fault) => Err(fault),
    }
}

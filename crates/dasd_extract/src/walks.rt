//! The blocks of a data set, over extents and tracks.

ghost use Rattle.std.specs.Prelude.{◌≡◌, ◌<◌, ◌≤◌, ◌+◌, ◌≢◌, length, take, OnOk, IfOk, IfErr};
ghost use Rattle.counted_io.specs.Streams.{seen_by};
ghost use Rattle.ckd_track.specs.Geometry.{tracks_of};
ghost use Rattle.ckd_track.specs.Track as tracks;
ghost use Rattle.ckd_image.specs.Store.{Counts};
ghost use Rattle.dasd_volumes.specs.Printing.{CountsWrites};
ghost use Rattle.dasd_volumes.specs.Reading.{IsRead, IsSlotOf};
ghost use Rattle.dasd_extract.specs.Written.{PrintsWritten};
ghost use Rattle.dasd_extract.specs.Alternates.{read_from};
ghost use Rattle.dasd_extract.specs.Walk.{past_end, number_on, slot_written, found_read_from, track_read_from, wanted, PrintsSource, PrintsTrack, PrintsSlot};
ghost use Rattle.dasd_extract.specs.Walk.{PrintsAlternate, Reads};

use crate::alternates::{Holder, holder_of, is_other};
use crate::blocks::ExtractedForm;
use crate::stops::{Cause, Stop, stop_at, stop_behind};
use crate::tracks::{Part, write_slot};
use ckd_image::StoreFault;
use counted_io::{Counted, WriteFault, write_whole};
use dasd_volumes::{SlotReader, VolumeFault};
use std::alloc::Global;
use std::io::Write;
use volume_labels::{Extent, RelativeAddress, TrackPlace, track_of};

/// Which blocks are written, and how.
#[derive(Clone, Copy)]
pub struct Source<'a> {
    /// The extents of their data set, in order.
    pub extents: &'a [Extent],
    /// The address of the first block; a number of 0 is what stands before the first block of its track.
    pub start: RelativeAddress,
    /// How many tracks are read at most; no data set has more than 65535.
    pub tracks: u16,
    /// How the blocks are written.
    pub form: ExtractedForm,
}

// Why the extents have no track that is so many behind the first.
fn past_end(i: u16) -> Cause
    ensures { result ≡ past_end i }
{
    if i == 0 {
        Cause::Outside
    } else {
        Cause::PastExtents
    }
}

// The number of the block that is the first on the track that is so many behind the first.
fn number_on(start: RelativeAddress, i: u16) -> u8
    ensures { result ≡ number_on start i }
{
    if i == 0 { start.number } else { 0 }
}

// The slot of a track, what is written of it, and how many tracks were read from their alternates.
#[derive(Drop)]
struct Room {
    slot: Vec<u8>,
    written: Vec<u8>,
    alternates: u32,
}

// Prints the blocks of a track of the volume, which is loaded into the slot; those of a defective track from its alternate.
fn extract_found<V: SlotReader, W: Write>(
    volume: &mut V,
    writer: &mut Counted<W>,
    part: Part,
    found: u32,
    room: &mut Room,
) -> Result<Option<Stop>, VolumeFault>
    requires exists { found < tracks_of (V.volume volume.old).geometry }
    requires size { length room.old.slot.items ≡ (V.volume volume.old).geometry.track_size }
    requires few { room.old.alternates < 65535 }
    ensures written { PrintsSlot part found (V.volume volume.old) result (seen_by W.contents writer.old) (seen_by W.contents writer.new) }
    ensures writes { CountsWrites result (seen_by W.contents writer.old) (seen_by W.contents writer.new) }
    ensures volume { IsRead result (V.volume volume.old) (V.volume volume.new) (V.failures volume.old) (V.failures volume.new) }
    ensures size { length room.new.slot.items ≡ length room.old.slot.items }
    ensures alternates { OnOk result (Reads (V.volume volume.old) (found_read_from found) room.old.alternates room.new.alternates) }
    ensures few { room.new.alternates ≤ room.old.alternates + 1 }
{
    let Ok(bytes) = load(volume, found, room) else {
        return Err(VolumeFault::Store);
    };
    let slot = &room.slot.as_slice()[..bytes];
    match holder_of(volume.geometry(), slot) {
        Holder::Itself => print_slot(writer, part, slot, &mut room.written),
        Holder::Alternate(held) => extract_alternate(volume, writer, part, held, room),
        Holder::Nowhere => Ok(Some(stop_at(part.track, Cause::NoAlternate))),
    }
}

// Prints the blocks of a defective track from its alternate, which is loaded into the slot.
fn extract_alternate<V: SlotReader, W: Write>(
    volume: &mut V,
    writer: &mut Counted<W>,
    part: Part,
    held: u32,
    room: &mut Room,
) -> Result<Option<Stop>, VolumeFault>
    requires exists { held < tracks_of (V.volume volume.old).geometry }
    requires size { length room.old.slot.items ≡ (V.volume volume.old).geometry.track_size }
    requires few { room.old.alternates < 65535 }
    ensures written { PrintsAlternate part held (V.volume volume.old) result (seen_by W.contents writer.old) (seen_by W.contents writer.new) }
    ensures writes { CountsWrites result (seen_by W.contents writer.old) (seen_by W.contents writer.new) }
    ensures volume { IsRead result (V.volume volume.old) (V.volume volume.new) (V.failures volume.old) (V.failures volume.new) }
    ensures size { length room.new.slot.items ≡ length room.old.slot.items }
    ensures alternates { OnOk result (Reads (V.volume volume.old)
        (λ _ slots. read_from slots (Holder.Alternate held)) room.old.alternates room.new.alternates) }
    ensures few { room.new.alternates ≤ room.old.alternates + 1 }
{
    let Ok(bytes) = load(volume, held, room) else {
        return Err(VolumeFault::Store);
    };
    let slot = &room.slot.as_slice()[..bytes];
    if is_other(slot) {
        return Ok(Some(stop_at(part.track, Cause::NotAlternate)));
    }
    room.alternates += 1;
    print_slot(writer, part, slot, &mut room.written)
}

// Reads the slot of a track, and says how many of its bytes there are.
fn load<V: SlotReader>(volume: &mut V, track: u32, room: &mut Room) -> Result<usize, StoreFault>
    requires exists { track < tracks_of (V.volume volume.old).geometry }
    requires size { length room.old.slot.items ≡ (V.volume volume.old).geometry.track_size }
    ensures within { IfOk result (λ bytes. bytes ≤ length room.new.slot.items) }
    ensures slot { IfOk result (λ bytes. IsSlotOf (V.volume volume.old) track (take bytes room.new.slot.items)) }
    ensures kept { V.volume volume.new ≡ V.volume volume.old }
    ensures counted { Counts (V.failures volume.old) (V.failures volume.new) result }
    ensures size { length room.new.slot.items ≡ length room.old.slot.items }
    ensures alternates { room.new.alternates ≡ room.old.alternates }
{
    volume.load(track, room.slot.as_mut_slice())
}

// Prints the blocks of the track in a slot, which are made in memory.
fn print_slot<W: Write>(
    writer: &mut Counted<W>,
    part: Part,
    slot: &[u8],
    written: &mut Vec<u8>,
) -> Result<Option<Stop>, VolumeFault>
    ensures written { PrintsWritten (slot_written part.form part.track part.number (tracks.track_of slot.now)) result
        (seen_by W.contents writer.old) (seen_by W.contents writer.new) }
    ensures writes { CountsWrites result (seen_by W.contents writer.old) (seen_by W.contents writer.new) }
    ensures fault { IfErr result (λ e. e ≢ VolumeFault.Store) }
{
    written.clear();
    let Ok(stop) = write_slot(written, part, slot) else {
        return Err(VolumeFault::OutOfMemory);
    };
    match write_whole(writer, written.as_slice()) {
        Ok(()) => Ok(stop),
        Err(WriteFault) => Err(VolumeFault::Write),
    }
}

// Prints the blocks of the track that is so many behind the first, which is loaded into the slot.
fn extract_track<V: SlotReader, W: Write>(
    volume: &mut V,
    writer: &mut Counted<W>,
    source: Source,
    i: u16,
    room: &mut Room,
) -> Result<Option<Stop>, VolumeFault>
    requires size { length room.old.slot.items ≡ (V.volume volume.old).geometry.track_size }
    requires few { room.old.alternates < 65535 }
    ensures written { PrintsTrack (wanted source.entry.form source.entry.extents.now source.entry.start source.entry.tracks) i (V.volume volume.old) result
        (seen_by W.contents writer.old) (seen_by W.contents writer.new) }
    ensures writes { CountsWrites result (seen_by W.contents writer.old) (seen_by W.contents writer.new) }
    ensures volume { IsRead result (V.volume volume.old) (V.volume volume.new) (V.failures volume.old) (V.failures volume.new) }
    ensures size { length room.new.slot.items ≡ length room.old.slot.items }
    ensures alternates { OnOk result (Reads (V.volume volume.old)
        (λ g slots. track_read_from (wanted source.entry.form source.entry.extents.now source.entry.start source.entry.tracks) g slots i)
        room.old.alternates room.new.alternates) }
    ensures few { room.new.alternates ≤ room.old.alternates + 1 }
{
    let geometry = volume.geometry();
    let track = source.start.track as u32 + i as u32;
    let cause = match track_of(geometry.model.heads() as u8, source.extents, track) {
        TrackPlace::Track(found) if found < geometry.tracks() => {
            let part = Part {
                form: source.form,
                track,
                number: number_on(source.start, i),
            };
            return extract_found(volume, writer, part, found, room);
        }
        TrackPlace::Track(_) => Cause::NoTrack,
        TrackPlace::PastEnd => past_end(i),
        TrackPlace::BadExtent => Cause::BadExtent,
    };
    Ok(Some(stop_at(track, cause)))
}

/// Writes the blocks of a data set or of a member of one, from its start on: block after block, track after track over its
/// extents, up to the first end-of-file record (IBM System/360 Operating System, Data Management Services, 'Direct Access Volumes').
/// A track that is flagged as defective is read from the alternate that its record 0 names. It says where they end, why, and how many
/// alternates were read. Of the volume one slot is in memory at a time, with what is written of its track, which goes out as a whole.
///
/// # Errors
///
/// There is no memory for a slot, or for what is written of a track; a read of the volume failed; or a write failed, and exactly then
/// it is a write fault. What was written are the first bytes of the blocks.
pub fn extract<V: SlotReader, W: Write>(
    alloc: Global,
    volume: &mut V,
    writer: &mut Counted<W>,
    source: Source,
) -> Result<Stop, VolumeFault>
    ensures written { PrintsSource (wanted source.entry.form source.entry.extents.now source.entry.start source.entry.tracks) (V.volume volume.old) result
        (seen_by W.contents writer.old) (seen_by W.contents writer.new) }
    ensures writes { CountsWrites result (seen_by W.contents writer.old) (seen_by W.contents writer.new) }
    ensures volume { IsRead result (V.volume volume.old) (V.volume volume.new) (V.failures volume.old) (V.failures volume.new) }
{
    let Ok(slot) = vec![in alloc; 0u8; volume.geometry().track_size as usize] else {
        return Err(VolumeFault::OutOfMemory);
    };
    let written = Vec::new(alloc);
    let mut room = Room {
        slot,
        written,
        alternates: 0,
    };
    extract_tracks(volume, writer, source, &mut room)
}

// Prints the blocks of the tracks, each of which is loaded into the slot.
fn extract_tracks<V: SlotReader, W: Write>(
    volume: &mut V,
    writer: &mut Counted<W>,
    source: Source,
    room: &mut Room,
) -> Result<Stop, VolumeFault>
    requires size { length room.old.slot.items ≡ (V.volume volume.old).geometry.track_size }
    requires none { room.old.alternates ≡ 0 }
    ensures written { PrintsSource (wanted source.entry.form source.entry.extents.now source.entry.start source.entry.tracks) (V.volume volume.old) result
        (seen_by W.contents writer.old) (seen_by W.contents writer.new) }
    ensures writes { CountsWrites result (seen_by W.contents writer.old) (seen_by W.contents writer.new) }
    ensures volume { IsRead result (V.volume volume.old) (V.volume volume.new) (V.failures volume.old) (V.failures volume.new) }
{
    for i in 0..source.tracks {
        match extract_track(volume, writer, source, i, room) {
            Ok(Some(stop)) => return Ok(stop_behind(room.alternates, stop)),
            Ok(None) => {}
            Err(fault) => return Err(fault),
        }
    }
    let track = source.start.track as u32 + source.tracks as u32;
    let stop = stop_at(track, Cause::TooManyTracks);
    Ok(stop_behind(room.alternates, stop))
}

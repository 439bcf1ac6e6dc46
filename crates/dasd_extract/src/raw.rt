//! The tracks of a data set as they stand on its volume.

ghost use Rattle.std.specs.Prelude.{◌≡◌, ◌<◌, length, IfErr};
ghost use Rattle.counted_io.specs.Streams.{seen_by};
ghost use Rattle.ckd_track.specs.Geometry.{tracks_of};
ghost use Rattle.dasd_volumes.specs.Printing.{CountsWrites};
ghost use Rattle.dasd_volumes.specs.Reading.{IsRead};
ghost use Rattle.dasd_extract.specs.Written.{PrintsWritten};
ghost use Rattle.dasd_extract.specs.Raw.{bytes_copied, CopiesTrack, CopiesSlot, CopiesTracks};

use crate::stops::{Cause, Stop, stop_at};
use ckd_track::SlotFault;
use counted_io::{Counted, WriteFault, write_whole};
use dasd_volumes::{SlotReader, VolumeFault};
use std::alloc::Global;
use std::io::Write;
use volume_labels::{Extent, TrackPlace, track_of};

/// How many tracks are copied at most: no data set has more.
const MOST_TRACKS: u32 = 65535;

/// Writes the tracks of a data set with these extents as they stand on its volume, each with all bytes of its slot: home address,
/// records, and what is behind them. A track is neither read nor followed to an alternate. They end before a track that the volume lacks.
/// It says where they end, and why.
///
/// # Errors
///
/// There is no memory for a slot; a read of the volume failed; or a write failed, and exactly then it is a write fault. What was written
/// are the first bytes of the tracks.
pub fn copy_tracks<V: SlotReader, W: Write>(
    alloc: Global,
    volume: &mut V,
    writer: &mut Counted<W>,
    extents: &[Extent],
) -> Result<Stop, VolumeFault>
    ensures written { CopiesTracks extents.now (V.volume volume.old) result (seen_by W.contents writer.old) (seen_by W.contents writer.new) }
    ensures writes { CountsWrites result (seen_by W.contents writer.old) (seen_by W.contents writer.new) }
    ensures volume { IsRead result (V.volume volume.old) (V.volume volume.new) (V.failures volume.old) (V.failures volume.new) }
{
    let Ok(mut slot) = vec![in alloc; 0u8; volume.geometry().track_size as usize] else {
        return Err(VolumeFault::OutOfMemory);
    };
    copy_all(volume, writer, extents, slot.as_mut_slice())
}

// Writes the tracks, each of which is loaded into the slot.
fn copy_all<V: SlotReader, W: Write>(
    volume: &mut V,
    writer: &mut Counted<W>,
    extents: &[Extent],
    slot: &mut [u8],
) -> Result<Stop, VolumeFault>
    requires size { length slot.old ≡ (V.volume volume.old).geometry.track_size }
    ensures written { CopiesTracks extents.now (V.volume volume.old) result (seen_by W.contents writer.old) (seen_by W.contents writer.new) }
    ensures writes { CountsWrites result (seen_by W.contents writer.old) (seen_by W.contents writer.new) }
    ensures volume { IsRead result (V.volume volume.old) (V.volume volume.new) (V.failures volume.old) (V.failures volume.new) }
{
    for i in 0..MOST_TRACKS {
        match copy_track(volume, writer, extents, i, slot) {
            Ok(Some(stop)) => return Ok(stop),
            Ok(None) => {}
            Err(fault) => return Err(fault),
        }
    }
    Ok(stop_at(MOST_TRACKS, Cause::TooManyTracks))
}

// Writes track i of the data set, which is loaded into the slot.
fn copy_track<V: SlotReader, W: Write>(
    volume: &mut V,
    writer: &mut Counted<W>,
    extents: &[Extent],
    i: u32,
    slot: &mut [u8],
) -> Result<Option<Stop>, VolumeFault>
    requires size { length slot.old ≡ (V.volume volume.old).geometry.track_size }
    ensures written { CopiesTrack extents.now i (V.volume volume.old) result (seen_by W.contents writer.old) (seen_by W.contents writer.new) }
    ensures writes { CountsWrites result (seen_by W.contents writer.old) (seen_by W.contents writer.new) }
    ensures volume { IsRead result (V.volume volume.old) (V.volume volume.new) (V.failures volume.old) (V.failures volume.new) }
    ensures size { length slot.new ≡ length slot.old }
{
    let geometry = volume.geometry();
    let cause = match track_of(geometry.model.heads() as u8, extents, i) {
        TrackPlace::Track(found) if found < geometry.tracks() => {
            return copy_slot(volume, writer, i, found, slot);
        }
        TrackPlace::Track(_) => Cause::NoTrack,
        TrackPlace::PastEnd => Cause::EndOfExtents,
        TrackPlace::BadExtent => Cause::BadExtent,
    };
    Ok(Some(stop_at(i, cause)))
}

// Writes the slot of a track of the volume, which is track i of the data set.
fn copy_slot<V: SlotReader, W: Write>(
    volume: &mut V,
    writer: &mut Counted<W>,
    i: u32,
    found: u32,
    slot: &mut [u8],
) -> Result<Option<Stop>, VolumeFault>
    requires exists { found < tracks_of (V.volume volume.old).geometry }
    requires size { length slot.old ≡ (V.volume volume.old).geometry.track_size }
    ensures written { CopiesSlot i found (V.volume volume.old) result (seen_by W.contents writer.old) (seen_by W.contents writer.new) }
    ensures writes { CountsWrites result (seen_by W.contents writer.old) (seen_by W.contents writer.new) }
    ensures volume { IsRead result (V.volume volume.old) (V.volume volume.new) (V.failures volume.old) (V.failures volume.new) }
    ensures size { length slot.new ≡ length slot.old }
{
    let Ok(held) = volume.load(found, slot) else {
        return Err(VolumeFault::Store);
    };
    copy_bytes(writer, i, &slot[..held])
}

// Writes the bytes of a slot, of which there are none where the volume lacks the track.
fn copy_bytes<W: Write>(
    writer: &mut Counted<W>,
    i: u32,
    slot: &[u8],
) -> Result<Option<Stop>, VolumeFault>
    ensures written { PrintsWritten (bytes_copied i slot.now) result (seen_by W.contents writer.old) (seen_by W.contents writer.new) }
    ensures writes { CountsWrites result (seen_by W.contents writer.old) (seen_by W.contents writer.new) }
    ensures fault { IfErr result (λ e. e ≡ VolumeFault.Write) }
{
    if slot.is_empty() {
        return Ok(Some(stop_at(i, Cause::Unreadable(SlotFault::NoEnd(0)))));
    }
    match write_whole(writer, slot) {
        Ok(()) => Ok(None),
        Err(WriteFault) => Err(VolumeFault::Write),
    }
}

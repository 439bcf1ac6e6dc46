//! Whether a part of a volume has the records that are asked for.

ghost use Rattle.std.specs.Prelude.{◌≡◌, ◌≢◌, ◌<◌, length, slice_index, IfOk, IfErr};
ghost use Rattle.std.specs.List.{list_any};
ghost use Rattle.ckd_track.specs.Model.{heads_of};
ghost use Rattle.ckd_track.specs.Track.{track_of};
ghost use Rattle.dasd_volumes.specs.Reading.{IsRead};
ghost use Rattle.dasd_volumes.specs.Volumes.{holds};
ghost use Rattle.dasd_archive.specs.Dump.{IsPartOf};
ghost use Rattle.dasd_archive.specs.Numbered.{Lacks, LacksOn, LacksRecords, Tells, TellsOf};

use crate::dumps::{VolumePart, number_of};
use ckd_track::{TrackView, read_slot};
use dasd_volumes::{Range, SlotReader, VolumeFault};
use std::alloc::Global;

/// The tracks of a part of a volume that are on one cylinder, and the numbers of the records that are sought there.
#[derive(Clone, Copy)]
struct CylinderPart {
    cylinder: u16,
    heads: Range,
    numbers: Range,
}

/// Whether a part of a volume has a record of its numbers, or a track that can't be read, so that it is not known. It looks at the tracks
/// up to the first such one.
///
/// # Errors
///
/// There is no memory for a slot, or a read of the volume failed.
pub fn has_records<V: SlotReader>(
    alloc: Global,
    volume: &mut V,
    part: VolumePart,
) -> Result<bool, VolumeFault>
    requires { IsPartOf part (V.volume volume.old).geometry }
    ensures tells { IfOk result (λ has. TellsOf has (LacksRecords part) (V.volume volume.old)) }
    ensures volume { IsRead result (V.volume volume.old) (V.volume volume.new) (V.failures volume.old) (V.failures volume.new) }
    ensures fault { IfErr result (λ e. e ≢ VolumeFault.Write) }
{
    let geometry = volume.geometry();
    let Ok(mut slot) = vec![in alloc; 0u8; geometry.track_size as usize] else {
        return Err(VolumeFault::OutOfMemory);
    };
    let slot = slot.as_mut_slice();
    let last = part.cylinders.last;
    prove!(last < geometry.cylinders);
    for cylinder in part.cylinders.first..last + 1 {
        let on_cylinder = CylinderPart {
            cylinder,
            heads: part.heads,
            numbers: part.numbers,
        };
        match has_on_cylinder(volume, &on_cylinder, slot) {
            Ok(false) => {}
            Ok(true) => return Ok(true),
            Err(fault) => return Err(fault),
        }
    }
    Ok(false)
}

// Whether the tracks of one cylinder have a record of the numbers, or one of them can't be read. Each is loaded into the slot.
fn has_on_cylinder<V: SlotReader>(
    volume: &mut V,
    part: &CylinderPart,
    slot: &mut [u8],
) -> Result<bool, VolumeFault>
    requires exists { part.now.cylinder < (V.volume volume.old).geometry.cylinders }
    requires on_cylinder { part.now.heads.last < heads_of (V.volume volume.old).geometry.model }
    requires size { length slot.old ≡ (V.volume volume.old).geometry.track_size }
    ensures tells { IfOk result (λ has. TellsOf has (LacksOn part.now.heads part.now.numbers part.now.cylinder) (V.volume volume.old)) }
    ensures volume { IsRead result (V.volume volume.old) (V.volume volume.new) (V.failures volume.old) (V.failures volume.new) }
    ensures fault { IfErr result (λ e. e ≡ VolumeFault.Store) }
    ensures size { length slot.new ≡ length slot.old }
{
    let geometry = volume.geometry();
    for head in part.heads.first..part.heads.last + 1 {
        let Ok(held) = volume.load(geometry.track_at(part.cylinder, head), slot) else {
            return Err(VolumeFault::Store);
        };
        if has_in_slot(&slot[..held], part.numbers) {
            return Ok(true);
        }
    }
    Ok(false)
}

// Whether the track in a slot has a record of these numbers, or can't be read.
fn has_in_slot(slot: &[u8], numbers: Range) -> bool
    ensures { Tells result (Lacks numbers (track_of slot.now)) }
{
    match read_slot(slot) {
        Ok(track) => has_number(&track, numbers),
        Err(_) => true,
    }
}

// Whether a track has a record of these numbers.
fn has_number(track: &TrackView, numbers: Range) -> bool
    ensures { result ≡ list_any (λ r. holds numbers (slice_index r.id 4)) track.now.records }
{
    for i in 0..track.len() {
        if numbers.contains(u16::from(number_of(track, i))) {
            return true;
        }
    }
    false
}

//! A walk over the tracks of a volume or of a part of it, which are read one after another.

ghost use Rattle.std.specs.Prelude.{◌≡◌, ◌+◌, ◌<◌, ◌≤◌, ℕ, List, length, IfErr, OnOk};
ghost use Rattle.std.specs.List.{FoldsTo};
ghost use Rattle.ckd_track.specs.declared.geometries.Geometry.{Geometry};
ghost use Rattle.ckd_track.specs.Geometry.{IsGeometry};
ghost use Rattle.ckd_track.specs.Model.{heads_of};
ghost use Rattle.counted_io.specs.Streams.{seen_by};
ghost use Rattle.dasd_volumes.specs.Printing.{PrintsText, PrintsBytes, CountsWrites};
ghost use Rattle.dasd_volumes.specs.Reading.{IsRead};
ghost use Rattle.dasd_volumes.specs.Volumes.{ReadTrack, AreOn, IsTrack, CountsReads, OfTracks, OfTracksOn, holds, all_heads, all_tracks, text_in, text_on};

use crate::fault::VolumeFault;
use crate::reading::SlotReader;
use ckd_track::Geometry;
use counted_io::Counted;
use std::io::Write;

/// The numbers from a first to a last one, which is none where the last is less.
#[derive(Clone, Copy)]
pub struct Range {
    /// The first.
    pub first: u16,
    /// The last.
    pub last: u16,
}

impl Range {
    /// Whether a number is one of them.
    pub fn contains(&self, number: u16) -> bool
        ensures { result ≡ holds self.now number }
    {
        self.first <= number && number <= self.last
    }
}

/// The tracks of some heads on each of some cylinders.
#[derive(Clone, Copy)]
pub struct Tracks {
    /// The cylinders.
    pub cylinders: Range,
    /// The heads on each of them.
    pub heads: Range,
}

// The tracks of some heads on one cylinder.
#[derive(Clone, Copy)]
struct TracksOn {
    cylinder: u16,
    heads: Range,
}

/// A track of a volume.
#[derive(Clone, Copy)]
pub struct VolumeTrack {
    /// What the volume is.
    pub geometry: Geometry,
    /// The cylinder.
    pub cylinder: u16,
    /// The head.
    pub head: u16,
}

/// All heads of a drive.
pub(crate) fn all_heads(geometry: Geometry) -> Range
    ensures range { result ≡ all_heads geometry }
    ensures order { result.first ≤ result.last }
    ensures exist { result.last < heads_of geometry.model }
{
    Range {
        first: 0,
        last: geometry.model.heads() - 1,
    }
}

/// All tracks of a volume.
pub fn all_tracks(geometry: Geometry) -> Tracks
    requires { IsGeometry geometry }
    ensures tracks { result ≡ all_tracks geometry }
    ensures exist { AreOn result geometry }
{
    Tracks {
        cylinders: Range {
            first: 0,
            last: geometry.cylinders - 1,
        },
        heads: all_heads(geometry),
    }
}

/// What is done with each track of a walk.
pub trait EachTrack {
    // what is printed of a track
    ghost text: { Self → ReadTrack → List ℕ };

    // what the text rests on besides the track is known
    ghost IsKnown: { Self → Type 0 };

    // it can be given the tracks of a volume of this geometry
    ghost IsFor: { Geometry → Self → Type 0 };

    // what it notes of a track, from before to now
    ghost Notes: { (before : Self) → ReadTrack → (now : Self) → Type 0 };

    // what stays, also with a fault
    ghost Keeps: { (before now : Self) → Type 0 };

    // how many reads of another volume failed
    ghost failures: { Self → ℕ };

    // it may want memory
    ghost WantsMemory: { Type 0 };

    /// A track, and the bytes that there are of its slot.
    ///
    /// # Errors
    ///
    /// A write failed, and exactly then it is a write fault; or what else stops the walk. The first bytes of the text may be printed.
    fn track<W: Write>(
        &mut self,
        writer: &mut Counted<W>,
        track: VolumeTrack,
        slot: &[u8],
    ) -> Result<(), VolumeFault>
        requires exists { IsTrack track }
        requires size { length slot.now ≤ track.geometry.track_size }
        requires ready { IsFor track.geometry self.old }
        ensures text { IsKnown self.old → PrintsBytes result (text self.old (record { track = track; slot = slot.now }))
            (seen_by W.contents writer.old) (seen_by W.contents writer.new) }
        ensures writes { CountsWrites result (seen_by W.contents writer.old) (seen_by W.contents writer.new) }
        ensures noted { OnOk result (Notes self.old (record { track = track; slot = slot.now }) self.new) }
        ensures reads { CountsReads result (failures self.old) (failures self.new) }
        ensures memory { IfErr result (λ e. e ≡ VolumeFault.OutOfMemory → WantsMemory) }
        ensures same { text self.new ≡ text self.old }
        ensures known { IsKnown self.old → IsKnown self.new }
        ensures ready { IsFor track.geometry self.new }
        ensures keeps { Keeps self.old self.new };

    ghost still: { (x : Self) → Keeps x x };

    ghost kept: { (a b c : Self) → Keeps a b → Keeps b c → Keeps a c };
}

/// Reads each of these tracks of a volume once, cylinder by cylinder and head by head, and hands it on.
///
/// # Errors
///
/// A read of the volume failed; or whom a track was handed to answered a fault. No further track is read then.
pub fn each_track<V: SlotReader, W: Write, T: EachTrack>(
    each: &mut T,
    volume: &mut V,
    writer: &mut Counted<W>,
    tracks: Tracks,
    slot: &mut [u8],
) -> Result<(), VolumeFault>
    requires exist { AreOn tracks (V.volume volume.old).geometry }
    requires size { length slot.old ≡ (V.volume volume.old).geometry.track_size }
    requires ready { T.IsFor (V.volume volume.old).geometry each.old }
    ensures text { T.IsKnown each.old → PrintsText result (text_in (T.text each.old) tracks) (V.volume volume.old)
        (seen_by W.contents writer.old) (seen_by W.contents writer.new) }
    ensures writes { CountsWrites result (seen_by W.contents writer.old) (seen_by W.contents writer.new) }
    ensures noted { OnOk result (OfTracks (λ read. FoldsTo T.Notes each.old read each.new) tracks (V.volume volume.old)) }
    ensures volume { IsRead result (V.volume volume.old) (V.volume volume.new)
        (V.failures volume.old + T.failures each.old) (V.failures volume.new + T.failures each.new) }
    ensures memory { IfErr result (λ e. e ≡ VolumeFault.OutOfMemory → T.WantsMemory) }
    ensures keeps { T.Keeps each.old each.new }
{
    let Range { first, last } = tracks.cylinders;
    let cylinders = volume.geometry().cylinders;
    prove!(last < cylinders);
    for i in 0..last + 1 - first {
        let on_cylinder = TracksOn {
            cylinder: first + i,
            heads: tracks.heads,
        };
        if let Err(fault) = each_on_cylinder(each, volume, writer, on_cylinder, slot) {
            return Err(fault);
        }
    }
    Ok(())
}

// Reads each of these tracks of one cylinder once, and hands it on.
fn each_on_cylinder<V: SlotReader, W: Write, T: EachTrack>(
    each: &mut T,
    volume: &mut V,
    writer: &mut Counted<W>,
    tracks: TracksOn,
    slot: &mut [u8],
) -> Result<(), VolumeFault>
    requires exists { tracks.cylinder < (V.volume volume.old).geometry.cylinders }
    requires order { tracks.heads.first ≤ tracks.heads.last }
    requires on_cylinder { tracks.heads.last < heads_of (V.volume volume.old).geometry.model }
    requires size { length slot.old ≡ (V.volume volume.old).geometry.track_size }
    requires ready { T.IsFor (V.volume volume.old).geometry each.old }
    ensures text { T.IsKnown each.old → PrintsText result (text_on (T.text each.old) tracks.heads tracks.cylinder) (V.volume volume.old)
        (seen_by W.contents writer.old) (seen_by W.contents writer.new) }
    ensures writes { CountsWrites result (seen_by W.contents writer.old) (seen_by W.contents writer.new) }
    ensures noted { OnOk result (OfTracksOn (λ read. FoldsTo T.Notes each.old read each.new) tracks.heads tracks.cylinder (V.volume volume.old)) }
    ensures volume { IsRead result (V.volume volume.old) (V.volume volume.new)
        (V.failures volume.old + T.failures each.old) (V.failures volume.new + T.failures each.new) }
    ensures memory { IfErr result (λ e. e ≡ VolumeFault.OutOfMemory → T.WantsMemory) }
    ensures keeps { T.Keeps each.old each.new }
    ensures same { T.text each.new ≡ T.text each.old }
    ensures known { T.IsKnown each.old → T.IsKnown each.new }
    ensures ready { T.IsFor (V.volume volume.old).geometry each.new }
    ensures size { length slot.new ≡ length slot.old }
{
    let geometry = volume.geometry();
    let cylinder = tracks.cylinder;
    let Range { first, last } = tracks.heads;
    for i in 0..last + 1 - first {
        let head = first + i;
        let Ok(held) = volume.load(geometry.track_at(cylinder, head), slot) else {
            return Err(VolumeFault::Store);
        };
        let track = VolumeTrack {
            geometry,
            cylinder,
            head,
        };
        if let Err(fault) = each.track(writer, track, &slot[..held]) {
            return Err(fault);
        }
    }
    Ok(())
}

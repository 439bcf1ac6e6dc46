//! A volume, and its tracks with their records, as objects of JSON.

ghost use Rattle.std.specs.Prelude.{◌≡◌, ◌<◌, ◌≤◌, [], ◌∷◌, ◌++◌, length, codes};
ghost use Rattle.std.specs.Fmt.{decimal};
ghost use Rattle.std.specs.List.{concat};
ghost use Rattle.counted_io.specs.Streams.{seen_by, WritesWhole};
ghost use Rattle.dasd_volumes.specs.Volumes.{of_each};
ghost use Rattle.dasd_volumes.specs.Listing.{volume_object, place_text, unreadable_object, comma_before, listed_record, whole_text, track_object};

use crate::pieces::{LINE, put_count, put_fault};
use crate::text::PrintedAddress;
use crate::walks::VolumeTrack;
use arrayvec::ArrayString;
use ckd_track::{DriveModel, Geometry, SlotFault, TrackView, used};
use counted_io::{Counted, WriteFault, put_bytes, put_decimal, write_whole};
use std::io::Write;

/// The volume as an object.
pub(crate) fn list_volume_object<W: Write>(
    writer: &mut Counted<W>,
    path: &str,
    geometry: Geometry,
) -> Result<(), WriteFault>
    ensures { WritesWhole result (seen_by W.contents writer.old) (seen_by W.contents writer.new) (volume_object path.now geometry) }
{
    write_path(writer, path)?;
    let mut line: ArrayString<LINE> = ArrayString::new();
    line.push_str(",\"model\":");
    put_decimal(&mut line, u32::from(geometry.model.number()));
    line.push_str(",\"cylinders\":");
    put_decimal(&mut line, u32::from(geometry.cylinders));
    line.push_str(",\"heads\":");
    put_decimal(&mut line, u32::from(geometry.model.heads()));
    line.push_str(",\"slot_size\":");
    put_decimal(&mut line, geometry.track_size);
    line.push_str("}\n");
    write_whole(writer, line.as_bytes())
}

// How each object begins.
fn write_path<W: Write>(writer: &mut Counted<W>, path: &str) -> Result<(), WriteFault>
    ensures { WritesWhole result (seen_by W.contents writer.old) (seen_by W.contents writer.new) (codes "{\"path\":" ++ path.now) }
{
    write_whole(writer, b"{\"path\":")?;
    write_whole(writer, path.as_bytes())
}

// How an object of a track begins.
fn begin_object<W: Write>(
    writer: &mut Counted<W>,
    path: &str,
    address: PrintedAddress,
) -> Result<(), WriteFault>
    ensures { WritesWhole result (seen_by W.contents writer.old) (seen_by W.contents writer.new) (place_text path.now address.cylinder address.head) }
{
    write_path(writer, path)?;
    let mut line: ArrayString<LINE> = ArrayString::new();
    line.push_str(",\"cylinder\":");
    put_decimal(&mut line, u32::from(address.cylinder));
    line.push_str(",\"head\":");
    put_decimal(&mut line, u32::from(address.head));
    write_whole(writer, line.as_bytes())
}

/// A track that can't be read, as an object.
pub(crate) fn list_unreadable_object<W: Write>(
    writer: &mut Counted<W>,
    path: &str,
    address: PrintedAddress,
    fault: SlotFault,
) -> Result<(), WriteFault>
    ensures { WritesWhole result (seen_by W.contents writer.old) (seen_by W.contents writer.new)
        (unreadable_object path.now address.cylinder address.head fault) }
{
    begin_object(writer, path, address)?;
    let mut line: ArrayString<LINE> = ArrayString::new();
    line.push_str(",\"unreadable\":\"");
    put_fault(&mut line, fault);
    line.push_str("\"}\n");
    write_whole(writer, line.as_bytes())
}

/// A track with its records as an object.
pub(crate) fn list_object<W: Write>(
    writer: &mut Counted<W>,
    path: &str,
    track: VolumeTrack,
    view: &TrackView,
) -> Result<(), WriteFault>
    ensures { WritesWhole result (seen_by W.contents writer.old) (seen_by W.contents writer.new)
        (track_object path.now track.geometry.model track.cylinder track.head view.now) }
{
    let VolumeTrack { cylinder, head, .. } = track;
    match begin_object(writer, path, PrintedAddress { cylinder, head }) {
        Ok(()) => list_track(writer, track.geometry.model, view),
        Err(fault) => Err(fault),
    }
}

// How an object of a track goes on: what it says of the track as a whole, and its records.
fn list_track<W: Write>(
    writer: &mut Counted<W>,
    model: DriveModel,
    view: &TrackView,
) -> Result<(), WriteFault>
    ensures { WritesWhole result (seen_by W.contents writer.old) (seen_by W.contents writer.new)
        (whole_text model view.now ++ (of_each (listed_record view.now) (length view.now.records) ++ codes "]}\n")) }
{
    match write_track(writer, model, view) {
        Ok(()) => list_closed(writer, view),
        Err(fault) => Err(fault),
    }
}

// The records of a track, and the end of its object.
fn list_closed<W: Write>(writer: &mut Counted<W>, view: &TrackView) -> Result<(), WriteFault>
    ensures { WritesWhole result (seen_by W.contents writer.old) (seen_by W.contents writer.new)
        (of_each (listed_record view.now) (length view.now.records) ++ codes "]}\n") }
{
    match list_records(writer, view) {
        Ok(()) => write_whole(writer, b"]}\n"),
        Err(fault) => Err(fault),
    }
}

// What an object of a track says of it as a whole.
fn write_track<W: Write>(
    writer: &mut Counted<W>,
    model: DriveModel,
    view: &TrackView,
) -> Result<(), WriteFault>
    ensures { WritesWhole result (seen_by W.contents writer.old) (seen_by W.contents writer.new) (whole_text model view.now) }
{
    let mut line: ArrayString<LINE> = ArrayString::new();
    line.push_str(",\"home_address\":\"");
    put_bytes(&mut line, view.ha());
    line.push_str("\",\"used\":");
    put_decimal(&mut line, used(model, view));
    line.push_str(",\"records\":[");
    write_whole(writer, line.as_bytes())
}

// The records of a track as objects, with commas between them.
fn list_records<W: Write>(writer: &mut Counted<W>, view: &TrackView) -> Result<(), WriteFault>
    ensures { WritesWhole result (seen_by W.contents writer.old) (seen_by W.contents writer.new)
        (of_each (listed_record view.now) (length view.now.records)) }
{
    for i in 0..view.len() {
        list_record(writer, view, i)?;
    }
    Ok(())
}

// A record as an object, behind a comma where it is not the first.
fn list_record<W: Write>(
    writer: &mut Counted<W>,
    view: &TrackView,
    i: usize,
) -> Result<(), WriteFault>
    requires { i < length view.now.records }
    ensures { WritesWhole result (seen_by W.contents writer.old) (seen_by W.contents writer.new) (listed_record view.now i) }
{
    let mut line: ArrayString<LINE> = ArrayString::new();
    line.push_str(comma_before(i));
    line.push_str("{\"identifier\":\"");
    put_bytes(&mut line, &view.count_of(i)[..5]);
    put_lengths(&mut line, view.key_of(i).len(), view.data_of(i).len());
    write_whole(writer, line.as_bytes())
}

// How the object of a record ends: with the lengths of its key and its data.
fn put_lengths(line: &mut ArrayString<LINE>, key_length: usize, data_length: usize)
    requires { length line.old.bytes ≤ 40 }
    ensures { line.new.bytes ≡ line.old.bytes
        ++ concat (codes "\",\"key_length\":" ∷ decimal key_length ∷ codes ",\"data_length\":" ∷ decimal data_length ∷ codes "}" ∷ []) }
{
    line.push_str("\",\"key_length\":");
    put_count(line, key_length);
    line.push_str(",\"data_length\":");
    put_count(line, data_length);
    line.push_str("}");
}

// The comma before a part of a list that is not the first.
fn comma_before(i: usize) -> &'static str
    ensures text { result.now ≡ comma_before i }
    ensures short { length result.now ≤ 1 }
{
    if i == 0 { "" } else { "," }
}

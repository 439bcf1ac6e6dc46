//! The tracks of a volume or of a part of it, with their records.

ghost use Rattle.std.specs.Prelude.{◌≡◌, ◌≢◌, ◌<◌, ◌≤◌, ◌++◌, length, Ok, Err, IfErr, OnOk};
ghost use Rattle.std.specs.List.{flat_map};
ghost use Rattle.counted_io.specs.Streams.{seen_by, WritesWhole, IsFlushed};
ghost use Rattle.ckd_track.specs.Track.{track_of, record_in};
ghost use Rattle.dasd_volumes.specs.Lines.{volume_line, track_line, record_line};
ghost use Rattle.dasd_volumes.specs.Lines as lines;
ghost use Rattle.dasd_volumes.specs.Printing.{PrintsText, CountsWrites};
ghost use Rattle.dasd_volumes.specs.Reading.{IsRead};
ghost use Rattle.dasd_volumes.specs.Listing.{volume_part, track_part, listed_part, list_text, volume_text};

use crate::fault::VolumeFault;
use crate::forms::{Form, Style};
use crate::objects::{list_object, list_unreadable_object, list_volume_object};
use crate::pieces::{LINE, put_address, put_count, put_fault};
use crate::reading::SlotReader;
use crate::text::PrintedAddress;
use crate::walks::{EachTrack, Range, Tracks, VolumeTrack, all_heads, all_tracks, each_track};
use arrayvec::ArrayString;
use ckd_track::{Geometry, SlotFault, TrackView, read_slot, used};
use counted_io::{Counted, WriteFault, flush_all, put_bytes, put_decimal, write_whole};
use std::alloc::Global;
use std::io::Write;

/// What is listed of a volume, and how.
#[derive(Clone, Copy)]
pub struct Listing<'a> {
    /// How it is written.
    pub form: Form<'a>,
    /// The cylinders.
    pub cylinders: Range,
    /// Whether only those tracks are listed that have more than one record, or that can't be read.
    pub used_only: bool,
}

/// Prints a volume: its model, cylinders, heads and slot size; then each track with its home address, its
/// records and the bytes of the track that they take; and each record with its identifier, key length and data length. A
/// track that can't be read is one line, with why.
///
/// # Errors
///
/// As `list_part`, which it is of all cylinders.
pub fn list<V: SlotReader, W: Write>(
    alloc: Global,
    volume: &mut V,
    writer: &mut Counted<W>,
) -> Result<(), VolumeFault>
    ensures lines { PrintsText result volume_text (V.volume volume.old) (seen_by W.contents writer.old) (seen_by W.contents writer.new) }
    ensures writes { CountsWrites result (seen_by W.contents writer.old) (seen_by W.contents writer.new) }
    ensures none { IfErr result (λ e. e ≡ VolumeFault.OutOfMemory → writer.new ≡ writer.old) }
    ensures volume { IsRead result (V.volume volume.old) (V.volume volume.new) (V.failures volume.old) (V.failures volume.new) }
    ensures flushed { OnOk result (IsFlushed (seen_by W.contents writer.new)) }
{
    let listing = Listing {
        form: Form {
            style: Style::Text,
            path: "",
        },
        cylinders: all_tracks(volume.geometry()).cylinders,
        used_only: false,
    };
    list_part(alloc, volume, writer, listing)
}

/// Prints a volume and the tracks of some of its cylinders, in lines or as objects: one of the volume, and one of each track with its
/// records. A track that can't be read is one line, with why.
///
/// # Errors
///
/// There is no memory for a slot, before anything is printed; a read of the volume failed; or a write failed, or the last flush, and
/// exactly then it is a write fault. What was printed are the first bytes of the text.
pub fn list_part<V: SlotReader, W: Write>(
    alloc: Global,
    volume: &mut V,
    writer: &mut Counted<W>,
    listing: Listing,
) -> Result<(), VolumeFault>
    requires order { listing.cylinders.first ≤ listing.cylinders.last }
    requires exists { listing.cylinders.last < (V.volume volume.old).geometry.cylinders }
    ensures lines { PrintsText result
        (list_text listing.entry.form.style listing.entry.form.path.now listing.entry.used_only listing.entry.cylinders)
        (V.volume volume.old) (seen_by W.contents writer.old) (seen_by W.contents writer.new) }
    ensures writes { CountsWrites result (seen_by W.contents writer.old) (seen_by W.contents writer.new) }
    ensures none { IfErr result (λ e. e ≡ VolumeFault.OutOfMemory → writer.new ≡ writer.old) }
    ensures volume { IsRead result (V.volume volume.old) (V.volume volume.new) (V.failures volume.old) (V.failures volume.new) }
    ensures flushed { OnOk result (IsFlushed (seen_by W.contents writer.new)) }
{
    let Ok(mut slot) = vec![in alloc; 0u8; volume.geometry().track_size as usize] else {
        return Err(VolumeFault::OutOfMemory);
    };
    if let Err(fault) = list_all(volume, writer, listing, slot.as_mut_slice()) {
        return Err(fault);
    }
    match flush_all(writer) {
        Ok(()) => Ok(()),
        Err(WriteFault) => Err(VolumeFault::Write),
    }
}

// Prints the volume and the tracks of its cylinders, each of which is loaded into the slot.
fn list_all<V: SlotReader, W: Write>(
    volume: &mut V,
    writer: &mut Counted<W>,
    listing: Listing,
    slot: &mut [u8],
) -> Result<(), VolumeFault>
    requires order { listing.cylinders.first ≤ listing.cylinders.last }
    requires exists { listing.cylinders.last < (V.volume volume.old).geometry.cylinders }
    requires size { length slot.old ≡ (V.volume volume.old).geometry.track_size }
    ensures lines { PrintsText result
        (list_text listing.entry.form.style listing.entry.form.path.now listing.entry.used_only listing.entry.cylinders)
        (V.volume volume.old) (seen_by W.contents writer.old) (seen_by W.contents writer.new) }
    ensures writes { CountsWrites result (seen_by W.contents writer.old) (seen_by W.contents writer.new) }
    ensures memory { IfErr result (λ e. e ≢ VolumeFault.OutOfMemory) }
    ensures volume { IsRead result (V.volume volume.old) (V.volume volume.new) (V.failures volume.old) (V.failures volume.new) }
{
    let geometry = volume.geometry();
    let tracks = Tracks {
        cylinders: listing.cylinders,
        heads: all_heads(geometry),
    };
    let mut each = listing;
    match list_volume(writer, listing.form, geometry) {
        Ok(()) => each_track(&mut each, volume, writer, tracks, slot),
        Err(WriteFault) => Err(VolumeFault::Write),
    }
}

// The line of the volume.
fn list_volume<W: Write>(
    writer: &mut Counted<W>,
    form: Form,
    geometry: Geometry,
) -> Result<(), WriteFault>
    ensures { WritesWhole result (seen_by W.contents writer.old) (seen_by W.contents writer.new) (volume_part form.entry.style form.entry.path.now geometry) }
{
    match form.style {
        Style::Text => list_geometry(writer, geometry),
        Style::Json => list_volume_object(writer, form.path, geometry),
    }
}

// The volume in words.
fn list_geometry<W: Write>(writer: &mut Counted<W>, geometry: Geometry) -> Result<(), WriteFault>
    ensures { WritesWhole result (seen_by W.contents writer.old) (seen_by W.contents writer.new) (volume_line geometry) }
{
    let mut line: ArrayString<LINE> = ArrayString::new();
    put_decimal(&mut line, u32::from(geometry.model.number()));
    line.push_str(" ");
    put_decimal(&mut line, u32::from(geometry.cylinders));
    line.push_str(" cylinders ");
    put_decimal(&mut line, u32::from(geometry.model.heads()));
    line.push_str(" heads slot ");
    put_decimal(&mut line, geometry.track_size);
    line.push_str("\n");
    write_whole(writer, line.as_bytes())
}

impl<'a> EachTrack for Listing<'a> {
    ghost use Rattle.dasd_volumes.specs.Listing.{listed_text};

    ghost text = { λ l. listed_text l.form.style l.form.path.now l.used_only };

    ghost IsKnown = { λ l. Unit {0} };

    ghost IsFor = { λ g l. Unit {0} };

    ghost Notes = { λ before track now. Unit {0} };

    ghost Keeps = { λ before now. Unit {0} };

    ghost failures = { λ l. 0 };

    ghost WantsMemory = { ⊥ };

    fn track<W: Write>(
        &mut self,
        writer: &mut Counted<W>,
        track: VolumeTrack,
        slot: &[u8],
    ) -> Result<(), VolumeFault> {
        let listing = *self;
        match list_track(writer, listing, track, slot) {
            Ok(()) => Ok(()),
            Err(WriteFault) => Err(VolumeFault::Write),
        }
    }

    ghost still = { λ x. tt };

    ghost kept = { λ a b c first next. tt };
}

// The lines of one track, if it is asked for.
fn list_track<W: Write>(
    writer: &mut Counted<W>,
    listing: Listing,
    track: VolumeTrack,
    slot: &[u8],
) -> Result<(), WriteFault>
    ensures { WritesWhole result (seen_by W.contents writer.old) (seen_by W.contents writer.new)
        (listed_part listing.entry.form.style listing.entry.form.path.now listing.entry.used_only track.geometry.model
        track.cylinder track.head (track_of slot.now)) }
{
    match read_slot(slot) {
        Ok(view) => list_asked(writer, listing, track, &view),
        Err(fault) => list_unreadable(writer, listing.form, track, fault),
    }
}

// The line of a track that can't be read.
fn list_unreadable<W: Write>(
    writer: &mut Counted<W>,
    form: Form,
    track: VolumeTrack,
    fault: SlotFault,
) -> Result<(), WriteFault>
    ensures { WritesWhole result (seen_by W.contents writer.old) (seen_by W.contents writer.new)
        (track_part form.entry.style form.entry.path.now track.geometry.model track.cylinder track.head (Err fault)) }
{
    let VolumeTrack { cylinder, head, .. } = track;
    let address = PrintedAddress { cylinder, head };
    match form.style {
        Style::Text => list_unreadable_line(writer, address, fault),
        Style::Json => list_unreadable_object(writer, form.path, address, fault),
    }
}

// A track that can't be read, as a line.
fn list_unreadable_line<W: Write>(
    writer: &mut Counted<W>,
    address: PrintedAddress,
    fault: SlotFault,
) -> Result<(), WriteFault>
    ensures { WritesWhole result (seen_by W.contents writer.old) (seen_by W.contents writer.new) (lines.unreadable_line address.cylinder address.head fault) }
{
    let mut line: ArrayString<LINE> = ArrayString::new();
    put_address(&mut line, address);
    line.push_str(" unreadable ");
    put_fault(&mut line, fault);
    line.push_str("\n");
    write_whole(writer, line.as_bytes())
}

// The lines of a track that can be read, if it is asked for.
fn list_asked<W: Write>(
    writer: &mut Counted<W>,
    listing: Listing,
    track: VolumeTrack,
    view: &TrackView,
) -> Result<(), WriteFault>
    ensures { WritesWhole result (seen_by W.contents writer.old) (seen_by W.contents writer.new)
        (listed_part listing.entry.form.style listing.entry.form.path.now listing.entry.used_only track.geometry.model
        track.cylinder track.head (Ok view.now)) }
{
    if listing.used_only && view.len() <= 1 {
        return Ok(());
    }
    match listing.form.style {
        Style::Text => list_lines(writer, track, view),
        Style::Json => list_object(writer, listing.form.path, track, view),
    }
}

// A track and its records, a line each.
fn list_lines<W: Write>(
    writer: &mut Counted<W>,
    track: VolumeTrack,
    view: &TrackView,
) -> Result<(), WriteFault>
    ensures { WritesWhole result (seen_by W.contents writer.old) (seen_by W.contents writer.new)
        (track_line track.geometry.model track.cylinder track.head view.now ++ flat_map record_line view.now.records) }
{
    list_home_address(writer, track, view)?;
    for i in 0..view.len() {
        list_record(writer, view, i)?;
    }
    Ok(())
}

// The first line of a track.
fn list_home_address<W: Write>(
    writer: &mut Counted<W>,
    track: VolumeTrack,
    view: &TrackView,
) -> Result<(), WriteFault>
    ensures { WritesWhole result (seen_by W.contents writer.old) (seen_by W.contents writer.new)
        (track_line track.geometry.model track.cylinder track.head view.now) }
{
    let VolumeTrack { cylinder, head, .. } = track;
    let mut line: ArrayString<LINE> = ArrayString::new();
    put_address(&mut line, PrintedAddress { cylinder, head });
    line.push_str(" HA ");
    put_bytes(&mut line, view.ha());
    line.push_str(" records ");
    put_count(&mut line, view.len());
    line.push_str(" used ");
    put_decimal(&mut line, used(track.geometry.model, view));
    line.push_str("\n");
    write_whole(writer, line.as_bytes())
}

// The line of a record.
fn list_record<W: Write>(
    writer: &mut Counted<W>,
    view: &TrackView,
    i: usize,
) -> Result<(), WriteFault>
    requires { i < length view.now.records }
    ensures { WritesWhole result (seen_by W.contents writer.old) (seen_by W.contents writer.new) (record_line (record_in view.now i)) }
{
    let mut line: ArrayString<LINE> = ArrayString::new();
    line.push_str("  ");
    put_bytes(&mut line, &view.count_of(i)[..5]);
    line.push_str(" KL ");
    put_count(&mut line, view.key_of(i).len());
    line.push_str(" DL ");
    put_count(&mut line, view.data_of(i).len());
    line.push_str("\n");
    write_whole(writer, line.as_bytes())
}

//! The bytes of tracks, in hexadecimal and in EBCDIC.

ghost use Rattle.std.specs.Prelude.{◌≡◌, ◌≢◌, ◌+◌, ◌<◌, ◌++◌, length, OnOk, IfErr, slice_index};
ghost use Rattle.std.specs.List.{flat_map};
ghost use Rattle.std.specs.Io.KnownBytes.{Appends};
ghost use Rattle.counted_io.specs.Streams.{seen_by, IsFlushed};
ghost use Rattle.ckd_track.specs.Track.{track_of, record_in};
ghost use Rattle.dasd_volumes.specs.Printing.{PrintsText, PrintsBytes, CountsWrites};
ghost use Rattle.dasd_volumes.specs.Reading.{IsRead};
ghost use Rattle.dasd_volumes.specs.Lines.{record_line};
ghost use Rattle.dasd_volumes.specs.Listing.{place_text};
ghost use Rattle.dasd_archive.specs.Dump.{areas_text, object_text, record_dump, record_text, home_address_line, unreadable_line, track_dump};
ghost use Rattle.dasd_archive.specs.Dump.{dump_text, IsPartOf};

use crate::printed::print_lines;
use crate::rows::write_rows;
use crate::tracks::identifier;
use ckd_track::{SlotFault, TrackView, read_slot};
use counted_io::{Counted, WriteFault, flush_all};
use dasd_volumes::{
    EachTrack, Form, Hexadecimal, PrintedAddress, Range, Reason, SlotReader, Style, Tracks,
    VolumeFault, VolumeTrack, each_track,
};
use std::alloc::Global;
use std::io;
use std::io::Write;
use std::marker::Model;

/// A part of a volume.
#[derive(Clone, Copy)]
pub struct VolumePart {
    /// Its cylinders.
    pub cylinders: Range,
    /// The heads on each of them.
    pub heads: Range,
    /// The numbers of the records that are shown.
    pub numbers: Range,
}

// A dump of tracks: how it is written, of which records, and the lines of one track.
#[derive(Drop)]
struct DumpedTracks<'a> {
    form: Form<'a>,
    numbers: Range,
    lines: Vec<u8>,
}

// How the lines of a track are written, and where it stands.
#[derive(Drop)]
struct TrackForm<'a> {
    form: Form<'a>,
    address: PrintedAddress,
}

impl<'a> Model for TrackForm<'a> {
    ghost use Rattle.dasd_archive.specs.Dump.{DumpedTrack};

    ghost Value = { DumpedTrack };

    ghost view = { λ f. record {
      style = f.form.style;
      path = f.form.path.now;
      cylinder = f.address.cylinder;
      head = f.address.head;
    } };
}

/// Prints the home addresses and the records of a part of a volume, sixteen bytes of a key or of data to a line: the offset of
/// the first, the bytes in hexadecimal, and their characters in EBCDIC. A track that can't be read is one line, with why. The lines of
/// a track are made in memory, and written from there.
///
/// # Errors
///
/// There is no memory for a slot or for the lines of a track; a read of the volume failed; or a write failed, or the last flush, and
/// exactly then it is a write fault. What was printed are the first bytes of the text.
pub fn dump<V: SlotReader, W: Write>(
    alloc: Global,
    volume: &mut V,
    writer: &mut Counted<W>,
    form: Form,
    part: VolumePart,
) -> Result<(), VolumeFault>
    requires { IsPartOf part (V.volume volume.old).geometry }
    ensures lines { PrintsText result (dump_text form.entry.style form.entry.path.now part) (V.volume volume.old)
        (seen_by W.contents writer.old) (seen_by W.contents writer.new) }
    ensures writes { CountsWrites result (seen_by W.contents writer.old) (seen_by W.contents writer.new) }
    ensures volume { IsRead result (V.volume volume.old) (V.volume volume.new) (V.failures volume.old) (V.failures volume.new) }
    ensures flushed { OnOk result (IsFlushed (seen_by W.contents writer.new)) }
{
    let Ok(mut slot) = vec![in alloc; 0u8; volume.geometry().track_size as usize] else {
        return Err(VolumeFault::OutOfMemory);
    };
    let tracks = Tracks {
        cylinders: part.cylinders,
        heads: part.heads,
    };
    let mut dump = DumpedTracks {
        form,
        numbers: part.numbers,
        lines: Vec::new(alloc),
    };
    let slot = slot.as_mut_slice();
    if let Err(fault) = each_track(&mut dump, volume, writer, tracks, slot) {
        return Err(fault);
    }
    match flush_all(writer) {
        Ok(()) => Ok(()),
        Err(WriteFault) => Err(VolumeFault::Write),
    }
}

impl<'a> EachTrack for DumpedTracks<'a> {
    ghost use Rattle.dasd_archive.specs.Dump.{dumped_text};

    ghost text = { λ d. dumped_text d.form.style d.form.path.now d.numbers };

    ghost IsKnown = { λ d. Unit {0} };

    ghost IsFor = { λ g d. Unit {0} };

    ghost Notes = { λ before track now. Unit {0} };

    ghost Keeps = { λ before now. Unit {0} };

    ghost failures = { λ d. 0 };

    ghost WantsMemory = { Unit {0} };

    fn track<W: Write>(
        &mut self,
        writer: &mut Counted<W>,
        track: VolumeTrack,
        slot: &[u8],
    ) -> Result<(), VolumeFault> {
        let VolumeTrack { cylinder, head, .. } = track;
        let form = TrackForm {
            form: self.form,
            address: PrintedAddress { cylinder, head },
        };
        print_track(writer, &form, self.numbers, slot, &mut self.lines)
    }

    ghost still = { λ x. tt };

    ghost kept = { λ a b c first next. tt };
}

// Prints the lines of one track, which are made in memory.
fn print_track<W: Write>(
    writer: &mut Counted<W>,
    form: &TrackForm,
    numbers: Range,
    slot: &[u8],
    lines: &mut Vec<u8>,
) -> Result<(), VolumeFault>
    ensures lines { PrintsBytes result (track_dump form.now numbers (track_of slot.now))
        (seen_by W.contents writer.old) (seen_by W.contents writer.new) }
    ensures writes { CountsWrites result (seen_by W.contents writer.old) (seen_by W.contents writer.new) }
    ensures fault { IfErr result (λ e. e ≢ VolumeFault.Store) }
{
    lines.clear();
    if dump_track(lines, form, numbers, slot).is_err() {
        return Err(VolumeFault::OutOfMemory);
    }
    print_lines(writer, lines.as_slice())
}

// The lines of one track.
fn dump_track<W: Write>(
    writer: &mut W,
    lines: &TrackForm,
    numbers: Range,
    slot: &[u8],
) -> io::Result<()>
    ensures { OnOk result (Appends (W.contents writer.old) (W.contents writer.new)
        (track_dump lines.now numbers (track_of slot.now))) }
{
    match read_slot(slot) {
        Ok(track) => dump_readable(writer, lines, numbers, &track),
        Err(fault) => dump_unreadable(writer, lines, fault),
    }
}

// The line of a track that can't be read.
fn dump_unreadable<W: Write>(writer: &mut W, lines: &TrackForm, fault: SlotFault) -> io::Result<()>
    ensures { OnOk result (Appends (W.contents writer.old) (W.contents writer.new)
        (unreadable_line lines.now fault)) }
{
    let path = lines.form.path;
    let address = lines.address;
    let PrintedAddress { cylinder, head } = address;
    match lines.form.style {
        Style::Text => writeln!(writer, "{address} unreadable {}", Reason(fault)),
        Style::Json => writeln!(
            writer,
            "{{\"path\":{path},\"cylinder\":{cylinder},\"head\":{head},\"unreadable\":\"{}\"}}",
            Reason(fault)
        ),
    }
}

// The lines of a track that can be read.
fn dump_readable<W: Write>(
    writer: &mut W,
    lines: &TrackForm,
    numbers: Range,
    track: &TrackView,
) -> io::Result<()>
    ensures { OnOk result (Appends (W.contents writer.old) (W.contents writer.new)
        (home_address_line lines.now track.now.home_address ++ flat_map (record_text lines.now numbers) track.now.records)) }
{
    dump_home_address(writer, lines, track)?;
    for i in 0..track.len() {
        dump_asked(writer, lines, numbers, track, i)?;
    }
    Ok(())
}

// The line of a home address.
fn dump_home_address<W: Write>(
    writer: &mut W,
    lines: &TrackForm,
    track: &TrackView,
) -> io::Result<()>
    ensures { OnOk result (Appends (W.contents writer.old) (W.contents writer.new)
        (home_address_line lines.now track.now.home_address)) }
{
    let path = lines.form.path;
    let address = lines.address;
    let PrintedAddress { cylinder, head } = address;
    let home_address = Hexadecimal(track.ha());
    match lines.form.style {
        Style::Text => writeln!(writer, "{address} HA {home_address}"),
        Style::Json => writeln!(
            writer,
            "{{\"path\":{path},\"cylinder\":{cylinder},\"head\":{head},\"home_address\":\"{home_address}\"}}"
        ),
    }
}

/// The number of a record.
pub(crate) fn number_of(track: &TrackView, i: usize) -> u8
    requires { i < length track.now.records }
    ensures { result ≡ slice_index (record_in track.now i).id 4 }
{
    track.count_of(i)[4]
}

// The lines of a record whose number is asked for.
fn dump_asked<W: Write>(
    writer: &mut W,
    lines: &TrackForm,
    numbers: Range,
    track: &TrackView,
    i: usize,
) -> io::Result<()>
    requires { i < length track.now.records }
    ensures { OnOk result (Appends (W.contents writer.old) (W.contents writer.new)
        (record_text lines.now numbers (record_in track.now i))) }
{
    if numbers.contains(u16::from(number_of(track, i))) {
        dump_record(writer, lines, track, i)
    } else {
        Ok(())
    }
}

// The lines of a record.
fn dump_record<W: Write>(
    writer: &mut W,
    lines: &TrackForm,
    track: &TrackView,
    i: usize,
) -> io::Result<()>
    requires { i < length track.now.records }
    ensures { OnOk result (Appends (W.contents writer.old) (W.contents writer.new)
        (record_dump lines.now (record_in track.now i))) }
{
    match lines.form.style {
        Style::Text => {
            dump_count(writer, track, i)?;
            write_rows(writer, b'K', track.key_of(i))?;
            write_rows(writer, b'D', track.data_of(i))
        }
        Style::Json => dump_object(writer, lines, track, i),
    }
}

// A record as an object.
fn dump_object<W: Write>(
    writer: &mut W,
    lines: &TrackForm,
    track: &TrackView,
    i: usize,
) -> io::Result<()>
    requires { i < length track.now.records }
    ensures { OnOk result (Appends (W.contents writer.old) (W.contents writer.new)
        (object_text lines.now (record_in track.now i).id (record_in track.now i).key_area (record_in track.now i).data_area)) }
{
    let identifier = identifier(track, i);
    let areas = Areas {
        identifier: &identifier,
        key: track.key_of(i),
        body: track.data_of(i),
    };
    write_object(writer, lines, &areas)
}

// The identifier of a record, its key and its data.
#[derive(Clone, Copy)]
struct Areas<'a> {
    identifier: &'a [u8],
    key: &'a [u8],
    body: &'a [u8],
}

// An identifier, a key and data as an object.
fn write_object<W: Write>(writer: &mut W, lines: &TrackForm, areas: &Areas) -> io::Result<()>
    ensures { OnOk result (Appends (W.contents writer.old) (W.contents writer.new)
        (object_text lines.now areas.now.identifier.now areas.now.key.now areas.now.body.now)) }
{
    write_place(writer, lines)?;
    write_areas(writer, areas)
}

// How an object of a track begins.
fn write_place<W: Write>(writer: &mut W, lines: &TrackForm) -> io::Result<()>
    ensures { OnOk result (Appends (W.contents writer.old) (W.contents writer.new)
        (place_text lines.now.path lines.now.cylinder lines.now.head)) }
{
    let path = lines.form.path;
    let address = lines.address;
    let PrintedAddress { cylinder, head } = address;
    write!(
        writer,
        "{{\"path\":{path},\"cylinder\":{cylinder},\"head\":{head}"
    )
}

// How an object of a record ends.
fn write_areas<W: Write>(writer: &mut W, areas: &Areas) -> io::Result<()>
    ensures { OnOk result (Appends (W.contents writer.old) (W.contents writer.new)
        (areas_text areas.now.identifier.now areas.now.key.now areas.now.body.now)) }
{
    let identifier = Hexadecimal(areas.identifier);
    let key = Hexadecimal(areas.key);
    let body = Hexadecimal(areas.body);
    writeln!(
        writer,
        ",\"identifier\":\"{identifier}\",\"key\":\"{key}\",\"data\":\"{body}\"}}"
    )
}

// The line of a record's identifier and lengths.
fn dump_count<W: Write>(writer: &mut W, track: &TrackView, i: usize) -> io::Result<()>
    requires { i < length track.now.records }
    ensures { OnOk result (Appends (W.contents writer.old) (W.contents writer.new) (record_line (record_in track.now i))) }
{
    let identifier = Hexadecimal(&track.count_of(i)[..5]);
    let key_length = track.key_of(i).len();
    let data_length = track.data_of(i).len();
    writeln!(writer, "  {identifier} KL {key_length} DL {data_length}")
}

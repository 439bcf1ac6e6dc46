//! What is found of one track.

ghost use Rattle.std.specs.Prelude.{◌≡◌, ◌<◌, ◌≤◌, ◌+◌, ◌/◌, ◌-◌, ◌==◌, ◌++◌, length, take, drop, not, IsOk, OnOk, Ok, bytes_eq};
ghost use Rattle.std.specs.List.{list_any};
ghost use Rattle.ckd_track.specs.Track.{track_of, track_in, record_in};
ghost use Rattle.ckd_track.specs.Changes.{end_offset};
ghost use Rattle.ckd_track.specs.NewVolume.{address};
ghost use Rattle.dasd_volumes.specs.Volumes.{of_each};
ghost use Rattle.dasd_archive.specs.Reports.{Reports};
ghost use Rattle.dasd_archive.specs.Strict.{where_so, is_own, home_address_findings, begins_with_record_0, track_findings, record_findings, first_set};
ghost use Rattle.dasd_archive.specs.Strict.{rest_findings, findings_of, findings_in_slot, findings_in_header};

use crate::findings::{FindingPlace, StrictFinding, StrictProblem};
use crate::reports::{FindingForm, Tally, report};
use ckd_track::{TrackView, end_offset_of, index_slot, used, view_at};
use dasd_volumes::VolumeTrack;
use std::io;
use std::io::Write;

/// Where the reserved bytes of a header begin.
const RESERVED_START: usize = 20;

/// A track that is checked, and how what is found of it is written.
#[derive(Clone, Copy)]
pub(crate) struct CheckedTrack<'a> {
    pub(crate) form: FindingForm<'a>,
    pub(crate) place: VolumeTrack,
}

/// Checks the track in a slot. The table has room for the offsets of its records.
pub(crate) fn check_track<W: Write>(
    writer: &mut W,
    tally: &mut Tally,
    track: &CheckedTrack,
    slot: &[u8],
    table: &mut [u32],
) -> io::Result<()>
    requires size { length slot.now ≤ 65536 }
    requires room { (length slot.now - 5) / 8 ≤ length table.old }
    ensures { OnOk result (Reports track.now.form.style track.now.form.path.now
        (W.contents writer.old) (W.contents writer.new) tally.old tally.new
        (findings_in_slot track.now.place.geometry track.now.place.cylinder track.now.place.head slot.now)) }
{
    match index_slot(slot, table) {
        Ok(records) => check_readable(
            writer,
            tally,
            track,
            slot,
            &view_at(slot, &table[..records]),
        ),
        Err(fault) => report(
            writer,
            tally,
            track.form,
            found(track.place, StrictProblem::Unreadable(fault)),
        ),
    }
}

// A problem of a track.
fn found(track: VolumeTrack, problem: StrictProblem) -> StrictFinding
    ensures { result ≡ record { place = FindingPlace.Track track.cylinder track.head; problem = problem } }
{
    StrictFinding {
        place: FindingPlace::Track(track.cylinder, track.head),
        problem,
    }
}

// Reports a problem of a track where it is so.
fn report_where<W: Write>(
    writer: &mut W,
    tally: &mut Tally,
    form: FindingForm,
    is_so: bool,
    finding: StrictFinding,
) -> io::Result<()>
    ensures { OnOk result (Reports form.entry.style form.entry.path.now (W.contents writer.old) (W.contents writer.new)
        tally.old tally.new (where_so is_so finding.place finding.problem)) }
{
    if is_so {
        report(writer, tally, form, finding)
    } else {
        Ok(())
    }
}

// Checks a track that can be read: as a whole, record by record, and behind its end mark.
fn check_readable<W: Write>(
    writer: &mut W,
    tally: &mut Tally,
    track: &CheckedTrack,
    slot: &[u8],
    view: &TrackView,
) -> io::Result<()>
    requires { track_of slot.now ≡ Ok view.now }
    ensures { OnOk result (Reports track.now.form.style track.now.form.path.now
        (W.contents writer.old) (W.contents writer.new) tally.old tally.new
        (findings_of track.now.place.geometry track.now.place.cylinder track.now.place.head slot.now view.now)) }
{
    check_whole(writer, tally, track, view)?;
    check_records(writer, tally, track, view)?;
    check_rest(writer, tally, track, slot)
}

// Checks a track as a whole.
fn check_whole<W: Write>(
    writer: &mut W,
    tally: &mut Tally,
    track: &CheckedTrack,
    view: &TrackView,
) -> io::Result<()>
    ensures { OnOk result (Reports track.now.form.style track.now.form.path.now
        (W.contents writer.old) (W.contents writer.new) tally.old tally.new
        (track_findings track.now.place.geometry track.now.place.cylinder track.now.place.head view.now)) }
{
    check_home_address(writer, tally, track, view)?;
    let finding = found(track.place, StrictProblem::NoRecord0);
    report_where(writer, tally, track.form, !has_record_0(view), finding)?;
    let used = used(track.place.geometry.model, view);
    let is_over = track.place.geometry.model.capacity() < used;
    let finding = found(track.place, StrictProblem::OverCapacity(used));
    report_where(writer, tally, track.form, is_over, finding)
}

// Whether the first record's number is 0.
fn has_record_0(view: &TrackView) -> bool
    ensures { result ≡ begins_with_record_0 view.now.records }
{
    if view.is_empty() {
        return false;
    }
    view.count_of(0)[4] == 0
}

/// Five bytes by value.
pub(crate) fn five(bytes: &[u8]) -> [u8; 5]
    requires { length bytes.now ≡ 5 }
    ensures { result ≡ bytes.now }
{
    let mut five = [0u8; 5];
    five.copy_from_slice(bytes);
    five
}

/// A record's identifier: its cylinder, head and record number.
pub(crate) fn identifier(view: &TrackView, i: usize) -> [u8; 5]
    requires { i < length view.now.records }
    ensures value { result ≡ (record_in view.now i).id }
    ensures five { length (record_in view.now i).id ≡ 5 }
{
    five(&view.count_of(i)[..5])
}

// Whether two identifiers are the same.
fn is_same(one: [u8; 5], other: [u8; 5]) -> bool
    ensures { result ≡ bytes_eq one other }
{
    one[..] == other[..]
}

// Whether the four bytes are the track's own cylinder and head.
fn is_own(track: VolumeTrack, bytes: &[u8]) -> bool
    ensures { result ≡ is_own track.cylinder track.head bytes.now }
{
    let [cylinder_high, cylinder_low] = track.cylinder.to_be_bytes();
    let [head_high, head_low] = track.head.to_be_bytes();
    let own = [cylinder_high, cylinder_low, head_high, head_low];
    bytes == &own[..]
}

// Checks a home address.
fn check_home_address<W: Write>(
    writer: &mut W,
    tally: &mut Tally,
    track: &CheckedTrack,
    view: &TrackView,
) -> io::Result<()>
    ensures { OnOk result (Reports track.now.form.style track.now.form.path.now
        (W.contents writer.old) (W.contents writer.new) tally.old tally.new
        (home_address_findings track.now.place.cylinder track.now.place.head view.now.home_address)) }
{
    let home_address = view.ha();
    let is_other = !is_own(track.place, bytes_from(home_address, 1));
    let finding = found(
        track.place,
        StrictProblem::OtherHomeAddress(five(home_address)),
    );
    report_where(writer, tally, track.form, is_other, finding)?;
    let finding = found(track.place, StrictProblem::Flagged(five(home_address)));
    report_where(writer, tally, track.form, home_address[0] != 0, finding)
}

// Checks the records of a track, each by itself and against those before it.
fn check_records<W: Write>(
    writer: &mut W,
    tally: &mut Tally,
    track: &CheckedTrack,
    view: &TrackView,
) -> io::Result<()>
    ensures { OnOk result (Reports track.now.form.style track.now.form.path.now
        (W.contents writer.old) (W.contents writer.new) tally.old tally.new
        (of_each (record_findings track.now.place.cylinder track.now.place.head view.now) (length view.now.records))) }
{
    for i in 0..view.len() {
        check_record(writer, tally, track, view, i)?;
    }
    Ok(())
}

// Checks a record.
fn check_record<W: Write>(
    writer: &mut W,
    tally: &mut Tally,
    track: &CheckedTrack,
    view: &TrackView,
    i: usize,
) -> io::Result<()>
    requires { i < length view.now.records }
    ensures { OnOk result (Reports track.now.form.style track.now.form.path.now
        (W.contents writer.old) (W.contents writer.new) tally.old tally.new
        (record_findings track.now.place.cylinder track.now.place.head view.now i)) }
{
    let identifier = identifier(view, i);
    let finding = found(track.place, StrictProblem::SameIdentifier(i, identifier));
    report_where(
        writer,
        tally,
        track.form,
        is_earlier(view, i, identifier),
        finding,
    )?;
    let is_other = !is_own(track.place, &identifier[..4]);
    let finding = found(track.place, StrictProblem::OtherIdentifier(i, identifier));
    report_where(writer, tally, track.form, is_other, finding)?;
    let finding = found(track.place, StrictProblem::EndOfFile(i));
    report_where(
        writer,
        tally,
        track.form,
        view.data_of(i).is_empty(),
        finding,
    )
}

// Whether one of the first records of a track has this identifier.
fn is_earlier(view: &TrackView, records: usize, wanted: [u8; 5]) -> bool
    requires { records ≤ length view.now.records }
    ensures { result ≡ list_any (λ earlier. bytes_eq earlier.id wanted) (take records view.now.records) }
{
    for i in 0..records {
        if is_same(identifier(view, i), wanted) {
            return true;
        }
    }
    false
}

// The first byte that is not zero.
fn first_set(bytes: &[u8]) -> Option<usize>
    ensures { result ≡ first_set bytes.now }
{
    bytes.iter().position(|byte| *byte != 0)
}

// Checks what stands behind the end mark.
fn check_rest<W: Write>(
    writer: &mut W,
    tally: &mut Tally,
    track: &CheckedTrack,
    slot: &[u8],
) -> io::Result<()>
    requires { IsOk (track_of slot.now) }
    ensures { OnOk result (Reports track.now.form.style track.now.form.path.now
        (W.contents writer.old) (W.contents writer.new) tally.old tally.new
        (rest_findings track.now.place.cylinder track.now.place.head (end_offset (track_in slot.now) + 8)
        (first_set (drop (end_offset (track_in slot.now) + 8) slot.now)))) }
{
    let from = end_offset_of(slot) + 8;
    match first_set(&slot[from..]) {
        None => Ok(()),
        Some(i) => report(
            writer,
            tally,
            track.form,
            found(track.place, StrictProblem::BytesBehindEnd(from + i)),
        ),
    }
}

/// The bytes from an offset on.
pub(crate) fn bytes_from(bytes: &[u8], from: usize) -> &[u8]
    requires { from ≤ length bytes.now }
    ensures { result.now ≡ drop from bytes.now }
{
    &bytes[from..]
}

/// Checks the header of a file, whose bytes from 20 on are reserved.
pub(crate) fn check_header<W: Write>(
    writer: &mut W,
    tally: &mut Tally,
    form: FindingForm,
    file: u8,
    header: &[u8],
) -> io::Result<()>
    requires { length header.now ≡ 512 }
    ensures { OnOk result (Reports form.entry.style form.entry.path.now (W.contents writer.old) (W.contents writer.new)
        tally.old tally.new (findings_in_header file header.now)) }
{
    match first_set(bytes_from(header, RESERVED_START)) {
        None => Ok(()),
        Some(i) => {
            let place = FindingPlace::Header(file);
            let problem = StrictProblem::ReservedBytes(RESERVED_START + i);
            report(writer, tally, form, StrictFinding { place, problem })
        }
    }
}

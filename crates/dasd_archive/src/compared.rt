//! Two tracks are compared.

ghost use Rattle.std.specs.Prelude.{◌≡◌, ◌<◌, ◌≤◌, ◌+◌, [], ◌∷◌, IsOk, Ok, length, drop, bytes_eq, IfOk, OnOk, if◌then◌else◌};
ghost use Rattle.std.specs.Io.KnownBytes.{Appends};
ghost use Rattle.ckd_track.specs.Track.{track_of, track_in, record_in};
ghost use Rattle.ckd_track.specs.Changes.{end_offset};
ghost use Rattle.dasd_archive.specs.Compare.{difference_line, difference_lines, where_not, same_length, differences_of, track_lines, changed};
ghost use Rattle.dasd_archive.specs.Compare.{record_differences, shared_differences, rest_differences, readable_differences};

use crate::compares::Comparison;
use crate::differences::Difference;
use crate::tracks::{bytes_from, five, identifier};
use ckd_track::{TrackView, end_offset_of, read_slot};
use dasd_volumes::{PrintedAddress, Style};
use std::io;
use std::io::Write;
use std::marker::Model;

/// How the lines of two tracks are written, and where both stand.
#[derive(Drop)]
pub(crate) struct DifferenceForm<'a> {
    pub(crate) form: Comparison<'a>,
    pub(crate) address: PrintedAddress,
}

impl<'a> Model for DifferenceForm<'a> {
    ghost use Rattle.dasd_archive.specs.Compare.{ComparedTrack, comparison_form};

    ghost Value = { ComparedTrack };

    ghost view = { λ f. record { form = comparison_form f.form; cylinder = f.address.cylinder; head = f.address.head } };
}

// A slot, and the track that it spells.
#[derive(Drop)]
struct ReadSlot<'a> {
    slot: &'a [u8],
    track: TrackView<'a>,
}

/// The lines of a track; and whether it differs.
pub(crate) fn compare_track<W: Write>(
    writer: &mut W,
    lines: &DifferenceForm,
    slot: &[u8],
    other_slot: &[u8],
) -> io::Result<u32>
    ensures number { IfOk result (λ n. n ≡ length (changed slot.now other_slot.now)) }
    ensures few { IfOk result (λ n. n ≤ 1) }
    ensures lines { OnOk result (Appends (W.contents writer.old) (W.contents writer.new)
        (track_lines lines.now slot.now other_slot.now)) }
{
    if slot == other_slot {
        return Ok(0);
    }
    write_listed(writer, lines, slot, other_slot)?;
    Ok(1)
}

// The lines of a track that differs, where each difference has one.
fn write_listed<W: Write>(
    writer: &mut W,
    lines: &DifferenceForm,
    slot: &[u8],
    other_slot: &[u8],
) -> io::Result<()>
    ensures { OnOk result (Appends (W.contents writer.old) (W.contents writer.new)
        (if lines.now.form.lists then difference_lines lines.now
        (differences_of slot.now other_slot.now (track_of slot.now) (track_of other_slot.now)) else [])) }
{
    if lines.form.lists {
        write_differences(writer, lines, slot, other_slot)
    } else {
        Ok(())
    }
}

// The lines of a track that differs.
fn write_differences<W: Write>(
    writer: &mut W,
    lines: &DifferenceForm,
    slot: &[u8],
    other_slot: &[u8],
) -> io::Result<()>
    ensures { OnOk result (Appends (W.contents writer.old) (W.contents writer.new)
        (difference_lines lines.now (differences_of slot.now other_slot.now (track_of slot.now) (track_of other_slot.now)))) }
{
    match read_slot(slot) {
        Ok(track) => match read_slot(other_slot) {
            Ok(other_track) => {
                let one = ReadSlot { slot, track };
                let other = ReadSlot {
                    slot: other_slot,
                    track: other_track,
                };
                compare_readable(writer, lines, &one, &other)
            }
            Err(fault) => write_difference(writer, lines, Difference::SecondUnreadable(fault)),
        },
        Err(fault) => match read_slot(other_slot) {
            Ok(_) => write_difference(writer, lines, Difference::FirstUnreadable(fault)),
            Err(_) => {
                let same = same_length(slot, other_slot);
                write_difference(writer, lines, Difference::Unreadable(same))
            }
        },
    }
}

// A difference as the only one.
fn write_difference<W: Write>(
    writer: &mut W,
    lines: &DifferenceForm,
    difference: Difference,
) -> io::Result<()>
    ensures { OnOk result (Appends (W.contents writer.old) (W.contents writer.new)
        (difference_lines lines.now (difference ∷ []))) }
{
    write_line(writer, lines, difference)
}

// The line of a difference.
fn write_line<W: Write>(
    writer: &mut W,
    lines: &DifferenceForm,
    difference: Difference,
) -> io::Result<()>
    ensures { OnOk result (Appends (W.contents writer.old) (W.contents writer.new)
        (difference_line lines.now difference)) }
{
    let path = lines.form.path;
    let other = lines.form.other;
    let address = lines.address;
    let PrintedAddress { cylinder, head } = address;
    match lines.form.style {
        Style::Text => writeln!(writer, "{address} {difference}"),
        Style::Json => writeln!(
            writer,
            "{{\"path\":{path},\"other\":{other},\"cylinder\":{cylinder},\"head\":{head},\"text\":\"{difference}\"}}"
        ),
    }
}

// The line of a difference, unless the two are the same.
fn write_unless<W: Write>(
    writer: &mut W,
    lines: &DifferenceForm,
    is_same: bool,
    difference: Difference,
) -> io::Result<()>
    ensures { OnOk result (Appends (W.contents writer.old) (W.contents writer.new)
        (difference_lines lines.now (where_not is_same difference))) }
{
    if is_same {
        Ok(())
    } else {
        write_difference(writer, lines, difference)
    }
}

// The line of a difference, unless these bytes are the same.
fn write_unless_equal<W: Write>(
    writer: &mut W,
    lines: &DifferenceForm,
    one: &[u8],
    other: &[u8],
    difference: Difference,
) -> io::Result<()>
    ensures { OnOk result (Appends (W.contents writer.old) (W.contents writer.new)
        (difference_lines lines.now (where_not (bytes_eq one.now other.now) difference))) }
{
    write_unless(writer, lines, one == other, difference)
}

// How many bytes from the first on are the same.
fn same_length(one: &[u8], other: &[u8]) -> usize
    ensures { result ≡ same_length one.now other.now }
{
    let shorter = one.len().min(other.len());
    for i in 0..shorter {
        if one[i] != other[i] {
            return i;
        }
    }
    shorter
}

// The lines of two tracks that can be read.
fn compare_readable<W: Write>(
    writer: &mut W,
    lines: &DifferenceForm,
    one: &ReadSlot,
    other: &ReadSlot,
) -> io::Result<()>
    requires first { track_of one.now.slot.now ≡ Ok one.now.track }
    requires second { track_of other.now.slot.now ≡ Ok other.now.track }
    ensures { OnOk result (Appends (W.contents writer.old) (W.contents writer.new)
        (difference_lines lines.now (readable_differences one.now.slot.now other.now.slot.now one.now.track other.now.track))) }
{
    let (first, second) = (one.track.ha(), other.track.ha());
    let difference = Difference::HomeAddress(five(first), five(second));
    write_unless_equal(writer, lines, first, second, difference)?;
    let (first, second) = (one.track.len(), other.track.len());
    let difference = Difference::Records(first, second);
    write_unless(writer, lines, first == second, difference)?;
    compare_records(writer, lines, &one.track, &other.track)?;
    compare_rests(writer, lines, rest_of(one.slot), rest_of(other.slot))
}

// The lines of the records that both tracks have.
fn compare_records<W: Write>(
    writer: &mut W,
    lines: &DifferenceForm,
    one: &TrackView,
    other: &TrackView,
) -> io::Result<()>
    ensures { OnOk result (Appends (W.contents writer.old) (W.contents writer.new)
        (difference_lines lines.now (shared_differences one.now other.now))) }
{
    for i in 0..one.len().min(other.len()) {
        compare_record(writer, lines, one, other, i)?;
    }
    Ok(())
}

// The lines of two records.
fn compare_record<W: Write>(
    writer: &mut W,
    lines: &DifferenceForm,
    one: &TrackView,
    other: &TrackView,
    i: usize,
) -> io::Result<()>
    requires first { i < length one.now.records }
    requires second { i < length other.now.records }
    ensures { OnOk result (Appends (W.contents writer.old) (W.contents writer.new)
        (difference_lines lines.now (record_differences i (record_in one.now i) (record_in other.now i)))) }
{
    let (first, second) = (identifier(one, i), identifier(other, i));
    let difference = Difference::Identifier(i, first, second);
    write_unless_equal(writer, lines, &first, &second, difference)?;
    let (first, second) = (one.key_of(i), other.key_of(i));
    let difference = Difference::Key(i, same_length(first, second));
    write_unless_equal(writer, lines, first, second, difference)?;
    let (first, second) = (one.data_of(i), other.data_of(i));
    let difference = Difference::Contents(i, same_length(first, second));
    write_unless_equal(writer, lines, first, second, difference)
}

// What stands behind the end mark of a slot.
fn rest_of(slot: &[u8]) -> &[u8]
    requires { IsOk (track_of slot.now) }
    ensures { result.now ≡ drop (end_offset (track_in slot.now) + 8) slot.now }
{
    bytes_from(slot, end_offset_of(slot) + 8)
}

// The line of what stands behind two end marks.
fn compare_rests<W: Write>(
    writer: &mut W,
    lines: &DifferenceForm,
    one: &[u8],
    other: &[u8],
) -> io::Result<()>
    ensures { OnOk result (Appends (W.contents writer.old) (W.contents writer.new)
        (difference_lines lines.now (rest_differences one.now other.now))) }
{
    let same = same_length(one, other);
    let shorter = one.len().min(other.len());
    let difference = Difference::BehindEnd(same);
    write_unless(writer, lines, shorter <= same, difference)
}

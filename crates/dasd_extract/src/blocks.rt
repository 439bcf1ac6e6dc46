//! What is written of a block.

ghost use Rattle.std.specs.Prelude.{◌≡◌, ◌<◌, ◌≤◌, ◌∷◌, ◌++◌, length, slice_range, IfOk, OnOk};
ghost use Rattle.std.specs.Io.KnownBytes.{Appends};
ghost use Rattle.ckd_track.specs.Track.{record_in};
ghost use Rattle.dasd_extract.specs.Written.{Writes, these_bytes};
ghost use Rattle.dasd_extract.specs.Blocks.{line_of, piece_text, lines_written, records_written, directory_written, lengths, keyed_bytes, form_written, block_written};
ghost use Rattle.dasd_extract.specs.Blocks.{number_of};

use crate::stops::{Cause, Stop, stop_at};
use crate::texts::{write_text, write_text_line};
use ckd_track::TrackView;
use std::io;
use std::io::Write;
use volume_labels::{
    DIRECTORY_BLOCK, Layout, Piece, RecordForm, Segment, is_longer, next_record, without_blanks,
};

/// The length of a directory block's key, in bytes.
const DIRECTORY_KEY: usize = 8;

/// What stands before a block that is written with its lengths and its key.
const BLOCK: [u8; 1] = [1];

/// Where the lengths of a record stand in its count area.
const LENGTHS: usize = 5;

/// How blocks are written.
#[derive(Clone, Copy)]
pub enum ExtractedForm {
    /// Their data as it stands.
    Raw,
    /// Their records as lines of UTF-8, from EBCDIC (code page 037), each without the blanks at its end. A character that controls
    /// a terminal or a file is written as U+FFFD, so that each record is one line.
    Text(Layout),
    /// Their data as it stands, of blocks of a directory alone: those with a key of 8 bytes and 256 bytes of data.
    Directory,
    /// Each with its lengths and its key, so that the bytes of several blocks can be told apart: a byte 1, the length of the key in a byte
    /// and that of the data in two, the high one first, the key, and the data.
    Keyed,
}

// Writes a line without the blanks at its end.
fn write_line<W: Write>(writer: &mut W, bytes: &[u8]) -> io::Result<()>
    ensures { OnOk result (Appends (W.contents writer.old) (W.contents writer.new) (line_of bytes.now)) }
{
    write_text_line(writer, without_blanks(bytes))
}

// Writes a record of a block, or a segment of one.
fn write_piece<W: Write>(writer: &mut W, block: &[u8], piece: Piece) -> io::Result<()>
    requires start { piece.start ≤ piece.end }
    requires end { piece.end ≤ length block.now }
    ensures { OnOk result (Appends (W.contents writer.old) (W.contents writer.new) (piece_text block.now piece)) }
{
    let bytes = &block[piece.start..piece.end];
    match piece.segment {
        Segment::Whole | Segment::Last => write_line(writer, bytes),
        Segment::First | Segment::Middle => write_text(writer, bytes),
    }
}

// Writes the records of a block as lines.
fn write_lines<W: Write>(
    writer: &mut W,
    form: RecordForm,
    track: u32,
    number: u8,
    block: &[u8],
) -> io::Result<Option<Stop>>
    ensures { IfOk result (Writes (lines_written form track number block.now) (W.contents writer.old) (W.contents writer.new)) }
{
    let mut at = 0;
    for _ in 0..block.len() {
        match next_record(form, block, at) {
            Ok(Some(piece)) => {
                write_piece(writer, block, piece)?;
                at = piece.end;
            }
            Ok(None) => return Ok(None),
            Err(fault) => {
                let cause = Cause::NoRecord(number, fault);
                return Ok(Some(stop_at(track, cause)));
            }
        }
    }
    Ok(None)
}

// Writes the records of a block as lines, where it is no longer than those of its data set are.
fn write_records<W: Write>(
    writer: &mut W,
    layout: Layout,
    track: u32,
    number: u8,
    block: &[u8],
) -> io::Result<Option<Stop>>
    ensures { IfOk result (Writes (records_written layout track number block.now) (W.contents writer.old) (W.contents writer.new)) }
{
    if is_longer(layout.longest, block.len()) {
        let cause = Cause::LongBlock(number);
        return Ok(Some(stop_at(track, cause)));
    }
    write_lines(writer, layout.form, track, number, block)
}

// Writes a block of a directory.
fn write_directory<W: Write>(
    writer: &mut W,
    track: u32,
    number: u8,
    key: &[u8],
    block: &[u8],
) -> io::Result<Option<Stop>>
    ensures { IfOk result (Writes (directory_written track number key.now block.now) (W.contents writer.old) (W.contents writer.new)) }
{
    if key.len() == DIRECTORY_KEY && block.len() == DIRECTORY_BLOCK {
        write_raw(writer, block)
    } else {
        let cause = Cause::NotDirectory(number);
        Ok(Some(stop_at(track, cause)))
    }
}

// Writes a block as it stands.
fn write_raw<W: Write>(writer: &mut W, block: &[u8]) -> io::Result<Option<Stop>>
    ensures { IfOk result (Writes (these_bytes block.now) (W.contents writer.old) (W.contents writer.new)) }
{
    writer.write_all(block)?;
    Ok(None)
}

// The lengths of a block's key and data, as its count area has them.
fn lengths_of<'a>(view: &TrackView<'a>, i: usize) -> &'a [u8]
    requires { i < length view.now.records }
    ensures { result.now ≡ lengths (record_in view.now i) }
{
    &view.count_of(i)[LENGTHS..]
}

// Writes the lengths of a block, behind a byte 1.
fn write_lengths<W: Write>(writer: &mut W, view: &TrackView, i: usize) -> io::Result<()>
    requires { i < length view.now.records }
    ensures { OnOk result (Appends (W.contents writer.old) (W.contents writer.new) (1 ∷ lengths (record_in view.now i))) }
{
    writer.write_all(&BLOCK)?;
    writer.write_all(lengths_of(view, i))
}

// Writes the key of a block, and its data.
fn write_areas<W: Write>(writer: &mut W, view: &TrackView, i: usize) -> io::Result<()>
    requires { i < length view.now.records }
    ensures { let r = record_in view.now i in OnOk result (Appends (W.contents writer.old) (W.contents writer.new) (r.key_area ++ r.data_area)) }
{
    writer.write_all(view.key_of(i))?;
    writer.write_all(view.data_of(i))
}

// Writes a block with its lengths and its key.
fn write_keyed<W: Write>(writer: &mut W, view: &TrackView, i: usize) -> io::Result<Option<Stop>>
    requires { i < length view.now.records }
    ensures { IfOk result (Writes (these_bytes (keyed_bytes (record_in view.now i))) (W.contents writer.old) (W.contents writer.new)) }
{
    write_lengths(writer, view, i)?;
    write_areas(writer, view, i)?;
    Ok(None)
}

/// The number of a record in its count area.
pub(crate) fn number_of(view: &TrackView, i: usize) -> u8
    requires { i < length view.now.records }
    ensures { result ≡ number_of (record_in view.now i) }
{
    view.count_of(i)[4]
}

// Writes a block in its form.
fn write_in_form<W: Write>(
    writer: &mut W,
    form: ExtractedForm,
    track: u32,
    view: &TrackView,
    i: usize,
) -> io::Result<Option<Stop>>
    requires { i < length view.now.records }
    ensures { IfOk result (Writes (form_written form track (record_in view.now i)) (W.contents writer.old) (W.contents writer.new)) }
{
    let block = view.data_of(i);
    let number = number_of(view, i);
    match form {
        ExtractedForm::Raw => write_raw(writer, block),
        ExtractedForm::Text(layout) => write_records(writer, layout, track, number, block),
        ExtractedForm::Directory => write_directory(writer, track, number, view.key_of(i), block),
        ExtractedForm::Keyed => write_keyed(writer, view, i),
    }
}

/// Writes record `i` of a track, if it is no end of file.
pub(crate) fn write_block<W: Write>(
    writer: &mut W,
    form: ExtractedForm,
    track: u32,
    view: &TrackView,
    i: usize,
) -> io::Result<Option<Stop>>
    requires { i < length view.now.records }
    ensures { IfOk result (Writes (block_written form track (record_in view.now i)) (W.contents writer.old) (W.contents writer.new)) }
{
    if view.data_of(i).is_empty() {
        let cause = Cause::EndOfFile;
        return Ok(Some(stop_at(track, cause)));
    }
    write_in_form(writer, form, track, view, i)
}

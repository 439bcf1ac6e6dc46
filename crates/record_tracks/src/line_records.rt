//! The records of a text.

ghost use Rattle.std.specs.Prelude.{◌≡◌, ◌≤◌, IfOk, IfErr, Ok};
ghost use Rattle.std.specs.Str.{chars};
ghost use Rattle.record_tracks.specs.Codes.{IsTable, codes_of};
ghost use Rattle.record_tracks.specs.TextRecords.{record_of, records_of, IsFault};
ghost use Rattle.record_tracks.specs.Putting.{PutsCodes, PutsRecord};
ghost use Rattle.record_tracks.specs.Read.{IsReadAsText};

use crate::codes::{code, table};
use crate::text_faults::{TextLineFault, TextRecordsFault};
use crate::text_lines::split_line;
use std::alloc::{AllocError, Global};

/// A blank in EBCDIC.
const BLANK: u8 = 0x40;

/// The records of a text in UTF-8, of so many bytes each: one for each line, which has its characters in EBCDIC (code page 037) and blanks
/// behind them. A line ends with a line feed, which the last one may lack. The reader of text (`dasd extract --text`) writes the lines
/// again, without the blanks at the end of each.
///
/// # Errors
///
/// The first line that is no record, with its number from 1 on: it has more characters than a record has bytes; or it is not UTF-8, or has a
/// character that code page 037 lacks, or one that controls a terminal or a file. Or there is no memory.
pub fn text_records(alloc: Global, text: &[u8], size: u16) -> Result<Vec<u8>, TextRecordsFault>
    requires size { 1 ≤ size }
    ensures records { IfOk result (λ records. records_of size text.now ≡ Ok records.items) }
    ensures fault { IfErr result (IsFault size text.now) }
    ensures read { IfOk result (λ records. IsReadAsText size text.now records.items) }
{
    let table = table();
    let mut records = Vec::new(alloc);
    let mut rest = text;
    let mut number = 0;
    while !rest.is_empty() {
        let (line, behind) = split_line(rest);
        number += 1;
        match put_record(&table, &mut records, line, size) {
            Ok(None) => rest = behind,
            Ok(Some(fault)) => return Err(TextRecordsFault::Line(number, fault)),
            Err(_) => return Err(TextRecordsFault::OutOfMemory),
        }
    }
    Ok(records)
}

// Puts the record of a line behind others; or answers why there is none, and has then put some of it.
fn put_record(
    table: &[Option<u8>; 256],
    records: &mut Vec<u8>,
    line: &[u8],
    size: u16,
) -> Result<Option<TextLineFault>, AllocError>
    requires { IsTable table.now }
    ensures { IfOk result (PutsRecord (record_of size line.now) records.old.items records.new.items) }
{
    let Ok(text) = str::from_utf8(line) else {
        return Ok(Some(TextLineFault::NoCharacter));
    };
    let start = records.len();
    let size = usize::from(size);
    if !put_characters(table, records, text)? {
        return Ok(Some(TextLineFault::NoCharacter));
    }
    if records.len() - start > size {
        return Ok(Some(TextLineFault::TooLong));
    }
    records.resize(start + size, BLANK)?;
    Ok(None)
}

// Puts the bytes of a text's characters behind others, and answers whether each has one. Where not, it has put some of them.
fn put_characters(
    table: &[Option<u8>; 256],
    records: &mut Vec<u8>,
    text: &str,
) -> Result<bool, AllocError>
    requires { IsTable table.now }
    ensures { IfOk result (PutsCodes (codes_of (chars text.now)) records.old.items records.new.items) }
{
    for character in text.chars() {
        let Some(byte) = code(table, character) else {
            return Ok(false);
        };
        records.push(byte)?;
    }
    Ok(true)
}

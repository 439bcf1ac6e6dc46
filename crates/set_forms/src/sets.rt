//! The line of a data set.

ghost use Rattle.std.specs.Prelude.{◌≡◌, map, OnOk};
ghost use Rattle.std.specs.Io.KnownBytes.{Appends};
ghost use Rattle.set_forms.specs.Forms.{spaced, directory_words, start_text, lengths_text, days_text, named_set_line};
ghost use Rattle.set_forms.specs.Parsing.{details_read, ended, directory_read, end_read, set_read};

use crate::details::{read_details, write_details};
use crate::fault::FormLineFault;
use crate::forms::{SetDetails, SetForm, is_partitioned};
use crate::names::data_set_name;
use crate::numbers::{day_of, day_word, number};
use crate::words::{format_of, format_word, organisation_of, organisation_word};
use std::io;
use std::io::Write;

/// Writes the line of a data set, whose file has this name.
pub(crate) fn write_set<W: Write>(writer: &mut W, name: &str, form: &SetForm) -> io::Result<()>
    ensures { OnOk result (Appends (W.contents writer.old) (W.contents writer.new) (named_set_line name.now form.now)) }
{
    write_start(writer, name, form)?;
    write_lengths(writer, form)?;
    write_days(writer, form)?;
    write_directory(writer, form.directory)?;
    write_details(writer, form.details)
}

// Writes its name, its organisation and its record format.
fn write_start<W: Write>(writer: &mut W, name: &str, form: &SetForm) -> io::Result<()>
    ensures { OnOk result (Appends (W.contents writer.old) (W.contents writer.new) (start_text name.now form.now)) }
{
    let organisation = organisation_word(form.organisation);
    let format = format_word(form.format);
    let organisation = organisation.as_str();
    let format = format.as_str();
    write!(writer, "data set {name} {organisation} {format}")
}

// Writes the lengths of its records, blocks and keys.
fn write_lengths<W: Write>(writer: &mut W, form: &SetForm) -> io::Result<()>
    ensures { OnOk result (Appends (W.contents writer.old) (W.contents writer.new) (lengths_text form.now)) }
{
    let records = form.record_length;
    let blocks = form.block_length;
    let keys = form.key_length;
    write!(writer, " {records} {blocks} {keys}")
}

// Writes the days when it was made, and when it may be scratched.
fn write_days<W: Write>(writer: &mut W, form: &SetForm) -> io::Result<()>
    ensures { OnOk result (Appends (W.contents writer.old) (W.contents writer.new) (days_text form.now)) }
{
    let created = day_word(form.created);
    let expires = day_word(form.expires);
    let created = created.as_str();
    let expires = expires.as_str();
    write!(writer, " {created} {expires}")
}

// Writes how many blocks a directory has, if there is one.
fn write_directory<W: Write>(writer: &mut W, directory: Option<u16>) -> io::Result<()>
    ensures { OnOk result (Appends (W.contents writer.old) (W.contents writer.new) (spaced (directory_words directory))) }
{
    match directory {
        None => Ok(()),
        Some(blocks) => write!(writer, " directory {blocks}"),
    }
}

/// What stands behind its days of a data set.
#[derive(Clone, Copy)]
pub(crate) struct SetEnd {
    /// How many blocks its directory has.
    pub(crate) directory: Option<u16>,
    /// Its volume and its extents.
    pub(crate) details: Option<SetDetails>,
}

// The end of a line with a directory of this many blocks, by the words behind that.
fn ended(directory: Option<u16>, words: &[&[u8]]) -> Result<SetEnd, FormLineFault>
    ensures { result ≡ ended directory (details_read (map (λ w. w.now) words.now)) }
{
    let details = read_details(words)?;
    Ok(SetEnd { directory, details })
}

// The words behind `directory`: the number of its blocks, and the details.
fn read_directory(words: &[&[u8]]) -> Result<SetEnd, FormLineFault>
    ensures { result ≡ directory_read (map (λ w. w.now) words.now) }
{
    let [blocks, behind @ ..] = words else {
        return Err(FormLineFault::Directory);
    };
    let blocks = number(blocks, 65535).ok_or(FormLineFault::Directory)?;
    ended(Some(blocks as u16), behind)
}

// The words behind the days of a data set: the length of its directory, which a partitioned one has and no other, and its details.
fn read_end(is_partitioned: bool, words: &[&[u8]]) -> Result<SetEnd, FormLineFault>
    ensures { result ≡ end_read is_partitioned (map (λ w. w.now) words.now) }
{
    match words {
        [word, behind @ ..] if word == &&b"directory"[..] => {
            if is_partitioned {
                read_directory(behind)
            } else {
                Err(FormLineFault::Directory)
            }
        }
        _ if is_partitioned => Err(FormLineFault::Directory),
        _ => ended(None, words),
    }
}

/// What the words of a data set's line say, behind the first one.
pub(crate) fn read_set(words: &[&[u8]]) -> Result<SetForm, FormLineFault>
    ensures { result ≡ set_read (map (λ w. w.now) words.now) }
{
    let [
        kind,
        name,
        organisation,
        format,
        records,
        blocks,
        keys,
        created,
        expires,
        end @ ..,
    ] = words
    else {
        return Err(FormLineFault::Words);
    };
    if kind != &&b"set"[..] {
        return Err(FormLineFault::Kind);
    }
    let name = data_set_name(name).ok_or(FormLineFault::Name)?;
    let organisation = organisation_of(organisation).ok_or(FormLineFault::Organisation)?;
    let format = format_of(format).ok_or(FormLineFault::Format)?;
    let record_length = number(records, 65535).ok_or(FormLineFault::RecordLength)? as u16;
    let block_length = number(blocks, 65535).ok_or(FormLineFault::BlockLength)? as u16;
    let key_length = number(keys, 255).ok_or(FormLineFault::KeyLength)? as u8;
    let created = day_of(created).ok_or(FormLineFault::Day)?;
    let expires = day_of(expires).ok_or(FormLineFault::Day)?;
    let SetEnd { directory, details } = read_end(is_partitioned(organisation), end)?;
    Ok(SetForm {
        name,
        organisation,
        format,
        record_length,
        block_length,
        key_length,
        created,
        expires,
        directory,
        details,
    })
}

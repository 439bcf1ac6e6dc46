//! The lines of data sets and of members.

ghost use Rattle.std.specs.Prelude.{◌≡◌, [], ◌∷◌, OnOk, codes};
ghost use Rattle.std.specs.List.{concat};
ghost use Rattle.std.specs.Io.KnownBytes.{Appends};
ghost use Rattle.volume_hash.specs.SetLines.{shown, bool_text, kind_text, item_line, set_object, set_text, member_object, member_text};
ghost use Rattle.volume_hash.specs.Lines.{path_text};
ghost use Rattle.volume_hash.specs.SetLines.{findings_object, findings_line, findings_text};

use crate::write_path;
use std::io;
use std::io::Write;

/// How the hashes of a volume are printed, and of what.
#[derive(Clone, Copy)]
pub struct HashesForm<'a> {
    /// The path of the volume: as it was typed; of objects as a string of JSON, with its quotes.
    pub path: &'a str,
    /// Whether each line is an object of JSON.
    pub json: bool,
    /// Whether data sets have lines too.
    pub sets: bool,
    /// Whether data sets and their members have lines too.
    pub members: bool,
}

/// The lines that were made so far, and whether all that they tell of is whole.
#[derive(Drop)]
pub(crate) struct Report {
    pub(crate) lines: Vec<u8>,
    pub(crate) is_whole: bool,
}

/// What was hashed.
#[derive(Clone, Copy)]
pub(crate) struct Hashed<'a> {
    /// The hash in hexadecimal digits.
    pub(crate) digits: &'a str,
    /// Whether it is whole.
    pub(crate) is_whole: bool,
}

// A word of JSON.
fn bool_word(is_so: bool) -> &'static str
    ensures { result.now ≡ bool_text is_so }
{
    if is_so { "true" } else { "false" }
}

// What a data set is called in a line.
fn set_word(is_whole: bool) -> &'static str
    ensures { result.now ≡ kind_text (codes "data set") is_whole }
{
    if is_whole {
        "data set"
    } else {
        "data set that is not whole"
    }
}

// What a member is called in a line.
fn member_word(is_whole: bool) -> &'static str
    ensures { result.now ≡ kind_text (codes "member") is_whole }
{
    if is_whole {
        "member"
    } else {
        "member that is not whole"
    }
}

/// Writes the line or the object of a data set.
pub(crate) fn write_set<W: Write>(
    writer: &mut W,
    form: HashesForm,
    name: &str,
    hashed: Hashed,
) -> io::Result<()>
    ensures { OnOk result (Appends (W.contents writer.old) (W.contents writer.new)
        (set_text (shown form.entry.path.now form.entry.json form.entry.sets form.entry.members) name.now hashed.entry.digits.now hashed.entry.is_whole)) }
{
    if form.json {
        return write_set_object(writer, form.path, name, hashed);
    }
    write_set_line(writer, form.path, name, hashed)
}

// The object of a data set.
fn write_set_object<W: Write>(
    writer: &mut W,
    path: &str,
    name: &str,
    hashed: Hashed,
) -> io::Result<()>
    ensures { OnOk result (Appends (W.contents writer.old) (W.contents writer.new)
        (set_object path.now name.now hashed.entry.digits.now hashed.entry.is_whole)) }
{
    let digits = hashed.digits;
    let whole = bool_word(hashed.is_whole);
    writeln!(
        writer,
        "{{\"path\":{path},\"name\":\"{name}\",\"hash\":\"{digits}\",\"whole\":{whole}}}"
    )
}

// The line of a data set.
fn write_set_line<W: Write>(
    writer: &mut W,
    path: &str,
    name: &str,
    hashed: Hashed,
) -> io::Result<()>
    ensures { OnOk result (Appends (W.contents writer.old) (W.contents writer.new)
        (item_line path.now (codes "data set") name.now hashed.entry.digits.now hashed.entry.is_whole)) }
{
    let digits = hashed.digits;
    let kind = set_word(hashed.is_whole);
    write!(writer, "{digits}  {kind} {name} ")?;
    write_path(writer, path.as_bytes())?;
    writer.write_all(b"\n")
}

/// Writes the line or the object of a member.
pub(crate) fn write_member<W: Write>(
    writer: &mut W,
    form: HashesForm,
    name: &str,
    member: &str,
    hashed: Hashed,
) -> io::Result<()>
    ensures { OnOk result (Appends (W.contents writer.old) (W.contents writer.new)
        (member_text (shown form.entry.path.now form.entry.json form.entry.sets form.entry.members) name.now member.now hashed.entry.digits.now
        hashed.entry.is_whole)) }
{
    if form.json {
        return write_member_object(writer, form.path, name, member, hashed);
    }
    write_member_line(writer, form.path, name, member, hashed)
}

// The object of a member.
fn write_member_object<W: Write>(
    writer: &mut W,
    path: &str,
    name: &str,
    member: &str,
    hashed: Hashed,
) -> io::Result<()>
    ensures { OnOk result (Appends (W.contents writer.old) (W.contents writer.new)
        (member_object path.now name.now member.now hashed.entry.digits.now hashed.entry.is_whole)) }
{
    let digits = hashed.digits;
    let whole = bool_word(hashed.is_whole);
    writeln!(
        writer,
        "{{\"path\":{path},\"name\":\"{name}\",\"member\":\"{member}\",\"hash\":\"{digits}\",\"whole\":{whole}}}"
    )
}

// The line of a member.
fn write_member_line<W: Write>(
    writer: &mut W,
    path: &str,
    name: &str,
    member: &str,
    hashed: Hashed,
) -> io::Result<()>
    ensures { OnOk result (Appends (W.contents writer.old) (W.contents writer.new)
        (item_line path.now (codes "member") (concat (name.now ∷ codes "(" ∷ member.now ∷ codes ")" ∷ [])) hashed.entry.digits.now
        hashed.entry.is_whole)) }
{
    let digits = hashed.digits;
    let kind = member_word(hashed.is_whole);
    write!(writer, "{digits}  {kind} {name}({member}) ")?;
    write_path(writer, path.as_bytes())?;
    writer.write_all(b"\n")
}

/// Writes that something is wrong with the label or the table of contents of a volume.
pub(crate) fn write_findings<W: Write>(writer: &mut W, form: HashesForm) -> io::Result<()>
    ensures { OnOk result (Appends (W.contents writer.old) (W.contents writer.new)
        (findings_text (shown form.entry.path.now form.entry.json form.entry.sets form.entry.members))) }
{
    if form.json {
        return write_findings_object(writer, form.path);
    }
    write_findings_line(writer, form.path)
}

// The object of that.
fn write_findings_object<W: Write>(writer: &mut W, path: &str) -> io::Result<()>
    ensures { OnOk result (Appends (W.contents writer.old) (W.contents writer.new) (findings_object path.now)) }
{
    writeln!(
        writer,
        "{{\"path\":{path},\"name\":\"volume table of contents\",\"text\":\"has findings, which dasd vtoc prints\"}}"
    )
}

// The line of that.
fn write_findings_line<W: Write>(writer: &mut W, path: &str) -> io::Result<()>
    ensures { OnOk result (Appends (W.contents writer.old) (W.contents writer.new) (findings_line path.now)) }
{
    writer.write_all(b"volume table of contents of ")?;
    write_path_of(writer, path)?;
    writer.write_all(b" has findings, which dasd vtoc prints\n")?;
    Ok(())
}

// A path in a line.
fn write_path_of<W: Write>(writer: &mut W, path: &str) -> io::Result<()>
    ensures { OnOk result (Appends (W.contents writer.old) (W.contents writer.new) (path_text path.now)) }
{
    write_path(writer, path.as_bytes())
}

//! The lines of members, and of what is wrong with them.

ghost use Rattle.std.specs.Prelude.{◌≡◌, ◌∷◌, [], ◌++◌, Some, OnOk, IfErr};
ghost use Rattle.std.specs.Option.{option_copied};
ghost use Rattle.std.specs.Io.KnownBytes.{Appends};
ghost use Rattle.library_contents.specs.Report.{Adds, plain, wrong};
ghost use Rattle.library_contents.specs.Lines.{shown, listed_by, alias_word, true_or_false, heading, heading_lines, member_line, name_members, entry_members, member_object, member_text, what};
ghost use Rattle.library_contents.specs.Lines.{finding_text, directory_text, wrong_text, is_end, end_lines};

use crate::report::Report;
use dasd_extract::{Cause, Stop};
use dasd_volumes::{Hexadecimal, VolumeFault};
use std::io::Write;
use std::{fmt, io};
use volume_labels::{DirectoryEntry, DirectoryFault};

/// How the members of a library are listed: its name, as that of a file, and what each line begins with; or, where lines are objects of
/// JSON, the paths of the volume, as a string of it.
#[derive(Clone, Copy)]
pub struct MembersForm<'a> {
    /// The paths of the volume, as a string of JSON with its quotes; none for lines of text.
    pub json: Option<&'a str>,
    /// What each line of text begins with.
    pub margin: &'a str,
    /// The name of the library.
    pub name: &'a str,
}

/// A member: its entry, its name as that of a file, its user data, and how many bytes its blocks have.
#[derive(Clone, Copy)]
pub(crate) struct Listed<'a> {
    pub(crate) entry: DirectoryEntry,
    pub(crate) name: &'a str,
    pub(crate) user: &'a [u8],
    pub(crate) bytes: usize,
}

/// What is wrong.
#[derive(Clone, Copy)]
pub(crate) enum Wrong {
    /// The directory can't be read on.
    Directory(DirectoryFault),
    /// Blocks end before their end of file.
    Ends(Stop),
}

/// The line above the members, where they are listed in lines of text.
pub(crate) fn add_heading(report: &mut Report, form: MembersForm) -> Result<(), VolumeFault>
    ensures lines { OnOk result (Adds report.old report.new (heading_lines (shown form.entry))) }
    ensures fault { IfErr result (λ e. e ≡ VolumeFault.OutOfMemory) }
{
    if form.json.is_some() {
        return Ok(());
    }
    match write_heading(&mut report.text, form.margin) {
        Ok(()) => Ok(()),
        Err(_) => Err(VolumeFault::OutOfMemory),
    }
}

// What stands above the columns.
fn write_heading<W: Write>(writer: &mut W, margin: &str) -> io::Result<()>
    ensures { OnOk result (Appends (W.contents writer.old) (W.contents writer.new) (heading margin.now)) }
{
    writeln!(writer, "{margin}TTR    Alias User    Bytes Member")
}

/// The line of a member.
pub(crate) fn add_member(
    report: &mut Report,
    form: MembersForm,
    listed: Listed,
) -> Result<(), VolumeFault>
    ensures lines { OnOk result (Adds report.old report.new (plain (member_text (shown form.entry) (listed_by listed.entry)) ∷ [])) }
    ensures fault { IfErr result (λ e. e ≡ VolumeFault.OutOfMemory) }
{
    match write_member(&mut report.text, form, listed) {
        Ok(()) => Ok(()),
        Err(_) => Err(VolumeFault::OutOfMemory),
    }
}

// A member, as a line of text or as an object.
fn write_member<W: Write>(writer: &mut W, form: MembersForm, listed: Listed) -> io::Result<()>
    ensures { OnOk result (Appends (W.contents writer.old) (W.contents writer.new) (member_text (shown form.entry) (listed_by listed.entry))) }
{
    match form.json {
        Some(path) => write_object(writer, path, form.name, listed),
        None => write_line(writer, form.margin, listed),
    }
}

// A member as a line of text.
fn write_line<W: Write>(writer: &mut W, margin: &str, listed: Listed) -> io::Result<()>
    ensures { OnOk result (Appends (W.contents writer.old) (W.contents writer.new) (member_line margin.now (listed_by listed.entry))) }
{
    let Listed {
        entry,
        name,
        user,
        bytes,
    } = listed;
    let (track, number) = (entry.address.track, entry.address.number);
    let alias = alias_word(entry.is_alias);
    let length = user.len();
    writeln!(
        writer,
        "{margin}{track:04X}{number:02X} {alias} {length:>4} {bytes:>8} {name}"
    )
}

// Whether an entry is another name, in a column.
fn alias_word(is_alias: bool) -> &'static str
    ensures { result.now ≡ alias_word is_alias }
{
    if is_alias { "yes  " } else { "no   " }
}

// A member as an object of JSON.
fn write_object<W: Write>(
    writer: &mut W,
    path: &str,
    data_set: &str,
    listed: Listed,
) -> io::Result<()>
    ensures { OnOk result (Appends (W.contents writer.old) (W.contents writer.new) (member_object path.now data_set.now (listed_by listed.entry))) }
{
    write_names(writer, path, data_set, listed.name)?;
    write_entry(writer, listed)
}

// How the object of a member begins.
fn write_names<W: Write>(writer: &mut W, path: &str, data_set: &str, name: &str) -> io::Result<()>
    ensures { OnOk result (Appends (W.contents writer.old) (W.contents writer.new) (name_members path.now data_set.now name.now)) }
{
    write!(
        writer,
        "{{\"path\":{path},\"data_set\":\"{data_set}\",\"member\":\"{name}\""
    )
}

// What the object of a member has behind its name.
fn write_entry<W: Write>(writer: &mut W, listed: Listed) -> io::Result<()>
    ensures { OnOk result (Appends (W.contents writer.old) (W.contents writer.new) (entry_members (listed_by listed.entry))) }
{
    let Listed {
        entry,
        name: _,
        user,
        bytes,
    } = listed;
    let (track, number) = (entry.address.track, entry.address.number);
    let alias = true_or_false(entry.is_alias);
    let digits = Hexadecimal(user);
    writeln!(
        writer,
        ",\"alias\":{alias},\"track\":{track},\"record\":{number},\"user_data\":\"{digits}\",\"bytes\":{bytes}}}"
    )
}

// A truth value of JSON.
fn true_or_false(is_so: bool) -> &'static str
    ensures { result.now ≡ true_or_false is_so }
{
    if is_so { "true" } else { "false" }
}

/// The line of blocks that end before their end of file: those of a member, or of the directory.
pub(crate) fn add_end(
    report: &mut Report,
    form: MembersForm,
    member: Option<&str>,
    stop: Stop,
) -> Result<(), VolumeFault>
    ensures lines { OnOk result (Adds report.old report.new (end_lines (shown form.entry) (option_copied member.entry) (Some stop))) }
    ensures fault { IfErr result (λ e. e ≡ VolumeFault.OutOfMemory) }
{
    if is_end(stop.cause) {
        return Ok(());
    }
    add_wrong(report, form, member, Wrong::Ends(stop))
}

// Whether blocks end as they must.
fn is_end(cause: Cause) -> bool
    ensures { result ≡ is_end cause }
{
    matches!(cause, Cause::EndOfFile)
}

/// The line of something that is wrong with the library or with a member of it.
pub(crate) fn add_wrong(
    report: &mut Report,
    form: MembersForm,
    member: Option<&str>,
    found: Wrong,
) -> Result<(), VolumeFault>
    ensures lines { OnOk result (Adds report.old report.new
        (wrong (finding_text (shown form.entry) (option_copied member.entry) (wrong_text found)) ∷ [])) }
    ensures fault { IfErr result (λ e. e ≡ VolumeFault.OutOfMemory) }
{
    report.is_wrong = true;
    match write_wrong(&mut report.text, form, member, found) {
        Ok(()) => Ok(()),
        Err(_) => Err(VolumeFault::OutOfMemory),
    }
}

// What is wrong, as a line of text or as an object.
fn write_wrong<W: Write>(
    writer: &mut W,
    form: MembersForm,
    member: Option<&str>,
    found: Wrong,
) -> io::Result<()>
    ensures { OnOk result (Appends (W.contents writer.old) (W.contents writer.new)
        (finding_text (shown form.entry) (option_copied member.entry) (wrong_text found))) }
{
    let what = What {
        name: form.name,
        member,
    };
    let margin = form.margin;
    match form.json {
        Some(path) => writeln!(
            writer,
            "{{\"path\":{path},\"name\":\"{what}\",\"text\":\"{found}\"}}"
        ),
        None => writeln!(writer, "{margin}{what}: {found}"),
    }
}

// Of what something is told: a library, or a member of it.
#[derive(Clone, Copy)]
struct What<'a> {
    name: &'a str,
    member: Option<&'a str>,
}

impl fmt::Display for What<'_> {
    ghost output = { λ w. Some (what w.name.now (option_copied w.member)) };

    fn fmt<W: fmt::Write>(&self, f: &mut fmt::Formatter<W>) -> fmt::Result {
        let name = self.name;
        match self.member {
            None => f.write_str(name),
            Some(member) => write!(f, "{name}({member})"),
        }
    }
}

impl fmt::Display for Wrong {
    ghost output = { λ w. Some (wrong_text w) };

    fn fmt<W: fmt::Write>(&self, f: &mut fmt::Formatter<W>) -> fmt::Result {
        match *self {
            Wrong::Directory(fault) => f.write_str(directory_text(fault)),
            Wrong::Ends(stop) => write!(f, "{stop}"),
        }
    }
}

// Why a directory is not read on.
fn directory_text(fault: DirectoryFault) -> &'static str
    ensures { result.now ≡ directory_text fault }
{
    match fault {
        DirectoryFault::UsedBytes => "a directory block has a count of bytes that can't be",
        DirectoryFault::EntryPastUsed => "an entry of the directory ends after its block",
    }
}

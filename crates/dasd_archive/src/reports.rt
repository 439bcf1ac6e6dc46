//! The lines of findings, and how many there are of each severity.

ghost use Rattle.std.specs.Prelude.{◌≡◌, [], ◌∷◌, OnOk};
ghost use Rattle.std.specs.Io.KnownBytes.{Appends};
ghost use Rattle.dasd_archive.specs.Findings.{finding_line, severity_of};
ghost use Rattle.dasd_archive.specs.Reports.{one_more, shown_line, tally_line, tally_of, Reports};

use crate::findings::{PlaceMembers, Severity, StrictFinding};
use counted_io::Quantity;
use dasd_volumes::{Form, Style};
use std::io;
use std::io::Write;

/// For whom the lines of findings are written, and which findings have one.
#[derive(Clone, Copy)]
pub struct FindingStyle {
    /// For whom.
    pub style: Style,
    /// Whether notes have lines too.
    pub with_notes: bool,
}

/// How the lines of findings are written, and which, with the volume's path as a string of JSON with its quotes, which objects have.
#[derive(Clone, Copy)]
pub struct FindingForm<'a> {
    /// The style.
    pub style: FindingStyle,
    /// The path, in quotes.
    pub path: &'a str,
}

/// How many findings there are of each severity, each counted up to `u64::MAX`.
#[derive(Clone, Copy)]
pub struct Tally {
    /// The errors.
    pub errors: u64,
    /// The warnings.
    pub warnings: u64,
    /// The notes.
    pub notes: u64,
}

impl Tally {
    /// No finding.
    pub fn new() -> Tally
        ensures { result ≡ tally_of [] }
    {
        Tally {
            errors: 0,
            warnings: 0,
            notes: 0,
        }
    }

    // One finding more.
    fn count(&mut self, severity: Severity)
        ensures { self.new ≡ one_more severity self.old }
    {
        match severity {
            Severity::Error => self.errors = self.errors.saturating_add(1),
            Severity::Warning => self.warnings = self.warnings.saturating_add(1),
            Severity::Note => self.notes = self.notes.saturating_add(1),
        }
    }
}

/// Writes the line of a finding, if it has one, and counts it.
pub(crate) fn report<W: Write>(
    writer: &mut W,
    tally: &mut Tally,
    form: FindingForm,
    finding: StrictFinding,
) -> io::Result<()>
    ensures { OnOk result (Reports form.entry.style form.entry.path.now (W.contents writer.old) (W.contents writer.new)
        tally.old tally.new (finding ∷ [])) }
{
    tally.count(finding.problem.severity());
    write_shown(writer, form, finding)
}

// The line of a finding; none of a note, where notes have none.
fn write_shown<W: Write>(
    writer: &mut W,
    form: FindingForm,
    finding: StrictFinding,
) -> io::Result<()>
    ensures { OnOk result (Appends (W.contents writer.old) (W.contents writer.new)
        (shown_line form.entry.style form.entry.path.now finding)) }
{
    match finding.problem.severity() {
        Severity::Note if !form.style.with_notes => Ok(()),
        _ => {
            let form = Form {
                style: form.style.style,
                path: form.path,
            };
            write_finding(writer, form, finding)
        }
    }
}

// The line of a finding.
fn write_finding<W: Write>(writer: &mut W, form: Form, finding: StrictFinding) -> io::Result<()>
    ensures { OnOk result (Appends (W.contents writer.old) (W.contents writer.new)
        (finding_line form.entry.style form.entry.path.now finding)) }
{
    let path = form.path;
    let severity = finding.problem.severity();
    let place = finding.place;
    let problem = finding.problem;
    let kind = problem.kind();
    match form.style {
        Style::Text => writeln!(writer, "{severity} {place} {problem}"),
        Style::Json => writeln!(
            writer,
            "{{\"path\":{path},\"severity\":\"{severity}\",{},\"kind\":\"{kind}\",\"text\":\"{problem}\"}}",
            PlaceMembers(place)
        ),
    }
}

/// Writes how many findings there are of each severity.
pub(crate) fn write_tally<W: Write>(
    writer: &mut W,
    form: FindingForm,
    tally: Tally,
) -> io::Result<()>
    ensures { OnOk result (Appends (W.contents writer.old) (W.contents writer.new)
        (tally_line form.entry.style.style form.entry.path.now tally)) }
{
    let path = form.path;
    let Tally {
        errors,
        warnings,
        notes,
    } = tally;
    match form.style.style {
        Style::Text => write_totals(writer, tally),
        Style::Json => writeln!(
            writer,
            "{{\"path\":{path},\"errors\":{errors},\"warnings\":{warnings},\"notes\":{notes}}}"
        ),
    }
}

// The same in words.
fn write_totals<W: Write>(writer: &mut W, tally: Tally) -> io::Result<()>
    ensures { OnOk result (Appends (W.contents writer.old) (W.contents writer.new) (tally_line Style.Text [] tally)) }
{
    let errors = Quantity::new(tally.errors, "error", "errors");
    let warnings = Quantity::new(tally.warnings, "warning", "warnings");
    let notes = Quantity::new(tally.notes, "note", "notes");
    writeln!(writer, "{errors}, {warnings}, {notes}")
}

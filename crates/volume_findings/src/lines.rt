//! The lines of findings, and of how many there are.

ghost use Rattle.std.specs.Prelude.{◌≡◌, Some, OnOk, IfOk};
ghost use Rattle.std.specs.Option.{option_copied};
ghost use Rattle.std.specs.List.{flat_map};
ghost use Rattle.std.specs.String.{string_bytes};
ghost use Rattle.std.specs.Io.KnownBytes.{Appends};
ghost use Rattle.library_contents.specs.Lines.{directory_text};
ghost use Rattle.volume_findings.specs.Texts.{fault_text, name_text, data_text, total_text};

use crate::findings::{DataFault, DataFinding};
use counted_io::Quantity;
use std::alloc::{AllocError, Global};
use std::io::Write;
use std::{fmt, io};
use volume_labels::{DirectoryFault, safe_name};

/// Writes what is wrong with data, in lines, or in objects where they have the paths of the volume.
pub(crate) fn write_findings<W: Write>(
    alloc: Global,
    writer: &mut W,
    json: Option<&str>,
    findings: &[DataFinding],
) -> io::Result<()>
    ensures { OnOk result (Appends (W.contents writer.old) (W.contents writer.new) (flat_map (data_text (option_copied json.entry)) findings.now)) }
{
    for finding in findings {
        write_finding(alloc, writer, json, finding)?;
    }
    Ok(())
}

// A finding.
fn write_finding<W: Write>(
    alloc: Global,
    writer: &mut W,
    json: Option<&str>,
    finding: &DataFinding,
) -> io::Result<()>
    ensures { OnOk result (Appends (W.contents writer.old) (W.contents writer.new) (data_text (option_copied json.entry) finding.now)) }
{
    let name = name_of(alloc, finding)?;
    let fault = finding.fault;
    match json {
        Some(path) => writeln!(
            writer,
            "{{\"path\":{path},\"name\":\"{name}\",\"text\":\"{fault}\"}}"
        ),
        None => writeln!(writer, "{name}: {fault}"),
    }
}

// The name of the data set, and of the member in parentheses.
fn name_of(alloc: Global, finding: &DataFinding) -> Result<String, AllocError>
    ensures { IfOk result (λ name. string_bytes name ≡ name_text finding.now) }
{
    let data_set = safe_name(alloc, &finding.data_set)?;
    let Some(member) = &finding.member else {
        return Ok(data_set);
    };
    let member = safe_name(alloc, member)?;
    format!(in alloc; "{data_set}({member})")
}

impl fmt::Display for DataFault {
    ghost output = { λ f. Some (fault_text f) };

    fn fmt<W: fmt::Write>(&self, f: &mut fmt::Formatter<W>) -> fmt::Result {
        match *self {
            DataFault::Directory(fault) => f.write_str(directory_text(fault)),
            DataFault::Ends(stop) => write!(f, "{stop}"),
        }
    }
}

// Why a directory is not read on.
fn directory_text(fault: DirectoryFault) -> &'static str
    ensures { result.now ≡ directory_text fault }
{
    match fault {
        DirectoryFault::UsedBytes => "a directory block has a count of bytes that can't be",
        DirectoryFault::EntryPastUsed => "an entry of the directory ends after its block",
    }
}

/// Writes how many findings there are.
pub(crate) fn write_total<W: Write>(
    writer: &mut W,
    json: Option<&str>,
    total: u64,
) -> io::Result<()>
    ensures { OnOk result (Appends (W.contents writer.old) (W.contents writer.new) (total_text (option_copied json.entry) total)) }
{
    let findings = Quantity::new(total, "finding", "findings");
    match json {
        Some(path) => writeln!(writer, "{{\"path\":{path},\"findings\":{total}}}"),
        None => writeln!(writer, "{findings}"),
    }
}

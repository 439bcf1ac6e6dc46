//! What is told of data sets that are unloaded from a volume.

ghost use Rattle.std.specs.Prelude.{◌≡◌, ◌++◌, ◌∷◌, [], Some, OnOk, IfOk};
ghost use Rattle.std.specs.List.{flat_map, fold};
ghost use Rattle.std.specs.Option.{option_copied};
ghost use Rattle.std.specs.Io.KnownBytes.{Appends};
ghost use Rattle.counted_io.specs.Streams.{seen_by, IsFlushed};
ghost use Rattle.dasd_unload.specs.Told.{FileLine, FindingLine, finding_lines, line_text, count_line, no_line, total_text, wrong_text, contents_texts};
ghost use Rattle.dasd_unload.specs.Told.{chain_texts, directory_texts, directory_text, end_texts, TellsText};
ghost use Rattle.dasd_unload.specs.Parts.{ended_texts};

use crate::fault::{NO_MEMORY, UnloadFault};
use crate::parts::{End, is_end, is_whole};
use counted_io::{Counted, Quantity, WriteFault, write_flushed, write_whole};
use dasd_contents::Broken;
use dasd_extract::{Members, Stop};
use dasd_jobs::JobFault;
use std::alloc::Global;
use std::io::Write;
use std::{fmt, io};
use volume_contents::ChainFault;
use volume_labels::DirectoryFault;

/// Of what a line is: of what has this name. Where lines are objects of JSON, they have the paths of the volume, as a string of it.
#[derive(Clone, Copy)]
pub(crate) struct Named<'a> {
    pub(crate) name: &'a str,
    pub(crate) json: Option<&'a str>,
}

/// How many files there are, and how many things that are wrong.
#[derive(Clone, Copy)]
pub(crate) struct Tally {
    pub(crate) files: usize,
    pub(crate) findings: usize,
}

/// What is wrong.
#[derive(Clone, Copy)]
pub(crate) enum Wrong {
    /// The volume's label or its control blocks.
    Contents,
    /// The chain of control blocks of a data set.
    Chain(ChainFault),
    /// The format of a data set, which has no records that could be lines.
    NoRecords,
    /// The directory of a data set.
    Directory(DirectoryFault),
    /// The blocks of a directory, which end before their end of file.
    Ends(Stop),
    /// The blocks of a data set or of a member, which are not whole.
    NotWhole(End),
    /// A file that is there already.
    Exists,
}

/// Writes a line for each file, and for each thing that is wrong, and counts them. A line is made in memory, and written from there.
#[derive(Drop)]
pub(crate) struct Report {
    line: Vec<u8>,
    pub(crate) tally: Tally,
}

impl Report {
    /// No file, and nothing that is wrong.
    pub(crate) fn new(alloc: Global) -> Report
        ensures { result.tally ≡ no_line }
    {
        Report {
            line: Vec::new(alloc),
            tally: Tally {
                files: 0,
                findings: 0,
            },
        }
    }

    /// So many things are wrong with the volume's label and its control blocks.
    pub(crate) fn contents<W: Write>(
        &mut self,
        writer: &mut Counted<W>,
        named: Named,
        findings: usize,
    ) -> Result<(), UnloadFault>
        ensures text { TellsText result (flat_map (line_text (option_copied named.entry.json)) (finding_lines named.entry.name.now (contents_texts findings)))
            (seen_by W.contents writer.old) (seen_by W.contents writer.new) }
        ensures counted { OnOk result (self.new.tally
            ≡ fold count_line self.old.tally (finding_lines named.entry.name.now (contents_texts findings))) }
    {
        if findings == 0 {
            return Ok(());
        }
        self.finding(writer, named, Wrong::Contents)
    }

    /// Something is wrong with what has this name.
    pub(crate) fn finding<W: Write>(
        &mut self,
        writer: &mut Counted<W>,
        named: Named,
        wrong: Wrong,
    ) -> Result<(), UnloadFault>
        ensures text { TellsText result (line_text (option_copied named.entry.json) (FindingLine named.entry.name.now (wrong_text wrong)))
            (seen_by W.contents writer.old) (seen_by W.contents writer.new) }
        ensures counted { self.new.tally ≡ count_line self.old.tally (FindingLine named.entry.name.now (wrong_text wrong)) }
    {
        self.tally.findings = self.tally.findings.saturating_add(1);
        self.line.clear();
        if write_finding(&mut self.line, named, wrong).is_err() {
            return Err(NO_MEMORY);
        }
        print_line(writer, self.line.as_slice())
    }

    /// The chain of control blocks of what has this name is broken, if it is.
    pub(crate) fn chain<W: Write>(
        &mut self,
        writer: &mut Counted<W>,
        named: Named,
        fault: Option<ChainFault>,
    ) -> Result<(), UnloadFault>
        ensures text { TellsText result (flat_map (line_text (option_copied named.entry.json)) (finding_lines named.entry.name.now (chain_texts fault)))
            (seen_by W.contents writer.old) (seen_by W.contents writer.new) }
        ensures counted { OnOk result (self.new.tally ≡ fold count_line self.old.tally (finding_lines named.entry.name.now (chain_texts fault))) }
    {
        match fault {
            Some(fault) => self.finding(writer, named, Wrong::Chain(fault)),
            None => Ok(()),
        }
    }

    /// A file of this name was written, of so many bytes, whose blocks end so.
    pub(crate) fn unloaded<W: Write>(
        &mut self,
        writer: &mut Counted<W>,
        named: Named,
        bytes: u64,
        end: End,
    ) -> Result<(), UnloadFault>
        ensures text { TellsText result (flat_map (line_text (option_copied named.entry.json))
            (FileLine named.entry.name.now bytes ∷ finding_lines named.entry.name.now (ended_texts end)))
            (seen_by W.contents writer.old) (seen_by W.contents writer.new) }
        ensures counted { OnOk result (self.new.tally ≡ fold count_line self.old.tally
            (FileLine named.entry.name.now bytes ∷ finding_lines named.entry.name.now (ended_texts end))) }
    {
        if let Err(fault) = self.file(writer, named, bytes) {
            return Err(fault);
        }
        self.written(writer, named, end)
    }

    // The blocks of a file end so: it is something that is wrong where they are not whole.
    fn written<W: Write>(
        &mut self,
        writer: &mut Counted<W>,
        named: Named,
        end: End,
    ) -> Result<(), UnloadFault>
        ensures text { TellsText result (flat_map (line_text (option_copied named.entry.json)) (finding_lines named.entry.name.now (ended_texts end)))
            (seen_by W.contents writer.old) (seen_by W.contents writer.new) }
        ensures counted { OnOk result (self.new.tally ≡ fold count_line self.old.tally (finding_lines named.entry.name.now (ended_texts end))) }
    {
        if is_whole(end) {
            return Ok(());
        }
        self.finding(writer, named, Wrong::NotWhole(end))
    }

    // A file of this name has so many bytes.
    fn file<W: Write>(
        &mut self,
        writer: &mut Counted<W>,
        named: Named,
        bytes: u64,
    ) -> Result<(), UnloadFault>
        ensures text { TellsText result (line_text (option_copied named.entry.json) (FileLine named.entry.name.now bytes))
            (seen_by W.contents writer.old) (seen_by W.contents writer.new) }
        ensures counted { self.new.tally ≡ count_line self.old.tally (FileLine named.entry.name.now bytes) }
    {
        self.tally.files = self.tally.files.saturating_add(1);
        self.line.clear();
        if write_file(&mut self.line, named, bytes).is_err() {
            return Err(NO_MEMORY);
        }
        print_line(writer, self.line.as_slice())
    }

    /// What is wrong with the directory of a partitioned data set of this name.
    pub(crate) fn directory<W: Write>(
        &mut self,
        writer: &mut Counted<W>,
        named: Named,
        members: &Members,
    ) -> Result<(), UnloadFault>
        ensures text { TellsText result (flat_map (line_text (option_copied named.entry.json))
            (finding_lines named.entry.name.now (directory_texts members.now.fault ++ end_texts (Some members.now.stop))))
            (seen_by W.contents writer.old) (seen_by W.contents writer.new) }
        ensures counted { OnOk result (self.new.tally ≡ fold count_line self.old.tally
            (finding_lines named.entry.name.now (directory_texts members.now.fault ++ end_texts (Some members.now.stop)))) }
    {
        if let Err(fault) = self.broken(writer, named, members.fault) {
            return Err(fault);
        }
        self.ended(writer, named, members.stop)
    }

    // The blocks of a directory can't be told apart, if they can't.
    fn broken<W: Write>(
        &mut self,
        writer: &mut Counted<W>,
        named: Named,
        fault: Option<DirectoryFault>,
    ) -> Result<(), UnloadFault>
        ensures text { TellsText result (flat_map (line_text (option_copied named.entry.json)) (finding_lines named.entry.name.now (directory_texts fault)))
            (seen_by W.contents writer.old) (seen_by W.contents writer.new) }
        ensures counted { OnOk result (self.new.tally ≡ fold count_line self.old.tally (finding_lines named.entry.name.now (directory_texts fault))) }
    {
        match fault {
            Some(fault) => self.finding(writer, named, Wrong::Directory(fault)),
            None => Ok(()),
        }
    }

    // The blocks of a directory end here: it is something that is wrong where that is no end of file.
    fn ended<W: Write>(
        &mut self,
        writer: &mut Counted<W>,
        named: Named,
        stop: Stop,
    ) -> Result<(), UnloadFault>
        ensures text { TellsText result (flat_map (line_text (option_copied named.entry.json)) (finding_lines named.entry.name.now (end_texts (Some stop))))
            (seen_by W.contents writer.old) (seen_by W.contents writer.new) }
        ensures counted { OnOk result (self.new.tally ≡ fold count_line self.old.tally (finding_lines named.entry.name.now (end_texts (Some stop)))) }
    {
        if is_end(stop.cause) {
            return Ok(());
        }
        self.finding(writer, named, Wrong::Ends(stop))
    }

    /// Prints how many files there are, and how many things that are wrong, and answers the second. Nothing is held back.
    pub(crate) fn end<W: Write>(
        &mut self,
        writer: &mut Counted<W>,
        json: Option<&str>,
    ) -> Result<usize, UnloadFault>
        ensures text { TellsText result (total_text (option_copied json.entry) self.old.tally)
            (seen_by W.contents writer.old) (seen_by W.contents writer.new) }
        ensures findings { IfOk result (λ n. n ≡ self.old.tally.findings) }
        ensures flushed { OnOk result (IsFlushed (seen_by W.contents writer.new)) }
    {
        self.line.clear();
        if write_total(&mut self.line, json, self.tally).is_err() {
            return Err(NO_MEMORY);
        }
        match write_flushed(writer, self.line.as_slice()) {
            Ok(()) => Ok(self.tally.findings),
            Err(WriteFault) => Err(UnloadFault::Job(JobFault::Write)),
        }
    }
}

// Prints a line.
fn print_line<W: Write>(writer: &mut Counted<W>, line: &[u8]) -> Result<(), UnloadFault>
    ensures { TellsText result line.now (seen_by W.contents writer.old) (seen_by W.contents writer.new) }
{
    match write_whole(writer, line) {
        Ok(()) => Ok(()),
        Err(WriteFault) => Err(UnloadFault::Job(JobFault::Write)),
    }
}

// The line of a file.
fn write_file<W: Write>(writer: &mut W, named: Named, bytes: u64) -> io::Result<()>
    ensures { OnOk result (Appends (W.contents writer.old) (W.contents writer.new)
        (line_text (option_copied named.entry.json) (FileLine named.entry.name.now bytes))) }
{
    let name = named.name;
    match named.json {
        None => {
            let bytes = Quantity::new(bytes, "byte", "bytes");
            writeln!(writer, "{name} {bytes}")
        }
        Some(path) => writeln!(
            writer,
            "{{\"path\":{path},\"name\":\"{name}\",\"bytes\":{bytes}}}"
        ),
    }
}

// The line of something that is wrong.
fn write_finding<W: Write>(writer: &mut W, named: Named, wrong: Wrong) -> io::Result<()>
    ensures { OnOk result (Appends (W.contents writer.old) (W.contents writer.new)
        (line_text (option_copied named.entry.json) (FindingLine named.entry.name.now (wrong_text wrong)))) }
{
    let name = named.name;
    match named.json {
        None => writeln!(writer, "{name}: {wrong}"),
        Some(path) => writeln!(
            writer,
            "{{\"path\":{path},\"name\":\"{name}\",\"text\":\"{wrong}\"}}"
        ),
    }
}

// The last line.
fn write_total<W: Write>(writer: &mut W, json: Option<&str>, tally: Tally) -> io::Result<()>
    ensures { OnOk result (Appends (W.contents writer.old) (W.contents writer.new) (total_text (option_copied json.entry) tally)) }
{
    let Tally { files, findings } = tally;
    match json {
        None => {
            let files = Quantity::new(files as u64, "file", "files");
            let findings = Quantity::new(findings as u64, "finding", "findings");
            writeln!(writer, "{files}, {findings}")
        }
        Some(path) => writeln!(
            writer,
            "{{\"path\":{path},\"files\":{files},\"findings\":{findings}}}"
        ),
    }
}

impl fmt::Display for Wrong {
    ghost output = { λ w. Some (wrong_text w) };

    fn fmt<W: fmt::Write>(&self, f: &mut fmt::Formatter<W>) -> fmt::Result {
        match *self {
            Wrong::Contents => f.write_str("has findings, which dasd vtoc prints"),
            Wrong::Chain(fault) => write!(f, "{}", Broken(fault)),
            Wrong::NoRecords => f.write_str("its format is of no records"),
            Wrong::Directory(fault) => f.write_str(directory_text(fault)),
            Wrong::Ends(stop) => write!(f, "{stop}"),
            Wrong::NotWhole(end) => write!(f, "{end}"),
            Wrong::Exists => f.write_str("file exists"),
        }
    }
}

// Why a directory is not read on.
fn directory_text(fault: DirectoryFault) -> &'static str
    ensures { result.now ≡ directory_text fault }
{
    match fault {
        DirectoryFault::UsedBytes => "a directory block has a count of bytes that can't be",
        DirectoryFault::EntryPastUsed => "an entry of the directory ends after its block",
    }
}

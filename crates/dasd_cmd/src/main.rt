//! `dasd` formats, lists and checks CKD_P370 disk images, and runs decks of channel instructions over them.
#![tactic(auto)]

mod faults;
mod names;
mod rules;
mod terminal;

ghost use Rattle.std.specs.Prelude.{◌≡◌, OnOk};
ghost use Rattle.std.specs.Process.{exit_status};
ghost use Rattle.dasd_cmd.specs.Ends.{ended_status};

use crate::faults::{note_rule, write_fault, write_reach};
use crate::names::note_name;
use crate::terminal::{HostInput, HostOutput, TerminalLine};
use counted_io::Counted;
use dasd_jobs::{ImageFiles, JobFault};
use dasd_run::{Ending, HostParts, ProgramFault, obey_with};
use dasd_words::is_comparison;
use file_places::Notes;
use host_files::{HostFiles, Remarks, Shown};
use std::alloc::{AllocError, Global};
use std::env::{self, Env, FillError};
use std::fmt::Write;
use std::io::{BufWriter, ErrorKind};
use std::os::unix::fs::FileTypeExt;
use std::process::ExitCode;
use std::{fmt, fs};

/// A No-Operation, which is accepted and over at once, so that no interruption is left.
const STORED_DECK: &[u8] = b"STORE 48 00000400
STORE 400 0300000000000001
SIO 190
SHOW 40 8
INT
";

/// What is said of a word that is no text, behind it.
const NO_TEXT: &str =
    "a link to the file that has another name (ln -s) is read by each command, and run writes through it";

/// The most bytes of a word that is no text which are shown.
const SHOWN: usize = 4_096;

/// The status of a comparison that came to no end, as that of `cmp`.
const NOT_COMPARED: u8 = 2;

/// The option by which what is lacking of a volume is always told.
const AS_FAR: &str = "--as-far-as-it-goes";

/// What is said without words where something is in standard input.
const UNREAD_INPUT: &str =
    "without words dasd runs a stored deck, and reads no input: dasd run reads a deck";

/// What is said of a strict check, which reads tracks and not what their records say.
const NOT_LOOKED_AT: &str =
    "labels, free tracks and directories were not looked at: dasd check --contents does that";

/// What `dasd` does without words.
const STORED_RUN: [&str; 3] = ["dasd", "run", "90=new:2311:1"];

fn main(rt: HostRuntime) -> ExitCode {
    let remarks = Remarks::new(&rt);
    let mut files = HostFiles::new(&rt, &remarks);
    let words = match host_words(&rt) {
        Ok(words) => words,
        Err(fault) => return conclude(&rt, &files, false, Err(fault)),
    };
    let (Ok(words), Ok(writer)) = (
        texts(rt.alloc(), words.as_slice()),
        BufWriter::new(rt.alloc(), HostOutput::new(&rt, &remarks)),
    ) else {
        return conclude(&rt, &files, false, Err(ProgramFault::OutOfMemory));
    };
    let words = words.as_slice();
    let (alloc, writer) = (rt.alloc(), Counted::new(writer));
    let progress = TerminalLine::new(&rt, &remarks);
    if words.len() <= 1 {
        let parts = HostParts {
            alloc,
            files,
            reader: Counted::new(&STORED_DECK[..]),
            writer,
            progress,
        };
        return run_stored(&rt, &remarks, parts);
    }
    if as_far(words) || words.iter().any(|word| *word == "--verbose") {
        files.ask_remarks();
    }
    let parts = HostParts {
        alloc,
        files,
        reader: Counted::new(HostInput::new(rt.reader(), &remarks)),
        writer,
        progress,
    };
    let (ended, mut parts) = obey_with(parts, words);
    let ended = settled(&parts.files, ended);
    if let Err(fault) = &ended {
        note_name(alloc, words, &mut parts.files, &remarks, fault);
    }
    let ended = say_more(alloc, &remarks, &mut parts.writer, words, ended);
    let compares = is_comparison(words);
    end(&rt, &parts.files, &parts.writer, compares, ended)
}

// What `dasd` does without words, with what it says of an input that it does not read.
fn run_stored(
    rt: &HostRuntime,
    remarks: &Remarks,
    parts: HostParts<HostFiles, &[u8], BufWriter<HostOutput>, TerminalLine>,
) -> ExitCode {
    if has_input(rt) {
        remarks.tell(&UNREAD_INPUT);
    }
    let (ended, parts) = obey_with(parts, &STORED_RUN);
    end(rt, &parts.files, &parts.writer, false, ended)
}

// Whether somebody may have put a deck into standard input: it is a file with bytes, or a pipe, which can't be asked without a read.
fn has_input(rt: &HostRuntime) -> bool {
    match fs::metadata(rt, "/dev/stdin") {
        Ok(known) => known.file_type().is_fifo() || known.is_file() && known.len() > 0,
        Err(_) => false,
    }
}

// The words as texts.
fn texts(alloc: Global, words: &[String]) -> Result<Vec<&str>, AllocError> {
    let mut texts = Vec::new(alloc);
    for word in words {
        texts.push(word.as_str())?;
    }
    Ok(texts)
}

// Ends the program: what nobody reads any more is not told of.
fn end(
    rt: &HostRuntime,
    files: &HostFiles,
    writer: &Counted<BufWriter<HostOutput>>,
    compares: bool,
    ended: Result<Ending, ProgramFault>,
) -> ExitCode {
    match ended {
        Err(ProgramFault::Job(JobFault::Write)) if writer.get_ref().get_ref().is_broken() => {
            ExitCode::from(if compares { NOT_COMPARED } else { 1 })
        }
        ended => conclude(rt, files, compares, ended),
    }
}

// The status of what was done, behind what is said of it on standard error; help goes to standard output.
fn conclude(
    rt: &HostRuntime,
    files: &HostFiles,
    compares: bool,
    ended: Result<Ending, ProgramFault>,
) -> ExitCode
    ensures { exit_status result ≡ ended_status compares ended }
{
    let status = match &ended {
        Ok(Ending::Done) => 0,
        Ok(Ending::Findings) => 1,
        Err(_) if compares => NOT_COMPARED,
        Err(fault) => fault.status(),
    };
    files.clear_line();
    if let Err(fault) = &ended {
        tell_fault(rt, fault);
    }
    files.print_remarks();
    ExitCode::from(status)
}

// Says on standard error why what was asked for was not done; help goes to standard output.
fn tell_fault(rt: &HostRuntime, fault: &ProgramFault) {
    match fault {
        ProgramFault::Help(text) => print_help(rt, text.as_str()),
        ProgramFault::Words(text) => {
            let text = Shown(text.as_str());
            let _ = eprint!(rt; "{text}");
        }
        fault => {
            let _ = eprintln!(rt; "dasd: {fault}");
        }
    }
}

// Prints help, and says where that can't be.
fn print_help(rt: &HostRuntime, text: &str) {
    if let Err(fault) = print!(rt; "{text}") {
        if fault.kind() != ErrorKind::BrokenPipe {
            let _ = eprintln!(rt; "dasd: write fault");
        }
    }
}

// No command succeeds whose new files may lose their names.
fn settled(files: &HostFiles, ended: Result<Ending, ProgramFault>) -> Result<Ending, ProgramFault>
    ensures { OnOk result (result ≡ ended) }
{
    match ended {
        Ok(_) if files.is_unsettled() => Err(ProgramFault::Job(JobFault::Write)),
        ended => ended,
    }
}

// Whether words ask for volumes as far as they go.
fn as_far(words: &[&str]) -> bool {
    words.iter().any(|word| *word == AS_FAR)
}

// Says more of a fault, or how far the files of a volume went, where the words of the host ask for that.
fn say_more(
    alloc: Global,
    remarks: &Remarks,
    writer: &mut Counted<BufWriter<HostOutput>>,
    words: &[&str],
    ended: Result<Ending, ProgramFault>,
) -> Result<Ending, ProgramFault>
    ensures { OnOk result (result ≡ ended) }
{
    if let Err(fault) = &ended {
        note_rule(alloc, words, remarks, fault);
    }
    if writer.get_ref().get_ref().has_failed() {
        return ended;
    }
    match &ended {
        Err(fault) => write_fault(alloc, words, remarks, writer, fault),
        Ok(_) if as_far(words) => write_reach(alloc, words, remarks, writer)?,
        Ok(_) => {}
    }
    let is_strict = words.iter().any(|word| *word == "--strict");
    if ended.is_ok() && is_strict && !as_far(words) && !words.iter().any(|word| *word == "--json") {
        remarks.note(&NOT_LOOKED_AT);
    }
    ended
}

// The words that the host gave, the program's name first.
fn host_words(rt: &HostRuntime) -> Result<Vec<String>, ProgramFault> {
    let mut list = Vec::new(rt.alloc());
    match env::args(rt) {
        Ok(words) => {
            for word in words {
                list.push(word).map_err(|_| ProgramFault::OutOfMemory)?;
            }
            Ok(list)
        }
        Err(fault) if fault.kind() == ErrorKind::OutOfMemory => Err(ProgramFault::OutOfMemory),
        Err(_) => match tell_no_text(rt) {
            Ok(text) => Err(ProgramFault::Words(text)),
            Err(_) => Err(ProgramFault::OutOfMemory),
        },
    }
}

// Says which word is no text: its number, where the program's name has none, and its bytes.
fn tell_no_text(rt: &HostRuntime) -> Result<String, AllocError> {
    let alloc = rt.alloc();
    let mut bytes = [0u8; SHOWN];
    for number in 0..usize::MAX {
        match rt.arg(number, &mut bytes) {
            Ok(count) => {
                let word = bytes.get(..count).unwrap_or(&[]);
                if str::from_utf8(word).is_err() {
                    let word = Bytes(word);
                    return format!(in alloc;
                        "error: word {number} is not UTF-8: {word}; {NO_TEXT}\n"
                    );
                }
            }
            Err(FillError::TooLong) => {}
            Err(FillError::NotPresent) => break,
        }
    }
    format!(in alloc; "error: a word is not UTF-8; {NO_TEXT}\n")
}

/// The bytes of a word that is no text: those that are no letters, digits or signs of ASCII are shown by their numbers.
#[derive(Clone, Copy)]
struct Bytes<'a>(&'a [u8]);

impl fmt::Display for Bytes<'_> {
    fn fmt<W: fmt::Write>(&self, f: &mut fmt::Formatter<W>) -> fmt::Result {
        for byte in self.0 {
            if byte.is_ascii_graphic() || *byte == b' ' {
                f.write_char(char::from(*byte))?;
            } else {
                write!(f, "\\x{byte:02X}")?;
            }
        }
        Ok(())
    }
}

//! What is told on standard error beside the line of a fault.

ghost use Rattle.std.specs.Prelude.{◌≡◌};
ghost use Rattle.std.specs.IoError.{error_kind};
ghost use Rattle.host_files.specs.Faults.{fault_of_kind};

use dasd_jobs::FileFault;
use file_journals::ReadFiles;
use file_places::Notes;
use std::alloc::Global;
use std::cell::{Cell, RefCell};
use std::fmt;
use std::io::{Error, ErrorKind, IsTerminal};

/// What erases the rest of a terminal's line.
pub const ERASE_BEHIND: &str = "\u{1B}[K";

/// So many bytes are a step of the line that shows how far a file is read.
const STEP: u64 = 1 << 22;

/// A megabyte.
const MEGABYTE: u64 = 1 << 20;

/// What is remarked while a command goes on, a line each: which file it was, and why; and, where standard error is a terminal, a line that
/// shows how far a large file is read, unless the command shows what it is about itself. All stands in cells, so that a file that was
/// opened and one that is written tell theirs themselves.
#[derive(Drop)]
pub struct Remarks<'a> {
    host: &'a HostRuntime,
    alloc: Global,
    lines: RefCell<String>,
    /// Those of them that everybody is told.
    told: RefCell<String>,
    /// The files that are read without a lock.
    pub(crate) read: ReadFiles,
    is_terminal: bool,
    has_stages: Cell<bool>,
    is_shown: Cell<bool>,
    step: Cell<u64>,
}

impl<'a> Remarks<'a> {
    /// No remark, on the standard error of this host.
    pub fn new(host: &'a HostRuntime) -> Remarks<'a> {
        let alloc = host.alloc();
        Remarks {
            host,
            alloc,
            lines: RefCell::new(String::new(alloc)),
            told: RefCell::new(String::new(alloc)),
            read: ReadFiles::new(alloc),
            is_terminal: host.stderr().is_terminal(),
            has_stages: Cell::new(false),
            is_shown: Cell::new(false),
            step: Cell::new(0),
        }
    }

    /// Whether somebody sits at standard error.
    pub fn is_terminal(&self) -> bool {
        self.is_terminal
    }

    /// The command shows itself what it is about.
    pub fn show_stages(&self) {
        self.clear_line();
        self.has_stages.set(true);
    }

    /// Shows how far a file of so many bytes is read, where it is large.
    pub(crate) fn show_reading(&self, path: &str, at: u64, len: u64) {
        let step = at / STEP;
        if !self.is_terminal || self.has_stages.get() || len <= STEP || step == self.step.get() {
            return;
        }
        self.step.set(step);
        let (path, read, all) = (Shown(path), at / MEGABYTE, len / MEGABYTE);
        let _ = eprint!(self.host; "\rreading {path}: {read} of {all} MB{ERASE_BEHIND}");
        self.is_shown.set(true);
    }

    /// Clears the line that shows how far a file is read, before something else is written.
    pub fn clear_line(&self) {
        if self.is_shown.get() {
            let _ = eprint!(self.host; "\r{ERASE_BEHIND}");
            self.is_shown.set(false);
        }
    }

    /// Says at once, on standard error, why what a run changes of a file can't be saved.
    pub(crate) fn warn(&self, path: &str, fault: &Error) {
        if let Ok(text) = format!(in self.alloc; "{fault}") {
            let path = Shown(path);
            let why = words_of(text.as_str());
            self.clear_line();
            let _ = eprintln!(self.host; "  {path}: what the deck changes can't be saved: {why}");
        }
    }

    /// Notes why a path was refused, and says what that is to the program.
    pub(crate) fn refuse(&self, path: &str, fault: &Error) -> FileFault
        ensures { result ≡ fault_of_kind (error_kind fault.now) }
    {
        let kind = fault.kind();
        if kind == ErrorKind::OutOfMemory {
            return FileFault::OutOfMemory;
        }
        self.note_fault(path, fault);
        match kind {
            ErrorKind::AlreadyExists => FileFault::Exists,
            ErrorKind::ResourceBusy => FileFault::InUse,
            _ => FileFault::Refused,
        }
    }

    /// All of them, two blanks before each; none where there is no memory for them.
    pub fn text(&self) -> Option<String> {
        match self.lines.try_borrow() {
            Ok(lines) => lines.as_str().to_string(self.alloc).ok(),
            Err(_) => None,
        }
    }

    /// Writes them to standard error, or those alone that everybody is told.
    pub(crate) fn print(&self, all: bool) {
        let lines = if all { &self.lines } else { &self.told };
        if let Ok(lines) = lines.try_borrow() {
            let text = lines.as_str();
            let _ = eprint!(self.host; "{text}");
        }
    }

    // The line of a remark; none where there is no memory for it.
    fn line_of<T: fmt::Display>(&self, remark: &T) -> Option<String> {
        let text = format!(in self.alloc; "{remark}").ok()?;
        let shown = Shown(text.as_str());
        format!(in self.alloc; "  {shown}\n").ok()
    }
}

// Adds a line, unless there is no memory for it.
fn add(lines: &RefCell<String>, line: &str) {
    if let Ok(mut lines) = lines.try_borrow_mut() {
        let _ = lines.push_str(line);
    }
}

impl Notes for Remarks<'_> {
    fn host(&self) -> &HostRuntime {
        self.host
    }

    // Where there is no memory for a line, it is left out.
    fn note<T: fmt::Display>(&self, remark: &T) {
        if let Some(line) = self.line_of(remark) {
            add(&self.lines, line.as_str());
        }
    }

    fn note_once<T: fmt::Display>(&self, remark: &T) {
        let Some(line) = self.line_of(remark) else {
            return;
        };
        let is_noted = match self.lines.try_borrow() {
            Ok(lines) => lines.as_str().contains(line.as_str()),
            Err(_) => false,
        };
        if !is_noted {
            add(&self.lines, line.as_str());
        }
    }

    fn tell<T: fmt::Display>(&self, remark: &T) {
        if let Some(line) = self.line_of(remark) {
            add(&self.lines, line.as_str());
            add(&self.told, line.as_str());
        }
    }

    fn note_fault(&self, path: &str, fault: &Error) {
        if let Ok(text) = format!(in self.alloc; "{fault}") {
            let why = words_of(text.as_str());
            self.note(&Remark::Refused(path, why));
        }
    }

    // One that has become shorter since it was opened has no bytes there.
    fn note_reading(&self, path: &str, at: u64, fault: &Error) {
        if fault.kind() == ErrorKind::UnexpectedEof {
            let why = "the file has become shorter";
            self.note(&Remark::Unread(path, at, why));
        } else if let Ok(text) = format!(in self.alloc; "{fault}") {
            let why = words_of(text.as_str());
            self.note(&Remark::Unread(path, at, why));
        }
    }
}

/// What is remarked of the file at a path.
#[derive(Clone, Copy)]
pub(crate) enum Remark<'a> {
    /// The host refused it, with these words.
    Refused(&'a str, &'a str),
    /// Its bytes from a place on were not read, and why.
    Unread(&'a str, u64, &'a str),
    /// A new file took its place. It had so many bytes.
    Replaced(&'a str, u64),
    /// A new file that took its place lacks what it had beside this mode, by which the group may do so much.
    LostRights(&'a str, u32),
}

impl fmt::Display for Remark<'_> {
    fn fmt<W: fmt::Write>(&self, f: &mut fmt::Formatter<W>) -> fmt::Result {
        match *self {
            Remark::Refused(path, why) => write!(f, "{path}: {why}"),
            Remark::Unread(path, at, why) => write!(f, "{path}: at byte {at}: {why}"),
            Remark::Replaced(path, len) => write!(f, "{path}: a file of {len} bytes was replaced"),
            Remark::LostRights(path, mode) => {
                let may = match mode >> 4 & 3 {
                    0 => "neither read nor write it",
                    1 => "write it",
                    2 => "read it",
                    _ => "read and write it",
                };
                write!(
                    f,
                    "{path}: an access list or attributes of the old file are lost; the group may {may}"
                )
            }
        }
    }
}

// The host's words for a fault, without its number.
fn words_of(text: &str) -> &str {
    text.split_once(" (os error")
        .map_or(text, |(words, _)| words)
}

/// A text whose control characters but the ends of lines are shown by their numbers, as `\x1B`, so that no name of a file writes on a
/// terminal what it likes.
#[derive(Clone, Copy)]
pub struct Shown<'a>(pub &'a str);

impl fmt::Display for Shown<'_> {
    fn fmt<W: fmt::Write>(&self, f: &mut fmt::Formatter<W>) -> fmt::Result {
        for character in self.0.chars() {
            if character.is_control() && character != '\n' {
                let number = character as u32;
                write!(f, "\\x{number:02X}")?;
            } else {
                write!(f, "{character}")?;
            }
        }
        Ok(())
    }
}

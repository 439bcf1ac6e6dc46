//! The terminal of the host, and its standard output.

ghost use Rattle.std.specs.Prelude.{◌≡◌, ◌||◌, false};
ghost use Rattle.std.specs.IoError.{error_kind};
ghost use Rattle.dasd_cmd.specs.Ends.{is_broken_pipe};
ghost use Rattle.std.specs.Io.{WritesAtMost};

use dasd_jobs::{Progress, Stage};
use file_places::Notes;
use host_files::{ERASE_BEHIND, Remarks};
use std::io;
use std::io::{ErrorKind, Read, Write};

/// A line of standard error, where that is a terminal; it is written over by the next, and is nothing elsewhere.
#[derive(Drop)]
pub(crate) struct TerminalLine<'a> {
    host: &'a HostRuntime,
    remarks: &'a Remarks<'a>,
    is_shown: bool,
}

impl<'a> TerminalLine<'a> {
    /// The line of this host's standard error, which shows nothing yet.
    pub(crate) fn new(host: &'a HostRuntime, remarks: &'a Remarks<'a>) -> TerminalLine<'a>
        ensures { result.is_shown ≡ false }
    {
        TerminalLine {
            host,
            remarks,
            is_shown: false,
        }
    }
}

impl Progress for TerminalLine<'_> {
    ghost is_shown = { λ line. line.is_shown };

    fn show(&mut self, stage: Stage) {
        if self.remarks.is_terminal() {
            self.remarks.show_stages();
            let _ = eprint!(self.host; "\r{stage}{ERASE_BEHIND}");
            self.is_shown = true;
        }
    }

    fn clear(&mut self) {
        if self.is_shown {
            let _ = eprint!(self.host; "\r{ERASE_BEHIND}");
            self.is_shown = false;
        }
    }
}

/// Standard output, and whether its reader has gone. Why it takes nothing more is remarked.
#[derive(Drop)]
pub(crate) struct HostOutput<'a> {
    host: &'a HostRuntime,
    remarks: &'a Remarks<'a>,
    is_broken: bool,
    is_told: bool,
}

impl<'a> HostOutput<'a> {
    /// The output of this host.
    pub(crate) fn new(host: &'a HostRuntime, remarks: &'a Remarks<'a>) -> HostOutput<'a>
        ensures { (result.is_broken ≡ false) × (result.is_told ≡ false) }
    {
        HostOutput {
            host,
            remarks,
            is_broken: false,
            is_told: false,
        }
    }

    /// Whether a write met a pipe that nobody reads any more.
    pub(crate) fn is_broken(&self) -> bool
        ensures { result ≡ self.now.is_broken }
    {
        self.is_broken
    }

    /// Whether a write failed.
    pub(crate) fn has_failed(&self) -> bool
        ensures { result ≡ (self.now.is_broken || self.now.is_told) }
    {
        self.is_broken || self.is_told
    }

    // Keeps what a write that failed says of the output.
    fn note(&mut self, fault: &io::Error)
        ensures { self.new.is_broken ≡ (self.old.is_broken || is_broken_pipe (error_kind fault.now)) }
    {
        if fault.kind() == ErrorKind::BrokenPipe {
            self.is_broken = true;
        } else if fault.kind() != ErrorKind::Interrupted && !self.is_told {
            self.remarks.note_fault("standard output", fault);
            self.is_told = true;
        }
    }
}

impl Write for HostOutput<'_> {
    fn write(&mut self, bytes: &[u8]) -> io::Result<usize> {
        self.remarks.clear_line();
        let written = io::writer(self.host).write(bytes);
        if let Err(fault) = &written {
            self.note(fault);
        }
        written
    }

    fn flush(&mut self) -> io::Result<()> {
        Ok(())
    }
}

/// Standard input. Why it can't be read on is remarked; a read that a signal ended is made again.
#[derive(Drop)]
pub(crate) struct HostInput<'a, R> {
    reader: R,
    remarks: &'a Remarks<'a>,
    given: u64,
}

impl<'a, R: Read> HostInput<'a, R> {
    /// The input that this reader reads.
    pub(crate) fn new(reader: R, remarks: &'a Remarks<'a>) -> HostInput<'a, R>
        ensures { (result.reader ≡ reader) × (result.given ≡ 0) }
    {
        HostInput {
            reader,
            remarks,
            given: 0,
        }
    }
}

impl<R: Read> Read for HostInput<'_, R> {
    fn read(&mut self, into: &mut [u8]) -> io::Result<usize> {
        for _ in 0..u64::MAX {
            match self.reader.read(into) {
                Ok(count) => {
                    self.given = self.given.saturating_add(count as u64);
                    return Ok(count);
                }
                Err(fault) if fault.kind() == ErrorKind::Interrupted => {}
                Err(fault) => {
                    self.remarks
                        .note_reading("standard input", self.given, &fault);
                    return Err(fault);
                }
            }
        }
        Ok(0)
    }
}

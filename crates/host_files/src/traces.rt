//! What takes the lines of a trace.

use crate::remarks::Remarks;
use file_places::Notes;
use std::fs::File;
use std::io;
use std::io::{ErrorKind, Write};

/// Standard error, or a file.
#[derive(Drop)]
pub enum TraceSink<'a> {
    /// Standard error of this host.
    StandardError(&'a HostRuntime),
    /// A file that was opened for the trace.
    File(TraceFile<'a>),
}

/// A file that takes a trace in the place of what it held. Why it takes nothing more is remarked.
#[derive(Drop)]
pub struct TraceFile<'a> {
    file: File,
    path: String,
    remarks: &'a Remarks<'a>,
    /// Whether it may still hold what it held.
    is_old: bool,
    is_told: bool,
}

impl<'a> TraceFile<'a> {
    /// A file that was opened to be written: a regular one loses its bytes with the first write or flush.
    pub(crate) fn new(
        file: File,
        path: String,
        remarks: &'a Remarks<'a>,
        is_regular: bool,
    ) -> TraceFile<'a> {
        TraceFile {
            file,
            path,
            remarks,
            is_old: is_regular,
            is_told: false,
        }
    }

    // Takes away what the file held.
    fn begin(&mut self) -> io::Result<()> {
        if self.is_old {
            let begun = self.file.set_len(0);
            self.note(begun.as_ref().err());
            begun?;
            self.is_old = false;
        }
        Ok(())
    }

    // Remarks the first fault of the file.
    fn note(&mut self, fault: Option<&io::Error>) {
        if let Some(fault) = fault {
            if fault.kind() != ErrorKind::Interrupted && !self.is_told {
                self.remarks.note_fault(self.path.as_str(), fault);
                self.is_told = true;
            }
        }
    }
}

impl Write for TraceSink<'_> {
    fn write(&mut self, bytes: &[u8]) -> io::Result<usize> {
        match self {
            TraceSink::StandardError(host) => host.stderr().write(bytes),
            TraceSink::File(it) => {
                it.begin()?;
                let written = it.file.write(bytes);
                it.note(written.as_ref().err());
                written
            }
        }
    }

    fn flush(&mut self) -> io::Result<()> {
        match self {
            TraceSink::StandardError(_) => Ok(()),
            TraceSink::File(it) => it.begin(),
        }
    }
}

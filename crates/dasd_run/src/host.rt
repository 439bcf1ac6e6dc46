//! What commands have of the host.

ghost use Rattle.std.specs.Prelude.{◌≡◌, true, map, IfErr};
ghost use Rattle.admitted_words.specs.Writing.{OnlyRead};
ghost use Rattle.counted_io.specs.Streams.{seen_by};
ghost use Rattle.program_faults.specs.Faults.{keeps_files};
ghost use Rattle.dasd_run.specs.Obeyed.{Obeys, outside};

use crate::commands::{Ending, obey};
use counted_io::Counted;
use dasd_jobs::{Journals, Progress, Traces};
use program_faults::ProgramFault;
use std::alloc::Global;
use std::io::{Read, Write};
use std::marker::Model;

/// What commands work with. A contract sees of it what is outside of the program: what was read and printed, and which files were opened
/// and written.
#[derive(Drop)]
pub struct Host<F: Traces, R: Read, W: Write, P: Progress> {
    /// Memory.
    pub alloc: Global,
    /// The files, by their paths.
    pub files: F,
    /// What a deck or a text is read of, where no file of it is named. Its failures are counted.
    pub reader: Counted<R>,
    /// What takes that which is printed. Its failures are counted.
    pub writer: Counted<W>,
    /// What shows how far a job over a large volume is.
    pub progress: P,
}

impl<F: Traces, R: Read, W: Write, P: Progress> Model for Host<F, R, W, P> {
    ghost use Rattle.counted_io.specs.Streams.{seen_by};
    ghost use Rattle.dasd_run.specs.Outside.{Outside};

    ghost Value = { Outside };

    ghost view = { λ h. record {
      read = seen_by R.remaining h.reader;
      printed = seen_by W.contents h.writer;
      written = F.written h.files;
      opened = F.opened h.files;
    } };
}

/// The parts of a host, as a program has them: of a type that says nothing of what files are, and so may hold what is lent.
#[derive(Drop)]
pub struct HostParts<F, R, W, P> {
    /// Memory.
    pub alloc: Global,
    /// The files, by their paths.
    pub files: F,
    /// What a deck or a text is read of, where no file of it is named. Its failures are counted.
    pub reader: Counted<R>,
    /// What takes that which is printed. Its failures are counted.
    pub writer: Counted<W>,
    /// What shows how far a job over a large volume is.
    pub progress: P,
}

/// Does what these words ask with the parts of a host, as `obey` does, and gives the parts back.
///
/// # Errors
///
/// Those of `obey`.
pub fn obey_with<F: Journals, R: Read, W: Write, P: Progress>(
    parts: HostParts<F, R, W, P>,
    words: &[&str],
) -> (Result<Ending, ProgramFault>, HostParts<F, R, W, P>)
    ensures keeps { IfErr result.0 (λ e. keeps_files e ≡ true → F.written result.1.files ≡ F.written parts.files) }
    ensures obeys { Obeys (map (λ word. word.now) words.now) result.0
        (outside (seen_by R.remaining parts.reader) (seen_by W.contents parts.writer) (F.written parts.files) (F.opened parts.files))
        (outside (seen_by R.remaining result.1.reader) (seen_by W.contents result.1.writer) (F.written result.1.files)
        (F.opened result.1.files)) }
    ensures only_reads { OnlyRead (map (λ word. word.now) words.now) → F.written result.1.files ≡ F.written parts.files }
{
    let HostParts {
        alloc,
        files,
        reader,
        writer,
        progress,
    } = parts;
    let mut host = Host {
        alloc,
        files,
        reader,
        writer,
        progress,
    };
    let ended = obey(&mut host, words);
    let Host {
        alloc,
        files,
        reader,
        writer,
        progress,
    } = host;
    let parts = HostParts {
        alloc,
        files,
        reader,
        writer,
        progress,
    };
    (ended, parts)
}

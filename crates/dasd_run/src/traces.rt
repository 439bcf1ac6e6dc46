//! The trace of a deck: where it goes, and how it begins and ends.

ghost use Rattle.std.specs.Prelude.{◌≡◌, false, IfErr};
ghost use Rattle.dasd_run.specs.Decks.{NoTrace};
ghost use Rattle.program_faults.specs.Faults.{keeps_files, opening_fault};

use crate::remarks::Remark;
use dasd_jobs::{FileFault, Traces};
use dasd_words::{AskedTrace, DeckRun, TraceTarget, VolumeSource};
use program_faults::ProgramFault;
use s360_deck::RunFault;
use std::alloc::Global;
use std::io::Write;
use trace_lines::{TracedLines, Tracer};

/// The trace that a run asks for, before anything else of it is opened.
///
/// # Errors
///
/// It can't be opened, or its file is one that the run reads or writes.
pub(crate) fn begin_trace<F: Traces>(
    alloc: Global,
    files: &mut F,
    asked: &DeckRun,
) -> Result<Option<Tracer<F::Sink>>, ProgramFault>
    ensures kept { F.written files.new ≡ F.written files.old }
    ensures same { F.opened files.new ≡ F.opened files.old }
    ensures no_trace { IfErr result (λ e. NoTrace e asked.now) }
{
    let Some(trace) = asked.trace else {
        return Ok(None);
    };
    let beside = paths_of(alloc, asked)?;
    let path = match trace.target {
        TraceTarget::StandardError => None,
        TraceTarget::File(path) => Some(path),
    };
    if let Some(path) = path {
        if beside.iter().any(|other| *other == path) {
            files.remark(&Remark::Used(path));
            return Err(ProgramFault::TraceInUse);
        }
    }
    match files.open_trace(alloc, path, beside.as_slice()) {
        Ok(sink) => Ok(Some(Tracer::new(alloc, sink, lines_of(&trace))?)),
        Err(fault) => Err(of_opening(fault)),
    }
}

// Which lines the trace has.
fn lines_of(asked: &AskedTrace) -> TracedLines
    ensures whole { result.is_whole ≡ asked.now.is_whole }
    ensures failing_only { result.failing_only ≡ asked.now.failing_only }
    ensures last { result.last ≡ asked.now.last }
    ensures with_answers { result.with_answers ≡ asked.now.with_answers }
{
    TracedLines {
        is_whole: asked.is_whole,
        failing_only: asked.failing_only,
        last: asked.last,
        with_answers: asked.with_answers,
    }
}

// The paths of the files that a run reads or writes, beside its trace.
fn paths_of<'a>(alloc: Global, asked: &DeckRun<'a>) -> Result<Vec<&'a str>, ProgramFault>
    ensures { IfErr result (λ e. e ≡ ProgramFault.OutOfMemory) }
{
    let mut paths = Vec::new(alloc);
    if let Some(deck) = asked.deck {
        if paths.push(deck).is_err() {
            return Err(ProgramFault::OutOfMemory);
        }
    }
    for volume in &asked.volumes {
        if let VolumeSource::Files(files) = &volume.source {
            paths.extend_from_slice(files.as_slice())?;
        }
    }
    Ok(paths)
}

// What a trace that is not opened is to the program.
fn of_opening(fault: FileFault) -> ProgramFault
    ensures { result ≡ opening_fault fault }
{
    match fault {
        FileFault::OutOfMemory => ProgramFault::OutOfMemory,
        FileFault::Refused => ProgramFault::TraceNotOpened,
        FileFault::InUse | FileFault::Twice | FileFault::Exists => ProgramFault::TraceInUse,
    }
}

/// Ends the trace of a deck that was run. Of one that was not run nothing is written.
///
/// # Errors
///
/// The trace is not whole.
pub(crate) fn end_trace<T: Write + Drop>(
    tracer: Option<Tracer<T>>,
    run: Result<(), RunFault>,
) -> Result<(), ProgramFault>
    ensures kept { IfErr result (λ e. keeps_files e ≡ false) }
    ensures fault { IfErr result (λ e. e ≡ ProgramFault.TraceWrite) }
{
    match (tracer, run) {
        (Some(tracer), Ok(()) | Err(RunFault::Write)) => match tracer.into_writer() {
            Ok(_) => Ok(()),
            Err(_) => Err(ProgramFault::TraceWrite),
        },
        _ => Ok(()),
    }
}

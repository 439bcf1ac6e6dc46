//! The commands of `dasd`.

ghost use Rattle.std.specs.Prelude.{◌≡◌, true, map, IfErr};
ghost use Rattle.admitted_words.specs.Writing.{OnlyRead};
ghost use Rattle.counted_io.specs.Streams.{seen_by};
ghost use Rattle.dasd_run.specs.Answers.{FormatsVolume, ListsVolume, ChecksVolume, Answers};
ghost use Rattle.dasd_run.specs.Ended.{worse, KeepsFiles};
ghost use Rattle.program_faults.specs.Faults.{keeps_files};
ghost use Rattle.dasd_run.specs.Obeyed.{Obeys};
ghost use Rattle.dasd_run.specs.Outside.{Looks};
ghost use Rattle.dasd_run.specs.Runs.{RunsOrStops, Tells};
ghost use Rattle.dasd_run.specs.Saves.{Ends, plan_of};

use crate::archive::{compare_both, dump_part};
use crate::changes::{delete_set, load_file, relabel, rename_set};
use crate::decks::{read_deck, run_deck, tell_fault};
use crate::details::{list_details, list_library};
use crate::explain::explain;
use crate::folders::{load_all, load_one};
use crate::hash::hash_volume;
use crate::host::Host;
use crate::labels::format_with_label;
use crate::list::list_part;
use crate::members::{delete_one, rename_one};
use crate::recovery::recover;
use crate::runs::{Disks, build, finish, tell_running};
use crate::strict::check_strictly;
use crate::traces::{begin_trace, end_trace};
use crate::unload::{extract_set, extract_tracks, extract_volume};
use crate::vtoc::list_contents;
use crate::whole::check_contents;
use crate::words::{assemble_text, disassemble_deck};
use admitted_words::read_admitted;
use counted_io::{Counted, WriteFault, write_flushed};
use dasd_jobs::{
    ImageFiles, JobFault, Journals, NewVolume, Progress, SavePlan, Traces, check_files,
    format_file, list_files,
};
use dasd_words::{DeckRun, NewImage, Request, WordFault};
use program_faults::ProgramFault;
use s360_deck::RunFault;
use std::alloc::Global;
use std::io::{Read, Write};

/// How a command ended that did what it was asked.
#[derive(Clone, Copy)]
pub enum Ending {
    /// It has nothing to report.
    Done,
    /// A volume has tracks that can't be read.
    Findings,
}

#[tactic(auto, using(crate::proofs::Obeying::writes_none))]
/// Does what these words ask, the first of which is the program's name.
///
/// # Errors
///
/// Wrong words, before any file is read or written; or what stopped the command. No file is written with a fault of the deck; nor, but
/// where data sets are unloaded, with one of a file that is opened, read, locked or mounted. With a write fault a format may have
/// written its file, and its line is not printed. A run that can't save a volume has saved those before it; one whose trace can't be
/// written ends as without it, and then reports that.
pub fn obey<F: Journals, R: Read, W: Write, P: Progress>(
    host: &mut Host<F, R, W, P>,
    words: &[&str],
) -> Result<Ending, ProgramFault>
    ensures keeps { KeepsFiles result host.old host.new }
    ensures obeys { Obeys (map (λ word. word.now) words.now) result host.old host.new }
    ensures only_reads { OnlyRead (map (λ word. word.now) words.now) → host.new.written ≡ host.old.written }
{
    let asked = match read_admitted(host.alloc, words) {
        Ok(asked) => asked,
        Err(WordFault::Version(text)) => return tell(&mut host.writer, text.as_bytes()),
        Err(WordFault::Help(text)) => return Err(ProgramFault::Help(text)),
        Err(WordFault::Usage(text)) => return Err(ProgramFault::Words(text)),
        Err(WordFault::BadVolume) => return Err(ProgramFault::BadVolume),
        Err(WordFault::OutOfMemory) => return Err(ProgramFault::OutOfMemory),
    };
    if asked.is_verbose {
        host.files.ask_remarks();
    }
    answer(host, asked.request)
}

/// Does what is asked, as `obey` does of words.
///
/// # Errors
///
/// What stopped the command, as of `obey`.
pub fn answer<F: Journals, R: Read, W: Write, P: Progress>(
    host: &mut Host<F, R, W, P>,
    request: Request,
) -> Result<Ending, ProgramFault>
    ensures keeps { KeepsFiles result host.old host.new }
    ensures answers { Answers request.entry result host.old host.new }
{
    match request {
        Request::Format(asked) => format_volume(host, &asked),
        Request::FormatLabelled(image, label) => format_with_label(host, &image, label),
        Request::List(paths) => list_volume(host, paths.as_slice()),
        Request::ListPart(volume, part) => list_part(host, &volume, part),
        Request::Check(paths) => check_volume(host, paths.as_slice()),
        Request::CheckStrictly(asked) => check_strictly(host, &asked),
        Request::CheckContents(volume) => check_contents(host, &volume),
        Request::Dump(volume, part) => dump_part(host, &volume, part),
        Request::Compare(volumes) => compare_both(host, &volumes),
        Request::Hash(asked) => hash_volume(host, &asked),
        Request::ListContents(volume) => list_contents(host, &volume),
        Request::ListDetails(asked) => list_details(host, &asked),
        Request::ListMembers(asked) => list_library(host, &asked),
        Request::Extract(asked) => extract_set(host, &asked),
        Request::ExtractTracks(asked) => extract_tracks(host, &asked),
        Request::ExtractAll(asked) => extract_volume(host, &asked),
        Request::Rename(asked) => rename_set(host, &asked),
        Request::RenameMember(asked) => rename_one(host, &asked),
        Request::Delete(asked) => delete_set(host, &asked),
        Request::DeleteMember(asked) => delete_one(host, &asked),
        Request::Relabel(asked) => relabel(host, &asked),
        Request::Recover(asked) => recover(host, &asked),
        Request::Load(asked) => load_file(host, &asked),
        Request::LoadAll(asked) => load_all(host, &asked),
        Request::LoadMember(asked) => load_one(host, &asked),
        Request::Explain(noted) => explain(&mut host.writer, noted),
        Request::Assemble(path) => assemble_text(host, path),
        Request::Disassemble(path) => disassemble_deck(host, path),
        Request::Run(asked) => run_volumes(host, asked),
    }
}

// Writes a new image.
fn format_volume<F: Traces, R: Read, W: Write, P: Progress>(
    host: &mut Host<F, R, W, P>,
    asked: &NewImage,
) -> Result<Ending, ProgramFault>
    ensures keeps { KeepsFiles result host.old host.new }
    ensures formats { FormatsVolume result asked.now host.old host.new }
    ensures unread { host.new.read ≡ host.old.read }
{
    let volume = NewVolume {
        path: asked.path,
        model: asked.model,
        cylinders: asked.cylinders,
        replaces: asked.replaces,
    };
    format_file(
        host.alloc,
        &mut host.files,
        &mut host.writer,
        &mut host.progress,
        volume,
    )?;
    Ok(Ending::Done)
}

// Prints the tracks and records of the volume of these files.
fn list_volume<F: Traces, R: Read, W: Write, P: Progress>(
    host: &mut Host<F, R, W, P>,
    paths: &[&str],
) -> Result<Ending, ProgramFault>
    ensures looks { Looks host.old host.new }
    ensures lists { ListsVolume result (map (λ path. path.now) paths.now) host.old host.new }
{
    list_files(host.alloc, &mut host.files, &mut host.writer, paths)?;
    Ok(Ending::Done)
}

// Checks the volume of these files, and says whether it has tracks that can't be read.
fn check_volume<F: Traces, R: Read, W: Write, P: Progress>(
    host: &mut Host<F, R, W, P>,
    paths: &[&str],
) -> Result<Ending, ProgramFault>
    ensures looks { Looks host.old host.new }
    ensures checks { ChecksVolume result (map (λ path. path.now) paths.now) host.old host.new }
{
    let findings = check_files(
        host.alloc,
        &mut host.files,
        &mut host.writer,
        &mut host.progress,
        paths,
    )?;
    Ok(worse(Ending::Done, findings > 0))
}

// Runs a deck over its volumes. Of the faults of a deck that was run, that of its trace is reported last.
fn run_volumes<F: Traces, R: Read, W: Write, P: Progress>(
    host: &mut Host<F, R, W, P>,
    asked: DeckRun,
) -> Result<Ending, ProgramFault>
    ensures keeps { KeepsFiles result host.old host.new }
    ensures runs { RunsOrStops result asked.entry host.old host.new }
{
    let alloc = host.alloc;
    let volumes = asked.volumes.as_slice();
    host.files.plan_saving(save_plan(&asked));
    let mut tracer = begin_trace(alloc, &mut host.files, &asked)?;
    let mut channel = build(
        alloc,
        &mut host.files,
        asked.storage,
        asked.channel,
        volumes,
    )?;
    let text = read_deck(alloc, &mut host.files, &mut host.reader, asked.deck)?;
    let text = text.as_slice();
    let run = run_deck(alloc, &mut host.writer, text, &mut channel, &mut tracer);
    tell_fault(&mut host.files, text, run);
    let traced = end_trace(tracer, run);
    let concluded = end_run(alloc, &mut host.files, &asked, channel, run);
    concluded.and(traced.and(Ok(Ending::Done)))
}

// What becomes of the files of a run.
fn save_plan(asked: &DeckRun) -> SavePlan
    ensures { result ≡ plan_of asked.now.saves asked.now.in_place }
{
    if !asked.saves {
        SavePlan::Nothing
    } else if asked.in_place {
        SavePlan::InPlace
    } else {
        SavePlan::Replaced
    }
}

/// How a command ends that would end so, where something more may be found.
pub(crate) fn worse(ending: Ending, found: bool) -> Ending
    ensures { result ≡ worse ending found }
{
    if found { Ending::Findings } else { ending }
}

/// Prints a text, and leaves none of it held back.
pub(crate) fn tell<W: Write>(writer: &mut Counted<W>, text: &[u8]) -> Result<Ending, ProgramFault>
    ensures { Tells result text.now (seen_by W.contents writer.old) (seen_by W.contents writer.new) }
{
    match write_flushed(writer, text) {
        Ok(()) => Ok(Ending::Done),
        Err(WriteFault) => Err(ProgramFault::Job(JobFault::Write)),
    }
}

// Ends a run: the changed files are written, where that is asked, unless the deck was not run.
fn end_run<F: ImageFiles>(
    alloc: Global,
    files: &mut F,
    asked: &DeckRun,
    channel: Disks,
    run: Result<(), RunFault>,
) -> Result<(), ProgramFault>
    ensures keeps { IfErr result (λ e. keeps_files e ≡ true → F.written files.new ≡ F.written files.old) }
    ensures ends { Ends asked.now.saves run result asked.now.volumes.items channel (F.written files.old) (F.written files.new) }
    ensures same { F.opened files.new ≡ F.opened files.old }
{
    if !asked.saves {
        tell_running(files, &channel);
        return Ok(run?);
    }
    match run {
        Ok(()) => finish(alloc, files, asked.volumes.as_slice(), channel),
        Err(RunFault::Write) => {
            finish(alloc, files, asked.volumes.as_slice(), channel)?;
            Err(RunFault::Write.into())
        }
        Err(fault) => Err(fault.into()),
    }
}

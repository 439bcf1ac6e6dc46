//! Data sets, unloaded from a volume.

ghost use Rattle.std.specs.Prelude.{◌≡◌};
ghost use Rattle.dasd_run.specs.Ended.{KeepsFiles};
ghost use Rattle.dasd_run.specs.Unloads.{block_form_of, ExtractsSet, ExtractsTracks, ExtractsVolume};

use crate::commands::{Ending, worse};
use crate::host::Host;
use crate::printed_paths::quoted;
use dasd_jobs::{Progress, Traces, open_volume};
use dasd_unload::{
    BlockForm, WantedSet, WantedTracks, WantedVolume, unload_set, unload_tracks, unload_volume,
};
use dasd_words::{ExtractedSet, ExtractedTracks, ExtractedVolume, FileForm};
use program_faults::ProgramFault;
use std::io::{Read, Write};

// How blocks are written to what a file is to have.
fn block_form_of(form: FileForm) -> BlockForm
    ensures { result ≡ block_form_of form }
{
    match form {
        FileForm::Blocks => BlockForm::Raw,
        FileForm::WithLengths => BlockForm::WithLengths,
        FileForm::Text => BlockForm::Text,
    }
}

/// Takes a data set, or a member of one, out of the volume of its files.
pub(crate) fn extract_set<F: Traces, R: Read, W: Write, P: Progress>(
    host: &mut Host<F, R, W, P>,
    asked: &ExtractedSet,
) -> Result<Ending, ProgramFault>
    ensures keeps { KeepsFiles result host.old host.new }
    ensures extracts { ExtractsSet result asked.now host.old host.new }
    ensures unread { host.new.read ≡ host.old.read }
{
    let set = WantedSet {
        name: asked.name.data_set,
        member: asked.name.member,
        target: asked.target,
        block_form: block_form_of(asked.form),
        given: asked.given,
    };
    let paths = asked.paths.as_slice();
    let mut volume = open_volume(host.alloc, &mut host.files, paths, asked.as_far)?;
    unload_set(
        host.alloc,
        &mut host.files,
        &mut volume,
        &mut host.writer,
        set,
    )?;
    Ok(Ending::Done)
}

/// Takes the tracks of a data set out of the volume of its files, as they stand.
pub(crate) fn extract_tracks<F: Traces, R: Read, W: Write, P: Progress>(
    host: &mut Host<F, R, W, P>,
    asked: &ExtractedTracks,
) -> Result<Ending, ProgramFault>
    ensures keeps { KeepsFiles result host.old host.new }
    ensures extracts { ExtractsTracks result asked.now host.old host.new }
    ensures unread { host.new.read ≡ host.old.read }
{
    let set = WantedTracks {
        name: asked.name,
        target: asked.target,
    };
    let paths = asked.paths.as_slice();
    let mut volume = open_volume(host.alloc, &mut host.files, paths, asked.as_far)?;
    unload_tracks(
        host.alloc,
        &mut host.files,
        &mut volume,
        &mut host.writer,
        set,
    )?;
    Ok(Ending::Done)
}

/// Takes all data sets out of the volume of its files, and says whether something was wrong.
pub(crate) fn extract_volume<F: Traces, R: Read, W: Write, P: Progress>(
    host: &mut Host<F, R, W, P>,
    asked: &ExtractedVolume,
) -> Result<Ending, ProgramFault>
    ensures keeps { KeepsFiles result host.old host.new }
    ensures extracts { ExtractsVolume result asked.now host.old host.new }
    ensures unread { host.new.read ≡ host.old.read }
{
    let paths = asked.paths.as_slice();
    let path = quoted(host.alloc, paths)?;
    let volume = WantedVolume {
        folder: asked.folder,
        block_form: block_form_of(asked.form),
        path: path.as_str(),
        json: asked.json,
        as_far: asked.as_far,
    };
    let findings = unload_volume(host.alloc, &mut host.files, &mut host.writer, paths, volume)?;
    Ok(worse(Ending::Done, findings > 0))
}

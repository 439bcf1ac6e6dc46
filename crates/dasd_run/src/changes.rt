//! Volumes in files that are changed.

ghost use Rattle.std.specs.Prelude.{◌≡◌};
ghost use Rattle.dasd_run.specs.Changes.{source_of, RenamesAsked, DeletesAsked, RelabelsAsked, LoadsAsked};
ghost use Rattle.dasd_run.specs.Ended.{KeepsFiles};

use crate::commands::Ending;
use crate::host::Host;
use changed_volumes::{ChangedVolume, NewName, delete_data_set, relabel_volume, rename_data_set};
use dasd_jobs::{Progress, Traces};
use dasd_words::{DeletedSet, FileForm, LoadedFile, RelabelledVolume, RenamedSet};
use loaded_sets::{NewSet, NewSetForm, SourceForm, load_set};
use program_faults::ProgramFault;
use std::io::{Read, Write};
use volume_changes::LabelFields;
use volume_labels::Date;

/// The organisation of a data set that is physically sequential (System Control Blocks, DS1DSORG).
const SEQUENTIAL: u16 = 0x4000;

/// No day.
const NO_DAY: Date = Date { year: 0, day: 0 };

/// Gives a data set of the volume of its files another name.
pub(crate) fn rename_set<F: Traces, R: Read, W: Write, P: Progress>(
    host: &mut Host<F, R, W, P>,
    asked: &RenamedSet,
) -> Result<Ending, ProgramFault>
    ensures keeps { KeepsFiles result host.old host.new }
    ensures renames { RenamesAsked result asked.now host.old host.new }
    ensures unread { host.new.read ≡ host.old.read }
{
    let volume = ChangedVolume {
        paths: asked.paths.as_slice(),
        replaces: asked.replaces,
    };
    let names = NewName {
        old: asked.old,
        new: asked.new,
    };
    rename_data_set(
        host.alloc,
        &mut host.files,
        &mut host.writer,
        &volume,
        &names,
    )?;
    Ok(Ending::Done)
}

/// Deletes a data set of the volume of its files.
pub(crate) fn delete_set<F: Traces, R: Read, W: Write, P: Progress>(
    host: &mut Host<F, R, W, P>,
    asked: &DeletedSet,
) -> Result<Ending, ProgramFault>
    ensures keeps { KeepsFiles result host.old host.new }
    ensures deletes { DeletesAsked result asked.now host.old host.new }
    ensures unread { host.new.read ≡ host.old.read }
{
    let volume = ChangedVolume {
        paths: asked.paths.as_slice(),
        replaces: asked.replaces,
    };
    delete_data_set(
        host.alloc,
        &mut host.files,
        &mut host.writer,
        &volume,
        asked.name,
    )?;
    Ok(Ending::Done)
}

/// Changes what the label of the volume of its files says.
pub(crate) fn relabel<F: Traces, R: Read, W: Write, P: Progress>(
    host: &mut Host<F, R, W, P>,
    asked: &RelabelledVolume,
) -> Result<Ending, ProgramFault>
    ensures keeps { KeepsFiles result host.old host.new }
    ensures relabels { RelabelsAsked result asked.now host.old host.new }
    ensures unread { host.new.read ≡ host.old.read }
{
    let volume = ChangedVolume {
        paths: asked.paths.as_slice(),
        replaces: asked.replaces,
    };
    let fields = LabelFields {
        serial: asked.serial,
        owner: asked.owner,
    };
    relabel_volume(
        host.alloc,
        &mut host.files,
        &mut host.writer,
        &volume,
        fields,
    )?;
    Ok(Ending::Done)
}

/// What a file has, as the loads have it.
pub(crate) fn source_of(form: FileForm) -> SourceForm
    ensures { result ≡ source_of form }
{
    match form {
        FileForm::Blocks => SourceForm::Blocks,
        FileForm::WithLengths => SourceForm::WithLengths,
        FileForm::Text => SourceForm::Text,
    }
}

/// Puts a file onto the volume of its files as a data set.
pub(crate) fn load_file<F: Traces, R: Read, W: Write, P: Progress>(
    host: &mut Host<F, R, W, P>,
    asked: &LoadedFile,
) -> Result<Ending, ProgramFault>
    ensures keeps { KeepsFiles result host.old host.new }
    ensures loads { LoadsAsked result asked.now host.old host.new }
    ensures unread { host.new.read ≡ host.old.read }
{
    let volume = ChangedVolume {
        paths: asked.paths.as_slice(),
        replaces: asked.replaces,
    };
    let set = NewSet {
        name: asked.name,
        path: asked.source,
        source: source_of(asked.form),
        form: NewSetForm {
            organisation: SEQUENTIAL,
            attributes: asked.attributes,
            key_length: asked.key_length,
            created: NO_DAY,
            expires: NO_DAY,
        },
    };
    load_set(host.alloc, &mut host.files, &mut host.writer, &volume, &set)?;
    Ok(Ending::Done)
}

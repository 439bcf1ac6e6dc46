//! Folders and members that are put onto volumes in files.

ghost use Rattle.std.specs.Prelude.{◌≡◌};
ghost use Rattle.dasd_run.specs.Ended.{KeepsFiles};
ghost use Rattle.dasd_run.specs.Folders.{FolderAsked, MemberAsked};

use crate::changes::source_of;
use crate::commands::Ending;
use crate::host::Host;
use changed_volumes::ChangedVolume;
use dasd_jobs::{Progress, Traces};
use dasd_words::{LoadedFolder, LoadedMember};
use loaded_folders::{NewFolder, NewMemberFile, load_folder, load_member};
use program_faults::ProgramFault;
use std::io::{Read, Write};

/// Puts the data sets of a folder onto the volume of its files.
pub(crate) fn load_all<F: Traces, R: Read, W: Write, P: Progress>(
    host: &mut Host<F, R, W, P>,
    asked: &LoadedFolder,
) -> Result<Ending, ProgramFault>
    ensures keeps { KeepsFiles result host.old host.new }
    ensures loads { FolderAsked result asked.now host.old host.new }
    ensures unread { host.new.read ≡ host.old.read }
{
    let volume = ChangedVolume {
        paths: asked.paths.as_slice(),
        replaces: asked.replaces,
    };
    let folder = NewFolder {
        folder: asked.folder,
        source: source_of(asked.form),
    };
    load_folder(
        host.alloc,
        &mut host.files,
        &mut host.writer,
        &volume,
        &folder,
    )?;
    Ok(Ending::Done)
}

/// Puts a file into a library of the volume of its files as a new member.
pub(crate) fn load_one<F: Traces, R: Read, W: Write, P: Progress>(
    host: &mut Host<F, R, W, P>,
    asked: &LoadedMember,
) -> Result<Ending, ProgramFault>
    ensures keeps { KeepsFiles result host.old host.new }
    ensures loads { MemberAsked result asked.now host.old host.new }
    ensures unread { host.new.read ≡ host.old.read }
{
    let volume = ChangedVolume {
        paths: asked.paths.as_slice(),
        replaces: asked.replaces,
    };
    let member = NewMemberFile {
        library: asked.library,
        member: asked.member,
        path: asked.source,
        source: source_of(asked.form),
    };
    load_member(
        host.alloc,
        &mut host.files,
        &mut host.writer,
        &volume,
        &member,
    )?;
    Ok(Ending::Done)
}

//! Members of libraries of volumes in files that are changed.

ghost use Rattle.std.specs.Prelude.{◌≡◌};
ghost use Rattle.dasd_run.specs.Members.{MemberDeleted, MemberRenamed};
ghost use Rattle.dasd_run.specs.Ended.{KeepsFiles};

use crate::commands::Ending;
use crate::host::Host;
use changed_libraries::{MemberName, NewMemberName, delete_member, rename_member};
use changed_volumes::ChangedVolume;
use dasd_jobs::{Progress, Traces};
use dasd_words::{DeletedMember, RenamedMember};
use program_faults::ProgramFault;
use std::io::{Read, Write};

/// Gives a member of a library of the volume of its files another name.
pub(crate) fn rename_one<F: Traces, R: Read, W: Write, P: Progress>(
    host: &mut Host<F, R, W, P>,
    asked: &RenamedMember,
) -> Result<Ending, ProgramFault>
    ensures keeps { KeepsFiles result host.old host.new }
    ensures renames { MemberRenamed result asked.now host.old host.new }
    ensures unread { host.new.read ≡ host.old.read }
{
    let volume = ChangedVolume {
        paths: asked.paths.as_slice(),
        replaces: asked.replaces,
    };
    let names = NewMemberName {
        library: asked.library,
        old: asked.old,
        new: asked.new,
    };
    rename_member(
        host.alloc,
        &mut host.files,
        &mut host.writer,
        &volume,
        &names,
    )?;
    Ok(Ending::Done)
}

/// Deletes a member of a library of the volume of its files.
pub(crate) fn delete_one<F: Traces, R: Read, W: Write, P: Progress>(
    host: &mut Host<F, R, W, P>,
    asked: &DeletedMember,
) -> Result<Ending, ProgramFault>
    ensures keeps { KeepsFiles result host.old host.new }
    ensures deletes { MemberDeleted result asked.now host.old host.new }
    ensures unread { host.new.read ≡ host.old.read }
{
    let volume = ChangedVolume {
        paths: asked.paths.as_slice(),
        replaces: asked.replaces,
    };
    let name = MemberName {
        library: asked.library,
        member: asked.member,
    };
    delete_member(
        host.alloc,
        &mut host.files,
        &mut host.writer,
        &volume,
        &name,
    )?;
    Ok(Ending::Done)
}

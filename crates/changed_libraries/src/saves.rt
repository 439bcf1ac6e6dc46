//! A volume in files, a member of a library of which is changed, and that is saved.

ghost use Rattle.std.specs.Prelude.{◌≡◌, map, OnOk};
ghost use Rattle.counted_io.specs.Streams.{seen_by, IsFlushed};
ghost use Rattle.changed_libraries.specs.Files.{DeletesMember, RenamesMember};

use crate::fault::MemberFault;
use crate::images::MemberChange;
use crate::lines::{write_deleted, write_renamed};
use changed_volumes::{ChangedVolume, change_files, of_line};
use counted_io::Counted;
use dasd_extract::{data_set_name, member_name};
use dasd_jobs::ImageFiles;
use member_changes::{EntryChange, MemberRefusal, new_member_name};
use std::alloc::Global;
use std::io::Write;

/// The name of a member.
#[derive(Clone, Copy)]
pub struct MemberName<'a> {
    /// The library that it is in.
    pub library: &'a str,
    /// Its name there.
    pub member: &'a str,
}

/// The names of a member that is renamed.
#[derive(Clone, Copy)]
pub struct NewMemberName<'a> {
    /// The library that it is in.
    pub library: &'a str,
    /// The name that it has.
    pub old: &'a str,
    /// The name that it gets.
    pub new: &'a str,
}

/// Deletes a member of a library of the volume in files, or another name of one: its entry leaves the directory. What is on the tracks stays,
/// and other names of the member lead to it as before. The files that changed are saved, and what was deleted is printed. The files are locked
/// and read whole before.
///
/// # Errors
///
/// No volume has a data set of the library's name, or no library a member of the other, before a file is opened. The files are not read; the
/// member is not deleted ([`change_member`](crate::change_member)); there is no memory; or a file can't be saved: no file is written, and
/// nothing is printed. Or the line can't be written, and the files are saved.
pub fn delete_member<F: ImageFiles, W: Write>(
    alloc: Global,
    files: &mut F,
    writer: &mut Counted<W>,
    volume: &ChangedVolume,
    name: &MemberName,
) -> Result<(), MemberFault>
    ensures deletes { DeletesMember result (map (λ path. path.now) volume.now.paths.now) name.now.library.now name.now.member.now
        (record {
          opened = F.opened files.old;
          written = F.written files.old;
          printed = seen_by W.contents writer.old;
        })
        (record {
          opened = F.opened files.new;
          written = F.written files.new;
          printed = seen_by W.contents writer.new;
        }) }
    ensures flushed { OnOk result (IsFlushed (seen_by W.contents writer.new)) }
{
    let Some(library) = data_set_name(name.library) else {
        return Err(MemberFault::Refused(MemberRefusal::NoDataSet));
    };
    let Some(member) = member_name(name.member) else {
        return Err(MemberFault::Refused(MemberRefusal::NoMember));
    };
    let change = MemberChange {
        library,
        change: EntryChange::Delete(member),
    };
    match change_files(alloc, files, volume, &change) {
        Ok(_) => of_line(write_deleted(writer, name)),
        Err(fault) => Err(fault),
    }
}

/// Gives a member of a library of the volume in files, or another name of one, another name: its entry has that and comes where it belongs. The
/// files that changed are saved, and what was renamed is printed. The files are locked and read whole before.
///
/// # Errors
///
/// The new name is none of a member, no volume has a data set of the library's name, or no library a member of the old one, before a file is
/// opened. The files are not read; the member is not renamed ([`change_member`](crate::change_member)); there is no memory; or a file can't be
/// saved: no file is written, and nothing is printed. Or the line can't be written, and the files are saved.
pub fn rename_member<F: ImageFiles, W: Write>(
    alloc: Global,
    files: &mut F,
    writer: &mut Counted<W>,
    volume: &ChangedVolume,
    names: &NewMemberName,
) -> Result<(), MemberFault>
    ensures renames { RenamesMember result (map (λ path. path.now) volume.now.paths.now) names.now.library.now names.now.old.now names.now.new.now
        (record {
          opened = F.opened files.old;
          written = F.written files.old;
          printed = seen_by W.contents writer.old;
        })
        (record {
          opened = F.opened files.new;
          written = F.written files.new;
          printed = seen_by W.contents writer.new;
        }) }
    ensures flushed { OnOk result (IsFlushed (seen_by W.contents writer.new)) }
{
    let Some(new) = new_member_name(names.new) else {
        return Err(MemberFault::Refused(MemberRefusal::NoName));
    };
    let Some(library) = data_set_name(names.library) else {
        return Err(MemberFault::Refused(MemberRefusal::NoDataSet));
    };
    let Some(old) = member_name(names.old) else {
        return Err(MemberFault::Refused(MemberRefusal::NoMember));
    };
    let change = MemberChange {
        library,
        change: EntryChange::Rename(old, new),
    };
    match change_files(alloc, files, volume, &change) {
        Ok(_) => of_line(write_renamed(writer, names)),
        Err(fault) => Err(fault),
    }
}

//! A volume in files, a library of which gets a member, and that is saved.

ghost use Rattle.std.specs.Prelude.{◌≡◌, ◌≤◌, length, map, OnOk};
ghost use Rattle.counted_io.specs.Streams.{seen_by, IsFlushed};
ghost use Rattle.changed_volumes.specs.Files.{TellsChange};
ghost use Rattle.loaded_folders.specs.MemberLoads.{LoadsMember, adding, added_line};

use crate::added::AddedMember;
use crate::lines::write_added;
use crate::member_fault::{NewMemberFault, NewMemberRefusal, refused};
use crate::member_images::add_member;
use changed_volumes::{ChangedVolume, ImageChange, change_files, of_line};
use ckd_image::Image;
use counted_io::Counted;
use dasd_files::VolumeFile;
use dasd_jobs::ImageFiles;
use loaded_sets::{SourceForm, of_file};
use member_changes::new_member_name;
use std::alloc::Global;
use std::io::Write;
use volume_changes::new_set_name;

/// More bytes than a volume has room for: of 65,535 cylinders with 20 heads, whose tracks have 7,294 bytes each.
const MOST_BYTES: usize = 9_560_245_800;

/// A member that is put into a library from a file.
#[derive(Clone, Copy)]
pub struct NewMemberFile<'a> {
    /// The name of the library.
    pub library: &'a str,
    /// The name of the member.
    pub member: &'a str,
    /// The path of the file that has its blocks or its lines.
    pub path: &'a str,
    /// What that file has.
    pub source: SourceForm,
}

/// Puts a member into a library of the volume in files, saves the files that changed, and prints what was loaded. The library is written anew
/// ([`add_member`]). The files of the volume are locked and read whole before, behind the one with the blocks.
///
/// # Errors
///
/// The name of the library is none, or that of the member, before a file is opened. The file with the blocks or those of the volume are not
/// read; the library does not get the member; there is no memory; or a file can't be saved: no file is written, and nothing is printed. Or
/// the line can't be written, and the files are saved.
pub fn load_member<F: ImageFiles, W: Write>(
    alloc: Global,
    files: &mut F,
    writer: &mut Counted<W>,
    volume: &ChangedVolume,
    asked: &NewMemberFile,
) -> Result<(), NewMemberFault>
    ensures loads { LoadsMember result asked.now (map (λ path. path.now) volume.now.paths.now)
        (record {
          opened = F.opened files.old;
          written = F.written files.old;
          printed = seen_by W.contents writer.old;
        })
        (record {
          opened = F.opened files.new;
          written = F.written files.new;
          printed = seen_by W.contents writer.new;
        }) }
    ensures flushed { OnOk result (IsFlushed (seen_by W.contents writer.new)) }
{
    let Some(library) = new_set_name(asked.library) else {
        return Err(refused(NewMemberRefusal::NoName));
    };
    let Some(name) = new_member_name(asked.member) else {
        return Err(refused(NewMemberRefusal::NoMemberName));
    };
    let bytes = match files.read(alloc, asked.path, MOST_BYTES) {
        Ok(bytes) => bytes,
        Err(fault) => return Err(of_file(fault)),
    };
    let added = AddedMember {
        library,
        name,
        source: asked.source,
        bytes: bytes.as_slice(),
    };
    add_and_tell(alloc, files, writer, volume, (&added, asked))
}

// Puts a member that is asked for into a library of the volume in files, saves those that changed, and prints what was loaded.
fn add_and_tell<F: ImageFiles, W: Write>(
    alloc: Global,
    files: &mut F,
    writer: &mut Counted<W>,
    volume: &ChangedVolume,
    asked: (&AddedMember, &NewMemberFile),
) -> Result<(), NewMemberFault>
    requires library { length asked.1.now.library.now ≤ 44 }
    requires member { length asked.1.now.member.now ≤ 8 }
    ensures tells { TellsChange result (adding asked.entry.0.now) (map (λ path. path.now) volume.now.paths.now)
        (added_line asked.entry.1.now.library.now asked.entry.1.now.member.now)
        (record {
          opened = F.opened files.old;
          written = F.written files.old;
          printed = seen_by W.contents writer.old;
        })
        (record {
          opened = F.opened files.new;
          written = F.written files.new;
          printed = seen_by W.contents writer.new;
        }) }
    ensures flushed { OnOk result (IsFlushed (seen_by W.contents writer.new)) }
{
    let (added, asked) = asked;
    match change_files(alloc, files, volume, added) {
        Ok(tracks) => of_line(write_added(writer, asked.library, asked.member, tracks)),
        Err(fault) => Err(fault),
    }
}

impl<'a> ImageChange for AddedMember<'a> {
    ghost use Rattle.loaded_folders.specs.MemberLoads.{adding};

    type Answer = u32;

    type Refusal = NewMemberRefusal;

    ghost changing = { λ added. adding added };

    fn change(&self, alloc: Global, image: &mut Image<VolumeFile>) -> Result<u32, NewMemberFault> {
        add_member(alloc, image, self)
    }
}

//! A volume in files that gets a data set and is saved.

ghost use Rattle.std.specs.Prelude.{◌≡◌, ◌≤◌, length, map, OnOk};
ghost use Rattle.counted_io.specs.Streams.{seen_by, IsFlushed};
ghost use Rattle.changed_volumes.specs.Files.{TellsChange};
ghost use Rattle.loaded_sets.specs.Loads.{LoadsSet, loading, loaded_line};

use crate::contents::{LoadedSet, NewSetForm, SourceForm, new_label};
use crate::fault::{LoadFault, LoadRefusal, of_file, refused};
use crate::images::load_image;
use crate::lines::write_loaded;
use changed_volumes::{ChangedVolume, ImageChange, change_files, of_line};
use ckd_image::Image;
use counted_io::Counted;
use dasd_files::VolumeFile;
use dasd_jobs::ImageFiles;
use std::alloc::Global;
use std::io::Write;
use volume_changes::new_set_name;

/// More bytes than a volume has room for: of 65,535 cylinders with 20 heads, whose tracks have 7,294 bytes each.
const MOST_BYTES: usize = 9_560_245_800;

/// A data set that is put onto a volume.
#[derive(Clone, Copy)]
pub struct NewSet<'a> {
    /// Its name.
    pub name: &'a str,
    /// The path of the file that has its blocks or its lines.
    pub path: &'a str,
    /// What that file has.
    pub source: SourceForm,
    /// What its label is to say.
    pub form: NewSetForm,
}

/// Puts a data set onto the volume in files, saves the files that changed, and prints what was loaded. The files of the volume are locked
/// and read whole before, behind the one with the blocks.
///
/// # Errors
///
/// The name is none, before a file is opened. The file with the blocks or those of the volume are not read; the volume does not get the
/// data set; there is no memory; or a file can't be saved: no file is written, and nothing is printed. Or the line can't be written, and
/// the files are saved.
pub fn load_set<F: ImageFiles, W: Write>(
    alloc: Global,
    files: &mut F,
    writer: &mut Counted<W>,
    volume: &ChangedVolume,
    asked: &NewSet,
) -> Result<(), LoadFault>
    ensures loads { LoadsSet result asked.now (map (λ path. path.now) volume.now.paths.now)
        (record {
          opened = F.opened files.old;
          written = F.written files.old;
          printed = seen_by W.contents writer.old;
        })
        (record {
          opened = F.opened files.new;
          written = F.written files.new;
          printed = seen_by W.contents writer.new;
        }) }
    ensures flushed { OnOk result (IsFlushed (seen_by W.contents writer.new)) }
{
    let Some(name) = new_set_name(asked.name) else {
        return Err(refused(LoadRefusal::NoName));
    };
    let bytes = match files.read(alloc, asked.path, MOST_BYTES) {
        Ok(bytes) => bytes,
        Err(fault) => return Err(of_file(fault)),
    };
    let set = LoadedSet {
        name,
        form: asked.form,
        kept: new_label(),
        source: asked.source,
        bytes: bytes.as_slice(),
    };
    load_and_tell(alloc, files, writer, volume, (&set, asked.name))
}

// Puts a data set of a name onto the volume in files, saves those that changed, and prints what was loaded.
fn load_and_tell<F: ImageFiles, W: Write>(
    alloc: Global,
    files: &mut F,
    writer: &mut Counted<W>,
    volume: &ChangedVolume,
    named: (&LoadedSet, &str),
) -> Result<(), LoadFault>
    requires name { length named.1.now ≤ 44 }
    ensures tells { TellsChange result (loading named.entry.0.now) (map (λ path. path.now) volume.now.paths.now)
        (loaded_line named.entry.1.now)
        (record {
          opened = F.opened files.old;
          written = F.written files.old;
          printed = seen_by W.contents writer.old;
        })
        (record {
          opened = F.opened files.new;
          written = F.written files.new;
          printed = seen_by W.contents writer.new;
        }) }
    ensures flushed { OnOk result (IsFlushed (seen_by W.contents writer.new)) }
{
    let (set, name) = named;
    match change_files(alloc, files, volume, set) {
        Ok(tracks) => of_line(write_loaded(writer, name, tracks)),
        Err(fault) => Err(fault),
    }
}

impl<'a> ImageChange for LoadedSet<'a> {
    ghost use Rattle.loaded_sets.specs.Loads.{loading};

    type Answer = u32;

    type Refusal = LoadRefusal;

    ghost changing = { λ set. loading set };

    fn change(&self, alloc: Global, image: &mut Image<VolumeFile>) -> Result<u32, LoadFault> {
        load_image(alloc, image, self)
    }
}

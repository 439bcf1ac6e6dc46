//! A volume in files that gets the data sets of a folder and is saved.

ghost use Rattle.std.specs.Prelude.{◌≡◌, length, map, flat_map, OnOk};
ghost use Rattle.std.specs.String.{string_bytes};
ghost use Rattle.counted_io.specs.Streams.{seen_by, IsFlushed};
ghost use Rattle.changed_volumes.specs.Files.{TellsChange};
ghost use Rattle.loaded_folders.specs.Sets.{file_names, with_files};
ghost use Rattle.loaded_folders.specs.Loads.{LoadsFolder, loading_all};
ghost use Rattle.loaded_folders.specs.Parts.{lines_of, folder_set, TellsRead};

use crate::fault::{FolderFault, FolderRefusal, NO_MEMORY};
use crate::folder::{parse_text, read_files, read_text};
use crate::images::load_all;
use crate::names::file_names;
use crate::sets::{FolderSet, SetLines, sets_of, with_files};
use changed_volumes::{ChangedVolume, ImageChange, change_files, of_line};
use ckd_image::Image;
use counted_io::{Counted, write_flushed};
use dasd_files::VolumeFile;
use dasd_jobs::ImageFiles;
use loaded_sets::SourceForm;
use std::alloc::Global;
use std::io::Write;

/// A folder whose data sets are put onto a volume.
#[derive(Clone, Copy)]
pub struct NewFolder<'a> {
    /// Its path.
    pub folder: &'a str,
    /// What its files have.
    pub source: SourceForm,
}

/// Puts all data sets of a folder onto the volume in files, saves the files that changed, and prints a line for each. The folder has a text,
/// `data_sets.txt`, with a line for each data set and for each entry of its directory; and under the names that an unload of all data
/// sets gives them a file for each data set without a directory and for each member of one that has one. The text is read first and then
/// these files, in the order of its lines; then the files of the volume are locked and read whole. The data sets are put onto the volume
/// in the order of their lines.
///
/// # Errors
///
/// The text can't be read, is longer than 16 MiB, or a line of it is wrong: no other file is opened. The first file of the folder that can't
/// be read is told, before one of the volume is opened. The files of the volume are not read; an entry of a directory leads to no member
/// or to no block, or the volume does not get a data set, of which the first is told; there is no memory; or a file can't be saved: no
/// file is written, and nothing is printed. Or the lines can't be written, and the files are saved.
pub fn load_folder<F: ImageFiles, W: Write>(
    alloc: Global,
    files: &mut F,
    writer: &mut Counted<W>,
    volume: &ChangedVolume,
    asked: &NewFolder,
) -> Result<(), FolderFault>
    ensures loads { LoadsFolder result asked.now (map (λ path. path.now) volume.now.paths.now)
        (record {
          opened = F.opened files.old;
          written = F.written files.old;
          printed = seen_by W.contents writer.old;
        })
        (record {
          opened = F.opened files.new;
          written = F.written files.new;
          printed = seen_by W.contents writer.new;
        }) }
    ensures flushed { OnOk result (IsFlushed (seen_by W.contents writer.new)) }
{
    let text = match read_text(alloc, files, asked.folder) {
        Ok(text) => text,
        Err(fault) => return Err(fault),
    };
    let forms = match parse_text(alloc, text.as_slice()) {
        Ok(forms) => forms,
        Err(fault) => return Err(fault),
    };
    let Ok(lines) = sets_of(alloc, forms.as_slice()) else {
        return Err(NO_MEMORY);
    };
    let Ok(names) = file_names(alloc, lines.as_slice()) else {
        return Err(NO_MEMORY);
    };
    let bytes = match read_files(alloc, files, asked.folder, names.as_slice()) {
        Ok(bytes) => bytes,
        Err(fault) => return Err(fault),
    };
    let read = ReadFolder {
        source: asked.source,
        lines: lines.as_slice(),
        files: bytes.as_slice(),
    };
    load_read(alloc, files, writer, volume, read)
}

/// What was read of a folder: its data sets, and the bytes of their files, one behind another.
#[derive(Clone, Copy)]
struct ReadFolder<'a> {
    source: SourceForm,
    lines: &'a [SetLines<'a>],
    files: &'a [Vec<u8>],
}

// Puts the data sets of a folder onto the volume in files, saves those that changed, and prints the lines that say so.
fn load_read<F: ImageFiles, W: Write>(
    alloc: Global,
    files: &mut F,
    writer: &mut Counted<W>,
    volume: &ChangedVolume,
    read: ReadFolder,
) -> Result<(), FolderFault>
    requires { length read.files.now ≡ length (flat_map file_names (map lines_of read.lines.now)) }
    ensures tells { TellsRead result read.entry.source (with_files (map lines_of read.entry.lines.now) (map (λ f. f.items) read.entry.files.now))
        (map (λ path. path.now) volume.now.paths.now)
        (record {
          opened = F.opened files.old;
          written = F.written files.old;
          printed = seen_by W.contents writer.old;
        })
        (record {
          opened = F.opened files.new;
          written = F.written files.new;
          printed = seen_by W.contents writer.new;
        }) }
    ensures flushed { OnOk result (IsFlushed (seen_by W.contents writer.new)) }
{
    let Ok(sets) = with_files(alloc, read.lines, read.files) else {
        return Err(NO_MEMORY);
    };
    let loaded = LoadedSets {
        source: read.source,
        sets: sets.as_slice(),
    };
    load_and_tell(alloc, files, writer, volume, &loaded)
}

// The data sets of a folder that are put onto a volume.
#[derive(Clone, Copy)]
struct LoadedSets<'a> {
    source: SourceForm,
    sets: &'a [FolderSet<'a>],
}

impl<'a> ImageChange for LoadedSets<'a> {
    ghost use Rattle.std.specs.Prelude.{map};
    ghost use Rattle.loaded_folders.specs.Loads.{loading_all};
    ghost use Rattle.loaded_folders.specs.Parts.{folder_set};

    type Answer = String;

    type Refusal = FolderRefusal;

    ghost changing = { λ loaded. loading_all loaded.source (map folder_set loaded.sets.now) };

    fn change(&self, alloc: Global, image: &mut Image<VolumeFile>) -> Result<String, FolderFault> {
        load_all(alloc, image, self.source, self.sets)
    }
}

// Puts data sets onto the volume in files, saves those that changed, and prints the lines that say so.
fn load_and_tell<F: ImageFiles, W: Write>(
    alloc: Global,
    files: &mut F,
    writer: &mut Counted<W>,
    volume: &ChangedVolume,
    loaded: &LoadedSets,
) -> Result<(), FolderFault>
    ensures tells { TellsChange result (loading_all loaded.now.source (map folder_set loaded.now.sets.now))
        (map (λ path. path.now) volume.now.paths.now) string_bytes
        (record {
          opened = F.opened files.old;
          written = F.written files.old;
          printed = seen_by W.contents writer.old;
        })
        (record {
          opened = F.opened files.new;
          written = F.written files.new;
          printed = seen_by W.contents writer.new;
        }) }
    ensures flushed { OnOk result (IsFlushed (seen_by W.contents writer.new)) }
{
    match change_files(alloc, files, volume, loaded) {
        Ok(lines) => of_line(write_flushed(writer, lines.as_bytes())),
        Err(fault) => Err(fault),
    }
}

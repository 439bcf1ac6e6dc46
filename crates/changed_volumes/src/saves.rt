//! A volume in files that is changed and saved.

ghost use Rattle.std.specs.Prelude.{◌≡◌, map, OnOk};
ghost use Rattle.counted_io.specs.Streams.{seen_by, IsFlushed};
ghost use Rattle.volume_changes.specs.Volumes.{relabelled};
ghost use Rattle.changed_volumes.specs.Changes.{changing};
ghost use Rattle.changed_volumes.specs.Files.{plan_of, TellsChange, RenamesSet, DeletesSet, relabelled_line};

use crate::changes::change_files;
use crate::deletions::SetDeletion;
use crate::fault::{ChangeFault, of_line};
use crate::images::VolumeChange;
use crate::lines::{write_relabelled, write_renamed};
use counted_io::{Counted, write_flushed};
use dasd_extract::data_set_name;
use dasd_jobs::{ImageFiles, SavePlan};
use std::alloc::Global;
use std::io::Write;
use volume_changes::{ChangeRefusal, LabelFields, new_set_name};

/// A volume in files, and how they are saved.
#[derive(Clone, Copy)]
pub struct ChangedVolume<'a> {
    /// The paths of its files, in their order.
    pub paths: &'a [&'a str],
    /// Whether a new file takes the place of each that changed; if not, each keeps its place.
    pub replaces: bool,
}

/// The names of a data set that is renamed.
#[derive(Clone, Copy)]
pub struct NewName<'a> {
    /// The one that it has.
    pub old: &'a str,
    /// The one that it gets.
    pub new: &'a str,
}

/// Gives a data set of the volume in files another name, saves the files that changed, and prints what was renamed. The files are locked and
/// read whole before.
///
/// # Errors
///
/// The new name is none, or no volume has the old one, before a file is opened. The files are not read; the volume has no label, no table of
/// contents or no data set of the old name, or one of the new name; there is no memory; or a file can't be saved:
/// no file is written, and nothing is printed. Or the line can't be written, and the files are saved.
pub fn rename_data_set<F: ImageFiles, W: Write>(
    alloc: Global,
    files: &mut F,
    writer: &mut Counted<W>,
    volume: &ChangedVolume,
    names: &NewName,
) -> Result<(), ChangeFault>
    ensures renames { RenamesSet result (map (λ path. path.now) volume.now.paths.now) names.now.old.now names.now.new.now
        (record {
          opened = F.opened files.old;
          written = F.written files.old;
          printed = seen_by W.contents writer.old;
        })
        (record {
          opened = F.opened files.new;
          written = F.written files.new;
          printed = seen_by W.contents writer.new;
        }) }
    ensures flushed { OnOk result (IsFlushed (seen_by W.contents writer.new)) }
{
    let Some(new) = new_set_name(names.new) else {
        return Err(ChangeFault::Refused(ChangeRefusal::NoName));
    };
    let Some(old) = data_set_name(names.old) else {
        return Err(ChangeFault::Refused(ChangeRefusal::NoDataSet));
    };
    match change_files(alloc, files, volume, &VolumeChange::Rename(old, new)) {
        Ok(_) => of_line(write_renamed(writer, names)),
        Err(fault) => Err(fault),
    }
}

/// Writes other fields into the label of the volume in files, and a new serial number into the format 1 blocks of the data sets that began on
/// it; saves the files that changed, and prints what was relabelled. The files are locked and read whole before.
///
/// # Errors
///
/// The files are not read, the volume has no label, there is no memory, or a file can't be saved: no file is written, and nothing is
/// printed. Or the line can't be written, and the files are saved.
pub fn relabel_volume<F: ImageFiles, W: Write>(
    alloc: Global,
    files: &mut F,
    writer: &mut Counted<W>,
    volume: &ChangedVolume,
    fields: LabelFields,
) -> Result<(), ChangeFault>
    ensures relabels { TellsChange result (changing (relabelled fields)) (map (λ path. path.now) volume.now.paths.now) relabelled_line
        (record {
          opened = F.opened files.old;
          written = F.written files.old;
          printed = seen_by W.contents writer.old;
        })
        (record {
          opened = F.opened files.new;
          written = F.written files.new;
          printed = seen_by W.contents writer.new;
        }) }
    ensures flushed { OnOk result (IsFlushed (seen_by W.contents writer.new)) }
{
    let geometry = change_files(alloc, files, volume, &VolumeChange::Relabel(fields))?;
    of_line(write_relabelled(writer, geometry))
}

/// Deletes a data set of the volume in files: its control blocks become free, and its tracks free again where the volume keeps its free tracks;
/// what stands on them stays. Of several of the name the first in the order of the table of contents is deleted. The files that changed are
/// saved; what was deleted is printed, and on a second line which tracks it had, by its extents in their order, if it had any. The files are
/// locked and read whole before.
///
/// # Errors
///
/// No volume has the name, before a file is opened. The files are not read; the volume has no label or no table of contents, something is
/// wrong with it, it has no data set of the name, its control blocks have no room for the runs of its free tracks, or it would not say behind
/// the deletion what it should; there is no memory; or a file can't be saved: no file is written, and nothing is printed. Or the line can't
/// be written, and the files are saved.
pub fn delete_data_set<F: ImageFiles, W: Write>(
    alloc: Global,
    files: &mut F,
    writer: &mut Counted<W>,
    volume: &ChangedVolume,
    name: &str,
) -> Result<(), ChangeFault>
    ensures deletes { DeletesSet result (map (λ path. path.now) volume.now.paths.now) name.now
        (record {
          opened = F.opened files.old;
          written = F.written files.old;
          printed = seen_by W.contents writer.old;
        })
        (record {
          opened = F.opened files.new;
          written = F.written files.new;
          printed = seen_by W.contents writer.new;
        }) }
    ensures flushed { OnOk result (IsFlushed (seen_by W.contents writer.new)) }
{
    let Some(of_set) = data_set_name(name) else {
        return Err(ChangeFault::Refused(ChangeRefusal::NoDataSet));
    };
    match change_files(alloc, files, volume, &SetDeletion { name, of_set }) {
        Ok(text) => of_line(write_flushed(writer, text.as_bytes())),
        Err(fault) => Err(fault),
    }
}

/// How the files of a volume are saved.
pub(crate) fn save_plan(volume: &ChangedVolume) -> SavePlan
    ensures { result ≡ plan_of volume.now.replaces }
{
    if volume.replaces {
        SavePlan::Replaced
    } else {
        SavePlan::InPlace
    }
}

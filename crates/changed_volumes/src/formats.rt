//! The format of a volume with a label.

ghost use Rattle.std.specs.Prelude.{◌≡◌, [], false, OnOk};
ghost use Rattle.counted_io.specs.Streams.{seen_by, IsFlushed};
ghost use Rattle.ckd_track.specs.Geometry.{new_geometry};
ghost use Rattle.dasd_jobs.specs.Lines.{formatted_line};
ghost use Rattle.new_labels.specs.Labels.{Fits, table_fault_of};
ghost use Rattle.changed_volumes.specs.LabelledFiles.{labelled_file};
ghost use Rattle.changed_volumes.specs.Formats.{FormatsLabelled, WritesLabelled};

use crate::labelled_writes::write_labelled;
use ckd_track::{DriveModel, Geometry};
use counted_io::{Counted, WriteFault};
use dasd_jobs::{
    ImageFiles, JobFault, NewVolume, Progress, Stage, begin_volume, of_write, write_formatted,
};
use dasd_volumes::is_large;
use new_labels::{NewLabel, TableFault, table_fault};
use std::alloc::Global;
use std::io::Write;
use thiserror::Error;

/// What is formatted: a new volume with a label, and whether it may take the place of a file.
#[derive(Clone, Copy)]
pub struct LabelledVolume<'a> {
    /// The path of its image.
    pub path: &'a str,
    /// Its drive.
    pub model: DriveModel,
    /// Its cylinders: at least one.
    pub cylinders: u16,
    /// Whether a file at the path is replaced.
    pub replaces: bool,
    /// What its label says, and where its table of contents is.
    pub label: NewLabel,
}

/// Why a volume with a label was not formatted, or not to the end.
#[derive(Clone, Copy, Debug, Error)]
pub enum FormatFault {
    /// The volume can't have such a table of contents.
    #[error(transparent)]
    Table(TableFault),
    /// Its file or the line can't be written.
    #[error(transparent)]
    Job(JobFault),
}

/// Writes a new image with a label and an empty table of contents to a path, in the place of what the file held, and prints what was
/// formatted. Of a large volume it shows what it is about, and clears that before it prints.
///
/// # Errors
///
/// The volume can't have the table there, before a file is begun; no memory for the path, or the file can't be written: it then holds what
/// it held, and nothing is printed. Or a write of the line failed, or its flush, which is a write fault: the image is at its path.
pub fn format_labelled<F: ImageFiles, W: Write, P: Progress>(
    alloc: Global,
    files: &mut F,
    writer: &mut Counted<W>,
    progress: &mut P,
    volume: &LabelledVolume,
) -> Result<(), FormatFault>
    ensures formats { FormatsLabelled result volume.now.path.now (new_geometry volume.now.model volume.now.cylinders) volume.now.label
        (F.written files.old) (F.written files.new) (seen_by W.contents writer.old) (seen_by W.contents writer.new) }
    ensures cleared { P.is_shown progress.old ≡ false → P.is_shown progress.new ≡ false }
    ensures flushed { OnOk result (IsFlushed (seen_by W.contents writer.new)) }
{
    let geometry = Geometry::new(volume.model, volume.cylinders);
    if let Some(fault) = table_fault(geometry, &volume.label) {
        return Err(FormatFault::Table(fault));
    }
    let written = write_shown(alloc, files, progress, volume);
    progress.clear();
    if let Err(fault) = written {
        return Err(FormatFault::Job(fault));
    }
    match write_formatted(writer, progress, without_label(volume)) {
        Ok(()) => Ok(()),
        Err(WriteFault) => Err(FormatFault::Job(JobFault::Write)),
    }
}

// The same volume, as one without a label.
fn without_label<'a>(volume: &LabelledVolume<'a>) -> NewVolume<'a>
    ensures path { result.path ≡ volume.now.path }
    ensures model { result.model ≡ volume.now.model }
    ensures cylinders { result.cylinders ≡ volume.now.cylinders }
    ensures replaces { result.replaces ≡ volume.now.replaces }
{
    NewVolume {
        path: volume.path,
        model: volume.model,
        cylinders: volume.cylinders,
        replaces: volume.replaces,
    }
}

// Writes a new image to a path, and shows so of a large volume.
fn write_shown<F: ImageFiles, P: Progress>(
    alloc: Global,
    files: &mut F,
    progress: &mut P,
    volume: &LabelledVolume,
) -> Result<(), JobFault>
    requires { Fits (new_geometry volume.now.model volume.now.cylinders) volume.now.label }
    ensures { WritesLabelled result volume.now.path.now (new_geometry volume.now.model volume.now.cylinders) volume.now.label
        (F.written files.old) (F.written files.new) }
{
    let shows = is_large(Geometry::new(volume.model, volume.cylinders));
    if shows {
        progress.show(Stage::Formatting(volume.cylinders));
    }
    let draft = begin_volume(alloc, files, without_label(volume))?;
    if shows {
        progress.show(Stage::Writing(volume.cylinders));
    }
    write_new(files, draft, volume)
}

// Writes a new image into a file that was begun, and puts that into its place.
fn write_new<F: ImageFiles>(
    files: &mut F,
    draft: F::Draft,
    volume: &LabelledVolume,
) -> Result<(), JobFault>
    requires empty { F.Draft.content draft ≡ [] }
    requires fits { Fits (new_geometry volume.now.model volume.now.cylinders) volume.now.label }
    ensures { WritesLabelled result volume.now.path.now (new_geometry volume.now.model volume.now.cylinders) volume.now.label
        (F.written files.old) (F.written files.new) }
{
    let mut draft = draft;
    let geometry = Geometry::new(volume.model, volume.cylinders);
    match write_labelled(&mut draft, geometry, &volume.label) {
        Ok(()) => match files.put(volume.path, draft) {
            Ok(()) => {
                files.settle();
                Ok(())
            }
            Err(fault) => Err(of_write(fault)),
        },
        Err(_) => Err(JobFault::Write),
    }
}

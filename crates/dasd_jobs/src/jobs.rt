//! Formatting, listing and checking.

ghost use Rattle.std.specs.Prelude.{◌≡◌, [], false, map, IfOk, IfErr, OnOk};
ghost use Rattle.counted_io.specs.Streams.{seen_by, WritesWhole, IsFlushed};
ghost use Rattle.ckd_track.specs.Model.{slot_size_of};
ghost use Rattle.ckd_image.specs.Image.{new_file};
ghost use Rattle.dasd_jobs.specs.Causes.{volume_fault};
ghost use Rattle.dasd_jobs.specs.Lines.{formatted_line};
ghost use Rattle.dasd_volumes.specs.Checks.{check_text, NumberIn};
ghost use Rattle.dasd_volumes.specs.Listing.{volume_text};
ghost use Rattle.dasd_jobs.specs.Printed.{CountsLines, PrintsFiles};
ghost use Rattle.dasd_jobs.specs.Sources.{OfVolume};
ghost use Rattle.dasd_jobs.specs.Written.{format_plan, WritesNew, Formats};

use crate::faults::{JobFault, of_write};
use crate::files::{ImageFiles, SavePlan};
use crate::opened::open_volume;
use arrayvec::ArrayString;
use ckd_image::{ImageStore, StoreFault, image_len, write_new_volume};
use ckd_track::{DriveModel, Geometry};
use counted_io::{Counted, WriteFault, put_decimal, write_flushed};
use dasd_volumes::{Progress, Stage, VolumeFault, is_large};
use std::alloc::Global;
use std::io::Write;

/// What is formatted: a new volume, and whether it may take the place of a file.
#[derive(Clone, Copy)]
pub struct NewVolume<'a> {
    /// The path of its image.
    pub path: &'a str,
    /// Its drive.
    pub model: DriveModel,
    /// Its cylinders: at least one.
    pub cylinders: u16,
    /// Whether a file at the path is replaced.
    pub replaces: bool,
}

/// Writes a new image to a path, slot by slot, in the place of what the file held, and prints what was formatted. Of a large volume
/// it shows what it is about, and clears that before it prints.
///
/// # Errors
///
/// No memory for the path, or the file can't be written: it then holds what it held, and nothing is printed. Or a write of the line
/// failed, or its flush, which is a write fault: the image is at its path.
pub fn format_file<F: ImageFiles, W: Write, P: Progress>(
    alloc: Global,
    files: &mut F,
    writer: &mut Counted<W>,
    progress: &mut P,
    volume: NewVolume,
) -> Result<(), JobFault>
    ensures formats { Formats result volume.entry.path.now volume.entry.model volume.entry.cylinders (F.written files.old) (F.written files.new)
        (seen_by W.contents writer.old) (seen_by W.contents writer.new) }
    ensures cleared { P.is_shown progress.new ≡ false }
    ensures flushed { OnOk result (IsFlushed (seen_by W.contents writer.new)) }
{
    let written = write_shown(alloc, files, progress, volume);
    progress.clear();
    written?;
    match write_formatted(writer, progress, volume) {
        Ok(()) => Ok(()),
        Err(WriteFault) => Err(JobFault::Write),
    }
}

/// Writes the line that says what was formatted, and flushes it. Nothing is shown meanwhile.
///
/// # Errors
///
/// A write failed, or the flush.
pub fn write_formatted<W: Write, P: Progress>(
    writer: &mut Counted<W>,
    _progress: &P,
    volume: NewVolume,
) -> Result<(), WriteFault>
    requires { P.is_shown _progress.now ≡ false }
    ensures written { WritesWhole result (seen_by W.contents writer.old) (seen_by W.contents writer.new)
        (formatted_line volume.entry.model volume.entry.cylinders) }
    ensures flushed { OnOk result (IsFlushed (seen_by W.contents writer.new)) }
{
    let mut line: ArrayString<48> = ArrayString::new();
    line.push_str("formatted ");
    put_decimal(&mut line, u32::from(volume.model.number()));
    line.push_str(" ");
    put_decimal(&mut line, u32::from(volume.cylinders));
    line.push_str(" cylinders\n");
    write_flushed(writer, line.as_bytes())
}

// Writes a new image to a path, and shows so of a large volume.
fn write_shown<F: ImageFiles, P: Progress>(
    alloc: Global,
    files: &mut F,
    progress: &mut P,
    volume: NewVolume,
) -> Result<(), JobFault>
    ensures { WritesNew result volume.entry.path.now volume.entry.model volume.entry.cylinders (F.written files.old) (F.written files.new) }
{
    let shows = is_large(Geometry::new(volume.model, volume.cylinders));
    if shows {
        progress.show(Stage::Formatting(volume.cylinders));
    }
    let draft = begin_volume(alloc, files, volume)?;
    if shows {
        progress.show(Stage::Writing(volume.cylinders));
    }
    write_new(files, draft, volume)
}

/// Begins the file of a new volume for its path. A file there that is as long stays the file that it is.
///
/// # Errors
///
/// As of `ImageFiles::begin`; nothing is written.
pub fn begin_volume<F: ImageFiles>(
    alloc: Global,
    files: &mut F,
    volume: NewVolume,
) -> Result<F::Draft, JobFault>
    ensures kept { F.written files.new ≡ F.written files.old }
    ensures empty { IfOk result (λ draft. F.Draft.content draft ≡ []) }
{
    files.plan_saving(format_plan(volume.model, volume.cylinders));
    match files.begin(alloc, volume.path, volume.replaces) {
        Ok(draft) => Ok(draft),
        Err(fault) => Err(of_write(fault)),
    }
}

// How a new volume is put at its path.
fn format_plan(model: DriveModel, cylinders: u16) -> SavePlan
    ensures { result ≡ format_plan model cylinders }
{
    SavePlan::SameLength(image_len(model, cylinders))
}

// Writes a new image into a file that was begun, and puts that into its place.
fn write_new<F: ImageFiles>(
    files: &mut F,
    draft: F::Draft,
    volume: NewVolume,
) -> Result<(), JobFault>
    requires { F.Draft.content draft ≡ [] }
    ensures { WritesNew result volume.entry.path.now volume.entry.model volume.entry.cylinders (F.written files.old) (F.written files.new) }
{
    let mut draft = draft;
    match write_volume(&mut draft, Geometry::new(volume.model, volume.cylinders)) {
        Ok(()) => match files.put(volume.path, draft) {
            Ok(()) => {
                files.settle();
                Ok(())
            }
            Err(fault) => Err(of_write(fault)),
        },
        Err(_) => Err(JobFault::Write),
    }
}

// Writes a new volume into a file without bytes.
fn write_volume<D: ImageStore>(draft: &mut D, geometry: Geometry) -> Result<(), StoreFault>
    requires empty { D.content draft.old ≡ [] }
    requires size { geometry.track_size ≡ slot_size_of geometry.model }
    ensures { OnOk result (D.content draft.new ≡ new_file geometry) }
{
    write_new_volume(draft, geometry)
}

/// Prints the volume of the image that these files hold, in their order, which is read slot by slot. No file is written.
///
/// # Errors
///
/// The first file that can't be read, or why the files hold no image, or no memory, before a line is printed; or what stopped the
/// listing, behind the lines that are printed. A write fault comes exactly where a write failed, or the last flush.
pub fn list_files<F: ImageFiles, W: Write>(
    alloc: Global,
    files: &mut F,
    writer: &mut Counted<W>,
    paths: &[&str],
) -> Result<(), JobFault>
    ensures kept { F.written files.new ≡ F.written files.old }
    ensures lines { PrintsFiles result volume_text (map (λ path. path.now) paths.now) (F.opened files.old) (F.opened files.new)
        (seen_by W.contents writer.old) (seen_by W.contents writer.new) }
    ensures writes { CountsLines result (seen_by W.contents writer.old) (seen_by W.contents writer.new) }
    ensures none { IfErr result (λ e. e ≡ JobFault.OutOfMemory → writer.new ≡ writer.old) }
    ensures flushed { OnOk result (IsFlushed (seen_by W.contents writer.new)) }
{
    let mut volume = open_volume(alloc, files, paths, false)?;
    match dasd_volumes::list(alloc, &mut volume, writer) {
        Ok(()) => Ok(()),
        Err(fault) => Err(of_volume(fault)),
    }
}

/// Prints the tracks of the image that these files hold which can't be read, and answers how many there are. The image is read
/// slot by slot. Of a large volume it shows each cylinder, and clears that before it ends. No file is written.
///
/// # Errors
///
/// As `list_files`; of the flushes each may fail.
pub fn check_files<F: ImageFiles, W: Write, P: Progress>(
    alloc: Global,
    files: &mut F,
    writer: &mut Counted<W>,
    progress: &mut P,
    paths: &[&str],
) -> Result<u32, JobFault>
    ensures kept { F.written files.new ≡ F.written files.old }
    ensures number { IfOk result (λ n. OfVolume false (map (λ path. path.now) paths.now) (F.opened files.old) (F.opened files.new) (λ v. NumberIn v n)) }
    ensures lines { PrintsFiles result check_text (map (λ path. path.now) paths.now) (F.opened files.old) (F.opened files.new)
        (seen_by W.contents writer.old) (seen_by W.contents writer.new) }
    ensures writes { CountsLines result (seen_by W.contents writer.old) (seen_by W.contents writer.new) }
    ensures none { IfErr result (λ e. e ≡ JobFault.OutOfMemory → writer.new ≡ writer.old) }
    ensures flushed { OnOk result (IsFlushed (seen_by W.contents writer.new)) }
{
    let mut volume = open_volume(alloc, files, paths, false)?;
    match dasd_volumes::check(alloc, &mut volume, writer, progress) {
        Ok(findings) => Ok(findings),
        Err(fault) => Err(of_volume(fault)),
    }
}

// What a fault over the files of a volume is to a job: a slot that can't be read is a file that can't be.
fn of_volume(fault: VolumeFault) -> JobFault
    ensures { result ≡ volume_fault fault }
{
    match fault {
        VolumeFault::OutOfMemory => JobFault::OutOfMemory,
        VolumeFault::Store => JobFault::Read,
        VolumeFault::Write => JobFault::Write,
    }
}

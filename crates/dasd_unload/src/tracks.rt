//! The tracks of a data set, unloaded from a volume as they stand.

ghost use Rattle.std.specs.Prelude.{◌≡◌, ◌≢◌, false, true, Some, Ok, IfOk, IfErr, OnOk, OnErr};
ghost use Rattle.std.specs.Option.{option_copied};
ghost use Rattle.counted_io.specs.Streams.{seen_by, IsFlushed};
ghost use Rattle.dasd_extract.specs.Raw.{CopiesTracks};
ghost use Rattle.dasd_unload.specs.Unloads.{CountsPrinted, outcome, is_of_job, leaves_a_file};
ghost use Rattle.dasd_unload.specs.Asked.{SetOf, CountsSet};
ghost use Rattle.dasd_unload.specs.Tracks.{tracks_by, PutsTracks, PrintsFirstTracks, UnloadsTracks, StopsTracks, WhyNoTracks, TracksOrTell};

use crate::fault::{UnloadFault, of_volume};
use crate::parts::{End, are_all_tracks, end_of};
use crate::sets::find_set;
use counted_io::{Counted, WriteFault, flush_all};
use dasd_extract::{Stop, copy_tracks};
use dasd_jobs::{ImageFiles, JobFault, SlotReader, begin_file, put_file};
use std::alloc::Global;
use std::io::Write;
use volume_contents::DataSet;
use volume_labels::Extent;

/// A data set whose tracks are to be unloaded.
#[derive(Clone, Copy)]
pub struct WantedTracks<'a> {
    /// Its name.
    pub name: &'a str,
    /// The path of the new file for them; none is the writer.
    pub target: Option<&'a str>,
}

/// Unloads the tracks of a data set from a volume, in their order and with all bytes of their slots, to the writer or to a new file.
/// What ends before the extents do is written as far as it goes.
///
/// # Errors
///
/// There is no such data set; a file is at the path; or a fault stopped it: then no file is there that was not. Or the tracks were
/// unloaded, and are not all.
pub fn unload_tracks<F: ImageFiles, V: SlotReader, W: Write>(
    alloc: Global,
    files: &mut F,
    volume: &mut V,
    writer: &mut Counted<W>,
    set: WantedTracks,
) -> Result<(), UnloadFault>
    ensures unloaded { TracksOrTell result (tracks_by set.entry) (V.volume volume.old)
        (outcome (F.written files.old) (seen_by W.contents writer.old)) (outcome (F.written files.new) (seen_by W.contents writer.new)) }
    ensures writes { CountsSet result (option_copied set.entry.target) (seen_by W.contents writer.old) (seen_by W.contents writer.new) }
    ensures same { F.opened files.new ≡ F.opened files.old }
    ensures kept { IfErr result (λ e. leaves_a_file e ≡ false → F.written files.new ≡ F.written files.old) }
{
    match unload_from(alloc, files, volume, writer, set) {
        Ok(end) if are_all_tracks(end) => Ok(()),
        Ok(end) => Err(UnloadFault::NotWhole(end)),
        Err(fault) => Err(fault),
    }
}

// Unloads the tracks of a data set from a volume, and says where they end, why, and which part of it they are.
fn unload_from<F: ImageFiles, V: SlotReader, W: Write>(
    alloc: Global,
    files: &mut F,
    volume: &mut V,
    writer: &mut Counted<W>,
    set: WantedTracks,
) -> Result<End, UnloadFault>
    ensures done { IfOk result (UnloadsTracks (tracks_by set.entry) (V.volume volume.old)
        (outcome (F.written files.old) (seen_by W.contents writer.old)) (outcome (F.written files.new) (seen_by W.contents writer.new))) }
    ensures why { IfErr result (λ e. WhyNoTracks e (tracks_by set.entry) (V.volume volume.old)) }
    ensures front { IfErr result (λ e. StopsTracks e (tracks_by set.entry) (V.volume volume.old)
        (seen_by W.contents writer.old) (seen_by W.contents writer.new)) }
    ensures writes { CountsSet result (option_copied set.entry.target) (seen_by W.contents writer.old) (seen_by W.contents writer.new) }
    ensures same { F.opened files.new ≡ F.opened files.old }
    ensures kept { OnErr result (F.written files.new ≡ F.written files.old) }
{
    let found = match find_named(alloc, volume, set) {
        Ok(found) => found,
        Err(fault) => return Err(fault),
    };
    let extents = found.extents.as_slice();
    match set.target {
        Some(path) => match put(alloc, files, volume, path, extents) {
            Ok(stop) => Ok(end_of(&found.block, stop)),
            Err(fault) => Err(fault),
        },
        None => match print(alloc, volume, writer, extents) {
            Ok(stop) => Ok(end_of(&found.block, stop)),
            Err(fault) => Err(fault),
        },
    }
}

// The data set whose tracks are asked for.
fn find_named<V: SlotReader>(
    alloc: Global,
    volume: &mut V,
    set: WantedTracks,
) -> Result<DataSet, UnloadFault>
    ensures found { IfOk result (λ found. SetOf set.entry.name.now (V.volume volume.old) (Some found)) }
    ensures why { IfErr result (λ e. WhyNoTracks e (tracks_by set.entry) (V.volume volume.old)) }
    ensures reads { IfErr result (λ e. e ≢ UnloadFault.Job JobFault.Write) }
    ensures kept { V.volume volume.new ≡ V.volume volume.old }
{
    match find_set(alloc, volume, set.name) {
        Ok(Some(found)) => Ok(found),
        Ok(None) => Err(UnloadFault::NoDataSet),
        Err(fault) => Err(fault),
    }
}

// Writes the tracks of these extents to the writer, and leaves none of them held back.
fn print<V: SlotReader, W: Write>(
    alloc: Global,
    volume: &mut V,
    writer: &mut Counted<W>,
    extents: &[Extent],
) -> Result<Stop, UnloadFault>
    ensures tracks { IfOk result (λ stop. CopiesTracks extents.now (V.volume volume.old) (Ok stop)
        (seen_by W.contents writer.old) (seen_by W.contents writer.new)) }
    ensures front { OnErr result (PrintsFirstTracks extents.now (V.volume volume.old)
        (seen_by W.contents writer.old) (seen_by W.contents writer.new)) }
    ensures writes { CountsPrinted result (seen_by W.contents writer.old) (seen_by W.contents writer.new) }
    ensures flushed { OnOk result (IsFlushed (seen_by W.contents writer.new)) }
    ensures fault { IfErr result (λ e. is_of_job e ≡ true) }
{
    let stop = match copy_tracks(alloc, volume, writer, extents) {
        Ok(stop) => stop,
        Err(fault) => return Err(of_volume(fault)),
    };
    match flush_all(writer) {
        Ok(()) => Ok(stop),
        Err(WriteFault) => Err(UnloadFault::Job(JobFault::Write)),
    }
}

// Puts the tracks of these extents into a new file at a path, whose name is on the disk behind this.
fn put<F: ImageFiles, V: SlotReader>(
    alloc: Global,
    files: &mut F,
    volume: &mut V,
    path: &str,
    extents: &[Extent],
) -> Result<Stop, UnloadFault>
    ensures file { IfOk result (PutsTracks path.now extents.now (V.volume volume.old) (F.written files.old) (F.written files.new)) }
    ensures kept { OnErr result (F.written files.new ≡ F.written files.old) }
    ensures same { F.opened files.new ≡ F.opened files.old }
    ensures fault { IfErr result (λ e. is_of_job e ≡ true) }
{
    match copy_to(alloc, files, volume, path, extents) {
        Ok(stop) => {
            files.settle();
            Ok(stop)
        }
        Err(fault) => Err(fault),
    }
}

// Writes the tracks of these extents to a new file. With a fault nothing is there that was not.
fn copy_to<F: ImageFiles, V: SlotReader>(
    alloc: Global,
    files: &mut F,
    volume: &mut V,
    path: &str,
    extents: &[Extent],
) -> Result<Stop, UnloadFault>
    ensures file { IfOk result (PutsTracks path.now extents.now (V.volume volume.old) (F.written files.old) (F.written files.new)) }
    ensures kept { OnErr result (F.written files.new ≡ F.written files.old) }
    ensures same { F.opened files.new ≡ F.opened files.old }
    ensures fault { IfErr result (λ e. is_of_job e ≡ true) }
{
    let new = match begin_file(alloc, files, path) {
        Ok(new) => new,
        Err(fault) => return Err(UnloadFault::Job(fault)),
    };
    let mut writer = Counted::new(new);
    let stop = match copy_tracks(alloc, volume, &mut writer, extents) {
        Ok(stop) => stop,
        Err(fault) => return Err(of_volume(fault)),
    };
    let written = writer.into_inner();
    match put_file(files, path, written) {
        Ok(()) => Ok(stop),
        Err(fault) => Err(UnloadFault::Job(fault)),
    }
}

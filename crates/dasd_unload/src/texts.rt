//! The text of a folder: what the labels and the directories of a volume say, in the file `data_sets.txt`.

ghost use Rattle.std.specs.Prelude.{◌≡◌, ◌≢◌, IfOk, IfErr, OnOk, true};
ghost use Rattle.std.specs.List.{flat_map};
ghost use Rattle.dasd_unload.specs.Unloads.{is_of_job};
ghost use Rattle.dasd_unload.specs.Described.{set_forms, block_forms, IsDescribed, AddsText, PutsText};

use crate::entries::{read_blocks, write_library};
use crate::fault::{NO_MEMORY, UnloadFault};
use crate::forms::write_set;
use crate::parts::is_partitioned;
use counted_io::{Counted, WriteFault, write_whole};
use dasd_extract::directory_of;
use dasd_jobs::{ImageFiles, JobFault, SlotReader, begin_file, put_file};
use std::alloc::Global;
use volume_contents::{Block, DataSet, data_set_of, is_data_set};

// What the text says of a data set goes to its end.
fn describe_set<V: SlotReader>(
    alloc: Global,
    volume: &mut V,
    text: &mut Vec<u8>,
    set: &DataSet,
) -> Result<(), UnloadFault>
    ensures text { OnOk result (AddsText (V.volume volume.old) (set_forms set.now.block set.now.extents.items) text.old.items text.new.items) }
    ensures fault { IfErr result (λ e. is_of_job e ≡ true) }
    ensures kept { V.volume volume.new ≡ V.volume volume.old }
{
    if !is_partitioned(&set.block) {
        return match write_set(alloc, text, &set.block, set.extents.as_slice()) {
            Ok(()) => Ok(()),
            Err(_) => Err(NO_MEMORY),
        };
    }
    let bytes = read_blocks(alloc, volume, directory_of(set.extents.as_slice()))?;
    write_library(alloc, volume, text, set, bytes.as_slice())
}

// What the text says of the data set of a control block goes to its end, if it is one's.
fn describe_block<V: SlotReader>(
    alloc: Global,
    volume: &mut V,
    text: &mut Vec<u8>,
    blocks: &[Block],
    block: &Block,
) -> Result<(), UnloadFault>
    ensures text { OnOk result (AddsText (V.volume volume.old) (block_forms blocks.now block.now) text.old.items text.new.items) }
    ensures fault { IfErr result (λ e. is_of_job e ≡ true) }
    ensures kept { V.volume volume.new ≡ V.volume volume.old }
{
    if !is_data_set(block.kind) {
        return Ok(());
    }
    let Ok(set) = data_set_of(alloc, blocks, block) else {
        return Err(NO_MEMORY);
    };
    describe_set(alloc, volume, text, &set)
}

/// The text of the data sets of these control blocks.
///
/// # Errors
///
/// There is no memory for it, or a read fails.
pub(crate) fn describe<V: SlotReader>(
    alloc: Global,
    volume: &mut V,
    blocks: &[Block],
) -> Result<Vec<u8>, UnloadFault>
    ensures text { IfOk result (λ text. IsDescribed (V.volume volume.old) blocks.now text.items) }
    ensures fault { IfErr result (λ e. is_of_job e ≡ true) }
    ensures kept { V.volume volume.new ≡ V.volume volume.old }
{
    let mut text = Vec::new(alloc);
    for block in blocks {
        describe_block(alloc, volume, &mut text, blocks, block)?;
    }
    Ok(text)
}

/// Puts a text into a new file at a path.
///
/// # Errors
///
/// A file is at the path, or the host can't do it; or there is no memory: nothing is there that was not.
pub(crate) fn put_text<F: ImageFiles>(
    alloc: Global,
    files: &mut F,
    path: &str,
    text: &[u8],
) -> Result<(), UnloadFault>
    ensures file { PutsText result path.now text.now (F.written files.old) (F.written files.new) }
    ensures same { F.opened files.new ≡ F.opened files.old }
    ensures fault { IfErr result (λ e. is_of_job e ≡ true) }
{
    let new = match begin_file(alloc, files, path) {
        Ok(new) => new,
        Err(fault) => return Err(UnloadFault::Job(fault)),
    };
    let mut writer = Counted::new(new);
    if let Err(WriteFault) = write_whole(&mut writer, text) {
        return Err(UnloadFault::Job(JobFault::Write));
    }
    match put_file(files, path, writer.into_inner()) {
        Ok(()) => Ok(()),
        Err(fault) => Err(UnloadFault::Job(fault)),
    }
}

//! Records are written and read.

use crate::console::{Hex, run, show};
use crate::programs::{READ_DATA, store_search, store_two_writes};
use crate::volumes::record_1_in;
use anyhow::Result;
use ckd_image::MemoryStore;
use s360_channel::Channel;

/// Two records are written on a new track, and the second one is found by its identifier and read.
pub(crate) fn write_and_read(rt: &HostRuntime, channel: &mut Channel<MemoryStore>) -> Result<()> {
    store_two_writes(channel)?;
    run(rt, channel, "two records are written", 0x190)?;
    show_file(rt, channel)?;
    read(rt, channel, "record 2 is read", 2)
}

/// A record of the first track is found and read, and its eight bytes are shown.
pub(crate) fn read(
    rt: &HostRuntime,
    channel: &mut Channel<MemoryStore>,
    name: &str,
    record: u8,
) -> Result<()> {
    store_search(channel, record, READ_DATA, 0x700)?;
    run(rt, channel, name, 0x190)?;
    show(rt, channel, 0x700, 8)
}

// The file of the drive's image is lent while no program runs: what was written is there as soon as its program has ended.
fn show_file(rt: &HostRuntime, channel: &Channel<MemoryStore>) -> Result<()> {
    if let Some(image) = channel.image(0x90) {
        if let Some(file) = image.store(0) {
            println!(rt; "  record 1 in the file: {}", Hex(record_1_in(file)))?;
        }
    }
    Ok(())
}

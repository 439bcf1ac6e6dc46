//! Stores that fail, and how that is reported.

use crate::console::{Hex, code_of, run, show};
use crate::programs::{READ_DATA, store_search, store_sense, store_two_writes};
use crate::volumes::{attach, new_channel, new_volume};
use anyhow::{Context, Result};
use ckd_image::{FailingStore, Image};
use s360_channel::Channel;
use std::alloc::Global;

/// A channel with one drive, the third call of whose store fails: the first is the read of its header, the second the load of a track,
/// and the third its save.
fn failing_channel(alloc: Global) -> Result<Channel<FailingStore>> {
    let mut channel = new_channel(alloc)?;
    attach(alloc, &mut channel, 0x90, failing_volume(alloc)?)?;
    Ok(channel)
}

// A new volume in such a store.
fn failing_volume(alloc: Global) -> Result<Image<FailingStore>> {
    let mut files = new_volume(alloc, 2)?.into_stores();
    let file = files.pop().flatten().context("no file")?;
    match Image::mount(FailingStore::new(file, 3, false)) {
        Ok(image) => Ok(image),
        Err((fault, _store)) => Err(fault.into()),
    }
}

/// The save at a program's end fails: unit check, and equipment check in the sense bytes. The track holds the front of what was written,
/// which here ends within the end mark: it can't be read until it is written anew.
pub(crate) fn fail_at_the_end(rt: &HostRuntime) -> Result<()> {
    let mut channel = failing_channel(rt.alloc())?;
    write_and_read(rt, &mut channel)
}

fn write_and_read(rt: &HostRuntime, channel: &mut Channel<FailingStore>) -> Result<()> {
    store_two_writes(channel)?;
    run(rt, channel, "two records whose track is not saved", 0x190)?;
    if let Some(drive) = channel.drive(0x90) {
        println!(rt; "  sense at the console: {}", Hex(&drive.sense))?;
    }
    sense(rt, channel)?;
    store_search(channel, 1, READ_DATA, 0x700)?;
    run(rt, channel, "record 1 is read", 0x190)?;
    sense(rt, channel)
}

// A Sense, and the bytes that it gives.
fn sense(rt: &HostRuntime, channel: &mut Channel<FailingStore>) -> Result<()> {
    store_sense(channel, 0x620)?;
    run(rt, channel, "sense", 0x190)?;
    show(rt, channel, 0x620, 6)
}

/// The save at a reset fails: its answer is the only word.
pub(crate) fn fail_at_a_reset(rt: &HostRuntime) -> Result<()> {
    let mut channel = failing_channel(rt.alloc())?;
    reset_in_a_write(rt, &mut channel)
}

fn reset_in_a_write(rt: &HostRuntime, channel: &mut Channel<FailingStore>) -> Result<()> {
    store_two_writes(channel)?;
    let code = code_of(&channel.sio(0x190));
    let units = channel.step(20);
    println!(rt; "a write: condition code {code}, {units} units; then a reset")?;
    if let Some((address, cylinder, head)) = channel.reset().unsaved {
        println!(rt; "  {address:03X}: cylinder {cylinder}, head {head} was not saved")?;
    }
    Ok(())
}

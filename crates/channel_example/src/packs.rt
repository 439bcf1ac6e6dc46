//! Packs are changed, a drive is taken off, and images come back.

use crate::console::{Hex, code_of, run_on, take};
use crate::programs::store_sense;
use crate::volumes::{attach_new, record_1_in};
use anyhow::{Result, bail};
use ckd_image::MemoryStore;
use s360_channel::{Channel, DetachFault, Finished};

/// A pack is not given back while a program runs at its drive. Behind the ending the drive is taken off, and is attached again with
/// a new pack.
pub(crate) fn change(rt: &HostRuntime, channel: &mut Channel<MemoryStore>) -> Result<()> {
    ask_too_early(rt, channel)?;
    let cylinders = take_off(channel)?;
    let code = code_of(&channel.tio(0x191));
    println!(rt; "  a pack of {cylinders} cylinders comes back; test: condition code {code}")?;
    attach_new(rt.alloc(), channel, 0x91, 3)?;
    let code = code_of(&channel.tio(0x191));
    println!(rt; "  another is there; test: condition code {code}")?;
    Ok(())
}

// The pack is asked for while a program runs, which then ends as if nothing had been asked.
fn ask_too_early(rt: &HostRuntime, channel: &mut Channel<MemoryStore>) -> Result<()> {
    store_sense(channel, 0x620)?;
    let code = code_of(&channel.sio(0x191));
    let Err(fault) = take_off(channel) else {
        bail!("a pack was taken from under a program");
    };
    let units = run_on(channel);
    println!(rt;
        "a pack is asked for while a program runs, condition code {code}: {fault}\n  {units} units"
    )?;
    take(rt, channel)
}

// The drive is taken off, and its pack is put away; how many cylinders that has.
fn take_off(channel: &mut Channel<MemoryStore>) -> Result<u16, DetachFault> {
    match channel.detach(0x91) {
        Ok(pack) => Ok(pack.geometry().cylinders),
        Err(fault) => Err(fault),
    }
}

/// The channel is done: storage and images come back.
pub(crate) fn give_back(rt: &HostRuntime, channel: Channel<MemoryStore>) -> Result<()> {
    let finished = channel.finish();
    show_finished(rt, &finished)
}

// The files of the images are as they are to be kept.
fn show_finished(rt: &HostRuntime, finished: &Finished<MemoryStore>) -> Result<()> {
    println!(rt; "storage of {} bytes comes back", finished.storage.size())?;
    for image in &finished.images {
        let Some((device, image)) = image else {
            continue;
        };
        if let Some(file) = image.store(0) {
            let record = Hex(record_1_in(file));
            println!(rt;
                "  {device:02X}: a file of {} bytes; record 1 is {record}",
                file.bytes().len()
            )?;
        }
    }
    Ok(())
}

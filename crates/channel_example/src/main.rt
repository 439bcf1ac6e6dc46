//! How an emulator's author uses the channel. A day of a small machine: volumes are made in memory; records are written and read by
//! channel programs; a program asks for an interruption and is changed while it runs; an arm arrives while another drive works; a
//! write is halted in its middle; a pack is changed; and the images come back. Then stores that fail, two channels over one storage, and a channel
//! over an emulator's own memory.
//!
//! Only `docs/CALLING.md` was read for it, and nothing here is proved by hand: no call of a channel asks for anything that has to be
//! shown, and those of a selector only that the storage has its size.
#![tactic(auto)]

mod arms;
mod console;
mod failures;
mod halts;
mod interruptions;
mod own_memory;
mod packs;
mod pair;
mod programs;
mod records;
mod volumes;

use anyhow::Result;
use ckd_image::MemoryStore;
use s360_channel::Channel;

fn main(rt: HostRuntime) -> Result<()> {
    let mut channel = volumes::new_channel(rt.alloc())?;
    work(&rt, &mut channel)?;
    packs::give_back(&rt, channel)?;
    failures::fail_at_the_end(&rt)?;
    failures::fail_at_a_reset(&rt)?;
    pair::read_and_write_at_once(&rt)?;
    own_memory::lend_it(&rt)
}

/// The day of the small machine, which has two drives.
fn work(rt: &HostRuntime, channel: &mut Channel<MemoryStore>) -> Result<()> {
    volumes::attach_new(rt.alloc(), channel, 0x90, 2)?;
    volumes::attach_new(rt.alloc(), channel, 0x91, 2)?;
    records::write_and_read(rt, channel)?;
    interruptions::change_while_it_runs(rt, channel)?;
    arms::arrive_while_another_works(rt, channel)?;
    halts::halt_a_write(rt, channel)?;
    packs::change(rt, channel)
}

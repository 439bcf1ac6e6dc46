//! Two drives, of which one moves its arm while the other works.

use crate::console::{code_of, run, run_on, show_csw, take};
use crate::programs::{SEEK, store_program, store_sense};
use anyhow::{Result, bail};
use ckd_image::MemoryStore;
use s360_channel::Channel;
use s360_laws::Condition;

/// A seek that ends its program leaves the arm in motion. It arrives while a program runs at the other drive; its device end waits.
pub(crate) fn arrive_while_another_works(
    rt: &HostRuntime,
    channel: &mut Channel<MemoryStore>,
) -> Result<()> {
    seek(rt, channel)?;
    store_sense(channel, 0x620)?;
    let code = code_of(&channel.sio(0x191));
    let first = channel.step(3);
    let arrived = channel.arrive(0x190);
    println!(rt;
        "a sense at the other drive: condition code {code}, {first} units; the arm arrived: {arrived}"
    )?;
    take(rt, channel)?;
    let rest = run_on(channel);
    println!(rt; "  {rest} units more")?;
    take(rt, channel)?;
    take(rt, channel)?;
    take(rt, channel)
}

// A seek to cylinder 1, behind which the drive is busy.
fn seek(rt: &HostRuntime, channel: &mut Channel<MemoryStore>) -> Result<()> {
    channel.poke(0x530, &[0, 0, 0, 1, 0, 0])?;
    store_program(channel, 0x400, &[(SEEK, 0x530, 0, 6)])?;
    let before = cylinder_of(channel)?;
    run(rt, channel, "a seek", 0x190)?;
    let behind = cylinder_of(channel)?;
    println!(rt; "  the arm goes from cylinder {before} to {behind}")?;
    if let Condition::Stored(csw) = channel.tio(0x190) {
        print!(rt; "  test: ")?;
        show_csw(rt, &csw)?;
    }
    Ok(())
}

// The cylinder at which the arm is, or to which it goes.
fn cylinder_of(channel: &Channel<MemoryStore>) -> Result<u16> {
    match channel.drive(0x90) {
        Some(drive) => Ok(drive.cylinder),
        None => bail!("no drive"),
    }
}

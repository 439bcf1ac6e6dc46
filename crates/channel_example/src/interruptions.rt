//! A program asks for an interruption, and the processor changes what it does next.

use crate::console::{code_of, run_on, show, take};
use crate::programs::{
    CHAIN_COMMAND, INTERRUPT, NO_OPERATION, SEEK, SENSE, Word, bytes_of, store_program,
};
use anyhow::Result;
use ckd_image::MemoryStore;
use s360_channel::Channel;

/// A seek whose word asks for an interruption, and behind it a No-Operation.
const SEEK_AND_NOTHING: [Word; 2] = [
    (SEEK, 0x520, CHAIN_COMMAND | INTERRUPT, 6),
    (NO_OPERATION, 0, 0, 1),
];

/// The No-Operation is replaced by a Sense while the bytes of the seek address pass.
pub(crate) fn change_while_it_runs(
    rt: &HostRuntime,
    channel: &mut Channel<MemoryStore>,
) -> Result<()> {
    channel.poke(0x520, &[0, 0, 0, 0, 0, 0])?;
    store_program(channel, 0x400, &SEEK_AND_NOTHING)?;
    let code = code_of(&channel.sio(0x190));
    println!(rt; "a program asks for an interruption: condition code {code}")?;
    take(rt, channel)?;
    let first = channel.step(3);
    channel.poke(0x408, &bytes_of((SENSE, 0x620, 0, 6)))?;
    let rest = run_on(channel);
    println!(rt; "  its next word is replaced: {first} units before, {rest} after")?;
    take(rt, channel)?;
    show(rt, channel, 0x620, 6)
}

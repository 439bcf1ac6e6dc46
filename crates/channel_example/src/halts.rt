//! A halt in the middle of a write.

use crate::console::{code_of, take};
use crate::programs::{WRITE_DATA, store_search};
use crate::records::read;
use anyhow::Result;
use ckd_image::MemoryStore;
use s360_channel::Channel;

/// An update of record 1 is halted behind three of its eight bytes: the rest of the record is filled up with zeros.
pub(crate) fn halt_a_write(rt: &HostRuntime, channel: &mut Channel<MemoryStore>) -> Result<()> {
    channel.poke(0x610, &[0xD7; 8])?;
    store_search(channel, 1, WRITE_DATA, 0x610)?;
    let code = code_of(&channel.sio(0x190));
    let units = channel.step(26);
    let halted = code_of(&channel.hio(0x190));
    println!(rt; "an update: condition code {code}, {units} units; halt: condition code {halted}")?;
    take(rt, channel)?;
    read(rt, channel, "record 1 is read", 1)
}

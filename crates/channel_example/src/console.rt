//! What the processor does with a channel, and how it is shown.

use anyhow::Result;
use ckd_image::ImageStore;
use s360_channel::Channel;
use s360_laws::Condition;
use s360_words::Csw;
use std::fmt;

/// More units than any program of this example has.
const MOST_UNITS: u32 = 100_000;

/// The condition code that an instruction sets.
pub(crate) fn code_of<T>(condition: &Condition<T>) -> u8 {
    match condition {
        Condition::Zero => 0,
        Condition::Stored(_) => 1,
        Condition::Two => 2,
        Condition::Three => 3,
    }
}

/// Bytes in hexadecimal.
#[derive(Clone, Copy)]
pub(crate) struct Hex<'a>(pub &'a [u8]);

impl<'a> fmt::Display for Hex<'a> {
    fn fmt<W: fmt::Write>(&self, f: &mut fmt::Formatter<W>) -> fmt::Result {
        for byte in self.0 {
            write!(f, "{byte:02X}")?;
        }
        Ok(())
    }
}

/// Lets the program that runs come to its end, and answers how many units it did.
pub(crate) fn run_on<S: ImageStore>(channel: &mut Channel<S>) -> u32 {
    channel.run_on(MOST_UNITS).units
}

/// Starts the program that the channel address word leads to, lets it run to its end, and takes its interruption.
pub(crate) fn run<S: ImageStore>(
    rt: &HostRuntime,
    channel: &mut Channel<S>,
    name: &str,
    address: u16,
) -> Result<()> {
    let code = code_of(&channel.sio(address));
    let units = run_on(channel);
    println!(rt; "{name}: condition code {code}, {units} units")?;
    take(rt, channel)
}

/// Takes an interruption, if one pends.
pub(crate) fn take<S: ImageStore>(rt: &HostRuntime, channel: &mut Channel<S>) -> Result<()> {
    let taken = if channel.is_pending() {
        channel.interrupt()
    } else {
        None
    };
    show_interruption(rt, taken)
}

/// Shows an interruption, if one was taken.
pub(crate) fn show_interruption(rt: &HostRuntime, taken: Option<(u16, Csw)>) -> Result<()> {
    let Some((address, csw)) = taken else {
        println!(rt; "  no interruption")?;
        return Ok(());
    };
    print!(rt; "  interruption {address:03X}: ")?;
    show_csw(rt, &csw)
}

/// Shows a channel status word: command address, unit status, channel status, residual count.
pub(crate) fn show_csw(rt: &HostRuntime, csw: &Csw) -> Result<()> {
    let (unit, channel) = (csw.unit.0, csw.channel.0);
    println!(rt;
        "{:06X} unit {unit:02X} channel {channel:02X} count {}",
        csw.address, csw.count
    )?;
    Ok(())
}

/// Shows bytes of storage; none where some of them are outside.
pub(crate) fn show<S: ImageStore>(
    rt: &HostRuntime,
    channel: &Channel<S>,
    at: u32,
    len: u32,
) -> Result<()> {
    let bytes = channel.peek(at, len).unwrap_or(&[]);
    println!(rt; "  {at:06X}: {}", Hex(bytes))?;
    Ok(())
}

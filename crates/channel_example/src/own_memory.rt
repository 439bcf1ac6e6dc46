//! An emulator that keeps main storage itself: each call is lent its bytes, which are its own again between two calls.

ghost use Rattle.std.specs.Prelude.{◌≡◌, length};

use crate::console::{Hex, code_of, show_interruption};
use crate::programs::{SENSE, bytes_of};
use crate::volumes::new_volume;
use anyhow::Result;
use ckd_image::MemoryStore;
use s360_channel::Selector;
use s360_storage::{Lent, LentFault};
use s360_words::Csw;
use std::alloc::Global;

/// How many bytes of main storage the emulator has.
const SIZE: usize = 4096;

/// The storage key of each block of 2,048 bytes.
const KEYS: [u8; 2] = [0, 1];

/// Where the program stands, and where its bytes go.
const PROGRAM: usize = 0x100;

const SENSED: usize = 0x200;

/// A program senses a drive: it is started and runs over the emulator's bytes, and so is its interruption taken. What the emulator
/// stores between two calls is the processor's.
pub(crate) fn lend_it(rt: &HostRuntime) -> Result<()> {
    let mut bytes = [0xFFu8; SIZE];
    bytes[72..76].copy_from_slice(&(PROGRAM as u32).to_be_bytes());
    bytes[PROGRAM..PROGRAM + 8].copy_from_slice(&bytes_of((SENSE, SENSED as u32, 0, 6)));
    let mut selector = Selector::new(1, SIZE as u32)?;
    attach_new(rt.alloc(), &mut selector)?;
    let (code, units) = run(&mut selector, &mut bytes)?;
    println!(rt; "a sense over the emulator's own bytes: condition code {code}, {units} units")?;
    show_interruption(rt, interrupt(&mut selector, &mut bytes)?)?;
    let sensed = Hex(&bytes[SENSED..SENSED + 8]);
    println!(rt; "  {SENSED:06X}: {sensed}")?;
    Ok(())
}

// Attaches a drive at 190 with a new volume.
fn attach_new(alloc: Global, selector: &mut Selector<MemoryStore>) -> Result<()>
    ensures { selector.new.size ≡ selector.old.size }
{
    match selector.attach(alloc, 0x90, new_volume(alloc, 1)?) {
        Ok(()) => Ok(()),
        Err((fault, _image)) => Err(fault.into()),
    }
}

// Starts the program at 190 and lets it run to its end; the condition code, and how many units it did.
fn run(selector: &mut Selector<MemoryStore>, bytes: &mut [u8]) -> Result<(u8, u32), LentFault>
    requires { length bytes.old ≡ selector.old.size }
    ensures size { selector.new.size ≡ selector.old.size }
    ensures len { length bytes.new ≡ length bytes.old }
{
    Lent::check(bytes, &KEYS)?;
    let mut storage = Lent::new(bytes, &KEYS);
    let code = code_of(&selector.sio(&mut storage, 0x190));
    let units = selector.run_on(&mut storage, 1_000).units;
    Ok((code, units))
}

// Takes the interruption that pends.
fn interrupt(
    selector: &mut Selector<MemoryStore>,
    bytes: &mut [u8],
) -> Result<Option<(u16, Csw)>, LentFault>
    requires { length bytes.old ≡ selector.old.size }
{
    Lent::check(bytes, &KEYS)?;
    Ok(selector.interrupt(&mut Lent::new(bytes, &KEYS)))
}

//! Two channels over one storage, which a machine keeps beside them and lends to each call.

ghost use Rattle.std.specs.Prelude.{◌≡◌, length};

use crate::console::{Hex, code_of, show_interruption};
use crate::programs::{
    CHAIN_COMMAND, CHAIN_DATA, READ_DATA, SEARCH_ID_EQUAL, TRANSFER_IN_CHANNEL,
    WRITE_COUNT_KEY_AND_DATA, Word, bytes_of,
};
use crate::volumes::new_volume;
use anyhow::{Result, bail};
use ckd_image::MemoryStore;
use s360_channels::Selectors;
use s360_storage::MainStorage;
use s360_words::{CAW_ADDRESS, Storage};
use std::alloc::Global;

/// The main storage of a machine, and its channels, which are for storage of that size.
#[derive(Drop)]
struct Machine {
    storage: Storage,
    channels: Selectors<MemoryStore>,
    ghost fits: { length storage.bytes ≡ channels.size },
}

/// The system mask that is open for channels 1 and 2.
const BOTH: u8 = 0x60;

/// Where two identifiers, a count area and the data of a record are.
const OPERANDS: [(u32, &[u8]); 4] = [
    (0x500, &[0, 0, 0, 0, 0]),
    (0x508, &[0, 0, 0, 0, 1]),
    (0x510, &[0, 0, 0, 0, 1, 0, 0, 8]),
    (0x600, &[0xF0, 0xF1, 0xF2, 0xF3, 0xF4, 0xF5, 0xF6, 0xF7]),
];

/// A record is written at channel 1. Then it is read there, while channel 2 writes it to its own drive, from where the first
/// channel has just put it.
pub(crate) fn read_and_write_at_once(rt: &HostRuntime) -> Result<()> {
    let storage = Storage::new(rt.alloc(), 65_536)?;
    let channels = Selectors::new(storage.size());
    work(rt, &mut Machine { storage, channels })
}

fn work(rt: &HostRuntime, machine: &mut Machine) -> Result<()> {
    set_up(rt.alloc(), machine)?;
    put_program(machine, 0x400, &write(0x400, 0x600))?;
    run(rt, machine, "a record is written at channel 1", 0x190)?;
    at_once(rt, machine)?;
    put_program(machine, 0x400, &read(0x400, 0x710))?;
    run(rt, machine, "it is read at channel 2", 0x290)?;
    show(rt, machine)
}

// Shows the eight bytes that were read.
fn show(rt: &HostRuntime, machine: &Machine) -> Result<()> {
    let read = machine.storage.slice(0x710, 8).unwrap_or(&[]);
    println!(rt; "  000710: {}", Hex(read))?;
    Ok(())
}

// Both channels work, a few units each in turns. The interruption of the lower channel is taken first.
fn at_once(rt: &HostRuntime, machine: &mut Machine) -> Result<()> {
    put_program(machine, 0x400, &read(0x400, 0x700))?;
    let first = start(machine, 0x190);
    put_program(machine, 0x440, &write(0x440, 0x700))?;
    let second = start(machine, 0x290);
    println!(rt;
        "and read there while channel 2 writes it too: condition codes {first} and {second}"
    )?;
    for most in [10, 1_000] {
        let units = machine.channels.step_all(&mut machine.storage, most);
        let (first, second) = (units[1].unwrap_or(0), units[2].unwrap_or(0));
        println!(rt; "  {first} units at channel 1, {second} at channel 2")?;
    }
    take(rt, machine)?;
    take(rt, machine)
}

// Channels 1 and 2 with a drive each, and storage with the operands of their programs.
fn set_up(alloc: Global, machine: &mut Machine) -> Result<()> {
    for (number, address) in [(1, 0x190), (2, 0x290)] {
        machine.channels.add(number)?;
        attach_new(alloc, machine, address)?;
    }
    for (at, bytes) in &OPERANDS {
        store(machine, *at, *bytes)?;
    }
    Ok(())
}

// Attaches a drive that holds a new volume.
fn attach_new(alloc: Global, machine: &mut Machine, address: u16) -> Result<()> {
    match machine
        .channels
        .attach(alloc, address, new_volume(alloc, 2)?)
    {
        Ok(()) => Ok(()),
        Err((fault, _image)) => Err(fault.into()),
    }
}

/// The processor stores a channel program, one word after the other, and a channel address word that leads to it, with key 0.
fn put_program(machine: &mut Machine, at: u32, words: &[Word]) -> Result<()> {
    let mut place = at;
    for word in words {
        store(machine, place, &bytes_of(*word))?;
        place = place.saturating_add(8);
    }
    store(machine, CAW_ADDRESS, &at.to_be_bytes())
}

// The processor stores bytes from an address on.
fn store(machine: &mut Machine, at: u32, bytes: &[u8]) -> Result<()> {
    if MainStorage::put(&mut machine.storage, at, bytes) {
        Ok(())
    } else {
        bail!("outside storage")
    }
}

/// A program at an address that searches the record whose identifier is at another one, and there does what two words say.
fn search(at: u32, identifier: u32, first: Word, second: Word) -> [Word; 4] {
    [
        (SEARCH_ID_EQUAL, identifier, CHAIN_COMMAND, 5),
        (TRANSFER_IN_CHANNEL, at, 0, 0),
        first,
        second,
    ]
}

/// A program that writes record 1 after R0, with the eight bytes at an address.
fn write(at: u32, from: u32) -> [Word; 4] {
    let count = (WRITE_COUNT_KEY_AND_DATA, 0x510, CHAIN_DATA, 8);
    search(at, 0x500, count, (0, from, 0, 8))
}

/// A program that reads the eight bytes of record 1 to an address. The word after the read is not reached.
fn read(at: u32, to: u32) -> [Word; 4] {
    search(at, 0x508, (READ_DATA, to, 0, 8), (0, 0, 0, 0))
}

// Starts the program that the channel address word leads to, at an address; the condition code.
fn start(machine: &mut Machine, address: u16) -> u8 {
    code_of(&machine.channels.sio(&mut machine.storage, address))
}

// Starts a program, lets it come to its end, and takes its interruption.
fn run(rt: &HostRuntime, machine: &mut Machine, name: &str, address: u16) -> Result<()> {
    let code = start(machine, address);
    let units = run_on(machine, (address / 256) as u8);
    println!(rt; "{name}: condition code {code}, {units} units")?;
    take(rt, machine)
}

// Lets the program of a channel come to its end; how many units it did.
fn run_on(machine: &mut Machine, number: u8) -> u32 {
    match machine.channels.run_on(&mut machine.storage, number, 1_000) {
        Some(ran) => ran.units,
        None => 0,
    }
}

// Takes the first interruption of both channels, if one pends.
fn take(rt: &HostRuntime, machine: &mut Machine) -> Result<()> {
    let taken = machine.channels.interrupt(&mut machine.storage, BOTH);
    show_interruption(rt, taken)
}

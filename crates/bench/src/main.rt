//! `bench` does fixed works over a volume in memory: at a drive alone, by whole channel programs from storage, and by the same
//! programs at a channel, so that what they take can be measured. `bench A 10` does a work ten times over a full volume at a drive
//! alone, `bench programs A 10` by channel programs, and `bench channel A 10` at a channel; a number behind these is how many
//! units a program is asked for at a time, in the place of 65535. Without words it does each work once over a small volume, and
//! prints the same on every machine: how many commands ended, how many bytes passed, and how many commands ended in unit check;
//! of programs, how many channel command words were fetched, how many bytes passed, and how many programs ended otherwise than
//! they must. With words it prints channel command words, or commands, and bytes a second too.
#![tactic(auto)]

mod channel;
mod commands;
mod machine;
mod programs;
mod tally;
mod volume;
mod works;

use crate::channel::ChannelMachine;
use crate::machine::DriveMachine;
use crate::programs::Machine;
use crate::volume::Disk;
use crate::works::{PROGRAMS, WORKS, Work};
use std::env;
use std::process::ExitCode;
use std::time::{Duration, Instant};

/// The cylinders of a full volume of a 2314, and of a small volume.
const FULL: u16 = 203;

const SMALL: u16 = 2;

/// The most passes of one run.
const MOST_PASSES: u32 = 100_000;

/// How many units a program is asked for at a time, where the words say nothing else.
const UNITS: u16 = 65535;

/// What does a work.
#[derive(Clone, Copy, PartialEq)]
enum Way {
    /// A drive alone.
    Drive,
    /// Channel programs, which are asked for so many units at a time.
    Programs(u16),
    /// Channel programs at a channel, so many units at a time.
    Channel(u16),
}

/// What the words ask for.
#[derive(Clone, Copy)]
enum Wish {
    /// Each work once in each way, over a small volume.
    Each,
    /// One work so often in one way, over a full volume.
    One(Work, Way, u32),
}

fn main(rt: HostRuntime) -> ExitCode {
    let done = match asked_for(&rt) {
        Some(Wish::Each) => do_each(&rt),
        Some(Wish::One(work, way, passes)) => {
            let task = Task {
                work,
                cylinders: FULL,
                passes,
            };
            prints_speed(&rt, do_task(&rt, task, way), way)
        }
        None => {
            let _ = eprintln!(rt;
                "usage: bench [W PASSES | programs|channel W PASSES [UNITS]], W one of A B C D S U W R I F"
            );
            return ExitCode::from(2);
        }
    };
    if done {
        ExitCode::SUCCESS
    } else {
        ExitCode::FAILURE
    }
}

/// What the words ask for, if they ask for anything.
fn asked_for(rt: &HostRuntime) -> Option<Wish> {
    let mut words = Vec::new(rt.alloc());
    for word in env::args(rt).ok()? {
        words.push(word).ok()?;
    }
    wish_of(words.as_slice())
}

/// What these words ask for, of which the first is the program's name.
fn wish_of(words: &[String]) -> Option<Wish> {
    match words {
        [] | [_] => Some(Wish::Each),
        [_, letter, passes] => one(letter.as_str(), Way::Drive, passes.as_str()),
        [_, name, letter, passes] => {
            let way = way_of(name.as_str(), UNITS)?;
            one(letter.as_str(), way, passes.as_str())
        }
        [_, name, letter, passes, units] => {
            let way = way_of(name.as_str(), units.as_str().parse().ok()?)?;
            one(letter.as_str(), way, passes.as_str())
        }
        _ => None,
    }
}

/// The way that has this name, by which programs are asked for so many units at a time.
fn way_of(name: &str, units: u16) -> Option<Way> {
    match name {
        "programs" if units > 0 => Some(Way::Programs(units)),
        "channel" if units > 0 => Some(Way::Channel(units)),
        _ => None,
    }
}

/// The work of this letter so often, if it is done in this way.
fn one(letter: &str, way: Way, passes: &str) -> Option<Wish> {
    let work = Work::of_letter(letter)?;
    let passes: u32 = passes.parse().ok()?;
    let is_done = way == Way::Drive || PROGRAMS.contains(&work);
    (is_done && passes <= MOST_PASSES).then_some(Wish::One(work, way, passes))
}

/// How much was done in which time.
#[derive(Clone, Copy)]
struct Speed {
    /// Commands, or channel command words.
    items: u64,
    bytes: u64,
    time: Duration,
}

impl Speed {
    // So many in a second.
    fn a_second(&self, number: u64) -> u128 {
        let nanoseconds = self.time.as_nanos().max(1);
        (number as u128).saturating_mul(1_000_000_000) / nanoseconds
    }
}

/// Prints what was done in a second; whether there is something to print, and it was printed.
fn prints_speed(rt: &HostRuntime, speed: Option<Speed>, way: Way) -> bool {
    let Some(speed) = speed else {
        return false;
    };
    let items = if way == Way::Drive {
        "commands"
    } else {
        "CCWs"
    };
    let (many, bytes) = (speed.a_second(speed.items), speed.a_second(speed.bytes));
    println!(rt; "{many} {items} a second, {bytes} bytes a second").is_ok()
}

/// A work, the cylinders of the volume over which it is done, and how often it is done.
#[derive(Clone, Copy)]
struct Task {
    work: Work,
    cylinders: u16,
    passes: u32,
}

/// Does each work once in each way; whether all were done and reported.
fn do_each(rt: &HostRuntime) -> bool {
    do_all(rt, &WORKS, Way::Drive)
        && do_all(rt, &PROGRAMS, Way::Programs(UNITS))
        && do_all(rt, &PROGRAMS, Way::Channel(UNITS))
}

fn do_all(rt: &HostRuntime, works: &[Work], way: Way) -> bool {
    for work in works {
        let task = Task {
            work: *work,
            cylinders: SMALL,
            passes: 1,
        };
        if do_task(rt, task, way).is_none() {
            return false;
        }
    }
    true
}

/// Does a task over a new volume, and prints what it came to; none where there was no memory for the volume, no clock, or the line
/// was not printed.
fn do_task(rt: &HostRuntime, task: Task, way: Way) -> Option<Speed> {
    match way {
        Way::Drive => at_drive(rt, task),
        Way::Programs(units) => by_programs(rt, task, units),
        Way::Channel(units) => at_channel(rt, task, units),
    }
}

/// A drive over a new volume with the records that the work reads.
fn prepared(rt: &HostRuntime, task: Task) -> Option<Disk> {
    let Some(mut disk) = Disk::new(rt.alloc(), task.cylinders) else {
        return no_memory(rt);
    };
    task.work.prepare(&mut disk, task.cylinders);
    disk.reset_tally();
    Some(disk)
}

/// Tells that there is no memory.
fn no_memory<T>(rt: &HostRuntime) -> Option<T> {
    let _ = eprintln!(rt; "bench: out of memory");
    None
}

/// Does a task at a drive alone.
fn at_drive(rt: &HostRuntime, task: Task) -> Option<Speed> {
    let mut disk = prepared(rt, task)?;
    run_commands(rt, task, &mut disk)
}

fn run_commands(rt: &HostRuntime, task: Task, disk: &mut Disk) -> Option<Speed> {
    let began = Instant::now(rt).ok()?;
    for _ in 0..task.passes {
        task.work.run(disk, task.cylinders);
    }
    let time = began.elapsed(rt).ok()?;
    let tally = disk.tally();
    println!(rt; "{}: {tally}", task.work).ok()?;
    Some(Speed {
        items: tally.commands(),
        bytes: tally.bytes(),
        time,
    })
}

/// Does a task by channel programs, which are asked for so many units at a time.
fn by_programs(rt: &HostRuntime, task: Task, units: u16) -> Option<Speed> {
    let disk = prepared(rt, task)?;
    match DriveMachine::new(rt.alloc(), disk, units) {
        Some(mut machine) => run_programs(rt, task, &mut machine, " by programs"),
        None => no_memory(rt),
    }
}

/// Does a task by channel programs at a channel, so many units at a time.
fn at_channel(rt: &HostRuntime, task: Task, units: u16) -> Option<Speed> {
    let disk = prepared(rt, task)?;
    match ChannelMachine::new(rt.alloc(), disk, units) {
        Some(mut machine) => run_programs(rt, task, &mut machine, " at a channel"),
        None => no_memory(rt),
    }
}

fn run_programs<M: Machine>(
    rt: &HostRuntime,
    task: Task,
    machine: &mut M,
    place: &str,
) -> Option<Speed> {
    let began = Instant::now(rt).ok()?;
    for _ in 0..task.passes {
        task.work.run_programs(machine, task.cylinders);
    }
    let time = began.elapsed(rt).ok()?;
    let tally = machine.tally();
    println!(rt; "{}{place}: {tally}", task.work).ok()?;
    Some(Speed {
        items: tally.ccws(),
        bytes: tally.bytes(),
        time,
    })
}

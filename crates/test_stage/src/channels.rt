//! Several channels, and the storage that each of their calls is lent.

ghost use Rattle.std.specs.Prelude.{◌≡◌, ◌<◌, length};

use crate::channel::{Instruction, answered, keep_all, say_reset};
use crate::channels_shown::show;
use crate::stage::Stage;
use crate::verbs::OfChannels;
use s360_channels::{Removed, Selectors};
use s360_laws::Answer;
use s360_storage::MainStorage;
use s360_words::Storage;
use stage_drives::put;
use stage_files::{FileStore, Line, Said};
use std::alloc::Global;

/// Channels over files, and main storage of their size.
#[derive(Drop)]
pub(crate) struct Several {
    pub selectors: Selectors<FileStore>,
    pub storage: Storage,
    ghost fits: { length storage.bytes ≡ selectors.size },
}

const NO_CHANNELS: &str = "no channels: CHANNELS BEGIN 65536 makes them";

/// Calls that make channels and their drives, or end them.
#[derive(Clone, Copy)]
pub(crate) enum Sets {
    Begin,
    Volume,
    Detach,
    Exchange,
    Remove,
    End,
}

/// Calls of one channel by its number.
#[derive(Clone, Copy)]
pub(crate) enum Units {
    Step,
    Run,
    Reset,
    InterruptAt,
}

/// Calls of all channels, and of their storage.
#[derive(Clone, Copy)]
pub(crate) enum Changes {
    Add,
    StepAll,
    ResetAll,
    Interrupt,
    Poke,
    Key,
}

/// What channels are asked.
#[derive(Clone, Copy)]
pub(crate) enum Shows {
    Peek,
    Key,
    Unit,
    Image,
    Pending,
    First,
    Has,
    PendingAt,
    State,
    View,
}

impl Stage {
    /// Does what a line of several channels asks.
    pub(crate) fn several(&mut self, rt: &HostRuntime, call: &OfChannels, line: &mut Line) {
        match (call, &mut self.channels) {
            (OfChannels::Sets(Sets::Begin), _) => self.begin_several(rt.alloc(), line),
            (_, None) => line.said.no(NO_CHANNELS),
            (OfChannels::Sets(sets), Some(_)) => self.set_several(rt, *sets, line),
            (OfChannels::Does(does), Some(channels)) => instruct(channels, *does, line),
            (OfChannels::Units(units), Some(channels)) => advance(channels, *units, line),
            (OfChannels::Changes(changes), Some(channels)) => { change(channels, *changes, line) }
            (OfChannels::Shows(shows), Some(channels)) => show(channels, *shows, line),
        }
    }

    fn begin_several(&mut self, alloc: Global, line: &mut Line) {
        match Storage::new(alloc, line.wide(0)) {
            Ok(storage) => {
                let selectors = Selectors::new(storage.size());
                put(&mut self.channels, Some(Several { selectors, storage }));
                line.said.ok();
            }
            Err(fault) => line.said.refused(&fault),
        }
    }

    fn set_several(&mut self, rt: &HostRuntime, sets: Sets, line: &mut Line) {
        match sets {
            Sets::Begin => {}
            Sets::Volume => self.attach_to(rt, line),
            Sets::Detach => self.detach_from(rt, line),
            Sets::Exchange => self.exchange_at(rt, line),
            Sets::Remove => self.remove(rt, line.byte(0), true, &mut line.said),
            Sets::End => self.remove_all(rt, &mut line.said),
        }
    }

    // Attaches a drive over these files.
    fn attach_to(&mut self, rt: &HostRuntime, line: &mut Line) {
        let Some(channels) = &mut self.channels else {
            return line.said.no(NO_CHANNELS);
        };
        let Some(image) = self.files.mount(rt, line.words(1), &mut line.said) else {
            return;
        };
        match channels.selectors.attach(rt.alloc(), line.half(0), image) {
            Ok(()) => line.said.ok(),
            Err((fault, image)) => self.files.refuse(rt, image, &fault, &mut line.said),
        }
    }

    fn detach_from(&mut self, rt: &HostRuntime, line: &mut Line) {
        let Some(channels) = &mut self.channels else {
            return line.said.no(NO_CHANNELS);
        };
        match channels.selectors.detach(line.half(0)) {
            Ok(image) => self.files.release(rt, image, &mut line.said),
            Err(fault) => line.said.refused(&fault),
        }
    }

    // Changes a pack.
    fn exchange_at(&mut self, rt: &HostRuntime, line: &mut Line) {
        let Some(channels) = &mut self.channels else {
            return line.said.no(NO_CHANNELS);
        };
        let Some(image) = self.files.mount(rt, line.words(1), &mut line.said) else {
            return;
        };
        match channels.selectors.exchange(line.half(0), image) {
            Ok(image) => self.files.release(rt, image, &mut line.said),
            Err((fault, image)) => self.files.refuse(rt, image, &fault, &mut line.said),
        }
    }

    // Takes a channel away, and answers what its reset does, if that is to be told.
    fn remove(&mut self, rt: &HostRuntime, number: u8, tells_reset: bool, said: &mut Said) {
        let Some(channels) = &mut self.channels else {
            return said.no(NO_CHANNELS);
        };
        match channels.selectors.remove(number) {
            Some(removed) => {
                let Removed { images, reset } = removed;
                if tells_reset {
                    say_reset(&reset, said);
                }
                keep_all(&mut self.files, rt, images, said);
            }
            None if tells_reset => said.put("NONE"),
            None => {}
        }
    }

    // Takes each channel away, in order of their numbers.
    fn remove_all(&mut self, rt: &HostRuntime, said: &mut Said) {
        said.ok();
        for number in 0..7u8 {
            self.remove(rt, number, false, said);
        }
        put(&mut self.channels, None);
    }
}

fn instruct(channels: &mut Several, does: Instruction, line: &mut Line) {
    let at = line.half(0);
    let answer = match does {
        Instruction::Sio => Answer::Sio(at, channels.selectors.sio(&mut channels.storage, at)),
        Instruction::Tio => Answer::Tio(at, channels.selectors.tio(&mut channels.storage, at)),
        Instruction::Hio => Answer::Hio(at, channels.selectors.hio(&mut channels.storage, at)),
        Instruction::Tch => Answer::Tch(channels.selectors.tch(at)),
        Instruction::Arrive => Answer::Arrive(at, channels.selectors.arrive(at)),
    };
    answered(&answer, &mut line.said);
}

// A call of one channel.
fn advance(channels: &mut Several, units: Units, line: &mut Line) {
    let number = line.byte(0);
    let answer = match units {
        Units::Step => stepped(channels, number, line.half(1)),
        Units::Run => ran(channels, number, line.wide(1)),
        Units::Reset => reset(channels, number),
        Units::InterruptAt => interrupted(channels, number),
    };
    match answer {
        Some(answer) => answered(&answer, &mut line.said),
        None => line.said.put("NONE"),
    }
}

fn stepped(channels: &mut Several, number: u8, units: u16) -> Option<Answer> {
    let done = channels
        .selectors
        .step(&mut channels.storage, number, units)?;
    Some(Answer::Step(done))
}

fn ran(channels: &mut Several, number: u8, units: u32) -> Option<Answer> {
    let ran = channels
        .selectors
        .run_on(&mut channels.storage, number, units)?;
    Some(Answer::Run(ran.units))
}

fn reset(channels: &mut Several, number: u8) -> Option<Answer> {
    Some(Answer::Reset(channels.selectors.reset(number)?.unsaved))
}

fn interrupted(channels: &mut Several, number: u8) -> Option<Answer> {
    let taken = channels
        .selectors
        .interrupt_at(&mut channels.storage, number);
    Some(Answer::Interrupt(taken))
}

// A call of all channels, or one of storage.
fn change(channels: &mut Several, changes: Changes, line: &mut Line) {
    match changes {
        Changes::Add => add(channels, line),
        Changes::StepAll => {
            let done = channels
                .selectors
                .step_all(&mut channels.storage, line.half(0));
            line.said.put("STEPALL");
            line.said.debug(&done);
        }
        Changes::ResetAll => {
            line.said.put("RESETALL");
            line.said.debug(&channels.selectors.reset_all());
        }
        changes => store(channels, changes, line),
    }
}

fn add(channels: &mut Several, line: &mut Line) {
    match channels.selectors.add(line.byte(0)) {
        Ok(()) => line.said.ok(),
        Err(fault) => line.said.refused(&fault),
    }
}

fn store(channels: &mut Several, changes: Changes, line: &mut Line) {
    let at = line.wide(0);
    let answer = match changes {
        Changes::Poke => {
            let bytes = line.bytes.as_slice();
            Answer::Store(MainStorage::put(&mut channels.storage, at, bytes))
        }
        Changes::Key => Answer::Key(set_key(channels, at, line.byte(1) % 16)),
        _ => {
            let mask = line.byte(0);
            Answer::Interrupt(channels.selectors.interrupt(&mut channels.storage, mask))
        }
    };
    answered(&answer, &mut line.said);
}

fn set_key(channels: &mut Several, at: u32, key: u8) -> bool
    requires { key < 16 }
{
    channels.storage.set_key(at, key)
}

//! A channel: how it is made, what is attached, and its events.

use crate::stage::{NO_CHANNEL, Stage};
use ckd_image::Image;
use s360_channel::{Channel, Finished, Reset};
use s360_deck::{AnswerLine, DeckFault, parse};
use s360_laws::Answer;
use s360_words::Storage;
use stage_drives::put;
use stage_files::{FileStore, Files, Line, Said, Word};
use std::alloc::Global;

/// A channel over files.
pub(crate) type Disks = Channel<FileStore>;

/// Calls that make a channel and its drives, or end it.
#[derive(Clone, Copy)]
pub(crate) enum Makes {
    Begin,
    Volume,
    Detach,
    Exchange,
    Swap,
    End,
    Finish,
}

/// Calls that no deck spells.
#[derive(Clone, Copy)]
pub(crate) enum Acts {
    Call,
    Poke,
    RunOn,
}

/// Calls with an input/output address.
#[derive(Clone, Copy)]
pub(crate) enum Instruction {
    Sio,
    Tio,
    Hio,
    Tch,
    Arrive,
}

/// What a channel answered.
pub(crate) fn answered(answer: &Answer, said: &mut Said) {
    said.display(&AnswerLine(answer));
}

impl Stage {
    /// Makes the channel, its drives, and what they come to in the end.
    pub(crate) fn make(&mut self, rt: &HostRuntime, makes: Makes, line: &mut Line) {
        match makes {
            Makes::Begin => self.begin(rt.alloc(), line),
            Makes::Volume => self.attach(rt, line),
            Makes::Detach => self.detach(rt, line),
            Makes::Exchange => self.exchange(rt, line),
            Makes::Swap => self.swap(&mut line.said),
            Makes::End => self.finish(rt, false, &mut line.said),
            Makes::Finish => self.finish(rt, true, &mut line.said),
        }
    }

    // A channel with no drives.
    fn begin(&mut self, alloc: Global, line: &mut Line) {
        let storage = match Storage::new(alloc, line.wide(1)) {
            Ok(storage) => storage,
            Err(fault) => return line.said.refused(&fault),
        };
        match Channel::new(line.byte(0), storage) {
            Ok(channel) => {
                put(&mut self.channel, Some(channel));
                self.deck.forget();
                line.said.ok();
            }
            Err((fault, _)) => line.said.refused(&fault),
        }
    }

    // Attaches a drive over these files.
    fn attach(&mut self, rt: &HostRuntime, line: &mut Line) {
        let Some(channel) = &mut self.channel else {
            return line.said.no(NO_CHANNEL);
        };
        let Some(image) = self.files.mount(rt, line.words(2), &mut line.said) else {
            return;
        };
        match channel.attach(rt.alloc(), line.byte(0), image) {
            Ok(()) => line.said.ok(),
            Err((fault, image)) => self.files.refuse(rt, image, &fault, &mut line.said),
        }
    }

    // Takes a drive off.
    fn detach(&mut self, rt: &HostRuntime, line: &mut Line) {
        let Some(channel) = &mut self.channel else {
            return line.said.no(NO_CHANNEL);
        };
        match channel.detach(line.byte(0)) {
            Ok(image) => self.files.release(rt, image, &mut line.said),
            Err(fault) => line.said.refused(&fault),
        }
    }

    // Changes the pack of a drive.
    fn exchange(&mut self, rt: &HostRuntime, line: &mut Line) {
        let Some(channel) = &mut self.channel else {
            return line.said.no(NO_CHANNEL);
        };
        let Some(image) = self.files.mount(rt, line.words(1), &mut line.said) else {
            return;
        };
        match channel.exchange(line.byte(0), image) {
            Ok(image) => self.files.release(rt, image, &mut line.said),
            Err((fault, image)) => self.files.refuse(rt, image, &fault, &mut line.said),
        }
    }

    // Exchanges the channel's storage and the one that stands beside.
    fn swap(&mut self, said: &mut Said) {
        let Some(channel) = &mut self.channel else {
            return said.no(NO_CHANNEL);
        };
        match channel.exchange_storage(&mut self.alone.storage) {
            Ok(()) => said.ok(),
            Err(fault) => said.refused(&fault),
        }
    }

    // Ends the channel, and answers what its reset does, or that it is done.
    fn finish(&mut self, rt: &HostRuntime, tells_reset: bool, said: &mut Said) {
        let Some(channel) = self.channel.take() else {
            return said.no(NO_CHANNEL);
        };
        let Finished {
            storage,
            images,
            reset,
        } = channel.finish();
        put(&mut self.alone.storage, storage);
        if tells_reset {
            say_reset(&reset, said);
        } else {
            said.ok();
        }
        keep_all(&mut self.files, rt, images, said);
    }

    /// An event of a deck.
    pub(crate) fn event(&mut self, alloc: Global, line: &mut Line) {
        let events = match parse(alloc, line.text.as_bytes()) {
            Ok(events) => events,
            Err(fault) => return line.said.no(wrong_event(fault)),
        };
        match (&mut self.channel, events.as_slice().first()) {
            (Some(channel), Some(event)) => answered(&channel.react(event), &mut line.said),
            (None, Some(_)) => line.said.no(NO_CHANNEL),
            (_, None) => line.said.no("no event"),
        }
    }

    /// A call with an address, a place or a length that no deck spells.
    pub(crate) fn act(&mut self, acts: Acts, line: &mut Line) {
        let Some(channel) = &mut self.channel else {
            return line.said.no(NO_CHANNEL);
        };
        match acts {
            Acts::Call => call(channel, line),
            Acts::Poke => {
                let is_kept = channel.poke(line.wide(0), line.bytes.as_slice()).is_ok();
                answered(&Answer::Store(is_kept), &mut line.said);
            }
            Acts::RunOn => {
                let ran = channel.run_on(line.wide(0));
                line.said.answer("RUNON", &[Word::Number(ran.units as u64)]);
                line.said.put(",");
                crate::shown::say_subchannel(ran.subchannel, &mut line.said);
            }
        }
    }
}

// Why a line is no event.
fn wrong_event(fault: DeckFault) -> &'static str {
    match fault {
        DeckFault::Unknown(_) => "no such verb: HELP lists them",
        DeckFault::Operand(_) => "bad operand",
        DeckFault::LineTooLong(_) => "line too long",
        DeckFault::OutOfMemory => "out of memory",
    }
}

/// Says what a reset did.
pub(crate) fn say_reset(reset: &Reset, said: &mut Said) {
    answered(&Answer::Reset(reset.unsaved), said);
}

/// The files of a channel's drives go back.
pub(crate) fn keep_all(
    files: &mut Files,
    rt: &HostRuntime,
    images: [Option<(u8, Image<FileStore>)>; 8],
    said: &mut Said,
) {
    for entry in images {
        if let Some((_, image)) = entry {
            files.keep(rt, image.into_stores(), said);
        }
    }
}

// An instruction at an address, or an arm that arrives.
fn call(channel: &mut Disks, line: &mut Line) {
    let at = line.half(1);
    let answer = match line.word(0) {
        "SIO" => Answer::Sio(at, channel.sio(at)),
        "TIO" => Answer::Tio(at, channel.tio(at)),
        "HIO" => Answer::Hio(at, channel.hio(at)),
        "ARRIVE" => Answer::Arrive(at, channel.arrive(at)),
        _ => return line.said.no("no call of this name with an address"),
    };
    answered(&answer, &mut line.said);
}

//! What stands on the stage, and which verb is whose.

use crate::channel::Disks;
use crate::channels::Several;
use crate::deck::Deck;
use crate::files::hold;
use crate::verbs::{Call, VERBS};
use s360_words::StorageFault;
use stage_drives::Alone;
use stage_files::{Files, Line, find};
use std::alloc::Global;

/// What stands on the stage.
#[derive(Drop)]
pub(crate) struct Stage {
    pub files: Files,
    pub channel: Option<Disks>,
    pub deck: Deck,
    /// What stands alone.
    pub alone: Alone,
    pub channels: Option<Several>,
}

/// Why no call is made of a channel.
pub(crate) const NO_CHANNEL: &str = "no channel: BEGIN 1 65536 makes one";

impl Stage {
    /// Nothing but storage.
    pub(crate) fn new(alloc: Global) -> Result<Stage, StorageFault> {
        Ok(Stage {
            files: Files::new(alloc),
            channel: None,
            deck: Deck::new(alloc),
            alone: Alone::new(alloc)?,
            channels: None,
        })
    }

    /// Does the call that a line asks for.
    pub(crate) fn answer(&mut self, rt: &HostRuntime, line: &mut Line) {
        if self.alone.answer(rt, &mut self.files, line) {
            return;
        }
        match find(&VERBS, line) {
            Some((kinds, call)) if line.read(rt.alloc(), kinds) => self.call(rt, call, line),
            Some(_) => {}
            None => self.event(rt.alloc(), line),
        }
    }

    fn call(&mut self, rt: &HostRuntime, call: &Call, line: &mut Line) {
        match call {
            Call::Says(text) => line.said.put(text),
            Call::News(news) => self.make_file(rt, *news, line),
            Call::Holds(holds) => hold(&mut self.files, *holds, line),
            Call::Makes(makes) => self.make(rt, *makes, line),
            Call::Acts(acts) => self.act(*acts, line),
            Call::Asks(asks) => self.ask(*asks, line),
            Call::Deck(deck) => self.play(rt.alloc(), deck, line),
            Call::Channels(call) => self.several(rt, call, line),
        }
    }
}

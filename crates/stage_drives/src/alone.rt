//! What stands alone on the stage, and whose verb is whose.

use crate::drive::Disk;
use crate::program::Program;
use crate::verbs::{Below, Call, VERBS};
use ckd_image::Image;
use s360_words::{Storage, StorageFault};
use stage_files::{FileStore, Files, Line, find};
use std::alloc::Global;

/// The bytes of storage.
const STORAGE: u32 = 65_536;

/// What stands alone: storage, a drive and a program at it, an image, a slot.
#[derive(Drop)]
pub struct Alone {
    /// The storage, which a channel can exchange for its own.
    pub storage: Storage,
    /// The drive, while no program runs at it.
    pub(crate) drive: Option<Disk>,
    /// The program that runs at it.
    pub(crate) program: Option<Program>,
    pub(crate) image: Option<Image<FileStore>>,
    pub(crate) slot: Vec<u8>,
}

impl Alone {
    /// Storage, and nothing else.
    ///
    /// # Errors
    ///
    /// Memory runs out.
    pub fn new(alloc: Global) -> Result<Alone, StorageFault> {
        Ok(Alone {
            storage: Storage::new(alloc, STORAGE)?,
            drive: None,
            program: None,
            image: None,
            slot: Vec::new(alloc),
        })
    }

    /// Does the call that a line asks for; whether the line's verb is one of what stands alone, and else nothing is done.
    pub fn answer(&mut self, rt: &HostRuntime, files: &mut Files, line: &mut Line) -> bool {
        let Some((kinds, call)) = find(&VERBS, line) else {
            return false;
        };
        if line.read(rt.alloc(), kinds) {
            match call {
                Call::Mounts(mounts) => self.mounts(rt, files, *mounts, line),
                call => self.call(rt.alloc(), call, line),
            }
        }
        true
    }

    fn call(&mut self, alloc: Global, call: &Call, line: &mut Line) {
        match call {
            Call::Mounts(_) => {}
            Call::Sees(sees) => self.see(*sees, line),
            Call::Steps(steps) => self.step(*steps, line),
            Call::Passes(passes) => self.pass(alloc, *passes, line),
            Call::Runs(runs) => self.run(*runs, line),
            Call::Changes(changes) => self.change_storage(alloc, *changes, line),
            Call::Looks(looks) => self.look_at_storage(*looks, line),
            Call::Below(below) => self.call_below(alloc, below, line),
        }
    }

    fn call_below(&mut self, alloc: Global, call: &Below, line: &mut Line) {
        match call {
            Below::Load => self.load(alloc, line),
            Below::Save => self.save(alloc, line),
            Below::Asks(asks) => self.ask_slot(alloc, *asks, line),
            Below::Writes(writes) => self.write_slot(*writes, line),
            Below::Measures(measures) => measures.say(line),
            Below::Words(words) => words.say(line),
            Below::Tables(tables) => self.say_table(*tables, line),
        }
    }
}

/// Puts a value into a place, whose own is dropped. The checker pays for all parts of a value of which a part is assigned; so a part that is
/// dropped is assigned here.
pub fn put<T: Drop>(place: &mut T, value: T) {
    *place = value;
}

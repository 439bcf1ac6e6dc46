//! Verbs of files.

use crate::stage::Stage;
use ckd_image::{Image, ImageStore, MemoryStore, image_len};
use stage_files::{File, Files, Line, MEMORY, NO_FILE, No, OUTSIDE, Word};
use std::alloc::{AllocError, Global};

/// Calls that make a file, or tell how long one is.
#[derive(Clone, Copy)]
pub(crate) enum News {
    File,
    New,
    Format,
    Length,
}

/// Calls of a file that is there.
#[derive(Clone, Copy)]
pub(crate) enum Holds {
    Fail,
    FailOn,
    Calls,
    Content,
    RecordPart,
    Put,
}

impl Stage {
    /// Makes a file, or formats what it holds.
    pub(crate) fn make_file(&mut self, rt: &HostRuntime, news: News, line: &mut Line) {
        match news {
            News::File => self.hold_bytes(rt.alloc(), line),
            News::New => self.make_new(rt, line),
            News::Format => self.format(rt, line),
            News::Length => {
                let length = image_len(line.model, line.half(1));
                line.said.answer("LENGTH", &[Word::Number(length)]);
            }
        }
    }

    // A file that holds the bytes of a line.
    fn hold_bytes(&mut self, alloc: Global, line: &mut Line) {
        let content = MemoryStore::new(alloc, line.bytes.as_slice());
        match self.set(alloc, line.word(0), content) {
            Ok(()) => line.said.ok(),
            Err(AllocError) => line.said.no(MEMORY),
        }
    }

    // A file of a new volume.
    fn make_new(&mut self, rt: &HostRuntime, line: &mut Line) {
        let content = MemoryStore::zeros(rt.alloc(), image_len(line.model, line.half(2)));
        match self.set(rt.alloc(), line.word(0), content) {
            Ok(()) => self.format(rt, line),
            Err(AllocError) => line.said.no(MEMORY),
        }
    }

    fn set(
        &mut self,
        alloc: Global,
        name: &str,
        content: Result<MemoryStore, AllocError>,
    ) -> Result<(), AllocError> {
        self.files.set(alloc, name, content?)
    }

    // Formats what a file holds.
    fn format(&mut self, rt: &HostRuntime, line: &mut Line) {
        let store = match self.files.store(rt, line.word(0)) {
            Ok(store) => store,
            Err(No(why)) => return line.said.no(why),
        };
        match Image::format(store, line.model, line.half(2)) {
            Ok(image) => self.files.release(rt, image, &mut line.said),
            Err((fault, store)) => {
                line.said.refused(&fault);
                self.files.keep_one(rt, store, &mut line.said);
            }
        }
    }
}

/// Makes a call of a file that is there.
pub(crate) fn hold(files: &mut Files, holds: Holds, line: &mut Line) {
    let Some(file) = files.file(line.word(0)) else {
        return line.said.no(NO_FILE);
    };
    match holds {
        Holds::Fail => fail(file, line, false),
        Holds::FailOn => fail(file, line, true),
        Holds::Calls => file.say_calls(&mut line.said),
        Holds::Content => line
            .said
            .answer("CONTENT", &[Word::Spelled(file.content.bytes())]),
        Holds::RecordPart => say_part(file.content.bytes(), line),
        Holds::Put => put(file, line),
    }
}

fn fail(file: &mut File, line: &mut Line, for_good: bool) {
    file.fails_at = line.wide(1);
    file.for_good = for_good;
    line.said.ok();
}

// So many bytes of a file.
fn say_part(content: &[u8], line: &mut Line) {
    let (at, n) = (line.size(1), line.size(2));
    if at > content.len() || n > content.len() - at {
        return line.said.put(OUTSIDE);
    }
    line.said
        .answer("CONTENT", &[Word::Spelled(&content[at..at + n])]);
}

fn put(file: &mut File, line: &mut Line) {
    let at = line.size(1) as u64;
    let is_put = at <= file.content.len()
        && file.content.write_at(at, line.bytes.as_slice()).is_ok();
    line.said.within(is_put);
}

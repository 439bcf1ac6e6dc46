//! The storage that stands beside.

use crate::alone::{Alone, put};
use crate::shown::say_ccw;
use s360_words::{ChannelStatus, Csw, Storage, UnitStatus};
use stage_files::{Line, OUTSIDE, Said, Word};
use std::alloc::Global;

/// Calls that change storage.
#[derive(Clone, Copy)]
pub(crate) enum Changes {
    New,
    Put,
    Key,
    Csw,
    Status,
    Store,
}

/// What storage shows.
#[derive(Clone, Copy)]
pub(crate) enum Looks {
    Size,
    Peek,
    From,
    Byte,
    Key,
    Caw,
    Ccw,
    Storable,
}

impl Alone {
    /// Changes storage.
    pub(crate) fn change_storage(&mut self, alloc: Global, changes: Changes, line: &mut Line) {
        match changes {
            Changes::New => self.new_storage(alloc, line.wide(0), &mut line.said),
            changes => change(&mut self.storage, changes, line),
        }
    }

    // Another storage.
    fn new_storage(&mut self, alloc: Global, size: u32, said: &mut Said) {
        match Storage::new(alloc, size) {
            Ok(storage) => {
                put(&mut self.storage, storage);
                said.ok();
            }
            Err(fault) => said.refused(&fault),
        }
    }

    /// Shows storage.
    pub(crate) fn look_at_storage(&self, looks: Looks, line: &mut Line) {
        let storage = &self.storage;
        match looks {
            Looks::Peek => say_peek(storage.slice(line.wide(0), line.wide(1)), &mut line.said),
            Looks::Key => say_key(storage.key(line.wide(0)), &mut line.said),
            Looks::Byte => say_byte(storage.byte(line.wide(0)), &mut line.said),
            Looks::Ccw => say_ccw_at(storage, line.wide(0), &mut line.said),
            looks => look(storage, looks, line),
        }
    }
}

fn change(storage: &mut Storage, changes: Changes, line: &mut Line) {
    let at = line.wide(0);
    match changes {
        Changes::Put => line.said.within(storage.put(at, line.bytes.as_slice())),
        Changes::Key => {
            let key = line.byte(1) % 16;
            line.said.within(storage.set_key(at, key));
        }
        Changes::Store => {
            let key = line.byte(2) % 16;
            let stored = storage.store(at, line.bytes.as_slice(), key);
            line.said.answer("STORED", &[Word::Number(stored as u64)]);
        }
        changes => put_status(storage, changes, line),
    }
}

fn put_status(storage: &mut Storage, changes: Changes, line: &mut Line) {
    if let Changes::Csw = changes {
        storage.put_csw(Csw::from_bytes(line.digits(0)));
    } else {
        storage.put_status(UnitStatus(line.byte(0)), ChannelStatus(line.byte(1)));
    }
    line.said.ok();
}

fn look(storage: &Storage, looks: Looks, line: &mut Line) {
    match looks {
        Looks::Size => line
            .said
            .answer("SIZE", &[Word::Number(storage.size() as u64)]),
        Looks::From => {
            let bytes = storage.bytes_from(line.wide(0), line.size(1));
            line.said.answer("FROM", &[Word::Spelled(bytes)]);
        }
        Looks::Caw => {
            let caw = storage.caw_word().to_be_bytes();
            line.said.answer("CAW", &[Word::Digits(&caw)]);
        }
        _ => {
            let storable = storage.storable(line.wide(0), line.wide(1), line.byte(2) % 16);
            line.said
                .answer("STORABLE", &[Word::Number(storable as u64)]);
        }
    }
}

fn say_byte(byte: Option<u8>, said: &mut Said) {
    match byte {
        Some(byte) => said.answer("BYTE", &[Word::Byte(byte)]),
        None => said.put(OUTSIDE),
    }
}

fn say_ccw_at(storage: &Storage, at: u32, said: &mut Said) {
    match storage.ccw_at(at) {
        Some(ccw) => {
            said.put("CCW");
            say_ccw(ccw, said);
        }
        None => said.put(OUTSIDE),
    }
}

/// Says bytes of storage, where they are within it.
pub fn say_peek(bytes: Option<&[u8]>, said: &mut Said) {
    match bytes {
        Some(bytes) => said.answer("PEEK", &[Word::Spelled(bytes)]),
        None => said.put(OUTSIDE),
    }
}

/// Says the key of a block, where it is within storage.
pub fn say_key(key: Option<u8>, said: &mut Said) {
    match key {
        Some(key) => said.answer("KEYOF", &[Word::Hex(key as u64)]),
        None => said.put(OUTSIDE),
    }
}

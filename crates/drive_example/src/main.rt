//! How an emulator's author uses a drive: a volume is made in memory and mounted; a record is written, found by its identifier,
//! read and updated; a write is halted in its middle; and the image comes back. Each call goes by `phase` alone, which says what
//! may be called next, so that nothing has to be proved about it.
#![tactic(auto)]

use ckd_drive::{Begun, Drive, Phase};
use ckd_image::{Image, MemoryStore, image_len};
use ckd_track::DriveModel;
use s360_words::UnitStatus;
use std::alloc::Global;
use std::process::ExitCode;

const SEEK: u8 = 0x07;

const SEARCH_ID_EQUAL: u8 = 0x31;

const READ_DATA: u8 = 0x06;

const WRITE_COUNT_KEY_AND_DATA: u8 = 0x1D;

const WRITE_DATA: u8 = 0x05;

const SET_FILE_MASK: u8 = 0x1F;

/// Channel end and device end.
const CHANNEL_AND_DEVICE_END: UnitStatus = UnitStatus(0x0C);

/// These and status modifier: a search is satisfied.
const END_WITH_STATUS_MODIFIER: UnitStatus = UnitStatus(0x4C);

/// Channel end alone: the arm still moves.
const CHANNEL_END_ALONE: UnitStatus = UnitStatus(0x08);

/// The most calls of one command: a search that fails passes the index twice.
const MOST_CALLS: usize = 100;

/// A command from its beginning to its end, with these bytes to be given or taken; the unit status, if it began and ended.
fn command(drive: &mut Drive<MemoryStore>, code: u8, bytes: &mut [u8]) -> Option<UnitStatus> {
    let Phase::Idle = drive.phase() else {
        return None;
    };
    if drive.begin(code) == Begun::Rejected {
        return None;
    }
    let mut moved = 0;
    for _ in 0..MOST_CALLS {
        match drive.phase() {
            Phase::Idle => return None,
            Phase::Over => return Some(drive.end().unit),
            Phase::Looking => {
                drive.look();
            }
            Phase::Gives { left, .. } => {
                let n = left.min(bytes.len() - moved);
                if n == 0 {
                    return Some(drive.end().unit);
                }
                drive.give(&mut bytes[moved..moved + n]);
                moved += n;
            }
            Phase::Takes { left, .. } => {
                let n = left.min(bytes.len() - moved);
                if n == 0 {
                    return Some(drive.end().unit);
                }
                drive.take(&bytes[moved..moved + n]);
                moved += n;
                drive.look();
            }
        }
    }
    None
}

/// What a command came to, in words.
fn told(ending: Option<UnitStatus>) -> &'static str {
    match ending {
        Some(CHANNEL_AND_DEVICE_END) => "ended",
        Some(CHANNEL_END_ALONE) => "ended, the arm moves",
        Some(_) => "ended with a check",
        None => "not begun",
    }
}

/// Searches until the identifier is found: it is there, or the track has passed twice.
fn search(drive: &mut Drive<MemoryStore>, identifier: [u8; 5]) -> bool {
    for _ in 0..MOST_CALLS {
        let mut identifier = identifier;
        match command(drive, SEARCH_ID_EQUAL, &mut identifier) {
            Some(END_WITH_STATUS_MODIFIER) => return true,
            Some(CHANNEL_AND_DEVICE_END) => {}
            _ => return false,
        }
    }
    false
}

/// A new volume of a 2311 in memory, and a drive over it.
fn mount(alloc: Global) -> Option<Drive<MemoryStore>> {
    let store = MemoryStore::zeros(alloc, image_len(DriveModel::D2311, 2)).ok()?;
    let image = Image::format(store, DriveModel::D2311, 2).ok()?;
    Drive::new(alloc, image).ok()
}

/// The image, once the track is saved: the drive is idle, and nothing is written then.
fn unmount(mut drive: Drive<MemoryStore>) -> Option<Image<MemoryStore>> {
    if let Phase::Idle | Phase::Over | Phase::Looking = drive.phase() {
        let _ = drive.settle();
    }
    if drive.phase() == Phase::Idle && !drive.is_written() {
        Some(drive.into_image())
    } else {
        None
    }
}

fn main(rt: HostRuntime) -> ExitCode {
    let Some(mut drive) = mount(rt.alloc()) else {
        return ExitCode::FAILURE;
    };
    drive_through(&rt, &mut drive);
    let image = unmount(drive);
    let _ = println!(rt; "image back: {}", image.is_some());
    ExitCode::SUCCESS
}

/// The calls of a day.
fn drive_through(rt: &HostRuntime, drive: &mut Drive<MemoryStore>) {
    if drive.phase() == Phase::Idle {
        drive.begin_program();
    }
    let seek = told(command(drive, SEEK, &mut [0, 0, 0, 1, 0, 0]));
    let _ = println!(rt; "seek to cylinder 1: {seek}");
    let mask = told(command(drive, SET_FILE_MASK, &mut [0xC0]));
    let _ = println!(rt; "file mask: {mask}");
    let found = search(drive, [0, 1, 0, 0, 0]);
    let mut record = [0, 1, 0, 0, 1, 0, 0, 4, 11, 12, 13, 14];
    let written = told(command(drive, WRITE_COUNT_KEY_AND_DATA, &mut record));
    let _ = println!(rt; "record 0 found: {found}, record 1 written: {written}");
    let found = search(drive, [0, 1, 0, 0, 1]);
    let mut data = [0; 4];
    let read = told(command(drive, READ_DATA, &mut data));
    let _ = println!(rt; "record 1 found: {found}, read: {read} {data:?}");
    let found = search(drive, [0, 1, 0, 0, 1]);
    let halted = told(command(drive, WRITE_DATA, &mut [21, 22]));
    let _ = println!(rt; "record 1 found: {found}, an update halted after two bytes: {halted}");
    let found = search(drive, [0, 1, 0, 0, 1]);
    let read = told(command(drive, READ_DATA, &mut data));
    let _ = println!(rt; "record 1 found: {found}, read: {read} {data:?}");
}

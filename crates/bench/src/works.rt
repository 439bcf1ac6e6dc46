//! The works: a channel program for each track of the volume, or for each cylinder.

use crate::volume::Disk;
use std::fmt;
use std::fmt::Display;

const NO_OPERATION: u8 = 0x03;

pub(crate) const SEEK: u8 = 0x07;

pub(crate) const SEARCH_HOME_ADDRESS: u8 = 0x39;

pub(crate) const SEARCH_ID: u8 = 0x31;

pub(crate) const READ_R0: u8 = 0x16;

pub(crate) const READ_DATA: u8 = 0x06;

pub(crate) const READ_DATA_MULTI_TRACK: u8 = 0x86;

pub(crate) const READ_COUNT_KEY_AND_DATA: u8 = 0x1E;

pub(crate) const WRITE_COUNT_KEY_AND_DATA: u8 = 0x1D;

pub(crate) const WRITE_DATA: u8 = 0x05;

/// The heads of a 2314, each of which has one track of a cylinder.
pub(crate) const HEADS: u16 = 20;

/// The records of a track behind R0, and the data bytes of each.
pub(crate) const RECORDS: u8 = 7;

pub(crate) const DATA: usize = 900;

/// The data bytes of the longest record that a track takes.
pub(crate) const LONG_DATA: usize = 7294;

/// The records of one data byte on a track, where single commands are measured.
const SHORT_RECORDS: u8 = 60;

/// What is done on each track, or on each cylinder.
#[derive(Clone, Copy, PartialEq)]
pub(crate) enum Work {
    /// Seek, Search Identifier of record 1 until it is found, seven Read Data.
    SearchAndRead,
    /// Seek, seven Read Count, Key and Data.
    ReadWhole,
    /// On each cylinder: Seek, 140 Read Data with the multi-track bit.
    ReadCylinder,
    /// Seek, Search Identifier of record 1 until it is found, Read Data of 7,294 bytes.
    ReadLong,
    /// Seek, Search Home Address, Read R0, seven Read Data.
    ReadFromHomeAddress,
    /// Seek, Search Identifier of record 1 until it is found, Write Data.
    Update,
    /// Seek, Search Identifier of record 0, seven Write Count, Key and Data.
    Format,
    /// For each cylinder 1,200 Read Data of one byte, all on the first track.
    OneRead,
    /// For each cylinder 1,200 Search Identifier, all on the first track.
    OneSearch,
    /// Seek, Search Identifier of record 0, sixty Write Count, Key and Data of one byte.
    OneFormat,
}

/// Each work.
pub(crate) const WORKS: [Work; 10] = [
    Work::SearchAndRead,
    Work::ReadWhole,
    Work::ReadCylinder,
    Work::ReadLong,
    Work::ReadFromHomeAddress,
    Work::Update,
    Work::Format,
    Work::OneRead,
    Work::OneSearch,
    Work::OneFormat,
];

/// The works that are done by whole channel programs too.
pub(crate) const PROGRAMS: [Work; 7] = [
    Work::SearchAndRead,
    Work::ReadWhole,
    Work::ReadCylinder,
    Work::ReadLong,
    Work::ReadFromHomeAddress,
    Work::Update,
    Work::Format,
];

impl Work {
    /// The letter that asks for the work.
    fn letter(self) -> &'static str {
        match self {
            Work::SearchAndRead => "A",
            Work::ReadWhole => "B",
            Work::ReadCylinder => "C",
            Work::ReadLong => "D",
            Work::ReadFromHomeAddress => "S",
            Work::Update => "U",
            Work::Format => "W",
            Work::OneRead => "R",
            Work::OneSearch => "I",
            Work::OneFormat => "F",
        }
    }

    /// The work that a letter asks for.
    pub(crate) fn of_letter(letter: &str) -> Option<Work> {
        WORKS.iter().copied().find(|work| work.letter() == letter)
    }

    /// Writes the records that the work reads.
    pub(crate) fn prepare(self, disk: &mut Disk, cylinders: u16) {
        match self {
            Work::Format | Work::OneFormat => {}
            Work::ReadLong => fill(disk, cylinders, 1, &[0xC1; LONG_DATA]),
            Work::OneRead | Work::OneSearch => fill(disk, 1, SHORT_RECORDS, &[0xC1]),
            Work::SearchAndRead
            | Work::ReadWhole
            | Work::ReadCylinder
            | Work::ReadFromHomeAddress
            | Work::Update => fill(disk, cylinders, RECORDS, &[0xC1; DATA]),
        }
    }

    /// Does the work once.
    pub(crate) fn run(self, disk: &mut Disk, cylinders: u16) {
        match self {
            Work::Format => fill(disk, cylinders, RECORDS, &[0xC1; DATA]),
            Work::OneFormat => fill(disk, cylinders, SHORT_RECORDS, &[0xC1]),
            Work::ReadCylinder | Work::OneRead | Work::OneSearch => {
                self.on_cylinders(disk, cylinders);
            }
            _ => self.on_tracks(disk, cylinders),
        }
    }

    fn on_cylinders(self, disk: &mut Disk, cylinders: u16) {
        for cylinder in 0..cylinders {
            disk.begin_program();
            match self {
                Work::OneRead => repeat_reads(disk),
                Work::OneSearch => repeat_searches(disk),
                _ => read_cylinder(disk, cylinder),
            }
            disk.end_program();
        }
    }

    fn on_tracks(self, disk: &mut Disk, cylinders: u16) {
        let mut buffer = [0; LONG_DATA];
        for cylinder in 0..cylinders {
            for head in 0..HEADS {
                disk.begin_program();
                self.on_track(disk, cylinder, head, &mut buffer);
                disk.end_program();
            }
        }
    }

    fn on_track(self, disk: &mut Disk, cylinder: u16, head: u16, buffer: &mut [u8]) {
        seek(disk, cylinder, head);
        match self {
            Work::ReadWhole => read_all(disk, READ_COUNT_KEY_AND_DATA, RECORDS, buffer),
            Work::ReadFromHomeAddress => {
                search_home_address(disk, cylinder, head);
                disk.read(READ_R0, buffer);
                read_all(disk, READ_DATA, RECORDS, buffer);
            }
            Work::Update => {
                find_first(disk, cylinder, head);
                disk.write(WRITE_DATA, &[0xC2; DATA]);
            }
            Work::ReadLong => {
                find_first(disk, cylinder, head);
                disk.read(READ_DATA, buffer);
            }
            _ => {
                find_first(disk, cylinder, head);
                read_all(disk, READ_DATA, RECORDS, buffer);
            }
        }
    }
}

impl Display for Work {
    fn fmt<W: fmt::Write>(&self, f: &mut fmt::Formatter<W>) -> fmt::Result {
        f.write_str(self.letter())
    }
}

/// Puts records behind R0 of each track, so many, each of these data bytes.
fn fill(disk: &mut Disk, cylinders: u16, records: u8, body: &[u8]) {
    for cylinder in 0..cylinders {
        for head in 0..HEADS {
            disk.begin_program();
            seek(disk, cylinder, head);
            search(disk, cylinder, head, 0);
            fill_track(disk, cylinder, head, records, body);
            disk.end_program();
        }
    }
}

fn fill_track(disk: &mut Disk, cylinder: u16, head: u16, records: u8, body: &[u8]) {
    let [c0, c1] = cylinder.to_be_bytes();
    let [h0, h1] = head.to_be_bytes();
    let [d0, d1] = u16::try_from(body.len()).unwrap_or(0).to_be_bytes();
    for record in 1..=records {
        let count = [c0, c1, h0, h1, record, 0, d0, d1];
        disk.format(WRITE_COUNT_KEY_AND_DATA, count, body);
    }
}

fn seek(disk: &mut Disk, cylinder: u16, head: u16) {
    let [c0, c1] = cylinder.to_be_bytes();
    let [h0, h1] = head.to_be_bytes();
    disk.write(SEEK, &[0, 0, c0, c1, h0, h1]);
}

fn search_home_address(disk: &mut Disk, cylinder: u16, head: u16) {
    let [c0, c1] = cylinder.to_be_bytes();
    let [h0, h1] = head.to_be_bytes();
    disk.write(SEARCH_HOME_ADDRESS, &[c0, c1, h0, h1]);
}

fn search(disk: &mut Disk, cylinder: u16, head: u16, record: u8) {
    let [c0, c1] = cylinder.to_be_bytes();
    let [h0, h1] = head.to_be_bytes();
    disk.write(SEARCH_ID, &[c0, c1, h0, h1, record]);
}

/// Searches for record 1 from the index on: record 0 is another, and the next is found.
fn find_first(disk: &mut Disk, cylinder: u16, head: u16) {
    search(disk, cylinder, head, 1);
    search(disk, cylinder, head, 1);
}

fn read_all(disk: &mut Disk, code: u8, times: u8, buffer: &mut [u8]) {
    for _ in 0..times {
        disk.read(code, buffer);
    }
}

fn read_cylinder(disk: &mut Disk, cylinder: u16) {
    let mut buffer = [0; DATA];
    seek(disk, cylinder, 0);
    for _ in 0..HEADS {
        read_all(disk, READ_DATA_MULTI_TRACK, RECORDS, &mut buffer);
    }
}

/// Twenty times sixty reads on the first track, with a No-Operation behind each sixty.
fn repeat_reads(disk: &mut Disk) {
    let mut byte = [0; 1];
    seek(disk, 0, 0);
    for _ in 0..20u8 {
        read_all(disk, READ_DATA, SHORT_RECORDS, &mut byte);
        disk.read(NO_OPERATION, &mut byte);
    }
}

/// Twenty times sixty searches on the first track, with a No-Operation behind each sixty: so none goes round the track twice.
fn repeat_searches(disk: &mut Disk) {
    seek(disk, 0, 0);
    for _ in 0..20u8 {
        for _ in 0..SHORT_RECORDS {
            search(disk, 0, 0, 0);
        }
        disk.read(NO_OPERATION, &mut []);
    }
}

//! A slot, as it is written.

use crate::alone::Alone;
use crate::slot::record_before;
use ckd_track::{
    clear_area, end_offset_of, fits, put_data, put_key_data, put_record, read_slot, write_ha,
};
use stage_files::{Line, No, Word};

/// Writes into the slot.
#[derive(Clone, Copy)]
pub(crate) enum Writes {
    Home,
    Record,
    Zeros,
    Data,
    Body,
}

const NOT_READ: No = No("the slot is not read");

const OTHER_RECORD: No = No("no such record, or another length");

impl Alone {
    /// Writes into the slot, and shows it.
    pub(crate) fn write_slot(&mut self, writes: Writes, line: &mut Line) {
        let slot = self.slot.as_mut_slice();
        let written = match writes {
            Writes::Home => write_home(slot, line.bytes.as_slice()),
            Writes::Record => write_record(slot, line),
            Writes::Zeros => write_zeros(slot, line.size(0), line.size(1)),
            Writes::Data => write_data(slot, line.size(0), line.bytes.as_slice()),
            Writes::Body => write_body(slot, line.size(0), line.bytes.as_slice()),
        };
        match written {
            Ok(()) => line
                .said
                .answer("SLOT", &[Word::Spelled(self.slot.as_slice())]),
            Err(No(why)) => line.said.no(why),
        }
    }
}

// Writes a home address, where the slot has room for it and an end mark.
fn write_home(slot: &mut [u8], home: &[u8]) -> Result<(), No> {
    let Some(home) = home.first_chunk::<5>() else {
        return Err(No("no home address"));
    };
    if slot.len() < 13 {
        return Err(No("the slot is too short"));
    }
    write_ha(slot, *home);
    Ok(())
}

// Writes a record, where it fits a track of the drive.
fn write_record(slot: &mut [u8], line: &Line) -> Result<(), No> {
    let (after, areas) = (record_before(line, 1), line.bytes.as_slice());
    let Some(count) = line.first.as_slice().first_chunk::<8>() else {
        return Err(No("no count area"));
    };
    let data_length = u16::from_be_bytes([count[6], count[7]]);
    if slot.len() < line.model.capacity() as usize + 37 {
        return Err(No("the slot is too short"));
    }
    if areas.len() != count[5] as usize + data_length as usize {
        return Err(No("the areas have other lengths"));
    }
    let Ok(view) = read_slot(slot) else {
        return Err(NOT_READ);
    };
    if let Some(record) = after {
        if view.len() <= record {
            return Err(No("no such record"));
        }
    }
    if !fits(line.model, &view, after, count[5], data_length) {
        return Err(No("it does not fit"));
    }
    put_record(slot, after, *count, areas);
    Ok(())
}

// Writes zeros in the place of bytes before the end mark.
fn write_zeros(slot: &mut [u8], at: usize, n: usize) -> Result<(), No> {
    if read_slot(slot).is_err() {
        return Err(NOT_READ);
    }
    let end = end_offset_of(slot);
    if at > end || n > end - at {
        return Err(No("behind the end mark"));
    }
    let zeros_from = slot.len();
    clear_area(slot, at, n, end, zeros_from);
    Ok(())
}

// Writes the data of a record that has so many bytes of it.
fn write_data(slot: &mut [u8], record: usize, data: &[u8]) -> Result<(), No> {
    let Ok(view) = read_slot(slot) else {
        return Err(NOT_READ);
    };
    if view.len() <= record || view.data_of(record).len() != data.len() {
        return Err(OTHER_RECORD);
    }
    put_data(slot, record, data);
    Ok(())
}

// Writes the key and the data of a record that has so many bytes of them.
fn write_body(slot: &mut [u8], record: usize, body: &[u8]) -> Result<(), No> {
    let Ok(view) = read_slot(slot) else {
        return Err(NOT_READ);
    };
    if view.len() <= record
        || view.key_of(record).len() + view.data_of(record).len() != body.len()
    {
        return Err(OTHER_RECORD);
    }
    put_key_data(slot, record, body);
    Ok(())
}

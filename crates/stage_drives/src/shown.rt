//! How programs, drives and volumes are printed.

use ckd_command::{Credit, Lap, Registers};
use ckd_position::{Area, Position, RecordPart};
use ckd_sense::{FileMask, SeekPermission, WritePermission};
use ckd_track::Geometry;
use s360_program::view::{AtWork, ProgramView};
use s360_words::Ccw;
use stage_files::{Said, Word, yes};

/// A program between two units.
pub fn say_program(view: &ProgramView, said: &mut Said) {
    said.words(&[
        Word::Text("KEY"),
        Word::Hex(view.key as u64),
        Word::Text("LAST"),
        Word::Hex(view.last as u64),
        Word::Text("NEXT"),
        Word::Hex(view.next as u64),
        Word::Text("LEFT"),
        Word::Number(view.residual as u64),
        Word::Text("ASKS"),
        yes(view.interruption),
    ]);
    say_work(view.at_work, said);
}

fn say_work(work: AtWork, said: &mut Said) {
    match work {
        AtWork::Fetching => said.put(" AT fetching"),
        AtWork::Looking(ccw) => {
            said.put(" AT looking");
            say_ccw(ccw, said);
        }
        AtWork::Moving(ccw, at) => {
            said.put(" AT moving");
            say_ccw(ccw, said);
            said.words(&[Word::Hex(at as u64)]);
        }
    }
}

/// A channel command word: code, address, flags and count.
pub(crate) fn say_ccw(ccw: Ccw, said: &mut Said) {
    said.words(&[
        Word::Byte(ccw.code),
        Word::Hex(ccw.address as u64),
        Word::Byte(ccw.flags.0),
        Word::Number(ccw.count as u64),
    ]);
}

/// A model and cylinders of a volume, and the size of its slots.
pub fn say_geometry(geometry: Geometry, said: &mut Said) {
    said.answer(
        "IMAGE",
        &[
            Word::Number(geometry.model.number() as u64),
            Word::Text("CYLINDERS"),
            Word::Number(geometry.cylinders as u64),
            Word::Text("SLOTS"),
            Word::Number(geometry.track_size as u64),
        ],
    );
}

/// What a drive remembers beside its volume.
pub fn say_registers(registers: &Registers, said: &mut Said) {
    let sense = registers.sense.to_bytes();
    said.words(&[
        Word::Text("AT"),
        Word::Number(registers.cylinder as u64),
        Word::Number(registers.head as u64),
        Word::Text("SENSE"),
        Word::Digits(&sense),
        Word::Text("BEHIND"),
    ]);
    say_position(registers.position, said);
    said.words(&[
        Word::Text("MASK"),
        Word::Byte(byte_of(registers.file_mask)),
        Word::Text("SET"),
        yes(registers.mask_set),
        Word::Text("CREDIT"),
    ]);
    say_credit(registers.credit, said);
    said.put(match registers.lap {
        Lap::First => " LAP 1",
        Lap::Second => " LAP 2",
    });
}

// The byte that sets a file mask.
fn byte_of(mask: FileMask) -> u8 {
    let writes = match mask.writes {
        WritePermission::InhibitHomeAddressAndR0 => 0x00,
        WritePermission::InhibitAllWrites => 0x40,
        WritePermission::InhibitFormatWrites => 0x80,
        WritePermission::PermitAllWrites => 0xC0,
    };
    let seeks = match mask.seeks {
        SeekPermission::PermitAllSeeks => 0x00,
        SeekPermission::PermitSeekCylinderAndHead => 0x08,
        SeekPermission::PermitSeekHead => 0x10,
        SeekPermission::InhibitAllSeeks => 0x18,
    };
    writes | seeks
}

// What the command just before left.
fn say_credit(credit: Option<Credit>, said: &mut Said) {
    match credit {
        None => said.put(" NONE"),
        Some(Credit::EqualHomeAddress) => said.put(" EQUAL-HOME"),
        Some(Credit::WroteHomeAddress) => said.put(" WROTE-HOME"),
        Some(Credit::EqualId(record)) => say_record(" EQUAL-ID", record, said),
        Some(Credit::EqualKey(record)) => say_record(" EQUAL-KEY", record, said),
        Some(Credit::WroteRecord(record)) => say_record(" WROTE-RECORD", record, said),
    }
}

// Where on a turn of the track a drive is: `INDEX`, `HOME`, or the part of a record that passed.
fn say_position(position: Position, said: &mut Said) {
    match position {
        Position::AtIndex => said.put(" INDEX"),
        Position::At(Area::HomeAddress) => said.put(" HOME"),
        Position::At(Area::Of(RecordPart::Count, record)) => say_record(" COUNT", record, said),
        Position::At(Area::Of(RecordPart::Key, record)) => say_record(" KEY", record, said),
        Position::At(Area::Of(RecordPart::Data, record)) => say_record(" DATA", record, said),
    }
}

fn say_record(name: &str, record: usize, said: &mut Said) {
    said.answer(name, &[Word::Number(record as u64)]);
}

/// Whether the arm still moves.
pub(crate) fn moves(motion: bool) -> Word<'static> {
    Word::Text(if motion { "moves" } else { "still" })
}

/// A track that was not saved, if there is one.
pub(crate) fn say_track(track: Option<(u16, u16)>, said: &mut Said) {
    match track {
        Some((cylinder, head)) => said.answer(
            " UNSAVED",
            &[Word::Number(cylinder as u64), Word::Number(head as u64)],
        ),
        None => said.put(" UNSAVED NONE"),
    }
}

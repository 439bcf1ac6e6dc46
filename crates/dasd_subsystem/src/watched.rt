//! What a C program is shown of a channel program that runs, and of what its drive remembers beside its volume.

ghost use Rattle.std.specs.Prelude.{◌≡◌, ◌≤◌};
ghost use Rattle.dasd_subsystem.specs.Watched.{credit_of, has_second, mask_byte, passed, phase_of, place_of, program_shown, registers_shown};
ghost use Rattle.dasd_subsystem.specs.Watched.{seeks_byte, word_of, writes_byte};

use ckd_command::{Credit, Lap, Registers};
use ckd_position::{Area, Position, RecordPart};
use ckd_sense::{FileMask, SeekPermission, WritePermission};
use s360_channel::Watched;
use s360_program::view::AtWork;
use s360_words::{Ccw, CcwFlags};

/// A channel program that runs, as it is seen between two units.
#[repr(C)]
#[derive(Clone, Copy)]
pub struct ShownProgram {
    /// Where the last word was whose fetch was tried.
    pub last: u32,
    /// Where the next word is.
    pub next: u32,
    /// The data address of the word at work.
    pub address: u32,
    /// Where the next byte goes or comes from.
    pub place: u32,
    /// The count of the word at work.
    pub count: u16,
    /// The count left: the residual count.
    pub residual: u16,
    /// The low byte of its drive's address.
    pub device: u8,
    /// The protection key of its stores.
    pub key: u8,
    /// What the next unit does: 0 it fetches a word that begins a command, 1 it looks for the area of the command at work, 2 it moves a byte.
    pub phase: u8,
    /// Whether an interruption is asked for and not yet taken, 1 or 0.
    pub asked: u8,
    /// The command code of the word at work.
    pub code: u8,
    /// Its flags.
    pub flags: u8,
    /// 0.
    pub reserved: [u8; 2],
}

impl ShownProgram {
    /// What is shown of this.
    pub fn of(seen: Watched) -> ShownProgram
        ensures { result ≡ program_shown seen }
    {
        let program = seen.program;
        let word = word_of(program.at_work);
        ShownProgram {
            last: program.last,
            next: program.next,
            address: word.address,
            place: place_of(program.at_work),
            count: word.count,
            residual: program.residual,
            device: seen.device,
            key: program.key,
            phase: phase_of(program.at_work),
            asked: program.interruption as u8,
            code: word.code,
            flags: word.flags.0,
            reserved: [0, 0],
        }
    }
}

fn phase_of(work: AtWork) -> u8
    ensures { result ≡ phase_of work }
{
    match work {
        AtWork::Fetching => 0,
        AtWork::Looking(_) => 1,
        AtWork::Moving(_, _) => 2,
    }
}

// The word at work; zeros where one is fetched.
pub(crate) fn word_of(work: AtWork) -> Ccw
    ensures { result ≡ word_of work }
{
    match work {
        AtWork::Fetching => Ccw {
            code: 0,
            address: 0,
            flags: CcwFlags(0),
            count: 0,
        },
        AtWork::Looking(word) => word,
        AtWork::Moving(word, _) => word,
    }
}

pub(crate) fn place_of(work: AtWork) -> u32
    ensures { result ≡ place_of work }
{
    match work {
        AtWork::Fetching => 0,
        AtWork::Looking(word) => word.address,
        AtWork::Moving(_, place) => place,
    }
}

/// All that a drive remembers beside its volume, as it is shown.
#[repr(C)]
#[derive(Clone, Copy)]
pub struct ShownRegisters {
    /// The record whose area passed last, by its place on the track, where record 0 is 0.
    pub passed: usize,
    /// The record that the credit is for, by its place.
    pub credited: usize,
    /// The cylinder where the arm is.
    pub cylinder: u16,
    /// The head.
    pub head: u16,
    /// The sense bytes.
    pub sense: [u8; 6],
    /// The area that passed last: 0 none since the index, 1 the home address, 2 a count, 3 a key, 4 a data area.
    pub area: u8,
    /// How often the index has passed since the commands began to look on this track: 0, or 1 for once.
    pub lap: u8,
    /// The file mask, as Set File Mask takes it.
    pub mask: u8,
    /// Whether a Set File Mask has set it in this program, 1 or 0.
    pub mask_set: u8,
    /// What the command just before left for the next: 0 nothing; equal was 1 the home address, 2 an identifier, 3 a key; written were 4 the
    /// home address, 5 a record.
    pub credit: u8,
    /// 0.
    pub reserved: [u8; 3],
}

impl ShownRegisters {
    /// What is shown of these.
    pub fn of(registers: &Registers) -> ShownRegisters
        ensures { result ≡ registers_shown registers.now }
    {
        let (area, passed) = passed(registers.position);
        let (credit, credited) = credit_of(registers.credit);
        ShownRegisters {
            passed,
            credited,
            cylinder: registers.cylinder,
            head: registers.head,
            sense: registers.sense.to_bytes(),
            area,
            lap: has_second(registers.lap),
            mask: mask_byte(registers.file_mask),
            mask_set: registers.mask_set as u8,
            credit,
            reserved: [0, 0, 0],
        }
    }
}

fn passed(position: Position) -> (u8, usize)
    ensures { result ≡ passed position }
{
    match position {
        Position::AtIndex => (0, 0),
        Position::At(Area::HomeAddress) => (1, 0),
        Position::At(Area::Of(RecordPart::Count, record)) => (2, record),
        Position::At(Area::Of(RecordPart::Key, record)) => (3, record),
        Position::At(Area::Of(RecordPart::Data, record)) => (4, record),
    }
}

fn credit_of(credit: Option<Credit>) -> (u8, usize)
    ensures { result ≡ credit_of credit }
{
    match credit {
        None => (0, 0),
        Some(Credit::EqualHomeAddress) => (1, 0),
        Some(Credit::EqualId(record)) => (2, record),
        Some(Credit::EqualKey(record)) => (3, record),
        Some(Credit::WroteHomeAddress) => (4, 0),
        Some(Credit::WroteRecord(record)) => (5, record),
    }
}

fn has_second(lap: Lap) -> u8
    ensures { result ≡ has_second lap }
{
    match lap {
        Lap::First => 0,
        Lap::Second => 1,
    }
}

fn mask_byte(mask: FileMask) -> u8
    ensures { result ≡ mask_byte mask }
{
    writes_byte(mask.writes) + seeks_byte(mask.seeks)
}

fn writes_byte(writes: WritePermission) -> u8
    ensures byte { result ≡ writes_byte writes }
    ensures few { result ≤ 192 }
{
    match writes {
        WritePermission::InhibitHomeAddressAndR0 => 0x00,
        WritePermission::InhibitAllWrites => 0x40,
        WritePermission::InhibitFormatWrites => 0x80,
        WritePermission::PermitAllWrites => 0xC0,
    }
}

fn seeks_byte(seeks: SeekPermission) -> u8
    ensures byte { result ≡ seeks_byte seeks }
    ensures few { result ≤ 24 }
{
    match seeks {
        SeekPermission::PermitAllSeeks => 0x00,
        SeekPermission::PermitSeekCylinderAndHead => 0x08,
        SeekPermission::PermitSeekHead => 0x10,
        SeekPermission::InhibitAllSeeks => 0x18,
    }
}

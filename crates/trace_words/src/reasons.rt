//! Why a program ended with a check, in words.

ghost use Rattle.std.specs.Prelude.{◌≡◌, ◌++◌, Some, find};
ghost use Rattle.std.specs.Fmt.{WritesOnOk};
ghost use Rattle.trace_words.specs.Reasons.{check_reason_text, word_fault_text, length_text, sense_reason_text, unit_check_text, has_cause, cause_of};
ghost use Rattle.trace_words.specs.Reasons.{cause_reason_text, sequence_text, seek_text, bare_track, bare_track_text, compared_text};
ghost use Rattle.trace_words.specs.Reasons.{place_text, cylinder_text, cylinders_text, head_text, last_head_text, room_text, argument_text, home_address_text};
ghost use Rattle.trace_words.specs.Reasons.{block_key_text, program_key_text, outside_text};

use crate::numbers::{Bytes, KeyDigit, StorageAddress};
use bitflags::Flags;
use ckd_sense::{Command, Sense};
use counted_io::Quantity;
use s360_explain::cause_text;
use s360_words::Ccw;
use std::fmt;

/// Why the channel ended a program, or did not begin it.
#[derive(Clone, Copy)]
pub enum CheckReason {
    /// A bit of the channel address word is on that must be zero.
    AddressWord,
    /// The word at this address, if one can stand there, was not taken.
    Word(u32, Option<Ccw>),
    /// Bytes and count are not of one length: so much of the count is left.
    Length(u16),
    /// An address under the word can't be used.
    Address,
    /// The block at an address has a key, and the program another.
    Key(u32, u8, u8),
    /// An address is outside storage, which has so many bytes.
    Outside(u32, u32),
}

/// Why a command ended in unit check.
#[derive(Clone, Copy)]
pub enum SenseReason {
    /// What the sense is reported for, of the command of a code.
    Cause(u8, Sense),
    /// The volume has no such place.
    NoPlace(NoPlace),
    /// A new record does not fit its track.
    NoRoom(NoRoom),
    /// The search right before it compared so many bytes.
    TooFew(Compared),
    /// So many bytes came of an argument that has so many.
    Argument(u32, u32),
    /// It must be the home address of the track at a cylinder and a head.
    HomeAddress(u16, u16),
    /// The track has not what the command looks for.
    BareTrack(BareTrack),
}

/// A place to which a seek was to go that the volume has not.
#[derive(Clone, Copy)]
pub struct NoPlace {
    /// Whether bin and cylinder are the seek's too, and not the head alone.
    pub has_cylinder: bool,
    /// The bin.
    pub bin: u16,
    /// The cylinder.
    pub cylinder: u16,
    /// The head.
    pub head: u16,
    /// The last cylinder of the volume.
    pub last_cylinder: u16,
    /// Its last head.
    pub last_head: u16,
}

/// A new record that does not fit.
#[derive(Clone, Copy)]
pub struct NoRoom {
    /// Its key length.
    pub key: u8,
    /// Its data length.
    pub data: u16,
    /// What it takes of the track.
    pub takes: u32,
    /// What is left of that.
    pub left: u32,
}

/// How many bytes a search compared, and of how many where that is known.
#[derive(Clone, Copy)]
pub struct Compared {
    /// So many.
    pub count: u32,
    /// Of so many.
    pub of: Option<u32>,
}

/// What a track lacks on which a command that has seen all of it found no area.
#[derive(Clone, Copy)]
pub enum BareTrack {
    /// No record behind record 0 has a key.
    NoKey,
    /// There is no record 1.
    NoRecord1,
    /// There is no record behind record 0.
    NoRecordBehindR0,
    /// There is no record.
    NoRecord,
}

impl fmt::Display for CheckReason {
    ghost output = { λ r. Some (check_reason_text r) };

    fn fmt<W: fmt::Write>(&self, f: &mut fmt::Formatter<W>) -> fmt::Result {
        match self {
            CheckReason::AddressWord => {
                f.write_str("a bit of the channel address word that must be zero is on")
            }
            CheckReason::Word(at, word) => f.write_str(of_word(*at, *word)),
            CheckReason::Length(left) => f.write_str(of_length(*left)),
            CheckReason::Address => f.write_str("an address under the word can't be used"),
            CheckReason::Key(block, key, program) => write_keys(f, *block, *key, *program),
            CheckReason::Outside(address, size) => write_outside(f, *address, *size),
        }
    }
}

// Writes that the key of a block is another than the program's.
fn write_keys<W: fmt::Write>(
    f: &mut fmt::Formatter<W>,
    block: u32,
    key: u8,
    program: u8,
) -> fmt::Result
    ensures { WritesOnOk W.write_str_gives f.old result (block_key_text block key ++ program_key_text program) f.new }
{
    write_block_key(f, block, key)?;
    write!(f, ", and the program {}", KeyDigit(program))
}

// Writes the key of a block.
fn write_block_key<W: fmt::Write>(f: &mut fmt::Formatter<W>, block: u32, key: u8) -> fmt::Result
    ensures { WritesOnOk W.write_str_gives f.old result (block_key_text block key) f.new }
{
    write!(f, "the block of {}", StorageAddress(block))?;
    write!(f, " has the key {}", KeyDigit(key))
}

// Writes that an address is outside storage.
fn write_outside<W: fmt::Write>(f: &mut fmt::Formatter<W>, address: u32, size: u32) -> fmt::Result
    ensures { WritesOnOk W.write_str_gives f.old result (outside_text address size) f.new }
{
    let at = StorageAddress(address);
    write!(
        f,
        "the address {at} is outside storage, which has {size} bytes"
    )
}

impl fmt::Display for SenseReason {
    ghost output = { λ r. Some (sense_reason_text r) };

    fn fmt<W: fmt::Write>(&self, f: &mut fmt::Formatter<W>) -> fmt::Result {
        match self {
            SenseReason::Cause(code, sense) => f.write_str(of_unit_check(*code, *sense)),
            SenseReason::NoPlace(place) => write!(f, "{place}"),
            SenseReason::NoRoom(room) => write!(f, "{room}"),
            SenseReason::TooFew(compared) => write!(
                f,
                "the search right before it compared {compared}: a write wants all of them compared and equal"
            ),
            SenseReason::Argument(came, size) => write_argument(f, *came, *size),
            SenseReason::HomeAddress(cylinder, head) => write_home_address(f, *cylinder, *head),
            SenseReason::BareTrack(lacks) => f.write_str(bare_track_text(*lacks)),
        }
    }
}

// Writes how many bytes came of an argument.
fn write_argument<W: fmt::Write>(f: &mut fmt::Formatter<W>, came: u32, size: u32) -> fmt::Result
    ensures { WritesOnOk W.write_str_gives f.old result (argument_text came size) f.new }
{
    let bytes = Quantity::new(u64::from(came), "byte", "bytes");
    write!(f, "{bytes} came of the {size} of its argument")
}

// Writes the home address that a track must have.
fn write_home_address<W: fmt::Write>(
    f: &mut fmt::Formatter<W>,
    cylinder: u16,
    head: u16,
) -> fmt::Result
    ensures { WritesOnOk W.write_str_gives f.old result (home_address_text cylinder head) f.new }
{
    let [high, low] = cylinder.to_be_bytes();
    let [head_high, head_low] = head.to_be_bytes();
    let bytes = [0, high, low, head_high, head_low];
    let bytes = Bytes(&bytes);
    write!(f, "it must be the track's own home address: {bytes}")
}

impl fmt::Display for NoPlace {
    ghost output = { λ p. Some (place_text p) };

    fn fmt<W: fmt::Write>(&self, f: &mut fmt::Formatter<W>) -> fmt::Result {
        if self.has_cylinder {
            write_cylinder(f, self)?;
            return write_cylinders(f, self);
        }
        write_heads(f, self.head, self.last_head)
    }
}

// Writes a head, and which heads the volume has.
fn write_heads<W: fmt::Write>(f: &mut fmt::Formatter<W>, head: u16, last: u16) -> fmt::Result
    ensures { WritesOnOk W.write_str_gives f.old result (head_text head ++ last_head_text last) f.new }
{
    write_head(f, head)?;
    write_last_head(f, last)
}

// Writes a head.
#[tactic(auto, unfolding(crate::specs::Reasons::head_text))]
fn write_head<W: fmt::Write>(f: &mut fmt::Formatter<W>, head: u16) -> fmt::Result
    ensures { WritesOnOk W.write_str_gives f.old result (head_text head) f.new }
{
    write!(f, "head {head}")
}

// Writes which heads the volume has.
#[tactic(auto, unfolding(crate::specs::Reasons::last_head_text))]
fn write_last_head<W: fmt::Write>(f: &mut fmt::Formatter<W>, last: u16) -> fmt::Result
    ensures { WritesOnOk W.write_str_gives f.old result (last_head_text last) f.new }
{
    write!(f, ": the volume has heads 0 to {last}")
}

// Writes a place with its bin and its cylinder.
fn write_cylinder<W: fmt::Write>(f: &mut fmt::Formatter<W>, place: &NoPlace) -> fmt::Result
    ensures { WritesOnOk W.write_str_gives f.old result (cylinder_text place.now) f.new }
{
    let (bin, cylinder, head) = (place.bin, place.cylinder, place.head);
    write!(f, "bin {bin}, cylinder {cylinder}, head {head}")
}

// Writes which places the volume has.
fn write_cylinders<W: fmt::Write>(f: &mut fmt::Formatter<W>, place: &NoPlace) -> fmt::Result
    ensures { WritesOnOk W.write_str_gives f.old result (cylinders_text place.now) f.new }
{
    let (last, last_head) = (place.last_cylinder, place.last_head);
    write!(
        f,
        ": the volume has bin 0, cylinders 0 to {last} and heads 0 to {last_head}"
    )
}

impl fmt::Display for NoRoom {
    ghost output = { λ r. Some (room_text r) };

    fn fmt<W: fmt::Write>(&self, f: &mut fmt::Formatter<W>) -> fmt::Result {
        let (key, data, takes) = (self.key, self.data, self.takes);
        let left = Quantity::new(u64::from(self.left), "is left", "are left");
        write!(
            f,
            "KL {key} DL {data} takes {takes} of the track, of which {left}"
        )
    }
}

impl fmt::Display for Compared {
    ghost output = { λ c. Some (compared_text c) };

    fn fmt<W: fmt::Write>(&self, f: &mut fmt::Formatter<W>) -> fmt::Result {
        let count = self.count;
        match self.of {
            Some(all) => {
                let all = Quantity::new(u64::from(all), "byte", "bytes");
                write!(f, "{count} of {all}")
            }
            None => {
                let count = Quantity::new(u64::from(count), "byte", "bytes");
                write!(f, "{count}")
            }
        }
    }
}

/// What a track lacks on which a command that has seen all of it found no area.
pub fn of_bare_track(command: Command) -> Option<BareTrack>
    ensures { result ≡ bare_track command }
{
    match command {
        Command::SearchKeyEqual | Command::SearchKeyHigh | Command::SearchKeyEqualOrHigh => {
            Some(BareTrack::NoKey)
        }
        Command::ReadIpl => Some(BareTrack::NoRecord1),
        Command::ReadCount
        | Command::ReadData
        | Command::ReadKeyAndData
        | Command::ReadCountKeyAndData => Some(BareTrack::NoRecordBehindR0),
        Command::SearchIdEqual
        | Command::SearchIdHigh
        | Command::SearchIdEqualOrHigh
        | Command::ReadR0 => Some(BareTrack::NoRecord),
        _ => None,
    }
}

fn bare_track_text(lacks: BareTrack) -> &'static str
    ensures { result.now ≡ bare_track_text lacks }
{
    match lacks {
        BareTrack::NoKey => "no record after R0 has a key",
        BareTrack::NoRecord1 => "the track has no record R1",
        BareTrack::NoRecordBehindR0 => "the track has no record after R0",
        BareTrack::NoRecord => "the track has no record",
    }
}

// What incorrect length means by the count that is left (Principles of Operation, 'Incorrect Length').
fn of_length(left: u16) -> &'static str
    ensures { result.now ≡ length_text left }
{
    if left == 0 {
        "the count is shorter than what the drive had or wanted"
    } else {
        "the count is longer than what the drive had or wanted"
    }
}

// What is wrong with a word that was not taken, if one can stand at its address (Principles of Operation, 'Program Check').
fn of_word(at: u32, word: Option<Ccw>) -> &'static str
    ensures { result.now ≡ word_fault_text at word }
{
    if at % 8 != 0 {
        return "the word is not at a multiple of 8";
    }
    let Some(ccw) = word else {
        return "the word is outside storage";
    };
    if ccw.is_transfer() {
        return "a Transfer In Channel may not come first, or right after another";
    }
    if ccw.count == 0 {
        return "the count of the word is zero";
    }
    if ccw.has_reserved_flags() {
        return "a reserved bit of the word is on";
    }
    "the code of the word is no command of a channel"
}

// Why a command ended in unit check, by its code and the sense (component descriptions, 'Sense'; which bits go together is the
// project's profile).
fn of_unit_check(code: u8, sense: Sense) -> &'static str
    ensures { result.now ≡ unit_check_text code sense }
{
    let Some(cause) = cause_of(sense) else {
        return "see the sense bytes";
    };
    match Command::decode(code) {
        Some(decoded) => of_cause(decoded.command, cause),
        None if cause == Sense::INVALID_COMMAND => "the drive has no such command",
        None => of_cause(Command::NoOperation, cause),
    }
}

// What one cause is for a command.
fn of_cause(command: Command, cause: Sense) -> &'static str
    ensures { result.now ≡ cause_reason_text command cause }
{
    if cause == Sense::OUT_OF_SEQUENCE {
        return of_sequence(command);
    }
    if cause == Sense::SEEK_NOT_ALLOWED {
        return of_seek(command);
    }
    cause_text(cause.0)
}

// What was wanted right before a command.
fn of_sequence(command: Command) -> &'static str
    ensures { result.now ≡ sequence_text command }
{
    match command {
        Command::SetFileMask => "a second Set File Mask in one program",
        Command::WriteData =>
            "no Search ID Equal or Search Key Equal that compared all bytes and was equal comes right before it",
        Command::WriteKeyAndData =>
            "no Search ID Equal that compared all bytes and was equal comes right before it",
        Command::WriteR0 =>
            "no Search HA Equal that compared all bytes and was equal, and no Write Home Address, comes right before it",
        _ =>
            "no Search ID Equal or Search Key Equal that compared all bytes and was equal, and no write that made a record, comes right before it",
    }
}

// What the file mask does not allow of a command.
fn of_seek(command: Command) -> &'static str
    ensures { result.now ≡ seek_text command }
{
    match command {
        Command::Seek
        | Command::SeekCylinder
        | Command::SeekHead
        | Command::Recalibrate
        | Command::ReadIpl => "the file mask does not allow this seek",
        _ => "the file mask does not allow the next head",
    }
}

/// The causes of a unit check, as the drives' sense names them: that of the store first, and then the more telling of two.
const CAUSES: &[Sense] = &[
    Sense::STORE_FAULT,
    Sense::UNREADABLE_TRACK,
    Sense::RECORD_DOES_NOT_FIT,
    Sense::SEEK_ADDRESS_OUTSIDE,
    Sense::OUT_OF_SEQUENCE,
    Sense::WRITE_NOT_ALLOWED,
    Sense::INVALID_COMMAND,
    Sense::SEEK_NOT_ALLOWED,
    Sense::NO_RECORD_FOUND,
    Sense::END_OF_CYLINDER,
];

/// The cause that sense bytes are told for.
pub fn cause_of(sense: Sense) -> Option<Sense>
    ensures { result ≡ cause_of sense }
{
    first_of(CAUSES, sense)
}

// The first of these causes that sense bytes have.
fn first_of(causes: &[Sense], sense: Sense) -> Option<Sense>
    ensures { result ≡ find (has_cause sense) causes.now }
{
    for cause in causes {
        if sense.contains(*cause) {
            return Some(*cause);
        }
    }
    None
}

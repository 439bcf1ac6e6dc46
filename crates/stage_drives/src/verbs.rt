//! The verbs of what stands alone: their names, what their operands are, and whose call each is.

use crate::drive::{Passes, Sees, Steps};
use crate::image::Mounts;
use crate::program::Runs;
use crate::slot::{Asks, Measures};
use crate::slot_writes::Writes;
use crate::storage::{Changes, Looks};
use crate::tables::{Tables, Words};
use stage_files::{AT, BYTE, DIGITS, HALF, KEY, Kind, NUMBER, NUMBER_OR_NONE, SMALL, Verb, WIDE};

/// A call: of files that are mounted or come back; of a drive, which is seen, makes a step or passes bytes; of a program; of storage, which
/// is changed or looked at; or below these.
#[derive(Clone, Copy)]
pub(crate) enum Call {
    Mounts(Mounts),
    Sees(Sees),
    Steps(Steps),
    Passes(Passes),
    Runs(Runs),
    Changes(Changes),
    Looks(Looks),
    Below(Below),
}

/// A call of an image; of a slot, which is asked, or written; of models; of words of the channel; of other tables.
#[derive(Clone, Copy)]
pub(crate) enum Below {
    Load,
    Save,
    Asks(Asks),
    Writes(Writes),
    Measures(Measures),
    Words(Words),
    Tables(Tables),
}

/// The verbs.
pub(crate) static VERBS: [Verb<Call>; 66] = [
    (
        "DRIVE",
        "MOUNT",
        &[Kind::Names],
        Call::Mounts(Mounts::Drive),
    ),
    ("DRIVE", "RELEASE", &[], Call::Mounts(Mounts::DriveBack)),
    ("", "MOUNT", &[Kind::Names], Call::Mounts(Mounts::Image)),
    ("", "MOUNT1", &[Kind::Name], Call::Mounts(Mounts::OneFile)),
    ("", "RELEASE", &[], Call::Mounts(Mounts::ImageBack)),
    ("DRIVE", "PHASE", &[], Call::Sees(Sees::Phase)),
    ("DRIVE", "STATE", &[], Call::Sees(Sees::State)),
    ("DRIVE", "REGISTERS", &[], Call::Sees(Sees::Registers)),
    ("DRIVE", "SLOT", &[], Call::Sees(Sees::Slot)),
    ("DRIVE", "PROGRAM", &[], Call::Steps(Steps::Program)),
    ("DRIVE", "CLEAR", &[], Call::Steps(Steps::Clear)),
    ("DRIVE", "BEGIN", &[BYTE], Call::Steps(Steps::Begin)),
    ("DRIVE", "LOOK", &[], Call::Steps(Steps::Look)),
    ("DRIVE", "END", &[], Call::Steps(Steps::End)),
    ("DRIVE", "SETTLE", &[], Call::Steps(Steps::Settle)),
    ("DRIVE", "GIVE", &[NUMBER], Call::Passes(Passes::Give)),
    ("DRIVE", "NEXT", &[NUMBER], Call::Passes(Passes::Next)),
    ("DRIVE", "TAKE", &[Kind::Bytes], Call::Passes(Passes::Take)),
    ("DRIVE", "WHOLE", &[], Call::Passes(Passes::Whole)),
    ("DRIVE", "ONCE", &[], Call::Passes(Passes::Once)),
    ("PROGRAM", "START", &[AT], Call::Runs(Runs::Start)),
    ("PROGRAM", "ADVANCE", &[HALF], Call::Runs(Runs::Advance)),
    ("PROGRAM", "RUN", &[WIDE], Call::Runs(Runs::Run)),
    ("PROGRAM", "CUT", &[], Call::Runs(Runs::Cut)),
    ("PROGRAM", "TAKE", &[], Call::Runs(Runs::Take)),
    ("PROGRAM", "ASKED", &[], Call::Runs(Runs::Asked)),
    ("PROGRAM", "VIEW", &[], Call::Runs(Runs::View)),
    ("STORAGE", "NEW", &[WIDE], Call::Changes(Changes::New)),
    (
        "STORAGE",
        "PUT",
        &[AT, Kind::Bytes],
        Call::Changes(Changes::Put),
    ),
    ("STORAGE", "KEY", &[AT, KEY], Call::Changes(Changes::Key)),
    ("STORAGE", "CSW", &[DIGITS], Call::Changes(Changes::Csw)),
    (
        "STORAGE",
        "STATUS",
        &[BYTE, BYTE],
        Call::Changes(Changes::Status),
    ),
    (
        "STORAGE",
        "STORE",
        &[AT, Kind::Bytes, KEY],
        Call::Changes(Changes::Store),
    ),
    ("STORAGE", "SIZE", &[], Call::Looks(Looks::Size)),
    ("STORAGE", "PEEK", &[AT, WIDE], Call::Looks(Looks::Peek)),
    ("STORAGE", "FROM", &[AT, NUMBER], Call::Looks(Looks::From)),
    ("STORAGE", "BYTE", &[AT], Call::Looks(Looks::Byte)),
    ("STORAGE", "KEYOF", &[AT], Call::Looks(Looks::Key)),
    ("STORAGE", "CAW", &[], Call::Looks(Looks::Caw)),
    ("STORAGE", "CCW", &[AT], Call::Looks(Looks::Ccw)),
    (
        "STORAGE",
        "STORABLE",
        &[AT, WIDE, KEY],
        Call::Looks(Looks::Storable),
    ),
    ("", "LOAD", &[WIDE], Call::Below(Below::Load)),
    ("", "SAVE", &[WIDE, Kind::Bytes], Call::Below(Below::Save)),
    (
        "",
        "SLOT",
        &[Kind::Bytes],
        Call::Below(Below::Asks(Asks::Slot)),
    ),
    ("", "PARTS", &[], Call::Below(Below::Asks(Asks::Parts))),
    ("", "INDEX", &[], Call::Below(Below::Asks(Asks::Index))),
    ("", "INDEXED", &[], Call::Below(Below::Asks(Asks::Indexed))),
    (
        "",
        "USED",
        &[Kind::Model],
        Call::Below(Below::Asks(Asks::Used)),
    ),
    (
        "",
        "FITS",
        &[Kind::Model, NUMBER_OR_NONE, SMALL, HALF],
        Call::Below(Below::Asks(Asks::Fits)),
    ),
    (
        "",
        "HOME",
        &[Kind::Bytes],
        Call::Below(Below::Writes(Writes::Home)),
    ),
    (
        "",
        "RECORD",
        &[Kind::Model, NUMBER_OR_NONE, Kind::Bytes, Kind::Bytes],
        Call::Below(Below::Writes(Writes::Record)),
    ),
    (
        "",
        "ZEROS",
        &[NUMBER, NUMBER],
        Call::Below(Below::Writes(Writes::Zeros)),
    ),
    (
        "",
        "DATA",
        &[NUMBER, Kind::Bytes],
        Call::Below(Below::Writes(Writes::Data)),
    ),
    (
        "",
        "BODY",
        &[NUMBER, Kind::Bytes],
        Call::Below(Below::Writes(Writes::Body)),
    ),
    (
        "",
        "MODEL",
        &[Kind::Model],
        Call::Below(Below::Measures(Measures::Model)),
    ),
    (
        "",
        "TRACK",
        &[Kind::Model, HALF, HALF, HALF],
        Call::Below(Below::Measures(Measures::Track)),
    ),
    (
        "",
        "CHARGE",
        &[Kind::Model, SMALL, HALF],
        Call::Below(Below::Measures(Measures::Charge)),
    ),
    ("", "CAW", &[AT], Call::Below(Below::Words(Words::Caw))),
    ("", "CCW", &[DIGITS], Call::Below(Below::Words(Words::Ccw))),
    ("", "CSW", &[DIGITS], Call::Below(Below::Words(Words::Csw))),
    (
        "",
        "DECODE",
        &[BYTE],
        Call::Below(Below::Words(Words::Decode)),
    ),
    (
        "",
        "MASK",
        &[BYTE, BYTE],
        Call::Below(Below::Words(Words::Mask)),
    ),
    (
        "",
        "SENSE",
        &[Kind::Names],
        Call::Below(Below::Tables(Tables::Sense)),
    ),
    (
        "",
        "SEARCH",
        &[Kind::Name, Kind::Bytes, Kind::Bytes],
        Call::Below(Below::Tables(Tables::Search)),
    ),
    (
        "",
        "EXPLAIN",
        &[Kind::Name, Kind::Bytes],
        Call::Below(Below::Tables(Tables::Explain)),
    ),
    (
        "",
        "NEXT",
        &[Kind::Name, Kind::Names],
        Call::Below(Below::Tables(Tables::Next)),
    ),
];

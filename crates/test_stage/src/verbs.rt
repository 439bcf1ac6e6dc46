//! The verbs of files, channels and decks: their names, what their operands are, and whose call each is.

use crate::asking::Asks;
use crate::channel::{Acts, Instruction, Makes};
use crate::channels::{Changes, Sets, Shows, Units};
use crate::deck::{Feeds, Runs, Tells};
use crate::files::{Holds, News};
use crate::help::HELP;
use stage_files::{AT, BYTE, DEVICE, HALF, KEY, Kind, NUMBER, NUMBER_OR_NONE, SMALL, Verb, WIDE};

/// What is said to the verb; or whose call it is.
#[derive(Clone, Copy)]
pub(crate) enum Call {
    Says(&'static str),
    /// A file is made.
    News(News),
    /// A file that is there is changed or shown.
    Holds(Holds),
    /// A channel or its drives are made, or end.
    Makes(Makes),
    /// A channel does something, or shows something.
    Acts(Acts),
    Asks(Asks),
    Deck(OfDeck),
    Channels(OfChannels),
}

/// Lines of a deck, and how it is read and written; what is told of it; its runs.
#[derive(Clone, Copy)]
pub(crate) enum OfDeck {
    Feeds(Feeds),
    Tells(Tells),
    Runs(Runs),
}

/// Several channels are made or end, do instructions, units or other calls, or are shown.
#[derive(Clone, Copy)]
pub(crate) enum OfChannels {
    Sets(Sets),
    Does(Instruction),
    Units(Units),
    Changes(Changes),
    Shows(Shows),
}

/// The verbs.
pub(crate) static VERBS: [Verb<Call>; 75] = [
    ("", "HELP", &[], Call::Says(HELP)),
    (
        "",
        "HELLO",
        &[Kind::Names],
        Call::Says("HELLO 1 test_stage"),
    ),
    (
        "",
        "FILE",
        &[Kind::Name, Kind::Bytes],
        Call::News(News::File),
    ),
    (
        "",
        "NEW",
        &[Kind::Name, Kind::Model, HALF],
        Call::News(News::New),
    ),
    (
        "",
        "FORMAT",
        &[Kind::Name, Kind::Model, HALF],
        Call::News(News::Format),
    ),
    ("", "LENGTH", &[Kind::Model, HALF], Call::News(News::Length)),
    ("", "FAIL", &[Kind::Name, WIDE], Call::Holds(Holds::Fail)),
    (
        "",
        "FAIL",
        &[Kind::Name, WIDE, Kind::Is("ON")],
        Call::Holds(Holds::FailOn),
    ),
    ("", "CALLS", &[Kind::Name], Call::Holds(Holds::Calls)),
    ("", "CONTENT", &[Kind::Name], Call::Holds(Holds::Content)),
    (
        "",
        "CONTENT",
        &[Kind::Name, NUMBER, NUMBER],
        Call::Holds(Holds::RecordPart),
    ),
    (
        "",
        "PUT",
        &[Kind::Name, NUMBER, Kind::Bytes],
        Call::Holds(Holds::Put),
    ),
    ("", "BEGIN", &[SMALL, WIDE], Call::Makes(Makes::Begin)),
    (
        "",
        "VOLUME",
        &[BYTE, Kind::Model, Kind::Names],
        Call::Makes(Makes::Volume),
    ),
    ("", "DETACH", &[BYTE], Call::Makes(Makes::Detach)),
    (
        "",
        "EXCHANGE",
        &[BYTE, Kind::Names],
        Call::Makes(Makes::Exchange),
    ),
    ("", "SWAP", &[], Call::Makes(Makes::Swap)),
    ("", "END", &[], Call::Makes(Makes::End)),
    ("", "FINISH", &[], Call::Makes(Makes::Finish)),
    ("", "CALL", &[Kind::Name, DEVICE], Call::Acts(Acts::Call)),
    ("", "POKE", &[AT, Kind::Bytes], Call::Acts(Acts::Poke)),
    ("", "RUNON", &[WIDE], Call::Acts(Acts::RunOn)),
    ("", "PEEK", &[AT, WIDE], Call::Asks(Asks::Peek)),
    ("", "KEYOF", &[AT], Call::Asks(Asks::Key)),
    ("", "STATE", &[], Call::Asks(Asks::State)),
    ("", "PENDING", &[], Call::Asks(Asks::Pending)),
    ("", "VIEW", &[], Call::Asks(Asks::View)),
    ("", "REGISTERS", &[], Call::Asks(Asks::Registers)),
    ("", "UNIT", &[BYTE], Call::Asks(Asks::Unit)),
    ("", "IMAGE", &[BYTE], Call::Asks(Asks::Image)),
    (
        "DECK",
        "LINE",
        &[Kind::Names],
        Call::Deck(OfDeck::Feeds(Feeds::Line)),
    ),
    (
        "DECK",
        "BYTES",
        &[Kind::Bytes],
        Call::Deck(OfDeck::Feeds(Feeds::Bytes)),
    ),
    (
        "DECK",
        "READS",
        &[NUMBER, NUMBER],
        Call::Deck(OfDeck::Feeds(Feeds::Reads)),
    ),
    (
        "DECK",
        "WRITES",
        &[NUMBER, NUMBER_OR_NONE, Kind::Name],
        Call::Deck(OfDeck::Feeds(Feeds::Writes)),
    ),
    (
        "DECK",
        "FLUSH",
        &[],
        Call::Deck(OfDeck::Feeds(Feeds::Flush)),
    ),
    (
        "DECK",
        "WRITTEN",
        &[],
        Call::Deck(OfDeck::Tells(Tells::Written)),
    ),
    (
        "DECK",
        "CALLS",
        &[],
        Call::Deck(OfDeck::Tells(Tells::Calls)),
    ),
    (
        "DECK",
        "PARSE",
        &[],
        Call::Deck(OfDeck::Tells(Tells::Parse)),
    ),
    (
        "DECK",
        "EVENTS",
        &[],
        Call::Deck(OfDeck::Tells(Tells::Events)),
    ),
    ("DECK", "DRIVE", &[], Call::Deck(OfDeck::Runs(Runs::Drive))),
    (
        "DECK",
        "SERIAL",
        &[],
        Call::Deck(OfDeck::Runs(Runs::Serial)),
    ),
    ("DECK", "RUN", &[], Call::Deck(OfDeck::Runs(Runs::Plain))),
    (
        "DECK",
        "COUNTED",
        &[],
        Call::Deck(OfDeck::Runs(Runs::Counted)),
    ),
    ("DECK", "TRACE", &[], Call::Deck(OfDeck::Runs(Runs::Traced))),
    (
        "CHANNELS",
        "BEGIN",
        &[WIDE],
        Call::Channels(OfChannels::Sets(Sets::Begin)),
    ),
    (
        "CHANNELS",
        "VOLUME",
        &[DEVICE, Kind::Names],
        Call::Channels(OfChannels::Sets(Sets::Volume)),
    ),
    (
        "CHANNELS",
        "DETACH",
        &[DEVICE],
        Call::Channels(OfChannels::Sets(Sets::Detach)),
    ),
    (
        "CHANNELS",
        "EXCHANGE",
        &[DEVICE, Kind::Names],
        Call::Channels(OfChannels::Sets(Sets::Exchange)),
    ),
    (
        "CHANNELS",
        "REMOVE",
        &[SMALL],
        Call::Channels(OfChannels::Sets(Sets::Remove)),
    ),
    (
        "CHANNELS",
        "END",
        &[],
        Call::Channels(OfChannels::Sets(Sets::End)),
    ),
    (
        "CHANNELS",
        "SIO",
        &[DEVICE],
        Call::Channels(OfChannels::Does(Instruction::Sio)),
    ),
    (
        "CHANNELS",
        "TIO",
        &[DEVICE],
        Call::Channels(OfChannels::Does(Instruction::Tio)),
    ),
    (
        "CHANNELS",
        "HIO",
        &[DEVICE],
        Call::Channels(OfChannels::Does(Instruction::Hio)),
    ),
    (
        "CHANNELS",
        "TCH",
        &[DEVICE],
        Call::Channels(OfChannels::Does(Instruction::Tch)),
    ),
    (
        "CHANNELS",
        "ARRIVE",
        &[DEVICE],
        Call::Channels(OfChannels::Does(Instruction::Arrive)),
    ),
    (
        "CHANNELS",
        "STEP",
        &[SMALL, HALF],
        Call::Channels(OfChannels::Units(Units::Step)),
    ),
    (
        "CHANNELS",
        "RUN",
        &[SMALL, WIDE],
        Call::Channels(OfChannels::Units(Units::Run)),
    ),
    (
        "CHANNELS",
        "RESET",
        &[SMALL],
        Call::Channels(OfChannels::Units(Units::Reset)),
    ),
    (
        "CHANNELS",
        "INTAT",
        &[SMALL],
        Call::Channels(OfChannels::Units(Units::InterruptAt)),
    ),
    (
        "CHANNELS",
        "ADD",
        &[SMALL],
        Call::Channels(OfChannels::Changes(Changes::Add)),
    ),
    (
        "CHANNELS",
        "STEPALL",
        &[HALF],
        Call::Channels(OfChannels::Changes(Changes::StepAll)),
    ),
    (
        "CHANNELS",
        "RESETALL",
        &[],
        Call::Channels(OfChannels::Changes(Changes::ResetAll)),
    ),
    (
        "CHANNELS",
        "INT",
        &[BYTE],
        Call::Channels(OfChannels::Changes(Changes::Interrupt)),
    ),
    (
        "CHANNELS",
        "POKE",
        &[AT, Kind::Bytes],
        Call::Channels(OfChannels::Changes(Changes::Poke)),
    ),
    (
        "CHANNELS",
        "KEY",
        &[AT, KEY],
        Call::Channels(OfChannels::Changes(Changes::Key)),
    ),
    (
        "CHANNELS",
        "PEEK",
        &[AT, WIDE],
        Call::Channels(OfChannels::Shows(Shows::Peek)),
    ),
    (
        "CHANNELS",
        "KEYOF",
        &[AT],
        Call::Channels(OfChannels::Shows(Shows::Key)),
    ),
    (
        "CHANNELS",
        "UNIT",
        &[DEVICE],
        Call::Channels(OfChannels::Shows(Shows::Unit)),
    ),
    (
        "CHANNELS",
        "IMAGE",
        &[DEVICE],
        Call::Channels(OfChannels::Shows(Shows::Image)),
    ),
    (
        "CHANNELS",
        "PENDING",
        &[BYTE],
        Call::Channels(OfChannels::Shows(Shows::Pending)),
    ),
    (
        "CHANNELS",
        "FIRST",
        &[BYTE],
        Call::Channels(OfChannels::Shows(Shows::First)),
    ),
    (
        "CHANNELS",
        "HAS",
        &[SMALL],
        Call::Channels(OfChannels::Shows(Shows::Has)),
    ),
    (
        "CHANNELS",
        "PENDINGAT",
        &[SMALL],
        Call::Channels(OfChannels::Shows(Shows::PendingAt)),
    ),
    (
        "CHANNELS",
        "STATE",
        &[SMALL],
        Call::Channels(OfChannels::Shows(Shows::State)),
    ),
    (
        "CHANNELS",
        "VIEW",
        &[SMALL],
        Call::Channels(OfChannels::Shows(Shows::View)),
    ),
];

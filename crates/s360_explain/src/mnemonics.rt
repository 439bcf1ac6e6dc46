//! The words of commands.

ghost use Rattle.std.specs.Prelude.{◌≡◌, ◌≤◌, length};
ghost use Rattle.s360_explain.specs.Mnemonics.{mnemonic, word_of, names, quoted_name_of, is_multi_track, code_named, worded_codes};

use crate::code_name;
use arrayvec::{ArrayString, ArrayVec};
use ckd_sense::Command;

/// The codes that have words: Transfer In Channel, and those of the commands of the drives.
const WORDED_CODES: [u8; 40] = [
    0x08, 0x03, 0x13, 0x07, 0x0B, 0x1B, 0x1F, 0x04, 0x39, 0xB9, 0x31, 0xB1, 0x51, 0xD1, 0x71, 0xF1,
    0x29, 0xA9, 0x49, 0xC9, 0x69, 0xE9, 0x02, 0x1A, 0x9A, 0x16, 0x96, 0x12, 0x92, 0x06, 0x86, 0x0E,
    0x8E, 0x1E, 0x9E, 0x19, 0x15, 0x1D, 0x05, 0x0D,
];

// These are the codes of the definitions.
fn codes_are_known()
    ensures { WORDED_CODES ≡ worded_codes }
{}

// The mnemonic of a command, at most five letters.
fn mnemonic(command: Command) -> &'static str
    ensures text { result.now ≡ mnemonic command }
    ensures short { length result.now ≤ 5 }
{
    match command {
        Command::NoOperation => "NOP",
        Command::Recalibrate => "RECAL",
        Command::Seek => "SEEK",
        Command::SeekCylinder => "SEEKC",
        Command::SeekHead => "SEEKH",
        Command::SetFileMask => "SFM",
        Command::Sense => "SENSE",
        Command::SearchHomeAddressEqual => "SHAEQ",
        Command::SearchIdEqual => "SIDEQ",
        Command::SearchIdHigh => "SIDHI",
        Command::SearchIdEqualOrHigh => "SIDEH",
        Command::SearchKeyEqual => "SKEQ",
        Command::SearchKeyHigh => "SKHI",
        Command::SearchKeyEqualOrHigh => "SKEH",
        Command::ReadIpl => "RDIPL",
        Command::ReadHomeAddress => "RDHA",
        Command::ReadR0 => "RDR0",
        Command::ReadCount => "RDCT",
        Command::ReadData => "RD",
        Command::ReadKeyAndData => "RDKD",
        Command::ReadCountKeyAndData => "RDCKD",
        Command::WriteHomeAddress => "WRHA",
        Command::WriteR0 => "WRR0",
        Command::WriteCountKeyAndData => "WRCKD",
        Command::WriteData => "WR",
        Command::WriteKeyAndData => "WRKD",
    }
}

/// The word of a command code, as `SIDEQ` or `SIDEQMT`; of a code that has none, no letters.
pub fn word_of(code: u8) -> ArrayString<8>
    ensures { result.bytes ≡ word_of code }
{
    let mut word = ArrayString::new();
    if code == 0x08 {
        word.push_str("TIC");
        return word;
    }
    let Some(found) = Command::decode(code) else {
        return word;
    };
    word.push_str(mnemonic(found.command));
    if found.multi_track {
        word.push_str("MT");
    }
    word
}

/// The code of a word, as `SIDEQ`, or of a long name, as `'SEARCH ID EQUAL'`, in capitals.
pub fn code_named(word: &[u8]) -> Option<u8>
    ensures { result ≡ code_named word.now }
{
    codes_are_known();
    WORDED_CODES.iter().copied().find(
        |code: &u8| -> bool
            ensures { result ≡ names code.now word.entry.now }
        { names(*code, word) },
    )
}

// Whether a word is that of a code, or its long name.
fn names(code: u8, word: &[u8]) -> bool
    ensures { result ≡ names code word.now }
{
    let short = word_of(code);
    let long = quoted_name_of(code);
    short.as_str().as_bytes() == word || long.as_slice() == word
}

// The long name of a code, in capitals and in apostrophes.
fn quoted_name_of(code: u8) -> ArrayVec<u8, 32>
    ensures { result.items ≡ quoted_name_of code }
{
    let mut name = ArrayVec::new();
    name.push(b'\'');
    for byte in code_name(code).as_bytes() {
        name.push(byte.to_ascii_uppercase());
    }
    if is_multi_track(code) {
        name.try_extend_from_slice(b" MT").unwrap();
    }
    name.push(b'\'');
    name
}

// Whether a code is that of a command with the multi-track bit.
fn is_multi_track(code: u8) -> bool
    ensures { result ≡ is_multi_track code }
{
    match Command::decode(code) {
        Some(found) => found.multi_track,
        None => false,
    }
}

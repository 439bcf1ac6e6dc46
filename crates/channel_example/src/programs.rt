//! Channel programs, as the processor stores them.

use ckd_image::ImageStore;
use s360_channel::{Channel, OutsideStorage};
use s360_words::CAW_ADDRESS;

/// A channel command word: a command's code, the address of its bytes, flags, and how many bytes.
pub(crate) type Word = (u8, u32, u8, u16);

pub(crate) const NO_OPERATION: u8 = 0x03;

pub(crate) const SENSE: u8 = 0x04;

pub(crate) const WRITE_DATA: u8 = 0x05;

pub(crate) const READ_DATA: u8 = 0x06;

pub(crate) const SEEK: u8 = 0x07;

pub(crate) const TRANSFER_IN_CHANNEL: u8 = 0x08;

pub(crate) const WRITE_COUNT_KEY_AND_DATA: u8 = 0x1D;

pub(crate) const SEARCH_ID_EQUAL: u8 = 0x31;

/// Chain data: the next word has a further area of the same command.
pub(crate) const CHAIN_DATA: u8 = 0x80;

/// Chain command: the next word has a further command.
pub(crate) const CHAIN_COMMAND: u8 = 0x40;

/// The channel asks for an interruption as it fetches this word.
pub(crate) const INTERRUPT: u8 = 0x08;

/// Where the identifier of R0 stands, and the count areas and the data of two records.
const RECORDS: [(u32, &[u8]); 5] = [
    (0x500, &[0, 0, 0, 0, 0]),
    (0x508, &[0, 0, 0, 0, 1, 0, 0, 8]),
    (0x510, &[0, 0, 0, 0, 2, 0, 0, 8]),
    (0x600, &[0xF0, 0xF1, 0xF2, 0xF3, 0xF4, 0xF5, 0xF6, 0xF7]),
    (0x608, &[0xC1, 0xC2, 0xC3, 0xC4, 0xC5, 0xC6, 0xC7, 0xC8]),
];

/// Writes records 1 and 2 of a new track behind R0. Each count area stands by itself, and its data is chained.
const TWO_WRITES: [Word; 6] = [
    (SEARCH_ID_EQUAL, 0x500, CHAIN_COMMAND, 5),
    (TRANSFER_IN_CHANNEL, 0x400, 0, 0),
    (WRITE_COUNT_KEY_AND_DATA, 0x508, CHAIN_DATA, 8),
    (0, 0x600, CHAIN_COMMAND, 8),
    (WRITE_COUNT_KEY_AND_DATA, 0x510, CHAIN_DATA, 8),
    (0, 0x608, 0, 8),
];

/// The eight bytes of a word in storage.
pub(crate) fn bytes_of(word: Word) -> [u8; 8] {
    let (code, address, flags, count) = word;
    let [_, high, middle, low] = address.to_be_bytes();
    let [more, less] = count.to_be_bytes();
    [code, high, middle, low, flags, 0, more, less]
}

/// The processor stores a channel program, one word behind the other, and a channel address word that leads to it, with key 0.
pub(crate) fn store_program<S: ImageStore>(
    channel: &mut Channel<S>,
    at: u32,
    words: &[Word],
) -> Result<(), OutsideStorage> {
    let mut place = at;
    for word in words {
        channel.poke(place, &bytes_of(*word))?;
        place = place.saturating_add(8);
    }
    channel.poke(CAW_ADDRESS, &at.to_be_bytes())
}

/// The program of two writes, and what it names.
pub(crate) fn store_two_writes<S: ImageStore>(
    channel: &mut Channel<S>,
) -> Result<(), OutsideStorage> {
    for (at, bytes) in &RECORDS {
        channel.poke(*at, *bytes)?;
    }
    store_program(channel, 0x400, &TWO_WRITES)
}

/// A program that seeks cylinder 0, head 0, searches a record, and there does this command with eight bytes at an address.
pub(crate) fn store_search<S: ImageStore>(
    channel: &mut Channel<S>,
    record: u8,
    code: u8,
    address: u32,
) -> Result<(), OutsideStorage> {
    // The six bytes of the seek address, and behind two more the identifier.
    channel.poke(0x520, &[0, 0, 0, 0, 0, 0, 0, 0, 0, 0, 0, 0, record])?;
    store_program(
        channel,
        0x400,
        &[
            (SEEK, 0x520, CHAIN_COMMAND, 6),
            (SEARCH_ID_EQUAL, 0x528, CHAIN_COMMAND, 5),
            (TRANSFER_IN_CHANNEL, 0x408, 0, 0),
            (code, address, 0, 8),
        ],
    )
}

/// A program that gives the six sense bytes to an address.
pub(crate) fn store_sense<S: ImageStore>(
    channel: &mut Channel<S>,
    address: u32,
) -> Result<(), OutsideStorage> {
    store_program(channel, 0x440, &[(SENSE, address, 0, 6)])
}

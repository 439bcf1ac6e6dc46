//! What bits and commands are for and what usually causes them, in a sentence each.

ghost use Rattle.std.specs.Prelude.{◌≡◌};
ghost use Rattle.s360_explain.specs.Names.{short_unit_names, name_in};

use crate::bits::{Field, NO_NAME};
use ckd_sense::Command;

/// The short name of a bit of unit status; of a bit that has none, `no name`.
pub(crate) fn short_name(bit: u16) -> &'static str
    ensures { result.now ≡ name_in short_unit_names bit }
{
    match bit {
        0x80 => "ATTN",
        0x40 => "SM",
        0x20 => "CUE",
        0x10 => "BUSY",
        0x08 => "CE",
        0x04 => "DE",
        0x02 => "UC",
        0x01 => "UE",
        _ => NO_NAME,
    }
}

/// What a bit of a field says, and what usually causes it.
pub(crate) fn bit_text(field: Field, bit: u16) -> &'static str {
    match field {
        Field::UnitStatus => unit_text(bit),
        Field::ChannelStatus => channel_text(bit),
        Field::CcwFlags => flag_text(bit),
        Field::SenseBytes if bit >= 0x0100 => first_sense_text(bit),
        Field::SenseBytes => second_sense_text(bit),
    }
}

// 'Unit Status Conditions'.
fn unit_text(bit: u16) -> &'static str {
    match bit {
        0x80 => "the device asks for attention, which no drive here does",
        0x40 =>
            "a search was satisfied, so that the next word is skipped; with busy the control unit is busy",
        0x20 => "a control unit that answered busy is free again, which none here does",
        0x10 => "the arm is in motion, or an ending of the drive is still to be taken",
        0x08 => "the bytes of the last command have passed, and the channel is free",
        0x04 => "the drive is done with the last command, or its arm has come to rest",
        0x02 =>
            "the drive refused a command or failed at it: its sense bytes say why, until its next command but Sense",
        _ => "the record has no data, as at the end of a file",
    }
}

// 'Channel Status Conditions'.
fn channel_text(bit: u16) -> &'static str {
    match bit {
        0x80 => "a word with this flag was fetched, and the program may still run",
        0x40 =>
            "the count is not the length that the drive had or wanted, and its indication is not suppressed",
        0x20 =>
            "the channel address word, a word or its address is not valid: a count of zero, a bit that must be zero, a place outside storage or no multiple of 8, or a Transfer In Channel that comes first or behind another",
        0x10 => "the key of the program is not that of the block in storage",
        0x08 => "data was wrong in the channel or in storage, which no channel here reports",
        0x04 => "the channel failed, which no channel here reports",
        0x02 => "the drive answered the channel wrongly, which no channel here reports",
        _ => "data came faster than words were chained, which no channel here reports",
    }
}

// 'Channel Command Word'.
fn flag_text(bit: u16) -> &'static str {
    match bit {
        0x80 =>
            "the next word has a further data area of the same command; its code does not count, but for that of a Transfer In Channel",
        0x40 => "the next word has a further command, where chain data is off",
        0x20 => "incorrect length is not reported, where chain data is off",
        0x10 => "what is read does not go into storage",
        _ => "the channel asks for an interruption as it fetches this word",
    }
}

// Sense byte 0 ('Sense').
fn first_sense_text(bit: u16) -> &'static str {
    match bit {
        0x8000 => "the command, or what it was given, is not valid",
        0x4000 => "the drive is not ready, which none here reports",
        0x2000 => "what the channel gave has bad parity, which no drive here reports",
        0x1000 => "the drive failed, here the file of its image",
        0x0800 => "what was read from the track is not valid",
        0x0400 => "the channel was too late, which no drive here reports",
        0x0200 => "the track is flagged, which no drive here reports",
        _ => "the arm can't be moved there: the volume has no such bin, cylinder or head",
    }
}

// Sense byte 1 ('Sense').
fn second_sense_text(bit: u16) -> &'static str {
    match bit {
        0x0080 => "the data check is in a count area, which no drive here reports",
        0x0040 => "the record does not fit what is left of the track",
        0x0020 => "a command with the multi-track bit went past the last head of the cylinder",
        0x0010 => "the command may not come after those before it",
        0x0008 => "the index passed twice, and no such area was found",
        0x0004 => "the file mask of this program does not allow it",
        0x0002 => "the track has no address marker where one must be",
        _ => "a record that overflows its track is not complete, which no drive here reports",
    }
}

/// What a command does, and what it is usually refused or ended for.
pub(crate) fn command_text(command: Command) -> &'static str {
    match command {
        Command::NoOperation => "does nothing, and is over at once",
        Command::Recalibrate =>
            "moves the arm to cylinder 0, head 0; the file mask may not allow it",
        Command::Seek | Command::SeekCylinder =>
            "moves the arm, by six bytes 00 00, cylinder, head; refused outside the volume, of fewer bytes, or by the file mask",
        Command::SeekHead =>
            "takes another head, by six bytes 00 00, cylinder, head; refused outside the volume, of fewer bytes, or by the file mask",
        Command::SetFileMask =>
            "sets what the program may write and seek, by one byte; refused a second time in one program",
        Command::Sense => "gives six sense bytes, which say why the last unit check came",
        Command::SearchHomeAddressEqual =>
            "compares cylinder and head, four bytes, and skips the next word where they are equal",
        Command::SearchIdEqual | Command::SearchIdHigh | Command::SearchIdEqualOrHigh =>
            "compares the next identifier, five bytes, and skips the next word where it is satisfied; no record found after two passes of the index",
        Command::SearchKeyEqual | Command::SearchKeyHigh | Command::SearchKeyEqualOrHigh =>
            "compares the next key, and skips the next word where it is satisfied; no record found after two passes of the index",
        _ => transfer_text(command),
    }
}

// What a command does that reads or writes areas of the track.
fn transfer_text(command: Command) -> &'static str {
    match command {
        Command::ReadIpl => "moves the arm to cylinder 0, head 0, and gives the data of record 1",
        Command::ReadHomeAddress => "gives the five bytes of the home address",
        Command::ReadR0 => "gives count, key and data of record 0",
        Command::ReadCount => "gives the eight bytes of the next count area",
        Command::ReadData =>
            "gives the data of the next record, or of the one that was found; unit exception where it has none",
        Command::ReadKeyAndData =>
            "gives key and data of the next record, or of the one that was found; unit exception where it has no data",
        Command::ReadCountKeyAndData =>
            "gives count, key and data of the next record; unit exception where it has no data",
        Command::WriteHomeAddress =>
            "writes the home address, which must be the track's own, and leaves no record after it",
        Command::WriteR0 =>
            "writes record 0, right after a Search HA Equal that compared all bytes and was equal or Write Home Address, and leaves no record after it",
        Command::WriteCountKeyAndData =>
            "writes a record, right after a Search ID Equal or Search Key Equal that compared all bytes of the one before it and was equal or a write of that one, and leaves none behind it",
        Command::WriteData =>
            "writes the data of a record, right after a Search ID Equal or Search Key Equal that compared all its bytes and was equal",
        _ =>
            "writes key and data of a record, right after a Search ID Equal that compared all its bytes and was equal",
    }
}

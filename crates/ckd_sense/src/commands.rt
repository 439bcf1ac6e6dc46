//! The commands and their codes.

ghost use Rattle.std.specs.Prelude.{◌≡◌};
ghost use Rattle.ckd_sense.specs.Commands.{decoded};

/// A command of a control unit for count-key-data disks.
#[derive(Clone, Copy, Debug, PartialEq, Eq)]
pub enum Command {
    /// Does nothing.
    NoOperation,
    /// Moves the arm to cylinder 0 and head 0.
    Recalibrate,
    /// Moves the arm to a cylinder and a head.
    Seek,
    /// Moves the arm to a cylinder and a head.
    SeekCylinder,
    /// Takes another head of the same cylinder.
    SeekHead,
    /// Sets the file mask of this channel program.
    SetFileMask,
    /// Sense I/O: gives the sense bytes.
    Sense,
    /// Compares cylinder and head of the home address for equality.
    SearchHomeAddressEqual,
    /// Compares the next identifier for equality.
    SearchIdEqual,
    /// Asks whether the next identifier is higher.
    SearchIdHigh,
    /// Asks whether the next identifier is equal or higher.
    SearchIdEqualOrHigh,
    /// Compares the next key for equality.
    SearchKeyEqual,
    /// Asks whether the next key is higher.
    SearchKeyHigh,
    /// Asks whether the next key is equal or higher.
    SearchKeyEqualOrHigh,
    /// Moves the arm to cylinder 0 and head 0, and gives the data of record 1 there.
    ReadIpl,
    /// Gives the home address.
    ReadHomeAddress,
    /// Gives count, key and data of R0.
    ReadR0,
    /// Gives the next count area.
    ReadCount,
    /// Gives the next data area.
    ReadData,
    /// Gives the next key and data areas.
    ReadKeyAndData,
    /// Gives the next record's count, key and data.
    ReadCountKeyAndData,
    /// Writes the home address, and leaves no record after it.
    WriteHomeAddress,
    /// Writes R0, and leaves no record after it.
    WriteR0,
    /// Writes a record's count, key and data, and leaves no record after it.
    WriteCountKeyAndData,
    /// Writes the data of a record.
    WriteData,
    /// Writes the key and the data of a record.
    WriteKeyAndData,
}

/// What a command code says: the command, and whether its multi-track bit is on.
#[derive(Clone, Copy, Debug, PartialEq, Eq)]
pub struct CommandCode {
    /// The command.
    pub command: Command,
    /// Whether the command goes on at the next head of the cylinder where the index is passed.
    pub multi_track: bool,
}

impl Command {
    /// The command of a code, by the table of command codes in the component descriptions of the 2841 and the 2314;
    /// `None` where the code is no command of this control unit.
    ///
    /// Bit 80 (hexadecimal) is the multi-track bit of the searches and of the reads but Read IPL.
    #[inline(always)]
    pub fn decode(code: u8) -> Option<CommandCode>
        ensures { result ≡ decoded code }
    {
        let command = match code {
            0x03 => Command::NoOperation,
            0x13 => Command::Recalibrate,
            0x07 => Command::Seek,
            0x0B => Command::SeekCylinder,
            0x1B => Command::SeekHead,
            0x1F => Command::SetFileMask,
            0x04 => Command::Sense,
            0x39 | 0xB9 => Command::SearchHomeAddressEqual,
            0x31 | 0xB1 => Command::SearchIdEqual,
            0x51 | 0xD1 => Command::SearchIdHigh,
            0x71 | 0xF1 => Command::SearchIdEqualOrHigh,
            0x29 | 0xA9 => Command::SearchKeyEqual,
            0x49 | 0xC9 => Command::SearchKeyHigh,
            0x69 | 0xE9 => Command::SearchKeyEqualOrHigh,
            0x02 => Command::ReadIpl,
            0x1A | 0x9A => Command::ReadHomeAddress,
            0x16 | 0x96 => Command::ReadR0,
            0x12 | 0x92 => Command::ReadCount,
            0x06 | 0x86 => Command::ReadData,
            0x0E | 0x8E => Command::ReadKeyAndData,
            0x1E | 0x9E => Command::ReadCountKeyAndData,
            0x19 => Command::WriteHomeAddress,
            0x15 => Command::WriteR0,
            0x1D => Command::WriteCountKeyAndData,
            0x05 => Command::WriteData,
            0x0D => Command::WriteKeyAndData,
            _ => return None,
        };
        Some(CommandCode {
            command,
            multi_track: code >= 0x80,
        })
    }
}

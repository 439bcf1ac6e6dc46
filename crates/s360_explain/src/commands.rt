//! Command codes by their names.

ghost use Rattle.std.specs.Prelude.{◌≡◌, ◌≤◌, length};
ghost use Rattle.s360_explain.specs.Lines.{code_of};
ghost use Rattle.s360_explain.specs.Names.{command_name, code_name};

use ckd_sense::{Command, CommandCode};

/// What a command code is to a channel and to the drive.
#[derive(Clone, Copy)]
pub enum Code {
    /// A transfer in channel.
    Transfer,
    /// No code that a channel takes as a command's: its low four bits are zero.
    Invalid,
    /// A command of the drive.
    Drive(CommandCode),
    /// A code that a channel takes, and that is no command of the drive.
    Unknown,
}

/// What a command code is (Principles of Operation, 'Command Code'; component descriptions, 'Channel Command Codes').
pub fn code_of(code: u8) -> Code
    ensures { result ≡ code_of code }
{
    if code % 16 == 8 {
        return Code::Transfer;
    }
    if code % 16 == 0 {
        return Code::Invalid;
    }
    match Command::decode(code) {
        Some(command) => Code::Drive(command),
        None => Code::Unknown,
    }
}

/// The name of a command, at most 22 letters long.
pub fn command_name(command: Command) -> &'static str
    ensures name { result.now ≡ command_name command }
    ensures short { length result.now ≤ 22 }
{
    match command {
        Command::NoOperation => "No-Operation",
        Command::Recalibrate => "Recalibrate",
        Command::Seek => "Seek",
        Command::SeekCylinder => "Seek Cylinder",
        Command::SeekHead => "Seek Head",
        Command::SetFileMask => "Set File Mask",
        Command::Sense => "Sense I/O",
        Command::SearchHomeAddressEqual => "Search HA Equal",
        Command::SearchIdEqual => "Search ID Equal",
        Command::SearchIdHigh => "Search ID High",
        Command::SearchIdEqualOrHigh => "Search ID Eq or High",
        Command::SearchKeyEqual => "Search Key Equal",
        Command::SearchKeyHigh => "Search Key High",
        Command::SearchKeyEqualOrHigh => "Search Key Eq or High",
        Command::ReadIpl => "Read IPL",
        Command::ReadHomeAddress => "Read Home Address",
        Command::ReadR0 => "Read R0",
        Command::ReadCount => "Read Count",
        Command::ReadData => "Read Data",
        Command::ReadKeyAndData => "Read Key and Data",
        Command::ReadCountKeyAndData => "Read Count, Key, Data",
        Command::WriteHomeAddress => "Write Home Address",
        Command::WriteR0 => "Write R0",
        Command::WriteCountKeyAndData => "Write Count, Key, Data",
        Command::WriteData => "Write Data",
        Command::WriteKeyAndData => "Write Key and Data",
    }
}

/// The name of a command code, as far as it has one, at most 22 letters long.
pub fn code_name(code: u8) -> &'static str
    ensures name { result.now ≡ code_name code }
    ensures short { length result.now ≤ 22 }
{
    match code_of(code) {
        Code::Transfer => "Transfer In Channel",
        Code::Invalid | Code::Unknown => "(no command)",
        Code::Drive(
            CommandCode {
                command,
                multi_track: _,
            },
        ) => command_name(command),
    }
}

//! The file mask: which writes and seeks a channel program may do.

ghost use Rattle.std.specs.Prelude.{◌≡◌};
ghost use Rattle.ckd_sense.specs.Masks.{mask_of_byte, permit_of, inhibits_write, inhibits_seek, allows_head_change};

use crate::commands::Command;

/// Which writes the file mask allows: its bits C0 (hexadecimal).
#[derive(Clone, Copy, PartialEq, Eq)]
pub enum WritePermission {
    /// 00: every write but Write Home Address and Write R0.
    InhibitHomeAddressAndR0,
    /// 40: no write.
    InhibitAllWrites,
    /// 80: only the writes that make no record: Write Data, and Write Key and Data.
    InhibitFormatWrites,
    /// C0: every write.
    PermitAllWrites,
}

/// Which seeks the file mask allows: its bits 18 (hexadecimal).
#[derive(Clone, Copy, PartialEq, Eq)]
pub enum SeekPermission {
    /// 00: all seeks, Recalibrate and Read IPL, and head changes by the multi-track bit.
    PermitAllSeeks,
    /// 08: Seek Cylinder and Seek Head, and head changes.
    PermitSeekCylinderAndHead,
    /// 10: Seek Head, and head changes.
    PermitSeekHead,
    /// 18: none of these.
    InhibitAllSeeks,
}

/// Whether a file mask lets a command begin.
#[derive(Clone, Copy)]
pub enum Permit {
    /// It does.
    Yes,
    /// The command is a write that the mask does not allow.
    NoWrite,
    /// The command is a seek, Recalibrate or Read IPL, which the mask does not allow.
    NoSeek,
}

/// What Set File Mask sets for the rest of a channel program (component descriptions of the 2841 and the 2314,
/// 'Set File Mask').
#[derive(Clone, Copy)]
pub struct FileMask {
    /// The writes that may be done.
    pub writes: WritePermission,
    /// The seeks that may be done.
    pub seeks: SeekPermission,
}

impl FileMask {
    /// The file mask of the byte that Set File Mask takes: its bits C0 and 18 (hexadecimal), whatever the others are.
    pub fn from_byte(byte: u8) -> FileMask
        ensures { result ≡ mask_of_byte byte }
    {
        let writes = match byte & 0xC0 {
            0x00 => WritePermission::InhibitHomeAddressAndR0,
            0x40 => WritePermission::InhibitAllWrites,
            0x80 => WritePermission::InhibitFormatWrites,
            _ => WritePermission::PermitAllWrites,
        };
        let seeks = match byte & 0x18 {
            0x00 => SeekPermission::PermitAllSeeks,
            0x08 => SeekPermission::PermitSeekCylinderAndHead,
            0x10 => SeekPermission::PermitSeekHead,
            _ => SeekPermission::InhibitAllSeeks,
        };
        FileMask { writes, seeks }
    }

    /// Whether the command may begin under this mask. Commands that neither write nor move the arm always may.
    ///
    /// That Recalibrate and Read IPL need leave for all seeks is this project's profile.
    #[inline(always)]
    pub fn permits(self, command: Command) -> Permit
        ensures { result ≡ permit_of self command }
    {
        if self.inhibits_write(command) {
            Permit::NoWrite
        } else if self.inhibits_seek(command) {
            Permit::NoSeek
        } else {
            Permit::Yes
        }
    }

    /// Whether the command is a write that this mask does not allow.
    #[inline(always)]
    fn inhibits_write(self, command: Command) -> bool
        ensures { result ≡ inhibits_write self.writes command }
    {
        match command {
            Command::WriteHomeAddress | Command::WriteR0 => {
                self.writes != WritePermission::PermitAllWrites
            }
            Command::WriteCountKeyAndData => {
                self.writes == WritePermission::InhibitFormatWrites
                    || self.writes == WritePermission::InhibitAllWrites
            }
            Command::WriteData | Command::WriteKeyAndData => {
                self.writes == WritePermission::InhibitAllWrites
            }
            _ => false,
        }
    }

    /// Whether the command is a seek, Recalibrate or Read IPL, which this mask does not allow.
    #[inline(always)]
    fn inhibits_seek(self, command: Command) -> bool
        ensures { result ≡ inhibits_seek self.seeks command }
    {
        match command {
            Command::Seek | Command::Recalibrate | Command::ReadIpl => {
                self.seeks != SeekPermission::PermitAllSeeks
            }
            Command::SeekCylinder => {
                self.seeks == SeekPermission::PermitSeekHead
                    || self.seeks == SeekPermission::InhibitAllSeeks
            }
            Command::SeekHead => self.seeks == SeekPermission::InhibitAllSeeks,
            _ => false,
        }
    }

    /// Whether a command with the multi-track bit may go on at the cylinder's next head: true where it may.
    pub fn head_change(self) -> bool
        ensures { result ≡ allows_head_change self }
    {
        self.seeks != SeekPermission::InhibitAllSeeks
    }
}

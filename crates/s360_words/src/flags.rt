//! The named bits of channel command words and channel status words (Principles of Operation, Input/Output
//! Operations, 'Channel Command Word' and 'Channel Status Word').

ghost use Rattle.std.specs.Prelude.{⊤};
ghost use Rattle.s360_words.specs.Flags.{ccw_flags, unit_status_bits, channel_status_bits};

use bitflags::{Flag, Flags, bitflag_items};

/// The flag byte of a channel command word, its bits 32 to 39. The low three bits have no name and must be
/// zero; they are kept as they stand, so that a word that sets one can be recognized.
#[derive(Clone, Copy, Debug, PartialEq, Eq)]
pub struct CcwFlags(pub u8);

bitflag_items! {
    impl CcwFlags: u8 {
        /// The next channel command word has a further data area of the same command.
        const CHAIN_DATA = 0x80;
        /// The next channel command word has a further command, where chain data is off.
        const CHAIN_COMMAND = 0x40;
        /// Incorrect length is not reported, where chain data is off.
        const SUPPRESS_LENGTH_INDICATION = 0x20;
        /// What is read is not put into storage.
        const SKIP = 0x10;
        /// The channel asks for an interruption as it fetches this word.
        const PROGRAM_CONTROLLED_INTERRUPTION = 0x08;
    }
}

impl Flags for CcwFlags {
    type Bits = u8;

    ghost exact = { ⊤ };

    ghost table = { ccw_flags };

    ghost set_of = { λ f. f.0 };

    fn flags<'a>() -> &'a [Flag<CcwFlags>] {
        CcwFlags::FLAGS
    }

    fn bits(&self) -> u8 {
        self.0
    }

    fn from_bits_retain(bits: u8) -> CcwFlags {
        CcwFlags(bits)
    }
}

/// The unit status byte of a channel status word, its bits 32 to 39.
#[derive(Clone, Copy, Debug, PartialEq, Eq)]
pub struct UnitStatus(pub u8);

bitflag_items! {
    impl UnitStatus: u8 {
        /// The device asks for attention.
        const ATTENTION = 0x80;
        /// The next word but one is to follow, or what the other bits say is modified.
        const STATUS_MODIFIER = 0x40;
        /// The control unit is free again.
        const CONTROL_UNIT_END = 0x20;
        /// The device or the control unit is busy.
        const BUSY = 0x10;
        /// The transfer of the command is over.
        const CHANNEL_END = 0x08;
        /// The device is done with the command.
        const DEVICE_END = 0x04;
        /// The sense bytes say what went wrong.
        const UNIT_CHECK = 0x02;
        /// The device met what does not usually come, as a record of no data.
        const UNIT_EXCEPTION = 0x01;
    }
}

impl Flags for UnitStatus {
    type Bits = u8;

    ghost exact = { ⊤ };

    ghost table = { unit_status_bits };

    ghost set_of = { λ f. f.0 };

    fn flags<'a>() -> &'a [Flag<UnitStatus>] {
        UnitStatus::FLAGS
    }

    fn bits(&self) -> u8 {
        self.0
    }

    fn from_bits_retain(bits: u8) -> UnitStatus {
        UnitStatus(bits)
    }
}

/// The channel status byte of a channel status word, its bits 40 to 47.
#[derive(Clone, Copy, Debug, PartialEq, Eq)]
pub struct ChannelStatus(pub u8);

bitflag_items! {
    impl ChannelStatus: u8 {
        /// A channel command word asked for this interruption.
        const PROGRAM_CONTROLLED_INTERRUPTION = 0x80;
        /// The count and the device's length differ.
        const INCORRECT_LENGTH = 0x40;
        /// The channel program is in error.
        const PROGRAM_CHECK = 0x20;
        /// The key of a storage block did not match the key of the program.
        const PROTECTION_CHECK = 0x10;
        /// Data was wrong in the channel or in storage.
        const CHANNEL_DATA_CHECK = 0x08;
        /// The channel failed.
        const CHANNEL_CONTROL_CHECK = 0x04;
        /// The interface to the control unit failed.
        const INTERFACE_CONTROL_CHECK = 0x02;
        /// Data came faster than the chain of words was followed.
        const CHAINING_CHECK = 0x01;
    }
}

impl Flags for ChannelStatus {
    type Bits = u8;

    ghost exact = { ⊤ };

    ghost table = { channel_status_bits };

    ghost set_of = { λ f. f.0 };

    fn flags<'a>() -> &'a [Flag<ChannelStatus>] {
        ChannelStatus::FLAGS
    }

    fn bits(&self) -> u8 {
        self.0
    }

    fn from_bits_retain(bits: u8) -> ChannelStatus {
        ChannelStatus(bits)
    }
}

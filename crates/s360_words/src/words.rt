//! The channel address word, the channel command word and the channel status word (Principles of Operation,
//! Input/Output Operations). All numbers in them are big-endian.

ghost use Rattle.std.specs.Prelude.{◌≡◌, ◌<◌, ◌^◌, IfSome};
ghost use Rattle.s360_words.specs.Words.{caw_of, ccw_of, chains_data, chains_command, suppresses_length, skips, interrupts, has_reserved_flags, is_transfer};
ghost use Rattle.s360_words.specs.Words.{csw_bytes, csw_of};

use crate::flags::{CcwFlags, ChannelStatus, UnitStatus};
use bitflags::Flags;
use byteorder::{BigEndian, ByteOrder};

/// The address of the channel status word in main storage.
pub const CSW_ADDRESS: u32 = 64;

/// The address of the channel address word in main storage.
pub const CAW_ADDRESS: u32 = 72;

/// What the channel address word says: the key of a channel program, and where its first word is.
#[derive(Clone, Copy, Debug, PartialEq, Eq)]
pub struct Caw {
    /// The protection key of the program's stores, below 16.
    pub key: u8,
    /// The address of the first channel command word, below 2 to the 24 and a multiple of 8.
    pub address: u32,
}

impl Caw {
    /// Reads a channel address word. There is none where one of bits 4 to 7 or 29 to 31 is not zero.
    pub fn from_word(word: u32) -> Option<Caw>
        ensures word { result ≡ caw_of word }
        ensures narrow { IfSome result (λ caw. (caw.key < 16) × (caw.address < 2 ^ 24)) }
    {
        if (word >> 24) % 16 != 0 || word % 8 != 0 {
            return None;
        }
        Some(Caw {
            key: (word >> 28) as u8,
            address: word % (1 << 24),
        })
    }
}

/// A channel command word.
#[derive(Clone, Copy, Debug, PartialEq, Eq)]
pub struct Ccw {
    /// The command code.
    pub code: u8,
    /// The data address, or where a transfer in channel goes; below 2 to the 24.
    pub address: u32,
    /// The flags, with the three bits that must be zero.
    pub flags: CcwFlags,
    /// How many bytes the word asks for.
    pub count: u16,
}

impl Ccw {
    /// Reads a channel command word. Its sixth byte is ignored.
    pub fn from_bytes(bytes: [u8; 8]) -> Ccw
        ensures fields { result ≡ ccw_of bytes }
        ensures narrow { result.address < 2 ^ 24 }
    {
        Ccw {
            code: bytes[0],
            address: BigEndian::read_u24(&bytes[1..4]),
            flags: CcwFlags::from_bits_retain(bytes[4]),
            count: BigEndian::read_u16(&bytes[6..8]),
        }
    }

    /// Whether the next word has a further data area of the same command.
    pub fn chains_data(self) -> bool
        ensures { result ≡ chains_data self }
    {
        self.flags.intersects(CcwFlags::CHAIN_DATA)
    }

    /// Whether the next word has a further command. Data chaining comes before it.
    pub fn chains_command(self) -> bool
        ensures { result ≡ chains_command self }
    {
        self.flags.intersects(CcwFlags::CHAIN_COMMAND) && !self.chains_data()
    }

    /// Whether incorrect length is not reported. Where the word chains data, it is reported.
    pub fn suppresses_length(self) -> bool
        ensures { result ≡ suppresses_length self }
    {
        self.flags.intersects(CcwFlags::SUPPRESS_LENGTH_INDICATION) && !self.chains_data()
    }

    /// Whether what is read is not put into storage.
    pub fn skips(self) -> bool
        ensures { result ≡ skips self }
    {
        self.flags.intersects(CcwFlags::SKIP)
    }

    /// Whether the word asks for an interruption as it is fetched.
    pub fn interrupts(self) -> bool
        ensures { result ≡ interrupts self }
    {
        self.flags
            .intersects(CcwFlags::PROGRAM_CONTROLLED_INTERRUPTION)
    }

    /// Whether one of the three flag bits without a name is set. They must be zero, but in a transfer in channel.
    pub fn has_reserved_flags(self) -> bool
        ensures { result ≡ has_reserved_flags self }
    {
        self.flags.intersects(CcwFlags(0x07))
    }

    /// Whether the word is a transfer in channel: the low four bits of its code are 1000.
    pub fn is_transfer(self) -> bool
        ensures { result ≡ is_transfer self }
    {
        self.code % 16 == 8
    }
}

/// A channel status word.
#[derive(Clone, Copy, Debug, PartialEq, Eq)]
pub struct Csw {
    /// The protection key of the channel program, below 16.
    pub key: u8,
    /// The command address, below 2 to the 24.
    pub address: u32,
    /// The unit status.
    pub unit: UnitStatus,
    /// The channel status.
    pub channel: ChannelStatus,
    /// The residual count.
    pub count: u16,
}

impl Csw {
    /// The eight bytes of this word: the key and four zero bits, the command address, unit status, channel status
    /// and the residual count. Of a key above 15 the low four bits stand there, and of an address of 2 to the 24
    /// or more the low 24.
    pub fn to_bytes(self) -> [u8; 8]
        ensures bytes { result ≡ csw_bytes self }
        ensures reads_back { self.key < 16 → self.address < 2 ^ 24 → csw_of result ≡ self }
    {
        let mut bytes = [0; 8];
        bytes[0] = self.key % 16 * 16;
        BigEndian::write_u24(&mut bytes[1..4], self.address % (1 << 24));
        bytes[4] = self.unit.bits();
        bytes[5] = self.channel.bits();
        BigEndian::write_u16(&mut bytes[6..8], self.count);
        bytes
    }

    /// Reads a channel status word. The low four bits of its first byte are ignored.
    pub fn from_bytes(bytes: [u8; 8]) -> Csw
        ensures fields { result ≡ csw_of bytes }
        ensures narrow { (result.key < 16) × (result.address < 2 ^ 24) }
    {
        Csw {
            key: bytes[0] / 16,
            address: BigEndian::read_u24(&bytes[1..4]),
            unit: UnitStatus::from_bits_retain(bytes[4]),
            channel: ChannelStatus::from_bits_retain(bytes[5]),
            count: BigEndian::read_u16(&bytes[6..8]),
        }
    }
}

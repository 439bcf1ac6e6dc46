//! The sense bytes: why a command ended in unit check.

ghost use Rattle.std.specs.Prelude.{⊤, ◌≡◌, map};
ghost use Rattle.ckd_sense.specs.SenseBytes.{joined, sense_bits, sense_bytes, causes, listed_bytes, reported_bytes};

use bitflags::{Flag, Flags, bitflag_items};

/// The first two sense bytes, the rest of which are always zero: a set of named bits
/// (component descriptions of the 2841 and the 2314, 'Sense').
///
/// Sense byte 0 is the high half of the number, and sense byte 1 the low half.
#[derive(Clone, Copy, PartialEq, Eq)]
pub struct Sense(pub u16);

bitflag_items! {
    impl Sense: u16 {
        /// The command, or what it was given, is not valid.
        const COMMAND_REJECT = 0x8000;
        /// The drive is not ready.
        const INTERVENTION_REQUIRED = 0x4000;
        /// What the channel gave has bad parity.
        const BUS_OUT_CHECK = 0x2000;
        /// The drive, here its store, failed.
        const EQUIPMENT_CHECK = 0x1000;
        /// What was read from the track is not valid.
        const DATA_CHECK = 0x0800;
        /// The channel was too late.
        const OVERRUN = 0x0400;
        /// The track is flagged.
        const TRACK_CONDITION_CHECK = 0x0200;
        /// The arm can't be moved there.
        const SEEK_CHECK = 0x0100;
        /// The data check is in a count area.
        const DATA_CHECK_IN_COUNT_AREA = 0x0080;
        /// A record does not fit the track.
        const TRACK_OVERRUN = 0x0040;
        /// A command with the multi-track bit went past the cylinder's last head.
        const END_OF_CYLINDER = 0x0020;
        /// The command may not follow the commands before it.
        const INVALID_SEQUENCE = 0x0010;
        /// The index was passed twice, and no area was found.
        const NO_RECORD_FOUND = 0x0008;
        /// The file mask does not allow it.
        const FILE_PROTECTED = 0x0004;
        /// The track has no address marker where one must be.
        const MISSING_ADDRESS_MARKER = 0x0002;
        /// A record that overflows its track is not complete.
        const OVERFLOW_INCOMPLETE = 0x0001;
    }
}

impl Flags for Sense {
    type Bits = u16;

    ghost exact = { ⊤ };

    ghost table = { sense_bits };

    ghost set_of = { λ s. s.0 };

    fn flags<'a>() -> &'a [Flag<Sense>] {
        Sense::FLAGS
    }

    fn bits(&self) -> u16 {
        self.0
    }

    fn from_bits_retain(bits: u16) -> Sense {
        Sense(bits)
    }
}

// What is reported for each cause. A bit that is reported alone is its own cause: `NO_RECORD_FOUND`, `END_OF_CYLINDER`.
// Which bits go together is this project's profile.
impl Sense {
    /// No bit: the sense bytes as a command other than Sense begins.
    pub const ZERO: Sense = Sense(0);

    /// The code is no command of the control unit: command reject.
    pub const INVALID_COMMAND: Sense = Sense::COMMAND_REJECT;

    /// The file mask does not allow this write: command reject and file protected.
    pub const WRITE_NOT_ALLOWED: Sense = Sense(Sense::COMMAND_REJECT.0 | Sense::FILE_PROTECTED.0);

    /// The file mask does not allow this seek, Recalibrate or Read IPL: file protected.
    pub const SEEK_NOT_ALLOWED: Sense = Sense::FILE_PROTECTED;

    /// A write that the command before it gives no leave for, or a second Set File Mask in one channel program:
    /// command reject and invalid sequence.
    pub const OUT_OF_SEQUENCE: Sense = Sense(Sense::COMMAND_REJECT.0 | Sense::INVALID_SEQUENCE.0);

    /// The file mask does not allow the multi-track bit to go on at the next head: file protected.
    pub const HEAD_CHANGE_NOT_ALLOWED: Sense = Sense::FILE_PROTECTED;

    /// An area was looked for on a track that can't be read: data check and missing address marker.
    pub const UNREADABLE_TRACK: Sense = Sense(
        Sense::DATA_CHECK.0 | Sense::MISSING_ADDRESS_MARKER.0,
    );

    /// A home address, a count area or a seek address of which only a part came: command reject.
    pub const FIELD_CUT_SHORT: Sense = Sense::COMMAND_REJECT;

    /// Write Home Address with a flag other than zero, or another track's address: command reject.
    pub const WRONG_HOME_ADDRESS: Sense = Sense::COMMAND_REJECT;

    /// A seek to a cylinder or head that the volume does not have: command reject and seek check.
    pub const SEEK_ADDRESS_OUTSIDE: Sense = Sense(Sense::COMMAND_REJECT.0 | Sense::SEEK_CHECK.0);

    /// The record to be written does not fit the track: track overrun.
    pub const RECORD_DOES_NOT_FIT: Sense = Sense::TRACK_OVERRUN;

    /// The image's store failed as a track was loaded or saved: equipment check.
    pub const STORE_FAULT: Sense = Sense::EQUIPMENT_CHECK;

    /// The six bytes that the command Sense gives: bytes 2 to 5 are zero.
    pub fn to_bytes(self) -> [u8; 6]
        ensures { result ≡ sense_bytes self }
    {
        let [first, second] = self.0.to_be_bytes();
        [first, second, 0, 0, 0, 0]
    }

    /// Two causes in one: each bit that is on in either.
    pub fn joined_with(self, other: Sense) -> Sense
        ensures { result ≡ joined self other }
    {
        self.union(other)
    }
}

/// Law: what is reported for each cause is its row of the table of causes.
pub fn each_cause_has_its_bytes()
    ensures { map reported_bytes causes ≡ map listed_bytes causes }
{}

//! What has passed in a command, under all its words.

ghost use Rattle.std.specs.Prelude.{◌≤◌};

use crate::met::Met;
use ckd_sense::Command;
use ckd_track::{data_length, lengths};

/// The first bytes that are kept: as many as a count area has.
const KEPT: usize = 8;

/// The bytes of a command so far.
#[derive(Clone, Copy)]
pub struct Passed {
    /// How many.
    pub count: u32,
    /// The first of them.
    pub first: [u8; KEPT],
    /// Whether the index has passed while the command looked for its area.
    pub has_turned: bool,
}

impl Passed {
    /// None.
    pub const NONE: Passed = Passed {
        count: 0,
        first: [0; KEPT],
        has_turned: false,
    };

    /// One more; one that was skipped is not known.
    pub fn passes(&mut self, byte: Option<u8>) {
        if let (Some(slot), Some(byte)) = (self.first.get_mut(self.count as usize), byte) {
            *slot = byte;
        }
        self.count = self.count.saturating_add(1);
    }

    /// Bin, cylinder and head of a seek address.
    pub fn seek_address(&self) -> (u16, u16, u16) {
        let [bin, bin_low, cylinder, cylinder_low, head, head_low, _, _] = self.first;
        (
            u16::from_be_bytes([bin, bin_low]),
            u16::from_be_bytes([cylinder, cylinder_low]),
            u16::from_be_bytes([head, head_low]),
        )
    }

    /// The lengths of key and data of a new record.
    pub fn lengths(&self) -> (u8, u16) {
        lengths(&self.first)
    }

    /// How many bytes of its area a write that is over has filled with zeros, if it has any, and its area is known.
    pub fn filled(&self, command: Command, met: Option<Met>) -> Option<u32> {
        if self.count == 0 {
            return None;
        }
        let whole = match command {
            Command::WriteData => data_length(&met?.count?) as u32,
            Command::WriteKeyAndData => body_of(&met?.count?),
            Command::WriteR0 | Command::WriteCountKeyAndData if self.count >= 8 => {
                8 + body_of(&self.first)
            }
            _ => return None,
        };
        match whole.checked_sub(self.count) {
            Some(0) => None,
            rest => rest,
        }
    }
}

// How many bytes key and data have by their count area.
fn body_of(count: &[u8; KEPT]) -> u32
    ensures { result ≤ 65790 }
{
    let (key, data) = lengths(count);
    u32::from(key) + u32::from(data)
}

//! The volume label.

ghost use Rattle.std.specs.Prelude.{◌≡◌, ◌+◌, ◌≤◌, length, slice_range};
ghost use Rattle.volume_labels.specs.Labels.{volume_label_of};

use crate::fields::{RecordAddress, record_address_at, six};

/// The label's length, in bytes.
const LABEL_LENGTH: usize = 80;

/// VOL1 in EBCDIC.
const NAME: [u8; 4] = [0xE5, 0xD6, 0xD3, 0xF1];

/// What the volume label says: the third record behind record 0 of cylinder 0, head 0.
#[derive(Clone, Copy)]
pub struct VolumeLabel {
    /// The volume's serial number, in EBCDIC.
    pub serial: [u8; 6],
    /// Where the volume table of contents says what it is: its format 4 block.
    pub contents: RecordAddress,
    /// The owner's name, in EBCDIC; OS/360 has it in the last ten bytes.
    pub owner: [u8; 14],
}

/// The volume label in a record's data: at least 80 bytes that begin with VOL1 (IBM System/360 Operating System, System Control
/// Blocks, 'Volume Label'). None where it is something else.
pub fn volume_label(bytes: &[u8]) -> Option<VolumeLabel>
    ensures { result ≡ volume_label_of bytes.now }
{
    if bytes.len() < LABEL_LENGTH || bytes[0..4] != NAME[..] {
        return None;
    }
    Some(VolumeLabel {
        serial: six(bytes, 4),
        contents: record_address_at(bytes, 11),
        owner: fourteen(bytes, 37),
    })
}

// The fourteen bytes from an offset on.
fn fourteen(bytes: &[u8], at: usize) -> [u8; 14]
    requires { at + 14 ≤ length bytes.now }
    ensures { result ≡ slice_range bytes.now at (at + 14) }
{
    let mut fourteen = [0u8; 14];
    fourteen.copy_from_slice(&bytes[at..at + 14]);
    fourteen
}

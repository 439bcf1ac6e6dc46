//! Bytes become what was saved.

ghost use Rattle.std.specs.Prelude.{◌≡◌, ◌+◌, ◌≤◌, bytes_eq, length};
ghost use Rattle.saved_state.specs.Bytes.{bytes_of};
ghost use Rattle.saved_state.specs.Reading.{arm_of, channel_of, channels_of, drive_of, drives_of, number_at, pending_of, read, word_at};

use crate::checksum::checksum;
use crate::faults::BytesFault;
use crate::writing::{LENGTH, to_bytes};
use ckd_sense::Sense;
use s360_channel::{SavedChannel, SavedDrive};
use s360_laws::arm::Arm;
use s360_words::{ChannelStatus, Csw, UnitStatus};

/// What was saved, of its bytes.
///
/// # Errors
///
/// `NotSaved`, `OtherVersion`, `OtherLength`, `OtherSum` and `NotSound`, in this order.
pub fn from_bytes(bytes: &[u8]) -> Result<[Option<SavedChannel>; 7], BytesFault>
    ensures { result ≡ read bytes.now }
{
    if bytes.len() < 9 || bytes[..8] != b"DASDSAVE"[..] {
        return Err(BytesFault::NotSaved);
    }
    if bytes[8] != 1 {
        return Err(BytesFault::OtherVersion);
    }
    if bytes.len() != LENGTH {
        return Err(BytesFault::OtherLength);
    }
    if word_at(bytes, 534) != checksum(&bytes[..534]) {
        return Err(BytesFault::OtherSum);
    }
    let saved = channels_of(&bytes[9..534]);
    if !are_bytes_of(&saved, bytes) {
        return Err(BytesFault::NotSound);
    }
    Ok(saved)
}

// Whether these are the bytes of what was saved.
fn are_bytes_of(saved: &[Option<SavedChannel>; 7], bytes: &[u8]) -> bool
    ensures { result ≡ bytes_eq (bytes_of saved.now) bytes.now }
{
    to_bytes(saved).as_slice() == bytes
}

// The channels, in 75 bytes each.
fn channels_of(bytes: &[u8]) -> [Option<SavedChannel>; 7]
    requires { length bytes.now ≡ 525 }
    ensures { result ≡ channels_of bytes.now }
{
    [
        channel_of(&bytes[..75]),
        channel_of(&bytes[75..150]),
        channel_of(&bytes[150..225]),
        channel_of(&bytes[225..300]),
        channel_of(&bytes[300..375]),
        channel_of(&bytes[375..450]),
        channel_of(&bytes[450..525]),
    ]
}

// A channel, if its first byte says that there is one.
fn channel_of(bytes: &[u8]) -> Option<SavedChannel>
    requires { length bytes.now ≡ 75 }
    ensures { result ≡ channel_of bytes.now }
{
    if bytes[0] == 0 {
        return None;
    }
    Some(SavedChannel {
        pending: pending_of(&bytes[..11]),
        drives: drives_of(&bytes[11..75]),
    })
}

// The channel status word that pends, if the first byte says so, behind its device.
fn pending_of(bytes: &[u8]) -> Option<(u8, Csw)>
    requires { length bytes.now ≡ 11 }
    ensures { result ≡ pending_of bytes.now }
{
    if bytes[0] != 2 {
        return None;
    }
    Some((
        bytes[1],
        Csw {
            key: bytes[2],
            address: word_at(bytes, 3),
            unit: UnitStatus(bytes[7]),
            channel: ChannelStatus(bytes[8]),
            count: number_at(bytes, 9),
        },
    ))
}

// The drives, in 8 bytes each.
fn drives_of(bytes: &[u8]) -> [Option<(u8, SavedDrive)>; 8]
    requires { length bytes.now ≡ 64 }
    ensures { result ≡ drives_of bytes.now }
{
    [
        drive_of(&bytes[..8]),
        drive_of(&bytes[8..16]),
        drive_of(&bytes[16..24]),
        drive_of(&bytes[24..32]),
        drive_of(&bytes[32..40]),
        drive_of(&bytes[40..48]),
        drive_of(&bytes[48..56]),
        drive_of(&bytes[56..64]),
    ]
}

// A drive, if its first byte says what its arm does, behind its address.
fn drive_of(bytes: &[u8]) -> Option<(u8, SavedDrive)>
    requires { length bytes.now ≡ 8 }
    ensures { result ≡ drive_of bytes.now }
{
    let arm = arm_of(bytes[0])?;
    Some((
        bytes[1],
        SavedDrive {
            arm,
            cylinder: number_at(bytes, 2),
            head: number_at(bytes, 4),
            sense: Sense(number_at(bytes, 6)),
        },
    ))
}

fn arm_of(byte: u8) -> Option<Arm>
    ensures { result ≡ arm_of byte }
{
    match byte {
        1 => Some(Arm::AtRest),
        2 => Some(Arm::InMotion),
        3 => Some(Arm::Arrived),
        _ => None,
    }
}

// A number of two bytes.
fn number_at(bytes: &[u8], at: usize) -> u16
    requires { at + 2 ≤ length bytes.now }
    ensures { result ≡ number_at bytes.now at }
{
    bytes[at] as u16 * 256 + bytes[at + 1] as u16
}

// A number of four bytes.
fn word_at(bytes: &[u8], at: usize) -> u32
    requires { at + 4 ≤ length bytes.now }
    ensures { result ≡ word_at bytes.now at }
{
    bytes[at] as u32 * 16777216
        + bytes[at + 1] as u32 * 65536
        + bytes[at + 2] as u32 * 256
        + bytes[at + 3] as u32
}

//! What is saved becomes bytes.

ghost use Rattle.std.specs.Prelude.{◌≡◌, ◌+◌, ◌++◌, ◌≤◌, length};
ghost use Rattle.arrayvec.specs.ArrayVec.{array_vec_len};
ghost use Rattle.saved_state.specs.Bytes.{arm_byte, bytes_of, channel_bytes, drive_bytes, drives_bytes, number_bytes, pending_bytes, word_bytes};

use crate::checksum::checksum;
use arrayvec::ArrayVec;
use s360_channel::{SavedChannel, SavedDrive};
use s360_laws::arm::Arm;
use s360_words::Csw;

/// How many bytes a saved state has.
pub const LENGTH: usize = 538;

/// The bytes of channels as they were saved.
pub fn to_bytes(saved: &[Option<SavedChannel>; 7]) -> ArrayVec<u8, 538>
    ensures bytes { result.items ≡ bytes_of saved.now }
    ensures len { length result.items ≡ 538 }
{
    let mut out: ArrayVec<u8, 538> = ArrayVec::new();
    put(&mut out, b"DASDSAVE\x01");
    let [zero, one, two, three, four, five, six] = saved;
    put_channel(&mut out, zero);
    put_channel(&mut out, one);
    put_channel(&mut out, two);
    put_channel(&mut out, three);
    put_channel(&mut out, four);
    put_channel(&mut out, five);
    put_channel(&mut out, six);
    let sum = checksum(out.as_slice());
    put(&mut out, &word_bytes(sum));
    out
}

// Bytes more.
fn put(out: &mut ArrayVec<u8, 538>, bytes: &[u8])
    requires { array_vec_len out.old + length bytes.now ≤ 538 }
    ensures items { out.new.items ≡ out.old.items ++ bytes.now }
    ensures len { array_vec_len out.new ≡ array_vec_len out.old + length bytes.now }
{
    match out.try_extend_from_slice(bytes) {
        Ok(()) => {}
        Err(_) => unreachable!(),
    }
}

// A channel, if there is one, in 75 bytes.
fn put_channel(out: &mut ArrayVec<u8, 538>, channel: &Option<SavedChannel>)
    requires { array_vec_len out.old + 75 ≤ 538 }
    ensures items { out.new.items ≡ out.old.items ++ channel_bytes channel.now }
    ensures len { array_vec_len out.new ≡ array_vec_len out.old + 75 }
{
    match channel {
        None => put(out, &[0; 75]),
        Some(channel) => {
            put(out, &pending_bytes(channel.pending));
            put_drives(out, &channel.drives);
        }
    }
}

// The drives of a channel, in 64 bytes.
fn put_drives(out: &mut ArrayVec<u8, 538>, drives: &[Option<(u8, SavedDrive)>; 8])
    requires { array_vec_len out.old + 64 ≤ 538 }
    ensures items { out.new.items ≡ out.old.items ++ drives_bytes drives.now }
    ensures len { array_vec_len out.new ≡ array_vec_len out.old + 64 }
{
    put(out, &drive_bytes(drives[0]));
    put(out, &drive_bytes(drives[1]));
    put(out, &drive_bytes(drives[2]));
    put(out, &drive_bytes(drives[3]));
    put(out, &drive_bytes(drives[4]));
    put(out, &drive_bytes(drives[5]));
    put(out, &drive_bytes(drives[6]));
    put(out, &drive_bytes(drives[7]));
}

// The subchannel of a channel, in 11 bytes.
fn pending_bytes(pending: Option<(u8, Csw)>) -> [u8; 11]
    ensures { result ≡ pending_bytes pending }
{
    match pending {
        None => [1, 0, 0, 0, 0, 0, 0, 0, 0, 0, 0],
        Some((device, csw)) => {
            let [first, second, third, fourth] = word_bytes(csw.address);
            let [high, low] = number_bytes(csw.count);
            [
                2,
                device,
                csw.key,
                first,
                second,
                third,
                fourth,
                csw.unit.0,
                csw.channel.0,
                high,
                low,
            ]
        }
    }
}

// A drive, if there is one, in 8 bytes.
fn drive_bytes(drive: Option<(u8, SavedDrive)>) -> [u8; 8]
    ensures { result ≡ drive_bytes drive }
{
    match drive {
        None => [0; 8],
        Some((device, saved)) => {
            let [cylinder, cylinder_low] = number_bytes(saved.cylinder);
            let [head, head_low] = number_bytes(saved.head);
            let [sense, sense_low] = number_bytes(saved.sense.0);
            [
                arm_byte(saved.arm),
                device,
                cylinder,
                cylinder_low,
                head,
                head_low,
                sense,
                sense_low,
            ]
        }
    }
}

fn arm_byte(arm: Arm) -> u8
    ensures { result ≡ arm_byte arm }
{
    match arm {
        Arm::AtRest => 1,
        Arm::InMotion => 2,
        Arm::Arrived => 3,
    }
}

fn number_bytes(number: u16) -> [u8; 2]
    ensures { result ≡ number_bytes number }
{
    [(number / 256) as u8, (number % 256) as u8]
}

fn word_bytes(number: u32) -> [u8; 4]
    ensures { result ≡ word_bytes number }
{
    [
        (number / 16777216) as u8,
        (number / 65536 % 256) as u8,
        (number / 256 % 256) as u8,
        (number % 256) as u8,
    ]
}

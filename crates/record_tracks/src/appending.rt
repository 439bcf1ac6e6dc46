//! Bytes that are written from their beginning on, with zeros behind what was written.

ghost use Rattle.std.specs.Prelude.{◌≡◌, ◌≤◌, ◌+◌, length, replicate};
ghost use Rattle.record_tracks.specs.Filled.{PutBehind};

use ckd_track::overwrite;

/// Writes bytes behind those with which a slot or a block begins, whose rest is zeros, and answers where the next ones go.
pub(crate) fn append(room: &mut [u8], at: usize, bytes: &[u8]) -> usize
    requires { at + length bytes.now ≤ length room.old }
    ensures next { result ≡ at + length bytes.now }
    ensures same { length room.new ≡ length room.old }
    ensures written { PutBehind at bytes.now room.old room.new }
{
    overwrite(room, at, bytes);
    at + bytes.len()
}

/// Has all bytes of a slot or a block zero.
pub(crate) fn clear(room: &mut [u8])
    ensures { room.new ≡ replicate (length room.old) 0 }
{
    room.fill(0);
}

//! Which tracks of a volume's file were written.

ghost use Rattle.std.specs.Prelude.{◌≡◌, ◌+◌, ◌*◌, ◌≤◌, length, OnOk};
ghost use Rattle.dasd_files.specs.Files.{IsFile};
ghost use Rattle.dasd_files.specs.Tracks.{ShowsNext, TellsNext, by_slots, slot_size, tracks_in};

use crate::volume_file::VolumeFile;
use byteorder::{ByteOrder, LittleEndian};
use ckd_image::HEADER_LENGTH;
use std::alloc::{AllocError, Global};

/// A track that may have been written, and where its slot lies in the file.
#[repr(C)]
#[derive(Clone, Copy)]
pub struct ShownTrack {
    /// Where its slot begins.
    pub at: usize,
    /// How many bytes the slot has.
    pub len: usize,
    /// The track's number among those of the file, from 0 on: cylinder by cylinder, and head by head.
    pub track: usize,
    /// The number of the track at which the next look begins.
    pub next: usize,
}

// The first track of a file, whose slots have so many bytes, at this one or after it, that may have been written since the file's
// number of changes was this one. Each track that is passed over holds what it held then.
fn next_changed(file: &VolumeFile, size: u32, since: u64, from: usize) -> Option<ShownTrack>
    ensures next { ShowsNext file.now size since from result }
    ensures file { IsFile file.now }
{
    let len = file.bytes().len();
    if size == 0 || len < HEADER_LENGTH {
        return None;
    }
    let tracks = (len - HEADER_LENGTH) / size as usize;
    for track in from..tracks {
        let at = HEADER_LENGTH + track * size as usize;
        if file.may_have_changed(since, at, size as usize) {
            return Some(ShownTrack {
                at,
                len: size as usize,
                track,
                next: track + 1,
            });
        }
    }
    None
}

/// Shows the next track of a file, from the one that `track.next` names on, that may have been written since the file's number of changes was
/// this one: 1, or 0 where there is none, and `track` stays.
pub fn tell_next(file: &VolumeFile, size: u32, since: u64, track: &mut ShownTrack) -> i32
    ensures next { TellsNext file.now size since result track.old track.new }
    ensures file { IsFile file.now }
{
    match next_changed(file, size, since, track.next) {
        Some(told) => {
            *track = told;
            1
        }
        None => 0,
    }
}

/// The slots of a file, of so many bytes, are watched from now on. The only error is that memory was refused.
pub fn watch_slots(alloc: Global, file: &mut VolumeFile, size: u32) -> Result<(), AllocError>
    ensures slots { OnOk result (file.new ≡ by_slots size file.old) }
    ensures same { file.new ≡ record file.old { parts = file.new.parts } }
{
    let header = HEADER_LENGTH as u32;
    if size <= header {
        return Ok(());
    }
    file.watch(alloc, size - header, size)
}

/// The size of a slot, as the header says it with which these bytes begin; 0 where they are fewer than it has.
pub fn slot_size(bytes: &[u8]) -> u32
    ensures { result ≡ slot_size bytes.now }
{
    if bytes.len() < 16 {
        return 0;
    }
    LittleEndian::read_u32(&bytes[12..16])
}

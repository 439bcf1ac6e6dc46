//! How far files go whose last one is too short or too long for an image.

ghost use Rattle.std.specs.Prelude.{◌≡◌, ◌≤◌, ◌-◌, ◌^◌, ◌<◌, length, slice_index_or, IfSome, IfNone};
ghost use Rattle.std.specs.List.{sum};
ghost use Rattle.ckd_track.specs.Geometry.{IsGeometry};
ghost use Rattle.dasd_jobs.specs.declared.reasons.Head.{Head};
ghost use Rattle.dasd_jobs.specs.Lengths.{judged_length, whole_length};
ghost use Rattle.dasd_jobs.specs.Opening.{AreTracks, judged, left_behind};

use crate::files::ImageFiles;
use crate::reasons::Head;
use byteorder::{ByteOrder, LittleEndian};
use ckd_image::HEADER_LENGTH;
use ckd_track::Geometry;
use counted_io::Quantity;
use dasd_volumes::PrintedAddress;
use std::fmt;

/// How far files go that hold a volume: how many tracks of it they lack, which are its last ones, and how many bytes they have behind its
/// slots.
#[derive(Clone, Copy)]
pub struct Reach {
    /// The tracks that they lack.
    pub lacking: u32,
    /// The bytes that are left out.
    pub left_out: u64,
}

// The length of a file with all of the cylinders of which it has a whole slot, if a file has such a length.
fn whole_length(head: &Head) -> Option<u64>
    requires { 512 ≤ head.now.len }
    ensures some { IfSome result (λ len. len ≡ whole_length head.now.header head.now.len) }
    ensures none { IfNone result (2 ^ 64 ≤ whole_length head.now.header head.now.len) }
{
    let heads = u64::from(LittleEndian::read_u32(&head.header[8..12]));
    let size = u64::from(LittleEndian::read_u32(&head.header[12..16]));
    let cylinder = heads * size;
    if cylinder == 0 {
        return Some(HEADER_LENGTH as u64);
    }
    let tracks = (head.len - HEADER_LENGTH as u64) / size;
    let slots = tracks.div_ceil(heads).checked_mul(cylinder)?;
    slots.checked_add(HEADER_LENGTH as u64)
}

// The length by which a file is judged that is read as far as it goes.
fn judged_length(head: &Head) -> u64
    ensures { result ≡ judged_length head.now.header head.now.len }
{
    if head.len < HEADER_LENGTH as u64 {
        return head.len;
    }
    match whole_length(head) {
        Some(len) => len,
        None => head.len,
    }
}

/// The header at this place as it is judged: of the last file, where files are read as far as they go, as if it had all of its cylinders.
#[tactic(auto, using(crate::proofs::Reached::judged_other, crate::proofs::Reached::judged_last))]
pub(crate) fn judged_at(heads: &[Head], i: usize, as_far: bool) -> Head
    requires { i < length heads.now }
    ensures { (d : Head) → result ≡ slice_index_or (judged as_far heads.now) i d }
{
    let head = heads[i];
    if as_far && i + 1 == heads.len() {
        return Head {
            header: head.header,
            len: judged_length(&head),
        };
    }
    head
}

/// How many slots of a volume of this geometry are whole in a file with this header.
pub(crate) fn tracks_in(head: &Head, geometry: Geometry) -> u32
    requires { IsGeometry geometry }
    ensures { AreTracks geometry head.now result }
{
    if head.len < HEADER_LENGTH as u64 {
        return 0;
    }
    let tracks = (head.len - HEADER_LENGTH as u64) / u64::from(geometry.track_size);
    tracks.min(u64::from(geometry.tracks())) as u32
}

/// How many of so many tracks are in none of files that have so many slots each.
#[tactic(auto, using(ckd_image::proofs::FileLemmas::sum_cons))]
pub(crate) fn lacking(tracks: &[u32], all: u32) -> u32
    ensures { result ≡ all - sum tracks.now }
{
    let [held, others @ ..] = tracks else {
        return all;
    };
    lacking(others, all.saturating_sub(*held))
}

/// How many bytes stand behind the slots of the last of the files with these headers.
#[tactic(auto, using(crate::proofs::Reached::left_at))]
pub(crate) fn left_out(heads: &[Head], geometry: Geometry) -> u64
    requires { IsGeometry geometry }
    ensures { result ≡ left_behind geometry heads.now }
{
    let len = heads.len();
    if len == 0 {
        return 0;
    }
    let last = heads[len - 1];
    let slots = u64::from(tracks_in(&last, geometry)) * u64::from(geometry.track_size);
    last.len.saturating_sub(HEADER_LENGTH as u64 + slots)
}

/// Of the last file of an image it is told what it lacks, and what of it is left out.
#[derive(Clone, Copy)]
enum Remark<'a> {
    /// So many tracks, from this one on.
    Lacks(&'a str, u32, PrintedAddress),
    /// So many bytes.
    LeavesOut(&'a str, u64),
}

impl fmt::Display for Remark<'_> {
    fn fmt<W: fmt::Write>(&self, f: &mut fmt::Formatter<W>) -> fmt::Result {
        match self {
            Remark::Lacks(path, number, from) => {
                let number = u64::from(*number);
                let tracks = Quantity::new(number, "track is", "tracks are");
                write!(f, "{path}: {tracks} not in the file, from {from} on")
            }
            Remark::LeavesOut(path, number) => {
                let one = "byte after the last whole track is left out";
                let many = "bytes after the last whole track are left out";
                let bytes = Quantity::new(*number, one, many);
                write!(f, "{path}: {bytes}")
            }
        }
    }
}

/// Says of the last of these files what it lacks of a volume, and what of it is left out.
pub(crate) fn remark_reach<F: ImageFiles>(
    files: &mut F,
    paths: &[&str],
    geometry: Geometry,
    reach: Reach,
)
    ensures kept { F.written files.new ≡ F.written files.old }
    ensures same { F.opened files.new ≡ F.opened files.old }
{
    let path = match paths {
        [.., last] => last,
        [] => "",
    };
    if reach.lacking > 0 {
        let first = geometry.tracks().saturating_sub(reach.lacking);
        let from = address_of(geometry, first);
        files.remark(&Remark::Lacks(path, reach.lacking, from));
    }
    if reach.left_out > 0 {
        files.remark(&Remark::LeavesOut(path, reach.left_out));
    }
}

// Where a track is.
fn address_of(geometry: Geometry, track: u32) -> PrintedAddress {
    let heads = u32::from(geometry.model.heads());
    PrintedAddress {
        cylinder: u16::try_from(track.checked_div(heads).unwrap_or(0)).unwrap_or(0),
        head: u16::try_from(track.checked_rem(heads).unwrap_or(0)).unwrap_or(0),
    }
}

//! Why files hold no image, in more words than the fault's one line.

ghost use Rattle.std.specs.Prelude.{◌≡◌};

use crate::files::ImageFiles;
use crate::found::found_text;
use crate::headers::is_header;
use byteorder::{ByteOrder, LittleEndian};
use ckd_image::{HEADER_LENGTH, MountFault};
use counted_io::Quantity;
use std::fmt;

/// The header of a file, and the file's length. Of a file that is shorter than a header it has zeros.
#[derive(Clone, Copy)]
pub(crate) struct Head {
    pub(crate) header: [u8; HEADER_LENGTH],
    pub(crate) len: u64,
}

impl Head {
    /// The file's number among those of its image; 0 and 1 are an only file's too.
    fn sequence(&self) -> u8 {
        self.header[17]
    }

    /// The last cylinder in a file that is not the last; else 0.
    fn highest(&self) -> u16 {
        LittleEndian::read_u16(&self.header[18..20])
    }

    /// The bytes of a cylinder, and the device type.
    fn layout(&self) -> (u64, u8) {
        let heads = LittleEndian::read_u32(&self.header[8..12]);
        let size = LittleEndian::read_u32(&self.header[12..16]);
        (u64::from(heads) * u64::from(size), self.header[16])
    }
}

/// Why a file is not one of those that it was named with.
#[derive(Clone, Copy)]
enum Reason {
    /// What a fault that lies in this file alone says.
    Fault(MountFault),
    /// What the file is instead, by its first bytes.
    Found(&'static str),
    /// It is named alone, and others follow it.
    OthersFollow(u16),
    /// It is named alone, and has a number behind the first.
    Number(u8),
    /// Its number is not that of its place.
    Place(u8, usize),
    /// Its drive or its track size is not that of the first file.
    OtherDrive,
    /// Others follow it, and this is its highest cylinder.
    Highest(u16, usize),
    /// None follows it, and this is its highest cylinder.
    NoneFollows(u16),
    /// A file of this length has no whole header.
    NoHeader(u64),
    /// Others follow it, and it has this length instead of that which its cylinders take.
    OtherLength(u64, u64),
    /// A file of this length does not end behind a cylinder of so many bytes.
    Length(u64, u64),
}

impl fmt::Display for Reason {
    fn fmt<W: fmt::Write>(&self, f: &mut fmt::Formatter<W>) -> fmt::Result {
        match self {
            Reason::Fault(fault) => write!(f, "{fault}"),
            Reason::Found(found) => write!(f, "{found}"),
            Reason::OthersFollow(highest) => {
                write!(
                    f,
                    "it ends with cylinder {highest}, and the files after it are not named"
                )
            }
            Reason::Number(number) => write!(
                f,
                "it is file {number} of an image, and is named alone"
            ),
            Reason::Place(number, place) => {
                write!(f, "it is named as file {place} and has the number {number}")
            }
            Reason::OtherDrive => write!(
                f,
                "its drive or track size is not that of the first file"
            ),
            Reason::Highest(highest, behind) => {
                let files = Quantity::new(*behind as u64, "more follows", "more follow");
                write!(f, "its highest cylinder is {highest}, and {files}")
            }
            Reason::NoneFollows(highest) => {
                write!(f, "its highest cylinder is {highest}, and no file follows")
            }
            Reason::NoHeader(len) => {
                let bytes = Quantity::new(*len, "byte", "bytes");
                write!(
                    f,
                    "its length is {bytes}, and its header has {HEADER_LENGTH}"
                )
            }
            Reason::OtherLength(len, wanted) => {
                write!(
                    f,
                    "its length is {len} bytes, and its cylinders take {wanted}"
                )
            }
            Reason::Length(len, cylinder) => {
                let bytes = Quantity::new(*len, "byte", "bytes");
                write!(
                    f,
                    "its length is {bytes}, and an image is {HEADER_LENGTH} bytes and whole cylinders of {cylinder}"
                )
            }
        }
    }
}

/// A file, and why it is not as it must be.
#[derive(Clone, Copy)]
struct Remark<'a> {
    path: &'a str,
    reason: Reason,
}

impl fmt::Display for Remark<'_> {
    fn fmt<W: fmt::Write>(&self, f: &mut fmt::Formatter<W>) -> fmt::Result {
        let path = self.path;
        let reason = self.reason;
        write!(f, "{path}: {reason}")
    }
}

/// Says which of these files is not as it must be, and why, where that can be told of one.
pub(crate) fn remark_on<F: ImageFiles>(
    files: &mut F,
    paths: &[&str],
    heads: &[Head],
    fault: MountFault,
)
    ensures kept { F.written files.new ≡ F.written files.old }
    ensures same { F.opened files.new ≡ F.opened files.old }
{
    if let Some(remark) = remark_of(paths, heads, fault) {
        files.remark(&remark);
    }
}

// The first of these files that is not as it must be.
fn remark_of<'a>(paths: &[&'a str], heads: &[Head], fault: MountFault) -> Option<Remark<'a>> {
    let mut before = None;
    for (place, (path, head)) in paths.iter().zip(heads).enumerate() {
        let reason = match fault {
            MountFault::Split => reason_of_split(heads, place, head, before),
            MountFault::Length => reason_of_length(heads, place, head, before),
            fault => (!is_header(&head.header)).then_some(found_text(&head.header).map_or(
                Reason::Fault(fault),
                Reason::Found,
            )),
        };
        if let Some(reason) = reason {
            return Some(Remark { path, reason });
        }
        before = Some(*head);
    }
    None
}

// Why the file at this place is not one of these.
fn reason_of_split(
    heads: &[Head],
    place: usize,
    head: &Head,
    before: Option<Head>,
) -> Option<Reason> {
    let (number, highest) = (head.sequence(), head.highest());
    let behind = heads.len().saturating_sub(place).saturating_sub(1);
    if heads.len() == 1 {
        return match (number, highest) {
            (0 | 1, 0) => None,
            (0 | 1, highest) => Some(Reason::OthersFollow(highest)),
            (number, _) => Some(Reason::Number(number)),
        };
    }
    if usize::from(number) != place.saturating_add(1) {
        return Some(Reason::Place(number, place.saturating_add(1)));
    }
    if heads
        .first()
        .is_some_and(|first| first.layout() != head.layout())
    {
        return Some(Reason::OtherDrive);
    }
    if behind == 0 {
        return (highest != 0).then_some(Reason::NoneFollows(highest));
    }
    let least = before.map_or(0, |before| before.highest());
    (highest <= least).then_some(Reason::Highest(highest, behind))
}

// Why the file at this place does not have the length of one of these: one that others follow has its cylinders, and the last one whole ones.
fn reason_of_length(
    heads: &[Head],
    place: usize,
    head: &Head,
    before: Option<Head>,
) -> Option<Reason> {
    let (header, len) = (HEADER_LENGTH as u64, head.len);
    if len < header {
        return Some(Reason::NoHeader(len));
    }
    let (cylinder, _) = head.layout();
    if place.saturating_add(1) < heads.len() {
        let from = before.map_or(0, |before| u64::from(before.highest()) + 1);
        let cylinders = (u64::from(head.highest()) + 1).saturating_sub(from);
        let wanted = header.saturating_add(cylinders.saturating_mul(cylinder));
        return (len != wanted).then_some(Reason::OtherLength(len, wanted));
    }
    let slots = len - header;
    let is_whole = slots > 0 && slots.checked_rem(cylinder) == Some(0);
    (!is_whole).then_some(Reason::Length(len, cylinder))
}

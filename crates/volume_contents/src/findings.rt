//! What is wrong with a volume's label, its control blocks and its extents, and where.

use crate::chains::ChainFault;
use ckd_track::SlotFault;
use volume_labels::{Extent, FreeTracks, RecordAddress};

/// What is wrong. Nothing of it keeps what else there is from being listed.
#[derive(Clone, Copy)]
pub enum Problem {
    /// The third record behind record 0 of cylinder 0, head 0 is no volume label: nothing more is read.
    NoLabel,
    /// The address in the volume label is not that of a format 4 block: nothing more is read.
    NoContents(RecordAddress),
    /// The extent of the volume table of contents is none, is not all on the volume, or leaves its own format 4 block out.
    BadContents(Extent),
    /// The slot of a track of the volume table of contents spells no track.
    Unreadable(SlotFault),
    /// A record of the volume table of contents has the lengths of no control block.
    NoBlock,
    /// A control block has a format that is not of OS/360 or DOS/360.
    UnknownFormat(u8),
    /// A control block has a key of another format.
    OtherKey,
    /// A chain of control blocks is broken, or does not end.
    Chain(ChainFault),
    /// A data set has so many extents, and not as many as its format 1 block says.
    OtherNumber(usize, u8),
    /// An extent ends before it begins, or names a head that the drive has not.
    BadExtent(Extent),
    /// An extent names a cylinder that the volume has not.
    ExtentOutside(Extent),
    /// An extent has a track, of this number on the volume, that one before it has too.
    Overlap(Extent, u32),
    /// Free tracks are not all on the volume.
    FreeOutside(FreeTracks),
    /// A track, of this number on the volume, is said to be free, and is an extent's or was said to be free before.
    FreeInUse(FreeTracks, u32),
}

/// A problem, and where it is.
#[derive(Clone, Copy)]
pub struct Finding {
    /// The record; its number is 0 where it is the track as a whole.
    pub place: RecordAddress,
    /// What it is.
    pub problem: Problem,
}

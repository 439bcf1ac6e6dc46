//! Data sets on several volumes: which part of one a volume has.

ghost use Rattle.std.specs.Prelude.{◌≡◌, Some};
ghost use Rattle.dasd_unload.specs.Parts.{is_partitioned, is_last_volume, is_past_extents, part_of, end_of, is_whole_part, is_end, is_whole};
ghost use Rattle.dasd_unload.specs.Parts.{are_all_tracks, part_text, end_text};

use dasd_extract::{Cause, Stop};
use std::fmt;
use volume_labels::DataSetBlock;

/// The bit of a data set's organisation that says that it is partitioned (IBM System/360 Operating System, System Control Blocks,
/// 'Data Set Control Block', format 1, DS1DSORG).
const PARTITIONED: u16 = 0x0200;

/// The bit of a data set's indicators that says that this is its last volume (the same, DS1DSIND).
const LAST_VOLUME: u8 = 0x80;

/// Which part of its data set a volume has, as its label says.
#[derive(Clone, Copy, Debug, PartialEq, Eq)]
pub enum SetPart {
    /// All of it, since nothing says otherwise.
    Whole,
    /// The last part, which has this number, above 1.
    Last(u16),
    /// A part that has this number, above 1, behind which others follow.
    Followed(u16),
    /// No end of file stands in its extents, and the label does not mark the volume as the last.
    Unmarked,
}

/// Where the blocks or the tracks of a data set end on a volume, and which part of it they are.
#[derive(Clone, Copy, Debug)]
pub struct End {
    /// Where they end, and why.
    pub stop: Stop,
    /// Which part they are.
    pub part: SetPart,
}

/// Whether a data set has members.
pub(crate) fn is_partitioned(block: &DataSetBlock) -> bool
    ensures { result ≡ is_partitioned block.now }
{
    block.organisation & PARTITIONED != 0
}

// Whether a label marks its volume as the last of its data set.
fn is_last_volume(block: &DataSetBlock) -> bool
    ensures { result ≡ is_last_volume block.now }
{
    block.indicators & LAST_VOLUME != 0
}

// Whether no end of file stands in the extents.
fn is_past_extents(cause: Cause) -> bool
    ensures { result ≡ is_past_extents cause }
{
    matches!(cause, Cause::PastExtents)
}

// Which part of a data set a volume has, whose blocks end there for this cause.
fn part_of(block: &DataSetBlock, cause: Cause) -> SetPart
    ensures { result ≡ part_of block.now cause }
{
    if is_partitioned(block) {
        return SetPart::Whole;
    }
    let is_last = is_last_volume(block);
    if block.volume > 1 {
        return if is_last {
            SetPart::Last(block.volume)
        } else {
            SetPart::Followed(block.volume)
        };
    }
    if is_past_extents(cause) && !is_last {
        return SetPart::Unmarked;
    }
    SetPart::Whole
}

/// The end of the blocks or the tracks of a data set, by its label.
pub(crate) fn end_of(block: &DataSetBlock, stop: Stop) -> End
    ensures { result ≡ end_of block.now stop }
{
    End {
        stop,
        part: part_of(block, stop.cause),
    }
}

// Whether nothing says that a volume has a part alone.
fn is_whole_part(part: SetPart) -> bool
    ensures { result ≡ is_whole_part part }
{
    matches!(part, SetPart::Whole)
}

/// Whether blocks end as they must.
pub(crate) fn is_end(cause: Cause) -> bool
    ensures { result ≡ is_end cause }
{
    matches!(cause, Cause::EndOfFile)
}

/// Whether blocks are all of a data set or of a member.
pub(crate) fn is_whole(end: End) -> bool
    ensures { result ≡ is_whole end }
{
    is_end(end.stop.cause) && is_whole_part(end.part)
}

/// Whether tracks are all of a data set.
pub(crate) fn are_all_tracks(end: End) -> bool
    ensures { result ≡ are_all_tracks end }
{
    matches!(end.stop.cause, Cause::EndOfExtents) && is_whole_part(end.part)
}

impl fmt::Display for End {
    ghost output = { λ e. Some (end_text e) };

    fn fmt<W: fmt::Write>(&self, f: &mut fmt::Formatter<W>) -> fmt::Result {
        let stop = self.stop;
        let part = self.part;
        write!(f, "{stop}{part}")
    }
}

impl fmt::Display for SetPart {
    ghost output = { λ p. Some (part_text p) };

    fn fmt<W: fmt::Write>(&self, f: &mut fmt::Formatter<W>) -> fmt::Result {
        match self {
            SetPart::Whole => Ok(()),
            SetPart::Last(number) => {
                write!(
                    f,
                    "; part {number} of a data set on several volumes, the last"
                )
            }
            SetPart::Followed(number) => write!(
                f,
                "; part {number} of a data set on several volumes, which goes on on another"
            ),
            SetPart::Unmarked => f.write_str("; its label does not mark this volume as its last"),
        }
    }
}

//! Where the blocks of a data set end, and why.

ghost use Rattle.std.specs.Prelude.{◌≡◌, Some};
ghost use Rattle.dasd_extract.specs.Stops.{lie_text, cause_text, followed_text, stop_text};
ghost use Rattle.dasd_extract.specs.Written.{stop_at, cause_behind, stop_behind};

use ckd_track::SlotFault;
use dasd_volumes::Reason;
use std::fmt;
use volume_labels::RecordFault;

/// Why no more blocks are read.
#[derive(Clone, Copy, Debug, PartialEq, Eq)]
pub enum Cause {
    /// An end-of-file record, which is one without data.
    EndOfFile,
    /// An end-of-file record, behind tracks that were read from their alternates.
    EndBehindAlternates,
    /// The extents end before an end-of-file record.
    PastExtents,
    /// The address of the first block lies behind the extents.
    Outside,
    /// An extent is no run of tracks of the drive.
    BadExtent,
    /// An extent has a track that the volume has not.
    NoTrack,
    /// The track is defective, and has no record 0 that names a track of the volume as its alternate.
    NoAlternate,
    /// The track is defective, and the track that its record 0 names is not flagged as an alternate, or is defective too.
    NotAlternate,
    /// The track can't be read.
    Unreadable(SlotFault),
    /// The track of the first block has no block of this number.
    NoBlock(u8),
    /// The block of this number is none of a directory, by its lengths.
    NotDirectory(u8),
    /// The block of this number has bytes that are no record.
    NoRecord(u8, RecordFault),
    /// The block of this number is longer than blocks of its data set are.
    LongBlock(u8),
    /// So many tracks were read as were allowed.
    TooManyTracks,
    /// All tracks of the extents were copied.
    EndOfExtents,
}

/// Where the blocks of a data set end, why, and how many tracks up to there were read from their alternates: the track is counted from
/// the data set's first on, which is 0.
#[derive(Clone, Copy, Debug)]
pub struct Stop {
    /// The track.
    pub track: u32,
    /// Why.
    pub cause: Cause,
    /// How many tracks up to there are defective, and were read from their alternates.
    pub alternates: u32,
}

/// An end with no defective track before it.
pub(crate) fn stop_at(track: u32, cause: Cause) -> Stop
    ensures { result ≡ stop_at track cause }
{
    Stop {
        track,
        cause,
        alternates: 0,
    }
}

// Why blocks end, where so many tracks were read from their alternates.
fn cause_behind(alternates: u32, cause: Cause) -> Cause
    ensures { result ≡ cause_behind alternates cause }
{
    if alternates != 0 && cause == Cause::EndOfFile {
        return Cause::EndBehindAlternates;
    }
    cause
}

/// The same end, behind so many tracks that were read from their alternates.
pub(crate) fn stop_behind(alternates: u32, stop: Stop) -> Stop
    ensures { result ≡ stop_behind alternates stop }
{
    Stop {
        track: stop.track,
        cause: cause_behind(alternates, stop.cause),
        alternates,
    }
}

impl fmt::Display for Stop {
    ghost output = { λ s. Some (stop_text s) };

    fn fmt<W: fmt::Write>(&self, f: &mut fmt::Formatter<W>) -> fmt::Result {
        let track = self.track;
        let cause = self.cause;
        let followed = Followed(self.alternates);
        write!(f, "track {track} of the data set: {cause}{followed}")
    }
}

// How many tracks were read from their alternates, where some were.
#[derive(Clone, Copy)]
struct Followed(u32);

impl fmt::Display for Followed {
    ghost output = { λ n. Some (followed_text n.0) };

    fn fmt<W: fmt::Write>(&self, f: &mut fmt::Formatter<W>) -> fmt::Result {
        match self.0 {
            0 => Ok(()),
            number => write!(f, "; tracks read from their alternates: {number}"),
        }
    }
}

impl fmt::Display for Cause {
    ghost output = { λ c. Some (cause_text c) };

    fn fmt<W: fmt::Write>(&self, f: &mut fmt::Formatter<W>) -> fmt::Result {
        match self {
            Cause::EndOfFile | Cause::EndBehindAlternates => f.write_str("end of file"),
            Cause::PastExtents => f.write_str("the extents end before an end of file"),
            Cause::Outside => f.write_str("it is after the extents"),
            Cause::BadExtent => f.write_str("an extent is no run of tracks"),
            Cause::NoTrack => f.write_str("an extent has a track that the volume has not"),
            Cause::NoAlternate => {
                f.write_str("it is defective, and no record 0 names a track of the volume")
            }
            Cause::NotAlternate => {
                f.write_str(
                    "it is defective, and the track that its record 0 names is no alternate",
                )
            }
            Cause::Unreadable(fault) => write!(f, "unreadable {}", Reason(*fault)),
            Cause::NoBlock(number) => write!(f, "no block {number}"),
            Cause::NotDirectory(number) => write!(f, "block {number} is none of a directory"),
            Cause::NoRecord(number, fault) => write!(f, "block {number} {}", Lie(*fault)),
            Cause::LongBlock(number) => write!(f, "block {number} is longer than its block length"),
            Cause::TooManyTracks => f.write_str("more tracks than are read"),
            Cause::EndOfExtents => f.write_str("end of the extents"),
        }
    }
}

// Why bytes are no record.
#[derive(Clone, Copy)]
struct Lie(RecordFault);

impl fmt::Display for Lie {
    ghost output = { λ l. Some (lie_text l.0) };

    fn fmt<W: fmt::Write>(&self, f: &mut fmt::Formatter<W>) -> fmt::Result {
        f.write_str(match self.0 {
            RecordFault::ShortRecord => "ends within a record",
            RecordFault::NoDescriptor => "has no descriptor word where there must be one",
            RecordFault::BlockLength => "has a block descriptor word of another length",
            RecordFault::RecordLength => "has a record descriptor word of a length that can't be",
            RecordFault::SegmentCode => "has a segment code that its format has not",
        })
    }
}

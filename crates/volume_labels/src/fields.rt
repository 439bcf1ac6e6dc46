//! Fields of labels and control blocks: numbers, addresses, extents and dates.

ghost use Rattle.std.specs.Prelude.{◌≡◌, ◌+◌, ◌≤◌, length, slice_range};
ghost use Rattle.volume_labels.specs.Fields.{number_at, track_address_at, record_address_at, relative_address_at, extent_at, date_at, long_number_at};
ghost use Rattle.volume_labels.specs.Fields.{free_tracks_at};

/// The address of a track, as a label says it. A volume need not have such a track.
#[derive(Clone, Copy, PartialEq, Eq)]
pub struct TrackAddress {
    /// The cylinder.
    pub cylinder: u16,
    /// The head.
    pub head: u16,
}

/// The address of a record. A track need not have such a record.
#[derive(Clone, Copy, PartialEq, Eq)]
pub struct RecordAddress {
    /// Its track.
    pub track: TrackAddress,
    /// Its number in its count area.
    pub number: u8,
}

/// The address of a record of a data set.
#[derive(Clone, Copy)]
pub struct RelativeAddress {
    /// Its track, the data set's first being 0.
    pub track: u16,
    /// Its number in its count area.
    pub number: u8,
}

/// A run of tracks, as a control block says it: nothing is known of the two addresses.
#[derive(Clone, Copy)]
pub struct Extent {
    /// What it is for: 0 where there is no extent.
    pub kind: u8,
    /// Its number among those of its data set, the first being 0.
    pub number: u8,
    /// Its first track.
    pub first: TrackAddress,
    /// Its last track.
    pub last: TrackAddress,
}

/// A date; year and day are 0 where there is none.
#[derive(Clone, Copy)]
pub struct Date {
    /// Years behind 1900.
    pub year: u8,
    /// The day of the year, the first being 1.
    pub day: u16,
}

/// Free tracks, as a control block says them: nothing is known of the three numbers. All are 0 where there are none.
#[derive(Clone, Copy)]
pub struct FreeTracks {
    /// The number of the first, track 0 being the first of the volume.
    pub first: u16,
    /// How many whole cylinders there are.
    pub cylinders: u16,
    /// How many tracks there are beside them.
    pub tracks: u8,
}

/// The number in the two bytes from an offset on.
pub(crate) fn number_at(bytes: &[u8], at: usize) -> u16
    requires { at + 2 ≤ length bytes.now }
    ensures { result ≡ number_at bytes.now at }
{
    u16::from_be_bytes([bytes[at], bytes[at + 1]])
}

/// The number in the four bytes from an offset on.
pub(crate) fn long_number_at(bytes: &[u8], at: usize) -> u32
    requires { at + 4 ≤ length bytes.now }
    ensures { result ≡ long_number_at bytes.now at }
{
    u32::from(number_at(bytes, at)) * 65536 + u32::from(number_at(bytes, at + 2))
}

/// The address of a track in the four bytes from an offset on.
pub(crate) fn track_address_at(bytes: &[u8], at: usize) -> TrackAddress
    requires { at + 4 ≤ length bytes.now }
    ensures { result ≡ track_address_at bytes.now at }
{
    TrackAddress {
        cylinder: number_at(bytes, at),
        head: number_at(bytes, at + 2),
    }
}

/// The address of a record in the five bytes from an offset on.
pub(crate) fn record_address_at(bytes: &[u8], at: usize) -> RecordAddress
    requires { at + 5 ≤ length bytes.now }
    ensures { result ≡ record_address_at bytes.now at }
{
    RecordAddress {
        track: track_address_at(bytes, at),
        number: bytes[at + 4],
    }
}

/// The address of a record of a data set in the three bytes from an offset on.
pub(crate) fn relative_address_at(bytes: &[u8], at: usize) -> RelativeAddress
    requires { at + 3 ≤ length bytes.now }
    ensures { result ≡ relative_address_at bytes.now at }
{
    RelativeAddress {
        track: number_at(bytes, at),
        number: bytes[at + 2],
    }
}

/// The extent in the ten bytes from an offset on.
pub(crate) fn extent_at(bytes: &[u8], at: usize) -> Extent
    requires { at + 10 ≤ length bytes.now }
    ensures { result ≡ extent_at bytes.now at }
{
    Extent {
        kind: bytes[at],
        number: bytes[at + 1],
        first: track_address_at(bytes, at + 2),
        last: track_address_at(bytes, at + 6),
    }
}

/// The date in the three bytes from an offset on.
pub(crate) fn date_at(bytes: &[u8], at: usize) -> Date
    requires { at + 3 ≤ length bytes.now }
    ensures { result ≡ date_at bytes.now at }
{
    Date {
        year: bytes[at],
        day: number_at(bytes, at + 1),
    }
}

/// The free tracks in the five bytes from an offset on.
pub(crate) fn free_tracks_at(bytes: &[u8], at: usize) -> FreeTracks
    requires { at + 5 ≤ length bytes.now }
    ensures { result ≡ free_tracks_at bytes.now at }
{
    FreeTracks {
        first: number_at(bytes, at),
        cylinders: number_at(bytes, at + 2),
        tracks: bytes[at + 4],
    }
}

/// The six bytes from an offset on.
pub(crate) fn six(bytes: &[u8], at: usize) -> [u8; 6]
    requires { at + 6 ≤ length bytes.now }
    ensures { result ≡ slice_range bytes.now at (at + 6) }
{
    let mut six = [0u8; 6];
    six.copy_from_slice(&bytes[at..at + 6]);
    six
}

//! What a new label says, and where the table of contents is.

ghost use Rattle.std.specs.Prelude.{◌≡◌, IfNone};
ghost use Rattle.new_labels.specs.Labels.{blocks_on, free_blocks, table_fault_of, Fits};

use ckd_track::{DriveModel, Geometry};
use thiserror::Error;

/// What the label of a new volume says, and which tracks its table of contents takes.
#[derive(Clone, Copy)]
pub struct NewLabel {
    /// The serial number, in EBCDIC.
    pub serial: [u8; 6],
    /// The owner's name, in EBCDIC.
    pub owner: [u8; 10],
    /// The number of the table's first track on the volume, whose first track is 0.
    pub first: u16,
    /// How many tracks the table has.
    pub tracks: u16,
}

/// Why a volume can't have such a table of contents.
#[derive(Clone, Copy, Debug, PartialEq, Eq, Error)]
pub enum TableFault {
    /// It has no track.
    #[error("table of contents without a track")]
    NoTrack,
    /// It takes the track of the label.
    #[error("table of contents on the label's track")]
    OnLabel,
    /// It leaves the volume.
    #[error("table of contents is outside the volume")]
    Outside,
    /// Free tracks behind it would have a number above 65535, or more of its blocks would be free than that.
    #[error("table of contents has numbers above 65535")]
    TooFar,
}

/// How many control blocks a track has room for.
pub fn blocks_on(model: DriveModel) -> u8
    ensures { result ≡ blocks_on model }
{
    match model {
        DriveModel::D2311 => 16,
        DriveModel::D2314 => 25,
    }
}

/// Why a volume can't have the table of contents that this label says; none where it can.
pub fn table_fault(geometry: Geometry, label: &NewLabel) -> Option<TableFault>
    ensures fault { result ≡ table_fault_of geometry label.now }
    ensures fits { IfNone result (Fits geometry label.now) }
{
    let end = u32::from(label.first) + u32::from(label.tracks);
    if label.tracks == 0 {
        return Some(TableFault::NoTrack);
    }
    if label.first == 0 {
        return Some(TableFault::OnLabel);
    }
    if end > geometry.tracks() {
        return Some(TableFault::Outside);
    }
    let blocks = u32::from(label.tracks) * u32::from(blocks_on(geometry.model));
    if end > 65535 || blocks > 65537 {
        return Some(TableFault::TooFar);
    }
    None
}

/// How many control blocks of the table are free: all but its own and that of the free tracks.
pub fn free_blocks(geometry: Geometry, label: &NewLabel) -> u16
    requires { Fits geometry label.now }
    ensures { result ≡ free_blocks geometry label.now }
{
    let blocks = u32::from(label.tracks) * u32::from(blocks_on(geometry.model));
    (blocks - 2) as u16
}

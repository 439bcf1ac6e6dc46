//! The two drives.

ghost use Rattle.std.specs.Prelude.{◌≡◌};
ghost use Rattle.ckd_track.specs.Model.{heads_of, capacity_of, slot_size_of, model_number_of, model_numbered};

/// A drive: the IBM 2311 or the IBM 2314.
#[derive(Clone, Copy, Debug, PartialEq, Eq)]
pub enum DriveModel {
    /// The 2311, of the 2841 Storage Control.
    D2311,
    /// The 2314 Direct Access Storage Facility.
    D2314,
}

impl DriveModel {
    /// The number that the drive is known by: 2311 or 2314.
    pub fn number(self) -> u16
        ensures { result ≡ model_number_of self }
    {
        match self {
            DriveModel::D2311 => 2311,
            DriveModel::D2314 => 2314,
        }
    }

    /// The drive of such a number; `None` of any other.
    pub fn numbered(number: u16) -> Option<DriveModel>
        ensures { result ≡ model_numbered number }
    {
        match number {
            2311 => Some(DriveModel::D2311),
            2314 => Some(DriveModel::D2314),
            _ => None,
        }
    }

    /// Tracks per cylinder.
    pub fn heads(self) -> u16
        ensures { result ≡ heads_of self }
    {
        match self {
            DriveModel::D2311 => 10,
            DriveModel::D2314 => 20,
        }
    }

    /// What the records of a track may be charged together, in bytes.
    pub fn capacity(self) -> u32
        ensures { result ≡ capacity_of self }
    {
        match self {
            DriveModel::D2311 => 3625,
            DriveModel::D2314 => 7294,
        }
    }

    /// The track size of a new image, in bytes.
    pub fn slot_size(self) -> u32
        ensures { result ≡ slot_size_of self }
    {
        match self {
            DriveModel::D2311 => 4096,
            DriveModel::D2314 => 7680,
        }
    }
}

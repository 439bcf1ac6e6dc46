//! The model, the cylinders and the track size of a volume.

ghost use Rattle.std.specs.Prelude.{◌≡◌, ◌+◌, ◌*◌, ◌<◌};
ghost use Rattle.ckd_track.specs.Model.{heads_of};
ghost use Rattle.ckd_track.specs.Geometry.{tracks_of, track_at, new_geometry};

use crate::model::DriveModel;

/// A volume's drive, its cylinders and the size of its slots.
#[derive(Clone, Copy, Debug, PartialEq, Eq)]
pub struct Geometry {
    /// The drive that the volume belongs to.
    pub model: DriveModel,
    /// The number of cylinders.
    pub cylinders: u16,
    /// The bytes of a track's slot.
    pub track_size: u32,
}

impl Geometry {
    ghost use Rattle.std.specs.Prelude.{◌≡◌, ◌+◌, ◌*◌, ◌<◌};
    ghost use Rattle.ckd_track.specs.Model.{heads_of};
    ghost use Rattle.ckd_track.specs.Geometry.{tracks_of, track_at, new_geometry};

    /// The geometry of a new volume of so many cylinders.
    pub fn new(model: DriveModel, cylinders: u16) -> Geometry
        ensures { result ≡ new_geometry model cylinders }
    {
        Geometry {
            model,
            cylinders,
            track_size: model.slot_size(),
        }
    }

    /// The number of tracks.
    pub fn tracks(self) -> u32
        ensures { result ≡ tracks_of self }
    {
        self.cylinders as u32 * self.model.heads() as u32
    }

    /// The number of the track at this cylinder and head. Tracks are numbered from 0 on, cylinder
    /// by cylinder and head by head.
    pub fn track_at(self, cylinder: u16, head: u16) -> u32
        requires cylinder { cylinder < self.cylinders }
        requires head { head < heads_of self.model }
        ensures number { result ≡ track_at self cylinder head }
        ensures exists { result < tracks_of self }
    {
        cylinder as u32 * self.model.heads() as u32 + head as u32
    }
}

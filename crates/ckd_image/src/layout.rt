//! Where the slots of a volume stand in an image's file.

ghost use Rattle.std.specs.Prelude.{◌≡◌, ◌+◌, ◌*◌};
ghost use Rattle.ckd_track.specs.Geometry.{new_geometry};
ghost use Rattle.ckd_image.specs.Layout.{image_length};

use ckd_track::{DriveModel, Geometry};

/// The length of an image's header, in bytes. The slots follow it.
pub const HEADER_LENGTH: usize = 512;

/// Where a slot of this size begins in its file; the track is counted from the file's first one.
pub(crate) fn slot_start(size: u32, track: u32) -> u64
    ensures { result ≡ 512 + track * size }
{
    HEADER_LENGTH as u64 + track as u64 * size as u64
}

/// The length of an image's file with this geometry, in bytes.
pub(crate) fn file_length(geometry: Geometry) -> u64
    ensures { result ≡ image_length geometry }
{
    slot_start(geometry.track_size, geometry.tracks())
}

/// The length of a new image's file, in bytes.
pub fn image_len(model: DriveModel, cylinders: u16) -> u64
    ensures { result ≡ image_length (new_geometry model cylinders) }
{
    file_length(Geometry::new(model, cylinders))
}

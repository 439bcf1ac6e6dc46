//! Why no image was mounted or formatted.

use thiserror::Error;

/// Why a store was not mounted or not formatted.
#[derive(Clone, Copy, Debug, PartialEq, Eq, Error)]
pub enum MountFault {
    /// The image's id is not that of an uncompressed CKD_P370 image.
    #[error("not a CKD_P370 image")]
    NotCkdP370,
    /// The image's id is that of a compressed image or of a shadow image.
    #[error("compressed image")]
    Compressed,
    /// The device type is neither that of a 2311 nor that of a 2314.
    #[error("unknown device type")]
    DeviceType,
    /// The number of heads is not the drive's.
    #[error("wrong number of heads")]
    Heads,
    /// A track of the drive may not fit the track size, or the track size is above 65,536 bytes.
    #[error("wrong track size")]
    TrackSize,
    /// The file is one of several that hold an image together.
    #[error("image in several files")]
    Split,
    /// The store's length is not that of an image.
    #[error("wrong length")]
    Length,
    /// A read or a write of the store failed.
    #[error("store fault")]
    StoreFault,
}

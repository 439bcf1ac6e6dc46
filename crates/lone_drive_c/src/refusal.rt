//! Why there is no drive.

use ckd_image::MountFault;
use thiserror::Error;

/// Why a drive alone was not made.
#[derive(Clone, Copy, Debug, PartialEq, Eq, Error)]
pub enum NotMade {
    /// A new volume has at least one cylinder.
    #[error("a volume has at least one cylinder")]
    NoCylinders,
    /// The file holds no image.
    #[error("no image")]
    Mount(MountFault),
    /// There is no memory.
    #[error("out of memory")]
    OutOfMemory,
}

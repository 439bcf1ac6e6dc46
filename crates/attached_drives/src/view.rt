//! What a drive shows of itself.

use ckd_track::DriveModel;
use s360_laws::arm::Arm;

/// What is known of an attached drive without a channel program.
#[derive(Clone, Copy, Debug, PartialEq, Eq)]
pub struct DriveView {
    /// The model.
    pub model: DriveModel,
    /// The cylinders of its volume.
    pub cylinders: u16,
    /// What its arm does between programs.
    pub arm: Arm,
    /// The cylinder where the arm is, or where it goes while it is in motion.
    pub cylinder: u16,
    /// The head.
    pub head: u16,
    /// The six sense bytes, which stay.
    pub sense: [u8; 6],
}

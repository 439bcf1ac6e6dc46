//! An attached drive.

ghost use Rattle.std.specs.Prelude.{◌≡◌};

use ckd_drive::Drive;
use ckd_image::ImageStore;
use s360_laws::arm::Arm;
use std::marker::Model;

/// A drive, the low byte of its address, and what its arm does between programs.
///
/// The drive stands on the heap, so that what is proved of a list of them speaks of its parts alone.
#[derive(Drop)]
pub(crate) struct AttachedDrive<S: ImageStore> {
    pub(crate) device: u8,
    pub(crate) arm: Arm,
    pub(crate) drive: Box<Drive<S>>,
}

impl<S: ImageStore> Model for AttachedDrive<S> {
    ghost use Rattle.attached_drives.specs.Drives.{AttachedState};

    ghost Value = { AttachedState };

    ghost view = { λ u. record { device = u.device; arm = u.arm; drive = u.drive.value } };
}

//! A command half done.

use crate::transfer::OpenTransfer;
use ckd_command::{Opened, Registers};
use ckd_image::ImageStore;
use ckd_slot::TrackCache;
use ghost_data::Trace;

/// What a drive works with: its cache and its registers, and the command at hand.
#[derive(Drop)]
pub struct Job<S: ImageStore> {
    /// The image, and the track that is at hand.
    pub cache: TrackCache<S>,
    /// What the drive remembers beside its volume.
    pub registers: Registers,
    /// The command that works, if one does.
    pub opened: Opened,
    /// How far its bytes are, if they pass.
    pub progress: OpenTransfer,
    /// The slot under the arm as it was before the command wrote to it.
    pub before: Trace,
    /// The bytes that passed in the command.
    pub passed: Trace,
}

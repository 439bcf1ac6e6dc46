//! Channels between two programs become bytes, and are put back by them.

ghost use Rattle.std.specs.Prelude.{◌≡◌, Ok, Err, option_map, OnOk, OnErr, IfErr, IfSome, length};
ghost use Rattle.saved_state.specs.Bytes.{bytes_of};
ghost use Rattle.s360_channels.specs.Saves.{all_saved};
ghost use Rattle.dasd_subsystem.specs.Saving.{restored_by};

use crate::subsystem::Subsystem;
use arrayvec::ArrayVec;
use s360_channels::SavedFault;
use saved_state::{BytesFault, from_bytes, to_bytes};
use thiserror::Error;

/// Why channels are not put back.
#[derive(Clone, Copy, Debug, PartialEq, Eq, Error)]
pub enum RestoreRefusal {
    /// The bytes are no saved state.
    #[error("{0}")]
    Bytes(BytesFault),
    /// The channels refuse what was saved.
    #[error("{0}")]
    Channels(SavedFault),
}

impl Subsystem {
    /// The bytes of all channels between two programs: what pends, and of each drive the arm, the cylinder, the head and the sense
    /// bytes. Main storage, keys and the files of volumes are not among them. None while a program runs.
    pub fn saved(&self) -> Option<ArrayVec<u8, 538>>
        ensures bytes { option_map (λ b. b.items) result ≡ option_map bytes_of (all_saved self.now.channels.channels) }
        ensures len { IfSome result (λ b. length b.items ≡ 538) }
    {
        match self.channels.saved() {
            Some(saved) => Some(to_bytes(&saved)),
            None => None,
        }
    }

    /// Puts all channels back as they were saved, by the bytes, or none. Main storage and volumes stay. It takes no memory.
    ///
    /// # Errors
    ///
    /// Why the bytes are no saved state, and why the channels refuse it, in this order; nothing has changed.
    pub fn restore(&mut self, bytes: &[u8]) -> Result<(), RestoreRefusal>
        ensures restored { OnOk result (restored_by bytes.now self.old.channels ≡ Ok self.new.channels) }
        ensures refused { IfErr result (λ e. restored_by bytes.now self.old.channels ≡ Err e) }
        ensures storage { self.new.storage ≡ self.old.storage }
        ensures stays { OnErr result (self.new ≡ self.old) }
    {
        let saved = match from_bytes(bytes) {
            Ok(saved) => saved,
            Err(fault) => return Err(RestoreRefusal::Bytes(fault)),
        };
        match self.channels.restore(&saved) {
            Ok(()) => Ok(()),
            Err(fault) => Err(RestoreRefusal::Channels(fault)),
        }
    }
}

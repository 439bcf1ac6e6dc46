//! What a volume says.

ghost use Rattle.std.specs.Prelude.{◌≡◌, ◌≢◌, length, IfOk, IfErr, OnOk};
ghost use Rattle.dasd_volumes.specs.Reading.{IsRead};
ghost use Rattle.volume_hash.specs.Message.{volume_head, AddsTracks, NumberOfUnreadable, IsHashOf};

use crate::message::Message;
use crate::tracks::add_slot;
use ckd_track::Geometry;
use dasd_volumes::{SlotReader, VolumeFault};
use std::alloc::Global;

/// The hash of a volume.
#[derive(Clone, Copy)]
pub struct VolumeHash {
    /// The SHA-256 of what it says.
    pub digest: [u8; 32],
    /// How many of its tracks can't be read. What their slots hold is hashed as it stands; those that the volume lacks hold nothing.
    pub unreadable: u32,
}

/// The hash of what a volume says: its model, the number of its cylinders, and of each track its home address and its records up to
/// the end mark. Volumes that say the same have the same hash, whatever stands behind their end marks, in their headers, and in however
/// many files they are. One slot is in memory at a time.
///
/// # Errors
///
/// There is no memory for a slot, or a read of the volume failed.
pub fn hash_volume<V: SlotReader>(alloc: Global, volume: &mut V) -> Result<VolumeHash, VolumeFault>
    ensures hash { IfOk result (IsHashOf (V.volume volume.old)) }
    ensures fault { IfErr result (λ e. e ≢ VolumeFault.Write) }
    ensures volume { IsRead result (V.volume volume.old) (V.volume volume.new) (V.failures volume.old) (V.failures volume.new) }
{
    let geometry = volume.geometry();
    let Ok(mut slot) = vec![in alloc; 0u8; geometry.track_size as usize] else {
        return Err(VolumeFault::OutOfMemory);
    };
    let mut message = begin(geometry);
    let unreadable = add_tracks(volume, &mut message, slot.as_mut_slice())?;
    Ok(VolumeHash {
        digest: message.digest(),
        unreadable,
    })
}

// The message of a volume, before its tracks.
fn begin(geometry: Geometry) -> Message
    ensures { result ≡ volume_head geometry }
{
    let mut message = Message::new();
    message.add(b"volume");
    message.add(&geometry.model.number().to_be_bytes());
    message.add(&geometry.cylinders.to_be_bytes());
    message
}

// What the tracks say goes to the message, each of which is loaded into the slot; and how many can't be read.
fn add_tracks<V: SlotReader>(
    volume: &mut V,
    message: &mut Message,
    slot: &mut [u8],
) -> Result<u32, VolumeFault>
    requires size { length slot.old ≡ (V.volume volume.old).geometry.track_size }
    ensures message { OnOk result (AddsTracks (V.volume volume.old) message.old message.new) }
    ensures number { IfOk result (NumberOfUnreadable (V.volume volume.old)) }
    ensures fault { IfErr result (λ e. e ≡ VolumeFault.Store) }
    ensures volume { IsRead result (V.volume volume.old) (V.volume volume.new) (V.failures volume.old) (V.failures volume.new) }
{
    let geometry = volume.geometry();
    let mut unreadable: u32 = 0;
    for track in 0..geometry.tracks() {
        let Ok(held) = volume.load(track, slot) else {
            return Err(VolumeFault::Store);
        };
        unreadable += add_slot(message, &slot[..held]);
    }
    Ok(unreadable)
}

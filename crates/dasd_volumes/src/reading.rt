//! Volumes that are read slot by slot.

ghost use Rattle.std.specs.Prelude.{◌≡◌, ℕ, ◌<◌, ◌≤◌, length, take, IfOk};
ghost use Rattle.ckd_track.specs.Geometry.{IsGeometry, tracks_of};
ghost use Rattle.ckd_image.specs.Store.{Counts};
ghost use Rattle.dasd_volumes.specs.Reading.{KnownVolume, IsSlotOf};

use ckd_image::{Image, ImageStore, StoreFault};
use ckd_track::Geometry;

/// A volume whose slots are read one at a time, in any order, as those of an image or of files that stay on a disk.
pub trait SlotReader {
    ghost volume: { Self → KnownVolume };

    // how many reads failed; a whole number that contracts alone speak of
    ghost failures: { Self → ℕ };

    /// The model, the cylinders and the size of a slot.
    fn geometry(&self) -> Geometry
        ensures geometry { result ≡ (volume self.now).geometry }
        ensures valid { IsGeometry (volume self.now).geometry };

    /// Reads the slot of a track, which `slot` has room for, and says how many of its bytes there are: all; or none, where the volume
    /// lacks the track. Behind these, and after an error, `slot` holds any bytes.
    fn load(&mut self, track: u32, slot: &mut [u8]) -> Result<usize, StoreFault>
        requires exists { track < tracks_of (volume self.old).geometry }
        requires size { length slot.old ≡ (volume self.old).geometry.track_size }
        ensures few { IfOk result (λ held. held ≤ length slot.new) }
        ensures slot { IfOk result (λ held. IsSlotOf (volume self.old) track (take held slot.new)) }
        ensures kept { volume self.new ≡ volume self.old }
        ensures counted { Counts (failures self.old) (failures self.new) result };
}

impl<S: ImageStore> SlotReader for Image<S> {
    ghost use Rattle.std.specs.Prelude.{Some};

    ghost volume = { λ i. record { geometry = i.geometry; slots = Some i.slots; header = i.lasting.header; saves = i.saves } };

    ghost failures = { λ i. i.failures };

    fn geometry(&self) -> Geometry {
        self.geometry()
    }

    // An image has all of its tracks.
    fn load(&mut self, track: u32, slot: &mut [u8]) -> Result<usize, StoreFault> {
        match self.load(track, slot) {
            Ok(()) => Ok(slot.len()),
            Err(fault) => Err(fault),
        }
    }
}

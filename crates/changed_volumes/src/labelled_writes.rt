//! The file of a new volume with a label.

ghost use Rattle.std.specs.Prelude.{◌≡◌, ◌+◌, ◌*◌, ◌<◌, [], length, OnOk};
ghost use Rattle.ckd_track.specs.Model.{slot_size_of};
ghost use Rattle.ckd_track.specs.Geometry.{tracks_of};
ghost use Rattle.ckd_image.specs.Header.{new_header};
ghost use Rattle.ckd_image.specs.Store.{overwritten};
ghost use Rattle.new_labels.specs.Labels.{Fits};
ghost use Rattle.new_labels.specs.Tracks.{labelled_slot};
ghost use Rattle.changed_volumes.specs.LabelledFiles.{labelled_file, header_front};

use ckd_image::{HEADER_LENGTH, ImageStore, StoreFault};
use ckd_track::{DriveModel, Geometry, overwrite};
use new_labels::{NewLabel, spell_labelled_track};

/// The greatest track size of a new image, in bytes.
const LARGEST_SLOT: usize = 7680;

// Writes a new volume with a label into a file without bytes: its header, and the slot of each track in order, each at the file's end.
pub(crate) fn write_labelled<D: ImageStore>(
    draft: &mut D,
    geometry: Geometry,
    label: &NewLabel,
) -> Result<(), StoreFault>
    requires empty { D.content draft.old ≡ [] }
    requires size { geometry.track_size ≡ slot_size_of geometry.model }
    requires fits { Fits geometry label.now }
    ensures { OnOk result (D.content draft.new ≡ labelled_file geometry label.now) }
{
    draft.write_at(0, &header_of(geometry.model))?;
    let mut buffer = [0; LARGEST_SLOT];
    let slot = &mut buffer[..geometry.track_size as usize];
    for track in 0..geometry.tracks() {
        write_slot(draft, geometry, label, track, slot)?;
    }
    Ok(())
}

// The header of a new image.
fn header_of(model: DriveModel) -> [u8; HEADER_LENGTH]
    ensures { result ≡ new_header model }
{
    let mut header = [0; HEADER_LENGTH];
    overwrite(&mut header, 0, &header_front(model));
    header
}

// What the header begins with: the layout's name, a cylinder's heads, a slot's bytes and the drive, the low byte of each number first.
fn header_front(model: DriveModel) -> [u8; 20]
    ensures { result ≡ header_front model }
{
    match model {
        DriveModel::D2311 => *b"CKD_P370\x0A\0\0\0\0\x10\0\0\x11\0\0\0",
        DriveModel::D2314 => *b"CKD_P370\x14\0\0\0\0\x1E\0\0\x14\0\0\0",
    }
}

// Writes the slot of a track behind those before it. `slot` is room for it.
fn write_slot<D: ImageStore>(
    draft: &mut D,
    geometry: Geometry,
    label: &NewLabel,
    track: u32,
    slot: &mut [u8],
) -> Result<(), StoreFault>
    requires fits { Fits geometry label.now }
    requires there { track < tracks_of geometry }
    requires size { geometry.track_size ≡ slot_size_of geometry.model }
    requires room { length slot.old ≡ geometry.track_size }
    requires begins { length (D.content draft.old) ≡ 512 + track * geometry.track_size }
    ensures written { OnOk result (D.content draft.new
        ≡ overwritten (D.content draft.old) (512 + track * geometry.track_size) (labelled_slot geometry label.now track)) }
    ensures whole { length (labelled_slot geometry label.now track) ≡ geometry.track_size }
{
    spell_labelled_track(slot, geometry, label, track);
    let at = HEADER_LENGTH as u64 + u64::from(track) * u64::from(geometry.track_size);
    draft.write_at(at, slot)
}

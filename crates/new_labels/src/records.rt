//! The bytes of the loader's records and of the volume label.

ghost use Rattle.std.specs.Prelude.{◌≡◌, ◌<◌, Some};
ghost use Rattle.ckd_track.specs.Geometry.{tracks_of};
ghost use Rattle.volume_labels.specs.Labels.{volume_label_of};
ghost use Rattle.new_labels.specs.Labels.{Fits};
ghost use Rattle.new_labels.specs.Records.{track_bytes, record_id, loader_data, volume_data, volume_label_read};

use crate::labels::NewLabel;
use ckd_track::{Geometry, overwrite};

/// A blank in EBCDIC.
pub(crate) const BLANK: u8 = 0x40;

/// VOL1 in EBCDIC.
pub(crate) const LABEL_NAME: [u8; 4] = [0xE5, 0xD6, 0xD3, 0xF1];

/// Cylinder and head of a track, by its number on the volume.
pub(crate) fn track_bytes(geometry: Geometry, track: u32) -> [u8; 4]
    requires { track < tracks_of geometry }
    ensures { result ≡ track_bytes geometry track }
{
    let heads = u32::from(geometry.model.heads());
    let [c0, c1] = ((track / heads) as u16).to_be_bytes();
    let [h0, h1] = ((track % heads) as u16).to_be_bytes();
    [c0, c1, h0, h1]
}

/// The identifier of the record of this number on a track of the volume.
pub(crate) fn record_id(geometry: Geometry, track: u32, number: u8) -> [u8; 5]
    requires { track < tracks_of geometry }
    ensures { result ≡ record_id geometry track number }
{
    let [c0, c1, h0, h1] = track_bytes(geometry, track);
    [c0, c1, h0, h1, number]
}

/// The data of IPL1: whoever loads from the volume gets a processor that waits.
pub fn loader_data() -> [u8; 24]
    ensures { result ≡ loader_data }
{
    [
        // a program status word: wait state, disabled, with code 00000F
        0, 6, 0, 0, 0, 0, 0, 0x0F,
        // a channel command word: no operation, and no chaining
        3, 0, 0, 0, 0, 0, 0, 1,
        // no third word
        0, 0, 0, 0, 0, 0, 0, 0,
    ]
}

/// The data of the volume label.
pub fn volume_data(geometry: Geometry, label: &NewLabel) -> [u8; 80]
    requires { Fits geometry label.now }
    ensures bytes { result ≡ volume_data geometry label.now }
    ensures read { volume_label_of result ≡ Some (volume_label_read geometry label.now) }
{
    let NewLabel {
        serial,
        owner,
        first: _,
        tracks: _,
    } = *label;
    let mut bytes = [BLANK; 80];
    overwrite(&mut bytes, 41, &owner);
    overwrite(&mut bytes, 11, &first_block(geometry, label));
    overwrite(&mut bytes, 4, &serial);
    overwrite(&mut bytes, 0, &LABEL_NAME);
    bytes
}

// Where the block of format 4 is: the first record of the table's first track.
fn first_block(geometry: Geometry, label: &NewLabel) -> [u8; 5]
    requires { Fits geometry label.now }
    ensures { result ≡ record_id geometry label.now.first 1 }
{
    record_id(geometry, u32::from(label.first), 1)
}

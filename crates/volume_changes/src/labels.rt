//! The volume label and the serial numbers of data sets, as they are changed.

ghost use Rattle.std.specs.Prelude.{◌≡◌, ◌≤◌, ◌<◌, ◌++◌, length, replicate, true, false, is_some, IfOk, OnOk, OnErr};
ghost use Rattle.ckd_track.specs.Track.{track_of, track_in, record_in};
ghost use Rattle.volume_contents.specs.Contents.{label_in};
ghost use Rattle.volume_labels.specs.Labels.{volume_label_of};
ghost use Rattle.volume_changes.specs.Labels.{with_fields, with_owner, with_serial, relabelled_slot, has_serial, serial_change};

use crate::blocks::BlockChange;
use ckd_track::{overwrite, put_data, read_slot};
use std::alloc::{AllocError, Global};
use volume_contents::{Block, is_data_set};
use volume_labels::volume_label;

/// Which record of the first track is the volume label, record 0 being the first.
const LABEL: usize = 3;

/// What a volume label says later: each where it is given, and else what it said before.
#[derive(Clone, Copy)]
pub struct LabelFields {
    /// The serial number, in EBCDIC.
    pub serial: Option<[u8; 6]>,
    /// The owner's name, in EBCDIC.
    pub owner: Option<[u8; 10]>,
}

/// Writes fields into the volume label on the volume's first track. What stood behind the track's end mark are zeros then. Where it has no
/// label, the slot stays as it was.
///
/// # Errors
///
/// There is no memory for the label's data: the slot stays as it was.
pub fn write_label(alloc: Global, slot: &mut [u8], fields: &LabelFields) -> Result<(), AllocError>
    ensures slot { OnOk result (slot.new ≡ relabelled_slot fields.now slot.old) }
    ensures kept { OnErr result (slot.new ≡ slot.old) }
    ensures size { length slot.new ≡ length slot.old }
{
    if !has_label(slot) {
        return Ok(());
    }
    let mut bytes = label_bytes(alloc, slot)?;
    put_fields(bytes.as_mut_slice(), fields);
    put_data(slot, LABEL, bytes.as_slice());
    Ok(())
}

// Whether the track of a slot has a volume label.
fn has_label(slot: &[u8]) -> bool
    ensures exact { result ≡ is_some (label_in (track_of slot.now)) }
    ensures there { result ≡ true → 3 < length (track_in slot.now).records }
    ensures room { result ≡ true → 80 ≤ length (record_in (track_in slot.now) 3).data_area }
{
    let Ok(view) = read_slot(slot) else {
        return false;
    };
    view.len() > LABEL && is_label(view.data_of(LABEL))
}

// Whether data are those of a volume label.
fn is_label(bytes: &[u8]) -> bool
    ensures exact { result ≡ is_some (volume_label_of bytes.now) }
    ensures room { result ≡ true → 80 ≤ length bytes.now }
{
    volume_label(bytes).is_some()
}

// The data of the label.
fn label_bytes(alloc: Global, slot: &[u8]) -> Result<Vec<u8>, AllocError>
    requires { 3 < length (track_in slot.now).records }
    ensures { IfOk result (λ bytes. bytes.items ≡ (record_in (track_in slot.now) 3).data_area) }
{
    match read_slot(slot) {
        Ok(view) => view.data_of(LABEL).to_vec(alloc),
        Err(_) => Ok(Vec::new(alloc)),
    }
}

// Writes fields into the data of a label.
fn put_fields(bytes: &mut [u8], fields: &LabelFields)
    requires { 80 ≤ length bytes.old }
    ensures fields { bytes.new ≡ with_fields fields.now bytes.old }
    ensures size { length bytes.new ≡ length bytes.old }
{
    put_serial(bytes, fields.serial);
    put_owner(bytes, fields.owner);
}

// Writes a serial number, where one is given.
fn put_serial(bytes: &mut [u8], serial: Option<[u8; 6]>)
    requires { 80 ≤ length bytes.old }
    ensures serial { bytes.new ≡ with_serial serial bytes.old }
    ensures size { length bytes.new ≡ length bytes.old }
{
    if let Some(serial) = serial {
        overwrite(bytes, 4, &serial);
    }
}

// Writes an owner's name, where one is given.
fn put_owner(bytes: &mut [u8], owner: Option<[u8; 10]>)
    requires { 80 ≤ length bytes.old }
    ensures owner { bytes.new ≡ with_owner owner bytes.old }
    ensures size { length bytes.new ≡ length bytes.old }
{
    if let Some(owner) = owner {
        overwrite(bytes, 37, &owner_field(&owner));
    }
}

// The field of an owner's name: four blanks, and the name.
fn owner_field(owner: &[u8; 10]) -> [u8; 14]
    ensures { result ≡ replicate 4 0x40 ++ owner.now }
{
    let mut field = [0x40; 14];
    overwrite(&mut field, 4, owner);
    field
}

// Whether a control block is that of a data set which began on the volume of this serial number.
fn has_serial(block: &Block, serial: [u8; 6]) -> bool
    ensures { result ≡ has_serial serial block.now }
{
    is_data_set(block.kind) && block.bytes[1..7] == serial[..]
}

/// What becomes of a control block where the volume of one serial number gets another: of the format 1 block of a data set that began on the
/// volume the serial number is the new one. None is a block that stays.
pub fn serial_change(block: &Block, old: [u8; 6], new: [u8; 6]) -> Option<BlockChange>
    ensures { result ≡ serial_change old new block.now }
{
    if !has_serial(block, old) {
        return None;
    }
    let mut bytes = block.bytes;
    overwrite(&mut bytes, 1, &new);
    Some(BlockChange {
        block: *block,
        key: block.key,
        bytes,
    })
}
